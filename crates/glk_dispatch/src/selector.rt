//! The selectors of calls, by their classes (Glk 0.7.5, "Table of Selectors").

ghost use Rattle.std.specs.Prelude.{◌≡◌};
ghost use Rattle.glk_dispatch.specs.Selector as selector;

use crate::base::{BaseCall, base_call};
use crate::case::{CaseCall, case_call};
use crate::events::{EventCall, event_call};
use crate::filerefs::{FileRefCall, fileref_call};
use crate::output::{OutputCall, output_call};
use crate::streams::{StreamCall, stream_call};
use crate::style::{StyleCall, style_call};
use crate::windows::{WindowCall, window_call};

/// A call, by its class.
#[derive(Clone, Copy, Debug, PartialEq, Eq)]
pub enum Call {
    Base(BaseCall),
    Window(WindowCall),
    Stream(StreamCall),
    FileRef(FileRefCall),
    Output(OutputCall),
    Style(StyleCall),
    Case(CaseCall),
    Event(EventCall),
    /// Mouse input, sounds, images and hyperlinks, of which there are none.
    Nothing,
}

impl Call {
    /// The call of a selector, and how many arguments it takes; None there for any count.
    pub fn of(number: u32) -> Option<(Call, Option<u32>)>
        ensures { result ≡ selector.call_of number }
    {
        if let Some((call, count)) = base_call(number) {
            return Some((Call::Base(call), Some(count)));
        }
        if let Some((call, count)) = window_call(number) {
            return Some((Call::Window(call), Some(count)));
        }
        if let Some((call, count)) = stream_call(number) {
            return Some((Call::Stream(call), Some(count)));
        }
        if let Some((call, count)) = fileref_call(number) {
            return Some((Call::FileRef(call), Some(count)));
        }
        if let Some((call, count)) = output_call(number) {
            return Some((Call::Output(call), Some(count)));
        }
        if let Some((call, count)) = style_call(number) {
            return Some((Call::Style(call), Some(count)));
        }
        if let Some((call, count)) = case_call(number) {
            return Some((Call::Case(call), Some(count)));
        }
        if let Some((call, count)) = event_call(number) {
            return Some((Call::Event(call), Some(count)));
        }
        nothing_or_none(number)
    }
}

fn nothing_or_none(number: u32) -> Option<(Call, Option<u32>)>
    ensures { result ≡ selector.nothing_or number }
{
    if is_nothing(number) {
        Some((Call::Nothing, None))
    } else {
        None
    }
}

fn is_nothing(number: u32) -> bool
    ensures { result ≡ selector.is_nothing number }
{
    matches!(number, 0xD4..=0xD6 | 0xE0..=0xEB | 0xF0..=0xFF | 0x100..=0x103)
}
