//! A Glk state's fields, and the Glk state of fields (own).

ghost use Rattle.std.specs.Prelude.{◌≡◌, IfOk, IfSome, IsSome};
ghost use Rattle.glk_windows.specs.Valid as windows;
ghost use Rattle.glk_streams.specs.Laws as streams;
ghost use Rattle.glk_dispatch.specs.Valid.{IsValidGlk};
ghost use Rattle.snap_glk.specs.Made as made;
ghost use Rattle.snap_glk.specs.Made.{glk_with_fields};
ghost use Rattle.snap_glk.specs.Making.{AreRequests, MakesSound};
ghost use Rattle.snap_glk.specs.Texts.{AreTexts};
ghost use Rattle.snap_glk.specs.Told as told;
ghost use Rattle.snap_glk.specs.Told.{glk_fields};

use crate::make::make_all;
use crate::tell::tell_all;
use crate::unfit::Unfit;
use crate::windows::tell_windows;
use glk_dispatch::{Glk, Prompt};
use glk_input::Requests;
use glk_streams::Streams;
use glk_windows::Windows;
use snap_fields::{Items, Numbers, SnapFile, SnapFileRef, SnapStream, SnapWindow};
use std::alloc::{AllocError, Global};

/// What a world's bytes say of its Glk state.
#[derive(Drop)]
pub struct GlkFields {
    pub numbers: Numbers,
    pub windows: Items<SnapWindow>,
    pub streams: Items<SnapStream>,
    pub filerefs: Items<SnapFileRef>,
    pub files: Items<SnapFile>,
}

fn numbers_told(glk: &Glk) -> Numbers
    ensures { result ≡ told.numbers_told glk.now }
{
    Numbers {
        window: glk.windows.next(),
        stream: glk.streams.next(),
        fileref: glk.streams.next_ref(),
        root: glk.windows.root(),
        current: glk.streams.current(),
    }
}

/// The fields of a Glk state. The error is want of memory.
pub fn fields_of(alloc: Global, glk: &Glk) -> Result<GlkFields, AllocError>
    ensures value { IfOk result (λ fields. fields ≡ glk_fields glk.now) }
    ensures texts { IfOk result AreTexts }
{
    Ok(GlkFields {
        numbers: numbers_told(glk),
        windows: tell_windows(alloc, glk.windows.slots(), glk.requests.windows())?,
        streams: tell_all(alloc, glk.streams.streams())?,
        filerefs: tell_all(alloc, glk.streams.refs())?,
        files: tell_all(alloc, glk.streams.files())?,
    })
}

fn make_tree(alloc: Global, fields: &GlkFields) -> Result<Windows, Unfit>
    ensures { MakesSound (AreTexts fields.now) windows.IsValidTree (made.windows_made fields.now)
        result }
{
    let list = fields.windows.as_slice();
    let slots = make_all(alloc, list, list)?;
    Windows::of_fields(fields.numbers.window, fields.numbers.root, slots.into_vec()).ok_or(
        Unfit::Invalid,
    )
}

fn make_requests(alloc: Global, fields: &GlkFields) -> Result<Requests, Unfit>
    ensures { MakesSound (AreTexts fields.now) AreRequests (made.requests_made fields.now)
        result }
{
    let list = fields.windows.as_slice();
    let inputs = make_all(alloc, list, list)?;
    Requests::of_fields(inputs.into_vec()).ok_or(Unfit::Invalid)
}

fn make_streams(alloc: Global, fields: &GlkFields) -> Result<Streams, Unfit>
    ensures { MakesSound (AreTexts fields.now) streams.AreValidStreams
        (made.streams_made fields.now)
        result }
{
    let list = fields.windows.as_slice();
    let streams = make_all(alloc, list, fields.streams.as_slice())?;
    let refs = make_all(alloc, list, fields.filerefs.as_slice())?;
    let files = make_all(alloc, list, fields.files.as_slice())?;
    Streams::of_fields(
        fields.numbers.stream,
        fields.numbers.current,
        streams.into_vec(),
        fields.numbers.fileref,
        refs.into_vec(),
        files.into_vec(),
    )
    .ok_or(Unfit::Invalid)
}

fn make_glk(
    alloc: Global,
    cols: u8,
    rows: u8,
    event: u32,
    prompt: Prompt,
    fields: &GlkFields,
) -> Result<Glk, Unfit>
    ensures { MakesSound (AreTexts fields.now) IsValidGlk
        (glk_with_fields cols rows event prompt fields.now) result }
{
    let windows = make_tree(alloc, fields)?;
    let streams = make_streams(alloc, fields)?;
    let requests = make_requests(alloc, fields)?;
    Glk::of_fields(cols, rows, windows, streams, requests, event, prompt).ok_or(Unfit::Invalid)
}

/// The Glk state of these fields, between two turns, on this screen, waiting with this. None where
/// no session may have it, or where a name in the fields is no text. The error is want of memory.
pub fn glk_of(
    alloc: Global,
    cols: u8,
    rows: u8,
    event: u32,
    prompt: Prompt,
    fields: &GlkFields,
) -> Result<Option<Glk>, AllocError>
    ensures value { IfOk result (λ made. IfSome made (λ g.
        g ≡ glk_with_fields cols rows event prompt fields.now)) }
    ensures valid { IfOk result (λ made. IfSome made IsValidGlk) }
    // What a session may have is made.
    ensures found { AreTexts fields.now
        → IsValidGlk (glk_with_fields cols rows event prompt fields.now)
        → IfOk result (λ made. IsSome made) }
{
    match make_glk(alloc, cols, rows, event, prompt, fields) {
        Ok(glk) => Ok(Some(glk)),
        Err(Unfit::Invalid) => Ok(None),
        Err(Unfit::NoMemory) => Err(AllocError),
    }
}
