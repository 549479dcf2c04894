//! File references (Glk 0.7.5, "File References").

ghost use Rattle.std.specs.Prelude.{◌≡◌, IfOk, OnErr};
ghost use Rattle.glk_streams.specs.Answer.{AnswersOfStreams, GivesWithStreams, LeavesStreams};
ghost use Rattle.glk_streams.specs.Answer.{TakesNoMemory, Yields};
ghost use Rattle.glk_streams.specs.FileRefs as refs;

use crate::fault::StreamStop;
use crate::file::{has_file, remove_file};
use crate::find::find;
use crate::streams::Streams;
use glk_numbers::{MAX_NUMBER, Numbered, is_live};
use std::alloc::{AllocError, Global};
use story_text::Text;

/// How many file references may be live at once.
pub const MAX_REFS: usize = 64;

/// A file reference: its usage as it was given, its rock, and its file's name.
#[derive(Debug, Drop)]
pub struct FileRef {
    pub number: u32,
    pub usage: u32,
    pub rock: u32,
    pub name: Text,
}

impl Numbered for FileRef {
    ghost number_of = { λ fref. fref.number };

    fn number(&self) -> u32 {
        self.number
    }
}

impl Streams {
    /// A file reference with this name as it stands (`clean_name` makes one of what a story
    /// gives); 0 where 64 are live, and where no number is left.
    pub fn make_ref(
        &mut self,
        alloc: Global,
        usage: u32,
        name: &Text,
        rock: u32,
    ) -> Result<u32, AllocError>
        ensures ok { IfOk result (λ n.
            Yields (refs.made_ref self.old usage name.now rock) self.new n) }
        ensures err { OnErr result (self.new ≡ self.old) }
    {
        if self.refs.len() >= MAX_REFS || self.next_ref > MAX_NUMBER {
            return Ok(0);
        }
        let number = self.next_ref;
        self.refs.push(FileRef {
            number,
            usage,
            rock,
            name: name.copy_of(alloc)?,
        })?;
        self.next_ref += 1;
        Ok(number)
    }

    /// A file reference with the name of another; BadObject where that isn't live.
    pub fn copy_ref(
        &mut self,
        alloc: Global,
        usage: u32,
        fref: u32,
        rock: u32,
    ) -> Result<u32, StreamStop>
        ensures value { GivesWithStreams (refs.copied_ref self.old usage fref rock)
            self.new result }
        ensures err { OnErr result (self.new ≡ self.old) }
    {
        match find(&self.refs, fref) {
            None => Err(StreamStop::BadObject),
            Some(at) => {
                let name = self.refs[at].name.copy_of(alloc)?;
                Ok(self.make_ref(alloc, usage, &name, rock)?)
            }
        }
    }

    /// Drops a file reference; its file stays. BadObject where it isn't live.
    pub fn drop_ref(&mut self, fref: u32) -> Result<(), StreamStop>
        ensures value { LeavesStreams (refs.dropped_ref self.old fref) self.new result }
        ensures err { OnErr result (self.new ≡ self.old) }
        ensures refusal { TakesNoMemory result }
    {
        match find(&self.refs, fref) {
            None => Err(StreamStop::BadObject),
            Some(at) => {
                self.refs.remove(at);
                Ok(())
            }
        }
    }

    /// Deletes the reference's file, where it is there. BadObject where the reference isn't live.
    pub fn delete_file(&mut self, fref: u32) -> Result<(), StreamStop>
        ensures value { LeavesStreams (refs.deleted self.old fref) self.new result }
        ensures err { OnErr result (self.new ≡ self.old) }
        ensures refusal { TakesNoMemory result }
    {
        match find(&self.refs, fref) {
            None => Err(StreamStop::BadObject),
            Some(at) => {
                let fref = &self.refs[at];
                remove_file(&mut self.files, fref.usage, &fref.name);
                Ok(())
            }
        }
    }

    /// Whether the reference's file is there. BadObject where the reference isn't live.
    pub fn has_file(&self, fref: u32) -> Result<bool, StreamStop>
        ensures value { AnswersOfStreams (refs.is_there self.now fref) result }
        ensures refusal { TakesNoMemory result }
    {
        match find(&self.refs, fref) {
            None => Err(StreamStop::BadObject),
            Some(at) => {
                let fref = &self.refs[at];
                Ok(has_file(&self.files, fref.usage, &fref.name))
            }
        }
    }

    /// Makes a stream the current one, or none by 0. BadObject where another isn't live.
    pub fn set_current(&mut self, stream: u32) -> Result<(), StreamStop>
        ensures value { LeavesStreams (refs.with_current self.old stream) self.new result }
        ensures err { OnErr result (self.new ≡ self.old) }
        ensures refusal { TakesNoMemory result }
    {
        if stream != 0 && !is_live(&self.streams, stream) {
            return Err(StreamStop::BadObject);
        }
        self.current = stream;
        Ok(())
    }

    /// Sets a stream's style; one above 10 is taken as 0. BadObject where it isn't live.
    pub fn set_style(&mut self, stream: u32, style: u32) -> Result<(), StreamStop>
        ensures value { LeavesStreams (refs.styled self.old stream style) self.new result }
        ensures err { OnErr result (self.new ≡ self.old) }
        ensures refusal { TakesNoMemory result }
    {
        match find(&self.streams, stream) {
            None => Err(StreamStop::BadObject),
            Some(at) => {
                self.streams[at].style = if style > 10 { 0 } else { style };
                Ok(())
            }
        }
    }
}
