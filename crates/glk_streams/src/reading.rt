//! What streams and file references tell by number.

ghost use Rattle.std.specs.Prelude.{◌≡◌, MatchOption, None, Some};
ghost use Rattle.glk_streams.specs.FileRefs.{of_ref};
ghost use Rattle.glk_streams.specs.Files as files;
ghost use Rattle.glk_streams.specs.Streams.{of_stream, ref_at, stream_at, window_in};

use crate::file::has_file;
use crate::fileref::FileRef;
use crate::find::find;
use crate::stream::Stream;
use crate::streams::Streams;
use story_text::Text;

impl Streams {
    /// The stream with this number.
    pub fn stream(&self, number: u32) -> Option<&Stream>
        ensures { MatchOption result (stream_at self.now number ≡ None)
            (λ s. stream_at self.now number ≡ Some s.now) }
    {
        match find(&self.streams, number) {
            None => None,
            Some(at) => Some(&self.streams[at]),
        }
    }

    /// The file reference with this number.
    pub fn fileref(&self, number: u32) -> Option<&FileRef>
        ensures { MatchOption result (ref_at self.now number ≡ None)
            (λ r. ref_at self.now number ≡ Some r.now) }
    {
        match find(&self.refs, number) {
            None => None,
            Some(at) => Some(&self.refs[at]),
        }
    }

    /// The stream's rock, 0 where it isn't live.
    pub fn rock(&self, stream: u32) -> u32
        ensures { result ≡ of_stream (stream_at self.now stream) 0 (λ s. s.rock) }
    {
        match find(&self.streams, stream) {
            None => 0,
            Some(at) => self.streams[at].rock,
        }
    }

    /// The stream's style, 0 where it isn't live.
    pub fn style(&self, stream: u32) -> u32
        ensures { result ≡ of_stream (stream_at self.now stream) 0 (λ s. s.style) }
    {
        match find(&self.streams, stream) {
            None => 0,
            Some(at) => self.streams[at].style,
        }
    }

    /// The window that the stream is of; 0 where it is no window's, and where it isn't live.
    pub fn window_of(&self, stream: u32) -> u32
        ensures { result ≡ of_stream (stream_at self.now stream) 0 (λ s. window_in s.target) }
    {
        match find(&self.streams, stream) {
            None => 0,
            Some(at) => self.streams[at].target.window(),
        }
    }

    /// The file reference's rock, 0 where it isn't live.
    pub fn ref_rock(&self, fref: u32) -> u32
        ensures { result ≡ of_ref (ref_at self.now fref) 0 (λ r. r.rock) }
    {
        match find(&self.refs, fref) {
            None => 0,
            Some(at) => self.refs[at].rock,
        }
    }

    /// Whether a file with this usage and name is there, as a prompt to read one wants it.
    pub fn is_file(&self, usage: u32, name: &Text) -> bool
        ensures { result ≡ files.has_file self.now.files usage name.now }
    {
        has_file(&self.files, usage, name)
    }
}
