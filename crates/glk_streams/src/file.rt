//! Files, which live inside the session (Glk 0.7.5, "File References").

ghost use Rattle.std.specs.Prelude.{◌≡◌, ◌≤◌, ◌<◌, ◌-◌, ◌+◌, List, ℕ, []};
ghost use Rattle.std.specs.Prelude.{length, is_some, remove, slice_index_or, slice_set, IfNone};
ghost use Rattle.std.specs.Prelude.{IfOk, IfSome, IsTrue, OnErr, OnOk};
ghost use Rattle.std.specs.Ordering.{nat_cmp};
ghost use Rattle.std.specs.Cmp.Lexicographic.{slice_cmp};
ghost use Rattle.glk_streams.specs.Files as files;
ghost use Rattle.glk_streams.specs.Output as output;
ghost use Rattle.vm_memory.specs.MemoryMap.{replaced};

use std::alloc::{AllocError, Global};
use std::cmp::Ordering;
use std::marker::Model;
use story_text::Text;

/// How many files a session has at most.
pub const MAX_FILES: usize = 64;

/// How many bytes the files of a session have at most in sum.
pub const MAX_FILE_BYTES: usize = 1_048_576;

/// The bytes of a file, at most 1,048,576.
#[derive(Debug, Drop)]
pub struct Contents {
    list: Vec<u8>,
}

impl Model for Contents {
    ghost use Rattle.std.specs.Prelude.{◌≤◌, List, ℕ, length};

    ghost Value = { List ℕ };

    ghost view = { λ c. c.list.items };

    ghost invariant = { λ c. length c.list.items ≤ 1048576 };
}

/// A file: its usage modulo 16, its name and its bytes.
#[derive(Debug, Drop)]
pub struct File {
    pub usage: u32,
    pub name: Text,
    pub bytes: Contents,
}

impl Contents {
    /// No bytes.
    pub fn new(alloc: Global) -> Contents
        ensures { result ≡ [] }
    {
        Contents {
            list: Vec::new(alloc),
        }
    }

    /// These bytes; an error where memory runs out.
    pub fn of(alloc: Global, bytes: &[u8]) -> Result<Contents, AllocError>
        requires { length bytes.now ≤ 1048576 }
        ensures { IfOk result (λ c. c ≡ bytes.now) }
    {
        Ok(Contents {
            list: Vec::from_slice(alloc, bytes)?,
        })
    }

    /// Writes bytes over those at a place, and on behind the end.
    pub(crate) fn write(&mut self, at: usize, new: &[u8]) -> Result<(), AllocError>
        requires inside { at ≤ length self.old }
        requires limit { at + length new.now ≤ 1048576 }
        ensures ok { OnOk result (self.new ≡ replaced self.old at new.now) }
        ensures err { OnErr result (self.new ≡ self.old) }
    {
        let room = self.list.len() - at;
        if room < new.len() {
            self.list.extend_from_slice(&new[room..])?;
        }
        put(&mut self.list, at, new);
        Ok(())
    }

    /// Takes out all bytes.
    pub(crate) fn clear(&mut self)
        ensures { self.new ≡ [] }
    {
        self.list.clear();
    }

    /// The bytes, lent.
    pub fn as_slice(&self) -> &[u8]
        ensures value { result.now ≡ self.now }
        ensures within { length result.now ≤ 1048576 }
    {
        self.list.as_slice()
    }
}

/// Writes the bytes at the place.
fn put(bytes: &mut [u8], at: usize, new: &[u8])
    requires { at + length new.now ≤ length bytes.old }
    ensures { bytes.new ≡ replaced bytes.old at new.now }
{
    bytes[at..at + new.len()].copy_from_slice(new);
}

/// Whether the usage has text mode, 0x100.
pub(crate) fn is_text(usage: u32) -> bool
    ensures { result ≡ files.has_text_mode usage }
{
    usage / 256 % 2 == 1
}

impl File {
    /// Whether a file with this usage and name is before this one, is it, or is behind it.
    fn compare(&self, usage: u32, name: &Text) -> Ordering
        ensures { result ≡ files.file_compared usage name.now self.now }
    {
        (usage % 16)
            .cmp(&self.usage)
            .then(name.as_utf8().cmp(self.name.as_utf8()))
    }

    /// How its key is to another's.
    pub(crate) fn key_cmp(&self, other: &File) -> Ordering
        ensures { result ≡ slice_cmp nat_cmp (files.file_key self.now)
            (files.file_key other.now) }
    {
        self.usage
            .cmp(&other.usage)
            .then(self.name.as_utf8().cmp(other.name.as_utf8()))
    }
}

/// Where the file with this usage and name stands.
#[tactic(auto, unfolding(crate::specs::Files::seat_of))]
fn seat_of(list: &[File], usage: u32, name: &Text) -> Option<usize>
    ensures value { result ≡ files.seat_of list.now usage name.now }
    ensures within { IfSome result (λ i. i < length list.now) }
{
    for index in 0..list.len() {
        if list[index].compare(usage, name).is_eq() {
            return Some(index);
        }
    }
    None
}

/// Where the file with this usage and name stands, and what is there.
fn find_file(list: &[File], usage: u32, name: &Text) -> Option<usize>
    ensures within { IfSome result (λ i. i < length list.now) }
    ensures has { files.has_file list.now usage name.now ≡ is_some result }
    ensures none { IfNone result (files.content_of list.now usage name.now ≡ []) }
    ensures some { IfSome result (λ i.
        (d : File) → files.content_of list.now usage name.now
        ≡ (slice_index_or list.now i d).bytes) }
    ensures changed { IfSome result (λ i. (d : File) (bytes : List ℕ)
        → files.file_with_bytes list.now usage name.now bytes
        ≡ slice_set list.now i (record (slice_index_or list.now i d) { bytes = bytes })) }
    ensures left { IfSome result (λ i.
        files.without_file list.now usage name.now ≡ remove list.now i) }
    ensures nothing { IfNone result (files.without_file list.now usage name.now ≡ list.now) }
{
    seat_of(list, usage, name)
}

/// Where a file with this usage and name would be put in.
#[tactic(auto, unfolding(crate::specs::Files::spot_of))]
fn spot_of(list: &[File], usage: u32, name: &Text) -> usize
    ensures value { result ≡ files.spot_of list.now usage name.now }
    ensures within { result ≤ length list.now }
{
    for index in 0..list.len() {
        if list[index].compare(usage, name).is_lt() {
            return index;
        }
    }
    list.len()
}

/// Whether a file with this usage and name is there.
pub(crate) fn has_file(list: &[File], usage: u32, name: &Text) -> bool
    ensures { result ≡ files.has_file list.now usage name.now }
{
    find_file(list, usage, name).is_some()
}

/// The bytes of the file with this usage and name, none where it isn't there.
pub(crate) fn content_of<'a>(list: &'a [File], usage: u32, name: &Text) -> &'a [u8]
    ensures value { result.now ≡ files.content_of list.now usage name.now }
    ensures within { length result.now ≤ 1048576 }
{
    match find_file(list, usage, name) {
        None => &[],
        Some(at) => list[at].bytes.as_slice(),
    }
}

/// Takes out the file with this usage and name.
pub(crate) fn remove_file(list: &mut Vec<File>, usage: u32, name: &Text)
    ensures { list.new.items ≡ files.without_file list.old.items usage name.now }
{
    match find_file(list, usage, name) {
        None => {}
        Some(at) => {
            list.remove(at);
        }
    }
}

/// How many bytes the files may still have.
#[tactic(auto, unfolding(crate::specs::Files::sum_of_bytes))]
fn room_of(list: &[File]) -> usize
    ensures value { result ≡ files.room_of list.now }
    ensures within { result ≤ 1048576 }
{
    let mut room = MAX_FILE_BYTES;
    for file in list {
        room = room.saturating_sub(file.bytes.as_slice().len());
    }
    room
}

/// Whether the file with this usage and name is there or may be made.
pub(crate) fn may_stand(list: &[File], usage: u32, name: &Text) -> bool
    ensures { result ≡ files.file_may_stand list.now usage name.now }
{
    has_file(list, usage, name) || list.len() < MAX_FILES
}

/// Whether the file with this usage and name may have so many bytes written at a place.
#[tactic(auto, using(crate::proofs::FileLemmas::content_within))]
pub(crate) fn is_kept(list: &[File], usage: u32, name: &Text, at: usize, count: usize) -> bool
    requires at { at ≤ 1048576 }
    requires count { count ≤ 4 }
    ensures value { result ≡ output.is_kept list.now usage name.now at count }
    ensures within { IsTrue result → at + count ≤ 1048576 }
{
    may_stand(list, usage, name)
        && (at + count).saturating_sub(content_of(list, usage, name).len()) <= room_of(list)
}

/// Puts in a file that isn't there; an error where memory runs out.
#[tactic(auto, using(crate::proofs::FileLemmas::with_file_at_spot))]
fn insert_file(
    list: &mut Vec<File>,
    alloc: Global,
    usage: u32,
    name: &Text,
    bytes: Contents,
) -> Result<(), AllocError>
    ensures ok { OnOk result (
        list.new.items ≡ files.with_file list.old.items usage name.now bytes) }
    ensures err { OnErr result (list.new.items ≡ list.old.items) }
{
    let spot = spot_of(list, usage, name);
    let name = name.copy_of(alloc)?;
    list.insert(
        spot,
        File {
            usage: usage % 16,
            name,
            bytes,
        },
    )?;
    Ok(())
}

/// Empties the file with this usage and name, which is made where it isn't there.
pub(crate) fn empty_file(
    list: &mut Vec<File>,
    alloc: Global,
    usage: u32,
    name: &Text,
) -> Result<(), AllocError>
    ensures ok { OnOk result
        (list.new.items ≡ files.files_holding list.old.items usage name.now []) }
    ensures err { OnErr result (list.new.items ≡ list.old.items) }
{
    match find_file(list, usage, name) {
        None => insert_file(list, alloc, usage, name, Contents::new(alloc)),
        Some(at) => {
            list[at].bytes.clear();
            Ok(())
        }
    }
}

/// Writes bytes at a place of the file with this usage and name, which is made where it isn't
/// there.
pub(crate) fn write_file(
    list: &mut Vec<File>,
    alloc: Global,
    usage: u32,
    name: &Text,
    at: usize,
    new: &[u8],
) -> Result<(), AllocError>
    requires inside { at ≤ length (files.content_of list.old.items usage name.now) }
    requires limit { at + length new.now ≤ 1048576 }
    ensures ok { OnOk result (
        list.new.items ≡ output.put_at_place list.old.items usage name.now at new.now) }
    ensures err { OnErr result (list.new.items ≡ list.old.items) }
{
    match find_file(list, usage, name) {
        None => insert_file(list, alloc, usage, name, Contents::of(alloc, new)?),
        Some(seat) => list[seat].bytes.write(at, new),
    }
}
