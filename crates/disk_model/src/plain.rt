//! A disk as plain data: what each call makes of it, and which images a stop may leave (own).

ghost use Rattle.std.specs.Prelude.{◌≡◌, ◌≤◌, ◌<◌, ◌+◌, ◌^◌, true, false, length};
ghost use Rattle.std.specs.Prelude.{if◌then◌else◌, IfOk, OnOk, OnErr};
ghost use Rattle.disk_model.specs.Disk.{file_written};
ghost use Rattle.disk_model.specs.DiskState.{settled, after_write, after_sync};
ghost use Rattle.disk_model.specs.Plain.{is_touched, agree, is_image, reading};

use crate::memory::ROOM;
use crate::note::put_piece;
use crate::stop::last_end;
use std::alloc::{AllocError, Global};
use std::marker::Model;

/// A disk: the bytes as a sync left them, those that it reads as, and the ranges written since,
/// each a place and its end. A call that finds no memory changes nothing.
#[derive(Drop)]
pub struct PlainDisk {
    synced: Vec<u8>,
    seen: Vec<u8>,
    ranges: Vec<(u64, u64)>,
}

impl Model for PlainDisk {
    ghost use Rattle.disk_model.specs.DiskState.{DiskState};

    ghost Value = { DiskState };

    ghost view = { λ d. record {
      synced = d.synced.items;
      seen = d.seen.items;
      ranges = d.ranges.items;
    } };
}

fn is_touched(ranges: &[(u64, u64)], place: u64) -> bool
    ensures { result ≡ is_touched place ranges.now }
{
    for range in ranges {
        if range.0 <= place && place < range.1 {
            return true;
        }
    }
    false
}

// Outside the ranges the image has the synced bytes.
#[tactic(auto, using(crate::proofs::PlainLaws::agree_on, crate::proofs::PlainLaws::agree_off))]
fn agrees(synced: &[u8], ranges: &[(u64, u64)], image: &[u8]) -> bool
    requires { length synced.now ≤ length image.now }
    ensures { result ≡ agree (length synced.now) synced.now ranges.now image.now }
{
    for place in 0..synced.len() {
        if !is_touched(ranges, place as u64) && image[place] != synced[place] {
            return false;
        }
    }
    true
}

// Whether a stop may leave this image of these synced bytes and the ranges written since.
fn may_leave(synced: &[u8], ranges: &[(u64, u64)], image: &[u8]) -> bool
    ensures { result ≡ is_image
        (record { synced = synced.now; seen = synced.now; ranges = ranges.now }) image.now }
{
    synced.len() <= image.len()
        && image.len() as u64 <= last_end(ranges, synced.len() as u64)
        && agrees(synced, ranges, image)
}

impl PlainDisk {
    /// A disk that holds these bytes, all of them synced.
    pub fn settled(alloc: Global, bytes: &[u8]) -> Result<PlainDisk, AllocError>
        ensures { IfOk result (λ disk. disk ≡ settled bytes.now) }
    {
        Ok(PlainDisk {
            synced: Vec::from_slice(alloc, bytes)?,
            seen: Vec::from_slice(alloc, bytes)?,
            ranges: Vec::new(alloc),
        })
    }

    /// The bytes that it reads as, lent.
    pub fn seen(&self) -> &[u8]
        ensures { result.now ≡ self.now.seen }
    {
        self.seen.as_slice()
    }

    /// Whether a stop may leave these bytes.
    pub fn is_image(&self, image: &[u8]) -> bool
        ensures { result ≡ is_image self.now image.now }
    {
        may_leave(&self.synced, &self.ranges, image)
    }

    /// A write that is good; past the room nothing happens.
    #[tactic(auto, using(crate::proofs::PlainLaws::write_fits, crate::proofs::PlainLaws::write_past))]
    pub fn write(&mut self, at: u128, piece: &[u8]) -> Result<(), AllocError>
        ensures ok { OnOk result (self.new ≡ after_write true at piece.now self.old) }
        ensures err { OnErr result (self.new ≡ self.old) }
    {
        let end = at.saturating_add(piece.len() as u128);
        if end > ROOM as u128 {
            return Ok(());
        }
        self.ranges.reserve(1)?;
        put_piece(&mut self.seen, at as usize, piece)?;
        let _ = self.ranges.push((at as u64, end as u64));
        Ok(())
    }

    /// A sync that is good.
    pub fn sync(&mut self, alloc: Global) -> Result<(), AllocError>
        ensures ok { OnOk result (self.new ≡ after_sync true self.old) }
        ensures err { OnErr result (self.new ≡ self.old) }
    {
        self.synced = Vec::from_slice(alloc, &self.seen)?;
        self.ranges.clear();
        Ok(())
    }

    /// A call fails that writes nothing. The disk reads as `reads` from then on, where these bytes
    /// are an image; else nothing happens. Answers whether they are.
    pub fn fail(&mut self, alloc: Global, reads: &[u8]) -> Result<bool, AllocError>
        ensures value { IfOk result (λ told. told ≡ is_image self.old reads.now) }
        ensures ok { IfOk result (λ told. self.new
            ≡ (if told then reading reads.now self.old else self.old)) }
        ensures err { OnErr result (self.new ≡ self.old) }
    {
        if !self.is_image(reads) {
            return Ok(false);
        }
        self.seen = Vec::from_slice(alloc, reads)?;
        Ok(true)
    }

    /// A write fails. The disk reads as `reads` from then on, where these bytes are an image then;
    /// else nothing happens. Answers whether they are.
    #[tactic(auto, using(crate::proofs::PlainLaws::write_fits, crate::proofs::PlainLaws::write_past))]
    pub fn fail_write(
        &mut self,
        alloc: Global,
        at: u128,
        piece: &[u8],
        reads: &[u8],
    ) -> Result<bool, AllocError>
        ensures value { IfOk result (λ told. told
            ≡ is_image (after_write false at piece.now self.old) reads.now) }
        ensures ok { IfOk result (λ told. self.new
            ≡ (if told then reading reads.now (after_write false at piece.now self.old)
            else self.old)) }
        ensures err { OnErr result (self.new ≡ self.old) }
    {
        let end = at.saturating_add(piece.len() as u128);
        if end > ROOM as u128 {
            return self.fail(alloc, reads);
        }
        let mut ranges = Vec::from_slice(alloc, &self.ranges)?;
        ranges.push((at as u64, end as u64))?;
        if !may_leave(&self.synced, &ranges, reads) {
            return Ok(false);
        }
        self.seen = Vec::from_slice(alloc, reads)?;
        self.ranges = ranges;
        Ok(true)
    }
}
