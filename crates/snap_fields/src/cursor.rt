//! A place in bytes, from which values are taken (own).

ghost use Rattle.std.specs.Prelude.{◌≡◌};
ghost use Rattle.snap_fields.specs.Reading.{ReadsFront, bytes_at, flag1_at, flag4_at, n1_at, n4_at};
ghost use Rattle.snap_fields.specs.Reading.{n8_at};

use crate::fault::SnapFault;
use crate::items::Items;
use std::alloc::Global;
use std::marker::Model;

/// The bytes that aren't read yet, seen by contracts as their list.
#[derive(Drop)]
pub struct Cursor<'a> {
    rest: &'a [u8],
}

impl<'a> Model for Cursor<'a> {
    ghost use Rattle.std.specs.Prelude.{List, ℕ};

    ghost Value = { List ℕ };

    ghost view = { λ c. c.rest.now };
}

impl<'a> Cursor<'a> {
    pub fn of(rest: &'a [u8]) -> Cursor<'a>
        ensures { result ≡ rest.now }
    {
        Cursor { rest }
    }

    /// The bytes that are left.
    pub fn rest(&self) -> &'a [u8]
        ensures { result.now ≡ self.now }
    {
        self.rest
    }

    #[tactic(auto, unfolding(crate::specs::Reading::n1_at))]
    pub fn n1(&mut self) -> Result<u8, SnapFault>
        ensures { ReadsFront n1_at self.old self.new result }
    {
        match self.rest {
            [] => Err(SnapFault::BadSnap),
            [number, rest @ ..] => {
                self.rest = rest;
                Ok(*number)
            }
        }
    }

    #[tactic(auto, unfolding(crate::specs::Reading::n4_at))]
    pub fn n4(&mut self) -> Result<u32, SnapFault>
        ensures { ReadsFront n4_at self.old self.new result }
    {
        if self.rest.len() < 4 {
            return Err(SnapFault::BadSnap);
        }
        let (front, rest) = self.rest.split_at(4);
        self.rest = rest;
        Ok(u32::from_be_bytes([front[0], front[1], front[2], front[3]]))
    }

    #[tactic(auto, unfolding(crate::specs::Reading::n8_at))]
    pub fn n8(&mut self) -> Result<u64, SnapFault>
        ensures { ReadsFront n8_at self.old self.new result }
    {
        if self.rest.len() < 8 {
            return Err(SnapFault::BadSnap);
        }
        let (front, rest) = self.rest.split_at(8);
        self.rest = rest;
        Ok(u64::from_be_bytes([
            front[0], front[1], front[2], front[3], front[4], front[5], front[6], front[7],
        ]))
    }

    /// 0 or 1 in one byte.
    #[tactic(auto, unfolding(crate::specs::Reading::flag1_at))]
    pub fn flag1(&mut self) -> Result<bool, SnapFault>
        ensures { ReadsFront flag1_at self.old self.new result }
    {
        match self.n1()? {
            0 => Ok(false),
            1 => Ok(true),
            _ => Err(SnapFault::BadSnap),
        }
    }

    /// 0 or 1 in four bytes.
    #[tactic(auto, unfolding(crate::specs::Reading::flag4_at))]
    pub fn flag4(&mut self) -> Result<bool, SnapFault>
        ensures { ReadsFront flag4_at self.old self.new result }
    {
        match self.n4()? {
            0 => Ok(false),
            1 => Ok(true),
            _ => Err(SnapFault::BadSnap),
        }
    }

    /// A list of bytes. Its count is compared with the bytes that are left before memory is taken.
    #[tactic(auto, unfolding(crate::specs::Reading::bytes_at))]
    pub fn bytes(&mut self, alloc: Global) -> Result<Items<u8>, SnapFault>
        ensures { ReadsFront bytes_at self.old self.new result }
    {
        let count = self.n4()? as usize;
        if self.rest.len() < count {
            return Err(SnapFault::BadSnap);
        }
        let (front, rest) = self.rest.split_at(count);
        self.rest = rest;
        Ok(Items::of(Vec::from_slice(alloc, front)?))
    }
}
