//! A file of the system as a disk: what is trusted, since nothing is told of its content.
ghost use Rattle.std.specs.Prelude.{◌≡◌, ◌≤◌, ◌^◌, false, Ok, None, IfOk};
ghost use Rattle.disk_model.specs.Disk.{CountsErrors};

use super::held::make;
use super::log::Log;
use super::trouble::Trouble;
use disk_model::{Disk, Failed};
use host_top::Status;
use std::alloc::{AllocError, Global};
use std::fs::File;
use std::io::{self, Eprint, ErrorKind};
use std::os::unix::fs::FileExt;
use std::rt::Files;
use std::time::Clock;

const ROOM: u64 = 1 << 40;

/// What a disk looks at only where its file is missing, or a call fails.
#[derive(Drop)]
struct Account<'r, R> {
    log: &'r Log<'r, R>,
    name: String,
    /// Why a call failed first.
    cause: Option<io::Error>,
}

/// An open file that nobody else writes, or one that is missing, which reads as empty and is made
/// at its first write. It buffers nothing: a size, a write and a sync of a file that is there are
/// one system call each, and so is a read, but for one more where it goes past the end.
///
/// A call fails where the system's does, where a write puts less than was asked or would pass 2^40
/// bytes, and where the file is longer than that.
#[derive(Drop)]
pub struct FileDisk<'r, R> {
    file: Option<File>,
    // Apart, since a session's disk is moved at each of its turns.
    account: Box<Account<'r, R>>,
    reach: u128,
    faults: u64,
    label: u64,
}

impl<'r, R> FileDisk<'r, R> {
    ghost use Rattle.storyhost.specs.FileDisk.{file_reach, file_faults, file_label};

    /// A disk on the file of this name, which is open for reading and writing, or missing.
    pub fn new(
        alloc: Global,
        log: &'r Log<'r, R>,
        name: &str,
        file: Option<File>,
    ) -> Result<FileDisk<'r, R>, AllocError>
        ensures value { IfOk result (λ d. (file_reach d ≡ 0) × (file_faults d ≡ 0)) }
        ensures label { IfOk result (λ d. file_label d ≡ 0) }
    {
        let account = Account {
            log,
            name: String::from_str(alloc, name)?,
            cause: None,
        };
        Ok(FileDisk {
            file,
            account: Box::new(alloc, account)?,
            reach: 0,
            faults: 0,
            label: 0,
        })
    }

    /// From now on its outside knows it by this number.
    pub fn set_label(&mut self, label: u64)
        ensures value { file_label self.new ≡ label }
        ensures kept { (file_reach self.new ≡ file_reach self.old)
            × (file_faults self.new ≡ file_faults self.old) }
    {
        self.label = label;
    }

    /// What went wrong first, where something did.
    pub fn trouble(self) -> Option<Trouble> {
        let account = Box::into_inner(self.account);
        Some(Trouble::of_name(Status::DiskFault, account.name, account.cause?))
    }
}

fn measure(file: &Option<File>) -> io::Result<u64>
    ensures { IfOk result (λ n. n ≤ 2 ^ 40) }
{
    let Some(file) = file else {
        return Ok(0);
    };
    let length = file.metadata()?.len();
    if length > ROOM {
        return Err(ErrorKind::FileTooLarge.into());
    }
    Ok(length)
}

// A read that gives less than was asked is followed by another, until one gives nothing.
fn fill(file: &Option<File>, place: u64, into: &mut [u8]) -> io::Result<()> {
    let mut done = 0;
    if let Some(file) = file {
        while done < into.len() {
            let got = file.read_at(&mut into[done..], place.saturating_add(done as u64))?;
            if got == 0 {
                break;
            }
            done += got;
        }
    }
    into[done..].fill(0);
    Ok(())
}

// A write that puts less than was asked has failed. Another one for the rest tells why, as that the
// disk is full.
fn put(file: &File, place: u64, piece: &[u8]) -> io::Result<()> {
    let got = file.write_at(piece, place)?;
    if got < piece.len() {
        file.write_at(&piece[got..], place.saturating_add(got as u64))?;
        let message = "the system took a part of it alone";
        return Err(io::Error::new(ErrorKind::WriteZero, message));
    }
    Ok(())
}

// The same, of a file that is made where it is missing.
fn put_or_make<R: Files<File = File>>(
    rt: &R,
    name: &str,
    file: &mut Option<File>,
    place: u64,
    piece: &[u8],
) -> io::Result<()> {
    if piece.is_empty() {
        return Ok(());
    }
    if let Some(file) = file {
        return put(file, place, piece);
    }
    let made = make(rt, name)?;
    let answer = put(&made, place, piece);
    *file = Some(made);
    answer
}

fn flush(file: &Option<File>) -> io::Result<()> {
    match file {
        Some(file) => file.sync_data(),
        None => Ok(()),
    }
}

impl<'r, R: Clock + Eprint> Account<'r, R> {
    /// Notes and tells why a call failed.
    fn note(&mut self, call: &str, error: io::Error) {
        self.log
            .tell(format_args!("{}: a {call} failed: {error}", self.name));
        if self.cause.is_none() {
            self.cause = Some(error);
        }
    }
}

// Counts the failure, where it is one.
fn count<R: Clock + Eprint, T>(
    faults: &mut u64,
    account: &mut Account<'_, R>,
    call: &str,
    answer: io::Result<T>,
) -> Result<T, Failed>
    ensures kept { IfOk result (λ value. answer ≡ Ok value) }
    ensures cause { CountsErrors result faults.old faults.new }
{
    match answer {
        Ok(value) => Ok(value),
        Err(error) => {
            *faults = faults.saturating_add(1);
            account.note(call, error);
            Err(Failed)
        }
    }
}

impl<'r, R: Files<File = File> + Clock + Eprint> Disk for FileDisk<'r, R> {
    ghost use Rattle.std.specs.Prelude.{[]};
    ghost use Rattle.std.proofs.Common.{rules, arith};

    ghost tells = { λ _. false };

    ghost steady = { λ _. false };

    ghost fails_at = { λ _ _. false };

    ghost seen = { λ _. [] };

    ghost may_leave = { λ _ _. Unit {0} };

    ghost moment = { λ _. 0 };

    ghost left_since = { λ _ _ _. Unit {0} };

    ghost faults = { λ d. d.faults };

    ghost reach = { λ d. d.reach };

    ghost room = { λ _. 2 ^ 40 };

    ghost label = { λ d. d.label };

    fn size(&mut self) -> Result<u64, Failed> {
        let answer = measure(&self.file);
        count(&mut self.faults, &mut self.account, "size", answer)
    }

    fn read_at(&mut self, place: u64, into: &mut [u8]) -> Result<(), Failed> {
        let answer = fill(&self.file, place, into);
        count(&mut self.faults, &mut self.account, "read", answer)
    }

    fn write_at(&mut self, place: u64, piece: &[u8]) -> Result<(), Failed> {
        let end = place as u128 + piece.len() as u128;
        self.reach = self.reach.max(end);
        let answer = if end > ROOM as u128 {
            Err(ErrorKind::FileTooLarge.into())
        } else {
            let account = &self.account;
            put_or_make(
                account.log.rt(),
                &account.name,
                &mut self.file,
                place,
                piece,
            )
        };
        count(&mut self.faults, &mut self.account, "write", answer)
    }

    fn sync(&mut self) -> Result<(), Failed> {
        let answer = flush(&self.file);
        count(&mut self.faults, &mut self.account, "sync", answer)
    }

    fn faults(&self) -> u64 {
        self.faults
    }

    ghost seen_may_stay = { λ _. tt };

    ghost counts_now = { λ _ _ _ _ _. tt };

    ghost only_now = { λ _ _ _. tt };

    ghost size_within = { λ _ told. Prim.search rules };

    ghost room_is_small = { λ _. Prim.omega arith };
}
