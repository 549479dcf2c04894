//! The files of the system, and its loopback TCP.
ghost use Rattle.std.specs.Prelude.{◌≡◌, ℕ, List, None, Some, OnOk, OnErr};
ghost use Rattle.std.specs.Map.{update};
ghost use Rattle.std.specs.Str.{bytes_eq};
ghost use Rattle.std.specs.BTreeMap.{get_by_text};
ghost use Rattle.host_top.specs.Files.{Told, AreBelow};

use super::disk::FileDisk;
use super::held::{find, look};
use super::log::Log;
use super::patience::Patience;
use super::tcp::{AcceptFault, TcpDoor};
use super::trouble::Trouble;
use disk_model::{Disk, Failed};
use host_serve::Worked;
use host_top::{DoorCall, DoorCalls, Fetch, Loan, Outside, Status};
use std::alloc::{AllocError, Global};
use std::collections::BTreeMap;
use std::env::Env;
use std::fs::{self, File};
use std::io::{self, Eprint, ErrorKind, Read};
use std::net::{Net, TcpListener, TcpStream};
use std::path::Path;
use std::rt::Files;
use std::time::Clock;

/// The most bytes of a file that a load gives.
const MOST_OF_FILE: u64 = 67_108_865;

/// The files of the system, disks on them, and doors on its loopback TCP. Each error counts as a
/// fault, but for want of memory.
#[derive(Drop)]
pub struct SystemFiles<'r, R> {
    log: &'r Log<'r, R>,
    /// The name of the file that was loaded last.
    loaded: Option<String>,
    loans: BTreeMap<String, Loan>,
    calls: u64,
    faults: u64,
    disk_faults: u64,
    door_faults: u64,
    shut: u64,
    door_calls: DoorCalls,
    /// Disks that are lent are only looked at.
    looks: bool,
    /// Standard error is told how far the work is.
    tells: bool,
    /// What went wrong first.
    trouble: Option<Trouble>,
    /// A journal that isn't there.
    missing: Option<Trouble>,
    ghost below: { AreBelow (get_by_text loans) calls },
}

impl<'r, R> SystemFiles<'r, R> {
    /// Standard error is told how far the work is where that is asked for.
    pub fn new(alloc: Global, log: &'r Log<'r, R>, tells: bool) -> SystemFiles<'r, R> {
        SystemFiles {
            log,
            loaded: None,
            loans: BTreeMap::new(alloc),
            calls: 0,
            faults: 0,
            disk_faults: 0,
            door_faults: 0,
            shut: 0,
            door_calls: DoorCalls::none(),
            looks: false,
            tells,
            trouble: None,
            missing: None,
        }
    }
}

impl<'r, R: Files<File = File>> SystemFiles<'r, R> {
    /// Why the file that was loaded last is no story, as another look at it tells.
    fn refusal(self, alloc: Global) -> Option<Trouble> {
        let name = self.loaded?;
        let bytes = read_file(self.log.rt(), alloc, &name).ok()?;
        Trouble::of_story(name, &bytes)
    }

    /// Why a command ended with this code, where that is known.
    pub fn trouble(self, alloc: Global, code: u8) -> Option<Trouble> {
        if code == Status::Refused.code() {
            return self.refusal(alloc);
        }
        if code == Status::BadFolder.code() {
            return self.missing;
        }
        self.trouble.filter(|trouble| trouble.is_of(code))
    }
}

/// The bytes of the file of that name, as many as a load gives.
fn read_file<R: Files<File = File>>(rt: &R, alloc: Global, name: &str) -> io::Result<Vec<u8>> {
    let mut bytes = Vec::new(alloc);
    fs::open(rt, name)?
        .take(MOST_OF_FILE)
        .read_to_end(&mut bytes)?;
    Ok(bytes)
}

/// Keeps what went wrong, where something did, unless something else did before.
fn keep(first: &mut Option<Trouble>, trouble: Option<Trouble>) {
    if first.is_none() {
        *first = trouble;
    }
}

/// Keeps why a file wasn't given, unless something went wrong before.
fn keep_name(
    first: &mut Option<Trouble>,
    status: Status,
    alloc: Global,
    name: &str,
    cause: io::Error,
) {
    // Where memory is wanting for the name it isn't told.
    if let Ok(name) = String::from_str(alloc, name) {
        keep(first, Some(Trouble::of_name(status, name, cause)));
    }
}

/// Keeps that a journal is missing, where this is one.
fn keep_missing(first: &mut Option<Trouble>, alloc: Global, name: &str) {
    if Path::new(name).file_name() == Some("journal") {
        let message = "it isn't there; `storyhost init` begins a folder";
        let cause = io::Error::new(ErrorKind::NotFound, message);
        keep_name(first, Status::BadFolder, alloc, name, cause);
    }
}

/// Listens on this port, with the patience that the environment asks for, and says so.
fn open_door<'r, R>(log: &'r Log<'r, R>, port: u16, links: u32) -> io::Result<TcpDoor<'r, R>>
where
    R: Net<Listener = TcpListener, Stream = TcpStream> + Clock + Env + Eprint,
{
    let door = TcpDoor::open(log, port, links, Patience::of(log.rt())?)?;
    log.begin()?;
    log.write(format_args!("serving on 127.0.0.1:{}", door.port()));
    Ok(door)
}

/// The disk of that name is lent.
fn is_out(loans: &BTreeMap<String, Loan>, name: &str) -> bool {
    match loans.get(name) {
        Some(loan) => loan.is_out(),
        None => false,
    }
}

/// Notes a loan under that name.
fn note(
    alloc: Global,
    loans: &mut BTreeMap<String, Loan>,
    name: &str,
    loan: Loan,
) -> Result<(), AllocError>
    ensures ok { OnOk result ((other : List ℕ) → get_by_text loans.new other
        ≡ update bytes_eq (get_by_text loans.old) name.now (Some loan) other) }
    ensures err { OnErr result ((other : List ℕ)
        → get_by_text loans.new other ≡ get_by_text loans.old other) }
{
    let name = String::from_str(alloc, name)?;
    loans.insert(name, loan)?;
    Ok(())
}

impl<'r, R> Outside for SystemFiles<'r, R>
where
    R: Files<File = File> + Net<Listener = TcpListener, Stream = TcpStream>,
    R: Clock + Env + Eprint + Sync,
{
    ghost use Rattle.host_top.specs.Files.{Closes, KeepsDisks, KeepsFiles};
    ghost use Rattle.storyhost.specs.SystemOutside.{system_state, none_due};

    type Disk = FileDisk<'r, R>;

    type Door = TcpDoor<'r, R>;

    ghost outside = { system_state };

    ghost failing_loads = { none_due };

    ghost failing_loans = { none_due };

    ghost failing_doors = { none_due };

    fn load(&mut self, alloc: Global, name: &str) -> Result<Vec<u8>, Fetch> {
        let error = match read_file(self.log.rt(), alloc, name) {
            Ok(bytes) => {
                // Where memory is wanting for the name it isn't told.
                self.loaded = String::from_str(alloc, name).ok();
                return Ok(bytes);
            }
            Err(error) => error,
        };
        if error.kind() == ErrorKind::OutOfMemory {
            return Err(Fetch::NoMemory);
        }
        keep_name(&mut self.trouble, Status::ReadFault, alloc, name, error);
        self.faults = self.faults.saturating_add(1);
        Err(Fetch::Failed)
    }

    fn disk(&mut self, alloc: Global, name: &str) -> Result<FileDisk<'r, R>, Fetch> {
        if is_out(&self.loans, name) {
            self.disk_faults = self.disk_faults.saturating_add(1);
            return Err(Fetch::Failed);
        }
        let found = if self.looks {
            look(self.log.rt(), name)
        } else {
            find(self.log.rt(), name)
        };
        let file = match found {
            Ok(file) => file,
            Err(error) => {
                if error.kind() == ErrorKind::OutOfMemory {
                    return Err(Fetch::NoMemory);
                }
                keep_name(&mut self.trouble, Status::DiskFault, alloc, name, error);
                self.disk_faults = self.disk_faults.saturating_add(1);
                return Err(Fetch::Failed);
            }
        };
        if file.is_none() {
            keep_missing(&mut self.missing, alloc, name);
        }
        let Ok(mut disk) = FileDisk::new(alloc, self.log, name, file) else {
            return Err(Fetch::NoMemory);
        };
        let label = self.calls;
        if label == u64::MAX {
            return Err(Fetch::NoMemory);
        }
        self.calls = label + 1;
        disk.set_label(label);
        let loan = Loan {
            label,
            from: disk.faults(),
            to: None,
        };
        match note(alloc, &mut self.loans, name, loan) {
            Ok(()) => Ok(disk),
            Err(AllocError) => Err(Fetch::NoMemory),
        }
    }

    fn put_back(&mut self, name: &str, disk: FileDisk<'r, R>) {
        let faults = disk.faults();
        keep(&mut self.trouble, disk.trouble());
        match self.loans.get_mut(name) {
            Some(loan) => loan.end(faults, &mut self.disk_faults),
            None => unreachable!("the disk is lent"),
        }
    }

    fn door(&mut self, port: u16, links: u32) -> Result<TcpDoor<'r, R>, Failed> {
        self.door_calls.add(DoorCall { port, links });
        match open_door(self.log, port, links) {
            Ok(door) => Ok(door),
            Err(error) => {
                let trouble = Trouble::new(Status::DoorFault, error);
                keep(&mut self.trouble, Some(trouble));
                self.door_faults = self.door_faults.saturating_add(1);
                Err(Failed)
            }
        }
    }

    fn only_look(&mut self) {
        self.looks = true;
    }

    fn may_write(&mut self) {
        self.looks = false;
    }

    fn progress(&mut self, left: usize, all: usize) {
        if self.tells {
            let written = all.saturating_sub(left);
            // Where standard error fails, too, nobody is left to be told.
            let _ = self
                .log
                .rt()
                .eprintln(format_args!("storyhost: {written} of {all} games"));
        }
    }

    fn closed(&mut self, how: Worked<TcpDoor<'r, R>>)
        ensures value { Closes how.entry (system_state self.old) (system_state self.new) }
        ensures others { (none_due self.new ≡ none_due self.old)
            × (none_due self.new ≡ none_due self.old)
            × (none_due self.new ≡ none_due self.old) }
        ensures files { KeepsFiles (system_state self.old) (system_state self.new) }
        ensures disks { KeepsDisks (system_state self.old) (system_state self.new) }
    {
        match how {
            Worked::Shut(_) => self.shut = self.shut.saturating_add(1),
            Worked::DoorFault(AcceptFault(error)) => {
                let trouble = Trouble::new(Status::DoorFault, error);
                keep(&mut self.trouble, Some(trouble));
                self.door_faults = self.door_faults.saturating_add(1);
            }
        }
    }
}
