//! Where stories, disks and doors come from.
ghost use Rattle.std.specs.Prelude.{◌≡◌, ◌≤◌, ℕ, List, IsTrue, IfOk, OnErr, IsErrOf, Option};
ghost use Rattle.std.specs.Prelude.{is_err, false};

use disk_model::{Disk, Failed};
use host_serve::{Door, Worked};
use std::alloc::Global;

/// Why the outside gives nothing.
#[derive(Clone, Copy, Debug, PartialEq, Eq)]
pub enum Fetch {
    Failed,
    NoMemory,
}

/// The files and the disks outside, by their names, and its doors.
pub trait Outside {
    ghost use Rattle.line_talk.specs.Causes.{Rose};
    ghost use Rattle.host_top.specs.Files.{OutsideState, IsLoadOf, KeepsFiles, KeepsDisks};
    ghost use Rattle.host_top.specs.Files.{KeepsDoors, Closes, after_call};
    ghost use Rattle.line_talk.specs.Failing.{Failing, FailsAsListed};
    ghost use Rattle.host_top.specs.Files.{IsLentFrom, IsLent, Lends, TakesDiskBack};
    ghost use Rattle.host_top.specs.Files.{is_told_missing, is_out, has_failed};

    /// A disk that it lends.
    type Disk: Disk + Drop + Send + Sync;

    /// A door that it gives.
    type Door: Door + Drop;

    /// What is known of it. The fault counts never fall.
    ghost outside: { Self → OutsideState Self.Disk };

    /// Its loads that are to fail, where it tells them.
    ghost failing_loads: { Self → Option Failing };

    /// Its calls for a disk that are to fail, where it tells them.
    ghost failing_loans: { Self → Option Failing };

    /// Its calls for a door that are to fail, where it tells them.
    ghost failing_doors: { Self → Option Failing };

    /// The bytes of the file of that name, at most the first 67,108,865.
    fn load(&mut self, alloc: Global, name: &str) -> Result<Vec<u8>, Fetch>
        ensures value { IfOk result
            (λ bytes. IsLoadOf ((outside self.old).file name.now) bytes.items) }
        ensures kept { (outside self.new).file ≡ (outside self.old).file }
        ensures later { (outside self.old).faults ≤ (outside self.new).faults }
        ensures cause { IsErrOf result Fetch.Failed
            → Rose (outside self.old).faults (outside self.new).faults }
        // A load whose file is told to be missing fails, too.
        ensures listed { FailsAsListed (failing_loads self.old) (failing_loads self.new)
            (is_told_missing ((outside self.old).file name.now)) (has_failed result) }
        ensures others { (failing_loans self.new ≡ failing_loans self.old)
            × (failing_doors self.new ≡ failing_doors self.old) }
        ensures disks { KeepsDisks (outside self.old) (outside self.new) }
        ensures doors { KeepsDoors (outside self.old) (outside self.new) };

    /// Lends the disk of that name, or an empty one where there is none. A disk that is lent
    /// already isn't lent again.
    fn disk(&mut self, alloc: Global, name: &str) -> Result<Self::Disk, Fetch>
        ensures ok { IfOk result (λ disk. Lends Self.Disk.Disk name.now disk
            (outside self.old) (outside self.new)) }
        ensures given { IfOk result (λ disk. IsTrue (Self.Disk.tells disk)
            → IsLentFrom Self.Disk.Disk ((outside self.old).disk name.now) disk) }
        ensures err { OnErr result ((other : List ℕ)
            → ((outside self.new).disk other ≡ (outside self.old).disk other)
            × ((outside self.new).loan other ≡ (outside self.old).loan other)) }
        ensures later { (outside self.old).disk_faults ≤ (outside self.new).disk_faults }
        ensures cause { IsErrOf result Fetch.Failed
            → Rose (outside self.old).disk_faults (outside self.new).disk_faults }
        // A call for a disk that is lent already fails, too.
        ensures listed { FailsAsListed (failing_loans self.old) (failing_loans self.new)
            (is_out ((outside self.old).loan name.now)) (has_failed result) }
        ensures others { (failing_loads self.new ≡ failing_loads self.old)
            × (failing_doors self.new ≡ failing_doors self.old) }
        ensures files { KeepsFiles (outside self.old) (outside self.new) }
        ensures doors { KeepsDoors (outside self.old) (outside self.new) };

    /// Takes a disk back that it lent under that name.
    fn put_back(&mut self, name: &str, disk: Self::Disk)
        requires { IsLent ((outside self.old).loan name.now) (Self.Disk.label disk) }
        ensures back { TakesDiskBack Self.Disk.faults name.now disk
            (outside self.old) (outside self.new) }
        ensures others { (failing_loads self.new ≡ failing_loads self.old)
            × (failing_loans self.new ≡ failing_loans self.old)
            × (failing_doors self.new ≡ failing_doors self.old) }
        ensures files { KeepsFiles (outside self.old) (outside self.new) }
        ensures doors { KeepsDoors (outside self.old) (outside self.new) };

    /// Gives a door to so many links. The port is one of this machine's own; 0 takes a free one.
    fn door(&mut self, port: u16, links: u32) -> Result<Self::Door, Failed>
        ensures later { (outside self.old).door_faults ≤ (outside self.new).door_faults }
        ensures cause { OnErr result
            (Rose (outside self.old).door_faults (outside self.new).door_faults) }
        ensures listed { FailsAsListed (failing_doors self.old) (failing_doors self.new) false
            (is_err result) }
        ensures others { (failing_loads self.new ≡ failing_loads self.old)
            × (failing_loans self.new ≡ failing_loans self.old) }
        ensures shut { (outside self.new).shut ≡ (outside self.old).shut }
        ensures asked { (outside self.new).door_calls
            ≡ after_call (record { port = port; links = links }) (outside self.old).door_calls }
        ensures files { KeepsFiles (outside self.old) (outside self.new) }
        ensures disks { KeepsDisks (outside self.old) (outside self.new) };

    /// Is told that the disks that it lends from now on are only looked at.
    fn only_look(&mut self)
        ensures value { outside self.new ≡ outside self.old }
        ensures others { (failing_loads self.new ≡ failing_loads self.old)
            × (failing_loans self.new ≡ failing_loans self.old)
            × (failing_doors self.new ≡ failing_doors self.old) };

    /// Is told that those that it lends from now on may be written, too.
    fn may_write(&mut self)
        ensures value { outside self.new ≡ outside self.old }
        ensures others { (failing_loads self.new ≡ failing_loads self.old)
            × (failing_loans self.new ≡ failing_loans self.old)
            × (failing_doors self.new ≡ failing_doors self.old) };

    /// Is told how many of all games are left to be played.
    fn progress(&mut self, left: usize, all: usize)
        ensures value { outside self.new ≡ outside self.old }
        ensures others { (failing_loads self.new ≡ failing_loads self.old)
            × (failing_loans self.new ≡ failing_loans self.old)
            × (failing_doors self.new ≡ failing_doors self.old) };

    /// Is told how the work at a door ended.
    fn closed(&mut self, how: Worked<Self::Door>)
        ensures value { Closes how (outside self.old) (outside self.new) }
        ensures others { (failing_loads self.new ≡ failing_loads self.old)
            × (failing_loans self.new ≡ failing_loans self.old)
            × (failing_doors self.new ≡ failing_doors self.old) }
        ensures files { KeepsFiles (outside self.old) (outside self.new) }
        ensures disks { KeepsDisks (outside self.old) (outside self.new) };
}
