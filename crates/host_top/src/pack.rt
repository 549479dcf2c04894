//! The command `pack`, which begins a folder with the games of another one that are in use.
ghost use Rattle.std.specs.Prelude.{◌≡◌, ◌⊎◌, ◌<◌, [], IfOk, List, ℕ, false, string_bytes};
ghost use Rattle.std.specs.Str.{bytes_eq};
ghost use Rattle.disk_model.specs.Work.{SameDisk};
ghost use Rattle.host_top.specs.Borrowed.{Lending, journal_in, snap_in};
ghost use Rattle.host_top.specs.Calls.{DisksStand, NoneFailed, NoneIsListed};
ghost use Rattle.host_top.specs.Files.{KeepsDoors, KeepsFiles, is_out};
ghost use Rattle.host_top.specs.Packed.{Packs, PacksNew, PacksOn, PacksOver, SaysPackFault};
ghost use Rattle.host_top.specs.Packed.{packed_line};
ghost use Rattle.line_talk.specs.Causes.{Rose};
ghost use Rattle.line_talk.specs.Streams.{SourceState, Wrote};

use crate::folder::journal_name;
use crate::init::{is_empty, make_stores};
use crate::outside::Outside;
use crate::say::{say_fault, say_line};
use crate::status::Status;
use disk_model::{Disk, Failed};
use journal_pack::{PackFault, Packed, pack};
use line_talk::Sink;
use std::alloc::{AllocError, Global};

/// The line of a journal that was packed.
fn packed_line(alloc: Global, packed: Packed) -> Result<String, AllocError>
    ensures { IfOk result (λ line. string_bytes line ≡ packed_line packed.kept packed.all) }
{
    let Packed { kept, all } = packed;
    format!(in alloc; "packed {kept} of {all}\n")
}

/// Says why a journal isn't packed.
fn say_pack_fault<K: Sink>(alloc: Global, fault: PackFault, output: &mut K) -> Status
    ensures value { SaysPackFault fault (K.sink output.old) (K.sink output.new) result }
    ensures write_fault { result ≡ Status.WriteFault
        → Rose (K.sink output.old).faults (K.sink output.new).faults }
    ensures unsaid { result ≡ Status.NoMemory
        → Wrote (K.sink output.old) (K.sink output.new) [] }
    ensures read_fault { ¬ (result ≡ Status.ReadFault) }
{
    match fault {
        PackFault::Old(why) => say_fault(alloc, why, output),
        PackFault::NotEmpty => say_line(b"not empty\n", Status::BadFolder, output),
        PackFault::New(_) => Status::DiskFault,
        PackFault::NoMemory => Status::NoMemory,
    }
}

/// Packs the journal on one disk into one on another, and says so.
fn pack_over<D: Disk, K: Sink>(alloc: Global, old: &mut D, new: &mut D, output: &mut K) -> Status
    ensures value { PacksOver D.Disk (record {
      old = old.old;
      old_back = old.new;
      new = new.old;
      new_back = new.new;
    }) (K.sink output.old) (K.sink output.new) result }
    ensures kept { SameDisk D.Disk old.old old.new × SameDisk D.Disk new.old new.new }
    ensures read_fault { ¬ (result ≡ Status.ReadFault) }
    ensures write_fault { result ≡ Status.WriteFault
        → Rose (K.sink output.old).faults (K.sink output.new).faults }
    ensures unsaid { result ≡ Status.NoMemory
        → Wrote (K.sink output.old) (K.sink output.new) [] }
{
    let packed = match pack(alloc, old, new) {
        Ok(packed) => packed,
        Err(fault) => return say_pack_fault(alloc, fault, output),
    };
    match packed_line(alloc, packed) {
        Ok(line) => say_line(line.as_bytes(), Status::Done, output),
        Err(_) => Status::NoMemory,
    }
}

/// Makes the stores of a folder, whose journal's disk `new` is, and packs the journal on `old` into
/// that one. The size of `new` is looked at before anything is written.
fn pack_all<O: Outside, K: Sink>(
    alloc: Global,
    folder: &str,
    old: &mut O::Disk,
    new: &mut O::Disk,
    outside: &mut O,
    output: &mut K,
) -> Status
    ensures value { (stores : List (Lending O.Disk)) × Packs O.Disk.Disk folder.now (record {
      old = old.old;
      old_back = old.new;
      new = new.old;
      new_back = new.new;
    }) stores stores (O.outside outside.old) (O.outside outside.new)
        (K.sink output.old) (K.sink output.new) result }
    ensures kept { SameDisk O.Disk.Disk old.old old.new × SameDisk O.Disk.Disk new.old new.new }
    ensures read_fault { ¬ (result ≡ Status.ReadFault) }
    ensures write_fault { result ≡ Status.WriteFault
        → Rose (K.sink output.old).faults (K.sink output.new).faults }
    ensures unsaid { result ≡ Status.NoMemory
        → Wrote (K.sink output.old) (K.sink output.new) [] }
    // where each store's disk stands, that of a journal failed
    ensures stood { NoneIsListed (O.failing_loans outside.old)
        → ((s : ℕ) → s < 64
        → is_out ((O.outside outside.old).loan (snap_in folder.now s)) ≡ false)
        → NoneFailed (O.outside outside.new).loan → result ≡ Status.DiskFault
        → Rose (O.Disk.faults old.old) (O.Disk.faults old.new)
        ⊎ Rose (O.Disk.faults new.old) (O.Disk.faults new.new) }
    ensures files { KeepsFiles (O.outside outside.old) (O.outside outside.new) }
    ensures doors { KeepsDoors (O.outside outside.old) (O.outside outside.new) }
{
    match is_empty(new) {
        Ok(true) => match make_stores(alloc, folder, outside) {
            Ok(()) => pack_over(alloc, old, new, output),
            Err(why) => Status::of_fetch(why),
        },
        Ok(false) => say_line(b"not empty\n", Status::BadFolder, output),
        Err(Failed) => Status::DiskFault,
    }
}

/// The same of the folder of that name, whose journal's disk is lent for it.
fn pack_into<O: Outside, K: Sink>(
    alloc: Global,
    folder: &str,
    old: &mut O::Disk,
    outside: &mut O,
    output: &mut K,
) -> Status
    ensures value { (input : SourceState) → PacksNew O.Disk.Disk folder.now old.old old.new
        (O.outside outside.old) (O.outside outside.new) input
        (K.sink output.old) (K.sink output.new) result }
    ensures kept { SameDisk O.Disk.Disk old.old old.new }
    ensures read_fault { ¬ (result ≡ Status.ReadFault) }
    ensures write_fault { result ≡ Status.WriteFault
        → Rose (K.sink output.old).faults (K.sink output.new).faults }
    ensures unsaid { result ≡ Status.NoMemory
        → Wrote (K.sink output.old) (K.sink output.new) [] }
    // where each disk of that folder stands, that of the old journal failed
    ensures stood { NoneIsListed (O.failing_loans outside.old)
        → is_out ((O.outside outside.old).loan (journal_in folder.now)) ≡ false
        → ((s : ℕ) → s < 64
        → is_out ((O.outside outside.old).loan (snap_in folder.now s)) ≡ false)
        → NoneFailed (O.outside outside.new).loan → result ≡ Status.DiskFault
        → Rose (O.Disk.faults old.old) (O.Disk.faults old.new) }
    ensures files { KeepsFiles (O.outside outside.old) (O.outside outside.new) }
    ensures doors { KeepsDoors (O.outside outside.old) (O.outside outside.new) }
{
    let Ok(name) = journal_name(alloc, folder) else {
        return Status::NoMemory;
    };
    let mut new = match outside.disk(alloc, &name) {
        Ok(disk) => disk,
        Err(why) => return Status::of_fetch(why),
    };
    let status = pack_all(alloc, folder, old, &mut new, outside, output);
    outside.put_back(&name, new);
    status
}

/// Packs the journal of a folder into that of another, whose stores are made. No input is read.
pub fn pack_folder<O: Outside, K: Sink>(
    alloc: Global,
    old: &str,
    new: &str,
    outside: &mut O,
    output: &mut K,
) -> Status
    requires { bytes_eq old.now new.now ≡ false }
    ensures value { (input : SourceState) → PacksOn O.Disk.Disk old.now new.now
        (O.outside outside.old) (O.outside outside.new) input input
        (K.sink output.old) (K.sink output.new) result }
    ensures read_fault { ¬ (result ≡ Status.ReadFault) }
    ensures write_fault { result ≡ Status.WriteFault
        → Rose (K.sink output.old).faults (K.sink output.new).faults }
    ensures unsaid { result ≡ Status.NoMemory
        → Wrote (K.sink output.old) (K.sink output.new) [] }
    ensures stood { DisksStand (O.failing_loans outside.old) (O.outside outside.old)
        (O.outside outside.new) → ¬ (result ≡ Status.DiskFault) }
    ensures files { KeepsFiles (O.outside outside.old) (O.outside outside.new) }
    ensures doors { KeepsDoors (O.outside outside.old) (O.outside outside.new) }
{
    let Ok(name) = journal_name(alloc, old) else {
        return Status::NoMemory;
    };
    outside.only_look();
    let mut disk = match outside.disk(alloc, &name) {
        Ok(disk) => disk,
        Err(why) => return Status::of_fetch(why),
    };
    outside.may_write();
    let status = pack_into(alloc, new, &mut disk, outside, output);
    outside.put_back(&name, disk);
    status
}
