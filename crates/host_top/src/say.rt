//! One line that is written, after which the program ends.
ghost use Rattle.std.specs.Prelude.{◌≡◌, ◌⊎◌, [], IfOk, string_bytes};
ghost use Rattle.line_talk.specs.Causes.{Rose};
ghost use Rattle.line_talk.specs.Streams.{Wrote};
ghost use Rattle.host_top.specs.Said.{bad_journal_at, SaysLine, SaysFault};

use crate::status::Status;
use gate_journal::JournalFault;
use line_talk::{Sink, write_all};
use std::alloc::{AllocError, Global};

/// Writes a line, and ends with the status where it is written whole.
pub fn say_line<K: Sink>(line: &[u8], status: Status, output: &mut K) -> Status
    ensures value { SaysLine status line.now (K.sink output.old) (K.sink output.new) result }
    ensures write_fault { ¬ (status ≡ Status.WriteFault) → result ≡ Status.WriteFault
        → Rose (K.sink output.old).faults (K.sink output.new).faults }
    ensures others { result ≡ status ⊎ (result ≡ Status.WriteFault) }
{
    match write_all(output, line) {
        Ok(()) => status,
        Err(stop) => Status::of_stop(stop),
    }
}

/// The line for a journal that is corrupt at this place.
fn bad_journal_at(alloc: Global, place: u64) -> Result<String, AllocError>
    ensures { IfOk result (λ line. string_bytes line ≡ bad_journal_at place) }
{
    format!(in alloc; "bad journal {place}\n")
}

/// Says why a journal isn't opened.
pub fn say_fault<K: Sink>(alloc: Global, fault: JournalFault, output: &mut K) -> Status
    ensures value { SaysFault fault (K.sink output.old) (K.sink output.new) result }
    ensures write_fault { result ≡ Status.WriteFault
        → Rose (K.sink output.old).faults (K.sink output.new).faults }
    ensures no_read { ¬ (result ≡ Status.ReadFault) }
    ensures unsaid { result ≡ Status.NoMemory
        → Wrote (K.sink output.old) (K.sink output.new) [] }
{
    match fault {
        JournalFault::NotJournal => say_line(b"bad journal\n", Status::BadFolder, output),
        JournalFault::Corrupt(place) => match bad_journal_at(alloc, place) {
            Ok(line) => say_line(line.as_bytes(), Status::BadFolder, output),
            Err(_) => Status::NoMemory,
        },
        JournalFault::DiskFault(_) => Status::DiskFault,
        JournalFault::NoMemory => Status::NoMemory,
    }
}
