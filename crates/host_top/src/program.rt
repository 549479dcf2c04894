//! The whole program but for the streams and files of the system.
ghost use Rattle.std.specs.Prelude.{◌≡◌, ◌⊎◌, [], map, string_bytes, None, IfSome, IsSomeAnd, true};
ghost use Rattle.line_talk.specs.Causes.{Rose};
ghost use Rattle.line_talk.specs.Streams.{Gave, Wrote};
ghost use Rattle.host_top.specs.DoorServed.{HostServes};
ghost use Rattle.host_top.specs.Status.{status_of};
ghost use Rattle.command_words.specs.Words.{command_asked, asked_by};
ghost use Rattle.host_top.specs.Speech.{tasked, writes_once};
ghost use Rattle.host_top.specs.Stories.{stories_of};
ghost use Rattle.host_top.specs.Follows.{DoesTask, FollowsCommand, TellsCaller};
ghost use Rattle.host_top.specs.Calls.{AreThere, DisksStand, NoneIsListed};
ghost use Rattle.host_top.specs.Causes.{HasCause};
ghost use Rattle.host_top.specs.Loads.{LoadsInOrder};
ghost use Rattle.host_top.specs.Complete.{IsInOrder, NoneRose};
ghost use Rattle.host_top.specs.Scene.{scene};
ghost use Rattle.host_top.specs.Writes.{WritesAll};

use crate::check::check;
use crate::drill::drill;
use crate::init::init_folder;
use crate::once::say_once;
use crate::outside::{Fetch, Outside};
use crate::pack::pack_folder;
use crate::pipe::pipe;
use crate::refuse::refuse;
use crate::replay::replay;
use crate::run::run;
use crate::serve::serve;
use crate::status::Status;
use crate::stories::{Unplayed, load_files, stories_of};
use command_words::{Action, Command, VERSION_TEXT, command_of, help_text};
use line_talk::{Sink, Source};
use std::alloc::Global;
use std::sync::Wait;
use std::thread::Threads;

/// The room for one read of input, in bytes.
const ROOM: usize = 4096;

/// Does what the action does over the stories of files.
fn act<R: Threads + Wait + Sync, O: Outside, S: Source, K: Sink>(
    rt: &R,
    alloc: Global,
    command: &Command<'_>,
    files: &[Vec<u8>],
    outside: &mut O,
    input: &mut S,
    output: &mut K,
) -> Status
    ensures value { DoesTask O.Disk.Disk
        (HostServes O.Door.Door O.Door.Conn.source O.Door.Conn.sink O.Door.Conn.lent O.Disk.Disk)
        (tasked command.now.action (stories_of (map (λ f. f.items) files.now))
        command.now.budget command.now.folder.now command.now.into.now)
        (O.outside outside.old) (O.outside outside.new) (S.source input.old) (S.source input.new)
        (K.sink output.old) (K.sink output.new) result }
    ensures read_fault { result ≡ Status.ReadFault
        → Rose (S.source input.old).faults (S.source input.new).faults }
    ensures write_fault { result ≡ Status.WriteFault
        → Rose (K.sink output.old).faults (K.sink output.new).faults }
    ensures unsaid { writes_once command.now.action ≡ true → result ≡ Status.NoMemory
        → Wrote (K.sink output.old) (K.sink output.new) [] }
    ensures stood { DisksStand (O.failing_loans outside.old) (O.outside outside.old)
        (O.outside outside.new) → ¬ (result ≡ Status.DiskFault) }
    ensures kept { (O.outside outside.new).file ≡ (O.outside outside.old).file }
{
    let Ok(mut buffer) = vec![in alloc; 0u8; ROOM] else {
        return Status::NoMemory;
    };
    let stories = match stories_of(alloc, files) {
        Ok(stories) => stories,
        Err(Unplayed::Refused(refusal)) => return refuse(alloc, refusal, output),
        Err(Unplayed::NoMemory) => return Status::NoMemory,
    };
    let budget = command.budget;
    match command.action {
        Action::Run => run(alloc, &stories, budget, input, output, &mut buffer),
        Action::Check => check(alloc, &stories, output),
        Action::Init => init_folder(alloc, command.folder, outside, output),
        Action::Pipe => {
            let folder = command.folder;
            pipe(rt, alloc, &stories, budget, folder, outside, input, output)
        }
        Action::Serve(serving) => {
            let folder = command.folder;
            serve(
                rt, alloc, &stories, budget, folder, serving, outside, output,
            )
        }
        Action::Replay => replay(rt, alloc, &stories, command.folder, outside, output),
        Action::Pack => pack_folder(alloc, command.folder, command.into, outside, output),
        Action::Drill(number) => drill(rt, alloc, number, output),
        Action::Help(topic) => say_once(help_text(topic).as_bytes(), output),
        Action::Version => say_once(VERSION_TEXT.as_bytes(), output),
    }
}

/// Does what a command asks for.
fn follow<R: Threads + Wait + Sync, O: Outside, S: Source, K: Sink>(
    rt: &R,
    alloc: Global,
    command: Command<'_>,
    outside: &mut O,
    input: &mut S,
    output: &mut K,
) -> Status
    ensures done { FollowsCommand O.Disk.Disk
        (HostServes O.Door.Door O.Door.Conn.source O.Door.Conn.sink O.Door.Conn.lent O.Disk.Disk)
        (command_asked command.entry) result
        (O.outside outside.old) (O.outside outside.new) (S.source input.old) (S.source input.new)
        (K.sink output.old) (K.sink output.new) }
    ensures bad_words { ¬ (result ≡ Status.BadWords) }
    ensures unprovoked { NoneIsListed (O.failing_loads outside.old)
        → AreThere (O.outside outside.old).file (command_asked command.entry).names
        → result ≡ Status.ReadFault
        → Rose (S.source input.old).faults (S.source input.new).faults }
    ensures loads { IfSome (O.failing_loads outside.old) (λ calls.
        LoadsInOrder (O.outside outside.old).file (command_asked command.entry).names calls result
        (Rose (S.source input.old).faults (S.source input.new).faults)) }
    ensures read_fault { result ≡ Status.ReadFault
        → Rose (O.outside outside.old).faults (O.outside outside.new).faults
        ⊎ Rose (S.source input.old).faults (S.source input.new).faults }
    ensures write_fault { result ≡ Status.WriteFault
        → Rose (K.sink output.old).faults (K.sink output.new).faults }
    ensures unsaid { writes_once (command_asked command.entry).action ≡ true
        → result ≡ Status.NoMemory → Wrote (K.sink output.old) (K.sink output.new) [] }
    ensures stood { DisksStand (O.failing_loans outside.old) (O.outside outside.old)
        (O.outside outside.new) → ¬ (result ≡ Status.DiskFault) }
    ensures kept { (O.outside outside.new).file ≡ (O.outside outside.old).file }
{
    let files = match load_files(alloc, &command.names, outside) {
        Ok(files) => files,
        Err(Fetch::Failed) => return Status::ReadFault,
        Err(Fetch::NoMemory) => return Status::NoMemory,
    };
    act(rt, alloc, &command, &files, outside, input, output)
}

/// Does what the words after the program's name ask for, and answers the exit status.
pub fn top<R: Threads + Wait + Sync, O: Outside, S: Source, K: Sink>(
    rt: &R,
    alloc: Global,
    words: &[String],
    outside: &mut O,
    input: &mut S,
    output: &mut K,
) -> u8
    // 2 comes exactly where the words aren't taken, unless memory was wanted before that was known,
    // and nothing is read, written, loaded or lent then, and no door opened
    ensures bad_words { result ≡ 2 → asked_by (map string_bytes words.now) ≡ None }
    ensures untaken { asked_by (map string_bytes words.now) ≡ None
        → (result ≡ 2) ⊎ (result ≡ 7) }
    ensures nothing { asked_by (map string_bytes words.now) ≡ None
        → (O.outside outside.new ≡ O.outside outside.old)
        × Gave (S.source input.old) (S.source input.new) []
        × Wrote (K.sink output.old) (K.sink output.new) [] }

    // where it ends with 0, what each command writes, for a caller who is told the files, the input
    // and what the output holds: of `pipe` the replies of stories that are run alone
    ensures writes { IfSome (asked_by (map string_bytes words.now)) (λ asked. result ≡ 0
        → WritesAll O.Disk.Disk asked
        (scene (O.outside outside.old) (S.source input.old) (K.sink output.old))
        (scene (O.outside outside.new) (S.source input.new) (K.sink output.new))) }

    // each status has its cause, for such a caller
    ensures causes { IfSome (asked_by (map string_bytes words.now)) (λ asked.
        IsSomeAnd (status_of result) (HasCause O.Disk.Disk asked
        (scene (O.outside outside.old) (S.source input.old) (K.sink output.old))
        (scene (O.outside outside.new) (S.source input.new) (K.sink output.new)))) }

    // the causes of faults, told or not, and no file changes; nothing is written where a disk failed
    ensures read_fault { result ≡ 4
        → Rose (O.outside outside.old).faults (O.outside outside.new).faults
        ⊎ Rose (S.source input.old).faults (S.source input.new).faults }
    ensures write_fault { result ≡ 5
        → Rose (K.sink output.old).faults (K.sink output.new).faults }
    ensures disk_fault { result ≡ 6
        → Rose (O.outside outside.old).disk_faults (O.outside outside.new).disk_faults
        × Wrote (K.sink output.old) (K.sink output.new) [] }
    ensures door_fault { result ≡ 9
        → Rose (O.outside outside.old).door_faults (O.outside outside.new).door_faults }
    ensures kept { (O.outside outside.new).file ≡ (O.outside outside.old).file }

    // a command of one text has written nothing where it ends with 7
    ensures unsaid { IfSome (asked_by (map string_bytes words.now)) (λ asked.
        writes_once asked.action ≡ true → result ≡ 7
        → Wrote (K.sink output.old) (K.sink output.new) []) }

    // where all is in order and no fault is counted, it ends with 0, or with 7 for want of memory
    ensures complete { IfSome (asked_by (map string_bytes words.now)) (λ asked.
        IsInOrder O.Disk.Disk asked (O.outside outside.old) (S.source input.old)
        (K.sink output.old)
        → ¬ (Rose (O.outside outside.old).faults (O.outside outside.new).faults)
        → ¬ (Rose (O.outside outside.old).disk_faults (O.outside outside.new).disk_faults)
        → NoneRose (O.outside outside.old) (O.outside outside.new) (S.source input.old)
        (S.source input.new) (K.sink output.old) (K.sink output.new)
        → (result ≡ 0) ⊎ (result ≡ 7)) }
    // and so it does where no load is to fail and no call for a disk, none of these is out, and each
    // stands: it makes no load or call of its own that fails
    ensures unprovoked { IfSome (asked_by (map string_bytes words.now)) (λ asked.
        IsInOrder O.Disk.Disk asked (O.outside outside.old) (S.source input.old)
        (K.sink output.old)
        → NoneIsListed (O.failing_loads outside.old)
        → ¬ (Rose (O.outside outside.old).disk_faults (O.outside outside.new).disk_faults)
        ⊎ DisksStand (O.failing_loans outside.old) (O.outside outside.old) (O.outside outside.new)
        → NoneRose (O.outside outside.old) (O.outside outside.new) (S.source input.old)
        (S.source input.new) (K.sink output.old) (K.sink output.new)
        → (result ≡ 0) ⊎ (result ≡ 7)) }

    // where it is told which loads are to fail, the files are loaded in the order of their names: 4
    // comes of the first load that was to fail, behind stories alone, or of the input; so where a
    // story is refused, none of the loads up to it was to fail
    ensures loads { IfSome (asked_by (map string_bytes words.now)) (λ asked.
        IsSomeAnd (status_of result) (λ status. IfSome (O.failing_loads outside.old) (λ calls.
        LoadsInOrder (O.outside outside.old).file asked.names calls status
        (Rose (S.source input.old).faults (S.source input.new).faults)))) }

    // what was asked is done as far as the status says, in plain words for such a caller
    ensures told { IfSome (asked_by (map string_bytes words.now)) (λ asked.
        IsSomeAnd (status_of result) (λ status. TellsCaller O.Disk.Disk asked status
        (O.outside outside.old) (S.source input.old) (K.sink output.old) (K.sink output.new))) }

    // and the same of what is read, written, lent and left, told or not
    ensures done { IfSome (asked_by (map string_bytes words.now)) (λ asked.
        IsSomeAnd (status_of result) (λ status. FollowsCommand O.Disk.Disk
        (HostServes O.Door.Door O.Door.Conn.source O.Door.Conn.sink O.Door.Conn.lent O.Disk.Disk)
        asked status (O.outside outside.old) (O.outside outside.new) (S.source input.old)
        (S.source input.new) (K.sink output.old) (K.sink output.new))) }
{
    let command = match command_of(alloc, words) {
        Ok(Some(command)) => command,
        Ok(None) => return Status::BadWords.code(),
        Err(_) => return Status::NoMemory.code(),
    };
    let status = follow(rt, alloc, command, outside, input, output);
    status.code()
}
