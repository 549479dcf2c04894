//! The calls of file references (Glk 0.7.5, "File References").

ghost use Rattle.std.specs.Prelude.{◌≡◌, ◌≤◌, ◌+◌, [], length, slice_index, IfOk};
ghost use Rattle.std.specs.Str.{chars, encode_utf8_all};
ghost use Rattle.std.specs.String.{string_bytes};
ghost use Rattle.glk_dispatch.specs.Answer.{AnswersOverGlk, ChangesGlk, DoesCall, Done};
ghost use Rattle.glk_dispatch.specs.Answer.{MakesAnswer, AnswersItems, glk_call};
ghost use Rattle.glk_dispatch.specs.FileRefs as rows;
ghost use Rattle.glk_dispatch.specs.Selector as selector;

use crate::arguments::MAX_ARGUMENTS;
use crate::called::Called;
use crate::fault::{BAD_OBJECT, BAD_READ, of_streams};
use crate::glk::{Glk, Prompt};
use crate::output::text_start;
use crate::reference::refer;
use glk_streams::{clean_name, temporary_name};
use std::alloc::{AllocError, Global};
use story_text::Text;
use vm_memory::{Memory, Trap};
use vm_stack::Stack;

/// A call of file references.
#[derive(Clone, Copy, Debug, PartialEq, Eq)]
pub enum FileRefCall {
    CreateTemp,
    CreateByName,
    CreateByPrompt,
    CreateFromFileref,
    Destroy,
    Iterate,
    GetRock,
    DeleteFile,
    DoesFileExist,
}

/// The mode of a stream that is read.
const READ: u32 = 2;

#[tactic(auto, unfolding(crate::specs::Selector::fileref_calls))]
pub(crate) fn fileref_call(number: u32) -> Option<(FileRefCall, u32)>
    ensures { result ≡ selector.at_number selector.fileref_calls number }
{
    Some(match number {
        0x60 => (FileRefCall::CreateTemp, 2),
        0x61 => (FileRefCall::CreateByName, 3),
        0x62 => (FileRefCall::CreateByPrompt, 3),
        0x68 => (FileRefCall::CreateFromFileref, 3),
        0x63 => (FileRefCall::Destroy, 1),
        0x64 => (FileRefCall::Iterate, 2),
        0x65 => (FileRefCall::GetRock, 1),
        0x66 => (FileRefCall::DeleteFile, 1),
        0x67 => (FileRefCall::DoesFileExist, 1),
        _ => return None,
    })
}

fn create_temp(alloc: Global, glk: &mut Glk, usage: u32, rock: u32) -> Result<u32, Trap>
    ensures { AnswersOverGlk (Done (rows.temp_made glk.old usage rock)) glk.new result }
{
    let Ok(name) = temporary_name(alloc, glk.streams.next_ref()) else {
        return Err(Trap::NoMemory);
    };
    match glk.streams.make_ref(alloc, usage, &name, rock) {
        Ok(fref) => Ok(fref),
        Err(_) => Err(Trap::NoMemory),
    }
}

// The characters of a string up to its 0, each counted as read.
fn read_name(
    alloc: Global,
    glk: &mut Glk,
    memory: &Memory,
    from: u32,
    most: u32,
) -> Result<Vec<u8>, Trap>
    ensures { AnswersItems (rows.name_read most glk.old memory.now from []) glk.new result }
{
    let mut name = Vec::new(alloc);
    let mut at = from;
    let mut left = most;
    while left > 0 {
        let code = memory.read1(at)?;
        if code == 0 {
            return Ok(name);
        }
        glk.charge();
        if name.push(code as u8).is_err() {
            return Err(Trap::NoMemory);
        }
        at = at.wrapping_add(1);
        left -= 1;
    }
    Err(BAD_READ)
}

// The bytes as characters.
fn text_of(alloc: Global, bytes: &[u8]) -> Result<Text, AllocError>
    ensures { IfOk result (λ text. text ≡ bytes.now) }
{
    let utf8 = utf8_of(alloc, bytes)?;
    Ok(Text::of(utf8))
}

fn utf8_of(alloc: Global, bytes: &[u8]) -> Result<String, AllocError>
    ensures { IfOk result (λ utf8. string_bytes utf8 ≡ encode_utf8_all bytes.now) }
{
    bytes.iter().map(|byte| char::from(*byte)).collect(alloc)
}

// A reference to the file with this name, as it is cleaned.
fn make_named(alloc: Global, glk: &mut Glk, usage: u32, name: &Text, rock: u32) -> Result<u32, Trap>
    ensures { AnswersOverGlk (Done (rows.reference_named glk.old usage name.now rock))
        glk.new result }
{
    let Ok(clean) = clean_name(alloc, name) else {
        return Err(Trap::NoMemory);
    };
    match glk.streams.make_ref(alloc, usage, &clean, rock) {
        Ok(fref) => Ok(fref),
        Err(_) => Err(Trap::NoMemory),
    }
}

// The name of a string argument.
fn name_at(alloc: Global, glk: &mut Glk, memory: &Memory, at: u32) -> Result<Vec<u8>, Trap>
    ensures { AnswersItems (rows.name_at glk.old memory.now at) glk.new result }
{
    let from = text_start(memory, false, at)?;
    read_name(alloc, glk, memory, from, memory.size() + 1)
}

fn create_by_name(
    alloc: Global,
    glk: &mut Glk,
    memory: &Memory,
    usage: u32,
    name_at_address: u32,
    rock: u32,
) -> Result<u32, Trap>
    ensures { AnswersOverGlk (rows.named_made glk.old memory.now usage name_at_address rock)
        glk.new result }
{
    let bytes = name_at(alloc, glk, memory, name_at_address)?;
    let Ok(name) = text_of(alloc, &bytes) else {
        return Err(Trap::NoMemory);
    };
    make_named(alloc, glk, usage, &name, rock)
}

fn count_chars(text: &str) -> usize
    ensures { result ≡ length (chars text.now) }
{
    text.chars().count()
}

// The reference to the file with the name that this prompt asked for; 0 where it is empty, and
// where the file is to be read and isn't there.
fn answer_prompt_for(alloc: Global, glk: &mut Glk, asked: Prompt, name: &Text) -> Result<u32, Trap>
    ensures { AnswersOverGlk (Done (rows.prompted_for glk.old asked name.now)) glk.new result }
{
    if count_chars(name.as_str()) == 0 {
        return Ok(0);
    }
    let Prompt { usage, mode, rock } = asked;
    let Ok(clean) = clean_name(alloc, name) else {
        return Err(Trap::NoMemory);
    };
    if mode == READ && !glk.streams.is_file(usage, &clean) {
        return Ok(0);
    }
    match glk.streams.make_ref(alloc, usage, &clean, rock) {
        Ok(fref) => Ok(fref),
        Err(_) => Err(Trap::NoMemory),
    }
}

/// Gives a file's name to the prompt that waits for it, which is set back.
pub(crate) fn answer_prompt(alloc: Global, glk: &mut Glk, name: &Text) -> Result<u32, Trap>
    ensures { AnswersOverGlk (Done (rows.prompted glk.old name.now)) glk.new result }
{
    let asked = glk.prompt;
    glk.rest();
    answer_prompt_for(alloc, glk, asked, name)
}

fn copy(alloc: Global, glk: &mut Glk, usage: u32, fref: u32, rock: u32) -> Result<u32, Trap>
    ensures { AnswersOverGlk (rows.reference_copied glk.old usage fref rock) glk.new result }
{
    match glk.streams.copy_ref(alloc, usage, fref, rock) {
        Ok(fref) => Ok(fref),
        Err(stop) => Err(of_streams(stop)),
    }
}

fn destroy(glk: &mut Glk, fref: u32) -> Result<(), Trap>
    ensures { ChangesGlk (rows.reference_dropped glk.old fref) glk.new result }
{
    match glk.streams.drop_ref(fref) {
        Ok(()) => Ok(()),
        Err(stop) => Err(of_streams(stop)),
    }
}

fn delete_file(glk: &mut Glk, fref: u32) -> Result<(), Trap>
    ensures { ChangesGlk (rows.file_deleted glk.old fref) glk.new result }
{
    match glk.streams.delete_file(fref) {
        Ok(()) => Ok(()),
        Err(stop) => Err(of_streams(stop)),
    }
}

fn tell_file(glk: &Glk, fref: u32) -> Result<u32, Trap>
    ensures { MakesAnswer (rows.told_of_file glk.now fref) result }
{
    match glk.streams.has_file(fref) {
        Ok(there) => Ok(u32::from(there)),
        Err(stop) => Err(of_streams(stop)),
    }
}

fn iterate(
    glk: &mut Glk,
    memory: &mut Memory,
    stack: &mut Stack,
    fref: u32,
    rock: u32,
) -> Result<Called, Trap>
    ensures { DoesCall (rows.iterates_filerefs (glk_call glk.old memory.old stack.old) fref rock)
        glk.new memory.new stack.new result }
{
    if !glk.is_ref_or_none(fref) {
        return Err(BAD_OBJECT);
    }
    let next = glk.streams.ref_after(fref);
    refer(memory, stack, rock, glk.streams.ref_rock(next))?;
    Ok(Called::Value(next))
}

#[tactic(auto, unfolding(crate::specs::FileRefs::fileref_work))]
pub(crate) fn do_fileref(
    alloc: Global,
    glk: &mut Glk,
    memory: &mut Memory,
    stack: &mut Stack,
    call: FileRefCall,
    args: &[u32; MAX_ARGUMENTS],
) -> Result<Called, Trap>
    ensures { DoesCall (rows.fileref_work call (glk_call glk.old memory.old stack.old)
        (slice_index args.now)) glk.new memory.new stack.new result }
{
    match call {
        FileRefCall::CreateTemp => Ok(Called::Value(create_temp(alloc, glk, args[0], args[1])?)),
        FileRefCall::CreateByName => Ok(Called::Value(create_by_name(
            alloc, glk, memory, args[0], args[1], args[2],
        )?)),
        FileRefCall::CreateByPrompt => {
            glk.prompt = Prompt {
                usage: args[0],
                mode: args[1],
                rock: args[2],
            };
            Ok(Called::Prompt)
        }
        FileRefCall::CreateFromFileref => {
            Ok(Called::Value(copy(alloc, glk, args[0], args[1], args[2])?))
        }
        FileRefCall::Destroy => {
            destroy(glk, args[0])?;
            Ok(Called::Value(0))
        }
        FileRefCall::Iterate => iterate(glk, memory, stack, args[0], args[1]),
        FileRefCall::GetRock => {
            if !glk.is_ref(args[0]) {
                return Err(BAD_OBJECT);
            }
            Ok(Called::Value(glk.streams.ref_rock(args[0])))
        }
        FileRefCall::DeleteFile => {
            delete_file(glk, args[0])?;
            Ok(Called::Value(0))
        }
        FileRefCall::DoesFileExist => Ok(Called::Value(tell_file(glk, args[0])?)),
    }
}
