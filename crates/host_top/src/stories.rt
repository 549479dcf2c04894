//! The stories that a command names.
ghost use Rattle.std.specs.Prelude.{◌≡◌, ◌≤◌, map, length, Ok, Some, IfOk, IfErr, IsErrOf};
ghost use Rattle.line_talk.specs.Causes.{Rose};
ghost use Rattle.line_talk.specs.Failing.{Failing};
ghost use Rattle.host_top.specs.Calls.{AreThere, NoneIsListed};
ghost use Rattle.host_top.specs.Files.{KeepsDisks, KeepsDoors};
ghost use Rattle.host_top.specs.Loads.{LoadFails, MakesLoads};
ghost use Rattle.host_top.specs.Stories.{AreFiles, IsLoadSettled, RefusesStories, LoadStopsBehind};
ghost use Rattle.host_top.specs.Stories.{stories_of};

use crate::outside::{Fetch, Outside};
use crate::story_file::{StoryFault, is_story, story_of};
use std::alloc::Global;
use story_run::Story;

/// The first story that is refused: its position from 0, and its fault.
#[derive(Clone, Copy, Debug, PartialEq, Eq)]
pub struct Refusal {
    pub story: usize,
    pub fault: StoryFault,
}

/// Why stories aren't played.
#[derive(Clone, Copy, Debug, PartialEq, Eq)]
pub enum Unplayed {
    Refused(Refusal),
    NoMemory,
}

/// Loads files by their names, one after the other, until a file is no story.
pub fn load_files<O: Outside>(
    alloc: Global,
    names: &[&str],
    outside: &mut O,
) -> Result<Vec<Vec<u8>>, Fetch>
    ensures value { IfOk result (λ files. AreFiles (O.outside outside.old).file
        (map (λ n. n.now) names.now) (map (λ f. f.items) files.items)) }
    ensures settled { IfOk result (λ files. IsLoadSettled
        (map (λ n. n.now) names.now) (map (λ f. f.items) files.items)) }
    ensures behind { IfErr result (λ why. LoadStopsBehind (O.outside outside.old).file
        (map (λ n. n.now) names.now) (why ≡ Fetch.Failed)) }
    ensures cause { IsErrOf result Fetch.Failed
        → Rose (O.outside outside.old).faults (O.outside outside.new).faults }
    // where the files are told to be there and no load is to fail, none does
    ensures unlisted { NoneIsListed (O.failing_loads outside.old)
        → AreThere (O.outside outside.old).file (map (λ n. n.now) names.now)
        → ¬ (IsErrOf result Fetch.Failed) }
    // where it is told which loads are to fail, one is made for each file, and none of them was to
    ensures loads { IfOk result (λ files. (calls : Failing)
        → O.failing_loads outside.old ≡ Some calls
        → MakesLoads (O.outside outside.old).file (map (λ n. n.now) names.now) calls
        (O.failing_loads outside.new) (length files.items)) }
    // or the first that was to fail did
    ensures failed { IsErrOf result Fetch.Failed → (calls : Failing)
        → O.failing_loads outside.old ≡ Some calls
        → LoadFails (O.outside outside.old).file (map (λ n. n.now) names.now) calls }
    ensures kept { (O.outside outside.new).file ≡ (O.outside outside.old).file }
    ensures loans { O.failing_loans outside.new ≡ O.failing_loans outside.old }
    ensures disks { KeepsDisks (O.outside outside.old) (O.outside outside.new) }
    ensures doors { KeepsDoors (O.outside outside.old) (O.outside outside.new) }
    ensures later { (O.outside outside.old).faults ≤ (O.outside outside.new).faults }
{
    let mut files = Vec::new(alloc);
    for name in names {
        let bytes = outside.load(alloc, name)?;
        let is_story = is_story(&bytes);
        match files.push(bytes) {
            Ok(()) => {}
            Err(_) => return Err(Fetch::NoMemory),
        }
        if !is_story {
            return Ok(files);
        }
    }
    Ok(files)
}

/// The stories of files, or the first that is refused.
pub fn stories_of<'i>(alloc: Global, files: &'i [Vec<u8>]) -> Result<Vec<Story<'i>>, Unplayed>
    ensures ok { IfOk result (λ stories.
        stories_of (map (λ f. f.items) files.now) ≡ Ok stories.items) }
    ensures err { IfErr result (RefusesStories (stories_of (map (λ f. f.items) files.now))) }
{
    let mut stories = Vec::new(alloc);
    for file in files {
        match story_of(file) {
            Ok(story) => match stories.push(story) {
                Ok(()) => {}
                Err(_) => return Err(Unplayed::NoMemory),
            },
            Err(fault) => {
                return Err(Unplayed::Refused(Refusal {
                    story: stories.len(),
                    fault,
                }));
            }
        }
    }
    Ok(stories)
}
