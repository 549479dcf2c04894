//! Random words.

ghost use Rattle.std.specs.Prelude.{◌≡◌, ◌<◌, ◌^◌, ◌≤◌, IfOk, OnOk};
ghost use Rattle.vm_exec.specs.Machine.{IsFit, StaysFit};
ghost use Rattle.vm_exec.specs.Random as words;
ghost use Rattle.vm_exec.specs.Rows.Random as rows;
ghost use Rattle.vm_exec.specs.Rows.Work.{DoesAtNoCost};

use crate::Machine;
use crate::step::{Done, Out};
use rand_core::utils::NextWord;
use rand_pcg::Lcg64Xsh32;
use vm_memory::Trap;
use vm_operand::Dest;

/// The stream of words that setrandom starts with a number of the story's.
const CHOSEN: u64 = 54;

/// The stream of words that setrandom starts afresh.
const FRESH: u64 = 2;

/// Where the random words of a session stand: its seed, how often fresh words were started, the
/// generator's start and stream, and how many words were taken of it.
#[derive(Clone, Copy, Debug, PartialEq, Eq)]
pub struct Random {
    pub seed: u64,
    pub fresh: u64,
    pub start: u64,
    pub stream: u64,
    pub taken: u64,
}

impl Random {
    /// How a session with this seed begins.
    pub(crate) fn new(seed: u64) -> Random
        ensures { result ≡ words.seeded seed }
    {
        Random {
            seed,
            fresh: 0,
            start: seed,
            stream: 0,
            taken: 0,
        }
    }

    // The next word.
    fn word(self) -> u32
        ensures { result ≡ words.next_word self }
    {
        let mut generator = Lcg64Xsh32::new(self.start, self.stream);
        generator.advance(self.taken);
        generator.next_word()
    }

    // A word more is taken.
    fn after_word(self) -> Random
        ensures { result ≡ words.after_word self }
    {
        Random {
            taken: self.taken.wrapping_add(1),
            ..self
        }
    }

    // The words of this start and stream.
    fn begun(self, start: u64, stream: u64) -> Random
        ensures { result ≡ record self { start = start; stream = stream; taken = 0 } }
    {
        Random {
            start,
            stream,
            taken: 0,
            ..self
        }
    }

    // After setrandom.
    fn reseeded(self, value: u32) -> Random
        ensures { result ≡ words.reseeded self value }
    {
        if value == 0 {
            let fresh = self.fresh.wrapping_add(1);
            let again = self.begun(self.seed.wrapping_add(fresh), FRESH);
            Random { fresh, ..again }
        } else {
            self.begun(u64::from(value), CHOSEN)
        }
    }
}

// A word within a bound.
fn bounded(bound: u32, word: u32) -> u32
    ensures { result ≡ words.bounded bound word }
{
    if bound == 0 {
        word
    } else if bound < 0x8000_0000 {
        word % bound
    } else {
        (word % bound.wrapping_neg()).wrapping_neg()
    }
}

impl<'i> Machine<'i> {
    pub(crate) fn draw(&mut self, bound: u32, to: Dest) -> Result<Done, Trap>
        ensures does { DoesAtNoCost (rows.draws self.old bound to) self.new result }
        ensures fit { IsFit self.old → IfOk result (λ done. StaysFit self.new done.out) }
    {
        let word = self.random.word();
        self.random = self.random.after_word();
        self.put(to, bounded(bound, word))
    }

    pub(crate) fn set_random(&mut self, value: u32) -> Result<Done, Trap>
        ensures does { DoesAtNoCost (rows.seeds self.old value) self.new result }
        ensures fit { IsFit self.old → IfOk result (λ done. StaysFit self.new done.out) }
    {
        self.random = self.random.reseeded(value);
        self.tell(Out::Ran)
    }
}
