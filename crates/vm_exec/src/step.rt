//! What a step tells.

ghost use Rattle.std.specs.Prelude.{ℕ, ◌≡◌, ◌≤◌};
ghost use Rattle.vm_exec.specs.Row.{IsPriced, step_of};

use vm_operand::Dest;

/// What an instruction tells.
#[derive(Clone, Copy, Debug, PartialEq, Eq)]
pub enum Out {
    /// Nothing.
    Ran,
    /// A character for Glk's current stream.
    Char(u32),
    /// A call of Glk, whose arguments are on the stack; `Machine::finish` goes on.
    Glk { selector: u32, args: u32 },
    /// A save to a stream; `Machine::saved` is what is saved, and `Machine::finish` goes on.
    Save { stream: u32 },
    /// A restore from a stream; `Machine::resume` goes on, or `Machine::finish` where it fails.
    Restore { stream: u32 },
    /// The story is over.
    Quit,
}

/// Where the result goes that the last step asked for.
#[derive(Clone, Copy, Debug, PartialEq, Eq)]
pub enum Waiting {
    /// To a store.
    Store(Dest),
    /// To where the call stub on top says.
    Stub,
}

/// What an instruction told, and what it added to the cost in ticks.
#[derive(Clone, Copy, Debug, PartialEq, Eq)]
pub struct Done {
    pub out: Out,
    pub cost: u64,
}

/// What a step told. The last number is its cost in ticks.
#[derive(Clone, Copy, Debug, PartialEq, Eq)]
pub enum Step {
    /// Nothing.
    Ran(u64),
    /// A character for Glk's current stream.
    Out(u32, u64),
    /// A call of Glk, whose arguments are on the stack; `Machine::finish` goes on.
    Glk { selector: u32, args: u32, cost: u64 },
    /// A save to a stream; `Machine::saved` is what is saved, and `Machine::finish` goes on.
    Save { stream: u32, cost: u64 },
    /// A restore from a stream; `Machine::resume` goes on, or `Machine::finish` where it fails.
    Restore { stream: u32, cost: u64 },
    /// The story is over.
    Quit,
}

impl Done {
    /// What the step tells, with its whole cost.
    #[inline(always)]
    pub(crate) fn step(self, cost: u64) -> Step
        ensures value { result ≡ step_of self.out cost }
        ensures cost { (left : ℕ) → 1 ≤ cost → cost ≤ left → IsPriced left result }
    {
        match self.out {
            Out::Ran => Step::Ran(cost),
            Out::Char(code) => Step::Out(code, cost),
            Out::Glk { selector, args } => Step::Glk {
                selector,
                args,
                cost,
            },
            Out::Save { stream } => Step::Save { stream, cost },
            Out::Restore { stream } => Step::Restore { stream, cost },
            Out::Quit => Step::Quit,
        }
    }
}
