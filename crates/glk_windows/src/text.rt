//! Lists of codes, and runs of them in one style.

ghost use Rattle.std.specs.Prelude.{◌≡◌, ◌≤◌, ◌<◌, ◌^◌, ◌++◌, ◌∷◌};
ghost use Rattle.std.specs.Prelude.{[], length, IfOk, IsTrue, OnErr, replicate, slice_set};
ghost use Rattle.glk_windows.specs.Output as output;
ghost use Rattle.glk_windows.specs.Output.{last_longer, run_on};

use std::alloc::{AllocError, Global};
use std::marker::Model;

/// A list of codes.
#[derive(Drop)]
pub struct Codes {
    items: Vec<u32>,
}

impl Model for Codes {
    ghost use Rattle.std.specs.Prelude.{List, ℕ};

    ghost Value = { List ℕ };

    ghost view = { λ t. t.items.items };
}

impl Codes {
    /// No code.
    pub fn new(alloc: Global) -> Codes
        ensures { result ≡ [] }
    {
        Codes {
            items: Vec::new(alloc),
        }
    }

    /// The list as codes.
    pub fn of(items: Vec<u32>) -> Codes
        ensures { result ≡ items.items }
    {
        Codes { items }
    }

    /// The list, lent.
    pub fn as_slice(&self) -> &[u32]
        ensures { result.now ≡ self.now }
    {
        &self.items
    }

    /// One more code. An error is want of memory, and changes nothing.
    pub fn push(&mut self, code: u32) -> Result<(), AllocError>
        ensures ok { IfOk result (λ _. self.new ≡ self.old ++ code ∷ []) }
        ensures err { OnErr result (self.new ≡ self.old) }
    {
        self.items.push(code)?;
        Ok(())
    }

    /// Each code is this one.
    pub(crate) fn fill(&mut self, code: u32)
        ensures { self.new ≡ replicate (length self.old) code }
    {
        self.items.fill(code)
    }

    /// Where no such place is there nothing changes.
    pub(crate) fn set(&mut self, at: usize, code: u32)
        ensures { self.new ≡ slice_set self.old at code }
    {
        if at < self.items.len() {
            self.items[at] = code;
        }
    }
}

/// Codes that were printed in one style.
#[derive(Drop)]
pub struct Run {
    pub style: u32,
    pub codes: Codes,
}

/// Runs of one style each, neighbours of different styles.
#[derive(Drop)]
pub struct Runs {
    items: Vec<Run>,
}

impl Model for Runs {
    ghost use Rattle.std.specs.Prelude.{List};
    ghost use Rattle.glk_windows.specs.declared.text.Run.{Run};

    ghost Value = { List Run };

    ghost view = { λ r. r.items.items };
}

impl Runs {
    /// No run.
    pub fn new(alloc: Global) -> Runs
        ensures { result ≡ [] }
    {
        Runs {
            items: Vec::new(alloc),
        }
    }

    /// The list, lent.
    pub fn as_slice(&self) -> &[Run]
        ensures { result.now ≡ self.now }
    {
        &self.items
    }

    /// No run.
    pub(crate) fn clear(&mut self)
        ensures { self.new ≡ [] }
    {
        self.items.truncate(0)
    }

    /// Puts a code at the end, in the last run where its style is this one. An error is want of
    /// memory, and changes nothing.
    pub fn push(&mut self, alloc: Global, code: u32, style: u32) -> Result<(), AllocError>
        ensures ok { IfOk result (λ _. self.new ≡ run_on self.old code style) }
        ensures err { OnErr result (self.new ≡ self.old) }
    {
        if ends_in(&self.items, style) {
            lengthen(&mut self.items, code)
        } else {
            self.begin(alloc, code, style)
        }
    }

    // A run of this code alone at the end.
    fn begin(&mut self, alloc: Global, code: u32, style: u32) -> Result<(), AllocError>
        ensures ok { IfOk result (λ _. self.new
            ≡ self.old ++ (record { style = style; codes = code ∷ [] }) ∷ []) }
        ensures err { OnErr result (self.new ≡ self.old) }
    {
        let mut codes = Codes::new(alloc);
        codes.push(code)?;
        self.items.push(Run { style, codes })?;
        Ok(())
    }
}

// Whether the last run has this style.
fn ends_in(runs: &[Run], style: u32) -> bool
    ensures value { result ≡ output.ends_in_style runs.now style }
    ensures within { IsTrue result → 0 < length runs.now }
{
    let count = runs.len();
    count > 0 && runs[count - 1].style == style
}

// Puts the code into the last run.
fn lengthen(runs: &mut [Run], code: u32) -> Result<(), AllocError>
    requires { 0 < length runs.now }
    ensures ok { IfOk result (λ _. runs.new ≡ last_longer runs.old code) }
    ensures err { OnErr result (runs.new ≡ runs.old) }
{
    let last = runs.len() - 1;
    runs[last].codes.push(code)
}
