//! The runs of a CMem chunk (Quetzal 1.4, "Content of dynamic memory").

ghost use Rattle.std.specs.Prelude.{◌≡◌, ◌++◌, ◌∷◌, ℕ, List, OnOk};
ghost use Rattle.vm_undo.specs.Runs.{pairs, zeros};
ghost use Rattle.vm_undo.specs.RunsTest.{are_runs, are_runs_behind, are_runs_from};

use std::alloc::{AllocError, Global};

/// Why bytes are no contents of a memory, or want of memory.
#[derive(Clone, Copy, Debug, PartialEq, Eq)]
pub enum RunsFault {
    /// Memory has no size that it may have, or a run passes its end or lacks its length.
    BadRuns,
    NoMemory,
}

impl From<AllocError> for RunsFault {
    ghost use Rattle.std.specs.Prelude.{◌≡◌};
    ghost use Rattle.vm_undo.specs.declared.runs.RunsFault.TheVariants.{NoMemory};

    ghost from_gives = { λ _ e. e ≡ NoMemory };

    fn from(_: AllocError) -> RunsFault {
        RunsFault::NoMemory
    }
}

/// What stands before a byte of runs: the beginning or a change, a run of 256, a shorter run, or a
/// zero, whose run's length the byte is.
#[derive(Clone, Copy, PartialEq, Eq)]
pub enum Behind {
    Change,
    Full,
    Short,
    Zero,
}

// Sixteen runs of 256.
const PAIRS: [u8; 32] = [
    0, 255, 0, 255, 0, 255, 0, 255, 0, 255, 0, 255, 0, 255, 0, 255, 0, 255, 0, 255, 0, 255, 0, 255,
    0, 255, 0, 255, 0, 255, 0, 255,
];

// Adds so many runs of 256.
fn push_pairs(out: &mut Vec<u8>, count: u32) -> Result<(), AllocError>
    ensures { OnOk result (out.new.items ≡ out.old.items ++ pairs count) }
{
    let mut done = 0;
    while done < count {
        let some = (count - done).min(16);
        out.extend_from_slice(&PAIRS[..some as usize * 2])?;
        done += some;
    }
    Ok(())
}

/// Adds the runs for so many bytes that are as they were.
#[tactic(auto, using(crate::proofs::RunLemmas::zeros_after), unfolding(crate::specs::Runs::zeros))]
pub(crate) fn push_zeros(out: &mut Vec<u8>, count: u32) -> Result<(), AllocError>
    ensures { OnOk result (out.new.items ≡ out.old.items ++ zeros count) }
{
    push_pairs(out, count / 256)?;
    let rest = count % 256;
    if rest > 0 {
        out.push(0)?;
        out.push((rest - 1) as u8)?;
    }
    Ok(())
}

// What a byte of runs leaves behind itself, and over how many bytes the next may go; None where it
// isn't one of runs as the writer codes them.
fn behind_next(behind: Behind, left: u32, byte: u8) -> Option<(Behind, u32)>
    ensures { (bytes : List ℕ) → are_runs_behind behind left (byte ∷ bytes)
        ≡ are_runs_from result bytes }
{
    match behind {
        Behind::Zero => {
            let run = u32::from(byte) + 1;
            if left < run {
                return None;
            }
            if byte == 255 {
                return Some((Behind::Full, left - run));
            }
            Some((Behind::Short, left - run))
        }
        Behind::Short if byte == 0 => None,
        _ => {
            if byte == 0 {
                return Some((Behind::Zero, left));
            }
            if left == 0 {
                return None;
            }
            Some((Behind::Change, left - 1))
        }
    }
}

/// Whether the bytes are runs as the writer codes them, over so many bytes at most.
pub(crate) fn are_runs(size: u32, bytes: &[u8]) -> bool
    ensures { result ≡ are_runs size bytes.now }
{
    let mut left = size;
    let mut behind = Behind::Change;
    for byte in bytes {
        match behind_next(behind, left, *byte) {
            Some((next, rest)) => {
                behind = next;
                left = rest;
            }
            None => return false,
        }
    }
    behind == Behind::Change
}
