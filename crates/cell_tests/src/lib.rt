//! Callers of cells on threads: what no clause says, or only a run shows.
#![tactic(auto)]

#[cfg(test)]
mod threads;
