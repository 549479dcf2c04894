//! Runs of the whole program in memory: what no clause says.
#![tactic(auto)]

#[cfg(test)]
mod faults;
#[cfg(test)]
mod runs;
#[cfg(test)]
mod serving;
#[cfg(test)]
mod stores;
