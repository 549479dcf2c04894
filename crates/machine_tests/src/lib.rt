//! Parts of the machine, of files and of Glk: what no clause says and no row shows.
#![tactic(auto)]

#[cfg(test)]
mod heap;
#[cfg(test)]
mod memory;
#[cfg(test)]
mod save;
#[cfg(test)]
mod stack;
#[cfg(test)]
mod windows;
