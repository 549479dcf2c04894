//! Disks, a journal and a snapshot file: what no clause says and no case of `disk_cases` shows.
#![tactic(auto)]

#[cfg(test)]
mod disk;
#[cfg(test)]
mod dying;
#[cfg(test)]
mod journal;
#[cfg(test)]
mod store;
