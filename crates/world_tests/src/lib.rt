//! Lists of events: what no clause says.
#![tactic(auto)]

#[cfg(test)]
mod events;
#[cfg(test)]
mod files;
