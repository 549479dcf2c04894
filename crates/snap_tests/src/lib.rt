//! A world's bytes: what no clause says.
#![tactic(auto)]

#[cfg(test)]
mod spellings;
