//! Workers at a door: what no clause says.
#![tactic(auto)]

#[cfg(test)]
mod door;
#[cfg(test)]
mod holds;
#[cfg(test)]
mod hosts;
#[cfg(test)]
mod watching;
#[cfg(test)]
mod work;
