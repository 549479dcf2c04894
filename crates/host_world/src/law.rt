//! What the definitions of a host say (own).

ghost use Rattle.host_world.specs.Laws.{NamesImages, StartsOver, ReadsRows};

/// An event may name exactly the images that a stop may leave, reading finds exactly the rows that
/// bytes spell, and a list of events may begin over any bytes that an opening may meet.
pub fn definitions()
    ensures images { NamesImages }
    ensures rows { ReadsRows }
    ensures starts { StartsOver }
{}
