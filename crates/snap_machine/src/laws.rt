//! The law of parts and machines.

ghost use Rattle.snap_machine.specs.Laws.{GivesBackMachine};

/// What is made of the parts of a machine that waits is the machine.
pub fn gives_back()
    ensures { GivesBackMachine }
{}
