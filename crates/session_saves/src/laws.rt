//! Laws of a session's snapshots (own).

ghost use Rattle.session_saves.specs.Laws.{ImagesStayAgreed, IsWithinSixteen};
ghost use Rattle.session_saves.specs.Laws.{MoreCommandsStayAgreed, NewOpensStayAgreed};
ghost use Rattle.session_saves.specs.Laws.{StaysKeptUp, WantedInputsAreTurns};

use disk_model::Disk;

/// A new OPEN leaves areas in agreement, since its row's place is above all earlier ones.
pub fn new_opens_stay_agreed()
    ensures { NewOpensStayAgreed }
{}

/// So does a command more of the same game.
pub fn more_commands_stay_agreed()
    ensures { MoreCommandsStayAgreed }
{}

/// What a stop may leave of an agreed store is an agreed file.
pub fn images_stay_agreed<D: Disk>()
    ensures { ImagesStayAgreed D.seen }
{}

/// An input more leaves snapshots kept up, where none was due before it.
pub fn stays_kept_up()
    ensures { StaysKeptUp }
{}

/// Snapshots that are kept up have all inputs behind them but for the last 16.
pub fn is_within_sixteen()
    ensures { IsWithinSixteen }
{}

/// As many turns as inputs are taken where all of them are wanted.
pub fn wanted_inputs_are_turns()
    ensures { WantedInputsAreTurns }
{}
