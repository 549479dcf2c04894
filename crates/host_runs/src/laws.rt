//! A run of `pipe` or `serve` (own).

ghost use Rattle.host_top.specs.DoorServed.{HostServes};
ghost use Rattle.host_runs.specs.Certain.{PipeIsCertain};
ghost use Rattle.host_runs.specs.Shows.{ShowsAreKept};
ghost use Rattle.host_runs.specs.Leaves.{LinksLeave, PipeLeaves, RefusalLeaves};

use disk_model::Disk;
use host_top::Outside;

/// What `pipe` does over the disks of a folder is a run on its files: the shows in its replies are
/// the run's, and each image of its disks is what a stop may leave.
pub fn pipe_leaves<D: Disk>()
    ensures { PipeLeaves D.Disk }
{}

/// So is what `serve` does, without its shows.
pub fn links_leave<O: Outside>()
    ensures { LinksLeave O.Disk.Disk
        (HostServes O.Door.Door O.Door.Conn.source O.Door.Conn.sink O.Door.Conn.lent O.Disk.Disk) }
{}

/// A run that doesn't open the journal is one that leaves the folder so that an opening may meet it.
pub fn refusal_leaves<D: Disk>()
    ensures { RefusalLeaves D.Disk }
{}

/// Shows that the turns of lines give are kept in rows that have all sessions' commands behind them.
pub fn shows_are_kept()
    ensures { ShowsAreKept }
{}

/// Where no reply of `pipe` is `NO 11`, a stop leaves the rows with the accepted commands alone.
pub fn pipe_is_certain<D: Disk>()
    ensures { PipeIsCertain D.Disk }
{}
