//! Workers at a door (own).
ghost use Rattle.std.specs.Prelude.{◌<◌, ◌≤◌, length};
ghost use Rattle.turn_cell.specs.History.{Each};
ghost use Rattle.host_serve.specs.Crews.{AllDid};
ghost use Rattle.host_serve.specs.Doors.{IsDoorShut, Works};
ghost use Rattle.host_serve.specs.Hosts.{AreOf, IsSound};

use crate::crew::all_run;
use crate::door::Door;
use crate::host::{Host, Passes};
use crate::pause::Pause;
use crate::shift::Shift;
use crate::worked::Worked;
use disk_model::Disk;
use std::alloc::Global;
use std::sync::{Mutex, Wait};
use std::thread::Threads;

impl<'i, D: Disk + Drop + Send + Sync> Host<'i, D> {
    /// Serves the links of a door by several workers at once, until the door is shut or fails.
    /// Each worker has passes of its own, and hangs a link up with what `serve` answered. Where
    /// the door fails for one, the others go on. However the work ends, the passes of each have
    /// seen what its lines left. Links are numbered from 0 as they are taken.
    pub fn work<R: Threads + Wait + Sync, O: Door, P: Pause + Sync>(
        &self,
        rt: &R,
        alloc: Global,
        door: &O,
        pause: &P,
        workers: &mut [Passes<'i, D>],
    ) -> Worked<O>
        requires workers { (0 < length workers.old) × (length workers.old ≤ 16) }
        requires passes { Each (AreOf self.now) workers.old }
        ensures did { AllDid (Works O.Conn.source O.Conn.sink O.Conn.lent (O.gives door.now)
            (O.shuts door.now) (O.fails door.now) (IsSound D.Disk) self.now) IsDoorShut
            workers.old workers.new result }
    {
        let shift = Shift {
            host: self,
            rt,
            alloc,
            door,
            pause,
            taken: Mutex::new(0),
        };
        let mut answer = None;
        all_run(rt, &shift, &mut answer, workers);
        match answer {
            Some(answer) => answer,
            None => unreachable!(),
        }
    }
}
