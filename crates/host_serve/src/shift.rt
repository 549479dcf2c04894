//! One worker at a door (own).
use crate::crew::Crew;
use crate::door::{Door, Next};
use crate::host::{Host, Passes};
use crate::pause::Pause;
use crate::worked::Worked;
use disk_model::Disk;
use std::alloc::Global;
use std::sync::{Mutex, Wait};

/// A host at a door, as its workers share it.
#[derive(Drop)]
pub struct Shift<'a, 'i, D: Disk, R, O, P> {
    pub host: &'a Host<'i, D>,
    pub rt: &'a R,
    pub alloc: Global,
    pub door: &'a O,
    pub pause: &'a P,
    /// How many links were taken. It is held while a worker takes one.
    pub taken: Mutex<u32>,
}

// A method of a trait can't call a function that asks for `Sync`, so a worker is one function.
impl<'a, 'i, D: Disk + Drop, R: Wait, O: Door, P: Pause> Crew<Passes<'i, D>, Worked<O>>
    for Shift<'a, 'i, D, R, O, P> {
    ghost use Rattle.host_serve.specs.Doors.{IsDoorShut, Works};
    ghost use Rattle.host_serve.specs.Hosts.{AreOf, IsSound};

    ghost ready = { λ s passes. AreOf s.host.now passes };

    ghost did = { λ s old new answer. Works O.Conn.source O.Conn.sink O.Conn.lent
        (O.gives s.door.now) (O.shuts s.door.now) (O.fails s.door.now) (IsSound D.Disk)
        s.host.now old new answer };

    ghost is_end = { IsDoorShut };

    /// Serves links of the door, one after the other, until it is shut or fails.
    fn run(&self, passes: &mut Passes<'i, D>) -> Worked<O> {
        for _ in self.rt.forever() {
            let mut taken = self.taken.lock(self.rt);
            let number = *taken;
            match self.door.next(self.rt) {
                Next::Link(mut link) => {
                    *taken = number.wrapping_add(1);
                    drop(taken);
                    let mut marks = Vec::new(self.alloc);
                    let why = self.host.serve(
                        self.rt, self.alloc, passes, self.pause, number, &mut link, &mut marks,
                    );
                    self.door.hang_up(self.rt, link, &why);
                }
                Next::Shut(end) => return Worked::Shut(end),
                Next::Failed(fault) => return Worked::DoorFault(fault),
            }
        }
        unreachable!()
    }

    /// The first fault of the two, or else what the second was told.
    fn either(&self, a: Worked<O>, b: Worked<O>) -> Worked<O> {
        match a {
            Worked::Shut(_) => b,
            fault => fault,
        }
    }
}
