//! Passes that are joined into others (own).
ghost use Rattle.host_serve.specs.Hosts.{AreOf};
ghost use Rattle.host_serve.specs.Joining.{HasNoRoot, JoinsPasses};

use crate::host::{Host, Passes};
use disk_model::Disk;

impl<'i, D: Disk + Drop> Passes<'i, D> {
    /// Makes one pass of two for each session, which holds the numbers of both and has seen the
    /// longer of their histories. It waits for nobody, and takes no memory.
    pub fn join(&mut self, host: &Host<'i, D>, other: Passes<'i, D>)
        requires passes { AreOf host.now self.old × AreOf host.now other }
        requires numbered { HasNoRoot other }
        ensures joined { JoinsPasses self.old other.entry self.new }
        ensures kept { AreOf host.now self.new }
    {
        let mut desks = other.desks;
        while let Some(pass) = desks.pop() {
            let s = desks.len();
            host.desks[s].join(&mut self.desks[s], pass);
        }
    }
}
