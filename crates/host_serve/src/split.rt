//! Passes for one thread more (own).
ghost use Rattle.std.specs.Prelude.{◌≡◌, ◌+◌, ◌^◌, ◌<◌, ◌≤◌, ℕ, IfOk, IfErr, length, map};
ghost use Rattle.turn_cell.specs.Passes.{tag_of};
ghost use Rattle.session_desk.specs.Shared.{desk_tag};
ghost use Rattle.host_serve.specs.Holders.{Holder, holders, seens};
ghost use Rattle.host_serve.specs.Hosts.{AreOf, ArePasses};
ghost use Rattle.host_serve.specs.Splitting.{AreNewest, AreRoots, after_split, first_by};
ghost use Rattle.host_serve.specs.Splitting.{newest_of, with_newest_pass};

use crate::desks::SESSIONS;
use crate::host::{Host, Passes};
use disk_model::Disk;
use session_desk::Desk;
use std::alloc::{AllocError, Global};
use turn_cell::{Cell, Pass};

/// Joins the passes that were split off last into the roots again.
fn join_again<'i, D: Disk + Drop>(
    cells: &[Cell<Desk<'i, D>>],
    roots: &mut [Pass<Desk<'i, D>>],
    mut newest: Vec<Pass<Desk<'i, D>>>,
)
    requires roots { ArePasses desk_tag (map (tag_of desk_tag) roots.old) cells.now roots.old }
    requires newest { AreNewest (length newest.items) cells.now roots.old newest.items }
    ensures holders { holders roots.new
        ≡ first_by with_newest_pass (length newest.entry.items) (holders roots.old) }
    ensures seen { seens roots.new ≡ seens roots.old }
    ensures kept { ArePasses desk_tag (map (tag_of desk_tag) roots.old) cells.now roots.new }
{
    while let Some(pass) = newest.pop() {
        let s = newest.len();
        cells[s].join(&mut roots[s], pass);
    }
}

impl<'i, D: Disk + Drop> Passes<'i, D> {
    /// A pass more of each session, for another thread: each is split off its session's root, and
    /// has seen as much. It waits for nobody. Where memory runs out, the passes that were split off
    /// by then are joined again.
    pub fn split(&mut self, alloc: Global, host: &Host<'i, D>) -> Result<Passes<'i, D>, AllocError>
        requires passes { AreOf host.now self.old }
        requires roots { (most : ℕ) × (most < 2 ^ 32)
            × AreRoots most (holders self.old.desks.items) }
        ensures ok { IfOk result (λ new. AreOf host.now new
            × (holders new.desks.items ≡ map newest_of (holders self.new.desks.items))
            × (seens new.desks.items ≡ seens self.new.desks.items)
            × (holders self.new.desks.items ≡ map after_split (holders self.old.desks.items))) }
        ensures err { IfErr result (λ _. (many : ℕ) × (many ≤ 64)
            × (holders self.new.desks.items
            ≡ first_by (λ (h : Holder). with_newest_pass (after_split h)) many
            (holders self.old.desks.items))) }
        ensures kept { AreOf host.now self.new }
        ensures seen { seens self.new.desks.items ≡ seens self.old.desks.items }
        ensures roots { (most : ℕ) → AreRoots most (holders self.old.desks.items)
            → AreRoots (most + 1) (holders self.new.desks.items) }
    {
        let mut desks = Vec::with_capacity(alloc, usize::from(SESSIONS))?;
        for s in 0..usize::from(SESSIONS) {
            match host.desks[s].split(alloc, &mut self.desks[s]) {
                Ok(pass) => desks.push_reserved(pass),
                Err(error) => {
                    join_again(&host.desks, &mut self.desks, desks);
                    return Err(error);
                }
            }
        }
        Ok(Passes { desks })
    }
}
