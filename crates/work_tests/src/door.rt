//! A door of links in memory.
ghost use Rattle.std.specs.Prelude.{IfOk};
ghost use Rattle.host_serve.specs.Doors.{IsFresh};

use host_serve::{Door, Next, Served};
use line_talk::{MemoryLink, MemorySink, MemorySource, Sink, Source};
use std::alloc::{AllocError, Global};
use std::sync::atomic::{AtomicU64, Ordering};
use std::sync::{Mutex, Wait};

/// A door that gives links of these lines, in their order, and is shut then. Where there are none
/// it fails.
#[derive(Drop)]
pub struct Lines<'a> {
    alloc: Global,
    gives: &'a [Option<&'a [u8]>],
    given: Mutex<usize>,
    ended: Mutex<Vec<(Served, MemoryLink)>>,
    /// How many links were hung up.
    pub hung_up: AtomicU64,
}

/// A link with these lines.
fn link_of(alloc: Global, lines: &[u8]) -> Result<MemoryLink, AllocError>
    ensures { IfOk result (λ link. IsFresh (⟦<MemoryLink as Source>⟧.source link)
        (⟦<MemoryLink as Sink>⟧.sink link)) }
{
    Ok(MemoryLink {
        source: MemorySource::new(lines.to_vec(alloc)?, 7, Vec::new(alloc)),
        sink: MemorySink::new(alloc, 4096, Vec::new(alloc)),
    })
}

impl<'a> Lines<'a> {
    pub fn new(alloc: Global, gives: &'a [Option<&'a [u8]>]) -> Lines<'a> {
        Lines {
            alloc,
            gives,
            given: Mutex::new(0),
            ended: Mutex::new(Vec::new(alloc)),
            hung_up: AtomicU64::new(0),
        }
    }

    /// How many links were hung up at their end that were answered this.
    pub fn answered<R: Wait>(&self, rt: &R, text: &[u8]) -> usize {
        let ended = self.ended.lock(rt);
        ended
            .iter()
            .filter(|(why, link)| *why == Served::End && link.sink.bytes() == text)
            .count()
    }
}

impl<'a> Door for Lines<'a> {
    type Conn = MemoryLink;

    type End = ();

    type Fault = ();

    ghost gives = { λ _ _. Unit {0} };

    ghost shuts = { λ _ _. Unit {0} };

    ghost fails = { λ _ _. Unit {0} };

    fn next<W: Wait>(&self, rt: &W) -> Next<Self> {
        let mut given = self.given.lock(rt);
        let call = *given;
        *given = call.wrapping_add(1);
        match self.gives.get(call) {
            Some(Some(lines)) => match link_of(self.alloc, lines) {
                Ok(link) => Next::Link(link),
                Err(_) => Next::Failed(()),
            },
            Some(None) => Next::Failed(()),
            None => Next::Shut(()),
        }
    }

    fn hang_up<W: Wait>(&self, rt: &W, link: MemoryLink, why: &Served) {
        let mut ended = self.ended.lock(rt);
        if ended.push((*why, link)).is_ok() {
            self.hung_up.fetch_add(1, Ordering::SeqCst);
        }
    }
}
