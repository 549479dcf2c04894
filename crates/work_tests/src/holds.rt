//! Pauses that hold a thread until another one came further.
use host_serve::Pause;
use std::sync::atomic::{AtomicBool, AtomicU64, Ordering};
use turn_cell::{Pass, Told};

/// How often a thread that is held looks whether it may go on.
const LOOKS: u64 = 1_000_000_000;

/// Waits until the number isn't 0. False is that it stayed so.
pub fn is_reached(number: &AtomicU64) -> bool {
    for _ in 0..LOOKS {
        if number.load(Ordering::SeqCst) > 0 {
            return true;
        }
    }
    false
}

/// Holds the reply of link 0 until a link was hung up.
#[derive(Drop)]
pub struct HeldReply<'a> {
    pub hung_up: &'a AtomicU64,
    /// The replies of link 0 and those of others.
    pub replies: (AtomicU64, AtomicU64),
    /// No link was hung up meanwhile.
    pub failed: AtomicBool,
}

impl<'a> HeldReply<'a> {
    pub fn new(hung_up: &'a AtomicU64) -> HeldReply<'a> {
        HeldReply {
            hung_up,
            replies: (AtomicU64::new(0), AtomicU64::new(0)),
            failed: AtomicBool::new(false),
        }
    }

    /// Whether each of two links had a reply, and none was held for too long.
    pub fn is_met(&self) -> bool {
        self.replies.0.load(Ordering::SeqCst) == 1
            && self.replies.1.load(Ordering::SeqCst) == 1
            && !self.failed.load(Ordering::SeqCst)
    }
}

impl<'a> Pause for HeldReply<'a> {
    fn in_turn<T: Told>(&self, _session: u8, _pass: &Pass<T>) {}

    fn before_reply(&self, link: u32) {
        if link != 0 {
            self.replies.1.fetch_add(1, Ordering::SeqCst);
            return;
        }
        self.replies.0.fetch_add(1, Ordering::SeqCst);
        if !is_reached(self.hung_up) {
            self.failed.store(true, Ordering::SeqCst);
        }
    }
}

/// Holds the first turn of session 0 until link 1 has a reply.
#[derive(Drop)]
pub struct HeldTurn {
    /// The turns of session 0.
    pub turns: AtomicU64,
    /// The replies of link 1.
    pub replies: AtomicU64,
    /// Link 1 had no reply meanwhile.
    pub failed: AtomicBool,
}

impl HeldTurn {
    pub fn new() -> HeldTurn {
        HeldTurn {
            turns: AtomicU64::new(0),
            replies: AtomicU64::new(0),
            failed: AtomicBool::new(false),
        }
    }

    /// Whether session 0 had one turn and link 1 one reply, and none was held for too long.
    pub fn is_met(&self) -> bool {
        self.turns.load(Ordering::SeqCst) == 1
            && self.replies.load(Ordering::SeqCst) == 1
            && !self.failed.load(Ordering::SeqCst)
    }
}

impl Pause for HeldTurn {
    fn in_turn<T: Told>(&self, session: u8, _pass: &Pass<T>) {
        if session == 0
            && self.turns.fetch_add(1, Ordering::SeqCst) == 0
            && !is_reached(&self.replies)
        {
            self.failed.store(true, Ordering::SeqCst);
        }
    }

    fn before_reply(&self, link: u32) {
        if link == 1 {
            self.replies.fetch_add(1, Ordering::SeqCst);
        }
    }
}
