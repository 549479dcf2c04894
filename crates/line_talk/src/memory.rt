//! A source and a sink in memory, with the calls that are to fail.
ghost use Rattle.std.specs.Prelude.{◌≡◌, ◌≤◌, [], Some, drop, vec_len, false};

use crate::sink::{Put, Sink};
use crate::source::{Got, Source};
use std::alloc::Global;

/// Bytes in memory. A read gives at most `most` of them, and at least one.
/// Reads are counted from 0, and those in `failing` fail.
#[derive(Drop)]
pub struct MemorySource {
    bytes: Vec<u8>,
    at: usize,
    most: usize,
    calls: u64,
    failing: Vec<u64>,
    faults: u64,
    ended: bool,
    ghost in_range: { at ≤ vec_len bytes },
}

impl MemorySource {
    /// All of these bytes are left, and nothing has happened yet.
    pub fn new(bytes: Vec<u8>, most: usize, failing: Vec<u64>) -> MemorySource
        ensures value { ⟦<MemorySource as Source>⟧.source result
            ≡ record { left = Some bytes.items; taken = 0; ended = false; faults = 0 } }
        ensures failing { ⟦<MemorySource as Source>⟧.failing_reads result
            ≡ Some (record { next = 0; listed = failing.items }) }
    {
        MemorySource {
            bytes,
            at: 0,
            most,
            calls: 0,
            failing,
            faults: 0,
            ended: false,
        }
    }
}

impl Source for MemorySource {
    ghost source = { λ s. record {
      left = Some (drop s.at s.bytes.items);
      taken = s.at;
      ended = s.ended;
      faults = s.faults;
    } };

    ghost failing_reads = { λ s. Some (record { next = s.calls; listed = s.failing.items }) };

    ghost Beside = { Unit {0} };

    ghost beside = { λ _. tt };

    fn read(&mut self, into: &mut [u8]) -> Got {
        let call = self.calls;
        self.calls = call.saturating_add(1);
        if self.failing.contains(&call) {
            self.faults = self.faults.saturating_add(1);
            return Got::Failed;
        }
        let left = self.bytes.len() - self.at;
        if left == 0 {
            self.ended = true;
            return Got::End;
        }
        let count = into.len().min(left).min(self.most.max(1));
        into[..count].copy_from_slice(&self.bytes[self.at..self.at + count]);
        self.at += count;
        Got::Bytes(count)
    }
}

/// Bytes that are held in memory. A write takes at most `most` of them, and at least one.
/// Writes are counted from 0, and those in `failing` fail. So does one that finds no memory, which
/// isn't counted.
#[derive(Drop)]
pub struct MemorySink {
    bytes: Vec<u8>,
    most: usize,
    calls: u64,
    failing: Vec<u64>,
    faults: u64,
}

impl MemorySink {
    /// Nothing is held, and nothing has happened yet.
    pub fn new(alloc: Global, most: usize, failing: Vec<u64>) -> MemorySink
        ensures value { ⟦<MemorySink as Sink>⟧.sink result ≡ record { held = Some []; faults = 0 } }
        ensures failing { ⟦<MemorySink as Sink>⟧.failing_writes result
            ≡ Some (record { next = 0; listed = failing.items }) }
    {
        MemorySink {
            bytes: Vec::new(alloc),
            most,
            calls: 0,
            failing,
            faults: 0,
        }
    }

    /// The bytes that are held.
    pub fn bytes(&self) -> &[u8]
        ensures { (⟦<MemorySink as Sink>⟧.sink self.now).held ≡ Some result.now }
    {
        &self.bytes
    }
}

impl Sink for MemorySink {
    ghost sink = { λ s. record { held = Some s.bytes.items; faults = s.faults } };

    ghost failing_writes = { λ s. Some (record { next = s.calls; listed = s.failing.items }) };

    ghost Beside = { Unit {0} };

    ghost beside = { λ _. tt };

    fn write(&mut self, piece: &[u8]) -> Put {
        if self.failing.contains(&self.calls) {
            self.calls = self.calls.saturating_add(1);
            self.faults = self.faults.saturating_add(1);
            return Put::Failed;
        }
        let count = piece.len().min(self.most.max(1));
        if self.bytes.extend_from_slice(&piece[..count]).is_err() {
            self.faults = self.faults.saturating_add(1);
            return Put::Failed;
        }
        self.calls = self.calls.saturating_add(1);
        Put::Took(count)
    }
}
