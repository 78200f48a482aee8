//! Ends in memory, which fail at listed calls.
ghost use Rattle.std.specs.Prelude.{◌≡◌, ◌+◌, ◌-◌, ◌≤◌, ◌<◌, ◌++◌, [], IsTrue, true, length, take, drop, min, IfOk, OnErr, is_err};
ghost use Rattle.wasi_host.specs.HostLaws.{Risen};
ghost use Rattle.wasi_io.specs.Ends.{Gave, Schedule, BytesLeft, BytesTaken, is_listed, is_refused, after_call};

use crate::source_sink::{Failed, Sink, Source};
use std::alloc::{AllocError, Global};
use std::marker::Model;

// Which calls fail, and how many came and failed.
#[derive(Debug, Drop)]
struct Turns {
    failing: Vec<u64>,
    calls: u64,
    faults: u64,
}

impl Model for Turns {
    ghost use Rattle.wasi_io.specs.Ends.{Schedule};

    ghost Value = { Schedule };

    ghost view = { λ t. record { calls = t.calls; failing = t.failing.items; faults = t.faults } };
}

impl Turns {
    fn new(failing: Vec<u64>) -> Turns
        ensures { result ≡ record { calls = 0; failing = failing.items; faults = 0 } }
    {
        Turns {
            failing,
            calls: 0,
            faults: 0,
        }
    }

    // Whether the next call is listed.
    fn is_listed(&self) -> bool
        ensures { result ≡ is_listed self.now }
    {
        self.calls < u64::MAX && self.failing.contains(&(self.calls + 1))
    }

    // Counts a call, which fails or not.
    fn count(&mut self, failed: bool)
        ensures schedule { self.new ≡ after_call self.old failed }
        ensures later { self.old.faults ≤ self.new.faults }
    {
        self.calls = self.calls.saturating_add(1);
        if failed {
            self.faults = self.faults.saturating_add(1);
        }
    }
}

/// A source of bytes in memory. Contracts see the bytes that are left, and which calls fail.
#[derive(Debug, Drop)]
pub struct BytesSource {
    bytes: Vec<u8>,
    given: usize,
    turns: Turns,
}

impl Model for BytesSource {
    ghost use Rattle.std.specs.Prelude.{◌≤◌, drop, length};
    ghost use Rattle.wasi_io.specs.Ends.{BytesLeft};

    ghost Value = { BytesLeft };

    ghost view = { λ s. record { left = drop s.given s.bytes.items; schedule = s.turns } };

    ghost invariant = { λ s. s.given ≤ length s.bytes.items };
}

impl BytesSource {
    /// These bytes. The reads whose number is listed fail, where the first read has number 1.
    pub fn new(bytes: Vec<u8>, failing: Vec<u64>) -> BytesSource
        ensures left { result.left ≡ bytes.items }
        ensures schedule { result.schedule ≡ record { calls = 0; failing = failing.items; faults = 0 } }
    {
        BytesSource {
            bytes,
            given: 0,
            turns: Turns::new(failing),
        }
    }
}

impl Source for BytesSource {
    ghost modelled = { true };

    ghost left = { λ s. s.left };

    ghost faults = { λ s. s.schedule.faults };

    fn read(&mut self, buf: &mut [u8]) -> Result<usize, Failed>
        ensures fits { IfOk result (λ n. n ≤ length buf.old) }
        ensures bytes { IsTrue true → IfOk result (λ n. Gave self.old.left self.new.left buf.new n) }
        ensures none { IsTrue true → OnErr result (self.new.left ≡ self.old.left) }
        ensures rest { IfOk result (λ n. drop n buf.new ≡ drop n buf.old) }
        ensures kept { OnErr result (buf.new ≡ buf.old) }
        ensures count { self.old.schedule.faults ≤ self.new.schedule.faults }
        ensures cause { OnErr result (Risen self.old.schedule.faults self.new.schedule.faults) }
        ensures fails { is_err result ≡ is_listed self.old.schedule }
        ensures schedule { self.new.schedule ≡ after_call self.old.schedule (is_err result) }
        ensures most { IfOk result (λ n. n ≡ min (length buf.old) (length self.old.left)) }
    {
        let failed = self.turns.is_listed();
        self.turns.count(failed);
        if failed {
            return Err(Failed);
        }
        let count = buf.len().min(self.bytes.len() - self.given);
        buf[..count].copy_from_slice(&self.bytes[self.given..self.given + count]);
        self.given += count;
        Ok(count)
    }
}

/// A sink in memory. Contracts see the bytes that it took, for how many more it has room, and which calls fail.
#[derive(Debug, Drop)]
pub struct BytesSink {
    bytes: Vec<u8>,
    room: usize,
    turns: Turns,
}

impl Model for BytesSink {
    ghost use Rattle.std.specs.Prelude.{◌+◌, ◌≤◌, vec_len, vec_capacity};
    ghost use Rattle.wasi_io.specs.Ends.{BytesTaken};

    ghost Value = { BytesTaken };

    ghost view = { λ s. record { taken = s.bytes.items; room = s.room; schedule = s.turns } };

    ghost invariant = { λ s. vec_len s.bytes + s.room ≤ vec_capacity s.bytes };
}

impl BytesSink {
    /// Nothing yet, with all its room taken at once, so that writes take no memory. The writes whose number is listed
    /// fail, where the first write has number 1.
    pub fn new(alloc: Global, room: usize, failing: Vec<u64>) -> Result<BytesSink, AllocError>
        ensures taken { IfOk result (λ s. s.taken ≡ []) }
        ensures room { IfOk result (λ s. s.room ≡ room) }
        ensures schedule { IfOk result (λ s. s.schedule ≡ record { calls = 0; failing = failing.items; faults = 0 }) }
    {
        Ok(BytesSink {
            bytes: Vec::with_capacity(alloc, room)?,
            room,
            turns: Turns::new(failing),
        })
    }

    /// All bytes that it took.
    pub fn taken(&self) -> &[u8]
        ensures bytes { result.now ≡ self.now.taken }
    {
        self.bytes.as_slice()
    }
}

impl Sink for BytesSink {
    ghost modelled = { true };

    ghost taken = { λ s. s.taken };

    ghost faults = { λ s. s.schedule.faults };

    fn write(&mut self, piece: &[u8]) -> Result<usize, Failed>
        ensures fits { IfOk result (λ n. n ≤ length piece.now) }
        ensures bytes { IsTrue true → IfOk result (λ n. self.new.taken ≡ self.old.taken ++ take n piece.now) }
        ensures none { IsTrue true → OnErr result (self.new.taken ≡ self.old.taken) }
        ensures count { self.old.schedule.faults ≤ self.new.schedule.faults }
        ensures cause { OnErr result (Risen self.old.schedule.faults self.new.schedule.faults) }
        ensures stuck { IfOk result (λ n. n ≡ 0 → 0 < length piece.now → Risen self.old.schedule.faults self.new.schedule.faults) }
        ensures fails { is_err result ≡ is_refused self.old piece.now }
        ensures schedule { self.new.schedule ≡ after_call self.old.schedule (is_err result) }
        ensures most { IfOk result (λ n. n ≡ min (length piece.now) self.old.room) }
        ensures room { self.new.room + length self.new.taken ≡ self.old.room + length self.old.taken }
    {
        let refused = self.turns.is_listed() || (self.room == 0 && !piece.is_empty());
        self.turns.count(refused);
        if refused {
            return Err(Failed);
        }
        let count = piece.len().min(self.room);
        let extended = self.bytes.extend_from_slice(&piece[..count]);
        prove!(extended.is_ok());
        self.room -= count;
        Ok(count)
    }
}
