//! A sink in memory, for tests.
ghost use Rattle.std.specs.Prelude.{◌≡◌, ◌↔◌, ◌<◌, [], length, IsTrue, IsErr, IsSome, IfOk, OnOk, OnErr, Some};
ghost use Rattle.std.specs.Io.{WritesAtMost};
ghost use Rattle.std.specs.Io.KnownBytes.{WriteAppends, Keeps};
ghost use Rattle.std.specs.Result.{is_err};
ghost use Rattle.budget_ports.specs.Faults.{count_after};
ghost use Rattle.budget_ports.specs.Calls.{no_calls, is_listed};
ghost use Rattle.budget_ports.specs.Memory.{failed_sink, flushed, refuses, with_taken};

use crate::calls::Calls;
use crate::stream::{Failed, Sink};
use field_values::NoMemory;
use std::alloc::Global;
use std::marker::Model;

/// A sink that keeps what is written in a room that was reserved when it was made.
///
/// To a contract it is the bytes that were taken, the room, and the calls: their number, those that
/// fail, and how many have failed.
#[derive(Debug, Drop)]
pub struct MemorySink {
    bytes: Vec<u8>,
    room: usize,
    calls: Calls,
}

impl Model for MemorySink {
    ghost use Rattle.std.specs.Prelude.{◌≤◌, vec_len, vec_capacity};
    ghost use Rattle.budget_ports.specs.Memory.{SinkState};

    ghost Value = { SinkState };

    ghost view = { λ s. record { taken = s.bytes.items; room = s.room; calls = s.calls } };

    ghost invariant = { λ s. record { within : vec_len s.bytes ≤ s.room; reserved : s.room ≤ vec_capacity s.bytes } };
}

impl MemorySink {
    /// A sink with room for this many bytes, of which no call fails while the bytes find room.
    pub fn new(alloc: Global, room: usize) -> Result<MemorySink, NoMemory>
        ensures { IfOk result (λ s. s ≡ record { taken = []; room = room; calls = no_calls [] }) }
    {
        MemorySink::with_faults(alloc, room, Vec::new(alloc))
    }

    /// A sink with room for this many bytes. A call whose number is in `calls` fails; writes and flushes
    /// are numbered together from 0.
    pub fn with_faults(alloc: Global, room: usize, calls: Vec<u64>) -> Result<MemorySink, NoMemory>
        ensures { IfOk result (λ s. s ≡ record { taken = []; room = room; calls = no_calls calls.items }) }
    {
        let bytes = Vec::with_capacity(alloc, room)?;
        Ok(MemorySink {
            bytes,
            room,
            calls: Calls::new(calls),
        })
    }

    /// All bytes that were taken, in order.
    pub fn written(&self) -> &[u8]
        ensures { result.now ≡ self.now.taken }
    {
        self.bytes.as_slice()
    }
}

impl Sink for MemorySink {
    ghost taken = { λ s. Some s.taken };

    ghost faults = { λ s. s.calls.faults };

    /// Takes all bytes, or fails: exactly where the call is listed or the room is too small.
    fn write(&mut self, bytes: &[u8]) -> Result<usize, Failed>
        // what each sink promises
        ensures bound { WritesAtMost result bytes.now }
        ensures some { IfOk result (λ n. 0 < length bytes.now → 0 < n) }
        ensures bytes { WriteAppends (Some self.old.taken) (Some self.new.taken) result bytes.now }
        ensures told { IsSome (Some self.new.taken) → IsSome (Some self.old.taken) }
        ensures count { self.new.calls.faults ≡ count_after (is_err result) self.old.calls.faults }

        // what this one does
        ensures fails { IsErr result ↔ IsTrue (refuses self.old bytes.now) }
        ensures all { IfOk result (λ n. n ≡ length bytes.now) }
        ensures ok { OnOk result (self.new ≡ with_taken self.old bytes.now) }
        ensures err { OnErr result (self.new ≡ failed_sink self.old) }
    {
        let fits = bytes.len() <= self.room - self.bytes.len();
        self.calls.begin(fits)?;
        self.bytes.extend_from_slice(bytes).unwrap();
        Ok(bytes.len())
    }

    /// Fails exactly where the call is listed.
    fn flush(&mut self) -> Result<(), Failed>
        // what each sink promises
        ensures bytes { Keeps (Some self.old.taken) (Some self.new.taken) }
        ensures told { IsSome (Some self.new.taken) → IsSome (Some self.old.taken) }
        ensures count { self.new.calls.faults ≡ count_after (is_err result) self.old.calls.faults }

        // what this one does
        ensures fails { IsErr result ↔ IsTrue (is_listed self.old.calls) }
        ensures ok { OnOk result (self.new ≡ flushed self.old) }
        ensures err { OnErr result (self.new ≡ failed_sink self.old) }
    {
        self.calls.begin(true)
    }
}
