//! A source in memory, for tests.
ghost use Rattle.std.specs.Prelude.{◌≡◌, ◌↔◌, ◌<◌, [], IsTrue, IsErr, IsSome, IfOk, OnErr, Some};
ghost use Rattle.std.specs.Io.{ReadsAtMost};
ghost use Rattle.std.specs.Io.KnownBytes.{ReadConsumes};
ghost use Rattle.std.specs.Result.{is_err};
ghost use Rattle.budget_ports.specs.Faults.{count_after};
ghost use Rattle.budget_ports.specs.Calls.{no_calls, is_listed};
ghost use Rattle.budget_ports.specs.Memory.{GivesFront, failed_source};

use crate::calls::Calls;
use crate::stream::{Failed, Source};
use std::alloc::Global;
use std::marker::Model;

/// A source that gives the bytes of a vector.
///
/// To a contract it is the bytes that are left and the calls: their number, those that fail, and
/// how many have failed.
#[derive(Debug, Drop)]
pub struct MemorySource {
    bytes: Vec<u8>,
    at: usize,
    calls: Calls,
}

impl Model for MemorySource {
    ghost use Rattle.std.specs.Prelude.{◌≤◌, drop, vec_len};
    ghost use Rattle.budget_ports.specs.Memory.{SourceState};

    ghost Value = { SourceState };

    ghost view = { λ s. record { left = drop s.at s.bytes.items; calls = s.calls } };

    ghost invariant = { λ s. s.at ≤ vec_len s.bytes };
}

impl MemorySource {
    /// A source of these bytes, of which no call fails.
    pub fn new(alloc: Global, bytes: Vec<u8>) -> MemorySource
        ensures { result ≡ record { left = bytes.items; calls = no_calls [] } }
    {
        MemorySource::with_faults(bytes, Vec::new(alloc))
    }

    /// A source of these bytes. A call whose number is in `calls` fails; the calls are numbered from 0.
    pub fn with_faults(bytes: Vec<u8>, calls: Vec<u64>) -> MemorySource
        ensures { result ≡ record { left = bytes.items; calls = no_calls calls.items } }
    {
        MemorySource {
            bytes,
            at: 0,
            calls: Calls::new(calls),
        }
    }
}

impl Source for MemorySource {
    ghost left = { λ s. Some s.left };

    ghost faults = { λ s. s.calls.faults };

    /// Fails exactly where the call is listed, and else gives as many bytes as are left and fit.
    fn read(&mut self, buffer: &mut [u8]) -> Result<usize, Failed>
        // what each source promises
        ensures bound { ReadsAtMost result buffer.new }
        ensures bytes { ReadConsumes (Some self.old.left) (Some self.new.left) result buffer.new }
        ensures told { IsSome (Some self.new.left) → IsSome (Some self.old.left) }
        ensures count { self.new.calls.faults ≡ count_after (is_err result) self.old.calls.faults }

        // what this one does
        ensures fails { IsErr result ↔ IsTrue (is_listed self.old.calls) }
        ensures ok { IfOk result (GivesFront self.old self.new buffer.old buffer.new) }
        ensures err { OnErr result ((self.new ≡ failed_source self.old) × (buffer.new ≡ buffer.old)) }
    {
        self.calls.begin(true)?;
        let rest = &self.bytes.as_slice()[self.at..];
        let count = buffer.len().min(rest.len());
        buffer[..count].copy_from_slice(&rest[..count]);
        self.at += count;
        Ok(count)
    }
}
