//! A keeper and a link of which a call finds no memory.
ghost use Rattle.std.specs.Prelude.{◌≡◌, None};
ghost use Rattle.budget_ports.specs.Contents.{nothing};

use budget_ports::{Keeper, Link, MemoryKeeper, PortFault, Record, ScriptLink};
use field_values::{Items, Txt};
use std::alloc::Global;
use std::collections::VecDeque;

/// Counts a call, and tells whether it is the one that finds no memory.
fn wants(made: &mut u64, call: u64) -> bool {
    let found = *made == call;
    *made = made.saturating_add(1);
    found
}

/// A keeper in memory. The call with this number finds no memory, and changes nothing; the calls are numbered from 0.
#[derive(Drop)]
pub(crate) struct ShortKeeper {
    inner: MemoryKeeper,
    made: u64,
    call: u64,
}

impl ShortKeeper {
    /// A keeper that holds nothing.
    pub(crate) fn new(alloc: Global, call: u64) -> ShortKeeper {
        ShortKeeper {
            inner: MemoryKeeper::new(alloc),
            made: 0,
            call,
        }
    }
}

impl Keeper for ShortKeeper {
    ghost tells = { λ _. ⊥ };

    ghost contents = { λ _. nothing };

    ghost left = { λ _ _. ⊥ };

    ghost faults = { λ k. k.inner.calls.faults };

    fn append(&mut self, group: &Txt, batch: &[Record]) -> Result<(), PortFault> {
        if wants(&mut self.made, self.call) {
            return Err(PortFault::NoMemory);
        }
        self.inner.append(group, batch)
    }

    fn since(&mut self, group: &Txt, after: &Txt) -> Result<Items<Record>, PortFault> {
        if wants(&mut self.made, self.call) {
            return Err(PortFault::NoMemory);
        }
        self.inner.since(group, after)
    }

    fn put(&mut self, name: &Txt, text: &Txt) -> Result<(), PortFault> {
        if wants(&mut self.made, self.call) {
            return Err(PortFault::NoMemory);
        }
        self.inner.put(name, text)
    }

    fn get(&mut self, name: &Txt) -> Result<Option<Txt>, PortFault> {
        if wants(&mut self.made, self.call) {
            return Err(PortFault::NoMemory);
        }
        self.inner.get(name)
    }

    fn names(&mut self) -> Result<Items<Txt>, PortFault> {
        if wants(&mut self.made, self.call) {
            return Err(PortFault::NoMemory);
        }
        self.inner.names()
    }
}

/// A link that gives replies which were written before. The call with this number finds no memory; the calls are numbered from 0.
#[derive(Drop)]
pub(crate) struct ShortLink {
    inner: ScriptLink,
    made: u64,
    call: u64,
}

impl ShortLink {
    /// A link that will give these replies.
    pub(crate) fn new(alloc: Global, replies: VecDeque<Items<u8>>, call: u64) -> ShortLink {
        ShortLink {
            inner: ScriptLink::new(alloc, replies),
            made: 0,
            call,
        }
    }
}

impl Link for ShortLink {
    ghost exchanges = { λ _. None };

    ghost faults = { λ l. l.inner.calls.faults };

    fn send(&mut self, bytes: &[u8]) -> Result<(), PortFault> {
        if wants(&mut self.made, self.call) {
            return Err(PortFault::NoMemory);
        }
        self.inner.send(bytes)
    }

    fn receive(&mut self) -> Result<Vec<u8>, PortFault> {
        if wants(&mut self.made, self.call) {
            return Err(PortFault::NoMemory);
        }
        self.inner.receive()
    }
}
