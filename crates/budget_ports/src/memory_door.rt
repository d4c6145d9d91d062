//! A door in memory, for tests.
ghost use Rattle.std.specs.Prelude.{◌≡◌, ◌↔◌, ◌<◌, ◌≤◌, ◌+◌, ◌||◌, ◌==◌, [], not, length, take, drop, map, min, vec_len, vec_capacity, slice_index_or, IsTrue, IsErr, IsSome, IfSome, IfOk, OnOk, OnErr, Some, true, false};
ghost use Rattle.std.specs.declared.option.Option.{Option};
ghost use Rattle.std.specs.Io.{ReadsAtMost, WritesAtMost};
ghost use Rattle.std.specs.Io.KnownBytes.{ReadConsumes};
ghost use Rattle.std.specs.Result.{is_err};
ghost use Rattle.budget_ports.specs.Faults.{count_after};
ghost use Rattle.budget_ports.specs.Calls.{is_listed};
ghost use Rattle.budget_ports.specs.Connections.{Stays, LetsIn, Opens, Begins, Writes};
ghost use Rattle.budget_ports.specs.MemoryDoor.{visitor, shut_door, to_come, outs, piece, has_space, can_write, opened, GivesPiece, PutsLast, WritesAll, failed_door, closed_door, unclosed_door};

use crate::calls::Calls;
use crate::door::Door;
use crate::room::Room;
use crate::stream::Failed;
use field_values::{Items, NoMemory};
use std::alloc::Global;
use std::collections::VecDeque;
use std::marker::Model;

/// A connection that waits: what comes by it, and the room for what will be written.
#[derive(Drop)]
struct Visit {
    came: Items<u8>,
    room: Room,
}

impl Model for Visit {
    ghost use Rattle.std.specs.Prelude.{◌≡◌, []};
    ghost use Rattle.budget_ports.specs.MemoryDoor.{Visitor};

    ghost Value = { Visitor };

    ghost view = { λ v. record { came = v.came; size = v.room.size } };

    ghost invariant = { λ v. v.room.taken ≡ [] };
}

/// Each connection with its room.
fn visits(
    alloc: Global,
    connections: Vec<Items<u8>>,
    room: usize,
) -> Result<VecDeque<Visit>, NoMemory>
    ensures { IfOk result (λ visits. visits.items ≡ map (visitor room) connections.items) }
{
    let mut visits = VecDeque::new(alloc);
    for came in connections {
        let room = Room::reserve(alloc, room)?;
        visits.push_back(Visit { came, room })?;
    }
    Ok(visits)
}

/// The most bytes that a read gives, where so many reads came before it.
fn piece(pieces: &[usize], reads: usize, room: usize) -> usize
    ensures { result ≡ piece pieces.now reads room }
{
    if pieces.is_empty() {
        return room;
    }
    let at = reads.min(pieces.len() - 1);
    room.min(pieces[at].max(1))
}

/// Whether bytes find room in the last one.
fn has_space(rooms: &[Room], bytes: &[u8]) -> bool
    ensures { result ≡ has_space rooms.now bytes.now }
{
    match rooms.last() {
        Some(room) => bytes.len() <= room.space(),
        None => false,
    }
}

/// Puts bytes into the last room.
fn put_last(rooms: &mut Vec<Room>, bytes: &[u8])
    requires { IsTrue (has_space rooms.old.items bytes.now) }
    ensures puts { PutsLast rooms.old.items rooms.new.items bytes.now }
    ensures capacity { vec_capacity rooms.old ≤ vec_capacity rooms.new }
    ensures len { vec_len rooms.new ≡ vec_len rooms.old }
{
    if let Some(mut room) = rooms.pop() {
        room.put(bytes);
        rooms.push(room).unwrap();
    }
}

/// A door before which connections wait that were written before.
///
/// To a contract it is what is left of the connections, what was written to them, the pieces in which
/// bytes come, and the calls: their number, those that fail, and how many have failed.
#[derive(Drop)]
pub struct MemoryDoor {
    waiting: VecDeque<Visit>,
    came: Items<u8>,
    at: usize,
    rooms: Vec<Room>,
    past: u64,
    is_open: bool,
    pieces: Items<usize>,
    reads: usize,
    calls: Calls,
}

impl Model for MemoryDoor {
    ghost use Rattle.std.specs.Prelude.{◌≤◌, ◌+◌, length, map, drop, vec_len, vec_capacity};
    ghost use Rattle.budget_ports.specs.MemoryDoor.{DoorState};

    ghost Value = { DoorState };

    ghost view = { λ d. record { waiting = d.waiting.items; left = drop d.at d.came; rooms = d.rooms.items; past = d.past; is_open = d.is_open; pieces = d.pieces; reads = d.reads; calls = d.calls } };

    ghost invariant = { λ d. record { read : d.at ≤ length d.came; reserved : vec_len d.rooms + length d.waiting.items ≤ vec_capacity d.rooms } };
}

impl MemoryDoor {
    /// A door before which these connections wait, each with room for `room` bytes, of which no call is
    /// listed to fail. A read, a write and a `close` fail only where no connection is open, but a write
    /// also where its bytes find no room, or where the open connection is none of these; an `accept` only
    /// where 2 to the 64 minus 1 connections were let in past the last of these.
    ///
    /// A read gives no more bytes than `pieces` says: the first number holds of the first read of a
    /// connection, and so on, and the last of all later ones. Where it is empty the buffer alone bounds
    /// a read. A piece of 0 counts as 1.
    pub fn new(
        alloc: Global,
        connections: Vec<Items<u8>>,
        pieces: Vec<usize>,
        room: usize,
    ) -> Result<MemoryDoor, NoMemory>
        ensures { IfOk result (λ d. d ≡ shut_door connections.items pieces.items room []) }
    {
        MemoryDoor::with_faults(alloc, connections, pieces, room, Vec::new(alloc))
    }

    /// The same, of which a call fails whose number is in `calls`; the calls are numbered from 0 over
    /// all methods together.
    pub fn with_faults(
        alloc: Global,
        connections: Vec<Items<u8>>,
        pieces: Vec<usize>,
        room: usize,
        calls: Vec<u64>,
    ) -> Result<MemoryDoor, NoMemory>
        ensures { IfOk result (λ d. d ≡ shut_door connections.items pieces.items room calls.items) }
    {
        let rooms = Vec::with_capacity(alloc, connections.len())?;
        let waiting = visits(alloc, connections, room)?;
        Ok(MemoryDoor {
            waiting,
            came: Items::new(Vec::new(alloc)),
            at: 0,
            rooms,
            past: 0,
            is_open: false,
            pieces: Items::new(pieces),
            reads: 0,
            calls: Calls::new(calls),
        })
    }

    /// What was written to a connection, counted from 0, or `None` where no such one was given.
    pub fn written(&self, connection: usize) -> Option<&[u8]>
        ensures some { IsSome result ↔ (connection < length self.now.rooms + length self.now.waiting) }
        ensures bytes { IfSome result (λ bytes. bytes.now ≡ slice_index_or (map (λ room. room.taken) self.now.rooms) connection []) }
    {
        let accepted = self.rooms.len();
        if connection < accepted {
            return Some(self.rooms[connection].taken());
        }
        match self.waiting.get(connection - accepted) {
            Some(visit) => Some(visit.room.taken()),
            None => None,
        }
    }
}

impl Door for MemoryDoor {
    ghost waiting = { λ d. Some (to_come d) };

    ghost left = { λ d. Some d.left };

    ghost outs = { λ d. Some (outs d) };

    ghost is_open = { λ d. d.is_open };

    ghost faults = { λ d. d.calls.faults };

    #[tactic(auto, using(crate::proofs::Visits::let_in, crate::proofs::Visits::past_in))]
    /// Fails exactly where the call is listed, or 2 to the 64 minus 1 connections were let in past the last.
    fn accept(&mut self) -> Result<(), Failed>
        // what each door promises
        ensures next { OnOk result (LetsIn (Some (to_come self.old)) (Some (to_come self.new))) }
        ensures opens { OnOk result (Opens (Some (to_come self.old)) (Some self.new.left)) }
        ensures begins { OnOk result (Begins (Some (outs self.old)) (Some (outs self.new))) }
        ensures err { OnErr result (Stays (Some (to_come self.old)) (Some (to_come self.new)) × Stays (Some self.old.left) (Some self.new.left) × Stays (Some (outs self.old)) (Some (outs self.new))) }
        ensures count { self.new.calls.faults ≡ count_after (is_err result) self.old.calls.faults }

        // what this one does
        ensures fails { IsErr result ↔ IsTrue (is_listed self.old.calls || self.old.past == 18446744073709551615) }
        ensures ok { OnOk result (self.new ≡ opened self.old) }
        ensures failed { OnErr result (self.new ≡ failed_door self.old) }
    {
        self.calls.begin(self.past != u64::MAX)?;
        match self.waiting.pop_front() {
            Some(visit) => {
                self.came = visit.came;
                self.at = 0;
                self.rooms.push(visit.room).unwrap();
            }
            None => {
                self.at = self.came.len();
                self.past += 1;
            }
        }
        self.is_open = true;
        self.reads = 0;
        Ok(())
    }

    /// Fails exactly where the call is listed or no connection is open.
    fn read(&mut self, buffer: &mut [u8]) -> Result<usize, Failed>
        requires { 0 < length buffer.old }

        // what each door promises
        ensures bound { ReadsAtMost result buffer.new }
        ensures bytes { ReadConsumes (Some self.old.left) (Some self.new.left) result buffer.new }
        ensures others { Stays (Some (to_come self.old)) (Some (to_come self.new)) × Stays (Some (outs self.old)) (Some (outs self.new)) }
        ensures open { OnOk result (IsTrue self.old.is_open) × (IsTrue self.new.is_open → IsTrue self.old.is_open) }
        ensures count { self.new.calls.faults ≡ count_after (is_err result) self.old.calls.faults }

        // what this one does
        ensures fails { IsErr result ↔ IsTrue (is_listed self.old.calls || not self.old.is_open) }
        ensures ok { IfOk result (GivesPiece self.old self.new buffer.old buffer.new) }
        ensures failed { OnErr result ((self.new ≡ failed_door self.old) × (buffer.new ≡ buffer.old)) }
    {
        self.calls.begin(self.is_open)?;
        let rest = &self.came.as_slice()[self.at..];
        let most = piece(self.pieces.as_slice(), self.reads, buffer.len());
        let count = most.min(rest.len());
        buffer[..count].copy_from_slice(&rest[..count]);
        self.at += count;
        self.reads = self.reads.saturating_add(1);
        Ok(count)
    }

    /// Writes all bytes, or fails: exactly where the call is listed, no connection is open that was
    /// given, or the room is too small.
    fn write(&mut self, bytes: &[u8]) -> Result<usize, Failed>
        // what each door promises
        ensures bound { WritesAtMost result bytes.now }
        ensures some { IfOk result (λ n. 0 < length bytes.now → 0 < n) }
        ensures bytes { IfOk result (λ n. Writes (Some (outs self.old)) (Some (outs self.new)) (take n bytes.now)) }
        ensures err { OnErr result (Stays (Some (outs self.old)) (Some (outs self.new))) }
        ensures others { Stays (Some (to_come self.old)) (Some (to_come self.new)) × Stays (Some self.old.left) (Some self.new.left) }
        ensures open { OnOk result (IsTrue self.old.is_open) × (IsTrue self.new.is_open → IsTrue self.old.is_open) }
        ensures count { self.new.calls.faults ≡ count_after (is_err result) self.old.calls.faults }

        // what this one does
        ensures fails { IsErr result ↔ IsTrue (is_listed self.old.calls || not (can_write self.old bytes.now)) }
        ensures all { IfOk result (λ n. n ≡ length bytes.now) }
        ensures ok { OnOk result (WritesAll self.old self.new bytes.now) }
        ensures failed { OnErr result (self.new ≡ failed_door self.old) }
    {
        let fits = has_space(self.rooms.as_slice(), bytes);
        self.calls.begin(self.is_open && self.past == 0 && fits)?;
        put_last(&mut self.rooms, bytes);
        Ok(bytes.len())
    }

    /// Fails exactly where the call is listed or no connection is open. No connection is open then.
    fn close(&mut self) -> Result<(), Failed>
        // what each door promises
        ensures shut { self.new.is_open ≡ false }
        ensures same { Stays (Some (to_come self.old)) (Some (to_come self.new)) × Stays (Some self.old.left) (Some self.new.left) × Stays (Some (outs self.old)) (Some (outs self.new)) }
        ensures count { self.new.calls.faults ≡ count_after (is_err result) self.old.calls.faults }

        // what this one does
        ensures fails { IsErr result ↔ IsTrue (is_listed self.old.calls || not self.old.is_open) }
        ensures ok { OnOk result (self.new ≡ closed_door self.old) }
        ensures failed { OnErr result (self.new ≡ unclosed_door self.old) }
    {
        let was_open = self.is_open;
        self.is_open = false;
        self.calls.begin(was_open)
    }
}
