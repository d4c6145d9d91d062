//! A world, and what an event makes of it.
ghost use Rattle.std.specs.Prelude.{◌≡◌, ◌<◌, ◌-◌, ◌^◌, ◌++◌, ◌∷◌, [], length, map, true, false, IfOk, IfErr, IfSome, OnOk, option_map};
ghost use Rattle.std.specs.Option.{option_copied};
ghost use Rattle.field_merge.specs.Log.{join};
ghost use Rattle.field_merge.specs.Messages.{AreMessages};
ghost use Rattle.minute_trie.specs.Trie.{is_spent, IsTrieOf};
ghost use Rattle.kept_messages.specs.Pairs.{pairs_of};
ghost use Rattle.hybrid_clock.specs.Node.{IsNode};
ghost use Rattle.device_core.specs.Device.{at_rest, begun};
ghost use Rattle.sync_server.specs.Answer.{answer_of};
ghost use Rattle.sync_world.specs.declared.event.Event.TheVariants as events;
ghost use Rattle.book_rows.specs.Months.{is_month};
ghost use Rattle.sync_world.specs.Covering.{covers};
ghost use Rattle.sync_world.specs.Members.{IsEvent, IsReady, IsWorldEdit};
ghost use Rattle.sync_world.specs.World.{device_of, request_of};
ghost use Rattle.sync_world.specs.Promises.{KeepsPromises};
ghost use Rattle.sync_world.specs.Right.{AreDifferent};
ghost use Rattle.sync_world.specs.Whole.{HasCovered, IsDone, IsNotCovered, IsNotDone, IsWorld, at_start, wants_memory};

use crate::adding::{add_makings, add_messages, note};
use crate::event::{Event, Outcome, WorldEdit, WorldFault};
use crate::laws::{right_worlds_keep, steps_stay_right};
use crate::making::Making;
use crate::places::{change_at, cover_at, stop_at, take_at};
use device_core::Device;
use field_merge::{Log, Message};
use field_values::{NoMemory, Steps, Txt};
use hybrid_clock::Node;
use kept_messages::join_all;
use minute_trie::Trie;
use std::alloc::Global;
use std::marker::Model;
use std::sync::ledger::Ledger;
use sync_server::join_request;
use sync_wire::{SyncRequest, SyncResponse};

/// Devices and one server over a network that may lose a request or a reply, repeat it, and bring it late.
///
/// A contract sees the messages, the clock and what can be undone and redone of each device, the messages that the server has, the lists of what
/// was made, of what devices and the server acknowledged, and of the requests and replies that were sent, the months whose cells each device keeps,
/// and whether the world is spent: a call that answers `NoMemory` leaves it so, and then nothing but `is_spent` may be asked of it.
#[derive(Drop)]
pub struct World {
    alloc: Global,
    devices: Vec<Device>,
    server: Log,
    trie: Trie,
    made: Vec<Making>,
    acknowledged: Vec<Making>,
    kept: Vec<Message>,
    requests: Vec<SyncRequest>,
    replies: Vec<SyncResponse>,
    spent: bool,
}

impl Model for World {
    ghost use Rattle.std.specs.Prelude.{◌≡◌, false};
    ghost use Rattle.sync_world.specs.Whole.{WorldModel, world_of, model_of, Holds};

    ghost Value = { WorldModel };

    ghost view = { λ w. model_of w.devices.items w.server w.made.items w.acknowledged.items w.kept.items w.requests.items w.replies.items w.spent };

    ghost invariant = { λ w. w.spent ≡ false → Holds w.devices.items w.server w.trie (world_of w.devices.items w.server w.made.items w.acknowledged.items w.kept.items w.requests.items w.replies.items) };
}

/// Whether memory ran out.
fn wants_memory(fault: &WorldFault) -> bool
    ensures { result ≡ wants_memory fault.now }
{
    match fault {
        WorldFault::NoMemory => true,
        WorldFault::NoSuchDevice { device: _ } => false,
        WorldFault::NoSuchRequest { request: _ } => false,
        WorldFault::NoSuchReply { reply: _ } => false,
        WorldFault::Line(_) => false,
    }
}

/// The server answers a request, and notes that it acknowledges its messages; the answer is sent. Says how many messages it has.
fn serve_at(
    alloc: Global,
    server: &mut Log,
    trie: &mut Trie,
    kept: &mut Vec<Message>,
    replies: &mut Vec<SyncResponse>,
    request: &SyncRequest,
) -> Result<u64, NoMemory>
    requires live { server.old.spent ≡ false }
    requires trie_live { is_spent trie.old ≡ false }
    requires right { IsTrieOf (pairs_of server.old.messages) trie.old }
    requires valid { AreMessages request.now.messages }
    ensures live { OnOk result (server.new.spent ≡ false) }
    ensures trie_live { OnOk result (is_spent trie.new ≡ false) }
    ensures right { OnOk result (IsTrieOf (pairs_of server.new.messages) trie.new) }
    ensures joined { OnOk result (server.new.messages ≡ join server.old.messages request.now.messages) }
    ensures kept { OnOk result (kept.new.items ≡ kept.old.items ++ request.now.messages) }
    ensures sent { OnOk result (replies.new.items ≡ replies.old.items ++ answer_of server.old.messages request.now ∷ []) }
    ensures valid { OnOk result (AreMessages (answer_of server.old.messages request.now).messages) }
    ensures count { IfOk result (λ n. n ≡ length (answer_of server.old.messages request.now).messages) }
{
    let mut batch = Vec::new(alloc);
    let answer = join_request(alloc, server, trie, request, &mut batch)?;
    add_messages(kept, request.messages.as_slice())?;
    let count = answer.messages.len() as u64;
    replies.push(answer)?;
    Ok(count)
}

/// A device sends a request.
fn ask_at(
    alloc: Global,
    device: &Device,
    since: &Txt,
    requests: &mut Vec<SyncRequest>,
) -> Result<(), NoMemory>
    requires { device.now.spent ≡ false }
    ensures sent { OnOk result (requests.new.items ≡ requests.old.items ++ request_of device.now.state.messages since.now ∷ []) }
    ensures valid { OnOk result (AreMessages (request_of device.now.state.messages since.now).messages) }
{
    let messages = device.outgoing(since.bytes())?;
    let empty = Txt::new(String::new(alloc));
    let none = Txt::new(String::new(alloc));
    requests.push(SyncRequest {
        messages,
        encrypted: false,
        file: empty,
        group: none,
        since: since.copy()?,
    })?;
    Ok(())
}

/// A device without messages.
fn begin_device(alloc: Global, node: Node) -> Result<Device, NoMemory>
    requires { IsNode node }
    ensures { IfOk result (λ d. d ≡ at_rest (begun node [])) }
{
    match Device::start(alloc, node, &[]) {
        Ok(device) => Ok(device),
        Err(_) => Err(NoMemory),
    }
}

/// Devices without messages, one for each node.
fn begin_devices(alloc: Global, nodes: &[Node]) -> Result<Vec<Device>, NoMemory>
    ensures { IfOk result (λ ds. ds.items ≡ map (λ node. at_rest (begun node [])) nodes.now) }
{
    let mut devices = Vec::new(alloc);
    for node in nodes {
        // The contract of `bytes` says what is so of each node.
        let _bytes = node.bytes();
        devices.push(begin_device(alloc, *node)?)?;
    }
    Ok(devices)
}

impl World {
    /// A world of devices with these nodes, which are all different. Nothing has happened in it: no device and not the server has a message,
    /// each clock stands at the start of 1970, and nothing was sent. The devices are numbered from 1, in the order of their nodes.
    pub fn new(alloc: Global, nodes: &[Node]) -> Result<World, NoMemory>
        requires { AreDifferent nodes.now }
        ensures { IfOk result (λ w. w ≡ at_start nodes.now) }
    {
        let devices = begin_devices(alloc, nodes)?;
        let server = Log::new(alloc);
        let trie = Trie::new(alloc);
        Ok(World {
            alloc,
            devices,
            server,
            trie,
            made: Vec::new(alloc),
            acknowledged: Vec::new(alloc),
            kept: Vec::new(alloc),
            requests: Vec::new(alloc),
            replies: Vec::new(alloc),
            spent: false,
        })
    }

    /// A device makes an edit, an undo or a redo.
    fn edit<G: Ledger>(
        &mut self,
        number: u32,
        edit: &WorldEdit,
        reading: u64,
        steps: &mut Steps<G>,
    ) -> Result<Outcome, WorldFault>
        requires live { self.old.spent ≡ false }
        requires valid { IsWorldEdit edit.now }
        ensures ok { IfOk result (IsDone (events.Edit number edit.now reading) self.old self.new) }
        ensures refused { IfErr result (IsNotDone (events.Edit number edit.now reading) self.old self.new) }
    {
        steps_stay_right();
        self.spent = true;
        match change_at(self.alloc, &mut self.devices, number, edit, reading, steps) {
            Ok(changed) => {
                match note(
                    &mut self.made,
                    &mut self.acknowledged,
                    number,
                    changed.news.as_slice(),
                ) {
                    Ok(()) => {
                        self.spent = false;
                        Ok(Outcome::Wrote {
                            writes: changed.writes,
                            made: changed.made,
                        })
                    }
                    Err(_) => Err(WorldFault::NoMemory),
                }
            }
            Err(fault) => {
                self.spent = wants_memory(&fault);
                Err(fault)
            }
        }
    }

    /// A device sends a request with its messages later than a text.
    fn ask(&mut self, number: u32, since: &Txt) -> Result<Outcome, WorldFault>
        requires live { self.old.spent ≡ false }
        requires few { length self.old.world.requests < 2 ^ 32 - 1 }
        ensures ok { IfOk result (IsDone (events.Ask number since.now) self.old self.new) }
        ensures refused { IfErr result (IsNotDone (events.Ask number since.now) self.old self.new) }
    {
        steps_stay_right();
        if number == 0 {
            return Err(WorldFault::NoSuchDevice { device: number });
        }
        let index = (number - 1) as usize;
        if index >= self.devices.as_slice().len() {
            return Err(WorldFault::NoSuchDevice { device: number });
        }
        self.spent = true;
        let request = self.requests.as_slice().len() as u32;
        match ask_at(self.alloc, &self.devices[index], since, &mut self.requests) {
            Ok(()) => {
                self.spent = false;
                Ok(Outcome::Asked { request })
            }
            Err(NoMemory) => Err(WorldFault::NoMemory),
        }
    }

    /// The server answers a request.
    fn serve(&mut self, number: u32) -> Result<Outcome, WorldFault>
        requires live { self.old.spent ≡ false }
        requires few { length self.old.world.replies < 2 ^ 32 - 1 }
        ensures ok { IfOk result (IsDone (events.Serve number) self.old self.new) }
        ensures refused { IfErr result (IsNotDone (events.Serve number) self.old self.new) }
    {
        steps_stay_right();
        let index = number as usize;
        if index >= self.requests.as_slice().len() {
            return Err(WorldFault::NoSuchRequest { request: number });
        }
        self.spent = true;
        let reply = self.replies.as_slice().len() as u32;
        match serve_at(
            self.alloc,
            &mut self.server,
            &mut self.trie,
            &mut self.kept,
            &mut self.replies,
            &self.requests[index],
        ) {
            Ok(messages) => {
                self.spent = false;
                Ok(Outcome::Served { reply, messages })
            }
            Err(NoMemory) => Err(WorldFault::NoMemory),
        }
    }

    /// A reply comes to a device.
    fn take<G: Ledger>(
        &mut self,
        number: u32,
        reply: u32,
        reading: u64,
        steps: &mut Steps<G>,
    ) -> Result<Outcome, WorldFault>
        requires live { self.old.spent ≡ false }
        ensures ok { IfOk result (IsDone (events.Take number reply reading) self.old self.new) }
        ensures refused { IfErr result (IsNotDone (events.Take number reply reading) self.old self.new) }
    {
        steps_stay_right();
        self.spent = true;
        match take_at(
            &mut self.devices,
            number,
            &self.replies,
            reply,
            reading,
            steps,
        ) {
            Ok(received) => {
                self.spent = false;
                Ok(Outcome::Took { received })
            }
            Err(fault) => {
                self.spent = wants_memory(&fault);
                Err(fault)
            }
        }
    }

    /// A device stops during an edit, an undo or a redo, whose messages are all kept where `whole` is true, and else none.
    fn stop<G: Ledger>(
        &mut self,
        number: u32,
        edit: &WorldEdit,
        reading: u64,
        whole: bool,
        steps: &mut Steps<G>,
    ) -> Result<Outcome, WorldFault>
        requires live { self.old.spent ≡ false }
        requires valid { IsWorldEdit edit.now }
        ensures ok { IfOk result (IsDone (events.Stop number edit.now reading whole) self.old self.new) }
        ensures refused { IfErr result (IsNotDone (events.Stop number edit.now reading whole) self.old self.new) }
    {
        steps_stay_right();
        self.spent = true;
        match stop_at(
            self.alloc,
            &mut self.devices,
            number,
            edit,
            reading,
            whole,
            steps,
        ) {
            Ok(told) => match add_makings(&mut self.made, number, told.as_slice()) {
                Ok(()) => {
                    self.spent = false;
                    Ok(Outcome::Stopped)
                }
                Err(_) => Err(WorldFault::NoMemory),
            },
            Err(fault) => {
                self.spent = wants_memory(&fault);
                Err(fault)
            }
        }
    }

    /// The server stops during a request: its messages are all kept where `whole` is true, and else none.
    fn halt(&mut self, number: u32, whole: bool) -> Result<Outcome, WorldFault>
        requires live { self.old.spent ≡ false }
        ensures ok { IfOk result (IsDone (events.Halt number whole) self.old self.new) }
        ensures refused { IfErr result (IsNotDone (events.Halt number whole) self.old self.new) }
    {
        steps_stay_right();
        let index = number as usize;
        if index >= self.requests.as_slice().len() {
            return Err(WorldFault::NoSuchRequest { request: number });
        }
        if !whole {
            return Ok(Outcome::Halted);
        }
        self.spent = true;
        let mut batch = Vec::new(self.alloc);
        match join_all(
            self.alloc,
            &mut self.server,
            &mut self.trie,
            self.requests[index].messages.as_slice(),
            &mut batch,
        ) {
            Ok(()) => {
                self.spent = false;
                Ok(Outcome::Halted)
            }
            Err(NoMemory) => Err(WorldFault::NoMemory),
        }
    }

    /// Lets an event happen, and answers what it came to. What that is for each event, `events_happen` says in words.
    ///
    /// A device that stops costs what its edit costs, and no copy of its messages. The counter of steps is handed on to the devices.
    ///
    /// # Errors
    ///
    /// Tested in this order: `NoSuchDevice`, `NoSuchRequest` or `NoSuchReply` where the number names none; `Line` where the device refuses the
    /// edit, or its clock the messages of the reply. After a refusal the world is as it was; so an edit that is refused stops no device. After
    /// `NoMemory` it is spent.
    pub fn step<G: Ledger>(
        &mut self,
        event: &Event,
        steps: &mut Steps<G>,
    ) -> Result<Outcome, WorldFault>
        requires live { self.old.spent ≡ false }
        requires asked { length self.old.world.requests < 2 ^ 32 - 1 }
        requires sent { length self.old.world.replies < 2 ^ 32 - 1 }
        requires valid { IsEvent event.now }
        ensures ok { IfOk result (IsDone event.now self.old self.new) }
        ensures refused { IfErr result (IsNotDone event.now self.old self.new) }
    {
        match event {
            Event::Edit {
                device,
                edit,
                reading,
            } => self.edit(*device, edit, *reading, steps),
            Event::Ask { device, since } => self.ask(*device, since),
            Event::Serve { request } => self.serve(*request),
            Event::Take {
                device,
                reply,
                reading,
            } => self.take(*device, *reply, *reading, steps),
            Event::Stop {
                device,
                edit,
                reading,
                whole,
            } => self.stop(*device, edit, *reading, *whole, steps),
            Event::Halt { request, whole } => self.halt(*request, *whole),
        }
    }

    /// Covers a month YYYYMM of the device with this number, so that it tells its cells, as [`Device::cover`] does.
    ///
    /// # Errors
    ///
    /// `NoSuchDevice` exactly where the number names none, before anything else; or `NoMemory`, after which the world is spent. No other
    /// fault comes.
    pub fn cover<G: Ledger>(
        &mut self,
        number: u32,
        month: u32,
        steps: &mut Steps<G>,
    ) -> Result<(), WorldFault>
        requires live { self.old.spent ≡ false }
        requires month { is_month month ≡ true }
        ensures ok { OnOk result (HasCovered number month self.old self.new) }
        ensures covered { OnOk result (covers (device_of self.new.covered number) month ≡ true) }
        ensures err { IfErr result (IsNotCovered number self.old self.new) }
    {
        self.spent = true;
        match cover_at(&mut self.devices, number, month, steps) {
            Ok(()) => {
                self.spent = false;
                Ok(())
            }
            Err(fault) => {
                self.spent = wants_memory(&fault);
                Err(fault)
            }
        }
    }

    /// The device with this number, counted from 1. Nothing of it is pending.
    pub fn device(&self, number: u32) -> Option<&Device>
        requires { self.now.spent ≡ false }
        ensures state { option_map (λ d. d.state) (option_copied result) ≡ device_of self.now.world.devices number }
        ensures covered { option_map (λ d. d.covered) (option_copied result) ≡ device_of self.now.covered number }
        ensures ready { IfSome (option_copied result) IsReady }
    {
        if number == 0 {
            return None;
        }
        let index = (number - 1) as usize;
        if index >= self.devices.as_slice().len() {
            return None;
        }
        Some(&self.devices[index])
    }

    /// The messages that the server has.
    pub fn server(&self) -> &Log
        requires { self.now.spent ≡ false }
        ensures { result.now ≡ record { messages = self.now.world.server; spent = false } }
    {
        &self.server
    }

    /// Whether a want of memory has spoilt the world. Whatever happened in one that isn't spoilt, all is right of it that `worlds_stay_right`
    /// speaks of, and it keeps what `worlds_keep_promises` says.
    pub fn is_spent(&self) -> bool
        ensures spent { result ≡ self.now.spent }
        ensures right { self.now.spent ≡ false → IsWorld self.now.world }
        ensures promises { self.now.spent ≡ false → KeepsPromises self.now.world }
    {
        right_worlds_keep();
        self.spent
    }
}
