//! The server behind a link.
ghost use Rattle.std.specs.Prelude.{◌≡◌, ◌≤◌, ◌∷◌, [], map, length, slice_index_or, IfOk, IfSome};
ghost use Rattle.budget_ports.specs.Contents.{nothing, with_text};
ghost use Rattle.budget_ports.specs.MemoryDoor.{shut_door};
ghost use Rattle.sync_server.specs.Serving.{file_name};
ghost use Rattle.peer_link.specs.Place.{file, group};
ghost use Rattle.peer_link.specs.Peer.{AsksGroup, IsAnswered};
ghost use Rattle.peer_link.specs.Serving.{Serves, set_in};

use crate::place::{FILE, GROUP, TOKEN};
use budget_ports::{Keeper, MemoryDoor, MemoryKeeper};
use device_sync::served_is_honest;
use field_values::{Items, NoMemory, Txt};
use std::alloc::Global;
use std::marker::Model;
use sync_server::{
    Served, ServerState, accepted_are_kept, file_name, requests_are_judged, serve_one,
};
use sync_wire::meanings_are_valid;

/// The most bytes of a reply that find room.
const MOST_BYTES: usize = 16_777_216;

/// The most bytes of a request that the server is given.
const MOST_ASKED: usize = 268_435_456;

/// A server whose keeper is in memory. A contract sees the messages of its group.
#[derive(Drop)]
pub(crate) struct Server {
    state: ServerState,
    keeper: MemoryKeeper,
}

impl Model for Server {
    ghost use Rattle.std.specs.Prelude.{List};
    ghost use Rattle.field_merge.specs.declared.message.Message.{Message};

    ghost Value = { List Message };

    ghost use Rattle.peer_link.specs.Serving.{set_in, Serves};

    ghost view = { λ s. set_in s.keeper.contents };

    ghost invariant = { λ s. Serves s.state s.keeper.contents };
}

/// A keeper with the file and its empty group.
fn keeper_of(alloc: Global) -> Result<MemoryKeeper, NoMemory>
    ensures { IfOk result (λ keeper. keeper.contents ≡ with_text nothing (file_name file) group) }
{
    let mut keeper = MemoryKeeper::new(alloc);
    let file = Txt::from_text(alloc, FILE)?;
    let name = file_name(alloc, &file)?;
    let group = Txt::from_text(alloc, GROUP)?;
    match keeper.put(&name, &group) {
        Ok(()) => Ok(keeper),
        Err(_) => Err(NoMemory),
    }
}

/// A door before which one connection waits.
fn door_of(alloc: Global, came: Items<u8>) -> Option<MemoryDoor>
    ensures { IfSome result (λ door. door ≡ shut_door (came ∷ []) [] 16_777_216 []) }
{
    let mut waiting = Vec::new(alloc);
    if waiting.push(came).is_err() {
        return None;
    }
    match MemoryDoor::new(alloc, waiting, Vec::new(alloc), MOST_BYTES) {
        Ok(door) => Some(door),
        Err(_) => None,
    }
}

/// What was written to the connection, where it is not too long.
fn reply_at(alloc: Global, door: &MemoryDoor) -> Option<Vec<u8>>
    ensures short { IfSome result (λ reply. length reply.items ≤ 16_777_216) }
    ensures bytes { IfSome result (λ reply. reply.items ≡ slice_index_or (map (λ room. room.taken) door.now.rooms) 0 []) }
{
    let written = door.written(0)?;
    if written.len() > MOST_BYTES {
        return None;
    }
    match written.to_vec(alloc) {
        Ok(reply) => Some(reply),
        Err(_) => None,
    }
}

/// Serves a request of a device, and gives the reply, where memory suffices and neither is too long.
fn serve_at(
    alloc: Global,
    state: &mut ServerState,
    keeper: &mut MemoryKeeper,
    came: Items<u8>,
) -> Option<Vec<u8>>
    requires serves { Serves state.old keeper.old.contents }
    requires asks { AsksGroup came }
    ensures { IfSome result (λ reply. Serves state.new keeper.new.contents × IsAnswered (set_in keeper.old.contents) came reply.items (set_in keeper.new.contents)) }
{
    served_is_honest();
    accepted_are_kept();
    requests_are_judged();
    meanings_are_valid();
    if came.as_slice().len() > MOST_ASKED {
        return None;
    }
    let mut door = match door_of(alloc, came) {
        Some(door) => door,
        None => return None,
    };
    match serve_one(alloc, state, keeper, &mut door) {
        Ok(Served::Answered { status: _ }) => reply_at(alloc, &door),
        Ok(Served::Cut) => None,
        Err(_) => None,
    }
}

impl Server {
    /// A server whose group is empty.
    pub(crate) fn new(alloc: Global) -> Result<Server, NoMemory>
        ensures { IfOk result (λ server. server ≡ []) }
    {
        let token = Txt::from_text(alloc, TOKEN)?;
        let state = ServerState::new(alloc, &token)?;
        let keeper = keeper_of(alloc)?;
        Ok(Server { state, keeper })
    }

    /// Serves a request of a device, and gives the server as it is then, with the reply. Where there is no reply, for want of memory or
    /// since the request or the reply is too long, the server is lost, since it may have kept what came.
    pub(crate) fn serve(self, alloc: Global, came: Items<u8>) -> Option<(Server, Vec<u8>)>
        requires { AsksGroup came }
        ensures { IfSome result (λ r. IsAnswered self came r.1.items r.0) }
    {
        let Server {
            mut state,
            mut keeper,
        } = self;
        match serve_at(alloc, &mut state, &mut keeper, came) {
            Some(reply) => Some((Server { state, keeper }, reply)),
            None => None,
        }
    }
}
