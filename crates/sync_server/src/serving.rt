//! One connection.
ghost use Rattle.std.specs.Prelude.{◌≡◌, IfOk, OnOk, OnErr, true, false};
ghost use Rattle.budget_ports.specs.Connections.{Stays};
ghost use Rattle.budget_ports.specs.Faults.{count_after};
ghost use Rattle.sync_server.specs.Serving.{Visit};
ghost use Rattle.sync_server.specs.Outside.{HasServed, IsSent, is_cut, ServesOpen};
ghost use Rattle.sync_server.specs.State.{Agrees, Remembers};

use crate::asking::{Asked, ask};
use crate::keeping::keep;
use crate::served::Served;
use crate::state::ServerState;
use crate::writing::write_all;
use budget_ports::{Door, Failed, Keeper};
use std::alloc::Global;

/// Writes a reply, and says what became of the connection.
fn send<D: Door>(door: &mut D, status: u16, reply: &[u8]) -> Served
    ensures sent { IsSent reply.now status (D.outs door.old) (D.outs door.new) result }
    ensures others { Stays (D.waiting door.old) (D.waiting door.new) }
    ensures count { D.faults door.new ≡ count_after (is_cut result) (D.faults door.old) }
{
    match write_all(door, reply) {
        Ok(()) => Served::Answered { status },
        Err(_) => Served::Cut,
    }
}

/// Serves the connection that was let in.
fn serve_open<K: Keeper, D: Door>(
    alloc: Global,
    state: &mut ServerState,
    keeper: &mut K,
    door: &mut D,
) -> Served
    requires agrees { K.tells keeper.old → Agrees state.old (K.contents keeper.old) }
    ensures agrees { K.tells keeper.new → Agrees state.new (K.contents keeper.new) }
    ensures served { (visit : Visit) × Remembers state.old state.new visit.verdict × ServesOpen state.old.token visit result (D.left door.old) (D.outs door.old) (D.outs door.new) (D.faults door.old) (D.faults door.new) (K.tells keeper.old) (K.tells keeper.new) (K.contents keeper.old) (K.contents keeper.new) (K.left keeper.old) (K.left keeper.new) (K.faults keeper.old) (K.faults keeper.new) }
    ensures others { Stays (D.waiting door.old) (D.waiting door.new) }
{
    match ask(alloc, state.routes(), state.token().bytes(), door) {
        Asked::Request(request) => match keep(alloc, state, keeper, &request) {
            Ok(reply) => send(door, 200, reply.as_slice()),
            Err(refusal) => send(door, refusal.status(), refusal.reply().as_bytes()),
        },
        Asked::Refused(refusal) => send(door, refusal.status(), refusal.reply().as_bytes()),
        Asked::Ended => Served::Cut,
        Asked::Failed => Served::Cut,
    }
}

/// Serves the next connection: lets it in, reads a request, replies, and closes.
///
/// # Errors
///
/// `Failed` where the door lets none in. Then nothing has changed but its count.
pub fn serve_one<K: Keeper, D: Door>(
    alloc: Global,
    state: &mut ServerState,
    keeper: &mut K,
    door: &mut D,
) -> Result<Served, Failed>
    requires agrees { K.tells keeper.old → Agrees state.old (K.contents keeper.old) }
    ensures agrees { K.tells keeper.new → Agrees state.new (K.contents keeper.new) }
    ensures served { IfOk result (λ served. (visit : Visit) × Remembers state.old state.new visit.verdict × HasServed state.old.token visit served (D.waiting door.old) (D.waiting door.new) (D.outs door.old) (D.outs door.new) (D.faults door.old) (D.faults door.new) (K.tells keeper.old) (K.tells keeper.new) (K.contents keeper.old) (K.contents keeper.new) (K.left keeper.old) (K.left keeper.new) (K.faults keeper.old) (K.faults keeper.new)) }
    ensures closed { OnOk result (D.is_open door.new ≡ false) }
    ensures shut { OnErr result ((state.new ≡ state.old) × (keeper.new ≡ keeper.old) × Stays (D.waiting door.old) (D.waiting door.new) × Stays (D.outs door.old) (D.outs door.new) × (D.faults door.new ≡ count_after true (D.faults door.old))) }
{
    door.accept()?;
    let served = serve_open(alloc, state, keeper, door);
    // A connection that can't be closed has been served as it was.
    let _closed = door.close();
    Ok(served)
}
