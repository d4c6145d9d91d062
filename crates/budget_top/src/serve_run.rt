//! The mode `serve`: answers the requests of devices, one connection after the other.
ghost use Rattle.std.specs.Prelude.{◌≡◌, ◌==◌, OnOk, OnErr, false};
ghost use Rattle.budget_ports.specs.Faults.{count_after};
ghost use Rattle.budget_ports.specs.Contents.{with_text};
ghost use Rattle.budget_ports.specs.Keeper.{has_failed, Commits, IsAlone};
ghost use Rattle.sync_server.specs.Serving.{file_name};
ghost use Rattle.sync_server.specs.State.{Agrees};
ghost use Rattle.budget_top.specs.ServeRun.{at_door, HasServed, ServeRun};

use crate::dispatch::{DONE, DOOR_FAILED, KEEPER_FAILED, NO_MEMORY, SINK_FAILED};
use crate::tally::tell_end;
use crate::words::Plan;
use budget_ports::{Door, Keeper, PortFault, Sink};
use field_values::Txt;
use std::alloc::Global;
use sync_server::{ServerState, file_name, serve_one};

/// Gives a file its group.
fn put_group<K: Keeper>(
    alloc: Global,
    keeper: &mut K,
    file: &Txt,
    group: &Txt,
) -> Result<(), PortFault>
    ensures told { K.tells keeper.new → K.tells keeper.old }
    ensures ok { K.tells keeper.new → OnOk result (K.contents keeper.new ≡ with_text (K.contents keeper.old) (file_name file.now) group.now) }
    ensures err { K.tells keeper.new → OnErr result (K.contents keeper.new ≡ K.contents keeper.old) }
    ensures left { Commits (K.tells keeper.old) (K.left keeper.old) (K.left keeper.new) (with_text (K.contents keeper.old) (file_name file.now) group.now) }
    ensures alone { OnOk result (IsAlone (K.tells keeper.new) (K.contents keeper.new) (K.left keeper.new)) }
    ensures count { K.faults keeper.new ≡ count_after (has_failed result) (K.faults keeper.old) }
{
    let name = file_name(alloc, file)?;
    keeper.put(&name, group)
}

/// Serves so many connections, one after the other, tells how each ended, and gives the status.
fn serve_all<W: Sink, K: Keeper, D: Door>(
    alloc: Global,
    state: &mut ServerState,
    count: u32,
    sink: &mut W,
    keeper: &mut K,
    door: &mut D,
) -> u8
    requires agrees { K.tells keeper.old → Agrees state.old (K.contents keeper.old) }
    requires alone { IsAlone (K.tells keeper.old) (K.contents keeper.old) (K.left keeper.old) }
    ensures told { K.tells keeper.new → K.tells keeper.old }
    ensures served { HasServed state.old.token count (K.contents keeper.old) result (at_door (W.taken sink.old) (D.waiting door.old) (D.outs door.old) (D.faults door.old) (K.faults keeper.old) (K.tells keeper.old) (K.contents keeper.old) (K.left keeper.old)) (at_door (W.taken sink.new) (D.waiting door.new) (D.outs door.new) (D.faults door.new) (K.faults keeper.new) (K.tells keeper.new) (K.contents keeper.new) (K.left keeper.new)) }
    ensures sink { W.faults sink.new ≡ count_after (result == 5) (W.faults sink.old) }
{
    let mut number = 0;
    'connections: while number < count {
        let Ok(end) = serve_one(alloc, state, keeper, door) else {
            return DOOR_FAILED;
        };
        number += 1;
        if tell_end(sink, number, end).is_err() {
            return SINK_FAILED;
        }
    }
    DONE
}

/// Gives the file its group, serves the connections, and gives the status. All memory that the run itself wants is
/// taken before a connection is let in.
pub fn run_serve<W: Sink, K: Keeper, D: Door>(
    alloc: Global,
    plan: &Plan,
    sink: &mut W,
    keeper: &mut K,
    door: &mut D,
) -> u8
    ensures run { ServeRun plan.now result (at_door (W.taken sink.old) (D.waiting door.old) (D.outs door.old) (D.faults door.old) (K.faults keeper.old) (K.tells keeper.old) (K.contents keeper.old) (K.left keeper.old)) (at_door (W.taken sink.new) (D.waiting door.new) (D.outs door.new) (D.faults door.new) (K.faults keeper.new) (K.tells keeper.new) (K.contents keeper.new) (K.left keeper.new)) }
    ensures sink { W.faults sink.new ≡ count_after (result == 5) (W.faults sink.old) }
    ensures words { (result == 2) ≡ false }
    ensures source { (result == 4) ≡ false }
{
    let Ok(mut state) = ServerState::new(alloc, &plan.token) else {
        return NO_MEMORY;
    };
    match put_group(alloc, keeper, &plan.file, &plan.group) {
        Ok(()) => serve_all(alloc, &mut state, plan.count, sink, keeper, door),
        Err(PortFault::Failed) => KEEPER_FAILED,
        Err(PortFault::NoMemory) => NO_MEMORY,
    }
}
