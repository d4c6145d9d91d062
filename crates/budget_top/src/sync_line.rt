//! The line of a device that syncs it with a server.
ghost use Rattle.std.specs.Prelude.{◌≡◌, ◌⊎◌, [], Ok, IfOk, IfErr, OnOk, false};
ghost use Rattle.budget_ports.specs.Faults.{count_after};
ghost use Rattle.budget_ports.specs.Contents.{Contents};
ghost use Rattle.budget_ports.specs.Keeper.{has_failed, IsAlone};
ghost use Rattle.budget_top.specs.Seen.{device_group};
ghost use Rattle.budget_top.specs.Handling.{IsAnswered, IsUnanswered};
ghost use Rattle.budget_top.specs.SyncSteps.{HasReply, IsTold, reply_of};
ghost use Rattle.command_lines.specs.declared.command.Command.TheVariants.{Sync};

use crate::answer::{Answer, is_refusal};
use budget_ports::{Keeper, Link, PortFault};
use command_lines::{
    Reply, bad_answer_reply, bad_status_reply, lost_link_reply, out_of_sync_reply, refusal_reply,
    reply_text, synced_reply,
};
use device_core::{Device, LineRefusal};
use device_sync::{SyncFault, Synced, Target, sync, talks_are_told};
use field_values::{NoMemory, Steps, Txt};
use std::alloc::Global;
use std::sync::ledger::Ledger;

/// The reply to a sync.
fn reply_to_sync(alloc: Global, ended: Result<Synced, SyncFault>) -> Result<Reply, NoMemory>
    requires { HasReply ended }
    ensures { IfOk result (λ reply. reply ≡ reply_of ended) }
{
    match ended {
        Ok(done) => synced_reply(alloc, done.requests, done.received),
        Err(SyncFault::Link) => lost_link_reply(alloc),
        Err(SyncFault::BadReply { at }) => bad_answer_reply(alloc, at),
        Err(SyncFault::Refused { status }) => bad_status_reply(alloc, status),
        Err(SyncFault::OutOfSync { mine, theirs }) => out_of_sync_reply(alloc, mine, theirs),
        Err(SyncFault::Clock(fault)) => refusal_reply(alloc, &LineRefusal::Clock(fault)),
        Err(SyncFault::Keeper | SyncFault::NoMemory) => unreachable!(),
    }
}

/// The answer to a sync that has a reply.
fn answer_to_sync(alloc: Global, ended: Result<Synced, SyncFault>) -> Result<Answer, NoMemory>
    requires { HasReply ended }
    ensures { IfOk result (λ a. IsTold ended (Ok a)) }
{
    let reply = reply_to_sync(alloc, ended)?;
    let text = reply_text(alloc, &reply)?;
    Ok(Answer {
        text,
        refused: is_refusal(&reply),
    })
}

/// The answer to a sync, or why there is none.
fn tell_sync(alloc: Global, ended: Result<Synced, SyncFault>) -> Result<Answer, PortFault>
    ensures { IsTold ended result }
{
    match ended {
        Err(SyncFault::Keeper) => Err(PortFault::Failed),
        Err(SyncFault::NoMemory) => Err(PortFault::NoMemory),
        _ => match answer_to_sync(alloc, ended) {
            Ok(answer) => Ok(answer),
            Err(_) => Err(PortFault::NoMemory),
        },
    }
}

/// Syncs the device with the server at a reading of the wall clock, and gives the reply.
///
/// What each turn of the talk has brought is kept before the next one begins. Where the keeper fails or memory runs out there is no
/// reply, and the device is not to be used any more; what the turns before have brought stays kept.
pub fn sync_line<K: Keeper, L: Link, G: Ledger>(
    alloc: Global,
    device: &mut Device,
    keeper: &mut K,
    link: &mut L,
    group: &Txt,
    target: &Target,
    steps: &mut Steps<G>,
    reading: u64,
) -> Result<Answer, PortFault>
    requires live { device.old.spent ≡ false }
    requires idle { device.old.batch ≡ [] }
    requires group { group.now ≡ device_group }
    ensures answered { IfOk result (λ a. IsAnswered target.now reading (Ok Sync) device.old.state device.new.state a.text a.refused (L.exchanges link.old) (L.exchanges link.new) (L.faults link.old) (L.faults link.new) (K.tells keeper.new) (K.contents keeper.old) (K.contents keeper.new)) }
    ensures unanswered { IfErr result (λ fault. IsUnanswered target.now fault reading (Ok Sync) device.old.state (L.exchanges link.old) (L.exchanges link.new) (L.faults link.old) (L.faults link.new) (IsAlone (K.tells keeper.old) (K.contents keeper.old) (K.left keeper.old)) (K.tells keeper.old) (K.tells keeper.new) (K.contents keeper.old) (K.contents keeper.new) (K.left keeper.new)) }
    ensures live { OnOk result (device.new.spent ≡ false) }
    ensures idle { OnOk result (device.new.batch ≡ []) }
    ensures alone { OnOk result (IsAlone (K.tells keeper.old) (K.contents keeper.old) (K.left keeper.old) → IsAlone (K.tells keeper.new) (K.contents keeper.new) (K.left keeper.new)) }
    ensures told { K.tells keeper.new → K.tells keeper.old }
    ensures before { (k : Contents) → K.left keeper.new k → K.left keeper.old k ⊎ K.tells keeper.old }
    ensures count { K.faults keeper.new ≡ count_after (has_failed result) (K.faults keeper.old) }
{
    talks_are_told();
    let ended = sync(alloc, device, keeper, link, group, target, reading, steps);
    tell_sync(alloc, ended)
}
