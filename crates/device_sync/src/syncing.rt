//! A whole sync.
ghost use Rattle.std.specs.Prelude.{◌≡◌, ◌⊎◌, ◌≤◌, ◌<◌, ◌/◌, [], OnOk, OnErr, Err, false};
ghost use Rattle.std.specs.FinMap.{insert};
ghost use Rattle.budget_ports.specs.Contents.{Contents};
ghost use Rattle.budget_ports.specs.Keeper.{IsAlone};
ghost use Rattle.budget_ports.specs.Faults.{count_after};
ghost use Rattle.hybrid_clock.specs.Stamp.{stamp_text, window};
ghost use Rattle.device_sync.specs.Sync.{told, HasConversed, HasTalked, MeetsHonest, IsNumber, IsCounted, synced_name, fails_link, fails_keeper, IfUsable};

use crate::fault::{SyncFault, Synced};
use crate::request::{first_since, moment};
use crate::round::{Compared, round};
use crate::store::{last_synced, put_synced};
use crate::target::Target;
use budget_ports::{Keeper, Link, PortFault};
use device_core::Device;
use field_values::{Steps, Txt};
use hybrid_clock::{ClockFault, WINDOW};
use std::alloc::Global;
use std::sync::ledger::Ledger;

/// How many requests may follow the first.
const MORE_REQUESTS: u64 = 99;

/// Talks from a text on, until both tries have one hash at the root, and gives the number of the requests.
fn converse<K: Keeper, L: Link, G: Ledger>(
    alloc: Global,
    device: &mut Device,
    keeper: &mut K,
    link: &mut L,
    group: &Txt,
    target: &Target,
    reading: u64,
    steps: &mut Steps<G>,
    first: Txt,
) -> Result<u64, SyncFault>
    requires live { device.old.spent ≡ false }
    requires idle { device.old.batch ≡ [] }
    ensures talked { HasConversed target.now group.now reading first device.old.state (told (L.exchanges link.old) (K.tells keeper.old) (K.contents keeper.old) (K.left keeper.old)) (told (L.exchanges link.new) (K.tells keeper.new) (K.contents keeper.new) (K.left keeper.new)) device.new.state IsNumber result }
    ensures usable { IfUsable result ((device.new.spent ≡ false) × (device.new.batch ≡ [])) }
    ensures texts { K.tells keeper.new → (K.contents keeper.new).texts ≡ (K.contents keeper.old).texts }
    ensures alone { IfUsable result (IsAlone (K.tells keeper.old) (K.contents keeper.old) (K.left keeper.old) → IsAlone (K.tells keeper.new) (K.contents keeper.new) (K.left keeper.new)) }
    ensures before { (k : Contents) → K.left keeper.new k → K.left keeper.old k ⊎ K.tells keeper.old }
    ensures told { K.tells keeper.new → K.tells keeper.old }
    ensures count { K.faults keeper.new ≡ count_after (fails_keeper result) (K.faults keeper.old) }
    ensures link_count { L.faults link.new ≡ count_after (fails_link result) (L.faults link.old) }
{
    let mut since = first;
    let mut left = MORE_REQUESTS;
    'rounds: loop {
        match round(
            alloc, device, keeper, link, group, target, reading, steps, &since,
        ) {
            Err(fault) => return Err(fault),
            Ok(Compared::Agreed) => return Ok(100 - left),
            Ok(
                Compared::Differ {
                    moment: next,
                    mine,
                    theirs,
                },
            ) => {
                if left == 0 {
                    return Err(SyncFault::OutOfSync { mine, theirs });
                }
                left -= 1;
                since = match moment(alloc, next) {
                    Ok(text) => text,
                    Err(_) => return Err(SyncFault::NoMemory),
                };
            }
        }
    }
}

/// Talks from a text on, and puts the text of the last sync.
fn sync_from<K: Keeper, L: Link, G: Ledger>(
    alloc: Global,
    device: &mut Device,
    keeper: &mut K,
    link: &mut L,
    group: &Txt,
    target: &Target,
    reading: u64,
    steps: &mut Steps<G>,
    first: Txt,
) -> Result<Synced, SyncFault>
    requires live { device.old.spent ≡ false }
    requires idle { device.old.batch ≡ [] }
    ensures talked { HasConversed target.now group.now reading first device.old.state (told (L.exchanges link.old) (K.tells keeper.old) (K.contents keeper.old) (K.left keeper.old)) (told (L.exchanges link.new) (K.tells keeper.new) (K.contents keeper.new) (K.left keeper.new)) device.new.state (IsCounted device.old.state) result }
    ensures usable { IfUsable result ((device.new.spent ≡ false) × (device.new.batch ≡ [])) }
    ensures synced { K.tells keeper.new → OnOk result ((K.contents keeper.new).texts ≡ insert (K.contents keeper.old).texts (synced_name target.now) (stamp_text device.new.state.clock)) }
    ensures unsynced { K.tells keeper.new → OnErr result ((K.contents keeper.new).texts ≡ (K.contents keeper.old).texts) }
    ensures alone { IfUsable result (IsAlone (K.tells keeper.old) (K.contents keeper.old) (K.left keeper.old) → IsAlone (K.tells keeper.new) (K.contents keeper.new) (K.left keeper.new)) }
    ensures before { (k : Contents) → K.left keeper.new k → K.left keeper.old k ⊎ K.tells keeper.old }
    ensures told { K.tells keeper.new → K.tells keeper.old }
    ensures count { K.faults keeper.new ≡ count_after (fails_keeper result) (K.faults keeper.old) }
    ensures link_count { L.faults link.new ≡ count_after (fails_link result) (L.faults link.old) }
{
    let before = device.log().len();
    let requests = match converse(
        alloc, device, keeper, link, group, target, reading, steps, first,
    ) {
        Ok(requests) => requests,
        Err(fault) => return Err(fault),
    };
    match put_synced(alloc, device, keeper, target) {
        Ok(()) => {
            let received = device.log().len().saturating_sub(before) as u64;
            Ok(Synced { requests, received })
        }
        Err(PortFault::Failed) => Err(SyncFault::Keeper),
        Err(PortFault::NoMemory) => Err(SyncFault::NoMemory),
    }
}

/// Syncs a device with a server at a reading of the wall clock, in milliseconds since 1970, and keeps what comes in a group of a keeper that keeps
/// the device's messages. What was pending has to be kept before (`Device::commit`).
///
/// The first request asks from the text of the last sync on, where the keeper has one that is a timestamp's, else from five minutes before the
/// reading. Each request hands in all messages that are later than it asks for, whoever made them. The messages of a reply are received as one batch,
/// and the new ones kept in one commit. While the tries have two hashes at the root, the next request asks from the moment on that their difference
/// tells. At the end the text of the clock's timestamp is put as that of the last sync. It costs a turn for each request, of which a conversation with an
/// honest server has at most eighteen (`talks_converge`).
///
/// # Errors
///
/// `Clock` for a reading past the window of timestamps, before the keeper or the link is called. Else as the turns come: `Link`, `BadReply`, `Refused`, `Clock`,
/// and `OutOfSync` after a hundred requests. What the turns before have brought stays kept, and the text of the last sync stays as it was. After `Keeper` and
/// `NoMemory` the device is not to be used any more.
pub fn sync<K: Keeper, L: Link, G: Ledger>(
    alloc: Global,
    device: &mut Device,
    keeper: &mut K,
    link: &mut L,
    group: &Txt,
    target: &Target,
    reading: u64,
    steps: &mut Steps<G>,
) -> Result<Synced, SyncFault>
    requires live { device.old.spent ≡ false }
    requires idle { device.old.batch ≡ [] }
    ensures beyond { window ≤ reading / 60_000 → (result ≡ Err (SyncFault.Clock (ClockFault.Beyond reading))) × ((device.new ≡ device.old) × ((keeper.new ≡ keeper.old) × (link.new ≡ link.old))) }
    ensures talked { reading / 60_000 < window → HasTalked target.now group.now reading device.old.state (told (L.exchanges link.old) (K.tells keeper.old) (K.contents keeper.old) (K.left keeper.old)) (told (L.exchanges link.new) (K.tells keeper.new) (K.contents keeper.new) (K.left keeper.new)) device.new.state result }
    ensures met { reading / 60_000 < window → MeetsHonest target.now.token device.old.state.messages (L.exchanges link.old) (L.exchanges link.new) device.new.state.messages result }
    ensures usable { IfUsable result ((device.new.spent ≡ false) × (device.new.batch ≡ [])) }
    ensures synced { K.tells keeper.new → OnOk result ((K.contents keeper.new).texts ≡ insert (K.contents keeper.old).texts (synced_name target.now) (stamp_text device.new.state.clock)) }
    ensures unsynced { K.tells keeper.new → OnErr result ((K.contents keeper.new).texts ≡ (K.contents keeper.old).texts) }
    ensures alone { IfUsable result (IsAlone (K.tells keeper.old) (K.contents keeper.old) (K.left keeper.old) → IsAlone (K.tells keeper.new) (K.contents keeper.new) (K.left keeper.new)) }
    ensures before { (k : Contents) → K.left keeper.new k → K.left keeper.old k ⊎ K.tells keeper.old }
    ensures told { K.tells keeper.new → K.tells keeper.old }
    ensures count { K.faults keeper.new ≡ count_after (fails_keeper result) (K.faults keeper.old) }
    ensures link_count { L.faults link.new ≡ count_after (fails_link result) (L.faults link.old) }
{
    if reading / 60_000 >= WINDOW {
        return Err(SyncFault::Clock(ClockFault::Beyond { reading }));
    }
    // The contract of `len` says that the messages of a log rise.
    let _count = device.log().len();
    let found = match last_synced(alloc, keeper, target) {
        Ok(found) => found,
        Err(PortFault::Failed) => return Err(SyncFault::Keeper),
        Err(PortFault::NoMemory) => return Err(SyncFault::NoMemory),
    };
    let first = match first_since(alloc, found, reading) {
        Ok(first) => first,
        Err(_) => return Err(SyncFault::NoMemory),
    };
    sync_from(
        alloc, device, keeper, link, group, target, reading, steps, first,
    )
}
