//! Two devices that sync with one server.
ghost use Rattle.std.specs.Prelude.{◌≡◌, [], Some, IfOk, IsSome, false};
ghost use Rattle.device_sync.specs.Sync.{IfUsable};
ghost use Rattle.peer_link.specs.Meeting.{AgreesWith, Grows, Meet, Talks, TalkInTurn, peer};

use crate::link::PeerLink;
use crate::place::peer_target;
use budget_ports::Keeper;
use device_core::{Device, received_are_joined};
use device_sync::{SyncFault, Synced, Target, sync};
use field_values::{Steps, Txt};
use std::alloc::Global;
use std::sync::ledger::Ledger;

/// What three syncs came to: of the first device, of the other, and of the first one again.
#[derive(Clone, Copy, Debug, PartialEq, Eq, Drop)]
pub struct Met {
    pub first: Synced,
    pub other: Synced,
    pub again: Synced,
}

/// Syncs a device with the server behind a link.
fn sync_peer<K: Keeper, G: Ledger>(
    alloc: Global,
    device: &mut Device,
    keeper: &mut K,
    link: &mut PeerLink,
    group: &Txt,
    target: &Target,
    reading: u64,
    steps: &mut Steps<G>,
) -> Result<Synced, SyncFault>
    requires live { device.old.spent ≡ false }
    requires idle { device.old.batch ≡ [] }
    requires target { target.now ≡ peer }
    requires told { IsSome link.old.messages }
    ensures agrees { IfOk result (λ _. AgreesWith device.old.state.messages link.old link.new device.new.state.messages) }
    ensures talks { IfOk result (λ synced. Talks reading device.old.state device.new.state link.old.exchanges link.new.exchanges synced) }
    ensures grows { IfUsable result (Grows device.old.state.messages device.new.state.messages) }
    ensures usable { IfUsable result ((device.new.spent ≡ false) × (device.new.batch ≡ [])) }
{
    received_are_joined();
    // The contract of `count` says what is so of each link.
    let _before = link.count();
    let ended = sync(alloc, device, keeper, link, group, target, reading, steps);
    let _after = link.count();
    ended
}

/// Lets two devices sync in turns with one server whose group is empty: the first one, the other, and the first one again, each at its
/// reading of the wall clock. Each has its own keeper, to keep what comes in a group of it; what a keeper then has, this contract
/// does not say.
///
/// # Errors
///
/// The first fault that comes ends it. After each fault but `Keeper` and `NoMemory` both devices have what they had, as it was, and can
/// be used further.
pub fn meet<K: Keeper, N: Keeper, G: Ledger>(
    alloc: Global,
    one: &mut Device,
    one_keeper: &mut K,
    other: &mut Device,
    other_keeper: &mut N,
    link: &mut PeerLink,
    group: &Txt,
    readings: [u64; 3],
    steps: &mut Steps<G>,
) -> Result<Met, SyncFault>
    requires live { (one.old.spent ≡ false) × (other.old.spent ≡ false) }
    requires idle { (one.old.batch ≡ []) × (other.old.batch ≡ []) }
    requires empty { link.old.messages ≡ Some [] }
    ensures meet { IfOk result (λ _. Meet one.old.state.messages other.old.state.messages one.new.state.messages other.new.state.messages link.new) }
    ensures talk { IfOk result (λ met. TalkInTurn readings one.old.state other.old.state one.new.state other.new.state link.old.exchanges link.new.exchanges met) }
    ensures grow { IfUsable result (Grows one.old.state.messages one.new.state.messages × Grows other.old.state.messages other.new.state.messages) }
    ensures usable { IfUsable result ((one.new.spent ≡ false) × (one.new.batch ≡ []) × (other.new.spent ≡ false) × (other.new.batch ≡ [])) }
{
    let target = match peer_target(alloc) {
        Ok(target) => target,
        Err(_) => return Err(SyncFault::NoMemory),
    };
    // The contract of `len` says that the messages of a log rise.
    let _one = one.log().len();
    let _other = other.log().len();
    let [at_first, at_other, at_again] = readings;
    let first = match sync_peer(
        alloc, one, one_keeper, link, group, &target, at_first, steps,
    ) {
        Ok(synced) => synced,
        Err(fault) => return Err(fault),
    };
    let second = match sync_peer(
        alloc,
        other,
        other_keeper,
        link,
        group,
        &target,
        at_other,
        steps,
    ) {
        Ok(synced) => synced,
        Err(fault) => return Err(fault),
    };
    match sync_peer(
        alloc, one, one_keeper, link, group, &target, at_again, steps,
    ) {
        Ok(again) => Ok(Met {
            first,
            other: second,
            again,
        }),
        Err(fault) => Err(fault),
    }
}
