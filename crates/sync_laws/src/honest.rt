//! A sync with an honest server.
ghost use Rattle.std.specs.Prelude.{◌≡◌, ◌<◌, [], false};
ghost use Rattle.sync_laws.specs.Complete.{Completes};

use budget_ports::{Keeper, Link};
use device_core::Device;
use device_sync::{SyncFault, Synced, Target, sync, talks_are_valid};
use field_values::{Steps, Txt};
use std::alloc::Global;
use std::sync::ledger::Ledger;

/// A law: a sync with an honest server ends with an agreement, or memory runs out, or the clock refuses, where neither the link nor the keeper
/// fails, requests and replies are within their limits, and no reply says that the server's keeper failed or its memory ran out.
pub fn sync_completely<K: Keeper, L: Link, G: Ledger>(
    alloc: Global,
    device: &mut Device,
    keeper: &mut K,
    link: &mut L,
    group: &Txt,
    target: &Target,
    reading: u64,
    steps: &mut Steps<G>,
) -> Result<Synced, SyncFault>
    requires live { device.old.spent ≡ false }
    requires idle { device.old.batch ≡ [] }
    ensures complete { Completes target.now.token device.old.state.messages (L.exchanges link.old) (L.exchanges link.new) (L.faults link.old) (L.faults link.new) (K.faults keeper.old) (K.faults keeper.new) device.new.state.messages result }
{
    talks_are_valid();
    let _messages = device.log();
    sync(alloc, device, keeper, link, group, target, reading, steps)
}
