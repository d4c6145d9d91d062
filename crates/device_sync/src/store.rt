//! What a sync keeps.
ghost use Rattle.std.specs.Prelude.{◌≡◌, ◌⊎◌, [], IfOk, OnOk, OnErr, false};
ghost use Rattle.std.specs.FinMap.{get};
ghost use Rattle.budget_ports.specs.Contents.{Contents, with_text, appended};
ghost use Rattle.budget_ports.specs.Faults.{count_after};
ghost use Rattle.budget_ports.specs.Keeper.{has_failed, Commits, IsAlone, LeavesNoMore};
ghost use Rattle.field_merge.specs.Messages.{AreMessages};
ghost use Rattle.hybrid_clock.specs.Stamp.{IsStamp, stamp_text};
ghost use Rattle.device_sync.specs.Sync.{synced_name, IsTaken, TakesOrNot, Carries, kept_of, fails_keeper, IfUsable};

use crate::fault::SyncFault;
use crate::target::Target;
use budget_ports::{Keeper, PortFault};
use device_core::{Device, LineRefusal};
use field_merge::Message;
use field_values::{NoMemory, Steps, Txt, TxtFault};
use hybrid_clock::Stamp;
use kept_messages::batches_are_kept;
use std::alloc::Global;
use std::sync::ledger::Ledger;

/// Keeps the records that are pending, if there are any.
fn keep<K: Keeper>(device: &mut Device, keeper: &mut K, group: &Txt) -> Result<(), PortFault>
    requires live { device.old.spent ≡ false }
    ensures ok { OnOk result (device.new ≡ record device.old { batch = [] }) }
    ensures kept { K.tells keeper.new → OnOk result (K.contents keeper.new ≡ appended (K.contents keeper.old) group.now device.old.batch) }
    ensures same { K.tells keeper.new → OnErr result (K.contents keeper.new ≡ K.contents keeper.old) }
    ensures alone { OnOk result (IsAlone (K.tells keeper.old) (K.contents keeper.old) (K.left keeper.old) → IsAlone (K.tells keeper.new) (K.contents keeper.new) (K.left keeper.new)) }
    ensures left { Commits (K.tells keeper.old) (K.left keeper.old) (K.left keeper.new) (appended (K.contents keeper.old) group.now device.old.batch) }
    ensures before { (k : Contents) → K.left keeper.new k → K.left keeper.old k ⊎ K.tells keeper.old }
    ensures told { K.tells keeper.new → K.tells keeper.old }
    ensures count { K.faults keeper.new ≡ count_after (has_failed result) (K.faults keeper.old) }
{
    if !device.batch().is_empty() {
        keeper.append(group, device.batch())?;
        device.commit();
    }
    Ok(())
}

/// Receives messages and keeps the new ones, in one commit.
pub(crate) fn take<K: Keeper, G: Ledger>(
    device: &mut Device,
    keeper: &mut K,
    group: &Txt,
    messages: &[Message],
    reading: u64,
    steps: &mut Steps<G>,
) -> Result<(), SyncFault>
    requires live { device.old.spent ≡ false }
    requires idle { device.old.batch ≡ [] }
    requires valid { AreMessages messages.now }
    ensures taken { IsTaken device.old.state messages.now reading device.new.state result }
    ensures usable { IfUsable result ((device.new.spent ≡ false) × (device.new.batch ≡ [])) }
    ensures carries { K.tells keeper.new → Carries group.now device.old.state.messages (kept_of device.old.state.messages device.new.state.messages result) (K.contents keeper.old) (K.contents keeper.new) }
    ensures texts { K.tells keeper.new → (K.contents keeper.new).texts ≡ (K.contents keeper.old).texts }
    ensures alone { IfUsable result (IsAlone (K.tells keeper.old) (K.contents keeper.old) (K.left keeper.old) → IsAlone (K.tells keeper.new) (K.contents keeper.new) (K.left keeper.new)) }
    ensures stops { OnErr result (IsAlone (K.tells keeper.old) (K.contents keeper.old) (K.left keeper.old) → (c : Contents) → K.left keeper.new c → K.tells keeper.old × TakesOrNot group.now device.old.state messages.now reading (K.contents keeper.old) c) }
    ensures before { (k : Contents) → K.left keeper.new k → K.left keeper.old k ⊎ K.tells keeper.old }
    ensures told { K.tells keeper.new → K.tells keeper.old }
    ensures count { K.faults keeper.new ≡ count_after (fails_keeper result) (K.faults keeper.old) }
{
    batches_are_kept();
    match device.incoming(messages, reading, steps) {
        Ok(_) => match keep(device, keeper, group) {
            Ok(()) => Ok(()),
            Err(PortFault::Failed) => Err(SyncFault::Keeper),
            Err(PortFault::NoMemory) => Err(SyncFault::NoMemory),
        },
        Err(LineRefusal::Clock(fault)) => Err(SyncFault::Clock(fault)),
        Err(_) => Err(SyncFault::NoMemory),
    }
}

/// The name of the text that tells of the last sync.
fn synced_name(alloc: Global, target: &Target) -> Result<Txt, NoMemory>
    ensures { IfOk result (λ name. name ≡ synced_name target.now) }
{
    let file = target.file.as_str();
    let group = target.group.as_str();
    Ok(Txt::new(format!(in alloc; "synced/{file}/{group}")?))
}

/// The text of a timestamp.
fn stamp_txt(alloc: Global, stamp: &Stamp) -> Result<Txt, NoMemory>
    requires { IsStamp stamp.now }
    ensures { IfOk result (λ text. text ≡ stamp_text stamp.now) }
{
    let mut text = [0u8; 46];
    stamp.write_text(&mut text);
    match Txt::make(alloc, &text) {
        Ok(text) => Ok(text),
        // It is a text of digits, letters and signs.
        Err(TxtFault::NotUtf8 { .. }) => Err(NoMemory),
        Err(TxtFault::NoMemory) => Err(NoMemory),
    }
}

/// The text that tells of the last sync.
pub(crate) fn last_synced<K: Keeper>(
    alloc: Global,
    keeper: &mut K,
    target: &Target,
) -> Result<Option<Txt>, PortFault>
    ensures text { K.tells keeper.new → IfOk result (λ text. text ≡ get (K.contents keeper.old).texts (synced_name target.now)) }
    ensures same { K.tells keeper.new → K.contents keeper.new ≡ K.contents keeper.old }
    ensures alone { OnOk result (IsAlone (K.tells keeper.old) (K.contents keeper.old) (K.left keeper.old) → IsAlone (K.tells keeper.new) (K.contents keeper.new) (K.left keeper.new)) }
    ensures left { LeavesNoMore (K.left keeper.old) (K.left keeper.new) }
    ensures before { (k : Contents) → K.left keeper.new k → K.left keeper.old k ⊎ K.tells keeper.old }
    ensures told { K.tells keeper.new → K.tells keeper.old }
    ensures count { K.faults keeper.new ≡ count_after (has_failed result) (K.faults keeper.old) }
{
    let name = synced_name(alloc, target)?;
    keeper.get(&name)
}

/// Puts the text of the timestamp at which the clock stands as that of the last sync.
pub(crate) fn put_synced<K: Keeper>(
    alloc: Global,
    device: &Device,
    keeper: &mut K,
    target: &Target,
) -> Result<(), PortFault>
    requires { device.now.spent ≡ false }
    ensures put { K.tells keeper.new → OnOk result (K.contents keeper.new ≡ with_text (K.contents keeper.old) (synced_name target.now) (stamp_text device.now.state.clock)) }
    ensures same { K.tells keeper.new → OnErr result (K.contents keeper.new ≡ K.contents keeper.old) }
    ensures alone { OnOk result (IsAlone (K.tells keeper.old) (K.contents keeper.old) (K.left keeper.old) → IsAlone (K.tells keeper.new) (K.contents keeper.new) (K.left keeper.new)) }
    ensures left { Commits (K.tells keeper.old) (K.left keeper.old) (K.left keeper.new) (with_text (K.contents keeper.old) (synced_name target.now) (stamp_text device.now.state.clock)) }
    ensures before { (k : Contents) → K.left keeper.new k → K.left keeper.old k ⊎ K.tells keeper.old }
    ensures told { K.tells keeper.new → K.tells keeper.old }
    ensures count { K.faults keeper.new ≡ count_after (has_failed result) (K.faults keeper.old) }
{
    let name = synced_name(alloc, target)?;
    let text = stamp_txt(alloc, &device.clock_last())?;
    keeper.put(&name, &text)
}
