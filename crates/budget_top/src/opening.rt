//! The opening of a device's run: what its group keeps.
ghost use Rattle.std.specs.Prelude.{◌≡◌, ◌≢◌, ◌==◌, ℕ, Ok, Err, IfOk, OnOk};
ghost use Rattle.hybrid_clock.specs.Node.{IsNode};
ghost use Rattle.budget_ports.specs.Faults.{count_after};
ghost use Rattle.budget_ports.specs.Keeper.{IsKnown, LeavesNoMore};
ghost use Rattle.kept_messages.specs.Records.{kept_set, HasFirstStamp};
ghost use Rattle.device_core.specs.Device.{at_rest, begun};
ghost use Rattle.budget_top.specs.Seen.{device_group, device_records};
ghost use Rattle.budget_top.specs.Stops.{opening_status};
ghost use Rattle.budget_top.specs.Handling.{IsOpened};

use budget_ports::{Keeper, PortFault, Record};
use device_core::{Device, StartFault};
use field_values::Txt;
use hybrid_clock::Node;
use std::alloc::Global;

/// Why a device's run does not begin.
#[derive(Clone, Copy, Debug, PartialEq, Eq)]
pub enum OpeningFault {
    /// The keeper failed.
    Keeper,
    /// The record with this index, counted from 0, is the first that keeps no message.
    BadRecord { index: usize },
    /// Memory ran out.
    NoMemory,
}

/// The device of this node that begins with records.
fn start(alloc: Global, node: Node, records: &[Record]) -> Result<Device, OpeningFault>
    requires node { IsNode node }
    ensures messages { IfOk result (λ d. kept_set records.now ≡ Ok d.state.messages) }
    ensures state { IfOk result (λ d. d ≡ at_rest (begun node d.state.messages)) }
    ensures bad { (index : ℕ) → result ≡ Err (OpeningFault.BadRecord index) → kept_set records.now ≡ Err index }
    ensures keeper { result ≢ Err OpeningFault.Keeper }
    ensures memory { result ≡ Err OpeningFault.NoMemory → HasFirstStamp records.now }
{
    match Device::start(alloc, node, records) {
        Ok(device) => Ok(device),
        Err(StartFault::NoMemory) => Err(OpeningFault::NoMemory),
        Err(StartFault::BadRecord { index }) => Err(OpeningFault::BadRecord { index }),
    }
}

/// The device of this node that begins with what the group keeps.
pub fn open<K: Keeper>(
    alloc: Global,
    node: Node,
    keeper: &mut K,
    group: &Txt,
) -> Result<Device, OpeningFault>
    requires node { IsNode node }
    requires group { group.now ≡ device_group }
    ensures ok { IfOk result (IsOpened node (K.contents keeper.old) (K.tells keeper.new)) }
    ensures bad { (index : ℕ) → result ≡ Err (OpeningFault.BadRecord index) → K.tells keeper.new → kept_set (device_records (K.contents keeper.old)) ≡ Err index }
    ensures same { K.tells keeper.new → K.contents keeper.new ≡ K.contents keeper.old }
    ensures known { OnOk result (IsKnown (K.tells keeper.new) (K.left keeper.new)) }
    ensures left { LeavesNoMore (K.left keeper.old) (K.left keeper.new) }
    ensures told { K.tells keeper.new → K.tells keeper.old }
    ensures count { K.faults keeper.new ≡ count_after (opening_status result == 6) (K.faults keeper.old) }
{
    let records = match keeper.since(group, &Txt::new(String::new(alloc))) {
        Ok(records) => records,
        Err(PortFault::Failed) => return Err(OpeningFault::Keeper),
        Err(PortFault::NoMemory) => return Err(OpeningFault::NoMemory),
    };
    start(alloc, node, records.as_slice())
}
