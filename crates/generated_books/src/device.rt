//! A device with generated messages.
ghost use Rattle.std.specs.Prelude.{◌≡◌, ◌≢◌, ℕ, ◌<◌, ◌≤◌, ◌+◌, ◌-◌, ◌*◌, [], true, false, is_ok, IfOk, IfErr, OnOk};
ghost use Rattle.hybrid_clock.specs.Node.{IsNode};
ghost use Rattle.hybrid_clock.specs.Stamp.{window};
ghost use Rattle.field_merge.specs.Log.{join};
ghost use Rattle.field_merge.specs.Messages.{AreMessages};
ghost use Rattle.device_core.specs.Device.{is_covered};
ghost use Rattle.generated_books.specs.Clocks.{IsWithin, AreBy, last_time};
ghost use Rattle.generated_books.specs.Generated.{generated};
ghost use Rattle.generated_books.specs.Numbers.{AreDraws, count_of, messages_from};

use crate::draws::draws_of;
use crate::messages::{messages_between, time_at};
use device_core::{Device, LineRefusal, StartFault};
use field_merge::Message;
use field_values::{NoMemory, Steps};
use hybrid_clock::Node;
use std::alloc::Global;
use std::sync::ledger::Ledger;

/// How many messages a batch has, but for the first, which may have fewer.
const BATCH: u32 = 1000;

/// The month whose cells are read.
pub(crate) const DECEMBER: u32 = 202_412;

/// The node of the device.
#[tactic(auto, using(crate::proofs::Nodes::of_device))]
fn node() -> Node
    ensures valid { IsNode result }
{
    match Node::make(b"1") {
        Ok(node) => node,
        // It is a node.
        Err(_) => unreachable!(),
    }
}

/// A device without messages.
fn empty_device(alloc: Global) -> Result<Device, NoMemory>
    ensures live { IfOk result (λ device. device.spent ≡ false) }
    ensures empty { IfOk result (λ device. device.state.messages ≡ []) }
    ensures kept { IfOk result (λ device. device.batch ≡ []) }
    ensures clock { IfOk result (λ device. IsWithin 0 0 device.state.clock) }
{
    match Device::start(alloc, node(), &[]) {
        Ok(device) => Ok(device),
        Err(StartFault::NoMemory) => Err(NoMemory),
        // No record is none that keeps no message.
        Err(StartFault::BadRecord { index: _ }) => unreachable!(),
    }
}

/// Whether memory sufficed for a batch that the clock does not refuse.
fn accepted(answer: Result<u64, LineRefusal>) -> Result<(), NoMemory>
    requires { IfErr answer (λ refusal. refusal ≡ LineRefusal.NoMemory) }
    ensures { OnOk result (is_ok answer ≡ true) }
{
    match answer {
        Ok(_) => Ok(()),
        Err(LineRefusal::NoMemory) => Err(NoMemory),
        Err(_) => unreachable!(),
    }
}

/// Receives a batch at a reading of the wall clock that no message of it is past.
fn take_in<G: Ledger>(
    device: &mut Device,
    batch: &[Message],
    reading: u64,
    steps: &mut Steps<G>,
) -> Result<(), NoMemory>
    requires live { device.old.spent ≡ false }
    requires kept { device.old.batch ≡ [] }
    requires valid { AreMessages batch.now }
    requires some { batch.now ≢ [] }
    requires early { AreBy reading batch.now }
    requires clock { IsWithin reading 1000 device.old.state.clock }
    requires window { reading < 60_000 * window }
    ensures live { OnOk result (device.new.spent ≡ false) }
    ensures kept { OnOk result (device.new.batch ≡ []) }
    ensures joined { OnOk result (device.new.state.messages ≡ join device.old.state.messages batch.now) }
    ensures clock { OnOk result ((n : ℕ) → n ≤ 1000 → IsWithin reading n device.old.state.clock → IsWithin reading (n + 1) device.new.state.clock) }
{
    let answer = device.incoming(batch, reading, steps);
    accepted(answer)?;
    device.commit();
    Ok(())
}

/// Receives the batch with a number, counted from 0, where those behind it came before.
fn receive<G: Ledger>(
    alloc: Global,
    device: &mut Device,
    draws: &[u32],
    at: u32,
    count: u32,
    steps: &mut Steps<G>,
) -> Result<(), NoMemory>
    requires live { device.old.spent ≡ false }
    requires kept { device.old.batch ≡ [] }
    requires draws { AreDraws draws.now count }
    requires few { count ≤ 100_000 }
    requires within { 1000 * at < count_of count }
    requires behind { device.old.state.messages ≡ messages_from (1000 * (at + 1)) count }
    requires clock { IsWithin (last_time count) (400 - at) device.old.state.clock }
    ensures live { OnOk result (device.new.spent ≡ false) }
    ensures kept { OnOk result (device.new.batch ≡ []) }
    ensures behind { OnOk result (device.new.state.messages ≡ messages_from (1000 * at) count) }
    ensures clock { OnOk result (IsWithin (last_time count) (401 - at) device.new.state.clock) }
{
    let from = BATCH * at;
    let to = (from + BATCH).min(15 + 4 * count);
    let batch = messages_between(alloc, draws, from, to, count)?;
    take_in(device, batch.as_slice(), time_at(14 + 4 * count), steps)?;
    Ok(())
}

/// Receives all messages, in batches of 1,000 from the last to the first, of which the first may be shorter.
fn receive_all<G: Ledger>(
    alloc: Global,
    device: &mut Device,
    count: u32,
    steps: &mut Steps<G>,
) -> Result<(), NoMemory>
    requires live { device.old.spent ≡ false }
    requires kept { device.old.batch ≡ [] }
    requires empty { device.old.state.messages ≡ [] }
    requires clock { IsWithin 0 0 device.old.state.clock }
    requires few { count ≤ 100_000 }
    ensures live { OnOk result (device.new.spent ≡ false) }
    ensures kept { OnOk result (device.new.batch ≡ []) }
    ensures messages { OnOk result (device.new.state.messages ≡ messages_from 0 count) }
{
    let draws = draws_of(alloc, count)?;
    let draws = draws.as_slice();
    let last = (14 + 4 * count) / BATCH;
    for done in 0..last + 1 {
        receive(alloc, device, draws, last - done, count, steps)?;
    }
    Ok(())
}

/// A device of the node `0000000000000001` with the generated messages of so many transactions, received in batches of 1,000 from the
/// last message to the first at a reading of the wall clock that is the time of the last. It covers December 2024.
pub fn generated_device<G: Ledger>(
    alloc: Global,
    count: u32,
    steps: &mut Steps<G>,
) -> Result<Device, NoMemory>
    requires some { 1 ≤ count }
    requires few { count ≤ 100_000 }
    ensures live { IfOk result (λ device. device.spent ≡ false) }
    ensures messages { IfOk result (λ device. device.state.messages ≡ generated count) }
    ensures kept { IfOk result (λ device. device.batch ≡ []) }
    ensures covered { IfOk result (λ device. is_covered device 202_412 ≡ true) }
{
    let mut device = empty_device(alloc)?;
    receive_all(alloc, &mut device, count, steps)?;
    device.cover(DECEMBER, steps)?;
    Ok(device)
}
