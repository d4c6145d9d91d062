//! The devices of a world, as an event leaves them.
ghost use Rattle.std.specs.Prelude.{◌≡◌, true, false, [], IfOk, IfErr, OnOk};
ghost use Rattle.std.specs.List.{AllByRecursion};
ghost use Rattle.sync_world.specs.declared.event.Event.TheVariants as events;
ghost use Rattle.field_merge.specs.Messages.{AreMessages};
ghost use Rattle.book_rows.specs.Months.{is_month};
ghost use Rattle.sync_world.specs.Covering.{CoversNone, CoversTo};
ghost use Rattle.sync_world.specs.Members.{IsReady, IsWorldEdit};
ghost use Rattle.sync_world.specs.Steps.{EditsTo, Refuses, RefusesReply, StopsTo, TakesTo, fault_of};

use crate::event::{WorldEdit, WorldFault};
use crate::member::{Changed, change_device, receive_device, stop_device};
use device_core::{Device, LineRefusal};
use field_merge::Message;
use field_values::{Items, Steps};
use std::alloc::Global;
use std::sync::ledger::Ledger;
use sync_wire::SyncResponse;

/// The device with this number makes an edit, an undo or a redo.
pub(crate) fn change_at<G: Ledger>(
    alloc: Global,
    devices: &mut Vec<Device>,
    number: u32,
    edit: &WorldEdit,
    reading: u64,
    steps: &mut Steps<G>,
) -> Result<Changed, WorldFault>
    requires ready { AllByRecursion IsReady devices.old.items }
    requires valid { IsWorldEdit edit.now }
    ensures ok { IfOk result (EditsTo number edit.now reading devices.old.items devices.new.items) }
    ensures refused { IfErr result (Refuses (events.Edit number edit.now reading) devices.old.items devices.new.items) }
{
    if number == 0 {
        return Err(WorldFault::NoSuchDevice { device: number });
    }
    let index = (number - 1) as usize;
    if index >= devices.as_slice().len() {
        return Err(WorldFault::NoSuchDevice { device: number });
    }
    match change_device(alloc, &mut devices[index], edit, reading, steps) {
        Ok(changed) => Ok(changed),
        Err(refusal) => Err(fault_of(refusal)),
    }
}

/// Why an event does not happen that a device refuses so.
fn fault_of(refusal: LineRefusal) -> WorldFault
    ensures { result ≡ fault_of refusal }
{
    match refusal {
        LineRefusal::NoMemory => WorldFault::NoMemory,
        LineRefusal::Edit(fault) => WorldFault::Line(LineRefusal::Edit(fault)),
        LineRefusal::Clock(fault) => WorldFault::Line(LineRefusal::Clock(fault)),
    }
}

/// A reply comes to the device with this number. Answers how many messages were new.
pub(crate) fn take_at<G: Ledger>(
    devices: &mut Vec<Device>,
    number: u32,
    replies: &Vec<SyncResponse>,
    reply: u32,
    reading: u64,
    steps: &mut Steps<G>,
) -> Result<u64, WorldFault>
    requires ready { AllByRecursion IsReady devices.old.items }
    requires valid { AllByRecursion (λ r. AreMessages r.messages) replies.now.items }
    ensures ok { IfOk result (TakesTo number reply reading replies.now.items devices.old.items devices.new.items) }
    ensures refused { IfErr result (RefusesReply number reply reading replies.now.items devices.old.items devices.new.items) }
{
    if number == 0 {
        return Err(WorldFault::NoSuchDevice { device: number });
    }
    let index = (number - 1) as usize;
    if index >= devices.as_slice().len() {
        return Err(WorldFault::NoSuchDevice { device: number });
    }
    let place = reply as usize;
    if place >= replies.as_slice().len() {
        return Err(WorldFault::NoSuchReply { reply });
    }
    match receive_device(
        &mut devices[index],
        replies[place].messages.as_slice(),
        reading,
        steps,
    ) {
        Ok(count) => Ok(count),
        Err(refusal) => Err(fault_of(refusal)),
    }
}

/// The device with this number stops during an edit, an undo or a redo. Answers the messages that it made.
pub(crate) fn stop_at<G: Ledger>(
    alloc: Global,
    devices: &mut Vec<Device>,
    number: u32,
    edit: &WorldEdit,
    reading: u64,
    whole: bool,
    steps: &mut Steps<G>,
) -> Result<Items<Message>, WorldFault>
    requires ready { AllByRecursion IsReady devices.old.items }
    requires valid { IsWorldEdit edit.now }
    ensures ok { IfOk result (StopsTo number edit.now reading whole devices.old.items devices.new.items) }
    ensures refused { IfErr result (Refuses (events.Stop number edit.now reading whole) devices.old.items devices.new.items) }
{
    if number == 0 {
        return Err(WorldFault::NoSuchDevice { device: number });
    }
    let index = (number - 1) as usize;
    if index >= devices.as_slice().len() {
        return Err(WorldFault::NoSuchDevice { device: number });
    }
    match stop_device(alloc, &mut devices[index], edit, reading, whole, steps) {
        Ok(told) => Ok(told),
        Err(refusal) => Err(fault_of(refusal)),
    }
}

/// The device with this number covers a month YYYYMM.
pub(crate) fn cover_at<G: Ledger>(
    devices: &mut Vec<Device>,
    number: u32,
    month: u32,
    steps: &mut Steps<G>,
) -> Result<(), WorldFault>
    requires ready { AllByRecursion IsReady devices.old.items }
    requires month { is_month month ≡ true }
    ensures ok { OnOk result (CoversTo number month devices.old.items devices.new.items) }
    ensures none { IfErr result (CoversNone number devices.old.items devices.new.items) }
{
    if number == 0 {
        return Err(WorldFault::NoSuchDevice { device: number });
    }
    let index = (number - 1) as usize;
    if index >= devices.as_slice().len() {
        return Err(WorldFault::NoSuchDevice { device: number });
    }
    match devices[index].cover(month, steps) {
        Ok(()) => Ok(()),
        Err(_) => Err(WorldFault::NoMemory),
    }
}
