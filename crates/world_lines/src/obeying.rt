//! What is done in a world that has begun.
ghost use Rattle.std.specs.Prelude.{◌≡◌, ◌+◌, ◌-◌, ◌<◌, ◌^◌, IfOk, OnOk, false};
ghost use Rattle.field_merge.specs.Messages.{AreMessages};
ghost use Rattle.command_lines.specs.Readings.{IsReading};
ghost use Rattle.sync_world.specs.Members.{IsEvent};
ghost use Rattle.sync_world.specs.World.{device_of, stepped};
ghost use Rattle.world_lines.specs.Lines.{IsWorldCommand};
ghost use Rattle.world_lines.specs.Session.{IsPlayed, compare_at, lines_of, obeyed, settled, show_at};

use crate::command::WorldCommand;
use crate::covering::month_to_cover;
use crate::reply::{compared_reply, fault_reply, no_device_reply, outcome_reply, shown_reply};
use command_lines::{Command, Reply, read_reply};
use device_core::Device;
use field_merge::{Message, write_line};
use field_values::{Items, NoMemory, Steps, Txt};
use std::alloc::Global;
use std::sync::ledger::Ledger;
use sync_world::{Event, World, WorldFault, steps_send_few};

/// Lets an event happen, before which so many lines were answered, and gives the reply.
fn happen<G: Ledger>(
    alloc: Global,
    world: &mut World,
    steps: &mut Steps<G>,
    event: &Event,
    before: u32,
) -> Result<Reply, NoMemory>
    requires played { IsPlayed before world.old }
    requires few { before < 2 ^ 32 - 2 }
    requires valid { IsEvent event.now }
    ensures ok { IfOk result (λ reply. settled world.old.world (stepped world.old.world event.now) ≡ (world.new.world, reply)) }
    ensures played { OnOk result (IsPlayed (before + 1) world.new) }
{
    steps_send_few();
    match world.step(event, steps) {
        Ok(outcome) => outcome_reply(alloc, &outcome),
        Err(fault) => fault_reply(alloc, &fault),
    }
}

/// Covers the month of whose cells a line asks a device, where that is near to what is covered.
fn cover_asked<G: Ledger>(
    world: &mut World,
    steps: &mut Steps<G>,
    number: u32,
    command: &Command,
) -> Result<(), NoMemory>
    requires live { world.old.spent ≡ false }
    ensures same { OnOk result (world.new.world ≡ world.old.world) }
    ensures live { OnOk result (world.new.spent ≡ false) }
{
    let month = match world.device(number) {
        Some(device) => month_to_cover(device, command),
        None => None,
    };
    match month {
        Some(month) => match world.cover(number, month, steps) {
            Ok(()) => Ok(()),
            // There is such a device, so it is memory that ran out.
            Err(_) => Err(NoMemory),
        },
        None => Ok(()),
    }
}

/// What a device answers, where there is one.
fn answer(alloc: Global, world: &World, number: u32, command: &Command) -> Result<Reply, NoMemory>
    requires live { world.now.spent ≡ false }
    requires reading { IsReading command.now }
    ensures { IfOk result (λ reply. reply ≡ show_at number command.now (device_of world.now.world.devices number)) }
{
    match world.device(number) {
        Some(device) => {
            let reply = read_reply(alloc, device, command)?;
            shown_reply(alloc, reply)
        }
        None => no_device_reply(alloc, number),
    }
}

/// What a device answers to a line that only reads, where there is one.
fn show<G: Ledger>(
    alloc: Global,
    world: &mut World,
    steps: &mut Steps<G>,
    number: u32,
    command: &Command,
) -> Result<Reply, NoMemory>
    requires live { world.old.spent ≡ false }
    requires reading { IsReading command.now }
    ensures reply { IfOk result (λ reply. reply ≡ show_at number command.now (device_of world.old.world.devices number)) }
    ensures same { OnOk result (world.new.world ≡ world.old.world) }
    ensures live { OnOk result (world.new.spent ≡ false) }
{
    cover_asked(world, steps, number, command)?;
    answer(alloc, world, number, command)
}

/// The lines of messages.
fn lines_of(alloc: Global, messages: &[Message]) -> Result<Items<Txt>, NoMemory>
    requires { AreMessages messages.now }
    ensures { IfOk result (λ lines. lines ≡ lines_of messages.now) }
{
    let mut lines = Vec::new(alloc);
    for message in messages {
        lines.push(write_line(alloc, message)?)?;
    }
    Ok(Items::new(lines))
}

/// The lines of all messages of a device.
fn all_lines(alloc: Global, device: &Device) -> Result<Items<Txt>, NoMemory>
    requires { device.now.spent ≡ false }
    ensures { IfOk result (λ lines. lines ≡ lines_of device.now.state.messages) }
{
    let messages = device.outgoing(b"")?;
    lines_of(alloc, messages.as_slice())
}

/// Whether two devices have the same messages, where there are both. They are told by their lines, which takes as much room as both have.
fn compare(alloc: Global, world: &World, one: u32, other: u32) -> Result<Reply, NoMemory>
    requires live { world.now.spent ≡ false }
    ensures { IfOk result (λ reply. reply ≡ compare_at one other (device_of world.now.world.devices one) (device_of world.now.world.devices other)) }
{
    let Some(first) = world.device(one) else {
        return no_device_reply(alloc, one);
    };
    let Some(second) = world.device(other) else {
        return no_device_reply(alloc, other);
    };
    let lines = all_lines(alloc, first)?;
    let others = all_lines(alloc, second)?;
    compared_reply(alloc, lines == others)
}

/// Does what a command asks, before which so many lines were answered, and gives the reply.
pub(crate) fn obey<G: Ledger>(
    alloc: Global,
    world: &mut World,
    steps: &mut Steps<G>,
    command: &WorldCommand,
    before: u32,
) -> Result<Reply, NoMemory>
    requires played { IsPlayed before world.old }
    requires few { before < 2 ^ 32 - 2 }
    requires valid { IsWorldCommand command.now }
    ensures ok { IfOk result (λ reply. obeyed world.old.world command.now ≡ (world.new.world, reply)) }
    ensures played { OnOk result (IsPlayed (before + 1) world.new) }
{
    match command {
        WorldCommand::Happens(event) => happen(alloc, world, steps, event, before),
        WorldCommand::Show { device, command } => show(alloc, world, steps, *device, command),
        WorldCommand::Equal { one, other } => compare(alloc, world, *one, *other),
    }
}
