//! A world that is played.
ghost use Rattle.std.specs.Prelude.{◌≡◌, ◌+◌, ◌<◌, ◌≤◌, false, IfOk, OnOk};
ghost use Rattle.sync_world.specs.Members.{IsEvent};
ghost use Rattle.sync_world.specs.Right.{AreDifferent};
ghost use Rattle.world_examples.specs.Played.{IsPlayed};

use crate::events::{EVENTS, TOLD, event_at};
use field_values::Steps;
use hybrid_clock::Node;
use std::alloc::Global;
use std::marker::Brand;
use std::sync::ledger::{Blank, Ledger};
use std::test::Fail;
use sync_world::{Event, Outcome, World, WorldFault, steps_send_few};

/// Adds what an event came to.
fn add_outcome(text: &mut String, alloc: Global, outcome: &Outcome) -> Result<(), Fail> {
    let line = match outcome {
        Outcome::Wrote { writes, made: _ } => format!(in alloc; "wrote {writes}\n")?,
        Outcome::Asked { request } => format!(in alloc; "request {request}\n")?,
        Outcome::Served { reply, messages } => format!(in alloc; "reply {reply} {messages}\n")?,
        Outcome::Took { received } => format!(in alloc; "received {received}\n")?,
        Outcome::Stopped => format!(in alloc; "stopped\n")?,
        Outcome::Halted => format!(in alloc; "halted\n")?,
    };
    text.push_str(line.as_str())?;
    Ok(())
}

/// Adds why an event did not happen.
fn add_fault(text: &mut String, alloc: Global, fault: &WorldFault) -> Result<(), Fail> {
    let line = match fault {
        WorldFault::NoSuchDevice { device } => format!(in alloc; "no device {device}\n")?,
        WorldFault::NoSuchRequest { request } => format!(in alloc; "no request {request}\n")?,
        WorldFault::NoSuchReply { reply } => format!(in alloc; "no reply {reply}\n")?,
        WorldFault::Line(_) => format!(in alloc; "refused\n")?,
        WorldFault::NoMemory => format!(in alloc; "no memory\n")?,
    };
    text.push_str(line.as_str())?;
    Ok(())
}

/// Lets an event happen, before which so many may have been, and adds what it came to.
fn happen<G: Ledger>(
    alloc: Global,
    world: &mut World,
    steps: &mut Steps<G>,
    text: &mut String,
    event: &Event,
    before: u32,
) -> Result<(), Fail>
    requires played { IsPlayed world.old before }
    requires valid { IsEvent event.now }
    requires early { before < 1000 }
    ensures { OnOk result (IsPlayed world.new (before + 1)) }
{
    steps_send_few();
    match world.step(event, steps) {
        Ok(outcome) => add_outcome(text, alloc, &outcome),
        Err(fault) => match fault {
            WorldFault::NoMemory => Err(Fail::new("no memory")),
            other => add_fault(text, alloc, &other),
        },
    }
}

/// Lets all events happen.
fn play<G: Ledger>(
    alloc: Global,
    simulated: &mut World,
    steps: &mut Steps<G>,
    text: &mut String,
) -> Result<(), Fail>
    requires { IsPlayed simulated.old 0 }
    ensures { OnOk result (IsPlayed simulated.new 17) }
{
    for at in 0..EVENTS {
        let event = event_at(alloc, at)?;
        happen(alloc, simulated, steps, text, &event, at)?;
    }
    Ok(())
}

/// Adds what a device has: its messages, counted, and the latest of each field.
fn add_device(text: &mut String, alloc: Global, world: &World, number: u32) -> Result<(), Fail>
    requires { world.now.spent ≡ false }
{
    let Some(device) = world.device(number) else {
        return Ok(());
    };
    let log = device.log();
    let count = log.len();
    let line = format!(in alloc; "{count}\n")?;
    text.push_str(line.as_str())?;
    let fields = log.field_lines()?;
    text.push_str(fields.as_str())?;
    Ok(())
}

/// Adds how many messages the server has.
fn add_server(text: &mut String, alloc: Global, world: &World) -> Result<(), Fail>
    requires { world.now.spent ≡ false }
{
    let count = world.server().len();
    let line = format!(in alloc; "{count}\n")?;
    text.push_str(line.as_str())?;
    Ok(())
}

/// The nodes of two devices.
fn two_nodes(alloc: Global) -> Result<Vec<Node>, Fail>
    ensures { IfOk result (λ nodes. AreDifferent nodes.items) }
{
    let mut nodes = Vec::new(alloc);
    nodes.push(Node::make(b"1")?)?;
    nodes.push(Node::make(b"2")?)?;
    Ok(nodes)
}

/// A world of two devices.
fn world_of(alloc: Global) -> Result<World, Fail>
    ensures { IfOk result (λ w. IsPlayed w 0) }
{
    let nodes = two_nodes(alloc)?;
    Ok(World::new(alloc, nodes.as_slice())?)
}

/// Adds what the events come to, and what is there then.
fn add_all<G: Ledger>(
    text: &mut String,
    alloc: Global,
    world: &mut World,
    steps: &mut Steps<G>,
) -> Result<(), Fail>
    requires { IsPlayed world.old 0 }
{
    play(alloc, world, steps, text)?;
    add_device(text, alloc, world, 1)?;
    add_device(text, alloc, world, 2)?;
    add_server(text, alloc, world)
}

/// What the events come to, and what is there then.
fn played<G: Ledger>(blank: Blank, alloc: Global) -> Result<String, Fail>
    requires name { blank.name ≡ G.name }
    requires parts { blank.parts ≡ G.parts }
    requires some { 1 ≤ G.parts }
{
    let mut world = world_of(alloc)?;
    let mut steps = Steps::<G>::new(blank);
    let mut text = String::new(alloc);
    add_all(&mut text, alloc, &mut world, &mut steps)?;
    Ok(text)
}

/// The text of the events with a counter of steps that nobody reads.
fn uncounted(alloc: Global) -> Result<String, Fail> {
    played::<Brand>(Blank::new(1), alloc)
}

#[test]
fn events_happen(rt: HostRuntime) -> Result<(), Fail> {
    let text = uncounted(rt.alloc())?;
    assert_eq!(rt; text.as_str(), TOLD);
    Ok(())
}
