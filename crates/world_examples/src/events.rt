//! The events that are played, and what each comes to.
ghost use Rattle.std.specs.Prelude.{◌<◌, IfOk};
ghost use Rattle.sync_world.specs.Members.{IsEvent, IsWorldEdit};

use device_core::{BookEdit, Edit};
use field_values::{Txt, Value};
use std::alloc::Global;
use std::test::Fail;
use sync_world::{Event, WorldEdit};

/// 2024-01-05T10:00:00.000Z.
const T0: u64 = 1_704_448_800_000;

/// How many events there are.
pub(crate) const EVENTS: u32 = 17;

/// What they come to: two devices name one category each, ask, are served and take what the other made, once more and from a device
/// that isn't there; the first device stops twice, without and with what it made; the server stops twice, and answers at last.
pub(crate) const TOLD: &str = "wrote 1
wrote 1
request 0
request 1
reply 0 0
reply 1 1
reply 2 2
received 1
received 1
received 0
no device 3
no request 7
stopped
stopped
refused
halted
halted
3
2024-01-05T10:00:05.000Z-0000-0000000000000001\tcategories\tfood\tname\tS:Kept
2
2024-01-05T10:00:01.000Z-0000-0000000000000002\tcategories\tfood\tname\tS:Meals
2
";

/// The edit that gives the category `food` a name.
fn naming(alloc: Global, name: &str) -> Result<WorldEdit, Fail>
    ensures { IfOk result IsWorldEdit }
{
    let value = Value::read(alloc, name)?;
    Ok(WorldEdit::Line(Edit::Book(BookEdit::Set {
        dataset: Txt::from_text(alloc, "categories")?,
        row: Txt::from_text(alloc, "food")?,
        column: Txt::from_text(alloc, "name")?,
        value,
    })))
}

/// A device names the category `food`.
fn edit(alloc: Global, device: u32, after: u64, name: &str) -> Result<Event, Fail>
    requires { after < 1_000_000 }
    ensures { IfOk result IsEvent }
{
    Ok(Event::Edit {
        device,
        edit: naming(alloc, name)?,
        reading: T0 + after,
    })
}

/// A device stops while it names the category `food`.
fn stop(alloc: Global, after: u64, name: &str, whole: bool) -> Result<Event, Fail>
    requires { after < 1_000_000 }
    ensures { IfOk result IsEvent }
{
    Ok(Event::Stop {
        device: 1,
        edit: naming(alloc, name)?,
        reading: T0 + after,
        whole,
    })
}

/// A device asks for all that the server has.
fn ask(alloc: Global, device: u32) -> Result<Event, Fail>
    ensures { IfOk result IsEvent }
{
    Ok(Event::Ask {
        device,
        since: Txt::from_text(alloc, "0")?,
    })
}

/// The event with this number, counted from 0.
pub(crate) fn event_at(alloc: Global, at: u32) -> Result<Event, Fail>
    ensures { IfOk result IsEvent }
{
    match at {
        0 => edit(alloc, 1, 0, "S:Food"),
        1 => edit(alloc, 2, 1000, "S:Meals"),
        2 => ask(alloc, 1),
        3 => ask(alloc, 2),
        4 => Ok(Event::Serve { request: 0 }),
        5 => Ok(Event::Serve { request: 1 }),
        6 => Ok(Event::Serve { request: 0 }),
        7 => Ok(take(1, 2, 2000)),
        8 => Ok(take(2, 1, 2000)),
        9 => Ok(take(1, 2, 3000)),
        10 => Ok(take(3, 0, 0)),
        11 => Ok(Event::Serve { request: 7 }),
        12 => stop(alloc, 4000, "S:Lost", false),
        13 => stop(alloc, 5000, "S:Kept", true),
        14 => Ok(undo(6000)),
        15 => Ok(Event::Halt {
            request: 0,
            whole: false,
        }),
        _ => Ok(Event::Halt {
            request: 0,
            whole: true,
        }),
    }
}

/// A reply comes to a device.
fn take(device: u32, reply: u32, after: u64) -> Event
    requires { after < 1_000_000 }
    ensures { IsEvent result }
{
    Event::Take {
        device,
        reply,
        reading: T0 + after,
    }
}

/// The first device undoes what it made last.
fn undo(after: u64) -> Event
    requires { after < 1_000_000 }
    ensures { IsEvent result }
{
    Event::Edit {
        device: 1,
        edit: WorldEdit::Undo,
        reading: T0 + after,
    }
}
