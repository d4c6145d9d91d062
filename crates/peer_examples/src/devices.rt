//! Devices with two messages each, what they have, and their syncs.
ghost use Rattle.std.specs.Prelude.{◌≡◌, ◌≤◌, [], IfOk, false};
ghost use Rattle.device_sync.specs.Sync.{IfUsable};

use budget_ports::{Link, MemoryKeeper, Record};
use device_core::Device;
use device_sync::{SyncFault, Synced, sync};
use field_values::{Steps, Txt};
use hybrid_clock::Node;
use peer_link::peer_target;
use std::alloc::Global;
use std::sync::ledger::{Blank, Ledger};
use std::test::Fail;

/// 2024-01-05T10:02:00.000Z.
pub(crate) const T0: u64 = 1_704_448_920_000;

/// What the two devices have kept of their edits.
pub(crate) const KEPT_BY_ONE: [(&str, &str); 2] = [
    (
        "2024-01-05T10:00:00.000Z-0000-00000000000000aa",
        "categories\tfood\tname\tS:Food",
    ),
    (
        "2024-01-05T10:00:00.000Z-0001-00000000000000aa",
        "categories\tfood\tcat_group\tS:usual",
    ),
];

pub(crate) const KEPT_BY_OTHER: [(&str, &str); 2] = [
    (
        "2024-01-05T10:00:01.000Z-0000-00000000000000bb",
        "categories\tfood\tname\tS:Meals",
    ),
    (
        "2024-01-05T10:01:30.000Z-0000-00000000000000bb",
        "categories\trent\tname\tS:Rent",
    ),
];

fn record_of(alloc: Global, row: (&str, &str)) -> Result<Record, Fail> {
    let key = Txt::from_text(alloc, row.0)?;
    let body = Txt::from_text(alloc, row.1)?;
    Ok(Record { key, body })
}

/// A device that begins with what it has kept.
pub(crate) fn device_of(alloc: Global, node: &[u8], kept: [(&str, &str); 2]) -> Result<Device, Fail>
    ensures live { IfOk result (λ d. d.spent ≡ false) }
    ensures idle { IfOk result (λ d. d.batch ≡ []) }
{
    let mut records = Vec::new(alloc);
    for row in kept {
        records.push(record_of(alloc, row)?)?;
    }
    Ok(Device::start(alloc, Node::make(node)?, records.as_slice())?)
}

/// Adds the latest of each field.
fn add_fields(text: &mut String, device: &Device) -> Result<(), Fail>
    requires { device.now.spent ≡ false }
{
    let fields = device.log().field_lines()?;
    text.push_str(fields.as_str())?;
    Ok(())
}

/// Adds the trie.
fn add_trie(text: &mut String, device: &Device) -> Result<(), Fail>
    requires { device.now.spent ≡ false }
{
    let trie = device.trie().to_json()?;
    text.push_str(trie.as_str())?;
    text.push_str("\n")?;
    Ok(())
}

/// Adds a line with two numbers.
pub(crate) fn add_numbers(
    text: &mut String,
    alloc: Global,
    one: u64,
    other: u64,
) -> Result<(), Fail> {
    let line = format!(in alloc; "{one} {other}\n")?;
    text.push_str(line.as_str())?;
    Ok(())
}

/// Adds how many messages a device has, the latest of each field, and the text of the trie.
pub(crate) fn add_device(text: &mut String, alloc: Global, device: &Device) -> Result<(), Fail>
    requires { device.now.spent ≡ false }
{
    let count = device.log().len();
    let line = format!(in alloc; "{count}\n")?;
    text.push_str(line.as_str())?;
    add_fields(text, device)?;
    add_trie(text, device)
}

/// Syncs a device, with a counter of steps that nobody reads.
pub(crate) fn synced<L: Link, G: Ledger>(
    blank: Blank,
    alloc: Global,
    device: &mut Device,
    keeper: &mut MemoryKeeper,
    link: &mut L,
    reading: u64,
) -> Result<Synced, SyncFault>
    requires name { blank.name ≡ G.name }
    requires parts { blank.parts ≡ G.parts }
    requires some { 1 ≤ G.parts }
    requires live { device.old.spent ≡ false }
    requires idle { device.old.batch ≡ [] }
    ensures usable { IfUsable result ((device.new.spent ≡ false) × (device.new.batch ≡ [])) }
{
    let Ok(target) = peer_target(alloc) else {
        return Err(SyncFault::NoMemory);
    };
    let Ok(group) = Txt::from_text(alloc, "device") else {
        return Err(SyncFault::NoMemory);
    };
    let mut steps = Steps::<G>::new(blank);
    sync(
        alloc, device, keeper, link, &group, &target, reading, &mut steps,
    )
}
