//! Two devices that were apart and come to an agreement in turns, over a link whose far end is the server.
ghost use Rattle.std.specs.Prelude.{◌≡◌, ◌≤◌, [], false};
ghost use Rattle.device_sync.specs.Sync.{IfUsable};

use crate::devices::{KEPT_BY_ONE, KEPT_BY_OTHER, T0, add_device, add_numbers, device_of};
use crate::pieces::{BOTH, FIELDS_OF_BOTH, Pieces, text_of};
use budget_ports::MemoryKeeper;
use device_core::Device;
use device_sync::{SyncFault, Synced};
use field_values::{Steps, Txt};
use peer_link::{Met, PeerLink, meet};
use std::alloc::Global;
use std::marker::Brand;
use std::sync::ledger::{Blank, Ledger};
use std::test::Fail;

/// Lets two devices meet, with a counter of steps that nobody reads.
fn uncounted<G: Ledger>(
    blank: Blank,
    alloc: Global,
    one: &mut Device,
    other: &mut Device,
) -> Result<Met, SyncFault>
    requires name { blank.name ≡ G.name }
    requires parts { blank.parts ≡ G.parts }
    requires some { 1 ≤ G.parts }
    requires live { (one.old.spent ≡ false) × (other.old.spent ≡ false) }
    requires idle { (one.old.batch ≡ []) × (other.old.batch ≡ []) }
    ensures usable { IfUsable result ((one.new.spent ≡ false) × (one.new.batch ≡ []) × (other.new.spent ≡ false) × (other.new.batch ≡ [])) }
{
    let Ok(mut link) = PeerLink::new(alloc) else {
        return Err(SyncFault::NoMemory);
    };
    let Ok(group) = Txt::from_text(alloc, "device") else {
        return Err(SyncFault::NoMemory);
    };
    let mut one_keeper = MemoryKeeper::new(alloc);
    let mut other_keeper = MemoryKeeper::new(alloc);
    let readings = [T0, T0 + 1000, T0 + 2000];
    let mut steps = Steps::<G>::new(blank);
    meet(
        alloc,
        one,
        &mut one_keeper,
        other,
        &mut other_keeper,
        &mut link,
        &group,
        readings,
        &mut steps,
    )
}

/// Adds how many requests a sync took, and how many messages came.
fn add_synced(text: &mut String, alloc: Global, synced: Synced) -> Result<(), Fail> {
    add_numbers(text, alloc, synced.requests, synced.received)
}

/// Adds what three syncs came to.
fn add_met(text: &mut String, alloc: Global, met: Met) -> Result<(), Fail> {
    add_synced(text, alloc, met.first)?;
    add_synced(text, alloc, met.other)?;
    add_synced(text, alloc, met.again)
}

/// Adds what the syncs of two devices come to, and what they have then.
fn add_meeting(
    text: &mut String,
    alloc: Global,
    one: &mut Device,
    other: &mut Device,
) -> Result<(), Fail>
    requires live { (one.old.spent ≡ false) × (other.old.spent ≡ false) }
    requires idle { (one.old.batch ≡ []) × (other.old.batch ≡ []) }
{
    let Ok(met) = uncounted::<Brand>(Blank::new(1), alloc, one, other) else {
        return Ok(());
    };
    add_met(text, alloc, met)?;
    add_device(text, alloc, one)?;
    add_device(text, alloc, other)
}

/// Adds what a device and another come to.
fn add_other(text: &mut String, alloc: Global, one: &mut Device) -> Result<(), Fail>
    requires live { one.old.spent ≡ false }
    requires idle { one.old.batch ≡ [] }
{
    let mut other = device_of(alloc, b"bb", KEPT_BY_OTHER)?;
    add_meeting(text, alloc, one, &mut other)
}

/// Adds what two devices come to that edited apart.
fn add_all(text: &mut String, alloc: Global) -> Result<(), Fail> {
    let mut one = device_of(alloc, b"aa", KEPT_BY_ONE)?;
    add_other(text, alloc, &mut one)
}

/// The first one hands its messages in, the other one gets them and hands its own in, and the first one gets those; so both have all four.
const MEANT: Pieces = &[
    "1 0\n1 2\n1 2\n4\n",
    FIELDS_OF_BOTH,
    BOTH,
    "\n4\n",
    FIELDS_OF_BOTH,
    BOTH,
    "\n",
];

#[test]
fn devices_meet(rt: HostRuntime) -> Result<(), Fail> {
    let mut told = String::new(rt.alloc());
    add_all(&mut told, rt.alloc())?;
    let meant = text_of(rt.alloc(), MEANT)?;
    assert_eq!(rt; told.as_str(), meant.as_str());
    Ok(())
}
