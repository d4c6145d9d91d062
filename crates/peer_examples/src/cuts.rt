//! Replies that break off, and the sync after each.
ghost use Rattle.std.specs.Prelude.{◌≡◌, [], IfOk, true, false};

use crate::devices::{KEPT_BY_ONE, T0, add_device, add_numbers, device_of, synced};
use crate::pieces::{
    BODY, BOTH, FIELDS_OF_BOTH, FIELDS_OF_ONE, FRONT_OF_BOTH, OF_OTHER, ONE, Pieces, TELL,
    add_bytes, text_of,
};
use budget_ports::{MemoryKeeper, ScriptLink};
use device_core::Device;
use device_sync::{SyncFault, Synced};
use field_values::Items;
use std::alloc::Global;
use std::collections::VecDeque;
use std::marker::Brand;
use std::sync::ledger::Blank;
use std::test::Fail;

/// A link that gives so many bytes of a reply, and then all of it.
fn link_of(alloc: Global, reply: &[u8], count: usize) -> Result<ScriptLink, Fail> {
    let mut replies = VecDeque::new(alloc);
    let front = reply.get(..count).unwrap_or(reply);
    replies.push_back(Items::new(front.to_vec(alloc)?))?;
    replies.push_back(Items::new(reply.to_vec(alloc)?))?;
    Ok(ScriptLink::new(alloc, replies))
}

/// Adds what a sync came to.
fn add_end(text: &mut String, alloc: Global, end: Result<Synced, SyncFault>) -> Result<(), Fail> {
    match end {
        Ok(synced) => add_numbers(text, alloc, synced.requests, synced.received),
        Err(SyncFault::BadReply { at: 0 }) => Ok(text.push_str("bad reply at 0\n")?),
        Err(_) => Ok(text.push_str("another fault\n")?),
    }
}

/// Adds what a sync comes to, and what the device has then; false where it can't be used further.
fn add_sync(
    text: &mut String,
    alloc: Global,
    device: &mut Device,
    keeper: &mut MemoryKeeper,
    link: &mut ScriptLink,
) -> Result<bool, Fail>
    requires live { device.old.spent ≡ false }
    requires idle { device.old.batch ≡ [] }
    ensures live { IfOk result (λ goes_on. goes_on ≡ true → device.new.spent ≡ false) }
    ensures idle { IfOk result (λ goes_on. goes_on ≡ true → device.new.batch ≡ []) }
{
    let end = synced::<ScriptLink, Brand>(Blank::new(1), alloc, device, keeper, link, T0);
    add_end(text, alloc, end)?;
    if end == Err(SyncFault::Keeper) || end == Err(SyncFault::NoMemory) {
        return Ok(false);
    }
    add_device(text, alloc, device)?;
    Ok(true)
}

/// Adds two syncs.
fn add_syncs(
    text: &mut String,
    alloc: Global,
    device: &mut Device,
    link: &mut ScriptLink,
) -> Result<(), Fail>
    requires live { device.old.spent ≡ false }
    requires idle { device.old.batch ≡ [] }
{
    let mut keeper = MemoryKeeper::new(alloc);
    if add_sync(text, alloc, device, &mut keeper, link)? {
        add_sync(text, alloc, device, &mut keeper, link)?;
    }
    Ok(())
}

/// Adds what a device comes to over a link.
fn add_over(text: &mut String, alloc: Global, link: &mut ScriptLink) -> Result<(), Fail> {
    let mut device = device_of(alloc, b"aa", KEPT_BY_ONE)?;
    add_syncs(text, alloc, &mut device, link)
}

/// Adds what a device comes to whose first reply breaks off behind so many bytes.
fn add_cut(text: &mut String, alloc: Global, reply: &[u8], count: usize) -> Result<(), Fail> {
    let mut link = link_of(alloc, reply, count)?;
    add_over(text, alloc, &mut link)
}

/// The device has its two messages still, and gets the other two by the next sync.
const MEANT: Pieces = &[
    "bad reply at 0\n2\n",
    FIELDS_OF_ONE,
    ONE,
    "\n1 2\n4\n",
    FIELDS_OF_BOTH,
    BOTH,
    "\n",
];

/// A reply with the other device's messages, and the trie of all four.
const REPLY: Pieces = &[TELL, "583", BODY, OF_OTHER, FRONT_OF_BOTH, BOTH];

#[test]
fn replies_break_off(rt: HostRuntime) -> Result<(), Fail> {
    let mut reply = Vec::new(rt.alloc());
    add_bytes(&mut reply, REPLY)?;
    assert_eq!(rt; reply.len(), 681);
    let meant = text_of(rt.alloc(), MEANT)?;
    for count in 0..reply.len() {
        let mut told = String::new(rt.alloc());
        add_cut(&mut told, rt.alloc(), reply.as_slice(), count)?;
        assert_eq!(rt; told.as_str(), meant.as_str(), "at {count}");
    }
    Ok(())
}
