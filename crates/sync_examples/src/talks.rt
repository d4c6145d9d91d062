//! Syncs of a device, by `sync`, over a link whose replies were written before.
ghost use Rattle.std.specs.Prelude.{◌≡◌, ◌≤◌, [], IfOk, false};
ghost use Rattle.device_sync.specs.Sync.{IfUsable};

use crate::sides::bytes_of;
use budget_ports::{MemoryKeeper, Record, ScriptLink};
use device_core::Device;
use device_sync::{SyncFault, Synced, Target, sync};
use field_values::{Items, Steps, Txt};
use hybrid_clock::{ClockFault, Node};
use std::alloc::Global;
use std::collections::VecDeque;
use std::marker::Brand;
use std::sync::ledger::{Blank, Ledger};
use std::test::Fail;

/// 2024-01-05T10:00:00.000Z.
pub(crate) const T0: u64 = 1_704_448_800_000;

/// The records of the two messages.
const FOOD: (&str, &str) = (
    "2024-01-05T10:00:00.000Z-0000-00000000000000aa",
    "categories\tfood\tname\tS:Food",
);

const MEALS: (&str, &str) = (
    "2024-01-05T10:00:01.000Z-0000-00000000000000bb",
    "categories\tfood\tname\tS:Meals",
);

/// Replies without messages: with the trie of the message of `aa`, and with that of both messages.
const FIRST: &str = "~389$\x12\u{82}\x03@";

const BOTH: &str = "~372$\x12\u{f1}\x02&";

/// Replies with the trie of both: with the message of `bb`, and with that of `aa`.
const MORE: &str = "~457$%\x12\u{f1}\x02&";

const GIVEN: &str = "~456$#\x12\u{f1}\x02&";

/// A reply with a trie that no messages have.
const ELSE: &str = "~12$\x12`{\"hash\":1}";

/// What a sync comes to.
pub(crate) type End = Result<Synced, SyncFault>;

/// Syncs of a device, one after the other: its node, the record with which it begins, the readings, the calls of the keeper and of the link
/// that fail, the replies, and what each sync comes to.
#[derive(Clone, Copy)]
struct Talk {
    node: &'static [u8],
    record: Option<(&'static str, &'static str)>,
    readings: &'static [u64],
    keeper_fails: &'static [u64],
    link_fails: &'static [u64],
    replies: &'static [&'static str],
    ends: &'static [End],
}

const TALKS: [Talk; 13] = [
    // the first device: its own message is known, then one of another comes, then nothing
    Talk {
        node: b"aa",
        record: Some(FOOD),
        readings: &[T0 + 2000, T0 + 4000, T0 + 5000],
        keeper_fails: &[],
        link_fails: &[],
        replies: &[FIRST, MORE, BOTH],
        ends: &[
            Ok(Synced {
                requests: 1,
                received: 0,
            }),
            Ok(Synced {
                requests: 1,
                received: 1,
            }),
            Ok(Synced {
                requests: 1,
                received: 0,
            }),
        ],
    },
    // the other device has both then too
    Talk {
        node: b"bb",
        record: Some(MEALS),
        readings: &[T0 + 3000, T0 + 3500],
        keeper_fails: &[],
        link_fails: &[],
        replies: &[GIVEN, BOTH],
        ends: &[
            Ok(Synced {
                requests: 1,
                received: 1,
            }),
            Ok(Synced {
                requests: 1,
                received: 0,
            }),
        ],
    },
    // the tries differ, so it asks once more; then the last reply comes again, with nothing new
    Talk {
        node: b"aa",
        record: Some(FOOD),
        readings: &[T0 + 2000, T0 + 4000],
        keeper_fails: &[],
        link_fails: &[],
        replies: &[BOTH, MORE],
        ends: &[
            Ok(Synced {
                requests: 2,
                received: 1,
            }),
            Ok(Synced {
                requests: 1,
                received: 0,
            }),
        ],
    },
    // the link fails at the first text, or at the first reply, and the next sync makes up for it
    Talk {
        node: b"aa",
        record: Some(FOOD),
        readings: &[T0 + 2000, T0 + 4000],
        keeper_fails: &[],
        link_fails: &[0],
        replies: &[FIRST],
        ends: &[
            Err(SyncFault::Link),
            Ok(Synced {
                requests: 1,
                received: 0,
            }),
        ],
    },
    Talk {
        node: b"aa",
        record: Some(FOOD),
        readings: &[T0 + 2000, T0 + 4000],
        keeper_fails: &[],
        link_fails: &[1],
        replies: &[FIRST],
        ends: &[
            Err(SyncFault::Link),
            Ok(Synced {
                requests: 1,
                received: 0,
            }),
        ],
    },
    // a server that refuses
    Talk {
        node: b"aa",
        record: Some(FOOD),
        readings: &[T0 + 2000, T0 + 3000, T0 + 4000, T0 + 5000],
        keeper_fails: &[],
        link_fails: &[],
        replies: &[
            "HTTP/1.1 413 Payload Too Large_9$too-large",
            "HTTP/1.1 503 Service Unavailable_12$keeper-fault",
            "HTTP/1.1 507 Insufficient Storage_9$no-memory",
            FIRST,
        ],
        ends: &[
            Err(SyncFault::Refused { status: 413 }),
            Err(SyncFault::Refused { status: 503 }),
            Err(SyncFault::Refused { status: 507 }),
            Ok(Synced {
                requests: 1,
                received: 0,
            }),
        ],
    },
    // replies without a head, with a length that is not the body's, with a body that ends early, and with no trie
    Talk {
        node: b"aa",
        record: Some(FOOD),
        readings: &[T0 + 2000, T0 + 3000, T0 + 4000, T0 + 5000, T0 + 6000],
        keeper_fails: &[],
        link_fails: &[],
        replies: &[
            "",
            "~390$\x12\u{82}\x03@",
            "HTTP/1.1 200 OK||\x12\u{82}\x03{",
            "HTTP/1.1 200 OK||\x12\x02[]",
            FIRST,
        ],
        ends: &[
            Err(SyncFault::BadReply { at: 0 }),
            Err(SyncFault::BadReply { at: 0 }),
            Err(SyncFault::BadReply { at: 23 }),
            Err(SyncFault::BadReply { at: 23 }),
            Ok(Synced {
                requests: 1,
                received: 0,
            }),
        ],
    },
    // a message that is too far ahead of the clock, and one that is not
    Talk {
        node: b"aa",
        record: None,
        readings: &[T0, T0],
        keeper_fails: &[],
        link_fails: &[],
        replies: &[
            "~508$`S`.2024-01-05T10:05:00.001Z-0000-00000000000000bb\x1a!``categories\x12\x04food\x1a\x04name\"\x07S:Meals\x12\u{a4}\x03{\"1\":{\"2\":{\"2\":{\"2\":{\"1\":{\"1\":{\"0\":{\"0\":{\"2\":{\"0\":{\"2\":{\"0\":{\"2\":{\"0\":{\"0\":{\"2\":{\"hash\":-1862945150},\"hash\":-1862945150},\"hash\":-1862945150},\"hash\":-1862945150},\"hash\":-1862945150},\"hash\":-1862945150},\"hash\":-1862945150},\"hash\":-1862945150},\"hash\":-1862945150},\"hash\":-1862945150},\"hash\":-1862945150},\"hash\":-1862945150},\"hash\":-1862945150},\"hash\":-1862945150},\"hash\":-1862945150},\"hash\":-1862945150},\"hash\":-1862945150}",
            "~508$`S`.2024-01-05T10:05:00.000Z-0000-00000000000000bb\x1a!``categories\x12\x04food\x1a\x04name\"\x07S:Meals\x12\u{a4}\x03{\"1\":{\"2\":{\"2\":{\"2\":{\"1\":{\"1\":{\"0\":{\"0\":{\"2\":{\"0\":{\"2\":{\"0\":{\"2\":{\"0\":{\"0\":{\"2\":{\"hash\":-1634426349},\"hash\":-1634426349},\"hash\":-1634426349},\"hash\":-1634426349},\"hash\":-1634426349},\"hash\":-1634426349},\"hash\":-1634426349},\"hash\":-1634426349},\"hash\":-1634426349},\"hash\":-1634426349},\"hash\":-1634426349},\"hash\":-1634426349},\"hash\":-1634426349},\"hash\":-1634426349},\"hash\":-1634426349},\"hash\":-1634426349},\"hash\":-1634426349}",
        ],
        ends: &[
            Err(SyncFault::Clock(ClockFault::Drift {
                logical: 1_704_449_100_001,
                reading: T0,
            })),
            Ok(Synced {
                requests: 1,
                received: 1,
            }),
        ],
    },
    // a reading past the window: the link is not asked
    Talk {
        node: b"aa",
        record: None,
        readings: &[2_582_803_260_000, T0],
        keeper_fails: &[],
        link_fails: &[],
        replies: &["~12$\x12`{\"hash\":0}"],
        ends: &[
            Err(SyncFault::Clock(ClockFault::Beyond {
                reading: 2_582_803_260_000,
            })),
            Ok(Synced {
                requests: 1,
                received: 0,
            }),
        ],
    },
    // a server whose trie no messages have: after a hundred requests there is no agreement
    Talk {
        node: b"aa",
        record: None,
        readings: &[T0],
        keeper_fails: &[],
        link_fails: &[],
        replies: &[ELSE],
        ends: &[Err(SyncFault::OutOfSync { mine: 0, theirs: 1 })],
    },
    // the keeper fails: at the text of the last sync, at the message that came, at the text again
    Talk {
        node: b"aa",
        record: Some(FOOD),
        readings: &[T0 + 2000],
        keeper_fails: &[0],
        link_fails: &[],
        replies: &[MORE],
        ends: &[Err(SyncFault::Keeper)],
    },
    Talk {
        node: b"aa",
        record: Some(FOOD),
        readings: &[T0 + 2000],
        keeper_fails: &[1],
        link_fails: &[],
        replies: &[MORE],
        ends: &[Err(SyncFault::Keeper)],
    },
    Talk {
        node: b"aa",
        record: Some(FOOD),
        readings: &[T0 + 2000],
        keeper_fails: &[2],
        link_fails: &[],
        replies: &[MORE],
        ends: &[Err(SyncFault::Keeper)],
    },
];

/// A device of this node, which begins with a record, where there is one.
pub(crate) fn device_of(
    alloc: Global,
    node: &[u8],
    record: Option<(&str, &str)>,
) -> Result<Device, Fail>
    ensures live { IfOk result (λ d. d.spent ≡ false) }
    ensures idle { IfOk result (λ d. d.batch ≡ []) }
{
    let mut records = Vec::new(alloc);
    if let Some((key, body)) = record {
        records.push(Record {
            key: Txt::from_text(alloc, key)?,
            body: Txt::from_text(alloc, body)?,
        })?;
    }
    Ok(Device::start(alloc, Node::make(node)?, records.as_slice())?)
}

/// A link that gives the replies, of which calls fail.
fn link_of(alloc: Global, talk: &Talk) -> Result<ScriptLink, Fail> {
    let mut replies = VecDeque::new(alloc);
    for side in talk.replies {
        replies.push_back(Items::new(bytes_of(alloc, side)?))?;
    }
    let fails = talk.link_fails.to_vec(alloc)?;
    Ok(ScriptLink::with_faults(alloc, replies, fails))
}

/// A link that gives this reply.
pub(crate) fn link_to(alloc: Global, reply: Vec<u8>) -> Result<ScriptLink, Fail> {
    let mut replies = VecDeque::new(alloc);
    replies.push_back(Items::new(reply))?;
    Ok(ScriptLink::new(alloc, replies))
}

/// The server's token, and the file `home` of the group `home`.
pub(crate) fn target_of(alloc: Global) -> Result<Target, Fail> {
    Ok(Target {
        token: Txt::from_text(alloc, "local")?,
        file: Txt::from_text(alloc, "home")?,
        group: Txt::from_text(alloc, "home")?,
    })
}

/// One sync, with a counter of steps that nobody reads.
fn uncounted<G: Ledger>(
    blank: Blank,
    alloc: Global,
    device: &mut Device,
    keeper: &mut MemoryKeeper,
    link: &mut ScriptLink,
    group: &Txt,
    target: &Target,
    reading: u64,
) -> End
    requires name { blank.name ≡ G.name }
    requires parts { blank.parts ≡ G.parts }
    requires some { 1 ≤ G.parts }
    requires live { device.old.spent ≡ false }
    requires idle { device.old.batch ≡ [] }
    ensures usable { IfUsable result ((device.new.spent ≡ false) × (device.new.batch ≡ [])) }
{
    let mut steps = Steps::<G>::new(blank);
    sync(
        alloc, device, keeper, link, group, target, reading, &mut steps,
    )
}

/// What each sync of the group `device` comes to, up to one after which the device can't be used.
pub(crate) fn syncs(
    alloc: Global,
    device: &mut Device,
    keeper: &mut MemoryKeeper,
    link: &mut ScriptLink,
    target: &Target,
    readings: &[u64],
) -> Result<Vec<End>, Fail>
    requires live { device.old.spent ≡ false }
    requires idle { device.old.batch ≡ [] }
{
    let group = Txt::from_text(alloc, "device")?;
    let mut ends = Vec::new(alloc);
    'syncs: for reading in readings {
        let end = uncounted::<Brand>(
            Blank::new(1),
            alloc,
            device,
            keeper,
            link,
            &group,
            target,
            *reading,
        );
        ends.push(end)?;
        if end == Err(SyncFault::Keeper) || end == Err(SyncFault::NoMemory) {
            return Ok(ends);
        }
    }
    Ok(ends)
}

/// What the syncs of a device come to, over this keeper and this link.
fn talked_over(
    alloc: Global,
    talk: &Talk,
    keeper: &mut MemoryKeeper,
    link: &mut ScriptLink,
    target: &Target,
) -> Result<Vec<End>, Fail> {
    let mut device = device_of(alloc, talk.node, talk.record)?;
    syncs(alloc, &mut device, keeper, link, target, talk.readings)
}

/// What the syncs of a device come to, with this target.
fn talked_with(
    alloc: Global,
    talk: &Talk,
    keeper: &mut MemoryKeeper,
    target: &Target,
) -> Result<Vec<End>, Fail> {
    let mut link = link_of(alloc, talk)?;
    talked_over(alloc, talk, keeper, &mut link, target)
}

/// What the syncs of a device come to.
fn talked(alloc: Global, talk: &Talk) -> Result<Vec<End>, Fail> {
    let target = target_of(alloc)?;
    let mut keeper = MemoryKeeper::with_faults(alloc, talk.keeper_fails.to_vec(alloc)?);
    talked_with(alloc, talk, &mut keeper, &target)
}

#[test]
fn talks(rt: HostRuntime) -> Result<(), Fail> {
    for talk in &TALKS {
        let ends = talked(rt.alloc(), talk)?;
        assert_eq!(rt; ends.as_slice(), talk.ends);
    }
    Ok(())
}
