//! Timestamps and clocks.
ghost use Rattle.std.specs.Prelude.{◌≤◌};

use hybrid_clock::{ClockFault, HybridClock, Node, NodeFault, Stamp, StampFault, moment_text};
use std::test::Fail;

/// The time and the minute of the timestamp that a text is; `(0, 0)` where it is written as another text.
fn told_of(text: &[u8]) -> Result<(u64, u32), StampFault> {
    let stamp = Stamp::parse(text)?;
    let mut written = [0u8; 46];
    stamp.write_text(&mut written);
    if &written[..] == text {
        Ok((stamp.millis, stamp.minute()))
    } else {
        Ok((0, 0))
    }
}

#[test]
fn reads_texts(rt: HostRuntime) -> Result<(), Fail> {
    let cases: [(&[u8], Result<(u64, u32), StampFault>); 10] = [
        (
            b"2024-01-05T10:00:00.000Z-0000-00000000000000aa",
            Ok((1_704_448_800_000, 28_407_480)),
        ),
        (
            b"2051-11-05T13:20:59.999Z-0000-00000000000000aa",
            Ok((2_582_803_259_999, 43_046_720)),
        ),
        (
            b"2051-11-05T13:20:59.999Z-FFFF-zzzzzzzzzzzzzzzz",
            Ok((2_582_803_259_999, 43_046_720)),
        ),
        (
            b"2051-11-05T13:21:00.000Z-0000-00000000000000aa",
            Err(StampFault::BeyondWindow { minute: 43_046_721 }),
        ),
        (
            b"2024-01-05T10:00:00.000Z-00ff-00000000000000aa",
            Err(StampFault::BadByte { at: 27 }),
        ),
        (
            b"2024-01-05T10:00:00.000Z-0000-00000000000000a",
            Err(StampFault::Length { len: 45 }),
        ),
        (
            b"2023-02-29T00:00:00.000Z-0000-00000000000000aa",
            Err(StampFault::NoSuchMoment),
        ),
        (
            b"9999-02-30T00:00:00.000Z-0000-00000000000000aa",
            Err(StampFault::NoSuchMoment),
        ),
        (
            b"9999-12-31T00:00:00.000Z-0000-0000000000000000",
            Err(StampFault::BeyondWindow {
                minute: 4_223_370_240,
            }),
        ),
        (
            b"2024-01-05T10:00:00.000Z-0000-0000000000000000",
            Err(StampFault::ZeroNode),
        ),
    ];
    for (text, expected) in cases {
        assert_eq!(rt; told_of(text), expected);
    }
    Ok(())
}

/// The hour of a day is 0 to 23, and a moment's node is no device's.
#[test]
fn writes_moments(rt: HostRuntime) {
    for (millis, text) in [
        (0, b"1970-01-01T00:00:00.000Z-0000-0000000000000000"),
        (
            1_704_498_619_042,
            b"2024-01-05T23:50:19.042Z-0000-0000000000000000",
        ),
        (
            2_582_803_259_999,
            b"2051-11-05T13:20:59.999Z-0000-0000000000000000",
        ),
    ] {
        assert_eq!(rt; &moment_text(millis), text);
    }
}

#[test]
fn makes_nodes(rt: HostRuntime) -> Result<(), Fail> {
    let nodes: [(&[u8], Result<[u8; 16], NodeFault>); 7] = [
        (b"aa", Ok(*b"00000000000000aa")),
        (b"zzzzzzzzzzzzzzzz", Ok(*b"zzzzzzzzzzzzzzzz")),
        (b"", Err(NodeFault::Empty)),
        (b"00000000000000000", Err(NodeFault::TooLong { len: 17 })),
        (b"a-b", Err(NodeFault::BadByte { at: 1 })),
        (b"0", Err(NodeFault::Zero)),
        (b"0000", Err(NodeFault::Zero)),
    ];
    for (text, expected) in nodes {
        assert_eq!(rt; Node::make(text).map(|n| n.bytes()), expected);
    }
    Ok(())
}

/// The time of a clock and its counter.
fn last_of(clock: &HybridClock) -> (u64, u16) {
    (clock.last().millis, clock.last().counter)
}

/// The counter that a clock draws which stands at a timestamp, and the time and the counter at which it stands then.
fn drawn(
    node: Node,
    last: &[u8],
    reading: u64,
    n: u32,
) -> Result<(Result<u16, ClockFault>, (u64, u16)), Fail>
    requires some { 1 ≤ n }
    requires most { n ≤ 65_536 }
{
    let mut clock = HybridClock::new(node, Some(Stamp::parse(last)?));
    let counter = clock.draw(reading, n).map(|s| s.counter);
    Ok((counter, last_of(&clock)))
}

/// What comes of a message at a clock with this reading, and the time and the counter at which it stands then.
fn received(
    clock: &mut HybridClock,
    reading: u64,
    message: &[u8],
) -> Result<(Result<(), ClockFault>, (u64, u16)), Fail> {
    let message = Stamp::parse(message)?;
    let answer = clock.receive(reading, &message);
    Ok((answer, last_of(clock)))
}

#[test]
fn receives(rt: HostRuntime) -> Result<(), Fail> {
    let mut clock = HybridClock::new(Node::make(b"aa")?, None);
    let message = b"1970-01-01T00:05:01.000Z-0007-00000000000000bb";
    let drift = ClockFault::Drift {
        logical: 301_000,
        reading: 999,
    };
    for (reading, answer, after) in [(999, Err(drift), (0, 0)), (1000, Ok(()), (301_000, 8))] {
        assert_eq!(rt; received(&mut clock, reading, message)?, (answer, after));
    }
    Ok(())
}

#[test]
fn moves_clocks(rt: HostRuntime) -> Result<(), Fail> {
    let node = Node::make(b"aa")?;
    let cases: [(&[u8], u64, u32, Result<u16, ClockFault>, (u64, u16)); 10] = [
        (
            b"1970-01-01T00:00:01.000Z-0004-00000000000000bb",
            1000,
            1,
            Ok(5),
            (1000, 5),
        ),
        (
            b"1970-01-01T00:05:01.000Z-0000-00000000000000bb",
            1000,
            1,
            Ok(1),
            (301_000, 1),
        ),
        (
            b"1970-01-01T00:05:01.001Z-0007-00000000000000bb",
            1000,
            1,
            Err(ClockFault::Drift {
                logical: 301_001,
                reading: 1000,
            }),
            (301_001, 7),
        ),
        (
            b"1970-01-01T00:00:01.000Z-FFFF-00000000000000bb",
            1000,
            1,
            Err(ClockFault::Overflow { counter: 65_536 }),
            (1000, 65_535),
        ),
        (
            b"1970-01-01T00:00:01.000Z-FFFF-00000000000000bb",
            1001,
            1,
            Ok(0),
            (1001, 0),
        ),
        (
            b"1970-01-01T00:00:01.000Z-FFFD-00000000000000bb",
            1000,
            2,
            Ok(65_534),
            (1000, 65_535),
        ),
        (
            b"1970-01-01T00:00:01.000Z-FFFD-00000000000000bb",
            1000,
            3,
            Err(ClockFault::Overflow { counter: 65_536 }),
            (1000, 65_533),
        ),
        (
            b"1970-01-01T00:00:00.000Z-0000-00000000000000bb",
            5,
            65_536,
            Ok(0),
            (5, 65_535),
        ),
        (
            b"1970-01-01T00:00:00.000Z-0000-00000000000000bb",
            2_582_803_260_000,
            1,
            Err(ClockFault::Beyond {
                reading: 2_582_803_260_000,
            }),
            (0, 0),
        ),
        (
            b"1970-01-01T00:00:00.000Z-0000-00000000000000bb",
            2_582_803_259_999,
            1,
            Ok(0),
            (2_582_803_259_999, 0),
        ),
    ];
    for (last, reading, n, expected, after) in cases {
        assert!(rt; 1 <= n && n <= 65_536);
        assert_eq!(rt; drawn(node, last, reading, n)?, (expected, after));
    }
    Ok(())
}
