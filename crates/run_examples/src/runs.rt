//! Runs of `merge`, of devices and of a server, also while calls fail.
ghost use Rattle.std.specs.Prelude.{◌<◌, length, IfOk};

use crate::table::{DEVICE, Run, T0, outcome, run_of};
use budget_ports::{Keeper, MemoryKeeper, PortFault, Record};
use field_values::{NoMemory, Txt};
use std::alloc::Global;
use std::test::Fail;

const FOOD: &str =
    "2024-01-05T10:00:00.000Z-0000-00000000000000aa\tcategories\tfood\tname\tS:Food\n";

const MEALS: &str =
    "2024-01-05T10:00:01.000Z-0000-00000000000000bb\tcategories\tfood\tname\tS:Meals\n";

/// Inputs of `merge`, its status, and what it writes.
const MERGES: [(&str, u8, &str); 9] = [
    ("", 0, ""),
    (
        "2024-01-05T10:00:00.000Z-0000-00000000000000aa\tcategories\tfood\tname\tS:Food\n2024-01-05T10:00:01.000Z-0000-00000000000000bb\tcategories\tfood\tname\tS:Meals\n",
        0,
        MEALS,
    ),
    (
        "2024-01-05T10:00:01.000Z-0000-00000000000000bb\tcategories\tfood\tname\tS:Meals\n2024-01-05T10:00:00.000Z-0000-00000000000000aa\tcategories\tfood\tname\tS:Food\n",
        0,
        MEALS,
    ),
    (
        "2024-01-05T10:00:01.000Z-0000-00000000000000bb\tcategories\tfood\tname\tS:Meals\n2024-01-05T10:00:01.000Z-0000-00000000000000bb\tcategories\tfood\tname\tS:Meals\n",
        0,
        MEALS,
    ),
    // of equal timestamps the first counts
    (
        "2024-01-05T10:00:00.000Z-0000-00000000000000aa\tcategories\tfood\tname\tS:Food\n2024-01-05T10:00:00.000Z-0000-00000000000000aa\tcategories\tfood\tname\tS:x\n",
        0,
        FOOD,
    ),
    (
        "2024-01-05T10:00:00.000Z-0000-00000000000000aa\tcategories\tfood\tname\tS:x\n2024-01-05T10:00:00.000Z-0000-00000000000000aa\tcategories\tfood\tname\tS:Food\n",
        0,
        "2024-01-05T10:00:00.000Z-0000-00000000000000aa\tcategories\tfood\tname\tS:x\n",
    ),
    ("x\n", 1, "bad-line 1 columns\n"),
    ("\n", 1, "bad-line 1 columns\n"),
    (
        "2024-01-05T10:00:00.000Z-0000-00000000000000aa\tcategories\tfood\tname\tS:Food\n\nx",
        1,
        "bad-line 2 columns\nbad-line 3 columns\n2024-01-05T10:00:00.000Z-0000-00000000000000aa\tcategories\tfood\tname\tS:Food\n",
    ),
];

#[test]
fn merges(rt: HostRuntime) -> Result<(), Fail> {
    for (input, status, output) in MERGES {
        let (ended, told) = run_of(rt.alloc(), "merge", input)?;
        assert_eq!(rt; (ended, told.as_str()), (status, output), "at {input}");
    }
    Ok(())
}

/// Words that are refused: nothing is written.
#[test]
fn refuses_words(rt: HostRuntime) -> Result<(), Fail> {
    for words in [
        "merge x",
        "",
        "device",
        "merge --count 0",
        "generate --count 100001",
        "world x",
    ] {
        let (ended, told) = run_of(rt.alloc(), words, FOOD)?;
        assert_eq!(rt; (ended, told.as_str()), (2, ""), "at {words}");
    }
    Ok(())
}

/// The calls of the source, of the sink and of the keeper that fail, the status, and what is written.
pub(crate) type Failing = (
    &'static [u64],
    &'static [u64],
    &'static [u64],
    u8,
    &'static str,
);

/// The run of a row, over a keeper of its own.
pub(crate) fn failing(
    alloc: Global,
    words: &'static str,
    input: &'static str,
    row: &Failing,
) -> Result<(u8, String), Fail> {
    let fails = row.2.to_vec(alloc)?;
    let mut keeper = MemoryKeeper::with_faults(alloc, fails);
    let run = Run {
        words,
        input,
        source_fails: row.0,
        sink_fails: row.1,
        ..DEVICE
    };
    outcome(alloc, &mut keeper, &run)
}

/// `merge` of two lines that are no messages.
const FAILING_MERGES: [Failing; 4] = [
    // the second read, after all bytes
    (
        &[1],
        &[],
        &[],
        4,
        "bad-line 1 columns\nbad-line 2 columns\n",
    ),
    // a third read, which isn't made: the second one has told the end
    (
        &[2],
        &[],
        &[],
        1,
        "bad-line 1 columns\nbad-line 2 columns\n",
    ),
    // the second write, and the flush
    (&[], &[1], &[], 5, "bad-line 1 columns\n"),
    (
        &[],
        &[2],
        &[],
        5,
        "bad-line 1 columns\nbad-line 2 columns\n",
    ),
];

#[test]
fn tells_what_failed_of_a_merge(rt: HostRuntime) -> Result<(), Fail> {
    for row in &FAILING_MERGES {
        let (ended, told) = failing(rt.alloc(), "merge", "x\ny\n", row)?;
        assert_eq!(rt; (ended, told.as_str()), (row.3, row.4));
    }
    Ok(())
}

/// A device that is told `set` twice.
const FAILING_DEVICES: [Failing; 7] = [
    // the first read, and the second one after all bytes
    (&[0], &[], &[], 4, ""),
    (&[1], &[], &[], 4, "ok 1\nwrites 1\nok 1\nwrites 1\n"),
    // the first write, the second one, and the flush behind both
    (&[], &[0], &[], 5, ""),
    (&[], &[1], &[], 5, "ok 1\nwrites 1\n"),
    (&[], &[2], &[], 5, "ok 1\nwrites 1\nok 1\nwrites 1\n"),
    // the opening, and the second append
    (&[], &[], &[0], 6, ""),
    (&[], &[], &[2], 6, "ok 1\nwrites 1\n"),
];

const SETS: &str = "set\tcategories\tfood\tname\tS:Food\nset\tcategories\tfood\tname\tS:x\n";

#[test]
fn tells_what_failed_of_a_device(rt: HostRuntime) -> Result<(), Fail> {
    for row in &FAILING_DEVICES {
        let (ended, told) = failing(rt.alloc(), "device --node aa", SETS, row)?;
        assert_eq!(rt; (ended, told.as_str()), (row.3, row.4));
    }
    Ok(())
}

/// A run of the device `aa` in which nothing but the keeper and the sink may fail.
fn device<'a>(input: &'a str, sink_fails: &'a [u64], reading: u64) -> Run<'a> {
    Run {
        input,
        sink_fails,
        reading,
        ..DEVICE
    }
}

/// The status of a run over a keeper, and whether it wrote this.
fn tells(
    alloc: Global,
    keeper: &mut MemoryKeeper,
    run: &Run<'_>,
    output: &str,
) -> Result<(u8, bool), Fail> {
    let (status, told) = outcome(alloc, keeper, run)?;
    Ok((status, told.as_str() == output))
}

/// How a run ended whose keeper failed behind the first line, and whether it wrote the answer to that line alone; and how a later run ended
/// over this keeper, and whether it has the edit of that line alone.
fn both_tell(alloc: Global) -> Result<((u8, bool), (u8, bool)), Fail> {
    let fails = [2].to_vec(alloc)?;
    let mut keeper = MemoryKeeper::with_faults(alloc, fails);
    let first = tells(
        alloc,
        &mut keeper,
        &device(SETS, &[], T0),
        "ok 1\nwrites 1\n",
    )?;
    let second = tells(
        alloc,
        &mut keeper,
        &device("messages\t\n", &[], T0),
        "ok 1\n2024-01-05T10:00:00.000Z-0000-00000000000000aa\tcategories\tfood\tname\tS:Food\n",
    )?;
    Ok((first, second))
}

/// The second append fails, so a later run has the first edit alone.
#[test]
fn keeps_what_was_answered(rt: HostRuntime) -> Result<(), Fail> {
    let told = both_tell(rt.alloc())?;
    assert_eq!(rt; told, ((6, true), (0, true)));
    Ok(())
}

/// A record with a key.
fn record_of(alloc: Global, key: &str, body: &str) -> Result<Record, NoMemory>
    requires { 0 < length key.now }
    ensures { IfOk result (λ r. 0 < length r.key) }
{
    Ok(Record {
        key: Txt::from_text(alloc, key)?,
        body: Txt::from_text(alloc, body)?,
    })
}

/// Keeps two records in a group, of which the later one stands first.
fn keep_both(
    alloc: Global,
    keeper: &mut MemoryKeeper,
    group: &Txt,
    first: &str,
    second: &str,
) -> Result<(), PortFault> {
    let second = record_of(
        alloc,
        "2024-01-05T10:00:01.000Z-0000-00000000000000bb",
        second,
    )?;
    let first = record_of(
        alloc,
        "2024-01-05T10:00:00.000Z-0000-00000000000000aa",
        first,
    )?;
    keeper.append(group, &[second, first])
}

/// Keeps two records of the device, of which the later one stands first.
fn keep(
    alloc: Global,
    keeper: &mut MemoryKeeper,
    first: &str,
    second: &str,
) -> Result<(), PortFault> {
    let group = Txt::from_text(alloc, "device")?;
    keep_both(alloc, keeper, &group, first, second)
}

/// The bodies of both records, the status of a run that begins with them, and what it writes when it is asked for all messages. A record
/// that keeps no message is told, by its place.
const RECORDS: [(&str, &str, u8, &str); 7] = [
    (
        "categories\tfood\tname\tS:a\\\\b",
        "categories\tfood\tname\t0:",
        0,
        "ok 2\n2024-01-05T10:00:00.000Z-0000-00000000000000aa\tcategories\tfood\tname\tS:a\\\\b\n2024-01-05T10:00:01.000Z-0000-00000000000000bb\tcategories\tfood\tname\t0:\n",
    ),
    ("x", "categories\tfood\tname\t0:", 3, "bad-record 0\n"),
    ("", "", 3, "bad-record 0\n"),
    (
        "categories\tfood\tname",
        "categories\tfood\tname\t0:",
        3,
        "bad-record 0\n",
    ),
    (
        "categories\tfood\tname\t0:",
        "categories\tfood\tname\tS:\\q",
        3,
        "bad-record 1\n",
    ),
    (
        "categories\tfood\tname\t0:",
        "\tfood\tname\tS:Meals",
        3,
        "bad-record 1\n",
    ),
    (
        "categories\tfood\tname\t0:",
        "categories\tfood\tname\t0:\t",
        3,
        "bad-record 1\n",
    ),
];

/// The status and the text of a run that begins with two records.
fn begun(alloc: Global, first: &str, second: &str) -> Result<(u8, String), Fail> {
    let mut keeper = MemoryKeeper::new(alloc);
    keep(alloc, &mut keeper, first, second)?;
    outcome(alloc, &mut keeper, &device("messages\t\n", &[], T0))
}

#[test]
fn begins_with_records(rt: HostRuntime) -> Result<(), Fail> {
    for (first, second, status, output) in RECORDS {
        let (ended, told) = begun(rt.alloc(), first, second)?;
        assert_eq!(rt; (ended, told.as_str()), (status, output), "at {second}");
    }
    Ok(())
}

/// Keeps a record in a group whose key is no timestamp.
fn keep_bad_in(alloc: Global, keeper: &mut MemoryKeeper, group: &Txt) -> Result<(), PortFault> {
    let record = record_of(alloc, "x", "categories\tfood\tname\t0:")?;
    keeper.append(group, &[record])
}

/// Keeps a record of the device whose key is no timestamp.
fn keep_bad(alloc: Global, keeper: &mut MemoryKeeper) -> Result<(), PortFault> {
    let group = Txt::from_text(alloc, "device")?;
    keep_bad_in(alloc, keeper, &group)
}

/// How a run over a bad record ended, and whether it wrote that alone; and how one ended over it whose sink fails, and whether it wrote
/// nothing.
fn bad_told(alloc: Global) -> Result<((u8, bool), (u8, bool)), Fail> {
    let mut keeper = MemoryKeeper::new(alloc);
    keep_bad(alloc, &mut keeper)?;
    let first = tells(alloc, &mut keeper, &device(SETS, &[], T0), "bad-record 0\n")?;
    let second = tells(alloc, &mut keeper, &device(SETS, &[0], T0), "")?;
    Ok((first, second))
}

/// A record that keeps no message decides the status where the sink fails too.
#[test]
fn tells_bad_records(rt: HostRuntime) -> Result<(), Fail> {
    let told = bad_told(rt.alloc())?;
    assert_eq!(rt; told, ((3, true), (3, true)));
    Ok(())
}

/// Lines at readings of the clock, and their replies.
const READINGS: [(u64, &str, &str); 5] = [
    (
        2_582_803_260_000,
        "set\tcategories\tfood\tname\tS:x\n",
        "refused E28 clock-beyond 2582803260000\n",
    ),
    (
        2_582_803_259_999,
        "set\tcategories\tfood\tname\tS:x\nmessages\t\n",
        "ok 1\nwrites 1\nok 1\n2051-11-05T13:20:59.999Z-0000-00000000000000aa\tcategories\tfood\tname\tS:x\n",
    ),
    (
        T0,
        "receive\t2024-01-05T10:05:00.001Z-0000-00000000000000bb\tcategories\tfood\tname\tS:x\n",
        "refused E26 clock-drift 1704449100001 1704448800000\n",
    ),
    (
        T0,
        "receive\t2024-01-05T10:05:00.000Z-0000-00000000000000bb\tcategories\tfood\tname\tS:x\nset\tcategories\tfood\tname\tS:y\nmessages\t2024-01-05T10:05:00.000Z-0000-00000000000000bb\n",
        "ok 1\nadded 1\nok 1\nwrites 1\nok 1\n2024-01-05T10:05:00.000Z-0002-00000000000000aa\tcategories\tfood\tname\tS:y\n",
    ),
    (
        T0,
        "receive\t2024-01-05T10:00:00.000Z-FFFF-00000000000000bb\tcategories\tfood\tname\tS:x\n",
        "refused E27 clock-overflow 65536\n",
    ),
];

/// What the device tells at a reading of the clock.
fn told_at(alloc: Global, input: &str, reading: u64) -> Result<String, Fail> {
    let mut keeper = MemoryKeeper::new(alloc);
    let (_, told) = outcome(alloc, &mut keeper, &device(input, &[], reading))?;
    Ok(told)
}

#[test]
fn follows_the_clock(rt: HostRuntime) -> Result<(), Fail> {
    for (reading, input, output) in READINGS {
        let told = told_at(rt.alloc(), input, reading)?;
        assert_eq!(rt; told.as_str(), output, "at {input}");
    }
    Ok(())
}

/// What three connections send: a request for all messages, one with another token, and a part of one.
const CONNECTIONS: [&[u8]; 3] = [
    b"POST /sync/sync HTTP/1.1\r\nX-ACTUAL-TOKEN: local\r\nContent-Length: 15\r\n\r\n\x12\x04home\x1a\x04home2\x010",
    b"POST /sync/sync HTTP/1.1\r\nX-ACTUAL-TOKEN: x\r\nContent-Length: 15\r\n\r\n\x12\x04home\x1a\x04home2\x010",
    b"POST /sync/sync",
];

/// The calls of the keeper, of the sink and of the door that fail, the status, and what is written.
const SERVES: [Failing; 4] = [
    (&[], &[], &[], 0, "1 200\n2 401\n3 cut\n"),
    // the put of the file's group, the first write, and the first connection
    (&[0], &[], &[], 6, ""),
    (&[], &[0], &[], 5, ""),
    (&[], &[], &[0], 8, ""),
];

/// The status and the text of a server's run of which these calls of the keeper, of the sink and of the door fail.
fn served(
    alloc: Global,
    keeper_fails: &[u64],
    sink_fails: &'static [u64],
    door_fails: &'static [u64],
) -> Result<(u8, String), Fail> {
    let fails = keeper_fails.to_vec(alloc)?;
    let mut keeper = MemoryKeeper::with_faults(alloc, fails);
    let run = Run {
        words: "serve --count 3",
        connections: CONNECTIONS.as_slice(),
        sink_fails,
        door_fails,
        ..DEVICE
    };
    outcome(alloc, &mut keeper, &run)
}

#[test]
fn serves(rt: HostRuntime) -> Result<(), Fail> {
    for (keeper_fails, sink_fails, door_fails, status, output) in SERVES {
        let (ended, told) = served(rt.alloc(), keeper_fails, sink_fails, door_fails)?;
        assert_eq!(rt; (ended, told.as_str()), (status, output));
    }
    Ok(())
}
