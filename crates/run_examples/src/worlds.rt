//! Runs of the modes `world` and `generate`, also while calls fail.
use crate::runs::{Failing, failing};
use crate::table::talk_of;
use std::test::Fail;

/// Two devices name a category, ask, are served, and take what the other made, once more and as a device that isn't there.
const MEETING: &str = "equal>1>2 = refused E30 bad-command 0
devices>0 = refused E30 bad-command 1
devices>17 = refused E30 bad-command 1
devices>2>x = refused E30 bad-command 2
devices>2 = ok 0
devices>2 = refused E30 bad-command 0
edit>1>1704448800000>set>categories>food>name>S:Food = ok 1|writes 1
edit>2>1704448801000>set>categories>food>name>S:Meals = ok 1|writes 1
ask>1>0 = ok 1|request 0
ask>2>0 = ok 1|request 1
serve>0 = ok 1|reply 0 0
serve>1 = ok 1|reply 1 1
serve>0 = ok 1|reply 2 2
take>1>2>1704448802000 = ok 1|received 1
take>2>1>1704448802000 = ok 1|received 1
equal>1>2 = ok 1|equal 1
take>1>2>1704448803000 = ok 1|received 0
take>3>0>1 = refused E33 no-such-device 3
show>1>cell>2024-01>to-budget = ok 1|0";

/// Stops: of a device, which then has what its edit makes or not, and of the server.
const STOPS: &str = "stop>1>0>1704448804000>set>categories>food>name>S:Lost = ok 1|stopped
show>1>fields = ok 1|2024-01-05T10:00:01.000Z-0000-0000000000000002>categories>food>name>S:Meals
edit>1>1704448804000>undo = refused E24 nothing-to-undo
stop>1>0>1704448804000>undo = refused E24 nothing-to-undo
stop>1>1>1704448805000>set>categories>food>name>S:Kept = ok 1|stopped
show>1>fields = ok 1|2024-01-05T10:00:05.000Z-0000-0000000000000001>categories>food>name>S:Kept
edit>1>1704448805000>undo = refused E24 nothing-to-undo
ask>1>2024-01-05T10:00:01.000Z-0000-0000000000000002 = ok 1|request 2
halt>2>0 = ok 1|halted
ask>2>~ = ok 1|request 3
serve>3 = ok 1|reply 3 0
halt>2>1 = ok 1|halted
ask>2>2024-01-05T10:00:01.000Z-0000-0000000000000002 = ok 1|request 4
serve>4 = ok 1|reply 4 1
take>2>4>1704448505000 = ok 1|received 1
equal>1>2 = ok 1|equal 1
edit>2>1704448505000>set>categories>food>name>S:x = ok 1|writes 1
show>2>fields = ok 1|2024-01-05T10:00:05.000Z-0002-0000000000000002>categories>food>name>S:x
equal>2>1 = ok 1|equal 0";

/// What is refused: the faulty word by its place in the line, then a number that names nothing, from the left, then what a device or its clock
/// refuses.
const REFUSED: &str = "edit>1>1>sync = refused E30 bad-command 0
show>1>receive>x = refused E30 bad-command 0
edit>1>1>fields = refused E30 bad-command 3
show>1>undo = refused E30 bad-command 2
stop>1>1>1>set>a>b>c = refused E30 bad-command 8
edit>1>1>set>a>b>c>0:>x = refused E30 bad-command 8
edit>01>1>undo = refused E30 bad-command 1
edit>4294967296>1>undo = refused E30 bad-command 1
edit>1>18446744073709551616>undo = refused E30 bad-command 2
stop>1>2>1>undo = refused E30 bad-command 2
halt>0>x = refused E30 bad-command 2
ask>1>\\x = refused E30 bad-command 2
serve = refused E30 bad-command 1
show>1>cell>2024-01>nonsense = refused E30 bad-command 4
show>1>track-cell>2024-01>nonsense = refused E30 bad-command 4
show>1>cell>2024-13>nonsense = refused E10 bad-month 202413
edit>0>1>undo = refused E33 no-such-device 0
ask>4294967295>0 = refused E33 no-such-device 4294967295
equal>4>3 = refused E33 no-such-device 4
equal>1>3 = refused E33 no-such-device 3
serve>5 = refused E34 no-such-request 5
halt>5>1 = refused E34 no-such-request 5
take>1>5>1 = refused E35 no-such-reply 5
take>3>5>1 = refused E33 no-such-device 3
edit>1>1>set>a>>c>0: = refused E1 bad-id
edit>1>18446744073709551615>redo = refused E25 nothing-to-redo
edit>1>18446744073709551615>set>a>b>c>0: = refused E28 clock-beyond 18446744073709551615
take>1>4>1704448504999 = refused E26 clock-drift 1704448805000 1704448504999
take>1>0>18446744073709551615 = ok 1|received 0";

#[test]
fn worlds_are_played(rt: HostRuntime) -> Result<(), Fail> {
    let wrong = talk_of(rt.alloc(), "world", &[MEETING, STOPS, REFUSED])?;
    assert_eq!(rt; wrong.as_str(), "");
    Ok(())
}

/// A line that begins a world, and one by which a device asks.
const LINES: &str = "devices\t1\nask\t1\t0\n";

const FAILING_WORLDS: [Failing; 7] = [
    // the first read, and the second one after all bytes
    (&[0], &[], &[], 4, ""),
    (&[1], &[], &[], 4, "ok 0\nok 1\nrequest 0\n"),
    // the first write, the second one, the flush behind both, and a fourth call, which isn't made
    (&[], &[0], &[], 5, ""),
    (&[], &[1], &[], 5, "ok 0\n"),
    (&[], &[2], &[], 5, "ok 0\nok 1\nrequest 0\n"),
    (&[], &[3], &[], 0, "ok 0\nok 1\nrequest 0\n"),
    // the keeper is not asked
    (&[], &[], &[0], 0, "ok 0\nok 1\nrequest 0\n"),
];

#[test]
fn tells_what_failed_of_a_world(rt: HostRuntime) -> Result<(), Fail> {
    for row in &FAILING_WORLDS {
        let (ended, told) = failing(rt.alloc(), "world", LINES, row)?;
        assert_eq!(rt; (ended, told.as_str()), (row.3, row.4));
    }
    Ok(())
}

/// A book of one transaction; the source and the keeper are left alone.
const BOOKS: [Failing; 3] = [
    (
        &[0],
        &[],
        &[0],
        0,
        "messages 19\nroot 408524653\nto-budget -3996\n",
    ),
    // the write, and the flush
    (&[], &[0], &[], 5, ""),
    (
        &[],
        &[1],
        &[],
        5,
        "messages 19\nroot 408524653\nto-budget -3996\n",
    ),
];

#[test]
fn book_is_generated(rt: HostRuntime) -> Result<(), Fail> {
    for row in &BOOKS {
        let (ended, told) = failing(rt.alloc(), "generate --count 1", "", row)?;
        assert_eq!(rt; (ended, told.as_str()), (row.3, row.4));
    }
    Ok(())
}

/// A larger one, with words that are not used.
#[test]
fn larger_book_is_generated(rt: HostRuntime) -> Result<(), Fail> {
    let row: Failing = (
        &[],
        &[],
        &[],
        0,
        "messages 55\nroot -688925658\nto-budget 43185\n",
    );
    let (ended, told) = failing(
        rt.alloc(),
        "generate --count 10 --node aa --store x",
        "x\n",
        &row,
    )?;
    assert_eq!(rt; (ended, told.as_str()), (row.3, row.4));
    Ok(())
}
