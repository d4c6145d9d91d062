//! A world that is told by lines, with the reply to each, worked out by hand from the rules.
ghost use Rattle.std.specs.Prelude.{◌≡◌, ◌≤◌, OnOk, false};

use command_lines::reply_text;
use field_values::{Steps, Txt};
use std::alloc::Global;
use std::marker::Brand;
use std::sync::ledger::{Blank, Ledger};
use std::test::Fail;
use world_lines::WorldSession;

/// Lines and their replies, with a TAB for each `>` and a line feed for each `|`.
const TABLE: &str = r"ask>1>0 = refused E30 bad-command 0
devices = refused E30 bad-command 1
devices>0 = refused E30 bad-command 1
devices>17 = refused E30 bad-command 1
devices>02 = refused E30 bad-command 1
devices>2>3 = refused E30 bad-command 2
devices>2 = ok 0
devices>2 = refused E30 bad-command 0
edit>1>1704448800000>set>categories>food>name>S:Food = ok 1|writes 1
edit>2>1704448801000>set>categories>food>name>S:Meals = ok 1|writes 1
ask>1>0 = ok 1|request 0
ask>2>0 = ok 1|request 1
serve>0 = ok 1|reply 0 0
serve>1 = ok 1|reply 1 1
serve>0 = ok 1|reply 2 2
take>1>2>1704448802000 = ok 1|received 1
take>2>1>1704448802000 = ok 1|received 1
equal>1>2 = ok 1|equal 1
take>1>2>1704448803000 = ok 1|received 0
take>3>0>1 = refused E33 no-such-device 3
show>1>cell>2024-01>to-budget = ok 1|0
show>1>cell>2024-01>nothing = refused E30 bad-command 4
show>3>broken = refused E33 no-such-device 3
take>1>9>1 = refused E35 no-such-reply 9
serve>9 = refused E34 no-such-request 9
equal>0>3 = refused E33 no-such-device 0
equal>1>3 = refused E33 no-such-device 3
stop>1>0>1704448804000>set>categories>food>name>S:Lost = ok 1|stopped
equal>1>2 = ok 1|equal 1
stop>1>1>1704448805000>set>categories>food>name>S:Kept = ok 1|stopped
equal>1>2 = ok 1|equal 0
show>1>fields = ok 1|2024-01-05T10:00:05.000Z-0000-0000000000000001>categories>food>name>S:Kept
edit>1>1704448806000>undo = refused E24 nothing-to-undo
edit>1>1>sync = refused E30 bad-command 0
show>1>receive = refused E30 bad-command 0
edit>1>1>cell>2024-1>x = refused E30 bad-command 3
show>1>set>a = refused E30 bad-command 2
show>1>nothing = refused E30 bad-command 2
edit>1>1>set>categories = refused E30 bad-command 5
edit>1>1 = refused E30 bad-command 3
edit>01>1>undo = refused E30 bad-command 1
edit>1>18446744073709551616>undo = refused E30 bad-command 2
stop>1>2>1>undo = refused E30 bad-command 2
undo = refused E30 bad-command 0
show>1>fields>x = refused E30 bad-command 3
edit>1>1>fields>x = refused E30 bad-command 3
show>1>messages = refused E30 bad-command 3
edit>1>1>messages = refused E30 bad-command 3
show>1>value = refused E30 bad-command 3
edit>1>1>value = refused E30 bad-command 3
show>1>trie>x = refused E30 bad-command 3
edit>1>1>trie>x = refused E30 bad-command 3
show>1>balance = refused E30 bad-command 3
edit>1>1>balance = refused E30 bad-command 3
show>1>register = refused E30 bad-command 3
edit>1>1>register = refused E30 bad-command 3
show>1>cell = refused E30 bad-command 3
edit>1>1>cell = refused E30 bad-command 3
show>1>sheet = refused E30 bad-command 3
edit>1>1>sheet = refused E30 bad-command 3
show>1>broken>x = refused E30 bad-command 3
edit>1>1>broken>x = refused E30 bad-command 3
show>1>schedule-status = refused E30 bad-command 3
edit>1>1>schedule-status = refused E30 bad-command 3
show>1>goals = refused E30 bad-command 3
edit>1>1>goals = refused E30 bad-command 3
show>1>track-cell = refused E30 bad-command 3
edit>1>1>track-cell = refused E30 bad-command 3
show>1>track-sheet = refused E30 bad-command 3
edit>1>1>track-sheet = refused E30 bad-command 3
show>1>set = refused E30 bad-command 2
show>1>undo = refused E30 bad-command 2
show>1>redo = refused E30 bad-command 2
show>1>tx-add = refused E30 bad-command 2
show>1>goals-apply = refused E30 bad-command 2
show>1>rules-run = refused E30 bad-command 2
show>1>import = refused E30 bad-command 2
edit>1>1>set = refused E30 bad-command 4
edit>1>1>undo>x = refused E30 bad-command 4
edit>1>1>redo>x = refused E30 bad-command 4
edit>1>1>tx-add = refused E30 bad-command 4
edit>1>1>goals-apply = refused E30 bad-command 4
edit>1>1>rules-run = refused E30 bad-command 4
edit>1>1>import = refused E30 bad-command 4
halt>0>1 = ok 1|halted
halt>7>1 = refused E34 no-such-request 7";

/// A text with a TAB for each `>`, and a line feed for each `|`.
fn written(alloc: Global, side: &str) -> Result<String, Fail> {
    let tabs = side.replace(alloc, '>', "\t")?;
    Ok(tabs.as_str().replace(alloc, '|', "\n")?)
}

/// Adds the reply to a line.
fn add_reply<G: Ledger>(
    alloc: Global,
    session: &mut WorldSession,
    steps: &mut Steps<G>,
    text: &mut String,
    line: &str,
) -> Result<(), Fail>
    requires { session.old.spent ≡ false }
    ensures { OnOk result (session.new.spent ≡ false) }
{
    let line = written(alloc, line)?;
    let reply = session.answer(&Txt::new(line), steps)?;
    text.push_str(reply_text(alloc, &reply)?.as_str())?;
    Ok(())
}

/// The replies to the lines of the table.
fn told<G: Ledger>(blank: Blank, alloc: Global) -> Result<String, Fail>
    requires name { blank.name ≡ G.name }
    requires parts { blank.parts ≡ G.parts }
    requires some { 1 ≤ G.parts }
{
    let mut session = WorldSession::new(alloc);
    let mut steps = Steps::<G>::new(blank);
    let mut text = String::new(alloc);
    'rows: for row in TABLE.split('\n') {
        let (line, _) = row.split_once(" = ").unwrap_or((row, ""));
        add_reply(alloc, &mut session, &mut steps, &mut text, line)?;
    }
    Ok(text)
}

/// The replies with a counter of steps that nobody reads.
fn uncounted(alloc: Global) -> Result<String, Fail> {
    told::<Brand>(Blank::new(1), alloc)
}

/// The replies of the table.
fn wanted(alloc: Global) -> Result<String, Fail> {
    let mut text = String::new(alloc);
    for row in TABLE.split('\n') {
        let (_, reply) = row.split_once(" = ").unwrap_or((row, ""));
        text.push_str(written(alloc, reply)?.as_str())?;
        text.push_str("\n")?;
    }
    Ok(text)
}

#[test]
fn lines_are_answered(rt: HostRuntime) -> Result<(), Fail> {
    let replies = uncounted(rt.alloc())?;
    let wanted = wanted(rt.alloc())?;
    assert_eq!(rt; replies.as_str(), wanted.as_str());
    Ok(())
}
