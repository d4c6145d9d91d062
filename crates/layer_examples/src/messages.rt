//! Message lines, and the logs that they join.
ghost use Rattle.std.specs.Prelude.{◌≡◌, IfOk, OnOk, false};
ghost use Rattle.field_merge.specs.Messages.{IsMessage};
ghost use Rattle.field_values.specs.Names.{AreNames};

use field_merge::{
    Joined, LatestMessages, LineFault, Log, Message, push_escaped, read_line, unescape, write_line,
};
use field_values::{Field, NameFault, NamePart, Txt, Value};
use hybrid_clock::{Stamp, StampFault};
use std::alloc::Global;
use std::test::Fail;

/// The line that is written of the message that a line is read as.
fn again(alloc: Global, line: &str) -> Result<Txt, Fail> {
    let line = Txt::from_text(alloc, line)?;
    let message = read_line(alloc, &line)?;
    Ok(write_line(alloc, &message)?)
}

/// A part, unescaped and escaped again.
fn escaped_again(alloc: Global, part: &str) -> Result<String, Fail> {
    let text = unescape(alloc, part)?;
    let mut written = String::new(alloc);
    push_escaped(&mut written, text.as_str())?;
    Ok(written)
}

#[test]
fn escapes_what_was_unescaped(rt: HostRuntime) -> Result<(), Fail> {
    for part in ["", "a", "\\0\\t\\n\\\\", "\u{e9}\\\\0"] {
        let written = escaped_again(rt.alloc(), part)?;
        assert_eq!(rt; written.as_str(), part);
    }
    Ok(())
}

#[test]
fn writes_what_was_read(rt: HostRuntime) -> Result<(), Fail> {
    for text in [
        "2024-01-05T10:00:00.000Z-0000-00000000000000aa\tnotes\tr\tnote\tS:",
        "2024-01-05T10:00:00.000Z-0000-00000000000000aa\ta\\\\b\tr\tc\tS:\\0\\t\\n\\\\x",
        "2024-01-05T10:00:00.000Z-0000-00000000000000aa\ta\tr\tc\tN:007",
        "2024-01-05T10:00:00.000Z-0000-00000000000000aa\ta\tr\tc\tN:-7",
    ] {
        let written = again(rt.alloc(), text)?;
        assert_eq!(rt; written.as_str(), text);
    }
    Ok(())
}

/// Whether a field has these names.
fn is_named(field: &Field, names: (&str, &str, &str)) -> bool {
    field.dataset() == names.0 && field.row() == names.1 && field.column() == names.2
}

/// The text that a value is, where it is one.
fn text_in(value: &Value) -> Option<&str> {
    match value {
        Value::Text(text) => Some(text.as_str()),
        _ => None,
    }
}

/// Whether a line is read as a message of a field with these names, whose value is this text.
fn is_read_as(
    alloc: Global,
    line: &str,
    names: (&str, &str, &str),
    text: &str,
) -> Result<bool, Fail> {
    let line = Txt::from_text(alloc, line)?;
    let message = read_line(alloc, &line)?;
    Ok(is_named(&message.field, names) && text_in(&message.value) == Some(text))
}

#[test]
fn reads_a_line(rt: HostRuntime) -> Result<(), Fail> {
    let line = "2024-01-05T10:00:00.000Z-0000-00000000000000aa\ta\\\\b\tr\tc\tS:\\0\\t\\n\\\\\0\n";
    assert!(rt; is_read_as(rt.alloc(), line, ("a\\b", "r", "c"), "\0\t\n\\\0\n")?);
    Ok(())
}

/// Why a text is no line of a message.
fn fault_of(alloc: Global, text: &str) -> Result<Option<LineFault>, Fail> {
    let text = Txt::from_text(alloc, text)?;
    Ok(read_line(alloc, &text).err())
}

#[test]
fn refuses_lines(rt: HostRuntime) -> Result<(), Fail> {
    for (text, fault) in [
        ("", LineFault::Columns { found: 1 }),
        ("a\tb\tc\t\\", LineFault::Columns { found: 4 }),
        ("a\tb\tc\td\te\t", LineFault::Columns { found: 6 }),
        ("x\t\tb\\\\c\td\ty\\x", LineFault::Escape { at: 11 }),
        ("x\\\tb\tc\td\t\\x", LineFault::Escape { at: 1 }),
        ("x\tb\tc\td\te\\\\\\", LineFault::Escape { at: 11 }),
        (
            "x\t\tc\td\te",
            LineFault::Stamp(StampFault::Length { len: 1 }),
        ),
        (
            "2024-01-05T10:00:00.000Z-0000-00000000000000aa\ta\t\t\tS:",
            LineFault::Name(NameFault::Empty {
                part: NamePart::Row,
            }),
        ),
        (
            "2024-01-05T10:00:00.000Z-0000-00000000000000aa\ta\\t\t\t\tS:",
            LineFault::Name(NameFault::BadByte {
                part: NamePart::Dataset,
                at: 1,
            }),
        ),
    ] {
        assert_eq!(rt; fault_of(rt.alloc(), text)?, Some(fault), "{text:?}");
    }
    Ok(())
}

const FIRST: &str = "2024-01-05T10:00:00.000Z-0000-00000000000000aa";

const SECOND: &str = "2024-01-05T10:00:00.000Z-0001-00000000000000aa";

const THIRD: &str = "2024-01-05T10:00:01.000Z-0000-0000000000000Zaa";

fn field(alloc: Global, row: &str) -> Result<Field, Fail>
    ensures { IfOk result AreNames }
{
    Ok(Field::make(alloc, "notes", row, "note")?)
}

fn message(alloc: Global, stamp: &str, row: &str, value: &str) -> Result<Message, Fail>
    ensures { IfOk result IsMessage }
{
    let value = Txt::from_text(alloc, value)?;
    Ok(Message {
        stamp: Stamp::parse(stamp.as_bytes())?,
        field: field(alloc, row)?,
        value: Value::from_text(alloc, &value)?,
    })
}

/// A message by its timestamp, row and value.
type Told = (&'static str, &'static str, &'static str);

fn told(alloc: Global, of: Told) -> Result<Message, Fail>
    ensures { IfOk result IsMessage }
{
    message(alloc, of.0, of.1, of.2)
}

/// A log that one message was added to.
fn log_of(alloc: Global, one: Told) -> Result<Log, Fail>
    ensures { IfOk result (λ l. l.spent ≡ false) }
{
    let mut log = Log::new(alloc);
    log.add(told(alloc, one)?)?;
    Ok(log)
}

/// How many messages of a batch were new and how many fields it changed, as a copy of what was told of it says.
fn counts_of(alloc: Global, joined: &Joined) -> Result<(usize, usize), Fail> {
    let joined = joined.copy(alloc)?;
    Ok((joined.added, joined.changed.len()))
}

/// Joins a batch of two, and says how many were new and how many fields changed.
fn join_two(alloc: Global, log: &mut Log, two: Told, three: Told) -> Result<(usize, usize), Fail>
    requires { log.old.spent ≡ false }
    ensures { OnOk result (log.new.spent ≡ false) }
{
    let batch = [told(alloc, two)?, told(alloc, three)?];
    let joined = log.join(&batch)?;
    counts_of(alloc, &joined)
}

/// A copy of a message.
fn copied(alloc: Global, of: Told) -> Result<Message, Fail>
    ensures { IfOk result IsMessage }
{
    let message = told(alloc, of)?;
    Ok(message.copy()?)
}

/// Whether a message with the timestamp of the first one is new.
fn is_new(alloc: Global, log: &mut Log, one: Told) -> Result<bool, Fail>
    requires { log.old.spent ≡ false }
{
    Ok(log.add(copied(alloc, (one.0, "t", "N:7"))?)?)
}

/// Whether these are the lines of the latest messages, all in one piece.
fn gives(latest: &mut LatestMessages, lines: &str) -> Result<bool, Fail>
    requires { latest.old.spent ≡ false }
{
    latest.tidy()?;
    let mut left = latest.lines_by_field();
    let Some(text) = left.next_piece()? else {
        return Ok(false);
    };
    Ok(text.as_str() == lines && left.next_piece()?.is_none())
}

/// Adds a message to the latest ones.
fn adds(alloc: Global, latest: &mut LatestMessages, one: Told) -> Result<(), Fail>
    requires { latest.old.spent ≡ false }
    ensures { OnOk result (latest.new.spent ≡ false) }
{
    latest.add(told(alloc, one)?)?;
    Ok(())
}

/// Whether three messages, one after the other, leave these lines.
fn leaves(alloc: Global, messages: (Told, Told, Told), lines: &str) -> Result<bool, Fail> {
    let mut latest = LatestMessages::new(alloc);
    adds(alloc, &mut latest, messages.0)?;
    adds(alloc, &mut latest, messages.1)?;
    adds(alloc, &mut latest, messages.2)?;
    gives(&mut latest, lines)
}

/// Whether a log has these lines.
fn has_lines(log: &Log, lines: &str) -> Result<bool, Fail>
    requires { log.now.spent ≡ false }
{
    let text = log.field_lines()?;
    Ok(text.as_str() == lines)
}

/// One message is added, then a batch of two is joined: how many were new, how many fields changed, and the lines.
fn tells(
    alloc: Global,
    messages: (Told, Told, Told),
    added: usize,
    changed: usize,
    lines: &str,
) -> Result<bool, Fail> {
    let mut log = log_of(alloc, messages.0)?;
    let counts = join_two(alloc, &mut log, messages.1, messages.2)?;
    let is_right = counts == (added, changed) && has_lines(&log, lines)?;
    Ok(is_right && leaves(alloc, messages, lines)? && !is_new(alloc, &mut log, messages.0)?)
}

/// Messages, of which the first is added and the other two are then joined as a batch; how many of the two are new, how many fields they
/// change, and the lines.
const JOINS: [((Told, Told, Told), usize, usize, &str); 5] = [
    // the greatest timestamp wins in whatever order the messages come
    (
        (
            (FIRST, "r", "N:1"),
            (THIRD, "r", "N:3"),
            (SECOND, "r", "N:2"),
        ),
        2,
        1,
        "2024-01-05T10:00:01.000Z-0000-0000000000000Zaa\tnotes\tr\tnote\tN:3\n",
    ),
    (
        (
            (FIRST, "r", "N:1"),
            (SECOND, "r", "N:2"),
            (THIRD, "r", "N:3"),
        ),
        2,
        1,
        "2024-01-05T10:00:01.000Z-0000-0000000000000Zaa\tnotes\tr\tnote\tN:3\n",
    ),
    // an older message is kept and changes no field
    (
        (
            (THIRD, "r", "N:3"),
            (SECOND, "r", "N:2"),
            (FIRST, "r", "N:1"),
        ),
        2,
        0,
        "2024-01-05T10:00:01.000Z-0000-0000000000000Zaa\tnotes\tr\tnote\tN:3\n",
    ),
    // of one timestamp the first message stays, whatever the others hold
    (
        (
            (FIRST, "r", "N:1"),
            (FIRST, "r", "N:9"),
            (FIRST, "s", "N:9"),
        ),
        0,
        0,
        "2024-01-05T10:00:00.000Z-0000-00000000000000aa\tnotes\tr\tnote\tN:1\n",
    ),
    // also inside a batch; the fields come in their order
    (
        (
            (FIRST, "s", "N:1"),
            (SECOND, "r", "S:two"),
            (SECOND, "s", "N:3"),
        ),
        1,
        1,
        "2024-01-05T10:00:00.000Z-0001-00000000000000aa\tnotes\tr\tnote\tS:two\n2024-01-05T10:00:00.000Z-0000-00000000000000aa\tnotes\ts\tnote\tN:1\n",
    ),
];

#[test]
fn joins(rt: HostRuntime) -> Result<(), Fail> {
    for (messages, added, changed, lines) in JOINS {
        assert!(rt;
            tells(rt.alloc(), messages, added, changed, lines)?,
            "{lines}"
        );
    }
    Ok(())
}

/// The last timestamp of a log, the number of a field, where that is its value, and whether the field has a latest message.
type State = (Option<Stamp>, Option<i64>, bool);

fn state_of(log: &Log, row: &Field) -> State
    requires { log.now.spent ≡ false }
{
    let number = match log.value(row) {
        Some(Value::Number(number)) => Some(*number),
        _ => None,
    };
    (log.last(), number, log.winner(row).is_some())
}

/// Joins a batch of two, and says whether this field is among those that changed.
fn changes(alloc: Global, log: &mut Log, row: &Field) -> Result<bool, Fail>
    requires { log.old.spent ≡ false }
    ensures { OnOk result (log.new.spent ≡ false) }
{
    let batch = [
        message(alloc, SECOND, "r", "N:2")?,
        message(alloc, FIRST, "r", "N:1")?,
    ];
    let joined = log.join(&batch)?;
    Ok(joined.changed.as_slice().contains(row))
}

/// What a log tells of a field before and after that batch, and whether the batch changed it.
fn states_of(alloc: Global, log: &mut Log, row: &str) -> Result<(State, bool, State), Fail>
    requires { log.old.spent ≡ false }
    ensures { OnOk result (log.new.spent ≡ false) }
{
    let row = field(alloc, row)?;
    let before = state_of(log, &row);
    let changed = changes(alloc, log, &row)?;
    Ok((before, changed, state_of(log, &row)))
}

/// Whether a field of this row has a latest message.
fn has_row(alloc: Global, log: &Log, row: &str) -> Result<bool, Fail>
    requires { log.now.spent ≡ false }
{
    let row = field(alloc, row)?;
    Ok(log.winner(&row).is_some())
}

/// How many messages of a log come after a text.
fn count_after(log: &Log, text: &str) -> Result<usize, Fail>
    requires { log.now.spent ≡ false }
{
    let found = log.since(text.as_bytes())?;
    Ok(found.len())
}

#[test]
fn answers(rt: HostRuntime) -> Result<(), Fail> {
    let last = Stamp::parse(SECOND.as_bytes())?;
    let mut log = Log::new(rt.alloc());
    let (before, changed, after) = states_of(rt.alloc(), &mut log, "r")?;
    assert_eq!(rt; before, (None, None, false));
    assert!(rt; changed);
    assert_eq!(rt; after, (Some(last), Some(2), true));
    for (text, count) in [
        ("", 2),
        (FIRST, 1),
        (SECOND, 0),
        ("2024-01-05T10:00:00.000Z-0000-1", 1),
    ] {
        assert_eq!(rt; count_after(&log, text)?, count, "{text}");
    }
    assert!(rt; !has_row(rt.alloc(), &log, "s")?);
    Ok(())
}

/// So many writes of one field that the older ones are let go more than once, the latest in the middle.
#[test]
fn lets_go(rt: HostRuntime) -> Result<(), Fail> {
    let alloc = rt.alloc();
    let mut latest = LatestMessages::new(alloc);
    for millis in 0..5000 {
        let message = message(alloc, FIRST, "r", "N:1")?;
        let stamp = Stamp {
            millis: millis * 7 % 5000,
            ..message.stamp
        };
        if latest.add(Message { stamp, ..message }).is_err() {
            assert!(rt; latest.is_spent());
            return Ok(());
        }
    }
    let lines = "1970-01-01T00:00:04.999Z-0000-00000000000000aa\tnotes\tr\tnote\tN:1\n";
    assert!(rt; gives(&mut latest, lines)?);
    Ok(())
}

/// Lines by field, by bytes. Their names have as many bytes as a merge keeps beside a message, one less and one more: 16 of a dataset and a
/// column, 48 of a row. One has escapes.
const BY_FIELD: [&str; 15] = [
    "2024-01-05T10:00:00.000Z-0000-00000000000000aa\tnnnnnnnnnnnnnnn\tr\tnote\tN:0",
    "2024-01-05T10:00:00.001Z-0000-00000000000000aa\tnnnnnnnnnnnnnnnn\tr\tnote\tN:1",
    "2024-01-05T10:00:00.002Z-0000-00000000000000aa\tnnnnnnnnnnnnnnnnn\tr\tnote\tN:2",
    "2024-01-05T10:00:00.003Z-0000-00000000000000aa\tnnnnnnnnnnnnnnnn\u{e9}\tr\tnote\tN:3",
    "2024-01-05T10:00:00.004Z-0000-00000000000000aa\tnnnnnnnnnnnnnnn\u{e9}\tr\tnote\tN:4",
    "2024-01-05T10:00:00.005Z-0000-00000000000000aa\tnotes\tr\tnote\tN:5",
    "2024-01-05T10:00:00.014Z-0000-00000000000000aa\tnotes\tr\\\\s\tnote\tS:a\\tb",
    "2024-01-05T10:00:00.006Z-0000-00000000000000aa\tnotes\trrrrrrrrrrrrrrrr\tnote\tN:6",
    "2024-01-05T10:00:00.007Z-0000-00000000000000aa\tnotes\trrrrrrrrrrrrrrrrr\tnote\tN:7",
    "2024-01-05T10:00:00.008Z-0000-00000000000000aa\tnotes\trrrrrrrrrrrrrrrrrrrrrrrrrrrrrrrrrrrrrrrrrrrrrrr\tnote\tN:8",
    "2024-01-05T10:00:00.009Z-0000-00000000000000aa\tnotes\trrrrrrrrrrrrrrrrrrrrrrrrrrrrrrrrrrrrrrrrrrrrrrrr\tcccccccccccccccc\tN:9",
    "2024-01-05T10:00:00.010Z-0000-00000000000000aa\tnotes\trrrrrrrrrrrrrrrrrrrrrrrrrrrrrrrrrrrrrrrrrrrrrrrr\tccccccccccccccccc\tN:10",
    "2024-01-05T10:00:00.011Z-0000-00000000000000aa\tnotes\trrrrrrrrrrrrrrrrrrrrrrrrrrrrrrrrrrrrrrrrrrrrrrrr\tnote\tN:11",
    "2024-01-05T10:00:00.012Z-0000-00000000000000aa\tnotes\trrrrrrrrrrrrrrrrrrrrrrrrrrrrrrrrrrrrrrrrrrrrrrrrr\tnote\tN:12",
    "2024-01-05T10:00:00.013Z-0000-00000000000000aa\tnotes\trrrrrrrrrrrrrrrrrrrrrrrrrrrrrrrrrrrrrrrrrrrrrrr\u{e9}\tnote\tN:13",
];

/// Adds the message of a line to the latest ones.
fn adds_line(latest: &mut LatestMessages, line: &str) -> Result<(), Fail>
    requires { latest.old.spent ≡ false }
    ensures { OnOk result (latest.new.spent ≡ false) }
{
    latest.add_line(line)?;
    Ok(())
}

/// Lines that come from the last to the first, half of them again, are given by field.
#[test]
fn orders_names_of_each_length(rt: HostRuntime) -> Result<(), Fail> {
    let alloc = rt.alloc();
    let mut latest = LatestMessages::new(alloc);
    let mut lines = String::new(alloc);
    for place in 0..BY_FIELD.len() {
        adds_line(&mut latest, BY_FIELD[BY_FIELD.len() - 1 - place])?;
        adds_line(&mut latest, BY_FIELD[BY_FIELD.len() - 1 - place / 2])?;
        lines.push_str(BY_FIELD[place])?;
        lines.push_str("\n")?;
    }
    assert!(rt; gives(&mut latest, lines.as_str())?);
    Ok(())
}

/// Whether a message that enters is new, and whether it is then the latest of its field.
fn enters(alloc: Global, log: &mut Log, one: Told) -> Result<(bool, bool), Fail>
    requires { log.old.spent ≡ false }
    ensures { OnOk result (log.new.spent ≡ false) }
{
    let entered = log.enter(told(alloc, one)?)?;
    Ok((entered.fresh, entered.latest))
}

/// The answers to four messages that enter a log one after the other.
fn entered(alloc: Global) -> Result<[(bool, bool); 4], Fail> {
    let mut log = Log::new(alloc);
    Ok([
        enters(alloc, &mut log, (SECOND, "r", "N:2"))?,
        enters(alloc, &mut log, (FIRST, "r", "N:1"))?,
        enters(alloc, &mut log, (SECOND, "s", "N:9"))?,
        enters(alloc, &mut log, (THIRD, "r", "N:3"))?,
    ])
}

#[test]
fn tells_what_enters(rt: HostRuntime) -> Result<(), Fail> {
    let wanted = [(true, true), (true, false), (false, false), (true, true)];
    assert_eq!(rt; entered(rt.alloc())?, wanted);
    Ok(())
}
