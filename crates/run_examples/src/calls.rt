//! Calls of `command_lines` and `device_core` that no run shows: copies, and the reply to a refusal that no line brings about.
use command_lines::{
    Command, Reply, added_reply, faulty_reply, read_command, refusal_reply, reply_text,
};
use device_core::{EditFault, LineRefusal, RowName, Write, WriteValue};
use field_values::{NoMemory, Txt, Value};
use std::alloc::Global;
use std::test::Fail;

/// A line of each kind of command, of edit and of change, with `>` for a TAB.
const LINES: &str = r#"set>accounts>bank>name>S:Bank
account-add>bank>Bank>0
account-rename>bank>Bank
account-offbudget>bank>1
account-reopen>bank
account-close>bank
group-add>->Usual>0
group-rename>g>Usual
group-delete>g
category-add>food>g>Food
category-rename>food>Food
category-move>food>g
category-delete>food
category-delete>food>fun
payee-add>->Shop
payee-rename>p>Shop
payee-delete>p
payee-merge>p>q>r
tx-add>->bank>20240102>-100>p>->bread
budget>2024-01>food>300
carryover>2024-01>food>1
hold>2024-01>5
move>2024-01>food>fun>-5
track>2024-01>food>300
track-carryover>2024-01>food>0
note>food>weekly
tx-set>t>date>20240102
tx-set>t>amount>-100
tx-set>t>account>bank
tx-set>t>payee>p
tx-set>t>category>-
tx-set>t>notes>bread
tx-set>t>cleared>1
tx-set>t>schedule>s
tx-delete>t
split>t>-60>food>-40>-
transfer>bank>save>20240102>100>saved
rule-add>->pre>or>[]>[{"op":"link-schedule","value":"s"}]
rule-delete>r
rules-run>t>u
schedule-add>->Rent>bank>->-90000>{"start":"2024-01-31"}
schedule-post>s
schedule-skip>s
schedule-delete>s
import>bank>date,amount
goals-apply>2024-01
receive>2024-01-05T10:00:00.000Z-0000-00000000000000bb>accounts>bank>name>N:7
undo
redo
sync
fields
messages>2024
value>accounts>bank>name
trie
balance>bank
register>bank
cell>2024-01>to-budget
sheet>2024-01
broken
schedule-status>s>20240102
goals>2024-01
track-cell>2024-01>total-saved
track-sheet>2024-01"#;

/// What a command is printed as.
fn text_of(alloc: Global, command: &Command) -> Result<String, Fail> {
    Ok(format!(in alloc; "{command:?}")?)
}

/// What a copy of a command is printed as.
fn copied(alloc: Global, command: &Command) -> Result<String, Fail> {
    let copy = command.copy(alloc)?;
    text_of(alloc, &copy)
}

/// Whether a copy of a command is printed as it is itself.
fn copies(alloc: Global, command: &Command) -> Result<bool, Fail> {
    let copied = copied(alloc, command)?;
    let text = text_of(alloc, command)?;
    Ok(text.as_str() == copied.as_str())
}

/// Whether a copy of the command of a line is printed as it is itself.
fn copies_line(alloc: Global, line: &Txt) -> Result<bool, Fail> {
    let command = read_command(alloc, line)?;
    copies(alloc, &command)
}

/// The same of a line with `>` for a TAB.
fn copies_row(alloc: Global, row: &str) -> Result<bool, Fail> {
    let line = Txt::new(row.replace(alloc, '>', "\t")?);
    copies_line(alloc, &line)
}

#[test]
fn copies_commands(rt: HostRuntime) -> Result<(), Fail> {
    for row in LINES.split('\n') {
        let copies = copies_row(rt.alloc(), row)?;
        assert!(rt; copies, "{row}");
    }
    Ok(())
}

/// The text of a copy of a reply.
fn copy_text(alloc: Global, reply: &Reply) -> Result<Txt, NoMemory> {
    let copy = reply.copy(alloc)?;
    reply_text(alloc, &copy)
}

/// The text of a copy of the reply that says how many were added.
fn added_text(alloc: Global, count: u64) -> Result<Txt, NoMemory> {
    let reply = added_reply(alloc, count)?;
    copy_text(alloc, &reply)
}

/// The text of a copy of the reply that says which word is faulty.
fn faulty_text(alloc: Global, word: u32) -> Result<Txt, NoMemory> {
    let reply = faulty_reply(alloc, word)?;
    copy_text(alloc, &reply)
}

#[test]
fn copies_replies(rt: HostRuntime) -> Result<(), Fail> {
    let text = added_text(rt.alloc(), 7)?;
    assert_eq!(rt; text.as_str(), "ok 1\nadded 7\n");
    Ok(())
}

#[test]
fn copies_faulty_replies(rt: HostRuntime) -> Result<(), Fail> {
    let text = faulty_text(rt.alloc(), 4)?;
    assert_eq!(rt; text.as_str(), "refused E30 bad-command 4\n");
    Ok(())
}

/// The text of the reply to a refusal.
fn refusal_text(alloc: Global, refusal: &LineRefusal) -> Result<Txt, NoMemory> {
    let reply = refusal_reply(alloc, refusal)?;
    reply_text(alloc, &reply)
}

/// The text of the reply to an edit of too many writes.
fn writes_text(alloc: Global) -> Result<Txt, NoMemory> {
    let refusal = LineRefusal::Edit(EditFault::TooManyWrites { n: 65_537 });
    refusal_text(alloc, &refusal)
}

#[test]
fn tells_how_many_writes(rt: HostRuntime) -> Result<(), Fail> {
    let text = writes_text(rt.alloc())?;
    assert_eq!(rt; text.as_str(), "refused E18 too-many-writes 65537\n");
    Ok(())
}

/// A refusal of an id.
fn bad_id(alloc: Global, id: &str) -> Result<LineRefusal, NoMemory> {
    let id = Txt::from_text(alloc, id)?;
    Ok(LineRefusal::Edit(EditFault::BadId { id }))
}

/// The text of the reply to a copy of a refusal.
fn copied_refusal_text(alloc: Global, refusal: &LineRefusal) -> Result<Txt, NoMemory> {
    let copy = refusal.copy()?;
    refusal_text(alloc, &copy)
}

/// The text of the reply to a copy of a refusal of an id.
fn bad_id_text(alloc: Global, id: &str) -> Result<Txt, NoMemory> {
    let refusal = bad_id(alloc, id)?;
    copied_refusal_text(alloc, &refusal)
}

#[test]
fn copies_refusals(rt: HostRuntime) -> Result<(), Fail> {
    let text = bad_id_text(rt.alloc(), "a b")?;
    assert_eq!(rt; text.as_str(), "refused E1 bad-id a b\n");
    Ok(())
}

/// A write of a number.
fn write_of(alloc: Global, number: i64) -> Result<Write, NoMemory> {
    Ok(Write {
        dataset: Txt::from_text(alloc, "categories")?,
        row: RowName::Given(Txt::from_text(alloc, "food")?),
        column: Txt::from_text(alloc, "name")?,
        value: WriteValue::Plain(Value::Number(number)),
    })
}

/// The number that a write writes, where it writes one.
fn number_in(write: &Write) -> Option<i64> {
    match &write.value {
        WriteValue::Plain(Value::Number(number)) => Some(*number),
        _ => None,
    }
}

/// The number that a copy of a write writes, where it writes one.
fn copied_number(write: &Write) -> Result<Option<i64>, NoMemory> {
    let copy = write.copy()?;
    Ok(number_in(&copy))
}

/// The number that a copy of a write of it writes, where it writes one.
fn number_again(alloc: Global, number: i64) -> Result<Option<i64>, NoMemory> {
    let write = write_of(alloc, number)?;
    copied_number(&write)
}

#[test]
fn copies_writes(rt: HostRuntime) -> Result<(), Fail> {
    let number = number_again(rt.alloc(), -7)?;
    assert_eq!(rt; number, Some(-7));
    Ok(())
}
