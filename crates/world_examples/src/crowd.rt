//! A crowd: sixteen devices and 5,000 events that a small generator of numbers chooses, over a network that loses, repeats and delays, with
//! stops of devices and of the server. Then each device asks and takes until nothing is new. An edit writes the number of its event, so the
//! messages of the end show whose edits are there.
ghost use Rattle.std.specs.Prelude.{◌≡◌, ◌≤◌, OnOk, false};

use crate::chance::Draws;
use crate::choices::{Choice, DEVICES, T0, line_of};
use crate::told::{Told, first_line, note, numbers_in};
use command_lines::{Reply, reply_text};
use field_values::{Steps, Txt};
use std::alloc::Global;
use std::marker::Brand;
use std::sync::ledger::{Blank, Ledger};
use std::test::Fail;
use world_lines::WorldSession;

/// How many events there are, counted from 1.
const EVENTS: u32 = 5000;

/// What the first device makes before them: an account, a category, and ten transactions of nothing. A `>` is a TAB.
const HOUSE: &str = "account-add>bank>Bank>0
group-add>g>Usual>0
category-add>food>g>Food
tx-add>t0>bank>20240102>0>->food>
tx-add>t1>bank>20240102>0>->food>
tx-add>t2>bank>20240102>0>->food>
tx-add>t3>bank>20240102>0>->food>
tx-add>t4>bank>20240102>0>->food>
tx-add>t5>bank>20240102>0>->food>
tx-add>t6>bank>20240102>0>->food>
tx-add>t7>bank>20240102>0>->food>
tx-add>t8>bank>20240102>0>->food>
tx-add>t9>bank>20240102>0>->food>";

/// What all devices are asked at the end.
const QUESTIONS: [&str; 4] = ["messages\t0", "fields", "trie", "sheet\t2024-01"];

/// What is there at the end.
#[derive(Clone, Copy, Debug, PartialEq, Eq)]
struct End {
    /// How many messages were new in the last round.
    late: u64,
    /// The first device that answers otherwise than the first one, or 0.
    other: u32,
    /// How many messages there are, and how many writes were told.
    messages: u64,
    writes: u64,
    /// Whether the messages write the numbers of the edits that were kept, and no others.
    is_kept: bool,
    /// What the ten transactions add up to, and what the cell of their category tells.
    sum: u64,
    cell: u64,
    /// Whether some event was refused.
    is_refused: bool,
}

/// The reply to a line.
fn answer<G: Ledger>(
    session: &mut WorldSession,
    steps: &mut Steps<G>,
    line: String,
) -> Result<Reply, Fail>
    requires { session.old.spent ≡ false }
    ensures { OnOk result (session.new.spent ≡ false) }
{
    Ok(session.answer(&Txt::new(line), steps)?)
}

/// Tells a line, which writes this number where it is done, and notes what is told of it.
fn tell<G: Ledger>(
    session: &mut WorldSession,
    steps: &mut Steps<G>,
    told: &mut Told,
    number: Option<u32>,
    line: String,
) -> Result<(), Fail>
    requires { session.old.spent ≡ false }
    ensures { OnOk result (session.new.spent ≡ false) }
{
    let reply = answer(session, steps, line)?;
    note(told, number, first_line(&reply)?)
}

/// The first device makes the house.
fn make_house<G: Ledger>(
    alloc: Global,
    session: &mut WorldSession,
    steps: &mut Steps<G>,
    told: &mut Told,
) -> Result<(), Fail>
    requires { session.old.spent ≡ false }
    ensures { OnOk result (session.new.spent ≡ false) }
{
    'rows: for row in HOUSE.split('\n') {
        let edit = row.replace(alloc, '>', "\t")?;
        let edit = edit.as_str();
        let line = format!(in alloc; "edit\t1\t{T0}\t{edit}")?;
        tell(session, steps, told, None, line)?;
    }
    Ok(())
}

/// A device asks for all that the server has.
fn ask<G: Ledger>(
    alloc: Global,
    session: &mut WorldSession,
    steps: &mut Steps<G>,
    told: &mut Told,
    device: u32,
) -> Result<(), Fail>
    requires { session.old.spent ≡ false }
    ensures { OnOk result (session.new.spent ≡ false) }
{
    let line = format!(in alloc; "ask\t{device}\t0")?;
    tell(session, steps, told, None, line)
}

/// The server answers a request.
fn serve<G: Ledger>(
    alloc: Global,
    session: &mut WorldSession,
    steps: &mut Steps<G>,
    told: &mut Told,
    request: u32,
) -> Result<(), Fail>
    requires { session.old.spent ≡ false }
    ensures { OnOk result (session.new.spent ≡ false) }
{
    let line = format!(in alloc; "serve\t{request}")?;
    tell(session, steps, told, None, line)
}

/// A device asks for all that the server has, is served, and takes it, at a reading of its clock.
fn exchange<G: Ledger>(
    alloc: Global,
    session: &mut WorldSession,
    steps: &mut Steps<G>,
    told: &mut Told,
    device: u32,
    reading: u64,
) -> Result<(), Fail>
    requires { session.old.spent ≡ false }
    ensures { OnOk result (session.new.spent ≡ false) }
{
    let request = told.requests;
    let reply = told.replies;
    ask(alloc, session, steps, told, device)?;
    serve(alloc, session, steps, told, request)?;
    let take = format!(in alloc; "take\t{device}\t{reply}\t{reading}")?;
    tell(session, steps, told, None, take)
}

/// Each device does so in turn. Tells how many messages were new.
fn round<G: Ledger>(
    alloc: Global,
    session: &mut WorldSession,
    steps: &mut Steps<G>,
    told: &mut Told,
    reading: u64,
) -> Result<u64, Fail>
    requires { session.old.spent ≡ false }
    ensures { OnOk result (session.new.spent ≡ false) }
{
    told.received = 0;
    for device in 1..DEVICES + 1 {
        exchange(alloc, session, steps, told, device, reading)?;
    }
    Ok(told.received)
}

/// Lets an event happen, if it may.
fn happen<G: Ledger>(
    alloc: Global,
    session: &mut WorldSession,
    steps: &mut Steps<G>,
    told: &mut Told,
    draws: &mut Draws,
    at: u32,
) -> Result<(), Fail>
    requires { session.old.spent ≡ false }
    ensures { OnOk result (session.new.spent ≡ false) }
{
    let choice = Choice::of(draws.below(100));
    let line = line_of(alloc, draws, choice, at, told.requests, told.replies)?;
    let number = if choice.writes_number() {
        Some(at)
    } else {
        None
    };
    tell(session, steps, told, number, line)
}

/// Lets all events happen.
fn play<G: Ledger>(
    alloc: Global,
    session: &mut WorldSession,
    steps: &mut Steps<G>,
    told: &mut Told,
) -> Result<(), Fail>
    requires { session.old.spent ≡ false }
    ensures { OnOk result (session.new.spent ≡ false) }
{
    let mut draws = Draws::new(1);
    for at in 1..EVENTS + 1 {
        happen(alloc, session, steps, told, &mut draws, at)?;
    }
    Ok(())
}

/// What a device answers to a line that only reads.
fn shown<G: Ledger>(
    alloc: Global,
    session: &mut WorldSession,
    steps: &mut Steps<G>,
    device: u32,
    question: &str,
) -> Result<Reply, Fail>
    requires { session.old.spent ≡ false }
    ensures { OnOk result (session.new.spent ≡ false) }
{
    let line = format!(in alloc; "show\t{device}\t{question}")?;
    answer(session, steps, line)
}

/// The text of that.
fn text_of<G: Ledger>(
    alloc: Global,
    session: &mut WorldSession,
    steps: &mut Steps<G>,
    device: u32,
    question: &str,
) -> Result<Txt, Fail>
    requires { session.old.spent ≡ false }
    ensures { OnOk result (session.new.spent ≡ false) }
{
    let reply = shown(alloc, session, steps, device, question)?;
    Ok(reply_text(alloc, &reply)?)
}

/// The number behind so many bytes of what a device tells first, or 0.
fn number_shown<G: Ledger>(
    alloc: Global,
    session: &mut WorldSession,
    steps: &mut Steps<G>,
    question: &str,
    before: &str,
) -> Result<u64, Fail>
    requires { session.old.spent ≡ false }
    ensures { OnOk result (session.new.spent ≡ false) }
{
    let reply = shown(alloc, session, steps, DEVICES, question)?;
    let number = first_line(&reply)?.strip_prefix(before).unwrap_or("");
    Ok(number.parse()?)
}

/// Whether a device answers a question so.
fn answers<G: Ledger>(
    alloc: Global,
    session: &mut WorldSession,
    steps: &mut Steps<G>,
    device: u32,
    question: &str,
    answer: &Txt,
) -> Result<bool, Fail>
    requires { session.old.spent ≡ false }
    ensures { OnOk result (session.new.spent ≡ false) }
{
    Ok(text_of(alloc, session, steps, device, question)? == *answer)
}

/// The first device that answers a question otherwise than the first one, or 0.
fn other_to<G: Ledger>(
    alloc: Global,
    session: &mut WorldSession,
    steps: &mut Steps<G>,
    question: &str,
) -> Result<u32, Fail>
    requires { session.old.spent ≡ false }
    ensures { OnOk result (session.new.spent ≡ false) }
{
    let first = text_of(alloc, session, steps, 1, question)?;
    for device in 2..DEVICES + 1 {
        if !answers(alloc, session, steps, device, question, &first)? {
            return Ok(device);
        }
    }
    Ok(0)
}

/// The first device that answers one of the questions otherwise than the first one, or 0.
fn other<G: Ledger>(
    alloc: Global,
    session: &mut WorldSession,
    steps: &mut Steps<G>,
) -> Result<u32, Fail>
    requires { session.old.spent ≡ false }
    ensures { OnOk result (session.new.spent ≡ false) }
{
    'questions: for question in QUESTIONS {
        let other = other_to(alloc, session, steps, question)?;
        if other != 0 {
            return Ok(other);
        }
    }
    Ok(0)
}

/// How many messages the last device has, and whether they write the numbers of the edits that were kept, and no others above 0.
fn messages<G: Ledger>(
    alloc: Global,
    session: &mut WorldSession,
    steps: &mut Steps<G>,
    told: &Told,
) -> Result<(u64, bool), Fail>
    requires { session.old.spent ≡ false }
    ensures { OnOk result (session.new.spent ≡ false) }
{
    match shown(alloc, session, steps, DEVICES, "messages\t0")? {
        Reply::Done { lines } => {
            let is_kept = numbers_in(alloc, lines.as_slice())? == told.kept;
            Ok((lines.len() as u64, is_kept))
        }
        Reply::Refused { .. } => Err(Fail::new("messages are told")),
    }
}

/// The amount of one of the ten transactions.
fn amount<G: Ledger>(
    alloc: Global,
    session: &mut WorldSession,
    steps: &mut Steps<G>,
    at: u32,
) -> Result<u64, Fail>
    requires { session.old.spent ≡ false }
    ensures { OnOk result (session.new.spent ≡ false) }
{
    let question = format!(in alloc; "value\ttransactions\tt{at}\tamount")?;
    number_shown(alloc, session, steps, question.as_str(), "N:")
}

/// What the amounts of the ten transactions add up to.
fn sum<G: Ledger>(
    alloc: Global,
    session: &mut WorldSession,
    steps: &mut Steps<G>,
) -> Result<u64, Fail>
    requires { session.old.spent ≡ false }
    ensures { OnOk result (session.new.spent ≡ false) }
{
    let mut sum: u64 = 0;
    for at in 0..10 {
        sum = sum.saturating_add(amount(alloc, session, steps, at)?);
    }
    Ok(sum)
}

/// What is there, where so many messages were new in the last round.
fn end_of<G: Ledger>(
    alloc: Global,
    session: &mut WorldSession,
    steps: &mut Steps<G>,
    told: &Told,
    late: u64,
) -> Result<End, Fail>
    requires { session.old.spent ≡ false }
{
    let (messages, is_kept) = messages(alloc, session, steps, told)?;
    Ok(End {
        late,
        other: other(alloc, session, steps)?,
        messages,
        writes: told.writes,
        is_kept,
        sum: sum(alloc, session, steps)?,
        cell: number_shown(alloc, session, steps, "cell\t2024-01\tsum-amount-food", "")?,
        is_refused: told.refused > 0,
    })
}

/// Begins a world with the house, which all devices have.
fn begin<G: Ledger>(
    alloc: Global,
    session: &mut WorldSession,
    steps: &mut Steps<G>,
    told: &mut Told,
) -> Result<(), Fail>
    requires { session.old.spent ≡ false }
    ensures { OnOk result (session.new.spent ≡ false) }
{
    let line = format!(in alloc; "devices\t{DEVICES}")?;
    answer(session, steps, line)?;
    make_house(alloc, session, steps, told)?;
    round(alloc, session, steps, told, T0)?;
    Ok(())
}

/// Plays the world, and tells how many messages were new in the last of the three rounds behind it. In the first one all comes to the server,
/// and in the second one to the devices.
fn settle<G: Ledger>(
    alloc: Global,
    session: &mut WorldSession,
    steps: &mut Steps<G>,
    told: &mut Told,
) -> Result<u64, Fail>
    requires { session.old.spent ≡ false }
    ensures { OnOk result (session.new.spent ≡ false) }
{
    begin(alloc, session, steps, told)?;
    play(alloc, session, steps, told)?;
    let after = T0 + 1_000_000;
    round(alloc, session, steps, told, after)?;
    round(alloc, session, steps, told, after)?;
    round(alloc, session, steps, told, after)
}

/// What is there behind it.
fn settled<G: Ledger>(
    alloc: Global,
    session: &mut WorldSession,
    steps: &mut Steps<G>,
) -> Result<End, Fail>
    requires { session.old.spent ≡ false }
{
    let mut told = Told::new(alloc);
    let late = settle(alloc, session, steps, &mut told)?;
    end_of(alloc, session, steps, &told, late)
}

/// The same of a world of its own.
fn played<G: Ledger>(blank: Blank, alloc: Global) -> Result<End, Fail>
    requires name { blank.name ≡ G.name }
    requires parts { blank.parts ≡ G.parts }
    requires some { 1 ≤ G.parts }
{
    let mut session = WorldSession::new(alloc);
    let mut steps = Steps::<G>::new(blank);
    settled(alloc, &mut session, &mut steps)
}

/// The same with a counter of steps that nobody reads.
fn uncounted(alloc: Global) -> Result<End, Fail> {
    played::<Brand>(Blank::new(1), alloc)
}

#[test]
fn crowd_agrees(rt: HostRuntime) -> Result<(), Fail> {
    let end = uncounted(rt.alloc())?;
    assert_eq!(rt; end.late, 0);
    assert_eq!(rt; end.other, 0);
    assert_eq!(rt; end.messages, end.writes);
    assert!(rt; end.is_kept);
    assert_eq!(rt; end.cell, end.sum);
    assert!(rt; end.is_refused);
    Ok(())
}
