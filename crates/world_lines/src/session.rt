//! A world that takes one line after the other.
ghost use Rattle.std.specs.Prelude.{◌≡◌, ◌+◌, ◌-◌, ◌<◌, ◌≤◌, ◌^◌, IfOk, OnErr, OnOk, None, true, false, length};
ghost use Rattle.field_merge.specs.Lines.{parts};
ghost use Rattle.command_lines.specs.Commands.{longest_line};
ghost use Rattle.world_lines.specs.Session.{CanGoOn, IsPlayed, answered, opened, played, state_of, with_words};

use crate::command::WorldCommand;
use crate::lines::{begins, count_devices, read_world_line};
use crate::nodes::begin;
use crate::obeying::obey;
use crate::words::cut_words;
use command_lines::{Command, CommandFault, LONGEST_LINE, Reply, faulty_reply};
use field_values::{Items, NoMemory, Steps, Txt};
use std::alloc::Global;
use std::marker::Model;
use std::sync::ledger::Ledger;
use sync_world::{Event, World, WorldEdit};

/// The most lines of a session: so the numbers of requests and replies have 32 bits.
const MOST_LINES: u32 = 4_294_967_294;

/// The lines of a world, one after the other, and their replies.
///
/// A contract sees the world, if one has begun, and whether a want of memory has spoilt the session; then nothing may be asked of it.
#[derive(Drop)]
pub struct WorldSession {
    alloc: Global,
    world: Option<World>,
    /// How many lines were answered.
    lines: u32,
    spent: bool,
}

impl Model for WorldSession {
    ghost use Rattle.std.specs.Prelude.{◌≡◌, false};
    ghost use Rattle.world_lines.specs.Session.{CanGoOn, SessionState, state_of};

    ghost Value = { SessionState };

    ghost view = { λ s. record { world = state_of s.world; spent = s.spent } };

    ghost invariant = { λ s. s.spent ≡ false → CanGoOn s.lines s.world };
}

/// Lets go of an edit, which takes a case for each one, so nothing stands beside it here.
fn let_go_of_edit(_edit: WorldEdit) {}

/// Lets go of a text.
fn let_go_of_text(_text: Txt) {}

/// Lets go of an event.
fn let_go_of_event(event: Event) {
    match event {
        Event::Edit {
            device: _,
            edit,
            reading: _,
        } => let_go_of_edit(edit),
        Event::Stop {
            device: _,
            edit,
            reading: _,
            whole: _,
        } => let_go_of_edit(edit),
        Event::Ask { device: _, since } => let_go_of_text(since),
        Event::Serve { request: _ } => {}
        Event::Take {
            device: _,
            reply: _,
            reading: _,
        } => {}
        Event::Halt {
            request: _,
            whole: _,
        } => {}
    }
}

/// Lets go of a line that only reads, in the same way.
fn let_go_of_question(_command: Command) {}

/// Lets go of a command.
fn let_go(command: WorldCommand) {
    match command {
        WorldCommand::Happens(event) => let_go_of_event(event),
        WorldCommand::Show { device: _, command } => let_go_of_question(command),
        WorldCommand::Equal { one: _, other: _ } => {}
    }
}

/// Answers the words of a line in a world that has begun, before which so many lines were answered.
fn play<G: Ledger>(
    alloc: Global,
    world: &mut World,
    steps: &mut Steps<G>,
    line: &str,
    words: &[Txt],
    before: u32,
) -> Result<Reply, NoMemory>
    requires played { IsPlayed before world.old }
    requires few { before < 2 ^ 32 - 2 }
    requires words { words.now ≡ parts line.now }
    requires short { length line.now ≤ longest_line }
    ensures ok { IfOk result (λ reply. played world.old.world words.now ≡ (world.new.world, reply)) }
    ensures played { OnOk result (IsPlayed (before + 1) world.new) }
{
    match read_world_line(alloc, line, words) {
        Ok(command) => {
            let reply = obey(alloc, world, steps, &command, before);
            let_go(command);
            reply
        }
        Err(CommandFault::BadCommand { word }) => faulty_reply(alloc, word),
        Err(CommandFault::NoMemory) => Err(NoMemory),
    }
}

/// Answers the words of a line before a world has begun, and the world where one begins with it.
fn open(alloc: Global, words: &[Txt]) -> Result<(Option<World>, Reply), NoMemory>
    ensures ok { IfOk result (λ p. opened words.now ≡ (state_of p.0, p.1)) }
    ensures begun { IfOk result (λ p. CanGoOn 0 p.0) }
{
    if !begins(words) {
        return Ok((None, faulty_reply(alloc, 0)?));
    }
    match count_devices(words) {
        Ok(count) => {
            let lines = Items::new(Vec::new(alloc));
            Ok((Some(begin(alloc, count)?), Reply::Done { lines }))
        }
        Err(CommandFault::BadCommand { word }) => Ok((None, faulty_reply(alloc, word)?)),
        Err(CommandFault::NoMemory) => Err(NoMemory),
    }
}

/// Answers the words of a line, before which so many lines were answered.
fn answer_words<G: Ledger>(
    alloc: Global,
    world: &mut Option<World>,
    steps: &mut Steps<G>,
    line: &str,
    words: &[Txt],
    before: u32,
) -> Result<Reply, NoMemory>
    requires stands { CanGoOn before world.old }
    requires few { before < 2 ^ 32 - 2 }
    requires words { words.now ≡ parts line.now }
    requires short { length line.now ≤ longest_line }
    ensures ok { IfOk result (λ reply. with_words (state_of world.old) words.now ≡ (state_of world.new, reply)) }
    ensures stands { OnOk result (CanGoOn (before + 1) world.new) }
{
    match world {
        Some(world) => play(alloc, world, steps, line, words, before),
        None => {
            let (begun, reply) = open(alloc, words)?;
            *world = begun;
            Ok(reply)
        }
    }
}

/// Answers a line, before which so many lines were answered.
fn answer_line<G: Ledger>(
    alloc: Global,
    world: &mut Option<World>,
    steps: &mut Steps<G>,
    line: &Txt,
    before: u32,
) -> Result<Reply, NoMemory>
    requires stands { CanGoOn before world.old }
    requires few { before < 2 ^ 32 - 2 }
    ensures ok { IfOk result (λ reply. answered (state_of world.old) line.now ≡ (state_of world.new, reply)) }
    ensures stands { OnOk result (CanGoOn (before + 1) world.new) }
{
    if line.bytes().len() > LONGEST_LINE {
        return faulty_reply(alloc, 0);
    }
    let words = cut_words(alloc, line.as_str())?;
    answer_words(alloc, world, steps, line.as_str(), words.as_slice(), before)
}

impl WorldSession {
    /// A session in which no world has begun.
    pub fn new(alloc: Global) -> WorldSession
        ensures { result ≡ record { world = None; spent = false } }
    {
        WorldSession {
            alloc,
            world: None,
            lines: 0,
            spent: false,
        }
    }

    /// Answers a line, which stands without its end. What each line asks and what it is replied, the list of lines in docs/FORMATS.md says.
    ///
    /// # Errors
    ///
    /// `NoMemory`, after which the session is spent. It is answered too where 4,294,967,294 lines were answered before.
    pub fn answer<G: Ledger>(&mut self, line: &Txt, steps: &mut Steps<G>) -> Result<Reply, NoMemory>
        requires live { self.old.spent ≡ false }
        ensures ok { IfOk result (λ reply. answered self.old.world line.now ≡ (self.new.world, reply)) }
        ensures live { OnOk result (self.new.spent ≡ false) }
        ensures spent { OnErr result (self.new.spent ≡ true) }
    {
        self.spent = true;
        if self.lines >= MOST_LINES {
            return Err(NoMemory);
        }
        let reply = answer_line(self.alloc, &mut self.world, steps, line, self.lines)?;
        self.lines += 1;
        self.spent = false;
        Ok(reply)
    }
}
