//! Where a run of a world stands between two lines.
ghost use Rattle.std.specs.Prelude.{◌≡◌, ◌==◌, ◌∷◌, ◌++◌, [], ℕ, List, Option, false, IfOk, IfErr, OnOk};
ghost use Rattle.budget_ports.specs.Faults.{count_after};
ghost use Rattle.budget_top.specs.Lines.{whole_lines, all_lines};
ghost use Rattle.budget_top.specs.Stops.{step_status, stop_status};
ghost use Rattle.budget_top.specs.WorldSteps.{IsPlayed, played_kept, Stands, Ended, BreaksAs};

use crate::answer::{Answer, is_refusal};
use crate::begun::Begun;
use crate::input::line_length;
use crate::stop::Stop;
use crate::write::write_reply;
use budget_ports::Sink;
use command_lines::{Reply, faulty_reply, reply_text};
use field_values::{NoMemory, Steps, Txt, TxtFault};
use std::alloc::Global;
use std::sync::ledger::Ledger;
use world_lines::WorldSession;

/// A world, the line that has begun, and whether a line was refused.
#[derive(Drop)]
pub struct Play {
    pub session: WorldSession,
    pub line: Begun,
    pub bad: bool,
}

/// The reply to what was read of a line. A line that is too long or no UTF-8 is refused before the world sees it.
fn reply_to<G: Ledger>(
    alloc: Global,
    session: &mut WorldSession,
    steps: &mut Steps<G>,
    line: &Begun,
) -> Result<Reply, NoMemory>
    requires live { session.old.spent ≡ false }
    ensures ok { IfOk result (λ reply. played_kept session.old.world line.now ≡ (session.new.world, reply)) }
    ensures live { OnOk result (session.new.spent ≡ false) }
{
    let Some(bytes) = line.bytes() else {
        return faulty_reply(alloc, 0);
    };
    match Txt::make(alloc, bytes) {
        Ok(text) => session.answer(&text, steps),
        Err(TxtFault::NotUtf8 { .. }) => faulty_reply(alloc, 0),
        Err(TxtFault::NoMemory) => Err(NoMemory),
    }
}

/// The text of the reply to what was read of a line. Where memory runs out there is no reply, and the session is not to be used any
/// more.
fn answer_line<G: Ledger>(
    alloc: Global,
    session: &mut WorldSession,
    steps: &mut Steps<G>,
    line: &Begun,
) -> Result<Answer, NoMemory>
    requires live { session.old.spent ≡ false }
    ensures ok { IfOk result (λ a. IsPlayed (played_kept session.old.world line.now) session.new.world a.text a.refused) }
    ensures live { OnOk result (session.new.spent ≡ false) }
{
    let reply = reply_to(alloc, session, steps, line)?;
    let text = reply_text(alloc, &reply)?;
    Ok(Answer {
        text,
        refused: is_refusal(&reply),
    })
}

impl Play {
    /// No world yet, and nothing was read.
    pub fn new(alloc: Global) -> Play
        ensures stands { (entry : Option (List ℕ)) → Stands entry entry [] result }
        ensures live { result.session.spent ≡ false }
    {
        Play {
            session: WorldSession::new(alloc),
            line: Begun::new(alloc),
            bad: false,
        }
    }

    /// Ends the line that has begun: writes its reply, and hands it on with those before it where no other whole line was read.
    fn end_line<W: Sink, G: Ledger>(
        &mut self,
        alloc: Global,
        sink: &mut W,
        steps: &mut Steps<G>,
        is_last: bool,
    ) -> Result<(), Stop>
        requires live { self.old.session.spent ≡ false }
        ensures ok { OnOk result ((entry : Option (List ℕ)) (read : List ℕ) → Stands entry (W.taken sink.old) read self.old → Stands entry (W.taken sink.new) (read ++ 10 ∷ []) self.new) }
        ensures err { IfErr result (λ stop. (entry : Option (List ℕ)) (read : List ℕ) → Stands entry (W.taken sink.old) read self.old → BreaksAs stop entry (W.taken sink.new) (whole_lines (read ++ 10 ∷ []))) }
        ensures live { OnOk result (self.new.session.spent ≡ false) }
        ensures count { W.faults sink.new ≡ count_after (step_status stop_status result == 5) (W.faults sink.old) }
    {
        let answer = answer_line(alloc, &mut self.session, steps, &self.line)?;
        write_reply(sink, answer.text.bytes(), is_last)?;
        self.line.clear();
        self.bad |= answer.refused;
        Ok(())
    }

    /// Deals with the bytes that come next: answers each line that ends in them, and hands the replies on behind the last of them, so
    /// before more bytes are read.
    ///
    /// # Errors
    ///
    /// Why the run breaks off: memory ran out, or the sink failed at a reply. What was played is then not to be used any more.
    pub fn feed<W: Sink, G: Ledger>(
        &mut self,
        alloc: Global,
        sink: &mut W,
        steps: &mut Steps<G>,
        bytes: &[u8],
    ) -> Result<(), Stop>
        requires live { self.old.session.spent ≡ false }
        ensures ok { OnOk result ((entry : Option (List ℕ)) (read : List ℕ) → Stands entry (W.taken sink.old) read self.old → Stands entry (W.taken sink.new) (read ++ bytes.now) self.new) }
        ensures err { IfErr result (λ stop. (entry : Option (List ℕ)) (read : List ℕ) → Stands entry (W.taken sink.old) read self.old → BreaksAs stop entry (W.taken sink.new) (whole_lines (read ++ bytes.now))) }
        ensures live { OnOk result (self.new.session.spent ≡ false) }
        ensures count { W.faults sink.new ≡ count_after (step_status stop_status result == 5) (W.faults sink.old) }
    {
        let mut at = 0;
        'lines: while let Some(length) = line_length(&bytes[at..]) {
            self.line.push(&bytes[at..at + length])?;
            let is_last = line_length(&bytes[at + length + 1..]).is_none();
            self.end_line(alloc, sink, steps, is_last)?;
            at += length + 1;
        }
        self.line.push(&bytes[at..])?;
        Ok(())
    }

    /// Deals with a last line that lacks its line feed, where there is one.
    ///
    /// # Errors
    ///
    /// As `feed`.
    pub fn end_last<W: Sink, G: Ledger>(
        &mut self,
        alloc: Global,
        sink: &mut W,
        steps: &mut Steps<G>,
    ) -> Result<(), Stop>
        requires live { self.old.session.spent ≡ false }
        ensures ok { OnOk result ((entry : Option (List ℕ)) (read : List ℕ) → Stands entry (W.taken sink.old) read self.old → Ended entry (W.taken sink.new) read self.new) }
        ensures err { IfErr result (λ stop. (entry : Option (List ℕ)) (read : List ℕ) → Stands entry (W.taken sink.old) read self.old → BreaksAs stop entry (W.taken sink.new) (all_lines read)) }
        ensures count { W.faults sink.new ≡ count_after (step_status stop_status result == 5) (W.faults sink.old) }
    {
        if self.line.is_empty() {
            return Ok(());
        }
        self.end_line(alloc, sink, steps, true)
    }
}
