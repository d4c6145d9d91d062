//! The mode `merge`: joins the messages of the source's lines, and writes the latest message of
//! each field.
ghost use Rattle.std.specs.Prelude.{◌≡◌, ◌==◌, ◌<◌, ◌^◌, List, ℕ, [], false, OnOk, OnErr};
ghost use Rattle.std.specs.Io.KnownBytes.{Appends, IsAtEnd};
ghost use Rattle.std.specs.List.{flat_map};
ghost use Rattle.field_merge.specs.Log.{ended_line};
ghost use Rattle.budget_ports.specs.Faults.{count_after};
ghost use Rattle.budget_top.specs.Stops.{step_status, end_status, stop_status};
ghost use Rattle.budget_top.specs.MergeRun.{MergeRun};
ghost use Rattle.budget_top.specs.Fronts.{AppendsFront};
ghost use Rattle.budget_top.specs.Limits.{HasRead};
ghost use Rattle.budget_top.specs.Steps.{Stands, EndsReading};

use crate::begun::Begun;
use crate::dispatch::{DONE, SOME_BAD, SOURCE_FAILED, TOO_MUCH};
use crate::input::{End, PIECE, Piece, line_length, read_piece};
use crate::stop::Stop;
use crate::verdict::{Word, bad_line_text, take_line};
use crate::write::write_all;
use budget_ports::{Sink, Source};
use command_lines::LONGEST_LINE;
use field_merge::{FieldLines, LatestMessages};
use field_values::NoMemory;
use std::alloc::Global;
use std::mem;

/// Where merging stands: what the lines so far gave, and the line that has begun.
#[derive(Drop)]
pub struct Merge {
    latest: LatestMessages,
    line: Begun,
    /// How many lines have ended.
    number: u64,
    /// Whether one of them was no message.
    has_bad: bool,
}

impl Merge {
    ghost use Rattle.std.specs.Prelude.{◌≡◌, ◌==◌, ◌+◌, ◌<◌, ◌≤◌, ◌^◌, ◌∷◌, [], ◌++◌, List, ℕ, Option, length, false, IfOk, OnOk, OnErr};
    ghost use Rattle.std.specs.Io.KnownBytes.{Appends};
    ghost use Rattle.budget_top.specs.KeptLine.{judged_kept_line, kept_line_with};
    ghost use Rattle.budget_ports.specs.Faults.{count_after};
    ghost use Rattle.budget_top.specs.Stops.{step_status, stop_status};
    ghost use Rattle.budget_top.specs.Lines.{IsWithinLine, whole_lines, all_lines};
    ghost use Rattle.budget_top.specs.Verdicts.{bad_line, bad_lines, merge_text, some_bad, Takes};
    ghost use Rattle.budget_top.specs.Fronts.{AppendsFront};
    ghost use Rattle.budget_top.specs.Steps.{Settles, Stands, Ended};

    /// Nothing was read yet.
    pub fn new(alloc: Global) -> Merge
        ensures { (entry : Option (List ℕ)) → Stands entry entry [] result }
    {
        Merge {
            latest: LatestMessages::new(alloc),
            line: Begun::new(alloc),
            number: 0,
            has_bad: false,
        }
    }

    /// Takes the message of the line that ends with these bytes, or tells the word for what is wrong with the line. Where none of it came
    /// before they are not copied.
    fn take(&mut self, bytes: &[u8]) -> Result<Result<(), Word>, NoMemory>
        requires live { self.old.latest.spent ≡ false }
        ensures taken { IfOk result (λ told. Takes (judged_kept_line (kept_line_with self.old.line bytes.now)) told self.old.latest self.new.latest) }
        ensures same { OnOk result ((self.new.number ≡ self.old.number) × (self.new.has_bad ≡ self.old.has_bad)) }
    {
        if self.line.is_empty() && bytes.len() <= LONGEST_LINE {
            return take_line(&mut self.latest, bytes);
        }
        self.line.push(bytes)?;
        self.line.take_in(&mut self.latest)
    }

    /// Joins the message of the line that ends with these bytes, or writes that the line is bad.
    fn settle<W: Sink>(&mut self, alloc: Global, sink: &mut W, bytes: &[u8]) -> Result<(), Stop>
        requires live { self.old.latest.spent ≡ false }
        requires few { self.old.number < 2 ^ 60 }
        ensures ok { OnOk result (Settles self.old self.new (W.taken sink.old) (W.taken sink.new) (judged_kept_line (kept_line_with self.old.line bytes.now))) }
        ensures err { OnErr result (AppendsFront (W.taken sink.old) (W.taken sink.new) (bad_line (self.old.number + 1) (judged_kept_line (kept_line_with self.old.line bytes.now)))) }
        ensures count { W.faults sink.new ≡ count_after (step_status stop_status result == 5) (W.faults sink.old) }
    {
        let Err(word) = self.take(bytes)? else {
            return Ok(());
        };
        let text = bad_line_text(alloc, self.number + 1, word)?;
        self.has_bad = true;
        write_all(sink, text.as_str().as_bytes())?;
        Ok(())
    }

    /// Ends the line that has begun with these bytes.
    fn end_line<W: Sink>(&mut self, alloc: Global, sink: &mut W, bytes: &[u8]) -> Result<(), Stop>
        requires live { self.old.latest.spent ≡ false }
        requires few { self.old.number < 2 ^ 60 }
        requires within { IsWithinLine bytes.now }
        ensures ok { OnOk result ((entry : Option (List ℕ)) (read : List ℕ) → Stands entry (W.taken sink.old) read self.old → Stands entry (W.taken sink.new) (read ++ bytes.now ++ 10 ∷ []) self.new) }
        ensures err { OnErr result ((entry : Option (List ℕ)) (read : List ℕ) → Stands entry (W.taken sink.old) read self.old → AppendsFront entry (W.taken sink.new) (bad_lines (whole_lines (read ++ bytes.now ++ 10 ∷ [])))) }
        ensures live { OnOk result (self.new.latest.spent ≡ false) }
        ensures few { OnOk result (self.new.number ≡ self.old.number + 1) }
        ensures count { W.faults sink.new ≡ count_after (step_status stop_status result == 5) (W.faults sink.old) }
    {
        self.settle(alloc, sink, bytes)?;
        self.number += 1;
        self.line.clear();
        Ok(())
    }

    /// Goes on with the line that has begun.
    fn keep(&mut self, bytes: &[u8]) -> Result<(), NoMemory>
        requires { IsWithinLine bytes.now }
        ensures ok { OnOk result ((entry now : Option (List ℕ)) (read : List ℕ) → Stands entry now read self.old → Stands entry now (read ++ bytes.now) self.new) }
        ensures same { OnOk result ((self.new.latest ≡ self.old.latest) × (self.new.number ≡ self.old.number)) }
    {
        self.line.push(bytes)?;
        Ok(())
    }

    /// Deals with the bytes that come next.
    fn feed<W: Sink>(&mut self, alloc: Global, sink: &mut W, bytes: &[u8]) -> Result<(), Stop>
        requires live { self.old.latest.spent ≡ false }
        requires few { self.old.number + length bytes.now < 2 ^ 60 }
        ensures ok { OnOk result ((entry : Option (List ℕ)) (read : List ℕ) → Stands entry (W.taken sink.old) read self.old → Stands entry (W.taken sink.new) (read ++ bytes.now) self.new) }
        ensures err { OnErr result ((entry : Option (List ℕ)) (read : List ℕ) → Stands entry (W.taken sink.old) read self.old → AppendsFront entry (W.taken sink.new) (bad_lines (whole_lines (read ++ bytes.now)))) }
        ensures live { OnOk result (self.new.latest.spent ≡ false) }
        ensures few { OnOk result (self.new.number ≤ self.old.number + length bytes.now) }
        ensures count { W.faults sink.new ≡ count_after (step_status stop_status result == 5) (W.faults sink.old) }
    {
        let mut at = 0;
        'lines: while let Some(length) = line_length(&bytes[at..]) {
            self.end_line(alloc, sink, &bytes[at..at + length])?;
            at += length + 1;
        }
        self.keep(&bytes[at..])?;
        Ok(())
    }

    /// Deals with a last line that lacks its line feed, where there is one.
    fn end_last<W: Sink>(&mut self, alloc: Global, sink: &mut W) -> Result<(), Stop>
        requires live { self.old.latest.spent ≡ false }
        requires few { self.old.number < 2 ^ 60 }
        ensures ok { OnOk result ((entry : Option (List ℕ)) (read : List ℕ) → Stands entry (W.taken sink.old) read self.old → Ended entry (W.taken sink.new) read self.new) }
        ensures err { OnErr result ((entry : Option (List ℕ)) (read : List ℕ) → Stands entry (W.taken sink.old) read self.old → AppendsFront entry (W.taken sink.new) (bad_lines (all_lines read))) }
        ensures live { OnOk result (self.new.latest.spent ≡ false) }
        ensures count { W.faults sink.new ≡ count_after (step_status stop_status result == 5) (W.faults sink.old) }
    {
        if self.line.is_empty() {
            return Ok(());
        }
        self.end_line(alloc, sink, &[])
    }

    /// Deals with the end of the input: writes the fields, and hands all on.
    fn finish<W: Sink>(&mut self, alloc: Global, sink: &mut W) -> Result<bool, Stop>
        requires live { self.old.latest.spent ≡ false }
        requires few { self.old.number < 2 ^ 60 }
        ensures ok { IfOk result (λ has_bad. (entry : Option (List ℕ)) (read : List ℕ) → Stands entry (W.taken sink.old) read self.old → (has_bad ≡ some_bad (all_lines read)) × Appends entry (W.taken sink.new) (merge_text read)) }
        ensures err { OnErr result ((entry : Option (List ℕ)) (read : List ℕ) → Stands entry (W.taken sink.old) read self.old → AppendsFront entry (W.taken sink.new) (merge_text read)) }
        ensures count { W.faults sink.new ≡ count_after (step_status stop_status result == 5) (W.faults sink.old) }
    {
        self.end_last(alloc, sink)?;
        self.latest.tidy()?;
        write_lines(sink, self.latest.lines_by_field())?;
        sink.flush()?;
        Ok(self.has_bad)
    }
}

/// Writes lines piece by piece, until none is left.
fn write_lines<W: Sink>(sink: &mut W, lines: FieldLines<'_>) -> Result<(), Stop>
    ensures all { OnOk result (Appends (W.taken sink.old) (W.taken sink.new) (flat_map ended_line lines.entry)) }
    ensures front { OnErr result (AppendsFront (W.taken sink.old) (W.taken sink.new) (flat_map ended_line lines.entry)) }
    ensures count { W.faults sink.new ≡ count_after (step_status stop_status result == 5) (W.faults sink.old) }
{
    let mut left = lines;
    'pieces: while let Some(piece) = left.next_piece()? {
        write_all(sink, piece.bytes())?;
    }
    Ok(())
}

/// Takes the bytes of the source up to its end, at most one past the limit.
fn read_all<S: Source, W: Sink>(
    alloc: Global,
    merge: &mut Merge,
    source: &mut S,
    sink: &mut W,
) -> End<Stop>
    requires fresh { Stands (W.taken sink.old) (W.taken sink.old) [] merge.old }
    ensures ends { (read : List ℕ) × HasRead (S.left source.old) (S.left source.new) read × EndsReading result (W.taken sink.old) (W.taken sink.new) read merge.new }
    ensures at_end { result ≡ End.AtEnd → IsAtEnd (S.left source.new) }
    ensures live { result ≡ End.AtEnd → merge.new.latest.spent ≡ false }
    ensures few { result ≡ End.AtEnd → merge.new.number < 2 ^ 60 }
    ensures source { S.faults source.new ≡ count_after (end_status stop_status result == 4) (S.faults source.old) }
    ensures sink { W.faults sink.new ≡ count_after (end_status stop_status result == 5) (W.faults sink.old) }
{
    let mut buffer = [0u8; PIECE];
    let mut taken = 0;
    'reads: loop {
        let (count, past) = match read_piece(source, &mut buffer, taken) {
            Piece::End => return End::AtEnd,
            Piece::Failed => return End::SourceFailed,
            Piece::Bytes { count, past } => (count, past),
        };
        if let Err(stop) = merge.feed(alloc, sink, &buffer[..count]) {
            return End::Stopped(stop);
        }
        if past {
            return End::TooMuch;
        }
        taken += count;
    }
}

/// Merges the lines of the source into a merge that has read nothing.
fn merge_lines<S: Source, W: Sink>(
    alloc: Global,
    merge: &mut Merge,
    source: &mut S,
    sink: &mut W,
) -> u8
    requires fresh { Stands (W.taken sink.old) (W.taken sink.old) [] merge.old }
    ensures run { MergeRun result (S.left source.old) (S.left source.new) (W.taken sink.old) (W.taken sink.new) }
    ensures source { S.faults source.new ≡ count_after (result == 4) (S.faults source.old) }
    ensures sink { W.faults sink.new ≡ count_after (result == 5) (W.faults sink.old) }
{
    match read_all(alloc, merge, source, sink) {
        End::AtEnd => match merge.finish(alloc, sink) {
            Ok(true) => SOME_BAD,
            Ok(false) => DONE,
            Err(stop) => stop.status(),
        },
        End::SourceFailed => SOURCE_FAILED,
        End::TooMuch => TOO_MUCH,
        End::Stopped(stop) => stop.status(),
    }
}

/// Merges the lines of the source, and answers the status.
///
/// The program ends after a run, so what was kept isn't taken apart.
pub fn run_merge<S: Source, W: Sink>(alloc: Global, source: &mut S, sink: &mut W) -> u8
    ensures run { MergeRun result (S.left source.old) (S.left source.new) (W.taken sink.old) (W.taken sink.new) }
    ensures source { S.faults source.new ≡ count_after (result == 4) (S.faults source.old) }
    ensures sink { W.faults sink.new ≡ count_after (result == 5) (W.faults sink.old) }
{
    let mut merge = Merge::new(alloc);
    let status = merge_lines(alloc, &mut merge, source, sink);
    mem::forget(merge);
    status
}
