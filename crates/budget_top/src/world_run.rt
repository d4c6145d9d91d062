//! The mode `world`: answers the lines of the source as a world of devices and one server.
ghost use Rattle.std.specs.Prelude.{◌≡◌, ◌==◌, ℕ, List, [], false};
ghost use Rattle.std.specs.Io.KnownBytes.{IsAtEnd};
ghost use Rattle.budget_ports.specs.Faults.{count_after};
ghost use Rattle.budget_top.specs.Limits.{HasRead};
ghost use Rattle.budget_top.specs.Stops.{end_status, stop_status};
ghost use Rattle.budget_top.specs.WorldRun.{WorldRun};
ghost use Rattle.budget_top.specs.WorldSteps.{Stands, EndsAs};

use crate::dispatch::{DONE, SOME_BAD, SOURCE_FAILED, TOO_MUCH};
use crate::input::{End, PIECE, Piece, read_piece};
use crate::play::Play;
use crate::stop::Stop;
use budget_ports::{Sink, Source};
use field_values::Steps;
use std::alloc::Global;
use std::mem;
use std::sync::ledger::Ledger;

/// Takes the bytes of the source up to its end, at most one past the limit.
fn read_all<S: Source, W: Sink, G: Ledger>(
    alloc: Global,
    play: &mut Play,
    source: &mut S,
    sink: &mut W,
    steps: &mut Steps<G>,
) -> End<Stop>
    requires live { play.old.session.spent ≡ false }
    requires fresh { Stands (W.taken sink.old) (W.taken sink.old) [] play.old }
    ensures ends { (read : List ℕ) × HasRead (S.left source.old) (S.left source.new) read × EndsAs result (W.taken sink.old) (W.taken sink.new) read play.new }
    ensures at_end { result ≡ End.AtEnd → IsAtEnd (S.left source.new) }
    ensures live { result ≡ End.AtEnd → play.new.session.spent ≡ false }
    ensures source { S.faults source.new ≡ count_after (end_status stop_status result == 4) (S.faults source.old) }
    ensures sink { W.faults sink.new ≡ count_after (end_status stop_status result == 5) (W.faults sink.old) }
{
    let mut buffer = [0u8; PIECE];
    let mut taken = 0;
    'reads: loop {
        let (count, past) = match read_piece(source, &mut buffer, taken) {
            Piece::End => return End::AtEnd,
            Piece::Failed => return End::SourceFailed,
            Piece::Bytes { count, past } => (count, past),
        };
        if let Err(stop) = play.feed(alloc, sink, steps, &buffer[..count]) {
            return End::Stopped(stop);
        }
        if past {
            return End::TooMuch;
        }
        taken += count;
    }
}

/// Answers each line of the source in a play that has read nothing, and gives the status.
fn answer_lines<S: Source, W: Sink, G: Ledger>(
    alloc: Global,
    play: &mut Play,
    source: &mut S,
    sink: &mut W,
    steps: &mut Steps<G>,
) -> u8
    requires live { play.old.session.spent ≡ false }
    requires fresh { Stands (W.taken sink.old) (W.taken sink.old) [] play.old }
    ensures run { WorldRun result (S.left source.old) (S.left source.new) (W.taken sink.old) (W.taken sink.new) }
    ensures source { S.faults source.new ≡ count_after (result == 4) (S.faults source.old) }
    ensures sink { W.faults sink.new ≡ count_after (result == 5) (W.faults sink.old) }
{
    match read_all(alloc, play, source, sink, steps) {
        End::AtEnd => match play.end_last(alloc, sink, steps) {
            Ok(()) => { if play.bad { SOME_BAD } else { DONE } }
            Err(stop) => stop.status(),
        },
        End::SourceFailed => SOURCE_FAILED,
        End::TooMuch => TOO_MUCH,
        End::Stopped(stop) => stop.status(),
    }
}

/// Answers each line of the source, the first with no world yet, and gives the status.
///
/// The program ends after a run, so the world isn't taken apart.
pub fn run_world<S: Source, W: Sink, G: Ledger>(
    alloc: Global,
    source: &mut S,
    sink: &mut W,
    steps: &mut Steps<G>,
) -> u8
    ensures run { WorldRun result (S.left source.old) (S.left source.new) (W.taken sink.old) (W.taken sink.new) }
    ensures source { S.faults source.new ≡ count_after (result == 4) (S.faults source.old) }
    ensures sink { W.faults sink.new ≡ count_after (result == 5) (W.faults sink.old) }
{
    let mut play = Play::new(alloc);
    let status = answer_lines(alloc, &mut play, source, sink, steps);
    mem::forget(play);
    status
}
