//! The mode `device`: answers the lines of the source, one after the other.
ghost use Rattle.std.specs.Prelude.{◌≡◌, ◌≢◌, ◌==◌, ◌⊎◌, ℕ, List, []};
ghost use Rattle.std.specs.Io.KnownBytes.{IsAtEnd};
ghost use Rattle.hybrid_clock.specs.Node.{IsNode};
ghost use Rattle.budget_ports.specs.Faults.{count_after};
ghost use Rattle.budget_ports.specs.Contents.{Contents};
ghost use Rattle.budget_ports.specs.Keeper.{IsAlone};
ghost use Rattle.budget_top.specs.Limits.{HasRead};
ghost use Rattle.budget_top.specs.Stops.{end_status, device_stop_status};
ghost use Rattle.budget_top.specs.Seen.{seen};
ghost use Rattle.budget_top.specs.Standing.{Entry};
ghost use Rattle.budget_top.specs.DeviceSteps.{IsReady, Stands};
ghost use Rattle.budget_top.specs.DeviceRun.{HasAnswered, DeviceRun, TellsBadRecord};
ghost use Rattle.budget_top.specs.DeviceSteps.{EndsAs, IsWhole};

use crate::begun::Begun;
use crate::dispatch::{
    BAD_RECORD, DONE, KEEPER_FAILED, NO_MEMORY, SOME_BAD, SOURCE_FAILED, TOO_MUCH,
};
use crate::input::{End, PIECE, Piece, read_piece};
use crate::opening::{OpeningFault, open};
use crate::session::Session;
use crate::stop::DeviceStop;
use crate::write::write_and_flush;
use budget_ports::{Keeper, Link, Sink, Source, WallClock};
use device_sync::Target;
use field_values::{Steps, Txt};
use hybrid_clock::Node;
use std::alloc::Global;
use std::mem;
use std::sync::ledger::Ledger;

/// The group that keeps the messages of a device.
const GROUP: &str = "device";

/// Takes the bytes of the source up to its end, at most one past the limit.
fn read_all<S: Source, W: Sink, K: Keeper, L: Link, C: WallClock, G: Ledger>(
    alloc: Global,
    session: &mut Session,
    source: &mut S,
    sink: &mut W,
    keeper: &mut K,
    link: &mut L,
    clock: &mut C,
    steps: &mut Steps<G>,
) -> End<DeviceStop>
    requires { IsReady session.old }
    ensures ends { (e : Entry) → Stands e [] session.old (seen (W.taken sink.old) (C.readings clock.old) (L.exchanges link.old) (L.faults link.old) (K.tells keeper.old) (K.contents keeper.old) (K.left keeper.old)) → (read : List ℕ) × HasRead (S.left source.old) (S.left source.new) read × EndsAs result e (IsAlone (K.tells keeper.old) (K.contents keeper.old) (K.left keeper.old)) session.new read (seen (W.taken sink.new) (C.readings clock.new) (L.exchanges link.new) (L.faults link.new) (K.tells keeper.new) (K.contents keeper.new) (K.left keeper.new)) }
    ensures at_end { result ≡ End.AtEnd → IsAtEnd (S.left source.new) }
    ensures ready { result ≡ End.AtEnd → IsReady session.new }
    ensures alone { IsWhole result → IsAlone (K.tells keeper.old) (K.contents keeper.old) (K.left keeper.old) → IsAlone (K.tells keeper.new) (K.contents keeper.new) (K.left keeper.new) }
    ensures told { K.tells keeper.new → K.tells keeper.old }
    ensures before { (k : Contents) → K.left keeper.new k → K.left keeper.old k ⊎ K.tells keeper.old }
    ensures source { S.faults source.new ≡ count_after (end_status device_stop_status result == 4) (S.faults source.old) }
    ensures sink { W.faults sink.new ≡ count_after (end_status device_stop_status result == 5) (W.faults sink.old) }
    ensures keeper { K.faults keeper.new ≡ count_after (end_status device_stop_status result == 6) (K.faults keeper.old) }
{
    let mut buffer = [0u8; PIECE];
    let mut taken = 0;
    'reads: loop {
        let (count, past) = match read_piece(source, &mut buffer, taken) {
            Piece::End => return End::AtEnd,
            Piece::Failed => return End::SourceFailed,
            Piece::Bytes { count, past } => (count, past),
        };
        if let Err(stop) = session.feed(alloc, sink, keeper, link, clock, steps, &buffer[..count]) {
            return End::Stopped(stop);
        }
        if past {
            return End::TooMuch;
        }
        taken += count;
    }
}

/// Answers each line of the source with a session that has read nothing, and gives the status.
fn answer_lines<S: Source, W: Sink, K: Keeper, L: Link, C: WallClock, G: Ledger>(
    alloc: Global,
    session: &mut Session,
    source: &mut S,
    sink: &mut W,
    keeper: &mut K,
    link: &mut L,
    clock: &mut C,
    steps: &mut Steps<G>,
) -> u8
    requires { IsReady session.old }
    ensures answers { (e : Entry) → Stands e [] session.old (seen (W.taken sink.old) (C.readings clock.old) (L.exchanges link.old) (L.faults link.old) (K.tells keeper.old) (K.contents keeper.old) (K.left keeper.old)) → HasAnswered result (S.left source.old) (S.left source.new) e (IsAlone (K.tells keeper.old) (K.contents keeper.old) (K.left keeper.old)) (seen (W.taken sink.new) (C.readings clock.new) (L.exchanges link.new) (L.faults link.new) (K.tells keeper.new) (K.contents keeper.new) (K.left keeper.new)) }
    ensures told { K.tells keeper.new → K.tells keeper.old }
    ensures before { (k : Contents) → K.left keeper.new k → K.left keeper.old k ⊎ K.tells keeper.old }
    ensures source { S.faults source.new ≡ count_after (result == 4) (S.faults source.old) }
    ensures sink { W.faults sink.new ≡ count_after (result == 5) (W.faults sink.old) }
    ensures keeper { K.faults keeper.new ≡ count_after (result == 6) (K.faults keeper.old) }
{
    match read_all(alloc, session, source, sink, keeper, link, clock, steps) {
        End::AtEnd => match session.end_last(alloc, sink, keeper, link, clock, steps) {
            Ok(()) => { if session.bad { SOME_BAD } else { DONE } }
            Err(stop) => stop.status(),
        },
        End::SourceFailed => SOURCE_FAILED,
        End::TooMuch => TOO_MUCH,
        End::Stopped(stop) => stop.status(),
    }
}

/// Tells that the record with this index keeps no message. Where the sink fails at that, the record
/// still decides the status.
fn bad_record<W: Sink>(alloc: Global, sink: &mut W, index: usize) -> u8
    ensures reported { result ≡ 3 → TellsBadRecord index (W.taken sink.old) (W.taken sink.new) (W.faults sink.old) (W.faults sink.new) }
    ensures unreported { result ≡ 7 → (W.taken sink.new ≡ W.taken sink.old) × (W.faults sink.new ≡ W.faults sink.old) }
    ensures known { (result ≡ 3) ⊎ (result ≡ 7) }
{
    let text = match format!(in alloc; "bad-record {index}\n") {
        Ok(text) => text,
        Err(_) => return NO_MEMORY,
    };
    let _reported = write_and_flush(sink, text.as_str().as_bytes());
    BAD_RECORD
}

/// Opens the group of the device of this node, answers the lines of the source, and gives the status. It syncs with
/// this target.
///
/// The program ends after a run, so the device isn't taken apart.
pub fn run_device<S: Source, W: Sink, K: Keeper, L: Link, C: WallClock, G: Ledger>(
    alloc: Global,
    node: Node,
    target: Target,
    source: &mut S,
    sink: &mut W,
    keeper: &mut K,
    link: &mut L,
    clock: &mut C,
    steps: &mut Steps<G>,
) -> u8
    requires { IsNode node }
    ensures run { DeviceRun node target result (S.left source.old) (S.left source.new) (W.faults sink.old) (W.faults sink.new) (seen (W.taken sink.old) (C.readings clock.old) (L.exchanges link.old) (L.faults link.old) (K.tells keeper.old) (K.contents keeper.old) (K.left keeper.old)) (seen (W.taken sink.new) (C.readings clock.new) (L.exchanges link.new) (L.faults link.new) (K.tells keeper.new) (K.contents keeper.new) (K.left keeper.new)) }
    ensures source { S.faults source.new ≡ count_after (result == 4) (S.faults source.old) }
    ensures sink { result ≢ 3 → W.faults sink.new ≡ count_after (result == 5) (W.faults sink.old) }
    ensures keeper { K.faults keeper.new ≡ count_after (result == 6) (K.faults keeper.old) }
{
    let group = match Txt::from_text(alloc, GROUP) {
        Ok(group) => group,
        Err(_) => return NO_MEMORY,
    };
    let device = match open(alloc, node, keeper, &group) {
        Ok(device) => device,
        Err(OpeningFault::Keeper) => return KEEPER_FAILED,
        Err(OpeningFault::NoMemory) => return NO_MEMORY,
        Err(OpeningFault::BadRecord { index }) => return bad_record(alloc, sink, index),
    };
    let mut session = Session {
        device,
        group,
        target,
        line: Begun::new(alloc),
        bad: false,
    };
    let status = answer_lines(
        alloc,
        &mut session,
        source,
        sink,
        keeper,
        link,
        clock,
        steps,
    );
    mem::forget(session);
    status
}
