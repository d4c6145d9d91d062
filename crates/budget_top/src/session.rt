//! A device that takes one line after the other.
use crate::answer::handle_line;
use crate::begun::Begun;
use crate::input::line_length;
use crate::stop::DeviceStop;
use crate::write::write_reply;
use budget_ports::{Keeper, Link, Sink, WallClock};
use device_core::Device;
use device_sync::Target;
use field_values::{Steps, Txt};
use std::alloc::Global;
use std::sync::ledger::Ledger;

/// A device, the name of the group that keeps its messages, whom it syncs with, the line that has begun,
/// and whether a line was refused.
#[derive(Drop)]
pub struct Session {
    pub device: Device,
    pub group: Txt,
    pub target: Target,
    pub line: Begun,
    pub bad: bool,
}

impl Session {
    ghost use Rattle.std.specs.Prelude.{◌≡◌, ◌⊎◌, ◌==◌, ℕ, List, [], ◌∷◌, ◌++◌, IfErr, OnOk};
    ghost use Rattle.budget_ports.specs.Faults.{count_after};
    ghost use Rattle.budget_ports.specs.Contents.{Contents};
    ghost use Rattle.budget_ports.specs.Keeper.{IsAlone};
    ghost use Rattle.budget_top.specs.Stops.{step_status, device_stop_status};
    ghost use Rattle.budget_top.specs.Lines.{whole_lines, all_lines};
    ghost use Rattle.budget_top.specs.Seen.{seen};
    ghost use Rattle.budget_top.specs.Standing.{Entry};
    ghost use Rattle.budget_top.specs.DeviceSteps.{IsReady, Stands, Ended, BreaksAs};

    /// Handles the line that has begun, and begins the next one. Its reply is handed on with those before it where no other whole line
    /// was read.
    fn end_line<W: Sink, K: Keeper, L: Link, C: WallClock, G: Ledger>(
        &mut self,
        alloc: Global,
        sink: &mut W,
        keeper: &mut K,
        link: &mut L,
        clock: &mut C,
        steps: &mut Steps<G>,
        is_last: bool,
    ) -> Result<(), DeviceStop>
        requires { IsReady self.old }
        ensures ok { OnOk result ((e : Entry) (read : List ℕ) → Stands e read self.old (seen (W.taken sink.old) (C.readings clock.old) (L.exchanges link.old) (L.faults link.old) (K.tells keeper.old) (K.contents keeper.old) (K.left keeper.old)) → Stands e (read ++ 10 ∷ []) self.new (seen (W.taken sink.new) (C.readings clock.new) (L.exchanges link.new) (L.faults link.new) (K.tells keeper.new) (K.contents keeper.new) (K.left keeper.new))) }
        ensures err { IfErr result (λ stop. (e : Entry) (read : List ℕ) → Stands e read self.old (seen (W.taken sink.old) (C.readings clock.old) (L.exchanges link.old) (L.faults link.old) (K.tells keeper.old) (K.contents keeper.old) (K.left keeper.old)) → BreaksAs stop e (IsAlone (K.tells keeper.old) (K.contents keeper.old) (K.left keeper.old)) (whole_lines (read ++ 10 ∷ [])) (seen (W.taken sink.new) (C.readings clock.new) (L.exchanges link.new) (L.faults link.new) (K.tells keeper.new) (K.contents keeper.new) (K.left keeper.new))) }
        ensures ready { OnOk result (IsReady self.new) }
        ensures alone { OnOk result (IsAlone (K.tells keeper.old) (K.contents keeper.old) (K.left keeper.old) → IsAlone (K.tells keeper.new) (K.contents keeper.new) (K.left keeper.new)) }
        ensures told { K.tells keeper.new → K.tells keeper.old }
        ensures before { (k : Contents) → K.left keeper.new k → K.left keeper.old k ⊎ K.tells keeper.old }
        ensures sink { W.faults sink.new ≡ count_after (step_status device_stop_status result == 5) (W.faults sink.old) }
        ensures keeper { K.faults keeper.new ≡ count_after (step_status device_stop_status result == 6) (K.faults keeper.old) }
    {
        let reading = clock.now();
        let answer = handle_line(
            alloc,
            &mut self.device,
            keeper,
            link,
            &self.group,
            &self.target,
            steps,
            reading,
            &self.line,
        )?;
        write_reply(sink, answer.text.bytes(), is_last)?;
        self.line.clear();
        self.bad |= answer.refused;
        Ok(())
    }

    /// Deals with the bytes that come next: answers each line that ends in them, and hands the replies on behind the last of them, so
    /// before more bytes are read.
    ///
    /// # Errors
    ///
    /// Why the run breaks off: memory ran out, the keeper failed, or the sink failed at a reply. The
    /// session is then not to be used any more.
    pub fn feed<W: Sink, K: Keeper, L: Link, C: WallClock, G: Ledger>(
        &mut self,
        alloc: Global,
        sink: &mut W,
        keeper: &mut K,
        link: &mut L,
        clock: &mut C,
        steps: &mut Steps<G>,
        bytes: &[u8],
    ) -> Result<(), DeviceStop>
        requires { IsReady self.old }
        ensures ok { OnOk result ((e : Entry) (read : List ℕ) → Stands e read self.old (seen (W.taken sink.old) (C.readings clock.old) (L.exchanges link.old) (L.faults link.old) (K.tells keeper.old) (K.contents keeper.old) (K.left keeper.old)) → Stands e (read ++ bytes.now) self.new (seen (W.taken sink.new) (C.readings clock.new) (L.exchanges link.new) (L.faults link.new) (K.tells keeper.new) (K.contents keeper.new) (K.left keeper.new))) }
        ensures err { IfErr result (λ stop. (e : Entry) (read : List ℕ) → Stands e read self.old (seen (W.taken sink.old) (C.readings clock.old) (L.exchanges link.old) (L.faults link.old) (K.tells keeper.old) (K.contents keeper.old) (K.left keeper.old)) → BreaksAs stop e (IsAlone (K.tells keeper.old) (K.contents keeper.old) (K.left keeper.old)) (whole_lines (read ++ bytes.now)) (seen (W.taken sink.new) (C.readings clock.new) (L.exchanges link.new) (L.faults link.new) (K.tells keeper.new) (K.contents keeper.new) (K.left keeper.new))) }
        ensures ready { OnOk result (IsReady self.new) }
        ensures alone { OnOk result (IsAlone (K.tells keeper.old) (K.contents keeper.old) (K.left keeper.old) → IsAlone (K.tells keeper.new) (K.contents keeper.new) (K.left keeper.new)) }
        ensures told { K.tells keeper.new → K.tells keeper.old }
        ensures before { (k : Contents) → K.left keeper.new k → K.left keeper.old k ⊎ K.tells keeper.old }
        ensures sink { W.faults sink.new ≡ count_after (step_status device_stop_status result == 5) (W.faults sink.old) }
        ensures keeper { K.faults keeper.new ≡ count_after (step_status device_stop_status result == 6) (K.faults keeper.old) }
    {
        let mut at = 0;
        'lines: while let Some(length) = line_length(&bytes[at..]) {
            self.line.push(&bytes[at..at + length])?;
            let is_last = line_length(&bytes[at + length + 1..]).is_none();
            self.end_line(alloc, sink, keeper, link, clock, steps, is_last)?;
            at += length + 1;
        }
        self.line.push(&bytes[at..])?;
        Ok(())
    }

    /// Deals with a last line that lacks its line feed, where there is one.
    ///
    /// # Errors
    ///
    /// As `feed`.
    pub fn end_last<W: Sink, K: Keeper, L: Link, C: WallClock, G: Ledger>(
        &mut self,
        alloc: Global,
        sink: &mut W,
        keeper: &mut K,
        link: &mut L,
        clock: &mut C,
        steps: &mut Steps<G>,
    ) -> Result<(), DeviceStop>
        requires { IsReady self.old }
        ensures ok { OnOk result ((e : Entry) (read : List ℕ) → Stands e read self.old (seen (W.taken sink.old) (C.readings clock.old) (L.exchanges link.old) (L.faults link.old) (K.tells keeper.old) (K.contents keeper.old) (K.left keeper.old)) → Ended e read self.new (seen (W.taken sink.new) (C.readings clock.new) (L.exchanges link.new) (L.faults link.new) (K.tells keeper.new) (K.contents keeper.new) (K.left keeper.new))) }
        ensures err { IfErr result (λ stop. (e : Entry) (read : List ℕ) → Stands e read self.old (seen (W.taken sink.old) (C.readings clock.old) (L.exchanges link.old) (L.faults link.old) (K.tells keeper.old) (K.contents keeper.old) (K.left keeper.old)) → BreaksAs stop e (IsAlone (K.tells keeper.old) (K.contents keeper.old) (K.left keeper.old)) (all_lines read) (seen (W.taken sink.new) (C.readings clock.new) (L.exchanges link.new) (L.faults link.new) (K.tells keeper.new) (K.contents keeper.new) (K.left keeper.new))) }
        ensures alone { OnOk result (IsAlone (K.tells keeper.old) (K.contents keeper.old) (K.left keeper.old) → IsAlone (K.tells keeper.new) (K.contents keeper.new) (K.left keeper.new)) }
        ensures told { K.tells keeper.new → K.tells keeper.old }
        ensures before { (k : Contents) → K.left keeper.new k → K.left keeper.old k ⊎ K.tells keeper.old }
        ensures sink { W.faults sink.new ≡ count_after (step_status device_stop_status result == 5) (W.faults sink.old) }
        ensures keeper { K.faults keeper.new ≡ count_after (step_status device_stop_status result == 6) (K.faults keeper.old) }
    {
        if self.line.is_empty() {
            return Ok(());
        }
        self.end_line(alloc, sink, keeper, link, clock, steps, true)
    }
}
