//! A device.
ghost use Rattle.std.specs.Prelude.{◌≡◌, ◌≢◌, ℕ, ◌+◌, ◌-◌, ◌*◌, ◌≤◌, ◌<◌, [], length, true, false, is_ok, IfOk, IfErr, OnOk, OnErr, Err};
ghost use Rattle.std.specs.FinMap.{entries};
ghost use Rattle.hybrid_clock.specs.Node.{IsNode};
ghost use Rattle.hybrid_clock.specs.Stamp.{IsStamp};
ghost use Rattle.budget_ports.specs.Keeper.{HaveKeys};
ghost use Rattle.field_merge.specs.Log.{messages_after};
ghost use Rattle.field_merge.specs.Messages.{AreMessages};
ghost use Rattle.minute_trie.specs.Trie.{is_spent, IsTrieOf, ArePairs};
ghost use Rattle.kept_messages.specs.Records.{kept_set, IsStartFault, HasFirstStamp};
ghost use Rattle.kept_messages.specs.declared.join.StartFault.TheVariants.{NoMemory as NoMemoryToStart};
ghost use Rattle.kept_messages.specs.Pairs.{pairs_of};
ghost use Rattle.device_core.specs.declared.edit.LineRefusal.TheVariants.{Edit as OfEdit};
ghost use Rattle.device_core.specs.Books.{rows_of};
ghost use Rattle.book_rows.specs.Writes.{AreWrites};
ghost use Rattle.book_edits.specs.Faults.{IsEditFault};
ghost use Rattle.edit_history.specs.History.{latest_of, after};
ghost use Rattle.device_core.specs.Edits.{IsEdit, MayWantMemory, writes_of};
ghost use Rattle.book_rows.specs.Months.{is_month, window_of};
ghost use Rattle.envelope_cells.specs.BudgetOf.{budget_of};
ghost use Rattle.envelope_cells.specs.CellOf.{cell_of};
ghost use Rattle.envelope_cells.specs.Ids.{month_number};
ghost use Rattle.envelope_cells.specs.Parts.{AreSums};
ghost use Rattle.envelope_cells.specs.SheetOf.{sheet_of};
ghost use Rattle.dirty_cells.specs.Stands.{HasWindow, with_month};
ghost use Rattle.dirty_cells.specs.Steps.{month_cost};
ghost use Rattle.device_core.specs.Covering.{covered_by, more_months};
ghost use Rattle.device_core.specs.Device.{at_rest, begun, with_messages, with_writes, written_over, accepted_as, writing, writes_back, edited, undone, redone, later_of, greatest_of, received, is_covered, IsAhead, IsAccepted, IsRefused, IsWithinBound, WouldBeAccepted, WouldBeRefused};

use crate::edit::{Edit, LineRefusal, edit_writes};
use crate::known::{Known, grid_of, join_all, read_all};
use crate::placing::place_writes;
use crate::sheet::cells_of;
use book_rows::{Book, EditFault, Write};
use budget_ports::Record;
use dirty_cells::grid::Grid;
use edit_history::{History, Turn, entry_over, undo_writes};
use envelope_cells::name::Sheet;
use envelope_cells::{CellName, CellValues, cell_names, groups_of, sheets_are_named};
use field_merge::{Log, Message};
use field_values::{Items, NoMemory, Steps, Txt};
use hybrid_clock::{HybridClock, Node, Stamp};
use kept_messages::StartFault;
use minute_trie::{Trie, tries_are_maps};
use std::alloc::Global;
use std::marker::Model;
use std::sync::ledger::Ledger;

/// The most writes of one edit, which is how many counters a time has.
const MOST_WRITES: usize = 65_536;

/// A device of a household.
///
/// A contract sees its messages, the timestamp at which its clock stands, what can be undone and redone, the records that are not
/// kept yet, the ids that the last accepted line made for rows, the months whose cells are kept, and whether it is spent. A call that
/// answers `NoMemory` and may change the device leaves it spent; then nothing but `is_spent` may be asked of
/// it.
#[derive(Drop)]
pub struct Device {
    alloc: Global,
    known: Known,
    /// The cells of the envelope budget, beside the book.
    grid: Grid,
    clock: HybridClock,
    history: History,
    batch: Vec<Record>,
    made: Items<Txt>,
    spent: bool,
}

impl Model for Device {
    ghost use Rattle.std.specs.Prelude.{◌≡◌, false};
    ghost use Rattle.device_core.specs.Device.{DeviceState, Stands};

    ghost Value = { DeviceState };

    ghost view = { λ d. record { state = record { messages = d.known.log.messages; clock = d.clock; history = d.history }; batch = d.batch.items; made = d.made; covered = (d.grid.first, d.grid.end); spent = d.spent } };

    ghost invariant = { λ d. d.spent ≡ false → Stands d.known d.grid d.clock d.batch.items };
}

impl Device {
    /// A device with this node that begins with the messages that records keep. Of records with one
    /// timestamp the first counts.
    ///
    /// Its clock goes on after the last of them, nothing is pending, and nothing can be undone or redone. The cells of all months in
    /// which its rows stand are kept.
    ///
    /// # Errors
    ///
    /// `BadRecord` for the first record that keeps no message. Where the key of the very first one is no
    /// timestamp, this is told before memory is taken.
    pub fn start(alloc: Global, node: Node, records: &[Record]) -> Result<Device, StartFault>
        requires { IsNode node }
        ensures messages { IfOk result (λ d. kept_set records.now ≡ Ok d.state.messages) }
        ensures state { IfOk result (λ d. d ≡ at_rest (begun node d.state.messages)) }
        ensures err { IfErr result (IsStartFault (kept_set records.now)) }
        ensures memory { result ≡ Err NoMemoryToStart → HasFirstStamp records.now }
    {
        let known = read_all(alloc, records)?;
        let grid = grid_of(alloc, &known.book, records)?;
        let clock = HybridClock::new(node, known.log.last());
        Ok(Device {
            alloc,
            known,
            grid,
            clock,
            history: History::new(alloc),
            batch: Vec::new(alloc),
            made: Items::new(Vec::new(alloc)),
            spent: false,
        })
    }

    /// Makes an edit at a reading of the wall clock, in milliseconds since 1970, and answers how many
    /// writes it was. What was pending has to be kept before (`commit`).
    ///
    /// The writes become messages under timestamps in a row, whose records are then pending; the id of a row
    /// that is made is the text of its first write's timestamp. What they wrote over can then be undone, and nothing can be redone any
    /// more. An edit without writes draws no timestamp, and leaves what can be undone and redone. Only cells that the changed fields touch
    /// are computed anew; what was covered stays covered, and all months in which rows stand are.
    ///
    /// # Errors
    ///
    /// Tested in this order: the edit's own checks, in the book of the messages, `TooManyWrites`, the clock.
    /// That a field can't be set whose first bad name is the empty one is told before memory is taken. After a refusal the device is as it was, and after `NoMemory` it is spent.
    pub fn prepare<G: Ledger>(
        &mut self,
        edit: &Edit,
        reading: u64,
        steps: &mut Steps<G>,
    ) -> Result<u32, LineRefusal>
        requires live { self.old.spent ≡ false }
        requires idle { self.old.batch ≡ [] }
        requires valid { IsEdit edit.now }
        ensures ok { IfOk result (IsAccepted (edited self.old.state edit.now reading) self.new) }
        ensures refused { IfErr result (IsRefused (edited self.old.state edit.now reading) self.old self.new) }
        ensures live { OnOk result (self.new.spent ≡ false) }
        ensures memory { result ≢ Err (OfEdit EditFault.NoMemory) }
        ensures empty { result ≡ Err LineRefusal.NoMemory → MayWantMemory edit.now }
        ensures covered { OnOk result (self.new.covered ≡ covered_by self.old.covered self.new.state.messages) }
        ensures cost { OnOk result (IsWithinBound self.old self.new steps.old steps.new) }
        ensures idle { IfErr result (λ refusal. refusal ≢ LineRefusal.NoMemory → steps.new ≡ steps.old) }
    {
        match self.writes(edit) {
            Ok(writes) => self.write(Turn::New, writes.as_slice(), reading, steps),
            Err(EditFault::NoMemory) => {
                self.spent = true;
                Err(LineRefusal::NoMemory)
            }
            Err(fault) => Err(LineRefusal::Edit(fault)),
        }
    }

    /// The writes of an edit in the book of the messages.
    fn writes(&self, edit: &Edit) -> Result<Vec<Write>, EditFault>
        requires live { self.now.spent ≡ false }
        requires valid { IsEdit edit.now }
        ensures ok { IfOk result (λ ws. writes_of (rows_of self.now.state.messages) edit.now ≡ Ok ws.items) }
        ensures valid { IfOk result (λ ws. AreWrites ws.items) }
        ensures err { IfErr result (IsEditFault (writes_of (rows_of self.now.state.messages) edit.now)) }
        ensures memory { result ≡ Err EditFault.NoMemory → MayWantMemory edit.now }
    {
        edit_writes(self.alloc, self.book(), edit)
    }

    /// Undoes the latest edit that was not undone, at a reading of the wall clock, in milliseconds since 1970, and answers how many writes
    /// it was. What was pending has to be kept before (`commit`).
    ///
    /// The writes are taken from what the edit wrote over, whatever has come since. Each field that had a value gets it back; of a row that
    /// was not there, and whose dataset has the column `tombstone`, that column gets 1, once; another field gets 0 where it is a flag or a
    /// number, and else null. What they write over in their turn can then be redone. They are made as those of an edit are.
    ///
    /// # Errors
    ///
    /// `NothingToUndo`, before memory is taken; then the clock. After a refusal the device is as it was, and after `NoMemory` it is spent.
    pub fn undo<G: Ledger>(
        &mut self,
        reading: u64,
        steps: &mut Steps<G>,
    ) -> Result<u32, LineRefusal>
        requires live { self.old.spent ≡ false }
        requires idle { self.old.batch ≡ [] }
        ensures ok { IfOk result (IsAccepted (undone self.old.state reading) self.new) }
        ensures refused { IfErr result (IsRefused (undone self.old.state reading) self.old self.new) }
        ensures live { OnOk result (self.new.spent ≡ false) }
        ensures memory { result ≢ Err (OfEdit EditFault.NoMemory) }
        ensures empty { result ≡ Err LineRefusal.NoMemory → self.old.state.history.undo ≢ [] }
        ensures covered { OnOk result (self.new.covered ≡ covered_by self.old.covered self.new.state.messages) }
        ensures cost { OnOk result (IsWithinBound self.old self.new steps.old steps.new) }
        ensures idle { IfErr result (λ refusal. refusal ≢ LineRefusal.NoMemory → steps.new ≡ steps.old) }
    {
        match self.undo_writes() {
            Ok(writes) => self.write(Turn::Undo, writes.as_slice(), reading, steps),
            Err(EditFault::NoMemory) => {
                self.spent = true;
                Err(LineRefusal::NoMemory)
            }
            Err(fault) => Err(LineRefusal::Edit(fault)),
        }
    }

    /// Redoes the latest edit that was undone: it undoes the undo, as `undo` undoes an edit. What its writes write over can then be undone
    /// again.
    ///
    /// # Errors
    ///
    /// `NothingToRedo`, before memory is taken; then the clock. After a refusal the device is as it was, and after `NoMemory` it is spent.
    pub fn redo<G: Ledger>(
        &mut self,
        reading: u64,
        steps: &mut Steps<G>,
    ) -> Result<u32, LineRefusal>
        requires live { self.old.spent ≡ false }
        requires idle { self.old.batch ≡ [] }
        ensures ok { IfOk result (IsAccepted (redone self.old.state reading) self.new) }
        ensures refused { IfErr result (IsRefused (redone self.old.state reading) self.old self.new) }
        ensures live { OnOk result (self.new.spent ≡ false) }
        ensures memory { result ≢ Err (OfEdit EditFault.NoMemory) }
        ensures empty { result ≡ Err LineRefusal.NoMemory → self.old.state.history.redo ≢ [] }
        ensures covered { OnOk result (self.new.covered ≡ covered_by self.old.covered self.new.state.messages) }
        ensures cost { OnOk result (IsWithinBound self.old self.new steps.old steps.new) }
        ensures idle { IfErr result (λ refusal. refusal ≢ LineRefusal.NoMemory → steps.new ≡ steps.old) }
    {
        match self.redo_writes() {
            Ok(writes) => self.write(Turn::Redo, writes.as_slice(), reading, steps),
            Err(EditFault::NoMemory) => {
                self.spent = true;
                Err(LineRefusal::NoMemory)
            }
            Err(fault) => Err(LineRefusal::Edit(fault)),
        }
    }

    /// The writes that undo the latest entry that can be undone.
    fn undo_writes(&self) -> Result<Vec<Write>, EditFault>
        requires live { self.now.spent ≡ false }
        ensures ok { IfOk result (λ ws. writes_back EditFault.NothingToUndo (latest_of self.now.state.history.undo) ≡ Ok ws.items) }
        ensures valid { IfOk result (λ ws. AreWrites ws.items) }
        ensures err { IfErr result (IsEditFault (writes_back EditFault.NothingToUndo (latest_of self.now.state.history.undo))) }
        ensures some { OnOk result (self.now.state.history.undo ≢ []) }
        ensures memory { result ≡ Err EditFault.NoMemory → self.now.state.history.undo ≢ [] }
    {
        match self.history.undo() {
            Some(entry) => Ok(undo_writes(self.alloc, entry.as_slice())?),
            None => Err(EditFault::NothingToUndo),
        }
    }

    /// The writes that undo the latest entry that can be redone.
    fn redo_writes(&self) -> Result<Vec<Write>, EditFault>
        requires live { self.now.spent ≡ false }
        ensures ok { IfOk result (λ ws. writes_back EditFault.NothingToRedo (latest_of self.now.state.history.redo) ≡ Ok ws.items) }
        ensures valid { IfOk result (λ ws. AreWrites ws.items) }
        ensures err { IfErr result (IsEditFault (writes_back EditFault.NothingToRedo (latest_of self.now.state.history.redo))) }
        ensures some { OnOk result (self.now.state.history.redo ≢ []) }
        ensures memory { result ≡ Err EditFault.NoMemory → self.now.state.history.redo ≢ [] }
    {
        match self.history.redo() {
            Some(undone) => Ok(undo_writes(self.alloc, undone.as_slice())?),
            None => Err(EditFault::NothingToRedo),
        }
    }

    /// Makes writes at a reading of the wall clock.
    #[tactic(auto, using(crate::proofs::Writing::writings))]
    fn write<G: Ledger>(
        &mut self,
        turn: Turn,
        writes: &[Write],
        reading: u64,
        steps: &mut Steps<G>,
    ) -> Result<u32, LineRefusal>
        requires live { self.old.spent ≡ false }
        requires idle { self.old.batch ≡ [] }
        requires valid { AreWrites writes.now }
        ensures ok { IfOk result (IsAccepted (writing self.old.state turn reading (Ok writes.now)) self.new) }
        ensures refused { IfErr result (IsRefused (writing self.old.state turn reading (Ok writes.now)) self.old self.new) }
        ensures live { OnOk result (self.new.spent ≡ false) }
        ensures memory { result ≢ Err (OfEdit EditFault.NoMemory) }
        ensures covered { OnOk result (self.new.covered ≡ covered_by self.old.covered self.new.state.messages) }
        ensures cost { OnOk result (IsWithinBound self.old self.new steps.old steps.new) }
        ensures idle { IfErr result (λ refusal. refusal ≢ LineRefusal.NoMemory → steps.new ≡ steps.old) }
    {
        let count = writes.len();
        if count == 0 {
            self.forget_made();
            return Ok(0);
        }
        if count > MOST_WRITES {
            return Err(LineRefusal::Edit(EditFault::TooManyWrites { n: count as u64 }));
        }
        let first = match self.clock.draw(reading, count as u32) {
            Ok(first) => first,
            Err(fault) => return Err(LineRefusal::Clock(fault)),
        };
        match self.join_writes(turn, first, writes, steps) {
            Ok(()) => Ok(count as u32),
            Err(NoMemory) => Err(LineRefusal::NoMemory),
        }
    }

    /// Forgets the ids that an edit made.
    fn forget_made(&mut self)
        ensures made { self.new ≡ record self.old { made = [] } }
        ensures covered { self.old.spent ≡ false → self.old.covered ≡ covered_by self.old.covered self.old.state.messages }
    {
        self.made = Items::new(Vec::new(self.alloc));
    }

    /// Joins writes under timestamps in a row, up to that of the clock.
    fn join_writes<G: Ledger>(
        &mut self,
        turn: Turn,
        first: Stamp,
        writes: &[Write],
        steps: &mut Steps<G>,
    ) -> Result<(), NoMemory>
        requires live { self.old.spent ≡ false }
        requires idle { self.old.batch ≡ [] }
        requires valid { AreWrites writes.now }
        requires some { writes.now ≢ [] }
        requires stamp { IsStamp first }
        requires row { self.old.state.clock ≡ record first { counter = first.counter + (length writes.now - 1) } }
        requires room { first.counter + length writes.now ≤ 65_536 }
        ensures ok { OnOk result (accepted_as self.new (length writes.now) ≡ with_writes self.old.state turn first writes.now self.old.state.clock) }
        ensures live { OnOk result (self.new.spent ≡ false) }
        ensures covered { OnOk result (self.new.covered ≡ covered_by self.old.covered self.new.state.messages) }
        ensures cost { OnOk result (IsWithinBound self.old self.new steps.old steps.new) }
        ensures err { OnErr result (self.new.spent ≡ true) }
    {
        match place_writes(self.alloc, &first, writes) {
            Ok((messages, made)) => self.join_over(turn, messages.as_slice(), made, steps),
            Err(fault) => {
                self.spent = true;
                Err(fault)
            }
        }
    }

    /// Joins the messages of a line's writes, with what they write over, by a line that made these ids.
    fn join_over<G: Ledger>(
        &mut self,
        turn: Turn,
        messages: &[Message],
        made: Items<Txt>,
        steps: &mut Steps<G>,
    ) -> Result<(), NoMemory>
        requires live { self.old.spent ≡ false }
        requires idle { self.old.batch ≡ [] }
        requires valid { AreMessages messages.now }
        requires some { messages.now ≢ [] }
        requires few { length messages.now ≤ 65_536 }
        requires ahead { IsAhead self.old.state.clock messages.now }
        ensures ok { OnOk result ((count : ℕ) → accepted_as self.new count ≡ with_messages self.old.state.messages messages.now self.old.state.clock (after turn self.old.state.history (written_over self.old.state.messages messages.now)) made count) }
        ensures live { OnOk result (self.new.spent ≡ false) }
        ensures covered { OnOk result (self.new.covered ≡ covered_by self.old.covered self.new.state.messages) }
        ensures cost { OnOk result (IsWithinBound self.old self.new steps.old steps.new) }
        ensures err { OnErr result (self.new.spent ≡ true) }
    {
        match self.write_over(turn, messages) {
            Ok(()) => self.join(messages, made, steps),
            Err(fault) => {
                self.spent = true;
                Err(fault)
            }
        }
    }

    /// Moves on what can be undone and redone, with what messages write over that are to join.
    fn write_over(&mut self, turn: Turn, messages: &[Message]) -> Result<(), NoMemory>
        requires live { self.old.spent ≡ false }
        requires valid { AreMessages messages.now }
        requires some { messages.now ≢ [] }
        requires few { length messages.now ≤ 65_536 }
        ensures { OnOk result (self.new ≡ record self.old { state = record self.old.state { history = after turn self.old.state.history (written_over self.old.state.messages messages.now) } }) }
    {
        let entry = entry_over(self.alloc, &self.known.log, &self.known.book, messages)?;
        self.history.advance(turn, entry)
    }

    /// Joins messages, the records of the new ones of which are then pending, by a line that made these ids.
    fn join<G: Ledger>(
        &mut self,
        messages: &[Message],
        made: Items<Txt>,
        steps: &mut Steps<G>,
    ) -> Result<(), NoMemory>
        requires live { self.old.spent ≡ false }
        requires idle { self.old.batch ≡ [] }
        requires valid { AreMessages messages.now }
        requires ahead { IsAhead self.old.state.clock messages.now }
        ensures ok { OnOk result ((count : ℕ) → accepted_as self.new count ≡ with_messages self.old.state.messages messages.now self.old.state.clock self.old.state.history made count) }
        ensures live { OnOk result (self.new.spent ≡ false) }
        ensures covered { OnOk result (self.new.covered ≡ covered_by self.old.covered self.new.state.messages) }
        ensures cost { OnOk result (IsWithinBound self.old self.new steps.old steps.new) }
        ensures err { OnErr result (self.new.spent ≡ true) }
    {
        self.made = made;
        self.spent = true;
        join_all(
            self.alloc,
            &mut self.known,
            &mut self.grid,
            messages,
            &mut self.batch,
            steps,
        )?;
        self.spent = false;
        Ok(())
    }

    /// Receives messages at a reading of the wall clock, in milliseconds since 1970, and answers how
    /// many were new. What was pending has to be kept before (`commit`).
    ///
    /// The clock receives once, by the greatest timestamp. The records of the new messages are then
    /// pending. What can be undone and redone stays. The cells go along as after an edit, once for all messages.
    ///
    /// # Errors
    ///
    /// The clock's, before memory is taken. After a refusal the device is as it was, and after `NoMemory`
    /// it is spent.
    pub fn incoming<G: Ledger>(
        &mut self,
        batch: &[Message],
        reading: u64,
        steps: &mut Steps<G>,
    ) -> Result<u64, LineRefusal>
        requires live { self.old.spent ≡ false }
        requires idle { self.old.batch ≡ [] }
        requires valid { AreMessages batch.now }
        ensures ok { IfOk result (IsAccepted (received self.old.state batch.now reading) self.new) }
        ensures refused { IfErr result (IsRefused (received self.old.state batch.now reading) self.old self.new) }
        ensures live { OnOk result (self.new.spent ≡ false) }
        ensures memory { result ≡ Err LineRefusal.NoMemory → (batch.now ≢ []) × (is_ok (received self.old.state batch.now reading) ≡ true) }
        ensures covered { OnOk result (self.new.covered ≡ covered_by self.old.covered self.new.state.messages) }
        ensures cost { OnOk result (IsWithinBound self.old self.new steps.old steps.new) }
        ensures idle { IfErr result (λ refusal. refusal ≢ LineRefusal.NoMemory → steps.new ≡ steps.old) }
    {
        let Some(stamp) = greatest_stamp(batch) else {
            self.forget_made();
            return Ok(0);
        };
        if let Err(fault) = self.clock.receive(reading, &stamp) {
            return Err(LineRefusal::Clock(fault));
        }
        let made = Items::new(Vec::new(self.alloc));
        match self.join(batch, made, steps) {
            Ok(()) => Ok(self.batch.len() as u64),
            Err(NoMemory) => Err(LineRefusal::NoMemory),
        }
    }

    /// Begins anew with the messages that the device has, as `start` does with records that keep them: the clock goes on after the last of
    /// them, nothing is pending, and nothing can be undone or redone. What was covered stays covered.
    pub fn restart(&mut self)
        requires { self.old.spent ≡ false }
        ensures { self.new ≡ record (at_rest (begun self.old.state.clock.node self.old.state.messages)) { covered = self.old.covered } }
    {
        // The contract of `len` says that the messages of a log rise.
        let _count = self.known.log.len();
        let last = self.clock.last();
        self.clock = HybridClock::new(last.node, self.known.log.last());
        self.history = History::new(self.alloc);
        self.batch = Vec::new(self.alloc);
        self.made = Items::new(Vec::new(self.alloc));
    }

    /// Answers what `prepare` would answer at this reading, and changes nothing but for want of memory.
    ///
    /// # Errors
    ///
    /// As of `prepare`.
    pub fn would_prepare(&self, edit: &Edit, reading: u64) -> Result<u32, LineRefusal>
        requires live { self.now.spent ≡ false }
        requires valid { IsEdit edit.now }
        ensures ok { IfOk result (WouldBeAccepted (edited self.now.state edit.now reading)) }
        ensures refused { IfErr result (WouldBeRefused (edited self.now.state edit.now reading)) }
    {
        match self.writes(edit) {
            Ok(writes) => self.would_write(Turn::New, writes.as_slice(), reading),
            Err(EditFault::NoMemory) => Err(LineRefusal::NoMemory),
            Err(fault) => Err(LineRefusal::Edit(fault)),
        }
    }

    /// Answers what `undo` would answer.
    pub fn would_undo(&self, reading: u64) -> Result<u32, LineRefusal>
        requires live { self.now.spent ≡ false }
        ensures ok { IfOk result (WouldBeAccepted (undone self.now.state reading)) }
        ensures refused { IfErr result (WouldBeRefused (undone self.now.state reading)) }
    {
        match self.undo_writes() {
            Ok(writes) => self.would_write(Turn::Undo, writes.as_slice(), reading),
            Err(EditFault::NoMemory) => Err(LineRefusal::NoMemory),
            Err(fault) => Err(LineRefusal::Edit(fault)),
        }
    }

    /// Answers what `redo` would answer.
    pub fn would_redo(&self, reading: u64) -> Result<u32, LineRefusal>
        requires live { self.now.spent ≡ false }
        ensures ok { IfOk result (WouldBeAccepted (redone self.now.state reading)) }
        ensures refused { IfErr result (WouldBeRefused (redone self.now.state reading)) }
    {
        match self.redo_writes() {
            Ok(writes) => self.would_write(Turn::Redo, writes.as_slice(), reading),
            Err(EditFault::NoMemory) => Err(LineRefusal::NoMemory),
            Err(fault) => Err(LineRefusal::Edit(fault)),
        }
    }

    /// Answers what `write` would answer.
    #[tactic(auto, using(crate::proofs::Writing::writings))]
    fn would_write(&self, turn: Turn, writes: &[Write], reading: u64) -> Result<u32, LineRefusal>
        requires live { self.now.spent ≡ false }
        ensures ok { IfOk result (WouldBeAccepted (writing self.now.state turn reading (Ok writes.now))) }
        ensures refused { IfErr result (WouldBeRefused (writing self.now.state turn reading (Ok writes.now))) }
    {
        let _turn = turn;
        let count = writes.len();
        if count == 0 {
            return Ok(0);
        }
        if count > MOST_WRITES {
            return Err(LineRefusal::Edit(EditFault::TooManyWrites { n: count as u64 }));
        }
        let last = self.clock.last();
        let mut clock = HybridClock::new(last.node, Some(last));
        match clock.draw(reading, count as u32) {
            Ok(_) => Ok(count as u32),
            Err(fault) => Err(LineRefusal::Clock(fault)),
        }
    }

    /// The records that are pending: `prepare` and `incoming` say which.
    pub fn batch(&self) -> &[Record]
        requires { self.now.spent ≡ false }
        ensures batch { result.now ≡ self.now.batch }
        ensures keys { HaveKeys result.now }
    {
        self.batch.as_slice()
    }

    /// The ids that the last accepted line made for rows, as `prepare` says. Messages that were
    /// received make none.
    pub fn made(&self) -> &Items<Txt>
        requires { self.now.spent ≡ false }
        ensures { result.now ≡ self.now.made }
    {
        &self.made
    }

    /// Takes the batch as kept: nothing is pending any more, and all else stays.
    pub fn commit(&mut self)
        requires { self.old.spent ≡ false }
        ensures { self.new ≡ record self.old { batch = [] } }
    {
        self.batch.clear();
    }

    /// The messages whose timestamp's text is greater than a text, byte by byte.
    pub fn outgoing(&self, since: &[u8]) -> Result<Items<Message>, NoMemory>
        requires { self.now.spent ≡ false }
        ensures messages { IfOk result (λ ms. ms ≡ messages_after since.now self.now.state.messages) }
        ensures valid { IfOk result AreMessages }
    {
        self.known.log.since(since)
    }

    /// The messages.
    pub fn log(&self) -> &Log
        requires { self.now.spent ≡ false }
        ensures log { result.now ≡ record { messages = self.now.state.messages; spent = false } }
        ensures valid { AreMessages self.now.state.messages }
    {
        &self.known.log
    }

    /// The trie of the messages' timestamps, by which two devices find from when on they exchange messages.
    ///
    /// It depends on the messages alone: after the same messages have come, by edits, in batches in
    /// any order, or from records when a device starts again, it holds the same.
    pub fn trie(&self) -> &Trie
        requires { self.now.spent ≡ false }
        ensures live { is_spent result.now ≡ false }
        ensures trie { IsTrieOf (pairs_of self.now.state.messages) result.now }
        ensures pairs { ArePairs (pairs_of self.now.state.messages) }
    {
        // Each timestamp has a minute of the trie.
        tries_are_maps();
        &self.known.trie
    }

    /// The rows that the values of the fields make.
    ///
    /// They depend on the messages alone, as the trie does.
    pub fn book(&self) -> &Book
        requires { self.now.spent ≡ false }
        ensures { result.now ≡ record { rows = rows_of self.now.state.messages; spent = false } }
    {
        &self.known.book
    }

    /// What the transactions of each category add up to in each month, of all months. It is kept, so no transaction is looked at.
    pub fn sums(&self) -> &CellValues
        requires { self.now.spent ≡ false }
        ensures { AreSums result.now (rows_of self.now.state.messages) }
    {
        self.grid.sums()
    }

    /// Covers a month YYYYMM, so that `cell` tells its cells, and all months between it and those that were covered; of these none is
    /// computed anew. After want of memory the device is spent.
    pub fn cover<G: Ledger>(&mut self, month: u32, steps: &mut Steps<G>) -> Result<(), NoMemory>
        requires live { self.old.spent ≡ false }
        requires month { is_month month ≡ true }
        ensures ok { OnOk result (self.new ≡ record self.old { covered = with_month self.old.covered (month_number month) }) }
        ensures covered { OnOk result (is_covered self.new month ≡ true) }
        ensures kept { OnOk result ((kept : ℕ) → is_covered self.old kept ≡ true → is_covered self.new kept ≡ true) }
        ensures err { OnErr result (self.new.spent ≡ true) }
        ensures cost { OnOk result (steps.new ≤ steps.old + month_cost (length (entries (rows_of self.old.state.messages).categories)) (length (entries (rows_of self.old.state.messages).groups)) * more_months self.old.covered self.new.covered) }
    {
        self.spent = true;
        self.grid.extend(&self.known.book, month, steps)?;
        self.spent = false;
        Ok(())
    }

    /// Whether a month YYYYMM is covered: all months in which rows stand are, and those that `cover` covered.
    pub fn is_covered(&self, month: u32) -> bool
        requires { self.now.spent ≡ false }
        ensures covers { result ≡ is_covered self.now month }
        ensures window { HasWindow self.now.covered.0 self.now.covered.1 (window_of (rows_of self.now.state.messages)) }
    {
        self.grid.covers(month)
    }

    /// What a cell of a covered month tells, if there is such a cell.
    pub fn cell(&self, name: &CellName) -> Option<i128>
        requires live { self.now.spent ≡ false }
        requires covered { is_covered self.now name.now.month ≡ true }
        ensures { result ≡ cell_of (budget_of (rows_of self.now.state.messages)) name.now }
    {
        self.grid.cell(name)
    }

    /// All cells of a covered month YYYYMM, in the order of its sheet, read one by one from those that are kept.
    pub fn sheet(&self, month: u32) -> Result<Sheet, NoMemory>
        requires live { self.now.spent ≡ false }
        requires covered { is_covered self.now month ≡ true }
        ensures { IfOk result (λ sheet. sheet.cells ≡ sheet_of (budget_of (rows_of self.now.state.messages)) month) }
    {
        // The cells of a month's names are its sheet.
        sheets_are_named();
        let groups = groups_of(self.alloc, &self.known.book)?;
        let names = cell_names(self.alloc, groups.as_slice(), month)?;
        let cells = cells_of(self.alloc, &self.grid, names.as_slice())?;
        Ok(Sheet {
            cells: Items::new(cells),
        })
    }

    /// The timestamp at which the clock stands. No message has a greater time and counter.
    pub fn clock_last(&self) -> Stamp
        requires { self.now.spent ≡ false }
        ensures value { result ≡ self.now.state.clock }
        ensures stamp { IsStamp result }
        ensures ahead { IsAhead result self.now.state.messages }
    {
        self.clock.last()
    }

    /// Whether a want of memory has spoilt the device.
    pub fn is_spent(&self) -> bool
        ensures { result ≡ self.now.spent }
    {
        self.spent
    }
}

/// The greatest timestamp of messages.
fn greatest_stamp(messages: &[Message]) -> Option<Stamp>
    ensures { result ≡ greatest_of messages.now }
{
    let (first, rest) = messages.split_first()?;
    let mut greatest = first.stamp;
    for message in rest {
        greatest = later_of(greatest, message.stamp);
    }
    Some(greatest)
}

/// The later of two timestamps.
fn later_of(one: Stamp, other: Stamp) -> Stamp
    ensures { result ≡ later_of one other }
{
    if one < other { other } else { one }
}
