//! The answers of the lines that ask of the tracking budget.
ghost use Rattle.std.specs.Prelude.{◌≡◌, ◌≤◌, false, IsTrue, IfOk, map};
ghost use Rattle.std.specs.Fmt.{signed_decimal};
ghost use Rattle.book_rows.specs.Months.{is_month};
ghost use Rattle.envelope_cells.specs.Parts.{AreSums};
ghost use Rattle.tracking_budget.specs.CellOf.{track_cell_of};
ghost use Rattle.tracking_budget.specs.Names.{track_line};
ghost use Rattle.tracking_budget.specs.SheetOf.{track_cells};
ghost use Rattle.tracking_budget.specs.Tracked.{tracked_of};
ghost use Rattle.command_lines.specs.BookAnswers.{told_track, track_cell_answer, track_sheet_answer};

use crate::refusal::{bad_month, no_category};
use crate::reply::{Reply, faulty_reply, one_line};
use book_rows::{Book, is_month};
use envelope_cells::CellValues;
use field_values::{Items, NoMemory, Steps, Txt};
use std::alloc::Global;
use std::marker::Brand;
use std::sync::ledger::{Blank, Ledger};
use tracking_budget::{
    TrackCell, TrackName, TrackSheet, track_cell, track_line, track_named, track_sheet,
};

/// The sheet of a month, over a counter of its own.
fn sheet_over<G: Ledger>(
    alloc: Global,
    book: &Book,
    sums: &CellValues,
    month: u32,
    blank: Blank,
) -> Result<TrackSheet, NoMemory>
    requires name { blank.name ≡ G.name }
    requires parts { blank.parts ≡ G.parts }
    requires some { 1 ≤ G.parts }
    requires live { book.now.spent ≡ false }
    requires month { IsTrue (is_month month) }
    requires sums { AreSums sums.now book.now.rows }
    ensures { IfOk result (λ sheet. sheet.cells ≡ track_cells (tracked_of book.now.rows) month) }
{
    let mut steps = Steps::<G>::new(blank);
    track_sheet(alloc, book, sums, month, &mut steps)
}

/// What a cell tells, over a counter of its own.
fn value_over<G: Ledger>(
    alloc: Global,
    book: &Book,
    sums: &CellValues,
    name: &TrackName,
    blank: Blank,
) -> Result<Option<i128>, NoMemory>
    requires name { blank.name ≡ G.name }
    requires parts { blank.parts ≡ G.parts }
    requires some { 1 ≤ G.parts }
    requires live { book.now.spent ≡ false }
    requires month { IsTrue (is_month name.now.month) }
    requires sums { AreSums sums.now book.now.rows }
    ensures { IfOk result (λ value. value ≡ track_cell_of (tracked_of book.now.rows) name.now) }
{
    let mut steps = Steps::<G>::new(blank);
    track_cell(alloc, book, sums, name, &mut steps)
}

/// The reply that tells of a cell, or that there is no such category.
fn told_reply(alloc: Global, name: &TrackName, value: Option<i128>) -> Result<Reply, NoMemory>
    ensures { IfOk result (λ r. r ≡ told_track name.now value) }
{
    match value {
        Some(value) => {
            let text = format!(in alloc; "{value}")?;
            one_line(alloc, Txt::new(text))
        }
        None => no_category(alloc, &name.id),
    }
}

/// The reply that tells of a cell of a month, or that there is no such category.
fn named_reply(
    alloc: Global,
    book: &Book,
    sums: &CellValues,
    name: &TrackName,
) -> Result<Reply, NoMemory>
    requires live { book.now.spent ≡ false }
    requires month { IsTrue (is_month name.now.month) }
    requires sums { AreSums sums.now book.now.rows }
    ensures { IfOk result (λ r. r ≡ told_track name.now (track_cell_of (tracked_of book.now.rows) name.now)) }
{
    let value = value_over::<Brand>(alloc, book, sums, name, Blank::new(1))?;
    told_reply(alloc, name, value)
}

/// The reply to `track-cell`: what a cell of the tracking budget tells of a month. The month is judged first, then the name.
pub(crate) fn track_cell_reply(
    alloc: Global,
    book: &Book,
    sums: &CellValues,
    month: u32,
    name: &Txt,
) -> Result<Reply, NoMemory>
    requires live { book.now.spent ≡ false }
    requires sums { AreSums sums.now book.now.rows }
    ensures { IfOk result (λ r. r ≡ track_cell_answer book.now.rows month name.now) }
{
    if !is_month(month) {
        return bad_month(alloc, month);
    }
    match track_named(alloc, month, name)? {
        Some(name) => named_reply(alloc, book, sums, &name),
        None => faulty_reply(alloc, 2),
    }
}

/// The lines of cells.
fn lines_of(alloc: Global, cells: &[TrackCell]) -> Result<Items<Txt>, NoMemory>
    ensures { IfOk result (λ lines. lines ≡ map track_line cells.now) }
{
    let mut lines = Vec::new(alloc);
    for cell in cells {
        lines.push(track_line(alloc, cell)?)?;
    }
    Ok(Items::new(lines))
}

/// The reply to `track-sheet`: all cells of the tracking budget of a month.
pub(crate) fn track_sheet_reply(
    alloc: Global,
    book: &Book,
    sums: &CellValues,
    month: u32,
) -> Result<Reply, NoMemory>
    requires live { book.now.spent ≡ false }
    requires sums { AreSums sums.now book.now.rows }
    ensures { IfOk result (λ r. r ≡ track_sheet_answer book.now.rows month) }
{
    if !is_month(month) {
        return bad_month(alloc, month);
    }
    let sheet = sheet_over::<Brand>(alloc, book, sums, month, Blank::new(1))?;
    let lines = lines_of(alloc, sheet.cells.as_slice())?;
    Ok(Reply::Done { lines })
}
