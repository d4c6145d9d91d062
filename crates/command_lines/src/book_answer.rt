//! The answers of the lines that ask of the books.
ghost use Rattle.std.specs.Prelude.{◌≡◌, false, IsTrue, IfOk, map};
ghost use Rattle.std.specs.Fmt.{signed_decimal};
ghost use Rattle.book_rows.specs.Live.{is_live_account};
ghost use Rattle.book_rows.specs.Months.{is_month};
ghost use Rattle.envelope_cells.specs.BudgetOf.{budget_of};
ghost use Rattle.envelope_cells.specs.CellOf.{cell_of};
ghost use Rattle.envelope_cells.specs.SheetOf.{sheet_of};
ghost use Rattle.device_core.specs.Books.{rows_of};
ghost use Rattle.command_lines.specs.declared.reply.Reply.TheVariants.{Done};
ghost use Rattle.command_lines.specs.BookAnswers.{balance_answer, register_answer, told_cell, cell_answer, cell_text, sheet_answer, broken_answer};

use crate::cell_names::{cell_named, is_of_group};
use crate::refusal::{bad_month, no_account, no_category, no_group};
use crate::register::register_lines;
use crate::reply::{Reply, faulty_reply, one_line};
use crate::text_lines::lines_in;
use book_rows::{Book, is_month};
use device_core::Device;
use envelope_cells::name::Sheet;
use envelope_cells::{Cell, CellName, sheet, sheets_tell_cells};
use field_values::{Items, NoMemory, Txt};
use itoa::Buffer;
use split_transfer::broken;
use std::alloc::Global;

/// Whether an account is there and was not deleted.
fn is_live(book: &Book, account: &Txt) -> bool
    ensures { result ≡ is_live_account book.now.rows account.now }
{
    match book.account(account) {
        Some(row) => !row.tombstone,
        None => false,
    }
}

/// The decimal text of a number.
fn signed_text(alloc: Global, number: i128) -> Result<Txt, NoMemory>
    ensures { IfOk result (λ t. t ≡ signed_decimal number) }
{
    let text = format!(in alloc; "{number}")?;
    Ok(Txt::new(text))
}

/// The reply to `balance`: the balance of a live account.
pub(crate) fn balance_reply(alloc: Global, book: &Book, account: &Txt) -> Result<Reply, NoMemory>
    requires live { book.now.spent ≡ false }
    ensures { IfOk result (λ r. r ≡ balance_answer book.now.rows account.now) }
{
    if !is_live(book, account) {
        return no_account(alloc, account);
    }
    let balance = signed_text(alloc, book.balance(account))?;
    one_line(alloc, balance)
}

/// The reply to `register`: the live transactions of a live account.
pub(crate) fn register_reply(alloc: Global, book: &Book, account: &Txt) -> Result<Reply, NoMemory>
    requires live { book.now.spent ≡ false }
    ensures { IfOk result (λ r. r ≡ register_answer book.now.rows account.now) }
{
    if !is_live(book, account) {
        return no_account(alloc, account);
    }
    let lines = register_lines(alloc, book, account)?;
    Ok(Reply::Done { lines })
}

/// All cells of a month of a device's books, computed from its book.
fn computed_sheet(alloc: Global, device: &Device, month: u32) -> Result<Sheet, NoMemory>
    requires live { device.now.spent ≡ false }
    requires month { IsTrue (is_month month) }
    ensures { IfOk result (λ sheet. sheet.cells ≡ sheet_of (budget_of (rows_of device.now.state.messages)) month) }
{
    sheet(alloc, device.book(), month)
}

/// All cells of a month of a device's books: those that are kept, or computed where the month is not covered.
fn month_sheet(alloc: Global, device: &Device, month: u32) -> Result<Sheet, NoMemory>
    requires live { device.now.spent ≡ false }
    requires month { IsTrue (is_month month) }
    ensures { IfOk result (λ sheet. sheet.cells ≡ sheet_of (budget_of (rows_of device.now.state.messages)) month) }
{
    if device.is_covered(month) {
        device.sheet(month)
    } else {
        computed_sheet(alloc, device, month)
    }
}

/// What a cell of a device's books tells, computed from its book.
fn computed_value(alloc: Global, device: &Device, name: &CellName) -> Result<Option<i128>, NoMemory>
    requires live { device.now.spent ≡ false }
    requires month { IsTrue (is_month name.now.month) }
    ensures { IfOk result (λ value. value ≡ cell_of (budget_of (rows_of device.now.state.messages)) name.now) }
{
    // What a sheet tells of a cell of its month is what the cell tells.
    sheets_tell_cells();
    let sheet = computed_sheet(alloc, device, name.month)?;
    Ok(sheet.cell(name))
}

/// What a cell of a device's books tells: what is kept of it, or what is computed where its month is not covered.
fn cell_value(alloc: Global, device: &Device, name: &CellName) -> Result<Option<i128>, NoMemory>
    requires live { device.now.spent ≡ false }
    requires month { IsTrue (is_month name.now.month) }
    ensures { IfOk result (λ value. value ≡ cell_of (budget_of (rows_of device.now.state.messages)) name.now) }
{
    if device.is_covered(name.month) {
        Ok(device.cell(name))
    } else {
        computed_value(alloc, device, name)
    }
}

/// The reply that tells of a cell, or that there is no such group or category.
fn told_reply(alloc: Global, name: &CellName, value: Option<i128>) -> Result<Reply, NoMemory>
    ensures { IfOk result (λ r. r ≡ told_cell name.now value) }
{
    match value {
        Some(value) => {
            let text = signed_text(alloc, value)?;
            one_line(alloc, text)
        }
        None => {
            if is_of_group(name.kind) {
                no_group(alloc, &name.id)
            } else {
                no_category(alloc, &name.id)
            }
        }
    }
}

/// The reply that tells of a cell of a month, or that there is no such group or category.
fn named_reply(alloc: Global, device: &Device, name: &CellName) -> Result<Reply, NoMemory>
    requires live { device.now.spent ≡ false }
    requires month { IsTrue (is_month name.now.month) }
    ensures { IfOk result (λ r. r ≡ told_cell name.now (cell_of (budget_of (rows_of device.now.state.messages)) name.now)) }
{
    let value = cell_value(alloc, device, name)?;
    told_reply(alloc, name, value)
}

/// The reply to `cell`: what a cell of a month tells. The month is judged first, then the name.
pub(crate) fn cell_reply(
    alloc: Global,
    device: &Device,
    month: u32,
    name: &Txt,
) -> Result<Reply, NoMemory>
    requires live { device.now.spent ≡ false }
    ensures { IfOk result (λ r. r ≡ cell_answer (rows_of device.now.state.messages) month name.now) }
{
    if !is_month(month) {
        return bad_month(alloc, month);
    }
    match cell_named(alloc, month, name)? {
        Some(name) => named_reply(alloc, device, &name),
        None => faulty_reply(alloc, 2),
    }
}

/// The line of a cell: its name, a blank and its number.
fn cell_line(alloc: Global, cell: &Cell) -> Result<Txt, NoMemory>
    ensures { IfOk result (λ t. t ≡ cell_text cell.now) }
{
    let mut buffer = Buffer::new();
    let mut text = String::new(alloc);
    text.push_str(cell.name.kind.text())?;
    text.push_str(cell.name.id.as_str())?;
    text.push(' ')?;
    text.push_str(buffer.format(cell.value))?;
    Ok(Txt::new(text))
}

/// The lines of cells.
fn cell_lines(alloc: Global, cells: &[Cell]) -> Result<Items<Txt>, NoMemory>
    ensures { IfOk result (λ lines. lines ≡ map cell_text cells.now) }
{
    let mut lines = Vec::new(alloc);
    for cell in cells {
        lines.push(cell_line(alloc, cell)?)?;
    }
    Ok(Items::new(lines))
}

/// The reply to `sheet`: all cells of a month.
pub(crate) fn sheet_reply(alloc: Global, device: &Device, month: u32) -> Result<Reply, NoMemory>
    requires live { device.now.spent ≡ false }
    ensures { IfOk result (λ r. r ≡ sheet_answer (rows_of device.now.state.messages) month) }
{
    if !is_month(month) {
        return bad_month(alloc, month);
    }
    let sheet = month_sheet(alloc, device, month)?;
    let lines = cell_lines(alloc, sheet.cells.as_slice())?;
    Ok(Reply::Done { lines })
}

/// The reply to `broken`: the transfers and splits that are wrong.
pub(crate) fn broken_reply(alloc: Global, book: &Book) -> Result<Reply, NoMemory>
    requires live { book.now.spent ≡ false }
    ensures { IfOk result (λ r. r ≡ broken_answer book.now.rows) }
{
    let text = broken(alloc, book)?;
    let lines = lines_in(alloc, text.as_str())?;
    Ok(Reply::Done { lines })
}
