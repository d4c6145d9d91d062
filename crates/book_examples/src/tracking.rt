//! Sheets of the tracking budget of a small household. Expected values come from a few lines of Python that follow the rules.
ghost use Rattle.std.specs.Prelude.{◌≡◌, ◌≤◌, IsTrue, false};
ghost use Rattle.book_rows.specs.Months.{is_month};

use crate::books::book_of;
use crate::sheets::{HOUSE, first_missing};
use book_rows::Book;
use envelope_cells::category_sums;
use field_values::{Steps, Txt};
use std::alloc::Global;
use std::marker::Brand;
use std::sync::ledger::{Blank, Ledger};
use std::test::Fail;
use tracking_budget::{TrackSheet, track_cell, track_line, track_named, track_sheet};

/// What the tracking budget gives in that household: in January 300.00 for food, where 350.00 go out, and 900.00 are to come in, where
/// 1,000.00 do; in February 200.00 for food. What the columns of a row say of month and category counts for nothing.
const TRACKED: &str =
    "; reflect_budgets 202401-food month N:202402; reflect_budgets 202401-food category S:pay; \
    reflect_budgets 202401-food amount N:30000; reflect_budgets 202401-pay amount N:90000; \
    reflect_budgets 202402-food amount N:20000; reflect_budgets 202402 amount N:77";

/// Fields beside these, a month, and lines of its sheet; `no` stands before a line's beginning that no line of it has.
const SHEETS: &str =
    r#"notes food note S:weekly > 202402 > total-income 0; total-budgeted 20000; total-leftover 20000; total-saved -20000; leftover-food 20000; leftover-pay 0; no buffered; no group-
reflect_budgets 202401-food carryover N:1 > 202401 > carryover-food 1; leftover-food -5000
reflect_budgets 202401-food carryover N:1 > 202402 > total-leftover 15000; carryover-food 0; leftover-food 15000
reflect_budgets 202402-food carryover N:1 > 202403 > leftover-food 20000
reflect_budgets 202401-food carryover N:1; reflect_budgets 202402-food carryover N:1 > 202403 > budget-food 0; leftover-food 15000
zero_budgets 202401-food carryover N:1; zero_budgets 202401-pay amount N:7 > 202402 > leftover-food 20000; leftover-pay 0
reflect_budgets 202401-pay carryover N:1 > 202402 > leftover-pay -10000; total-leftover 20000
reflect_budgets 202401-food carryover N:1; category_groups g is_income N:1 > 202401 > total-income 65000; total-budget-income 120000; total-leftover 0; leftover-food 65000
reflect_budgets 202401-food carryover N:1; category_groups g is_income N:1 > 202402 > total-budget-income 20000; leftover-food 85000
categories food tombstone N:1 > 202401 > total-budgeted 0; total-saved 90000; real-saved 100000; no sum-amount-food
reflect_budgets 196912-food amount N:700; reflect_budgets 196912-food carryover N:1 > 197001 > leftover-food 0; total-leftover 0
reflect_budgets 219911-food amount N:100; reflect_budgets 219911-food carryover N:1 > 219912 > leftover-food 100; total-leftover 100"#;

/// All of January.
const JANUARY: &str =
    "total-income 100000\ntotal-budget-income 90000\ntotal-budgeted 30000\ntotal-spent -35000\n\
    total-leftover -5000\ntotal-saved 60000\nreal-saved 65000\nsum-amount-food -35000\nbudget-food 30000\n\
    carryover-food 0\nleftover-food -5000\nsum-amount-pay 100000\nbudget-pay 90000\ncarryover-pay 0\nleftover-pay -10000\n";

/// Names, and what the cells of January tell: `none` where there is no such category, and `?` where the name is of no kind.
const CELLS: &str = r#"leftover-food -5000
leftover-pay -10000
carryover-food 0
total-saved 60000
real-saved 65000
leftover-rent none
sum-amount- none
group-budget-g ?
to-budget ?
total-savedx ?"#;

/// The month of a text, or January 2024.
fn month_of(text: &str) -> u32
    ensures { IsTrue (is_month result) }
{
    match text {
        "197001" => 197_001,
        "202402" => 202_402,
        "202403" => 202_403,
        "219912" => 219_912,
        _ => 202_401,
    }
}

/// The sheet of a month, with a counter of steps that nobody reads.
fn sheet_over<G: Ledger>(
    blank: Blank,
    alloc: Global,
    book: &Book,
    month: u32,
) -> Result<TrackSheet, Fail>
    requires name { blank.name ≡ G.name }
    requires parts { blank.parts ≡ G.parts }
    requires some { 1 ≤ G.parts }
    requires live { book.now.spent ≡ false }
    requires month { IsTrue (is_month month) }
{
    let mut steps = Steps::<G>::new(blank);
    book.sizes();
    let sums = category_sums(alloc, book, &mut steps)?;
    Ok(track_sheet(alloc, book, &sums, month, &mut steps)?)
}

/// The lines of a sheet.
fn lines_of(alloc: Global, sheet: &TrackSheet) -> Result<Txt, Fail> {
    let mut text = String::new(alloc);
    for cell in sheet.cells.as_slice() {
        text.push_str(track_line(alloc, cell)?.as_str())?;
        text.push_str("\n")?;
    }
    Ok(Txt::new(text))
}

/// The lines of the sheet of a month.
fn lines_over(alloc: Global, book: &Book, month: u32) -> Result<Txt, Fail>
    requires live { book.now.spent ≡ false }
    requires month { IsTrue (is_month month) }
{
    let sheet = sheet_over::<Brand>(Blank::new(1), alloc, book, month)?;
    lines_of(alloc, &sheet)
}

/// The text of a month's sheet, in the book of these fields.
fn text_of(alloc: Global, fields: &str, month: &str) -> Result<Txt, Fail> {
    let book = book_of(alloc, fields)?;
    lines_over(alloc, &book, month_of(month))
}

/// Of rows "fields > month > lines", where other fields come before, the first with what its sheet lacks.
fn first_wrong(alloc: Global, before: &str, rows: &str) -> Result<String, Fail> {
    for row in rows.lines() {
        let (fields, rest) = row.split_once(" > ").unwrap_or((row, ""));
        let (month, wanted) = rest.split_once(" > ").unwrap_or((rest, ""));
        let fields = format!(in alloc; "{before}; {fields}")?;
        let text = text_of(alloc, fields.as_str(), month)?;
        let missing = first_missing(text.as_str(), wanted);
        if missing != "" {
            return Ok(format!(in alloc; "{row}: {missing}")?);
        }
    }
    Ok(String::new(alloc))
}

#[test]
fn households(rt: HostRuntime) -> Result<(), Fail> {
    let tracked = format!(in rt.alloc(); "{HOUSE}{TRACKED}")?;
    let before = tracked.as_str();
    assert_eq!(rt; first_wrong(rt.alloc(), before, SHEETS)?.as_str(), "");
    assert_eq!(rt; text_of(rt.alloc(), before, "202401")?.as_str(), JANUARY);
    Ok(())
}

/// What a cell of January tells, by its name.
fn cell_over<G: Ledger>(
    blank: Blank,
    alloc: Global,
    book: &Book,
    name: &Txt,
) -> Result<String, Fail>
    requires name { blank.name ≡ G.name }
    requires parts { blank.parts ≡ G.parts }
    requires some { 1 ≤ G.parts }
    requires live { book.now.spent ≡ false }
{
    let mut steps = Steps::<G>::new(blank);
    book.sizes();
    let sums = category_sums(alloc, book, &mut steps)?;
    let Some(name) = track_named(alloc, 202_401, name)? else {
        return Ok(String::from_str(alloc, "?")?);
    };
    match track_cell(alloc, book, &sums, &name, &mut steps)? {
        Some(value) => Ok(format!(in alloc; "{value}")?),
        None => Ok(String::from_str(alloc, "none")?),
    }
}

/// The same, with a counter of steps that nobody reads.
fn cell_of(alloc: Global, book: &Book, name: &Txt) -> Result<String, Fail>
    requires { book.now.spent ≡ false }
{
    cell_over::<Brand>(Blank::new(1), alloc, book, name)
}

/// What the cell of a name tells in January, in the book of these fields.
fn told(alloc: Global, fields: &str, name: &str) -> Result<String, Fail> {
    let book = book_of(alloc, fields)?;
    let name = Txt::from_text(alloc, name)?;
    cell_of(alloc, &book, &name)
}

/// Of rows "name value", the first that is another one in the book of these fields, with its value.
fn first_other(alloc: Global, fields: &str, rows: &str) -> Result<String, Fail> {
    for row in rows.lines() {
        let (name, wanted) = row.split_once(" ").unwrap_or((row, ""));
        let value = told(alloc, fields, name)?;
        if value.as_str() != wanted {
            return Ok(format!(in alloc; "{row}: {value}")?);
        }
    }
    Ok(String::new(alloc))
}

#[test]
fn cells_by_name(rt: HostRuntime) -> Result<(), Fail> {
    let tracked = format!(in rt.alloc(); "{HOUSE}{TRACKED}")?;
    assert_eq!(rt;
        first_other(rt.alloc(), tracked.as_str(), CELLS)?.as_str(),
        ""
    );
    Ok(())
}
