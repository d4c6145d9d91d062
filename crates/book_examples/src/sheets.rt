//! Sheets of small households. Expected values are written out by hand from the rules.
ghost use Rattle.std.specs.Prelude.{◌≡◌, IsTrue, false};
ghost use Rattle.book_rows.specs.Months.{is_month};

use crate::books::book_of;
use book_rows::Book;
use envelope_cells::name::Sheet;
use envelope_cells::{CellKind, CellName, CellValues, sheet, sheet_text};
use field_values::{Copied, Txt};
use std::alloc::Global;
use std::test::Fail;

/// An account, an income category and one of expenses. In January 2024 1,000.00 come in and 350.00 go out, of 300.00 that were
/// given; in February 200.00 are given. What the columns of a budget row say of month and category counts for nothing.
pub(crate) const HOUSE: &str =
    "accounts bank name S:Bank; accounts bank offbudget N:0; category_groups gi name S:Income; \
    category_groups gi is_income N:1; categories pay name S:Salary; categories pay cat_group S:gi; \
    categories pay is_income N:1; category_groups g name S:Usual; category_groups g is_income N:0; \
    categories food name S:Food; categories food cat_group S:g; categories food is_income N:0; \
    transactions in acct S:bank; transactions in date N:20240102; transactions in amount N:100000; \
    transactions in category S:pay; transactions out acct S:bank; transactions out date N:20240110; \
    transactions out amount N:-35000; transactions out category S:food; zero_budgets 202401-food month N:202401; \
    zero_budgets 202401-food category S:food; zero_budgets 202401-food amount N:30000; \
    zero_budgets 202402-food month N:202401; zero_budgets 202402-food category S:pay; \
    zero_budgets 202402-food amount N:20000; zero_budgets 202402 amount N:77";

/// Fields beside these, a month, and lines of its sheet; `no` stands before a line's beginning that no line of it has.
const SHEETS: &str =
    r#"notes food note S:weekly > 202401 > to-budget 70000; leftover-food -5000; group-sum-amount-gi 100000
notes food note S:weekly > 202402 > from-last-month 70000; last-month-overspent -5000; to-budget 45000; leftover-food 20000; buffered 0; total-leftover 20000; no leftover-pay; no budget-pay; no group-leftover-gi
zero_budgets 202401-food carryover N:1 > 202401 > carryover-food 1; leftover-food -5000
zero_budgets 202401-food carryover N:1 > 202402 > last-month-overspent 0; to-budget 50000; leftover-food 15000; carryover-food 0
zero_budget_months 2024-01 buffered N:10000 > 202401 > to-budget 60000; buffered 10000
zero_budget_months 2024-01 buffered N:10000 > 202402 > from-last-month 70000; to-budget 45000
categories rent cat_group S:g; zero_budgets 202402-food amount N:15000; zero_budgets 202402-rent amount N:5000 > 202402 > budget-food 15000; budget-rent 5000; leftover-food 15000; leftover-rent 5000; to-budget 45000
categories food tombstone N:1 > 202401 > total-spent 0; to-budget 100000; no sum-amount-food
categories food tombstone N:1 > 202402 > to-budget 100000; no leftover-food
accounts bank offbudget N:1 > 202401 > total-income 0; sum-amount-food 0; to-budget -30000
accounts bank tombstone N:1; accounts bank closed N:1 > 202401 > to-budget 70000
transactions out tombstone N:1 > 202402 > last-month-overspent 0; leftover-food 50000; to-budget 50000
transactions out isParent N:1; transactions a acct S:bank; transactions a date N:20240110; transactions a amount N:-20000; transactions a category S:food; transactions a isChild N:1; transactions a parent_id S:out > 202401 > sum-amount-food -20000; leftover-food 10000
transactions out date N:20240230 > 202401 > total-spent 0; leftover-food 30000"#;

/// All of January.
const JANUARY: &str =
    "total-income 100000\nfrom-last-month 0\navailable-funds 100000\nlast-month-overspent 0\n\
    total-budgeted -30000\nbuffered 0\nto-budget 70000\ntotal-spent -35000\ntotal-leftover -5000\n\
    group-sum-amount-g -35000\ngroup-budget-g 30000\ngroup-leftover-g -5000\nsum-amount-food -35000\n\
    budget-food 30000\ncarryover-food 0\nleftover-food -5000\ngroup-sum-amount-gi 100000\nsum-amount-pay 100000\n";

/// An account and an expense category.
const BANK: &str =
    "accounts bank name S:Bank; category_groups g name S:Usual; categories food cat_group S:g";

/// 10.00 go out on the first day of the month that stands for `MM`.
const SPENT: &str =
    "; transactions MM acct S:bank; transactions MM date N:2024MM01; transactions MM amount N:-1000; \
    transactions MM category S:food";

/// The months of 2024 in which 10.00 go out.
const MONTHS: &str = "01 02 03 04 05 06 07 08 09 10 11 12";

/// Sheets of that year, where the account is on the budget, and where it isn't.
const YEAR: &str =
    r#"notes food note S:weekly > 202412 > to-budget -11000; leftover-food -1000; sum-amount-food -1000
accounts bank offbudget N:1 > 202412 > to-budget 0; leftover-food 0; sum-amount-food 0
accounts bank offbudget N:1 > 202401 > to-budget 0; leftover-food 0; sum-amount-food 0"#;

/// The month of a text, or December 2024.
fn month_of(text: &str) -> u32
    ensures { IsTrue (is_month result) }
{
    match text {
        "202401" => 202_401,
        "202402" => 202_402,
        _ => 202_412,
    }
}

/// The sheet of a month.
fn sheet_of(alloc: Global, book: &Book, month: &str) -> Result<Sheet, Fail>
    requires { book.now.spent ≡ false }
{
    let made = sheet(alloc, book, month_of(month))?;
    Ok(made)
}

/// The text of a month's sheet, in the book of these fields.
fn text_of(alloc: Global, fields: &str, month: &str) -> Result<Txt, Fail> {
    let book = book_of(alloc, fields)?;
    let made = sheet_of(alloc, &book, month)?;
    Ok(sheet_text(alloc, &made)?)
}

/// Whether a sheet's text has the line, or no line that begins as what stands behind `no`.
fn has(text: &str, wanted: &str) -> bool {
    let unwanted = wanted.strip_prefix("no ");
    for line in text.lines() {
        match unwanted {
            Some(name) if line.starts_with(name) => return false,
            None if line == wanted => return true,
            _ => (),
        }
    }
    unwanted.is_some()
}

/// Of what is wanted of a sheet's text, the first that isn't so.
pub(crate) fn first_missing<'a>(text: &str, wanted: &'a str) -> &'a str {
    for line in wanted.split("; ") {
        if !has(text, line) {
            return line;
        }
    }
    ""
}

/// Of rows "fields > month > lines", where other fields come before, the first with what its sheet lacks.
fn first_wrong(alloc: Global, before: &str, rows: &str) -> Result<String, Fail> {
    for row in rows.lines() {
        let (fields, rest) = row.split_once(" > ").unwrap_or((row, ""));
        let (month, wanted) = rest.split_once(" > ").unwrap_or((rest, ""));
        let fields = format!(in alloc; "{before}; {fields}")?;
        let text = text_of(alloc, fields.as_str(), month)?;
        let missing = first_missing(text.as_str(), wanted);
        if missing != "" {
            return Ok(format!(in alloc; "{row}: {missing}")?);
        }
    }
    Ok(String::new(alloc))
}

#[test]
fn households(rt: HostRuntime) -> Result<(), Fail> {
    assert_eq!(rt; first_wrong(rt.alloc(), HOUSE, SHEETS)?.as_str(), "");
    assert_eq!(rt; text_of(rt.alloc(), HOUSE, "202401")?.as_str(), JANUARY);
    Ok(())
}

/// The fields of a year in which the same is spent each month.
fn year(alloc: Global) -> Result<String, Fail> {
    let mut fields = String::from_str(alloc, BANK)?;
    for month in MONTHS.split(' ') {
        fields.push_str(SPENT.replace(alloc, "MM", month)?.as_str())?;
    }
    Ok(fields)
}

#[test]
fn year_off_the_budget(rt: HostRuntime) -> Result<(), Fail> {
    let before = year(rt.alloc())?;
    assert_eq!(rt;
        first_wrong(rt.alloc(), before.as_str(), YEAR)?.as_str(),
        ""
    );
    Ok(())
}

/// A copy of the name of a cell of January.
fn named(alloc: Global, kind: CellKind, id: &str) -> Result<CellName, Fail> {
    let id = Txt::from_text(alloc, id)?;
    Ok(CellName::make(202_401, kind, &id)?.copy()?.copied()?)
}

/// What a cell of January tells in that household.
fn cell(alloc: Global, kind: CellKind, id: &str) -> Result<Option<i128>, Fail> {
    let name = named(alloc, kind, id)?;
    let book = book_of(alloc, HOUSE)?;
    let made = sheet_of(alloc, &book, "202401")?;
    Ok(made.cell(&name))
}

/// The values of a cell to which 7 is added, and of one in which 5 is put.
fn values(alloc: Global) -> Result<(i128, i128), Fail> {
    let mut values = CellValues::new(alloc);
    values.add(named(alloc, CellKind::Budget, "food")?, 7)?;
    values.put(named(alloc, CellKind::Leftover, "food")?, 5)?;
    let budget = named(alloc, CellKind::Budget, "food")?;
    let leftover = named(alloc, CellKind::Leftover, "food")?;
    Ok((values.at(&budget), values.at(&leftover)))
}

#[test]
fn cells_by_name(rt: HostRuntime) -> Result<(), Fail> {
    assert_eq!(rt; cell(rt.alloc(), CellKind::Leftover, "food")?, Some(-5000));
    assert_eq!(rt; cell(rt.alloc(), CellKind::Leftover, "pay")?, None);
    assert_eq!(rt; values(rt.alloc())?, (7, 5));
    Ok(())
}
