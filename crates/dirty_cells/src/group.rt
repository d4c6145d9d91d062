//! The cells of a group in a month, computed anew from those of its categories.
ghost use Rattle.std.specs.Prelude.{◌≡◌, ℕ, List, [], ◌∷◌, ◌+◌, ◌*◌, length, ◌≤◌, ◌<◌, ◌^◌, unsigned_abs, true, false, not, filter, pos, Option, Some, None, unwrap_or, OnOk, IfOk};
ghost use Rattle.std.specs.FinMap as map;
ghost use Rattle.finite_sums.specs.Sums.{total, weight};
ghost use Rattle.finite_sums.specs.Maps.{Text, text_cmp};
ghost use Rattle.std.specs.Ordering.{eq_by_cmp};
ghost use Rattle.envelope_cells.specs.Names.{Cells};
ghost use Rattle.envelope_cells.specs.Budget.{Budget as BudgetIs, expense_groups};
ghost use Rattle.envelope_cells.specs.BudgetOf.{budget_of, groups_of};
ghost use Rattle.std.specs.Option.{option_copied};
ghost use Rattle.envelope_cells.specs.CellOf.{value_of, group_named};
ghost use Rattle.envelope_cells.specs.Ids.{month_at};
ghost use Rattle.envelope_cells.specs.declared.name.CellName.{CellName as CellNameIs};
ghost use Rattle.envelope_cells.specs.declared.name.CellKind.{CellKind as CellKindIs};
ghost use Rattle.envelope_cells.specs.declared.name.CellKind.TheVariants.{GroupSum, GroupBudget, GroupLeftover, Sum, Budget as OfBudget, Leftover};
ghost use Rattle.dirty_cells.specs.Grid.{is_pending};
ghost use Rattle.dirty_cells.specs.Right.{AreRightBut, cell_at, kept_value, HasCategories};

use crate::category::kept;
use crate::row::GroupCells;
use crate::store::Store;
use book_rows::Book;
use envelope_cells::{BudgetGroup, CellKind, CellName, month_at};
use field_values::{NoMemory, Steps, Txt};
use std::cmp::Ordering;
use std::sync::ledger::Ledger;

/// What the kept cells of one kind tell of some ids in a month, added up; a cell that is not kept is 0.
fn sum_kept(
    cells: &Store,
    ids: &[Txt],
    kind: CellKind,
    month: u32,
    number: u32,
) -> Result<i128, NoMemory>
    requires month { month ≡ month_at number }
    requires small { weight (λ id. unsigned_abs (kept_value cells.now number kind id)) ids.now ≤ 2 ^ 120 }
    ensures { IfOk result (λ z. z ≡ total (kept_value cells.now number kind) ids.now) }
{
    let mut sum = 0i128;
    for id in ids {
        let name = CellName::make(month, kind, id)?;
        sum += kept(cells, &name);
    }
    Ok(sum)
}

/// What the kept cells of some categories tell in a month, added up.
#[derive(Clone, Copy)]
pub(crate) struct Sums {
    pub sum: i128,
    pub budget: i128,
    pub leftover: i128,
}

/// What the kept cells of some expense categories tell in a month, added up; a cell that is not kept is 0.
fn sums_kept(cells: &Store, ids: &[Txt], month: u32, number: u32) -> Sums
    requires month { month ≡ month_at number }
    requires sum { weight (λ id. unsigned_abs (kept_value cells.now number Sum id)) ids.now ≤ 2 ^ 120 }
    requires budget { weight (λ id. unsigned_abs (kept_value cells.now number OfBudget id)) ids.now ≤ 2 ^ 120 }
    requires leftover { weight (λ id. unsigned_abs (kept_value cells.now number Leftover id)) ids.now ≤ 2 ^ 120 }
    ensures sum { result.sum ≡ total (kept_value cells.now number Sum) ids.now }
    ensures budget { result.budget ≡ total (kept_value cells.now number OfBudget) ids.now }
    ensures leftover { result.leftover ≡ total (kept_value cells.now number Leftover) ids.now }
{
    let mut sum = 0i128;
    let mut budget = 0i128;
    let mut leftover = 0i128;
    for id in ids {
        let more = cells.category(id, month);
        sum += more.sum;
        budget += more.budget;
        leftover += more.leftover;
    }
    Sums {
        sum,
        budget,
        leftover,
    }
}

/// Settles the three cells of a group.
fn settle_group<G: Ledger>(
    cells: &mut Store,
    id: &Txt,
    month: u32,
    number: u32,
    sum: Option<i128>,
    budget: Option<i128>,
    leftover: Option<i128>,
    steps: &mut Steps<G>,
) -> Result<(), NoMemory>
    requires month { month ≡ month_at number }
    ensures right { OnOk result ((b : BudgetIs) (cs rest : List Text) → sum ≡ value_of b number GroupSum id.now → budget ≡ value_of b number GroupBudget id.now → leftover ≡ value_of b number GroupLeftover id.now → AreRightBut cells.old b number (is_pending cs (id.now ∷ rest) true) → AreRightBut cells.new b number (is_pending cs rest true)) }
    ensures others { OnOk result ((q : CellNameIs) → (q.month ≡ month_at number → ⊥) → map.get cells.new q ≡ map.get cells.old q) }
    ensures cost { OnOk result (steps.new ≡ steps.old + 3) }
{
    let told = GroupCells {
        sum,
        budget,
        leftover,
    };
    cells.settle_group(id, month, told, steps)
}

/// Computes the cells of a live group in a month anew, from the kept cells of its categories: three of them are written or taken away.
pub(crate) fn refresh_group<G: Ledger>(
    cells: &mut Store,
    book: &Book,
    id: &Txt,
    is_income: bool,
    categories: &[Txt],
    number: u32,
    steps: &mut Steps<G>,
) -> Result<(), NoMemory>
    requires live { book.now.spent ≡ false }
    requires number { number < 2760 }
    requires group { group_named (budget_of book.now.rows).groups id.now ≡ Some (record { id = id.now; is_income = is_income; categories = categories.now }) }
    requires income { is_income ≡ true → group_named (expense_groups (budget_of book.now.rows)) id.now ≡ None }
    requires expense { is_income ≡ false → group_named (expense_groups (budget_of book.now.rows)) id.now ≡ Some (record { id = id.now; is_income = is_income; categories = categories.now }) }
    requires has { HasCategories cells.old (budget_of book.now.rows) number }
    ensures right { OnOk result ((cs rest : List Text) → AreRightBut cells.old (budget_of book.now.rows) number (is_pending cs (id.now ∷ rest) true) → AreRightBut cells.new (budget_of book.now.rows) number (is_pending cs rest true)) }
    ensures others { OnOk result ((q : CellNameIs) → (q.month ≡ month_at number → ⊥) → map.get cells.new q ≡ map.get cells.old q) }
    ensures cost { OnOk result (steps.new ≡ steps.old + 3) }
{
    book.sizes();
    let month = month_at(number);
    if is_income {
        let sum = sum_kept(cells, categories, CellKind::Sum, month, number)?;
        return settle_group(cells, id, month, number, Some(sum), None, None, steps);
    }
    let sums = sums_kept(cells, categories, month, number);
    settle_group(
        cells,
        id,
        month,
        number,
        Some(sums.sum),
        Some(sums.budget),
        Some(sums.leftover),
        steps,
    )
}

/// Whether two texts are the same.
fn is_same(a: &Txt, b: &Txt) -> bool
    ensures { result ≡ eq_by_cmp text_cmp a.now b.now }
{
    a.cmp(b) == Ordering::Equal
}

/// The group of an id, if it is live.
fn find_group<'a>(groups: &'a [BudgetGroup], id: &Txt) -> Option<&'a BudgetGroup>
    ensures { option_copied result ≡ group_named groups.now id.now }
{
    for group in groups {
        if is_same(id, &group.id) {
            return Some(group);
        }
    }
    None
}

/// Computes the cells of some groups in a month anew, live or not.
pub(crate) fn refresh_groups<G: Ledger>(
    cells: &mut Store,
    book: &Book,
    groups: &[BudgetGroup],
    ids: &[Txt],
    number: u32,
    steps: &mut Steps<G>,
) -> Result<(), NoMemory>
    requires live { book.now.spent ≡ false }
    requires number { number < 2760 }
    requires groups { groups.now ≡ groups_of book.now.rows }
    requires right { AreRightBut cells.old (budget_of book.now.rows) number (is_pending [] ids.now true) }
    ensures right { OnOk result (AreRightBut cells.new (budget_of book.now.rows) number (is_pending [] [] true)) }
    ensures others { OnOk result ((q : CellNameIs) → (q.month ≡ month_at number → ⊥) → map.get cells.new q ≡ map.get cells.old q) }
    ensures cost { OnOk result (steps.new ≡ steps.old + 3 * length ids.now) }
{
    for id in ids {
        refresh_one(cells, book, groups, id, number, steps)?;
    }
    Ok(())
}

/// Computes the cells of a group in a month anew, live or not.
fn refresh_one<G: Ledger>(
    cells: &mut Store,
    book: &Book,
    groups: &[BudgetGroup],
    id: &Txt,
    number: u32,
    steps: &mut Steps<G>,
) -> Result<(), NoMemory>
    requires live { book.now.spent ≡ false }
    requires number { number < 2760 }
    requires groups { groups.now ≡ groups_of book.now.rows }
    requires has { HasCategories cells.old (budget_of book.now.rows) number }
    ensures right { OnOk result ((cs rest : List Text) → AreRightBut cells.old (budget_of book.now.rows) number (is_pending cs (id.now ∷ rest) true) → AreRightBut cells.new (budget_of book.now.rows) number (is_pending cs rest true)) }
    ensures others { OnOk result ((q : CellNameIs) → (q.month ≡ month_at number → ⊥) → map.get cells.new q ≡ map.get cells.old q) }
    ensures cost { OnOk result (steps.new ≡ steps.old + 3) }
{
    match find_group(groups, id) {
        None => settle_group(cells, id, month_at(number), number, None, None, None, steps),
        Some(group) => refresh_group(
            cells,
            book,
            id,
            group.is_income,
            group.categories.as_slice(),
            number,
            steps,
        ),
    }
}
