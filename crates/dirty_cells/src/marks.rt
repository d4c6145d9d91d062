//! Which categories, groups and months changes mark.
ghost use Rattle.std.specs.Prelude.{◌≡◌, ℕ, List, [], ◌+◌, ◌*◌, ◌≤◌, ◌||◌, false, true, length, flat_map, map as list_map, OnOk, OnErr, IfOk};
ghost use Rattle.std.specs.BTreeSet as set;
ghost use Rattle.std.specs.FinMap as map;
ghost use Rattle.finite_sums.specs.Maps.{Text, text_cmp, is_among};
ghost use Rattle.book_rows.specs.Columns.{dataset_of, column_of};
ghost use Rattle.book_rows.specs.Parts.{is_text};
ghost use Rattle.std.specs.Prelude.{◌<◌, ◌∷◌, if◌then◌else◌};
ghost use Rattle.finite_sums.specs.Maps.{AreDistinct};
ghost use Rattle.envelope_cells.specs.Parts.{AreSums};
ghost use Rattle.envelope_cells.specs.BudgetOf.{budget_of, groups_of};
ghost use Rattle.dirty_cells.specs.Bound.{pairs, different, touched_txs, touched_categories, touched_groups, first_touched};
ghost use Rattle.dirty_cells.specs.Changes.{AreValues, AreDifferent, Spares, Within, with_fields};
ghost use Rattle.dirty_cells.specs.Followed.{Follows};
ghost use Rattle.dirty_cells.specs.Grid.{Marks, SameBefore};
ghost use Rattle.dirty_cells.specs.Marking.{dataset_with, set_in, listed, budget_category, members, group_at, is_in_group, categories_in, groups_in, month_in, is_order, categories_by, groups_by, month_by, is_rearranged, earlier, earliest};

use crate::passing::earlier;
use crate::sums::change_sums;
use crate::touching::{list_of, lone_tx, put_one, touched_ids};
use book_rows::{
    Book, CategoryRow, Dataset, budget_month, column_of, dataset_kind, dataset_of, month_row_month,
};
use envelope_cells::CellValues;
use field_values::{Field, Items, NoMemory, Steps, Txt, Value};
use std::alloc::Global;
use std::cmp::Ordering;
use std::collections::BTreeSet;
use std::sync::ledger::Ledger;

/// What changes mark, while it is gathered.
#[derive(Drop)]
pub(crate) struct Begun {
    pub categories: BTreeSet<Txt>,
    pub groups: BTreeSet<Txt>,
    pub first: u32,
    pub rearranged: bool,
}

/// What changes mark: off these categories and groups, and before this month, everything stays.
#[derive(Drop)]
pub(crate) struct Marked {
    /// The marked categories, in order.
    pub categories: Items<Txt>,
    /// The marked groups, in order.
    pub groups: Items<Txt>,
    /// The number of the first month that is touched, or 2760.
    pub from: u32,
    /// Whether a category's or a group's row is set.
    pub rearranged: bool,
}

/// The dataset in which a field's value sets a row, if a book knows the field.
fn set_in(field: &Field) -> Option<Dataset>
    ensures { result ≡ dataset_with (dataset_of field.now.dataset) (column_of field.now.column) }
{
    let dataset = dataset_of(field.dataset())?;
    let column = column_of(field.column())?;
    dataset_kind(dataset, column)?;
    Some(dataset)
}

/// The category in the id of a budget row, if it has one.
#[tactic(auto, unfolding(crate::specs::Marking::budget_category))]
fn budget_category(alloc: Global, row: &str) -> Result<Option<Txt>, NoMemory>
    ensures { IfOk result (λ c. c ≡ budget_category row.now) }
{
    let bytes = row.as_bytes();
    if bytes.len() < 7 || bytes[6] != b'-' {
        return Ok(None);
    }
    let (_, category) = row.split_at(7);
    Ok(Some(Txt::from_text(alloc, category)?))
}

/// Puts the category of a budget row among others.
fn mark_budget(alloc: Global, cs: &mut BTreeSet<Txt>, row: &str) -> Result<(), NoMemory>
    ensures { OnOk result ((q : Text) → set.contains text_cmp cs.new q ≡ (is_among text_cmp (listed (budget_category row.now)) q || set.contains text_cmp cs.old q)) }
{
    match budget_category(alloc, row)? {
        None => Ok(()),
        Some(category) => put_one(cs, &category),
    }
}

/// Whether a category's row names a group.
fn is_in_group(row: &CategoryRow, group: &Txt) -> bool
    ensures { result ≡ is_in_group group.now row.now }
{
    match &row.cat_group {
        None => false,
        Some(own) => own.cmp(group) == Ordering::Equal,
    }
}

/// Puts a category among others, where it names a group.
fn mark_member(
    cs: &mut BTreeSet<Txt>,
    id: &Txt,
    row: &CategoryRow,
    group: &Txt,
) -> Result<(), NoMemory>
    ensures { OnOk result ((q : Text) → set.contains text_cmp cs.new q ≡ (is_among text_cmp (if is_in_group group.now row.now then id.now ∷ [] else []) q || set.contains text_cmp cs.old q)) }
{
    if !is_in_group(row, group) {
        return Ok(());
    }
    put_one(cs, id)
}

/// Puts the categories that name a group among others. It goes over all categories.
fn mark_members(book: &Book, cs: &mut BTreeSet<Txt>, group: &Txt) -> Result<(), NoMemory>
    ensures { OnOk result ((q : Text) → set.contains text_cmp cs.new q ≡ (is_among text_cmp (members book.now.rows group.now) q || set.contains text_cmp cs.old q)) }
{
    for (id, row) in book.categories() {
        mark_member(cs, id, row, group)?;
    }
    Ok(())
}

/// Puts the group that a category names among others.
fn mark_group(book: &Book, gs: &mut BTreeSet<Txt>, id: &Txt) -> Result<(), NoMemory>
    ensures { OnOk result ((q : Text) → set.contains text_cmp gs.new q ≡ (is_among text_cmp (group_at book.now.rows id.now) q || set.contains text_cmp gs.old q)) }
{
    if let Some(row) = book.category(id) {
        if let Some(group) = &row.cat_group {
            put_one(gs, group)?;
        }
    }
    Ok(())
}

/// Puts the groups that categories name among others.
pub(crate) fn mark_groups(book: &Book, gs: &mut BTreeSet<Txt>, ids: &[Txt]) -> Result<(), NoMemory>
    ensures { OnOk result ((q : Text) → set.contains text_cmp gs.new q ≡ (is_among text_cmp (flat_map (group_at book.now.rows) ids.now) q || set.contains text_cmp gs.old q)) }
{
    for id in ids {
        mark_group(book, gs, id)?;
    }
    Ok(())
}

/// Puts a category that has changed and the group that it names among others.
fn mark_category(
    book: &Book,
    cs: &mut BTreeSet<Txt>,
    gs: &mut BTreeSet<Txt>,
    id: &Txt,
) -> Result<(), NoMemory>
    ensures categories { OnOk result ((q : Text) → set.contains text_cmp cs.new q ≡ (is_among text_cmp (id.now ∷ []) q || set.contains text_cmp cs.old q)) }
    ensures groups { OnOk result ((q : Text) → set.contains text_cmp gs.new q ≡ (is_among text_cmp (group_at book.now.rows id.now) q || set.contains text_cmp gs.old q)) }
{
    put_one(cs, id)?;
    mark_group(book, gs, id)
}

/// Puts a group that has changed and the categories that name it among others.
fn mark_whole_group(
    book: &Book,
    cs: &mut BTreeSet<Txt>,
    gs: &mut BTreeSet<Txt>,
    id: &Txt,
) -> Result<(), NoMemory>
    ensures categories { OnOk result ((q : Text) → set.contains text_cmp cs.new q ≡ (is_among text_cmp (members book.now.rows id.now) q || set.contains text_cmp cs.old q)) }
    ensures groups { OnOk result ((q : Text) → set.contains text_cmp gs.new q ≡ (is_among text_cmp (id.now ∷ []) q || set.contains text_cmp gs.old q)) }
{
    mark_members(book, cs, id)?;
    put_one(gs, id)
}

/// Puts the categories and groups that a changed row marks among others. Of a row that marks none no text is made.
fn mark_row(
    alloc: Global,
    book: &Book,
    cs: &mut BTreeSet<Txt>,
    gs: &mut BTreeSet<Txt>,
    dataset: Option<Dataset>,
    row: &str,
) -> Result<(), NoMemory>
    ensures categories { OnOk result ((q : Text) → set.contains text_cmp cs.new q ≡ (is_among text_cmp (categories_in book.now.rows dataset row.now) q || set.contains text_cmp cs.old q)) }
    ensures groups { OnOk result ((q : Text) → set.contains text_cmp gs.new q ≡ (is_among text_cmp (groups_in book.now.rows dataset row.now) q || set.contains text_cmp gs.old q)) }
{
    match dataset {
        Some(Dataset::Categories) => mark_category(book, cs, gs, &Txt::from_text(alloc, row)?),
        Some(Dataset::CategoryGroups) => {
            mark_whole_group(book, cs, gs, &Txt::from_text(alloc, row)?)
        }
        Some(Dataset::ZeroBudgets) => mark_budget(alloc, cs, row),
        _ => Ok(()),
    }
}

/// The month of a changed row, if it has one in its id. Of a row that has none no text is made.
fn month_in(alloc: Global, dataset: Option<Dataset>, row: &str) -> Result<Option<u32>, NoMemory>
    ensures { IfOk result (λ m. m ≡ month_in dataset row.now) }
{
    match dataset {
        Some(Dataset::ZeroBudgets) => Ok(budget_month(&Txt::from_text(alloc, row)?)),
        Some(Dataset::ZeroBudgetMonths) => Ok(month_row_month(&Txt::from_text(alloc, row)?)),
        _ => Ok(None),
    }
}

/// Whether a changed row is one of a category or a group.
fn is_order(dataset: Option<Dataset>) -> bool
    ensures { result ≡ is_order dataset }
{
    matches!(
        dataset,
        Some(Dataset::Categories) | Some(Dataset::CategoryGroups)
    )
}

/// Marks what the row of a change marks.
fn mark_change(alloc: Global, book: &Book, begun: &mut Begun, field: &Field) -> Result<(), NoMemory>
    ensures categories { OnOk result ((q : Text) → set.contains text_cmp begun.new.categories q ≡ (is_among text_cmp (categories_in book.now.rows (dataset_with (dataset_of field.now.dataset) (column_of field.now.column)) field.now.row) q || set.contains text_cmp begun.old.categories q)) }
    ensures groups { OnOk result ((q : Text) → set.contains text_cmp begun.new.groups q ≡ (is_among text_cmp (groups_in book.now.rows (dataset_with (dataset_of field.now.dataset) (column_of field.now.column)) field.now.row) q || set.contains text_cmp begun.old.groups q)) }
    ensures first { OnOk result (begun.new.first ≡ earlier begun.old.first (month_in (dataset_with (dataset_of field.now.dataset) (column_of field.now.column)) field.now.row)) }
    ensures rearranged { OnOk result (begun.new.rearranged ≡ (begun.old.rearranged || is_order (dataset_with (dataset_of field.now.dataset) (column_of field.now.column)))) }
{
    let dataset = set_in(field);
    let row = field.row();
    mark_row(
        alloc,
        book,
        &mut begun.categories,
        &mut begun.groups,
        dataset,
        row,
    )?;
    begun.first = earlier(begun.first, month_in(alloc, dataset, row)?);
    begun.rearranged = begun.rearranged || is_order(dataset);
    Ok(())
}

/// What no change marks.
fn none_begun(alloc: Global) -> Begun
    ensures categories { (q : Text) → set.contains text_cmp result.categories q ≡ false }
    ensures groups { (q : Text) → set.contains text_cmp result.groups q ≡ false }
    ensures first { result.first ≡ 2760 }
    ensures rearranged { result.rearranged ≡ false }
{
    Begun {
        categories: BTreeSet::new(alloc),
        groups: BTreeSet::new(alloc),
        first: 2760,
        rearranged: false,
    }
}

/// What the rows of changes mark, by the book before them.
fn mark_changes(alloc: Global, book: &Book, changes: &[(Field, Value)]) -> Result<Begun, NoMemory>
    ensures categories { IfOk result (λ m. (q : Text) → set.contains text_cmp m.categories q ≡ is_among text_cmp (flat_map (categories_by book.now.rows) changes.now) q) }
    ensures groups { IfOk result (λ m. (q : Text) → set.contains text_cmp m.groups q ≡ is_among text_cmp (flat_map (groups_by book.now.rows) changes.now) q) }
    ensures first { IfOk result (λ m. m.first ≡ earliest 2760 (list_map month_by changes.now)) }
    ensures rearranged { IfOk result (λ m. m.rearranged ≡ is_rearranged changes.now) }
{
    let mut begun = none_begun(alloc);
    for (field, _) in changes {
        mark_change(alloc, book, &mut begun, field)?;
    }
    Ok(begun)
}

/// What changes mark in all: with the groups that the marked categories name in the book after them.
fn marks_after(alloc: Global, book: &Book, begun: Begun) -> Result<Marked, NoMemory>
    ensures categories { IfOk result (λ m. (q : Text) → is_among text_cmp m.categories q ≡ set.contains text_cmp begun.categories q) }
    ensures groups { IfOk result (λ m. (q : Text) → is_among text_cmp m.groups q ≡ (is_among text_cmp (flat_map (group_at book.now.rows) m.categories) q || set.contains text_cmp begun.groups q)) }
    ensures from { IfOk result (λ m. m.from ≡ (if begun.rearranged then 0 else begun.first)) }
    ensures rearranged { IfOk result (λ m. m.rearranged ≡ begun.rearranged) }
    ensures distinct { IfOk result (λ m. AreDistinct text_cmp m.categories × AreDistinct text_cmp m.groups) }
{
    let mut owners = begun.groups;
    let categories = list_of(alloc, &begun.categories)?;
    mark_groups(book, &mut owners, categories.as_slice())?;
    let groups = list_of(alloc, &owners)?;
    let rearranged = begun.rearranged;
    let from = if rearranged { 0 } else { begun.first };
    Ok(Marked {
        categories,
        groups,
        from,
        rearranged,
    })
}

/// Gives fields their values, keeps the sums those of the book, and tells what is marked, where the transactions that are touched and
/// what the rows of the changes mark are known. After an error no clause tells what the book and the sums are.
fn set_known<G: Ledger>(
    alloc: Global,
    sums: &mut CellValues,
    book: &mut Book,
    changes: &[(Field, Value)],
    ids: &[Txt],
    begun: Begun,
    steps: &mut Steps<G>,
) -> Result<Marked, NoMemory>
    requires live { book.old.spent ≡ false }
    requires values { AreValues changes.now }
    requires sums { AreSums sums.old book.old.rows }
    requires spares { Spares book.old.rows (with_fields book.old.rows changes.now) ids.now }
    requires within { AreDifferent changes.now → Within ids.now (touched_txs book.old.rows (with_fields book.old.rows changes.now) changes.now) }
    requires categories { (q : Text) → set.contains text_cmp begun.categories q ≡ is_among text_cmp (flat_map (categories_by book.old.rows) changes.now) q }
    requires groups { (q : Text) → set.contains text_cmp begun.groups q ≡ is_among text_cmp (flat_map (groups_by book.old.rows) changes.now) q }
    requires first { begun.first ≡ earliest 2760 (list_map month_by changes.now) }
    requires rearranged { begun.rearranged ≡ is_rearranged changes.now }
    ensures book { OnOk result (book.new.rows ≡ with_fields book.old.rows changes.now) }
    ensures live { OnOk result (book.new.spent ≡ false) }
    ensures sums { OnOk result (AreSums sums.new book.new.rows) }
    ensures marked { IfOk result (λ m. Follows book.old.rows changes.now m) }
    ensures distinct { IfOk result (λ m. AreDistinct text_cmp m.categories × AreDistinct text_cmp m.groups) }
    ensures cost { OnOk result (steps.new ≤ steps.old + 4 * length ids.now) }
{
    let mut begun = begun;
    begun.first = change_sums(
        sums,
        book,
        &mut begun.categories,
        changes,
        ids,
        begun.first,
        steps,
    )?;
    marks_after(alloc, book, begun)
}

/// Gives fields their values, keeps the sums those of the book, and tells what is marked. A single change of a transaction mostly
/// touches that one alone, and no set of ids is made. After an error no clause tells what the
/// book and the sums are.
fn set_and_mark<G: Ledger>(
    alloc: Global,
    sums: &mut CellValues,
    book: &mut Book,
    changes: &[(Field, Value)],
    steps: &mut Steps<G>,
) -> Result<Marked, NoMemory>
    requires live { book.old.spent ≡ false }
    requires values { AreValues changes.now }
    requires sums { AreSums sums.old book.old.rows }
    ensures book { OnOk result (book.new.rows ≡ with_fields book.old.rows changes.now) }
    ensures live { OnOk result (book.new.spent ≡ false) }
    ensures sums { OnOk result (AreSums sums.new book.new.rows) }
    ensures marked { IfOk result (λ m. Follows book.old.rows changes.now m) }
    ensures distinct { IfOk result (λ m. AreDistinct text_cmp m.categories × AreDistinct text_cmp m.groups) }
    ensures cost { OnOk result (AreDifferent changes.now → steps.new ≤ steps.old + 7 * (length changes.now + pairs book.old.rows (with_fields book.old.rows changes.now) changes.now)) }
{
    if let [(field, _)] = changes {
        if let Some(id) = lone_tx(alloc, book, field)? {
            let begun = none_begun(alloc);
            return set_known(alloc, sums, book, changes, &[id], begun, steps);
        }
    }
    let ids = touched_ids(alloc, book, changes, steps)?;
    let begun = mark_changes(alloc, book, changes)?;
    set_known(alloc, sums, book, changes, ids.as_slice(), begun, steps)
}

/// Gives fields their values, keeps the sums those of the book, and tells what is marked: off the marked categories and groups each
/// cell stays, and before the first touched month all do. Where no field is given two values, there are no more marks than are
/// touched, and no month is marked before the first that is touched. After an error the book is spent, and no clause tells what the sums are.
pub(crate) fn follow<G: Ledger>(
    alloc: Global,
    sums: &mut CellValues,
    book: &mut Book,
    changes: &[(Field, Value)],
    steps: &mut Steps<G>,
) -> Result<Marked, NoMemory>
    requires live { book.old.spent ≡ false }
    requires values { AreValues changes.now }
    requires sums { AreSums sums.old book.old.rows }
    ensures book { OnOk result (book.new.rows ≡ with_fields book.old.rows changes.now) }
    ensures live { OnOk result (book.new.spent ≡ false) }
    ensures sums { OnOk result (AreSums sums.new book.new.rows) }
    ensures marks { IfOk result (λ m. Marks book.old.rows book.new.rows m.categories m.groups) }
    ensures before { IfOk result (λ m. (k : ℕ) → k < m.from → SameBefore (budget_of book.old.rows) (budget_of book.new.rows) m.from) }
    ensures groups { IfOk result (λ m. m.rearranged ≡ false → groups_of book.old.rows ≡ groups_of book.new.rows) }
    ensures few_categories { IfOk result (λ m. AreDifferent changes.now → length m.categories ≤ different (touched_categories book.old.rows book.new.rows changes.now)) }
    ensures few_groups { IfOk result (λ m. AreDifferent changes.now → length m.groups ≤ different (touched_groups book.old.rows book.new.rows changes.now)) }
    ensures few_months { IfOk result (λ m. AreDifferent changes.now → first_touched book.old.rows book.new.rows changes.now ≤ m.from) }
    ensures cost { OnOk result (AreDifferent changes.now → steps.new ≤ steps.old + 7 * (length changes.now + pairs book.old.rows book.new.rows changes.now)) }
    ensures spent { OnErr result (book.new.spent ≡ true) }
{
    match set_and_mark(alloc, sums, book, changes, steps) {
        Ok(marked) => Ok(marked),
        Err(error) => {
            book.spend();
            Err(error)
        }
    }
}
