//! Which transactions changes touch.
ghost use Rattle.std.specs.Prelude.{◌≡◌, ◌+◌, ◌≤◌, ◌||◌, ◌∷◌, [], flat_map, length, true, false, Some, OnOk};
ghost use Rattle.std.specs.Ordering.{eq_by_cmp};
ghost use Rattle.std.specs.BTreeSet as set;
ghost use Rattle.finite_sums.specs.Maps.{Text, text_cmp, is_among};
ghost use Rattle.finite_sums.specs.Sums.{weight};
ghost use Rattle.dirty_cells.specs.Changes.{account_governs, tx_governs, mapping_governs, same_text, AreDifferent, Within, Spares, with_fields};
ghost use Rattle.dirty_cells.specs.Bound.{touched_txs, pairs};
ghost use Rattle.dirty_cells.specs.Governing.{governed, only_where, tx_set, account_set, parent_set, mapping_set, is_last, KnowsLast, txs_by, accounts_by, parents_by, mappings_by, touched_list, is_plain};
ghost use Rattle.std.specs.List.Sorted.{IsStrictlySortedBy};
ghost use Rattle.std.specs.Prelude.{IfOk, IfSome};
ghost use Rattle.field_values.specs.declared.value.Value.{Value as ValueIs};
ghost use Rattle.book_rows.specs.Kinds.{text_of};
ghost use Rattle.book_rows.specs.Columns.{dataset_of, column_of};
ghost use Rattle.book_rows.specs.declared.column.Dataset.TheVariants.{Transactions};
ghost use Rattle.dirty_cells.specs.Marking.{dataset_with};

use book_rows::{Book, Column, Dataset, column_of, dataset_kind, dataset_of, flag};
use field_values::{Field, Items, NoMemory, Steps, Txt, Value};
use std::alloc::Global;
use std::cmp::Ordering;
use std::collections::BTreeSet;
use std::sync::ledger::Ledger;

/// What governs transactions: an account, a transaction with parts, or what a category is mapped to.
#[derive(Clone, Copy)]
pub(crate) enum Governor {
    Account,
    Parent,
    Mapping,
}

/// The rows by which changes touch transactions, by the book before them.
#[derive(Drop)]
pub(crate) struct Touching {
    /// The transactions whose rows they set.
    pub txs: BTreeSet<Txt>,
    /// The accounts that govern transactions.
    pub accounts: BTreeSet<Txt>,
    /// The transactions that govern their parts.
    pub parents: BTreeSet<Txt>,
    /// The mappings that govern transactions.
    pub mappings: BTreeSet<Txt>,
    /// The transaction that was noted last.
    pub last: Option<Txt>,
}

/// Puts ids among others.
pub(crate) fn put_all(ids: &mut BTreeSet<Txt>, found: &[Txt]) -> Result<(), NoMemory>
    ensures { OnOk result ((q : Text) → set.contains text_cmp ids.new q ≡ (is_among text_cmp found.now q || set.contains text_cmp ids.old q)) }
{
    for id in found {
        ids.insert(id.copy()?)?;
    }
    Ok(())
}

/// Whether a value makes an account's row, or brings the account into the budget or out of it.
fn account_governs(book: &Book, id: &Txt, column: Column, value: &Value) -> bool
    ensures { result ≡ account_governs book.now.rows id.now column value.now }
{
    match book.account(id) {
        None => true,
        Some(row) => match column {
            Column::Offbudget => row.offbudget != flag(value),
            _ => false,
        },
    }
}

/// Whether a value makes a transaction's row, or deletes or restores the transaction. It is at most one step.
fn tx_governs<G: Ledger>(
    book: &Book,
    id: &Txt,
    column: Column,
    value: &Value,
    steps: &mut Steps<G>,
) -> bool
    ensures is { result ≡ tx_governs book.now.rows id.now column value.now }
    ensures cost { steps.new ≤ steps.old + 1 }
{
    match book.tx(id, steps) {
        None => true,
        Some(row) => match column {
            Column::Tombstone => row.tombstone != flag(value),
            _ => false,
        },
    }
}

/// Whether the target of a row is the text of a value, or neither is there.
fn is_target(target: &Option<Txt>, value: &Value) -> bool
    ensures { result ≡ same_text target.now (text_of value.now) }
{
    match target {
        None => !matches!(value, Value::Text(_)),
        Some(own) => match value {
            Value::Text(text) => own.cmp(text) == Ordering::Equal,
            _ => false,
        },
    }
}

/// Whether a value makes a mapping's row, or gives it another target.
fn mapping_governs(book: &Book, id: &Txt, column: Column, value: &Value) -> bool
    ensures { result ≡ mapping_governs book.now.rows id.now column value.now }
{
    match book.category_mapping(id) {
        None => true,
        Some(row) => match column {
            Column::TransferId => !is_target(&row.transfer_id, value),
            _ => false,
        },
    }
}

/// Puts an id among others.
pub(crate) fn put_one(ids: &mut BTreeSet<Txt>, id: &Txt) -> Result<(), NoMemory>
    ensures { OnOk result ((q : Text) → set.contains text_cmp ids.new q ≡ (eq_by_cmp text_cmp q id.now || set.contains text_cmp ids.old q)) }
{
    ids.insert(id.copy()?)?;
    Ok(())
}

/// Puts an id among others, where a test passes.
fn put_where(ids: &mut BTreeSet<Txt>, id: &Txt, passes: bool) -> Result<(), NoMemory>
    ensures { OnOk result ((q : Text) → set.contains text_cmp ids.new q ≡ (is_among text_cmp (only_where passes id.now) q || set.contains text_cmp ids.old q)) }
{
    if !passes {
        return Ok(());
    }
    put_one(ids, id)
}

/// Whether a row is that of the transaction that was noted last, and a value of the column touches nothing more.
fn is_last(last: &Option<Txt>, row: &str, column: Column) -> bool
    ensures { result ≡ is_last last.now row.now column }
{
    match last {
        None => false,
        Some(id) => match column {
            Column::Tombstone => false,
            _ => id.as_str().cmp(row) == Ordering::Equal,
        },
    }
}

/// Notes a transaction of which a value sets a column. Where it is the one that was noted last, there is mostly nothing to do. It is at
/// most one step.
fn note_tx<G: Ledger>(
    alloc: Global,
    book: &Book,
    found: &mut Touching,
    column: Column,
    row: &str,
    value: &Value,
    steps: &mut Steps<G>,
) -> Result<(), NoMemory>
    requires { KnowsLast book.now.rows found.old }
    ensures kept { OnOk result (KnowsLast book.now.rows found.new) }
    ensures txs { OnOk result ((q : Text) → set.contains text_cmp found.new.txs q ≡ (is_among text_cmp (row.now ∷ []) q || set.contains text_cmp found.old.txs q)) }
    ensures accounts { found.new.accounts ≡ found.old.accounts }
    ensures parents { OnOk result ((q : Text) → set.contains text_cmp found.new.parents q ≡ (is_among text_cmp (only_where (tx_governs book.now.rows row.now column value.now) row.now) q || set.contains text_cmp found.old.parents q)) }
    ensures mappings { found.new.mappings ≡ found.old.mappings }
    ensures cost { steps.new ≤ steps.old + 1 }
{
    if is_last(&found.last, row, column) {
        return Ok(());
    }
    let id = Txt::from_text(alloc, row)?;
    let governs = tx_governs(book, &id, column, value, steps);
    put_where(&mut found.parents, &id, governs)?;
    put_one(&mut found.txs, &id)?;
    found.last = Some(id);
    Ok(())
}

/// Notes the rows by which a value of a dataset's column touches transactions. It is at most one step.
fn note_known<G: Ledger>(
    alloc: Global,
    book: &Book,
    found: &mut Touching,
    dataset: Dataset,
    column: Column,
    row: &str,
    value: &Value,
    steps: &mut Steps<G>,
) -> Result<(), NoMemory>
    requires { KnowsLast book.now.rows found.old }
    ensures kept { OnOk result (KnowsLast book.now.rows found.new) }
    ensures txs { OnOk result ((q : Text) → set.contains text_cmp found.new.txs q ≡ (is_among text_cmp (tx_set dataset row.now) q || set.contains text_cmp found.old.txs q)) }
    ensures accounts { OnOk result ((q : Text) → set.contains text_cmp found.new.accounts q ≡ (is_among text_cmp (account_set book.now.rows dataset column row.now value.now) q || set.contains text_cmp found.old.accounts q)) }
    ensures parents { OnOk result ((q : Text) → set.contains text_cmp found.new.parents q ≡ (is_among text_cmp (parent_set book.now.rows dataset column row.now value.now) q || set.contains text_cmp found.old.parents q)) }
    ensures mappings { OnOk result ((q : Text) → set.contains text_cmp found.new.mappings q ≡ (is_among text_cmp (mapping_set book.now.rows dataset column row.now value.now) q || set.contains text_cmp found.old.mappings q)) }
    ensures cost { steps.new ≤ steps.old + 1 }
{
    match dataset {
        Dataset::Accounts => {
            let id = &Txt::from_text(alloc, row)?;
            let governs = account_governs(book, id, column, value);
            put_where(&mut found.accounts, id, governs)
        }
        Dataset::Transactions => note_tx(alloc, book, found, column, row, value, steps),
        Dataset::CategoryMapping => {
            let id = &Txt::from_text(alloc, row)?;
            let governs = mapping_governs(book, id, column, value);
            put_where(&mut found.mappings, id, governs)
        }
        _ => Ok(()),
    }
}

/// Notes the rows by which a field's new value touches transactions.
fn note<G: Ledger>(
    alloc: Global,
    book: &Book,
    found: &mut Touching,
    field: &Field,
    value: &Value,
    steps: &mut Steps<G>,
) -> Result<(), NoMemory>
    requires { KnowsLast book.now.rows found.old }
    ensures kept { OnOk result (KnowsLast book.now.rows found.new) }
    ensures txs { OnOk result ((q : Text) → set.contains text_cmp found.new.txs q ≡ (is_among text_cmp (txs_by (field.now, value.now)) q || set.contains text_cmp found.old.txs q)) }
    ensures accounts { OnOk result ((q : Text) → set.contains text_cmp found.new.accounts q ≡ (is_among text_cmp (accounts_by book.now.rows (field.now, value.now)) q || set.contains text_cmp found.old.accounts q)) }
    ensures parents { OnOk result ((q : Text) → set.contains text_cmp found.new.parents q ≡ (is_among text_cmp (parents_by book.now.rows (field.now, value.now)) q || set.contains text_cmp found.old.parents q)) }
    ensures mappings { OnOk result ((q : Text) → set.contains text_cmp found.new.mappings q ≡ (is_among text_cmp (mappings_by book.now.rows (field.now, value.now)) q || set.contains text_cmp found.old.mappings q)) }
    ensures cost { steps.new ≤ steps.old + 1 }
{
    let Some(dataset) = dataset_of(field.dataset()) else {
        return Ok(());
    };
    let Some(column) = column_of(field.column()) else {
        return Ok(());
    };
    if dataset_kind(dataset, column).is_none() {
        return Ok(());
    }
    note_known(
        alloc,
        book,
        found,
        dataset,
        column,
        field.row(),
        value,
        steps,
    )
}

/// The rows by which changes touch transactions, by the book before them.
fn note_all<G: Ledger>(
    alloc: Global,
    book: &Book,
    changes: &[(Field, Value)],
    steps: &mut Steps<G>,
) -> Result<Touching, NoMemory>
    ensures txs { IfOk result (λ found. (q : Text) → set.contains text_cmp found.txs q ≡ is_among text_cmp (flat_map txs_by changes.now) q) }
    ensures accounts { IfOk result (λ found. (q : Text) → set.contains text_cmp found.accounts q ≡ is_among text_cmp (flat_map (accounts_by book.now.rows) changes.now) q) }
    ensures parents { IfOk result (λ found. (q : Text) → set.contains text_cmp found.parents q ≡ is_among text_cmp (flat_map (parents_by book.now.rows) changes.now) q) }
    ensures mappings { IfOk result (λ found. (q : Text) → set.contains text_cmp found.mappings q ≡ is_among text_cmp (flat_map (mappings_by book.now.rows) changes.now) q) }
    ensures cost { OnOk result (steps.new ≤ steps.old + length changes.now) }
{
    let mut found = Touching {
        txs: BTreeSet::new(alloc),
        accounts: BTreeSet::new(alloc),
        parents: BTreeSet::new(alloc),
        mappings: BTreeSet::new(alloc),
        last: None,
    };
    for (field, value) in changes {
        note(alloc, book, &mut found, field, value, steps)?;
    }
    Ok(found)
}

/// The transactions that a row governs. Each is one step.
fn governed<G: Ledger>(
    book: &Book,
    governor: Governor,
    id: &Txt,
    steps: &mut Steps<G>,
) -> Result<Items<Txt>, NoMemory>
    requires { book.now.spent ≡ false }
    ensures ids { IfOk result (λ ids. ids ≡ governed book.now.rows governor id.now) }
    ensures cost { steps.new ≤ steps.old + length (governed book.now.rows governor id.now) }
{
    match governor {
        Governor::Account => book.of_account(id, steps),
        Governor::Parent => book.children(id, steps),
        Governor::Mapping => book.of_category(id, steps),
    }
}

/// Puts the transactions that a row governs among ids.
fn put_governed<G: Ledger>(
    book: &Book,
    ids: &mut BTreeSet<Txt>,
    governor: Governor,
    id: &Txt,
    steps: &mut Steps<G>,
) -> Result<(), NoMemory>
    requires { book.now.spent ≡ false }
    ensures more { OnOk result ((q : Text) → set.contains text_cmp ids.new q ≡ (is_among text_cmp (governed book.now.rows governor id.now) q || set.contains text_cmp ids.old q)) }
    ensures cost { steps.new ≤ steps.old + length (governed book.now.rows governor id.now) }
{
    let found = governed(book, governor, id, steps)?;
    put_all(ids, found.as_slice())
}

/// Puts the transactions that rows govern among ids.
fn put_all_governed<G: Ledger>(
    book: &Book,
    ids: &mut BTreeSet<Txt>,
    governor: Governor,
    rows: &[Txt],
    steps: &mut Steps<G>,
) -> Result<(), NoMemory>
    requires { book.now.spent ≡ false }
    ensures more { OnOk result ((q : Text) → set.contains text_cmp ids.new q ≡ (is_among text_cmp (flat_map (governed book.now.rows governor) rows.now) q || set.contains text_cmp ids.old q)) }
    ensures cost { OnOk result (steps.new ≤ steps.old + weight (λ id. length (governed book.now.rows governor id)) rows.now) }
{
    for id in rows {
        put_governed(book, ids, governor, id, steps)?;
    }
    Ok(())
}

/// Puts the transactions that the rows of a set govern among ids.
fn put_set_governed<G: Ledger>(
    alloc: Global,
    book: &Book,
    ids: &mut BTreeSet<Txt>,
    governor: Governor,
    rows: &BTreeSet<Txt>,
    steps: &mut Steps<G>,
) -> Result<(), NoMemory>
    requires { book.now.spent ≡ false }
    ensures more { OnOk result ((q : Text) → set.contains text_cmp ids.new q ≡ (is_among text_cmp (flat_map (governed book.now.rows governor) rows.now.keys) q || set.contains text_cmp ids.old q)) }
    ensures cost { OnOk result (steps.new ≤ steps.old + weight (λ id. length (governed book.now.rows governor id)) rows.now.keys) }
    ensures sorted { OnOk result (IsStrictlySortedBy text_cmp rows.now.keys) }
{
    let list = list_of(alloc, rows)?;
    put_all_governed(book, ids, governor, list.as_slice(), steps)
}

/// The ids, in order.
pub(crate) fn list_of(alloc: Global, ids: &BTreeSet<Txt>) -> Result<Items<Txt>, NoMemory>
    ensures sorted { IfOk result (λ v. IsStrictlySortedBy text_cmp v) }
    ensures all { IfOk result (λ v. v ≡ ids.now.keys) }
{
    if ids.is_empty() {
        return Ok(Items::new(Vec::new(alloc)));
    }
    let mut found = Vec::new(alloc);
    for id in ids.iter() {
        found.push(id.copy()?)?;
    }
    Ok(Items::new(found))
}

/// Whether a column of a dataset is one of a transaction, and neither deletes nor restores it.
fn is_plain(dataset: Dataset, column: Column) -> bool
    ensures { result ≡ is_plain dataset column }
{
    match dataset {
        Dataset::Transactions => !matches!(column, Column::Tombstone),
        _ => false,
    }
}

/// The transaction of a field, where it has a row, and no value of the field touches another one. It takes no step.
pub(crate) fn lone_tx(alloc: Global, book: &Book, field: &Field) -> Result<Option<Txt>, NoMemory>
    ensures touches { IfOk result (λ found. IfSome found (λ id. (v : ValueIs) → touched_list book.now.rows ((field.now, v) ∷ []) ≡ id ∷ [])) }
    ensures sets { IfOk result (λ found. IfSome found (λ id. dataset_with (dataset_of field.now.dataset) (column_of field.now.column) ≡ Some Transactions)) }
{
    let Some(dataset) = dataset_of(field.dataset()) else {
        return Ok(None);
    };
    let Some(column) = column_of(field.column()) else {
        return Ok(None);
    };
    if dataset_kind(dataset, column).is_none() || !is_plain(dataset, column) {
        return Ok(None);
    }
    let id = Txt::from_text(alloc, field.row())?;
    if !book.has_tx(&id) {
        return Ok(None);
    }
    Ok(Some(id))
}

/// The transactions that changes touch, each once: of all others the rows after the changes tell what they told. Each row that governs
/// others is asked once, however many of its fields change.
pub fn touched_ids<G: Ledger>(
    alloc: Global,
    book: &Book,
    changes: &[(Field, Value)],
    steps: &mut Steps<G>,
) -> Result<Items<Txt>, NoMemory>
    requires { book.now.spent ≡ false }
    ensures spares { IfOk result (λ ids. Spares book.now.rows (with_fields book.now.rows changes.now) ids) }
    ensures all { IfOk result (λ ids. (q : Text) → is_among text_cmp ids q ≡ is_among text_cmp (touched_list book.now.rows changes.now) q) }
    ensures within { IfOk result (λ ids. AreDifferent changes.now → Within ids (touched_txs book.now.rows (with_fields book.now.rows changes.now) changes.now)) }
    ensures cost { OnOk result (AreDifferent changes.now → steps.new ≤ steps.old + (length changes.now + pairs book.now.rows (with_fields book.now.rows changes.now) changes.now)) }
{
    let touching = note_all(alloc, book, changes, steps)?;
    let mut ids = touching.txs;
    put_set_governed(
        alloc,
        book,
        &mut ids,
        Governor::Account,
        &touching.accounts,
        steps,
    )?;
    put_set_governed(
        alloc,
        book,
        &mut ids,
        Governor::Parent,
        &touching.parents,
        steps,
    )?;
    put_set_governed(
        alloc,
        book,
        &mut ids,
        Governor::Mapping,
        &touching.mappings,
        steps,
    )?;
    list_of(alloc, &ids)
}
