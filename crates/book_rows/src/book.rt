//! A book: the rows that the fields of messages make.
ghost use Rattle.std.specs.Prelude.{◌≡◌, ◌≤◌, ◌+◌, true, false, OnOk, OnErr, IfOk, IfSome, IsSome, length, is_some, if◌then◌else◌};
ghost use Rattle.std.specs.Option.{option_copied};
ghost use Rattle.std.specs.FinMap as map;
ghost use Rattle.field_values.specs.Names.{IsName};
ghost use Rattle.field_values.specs.Value.{IsValue};
ghost use Rattle.book_rows.specs.Columns.{dataset_of};
ghost use Rattle.book_rows.specs.Rows.{no_rows, with_cell, with_field, kind_of, is_row};
ghost use Rattle.book_rows.specs.Live.{is_alive, has_parent, mapped_category, mapped_payee, category_of, payee_of};
ghost use Rattle.book_rows.specs.Months.{is_month, month_of_tx, window_of};
ghost use Rattle.book_rows.specs.Parts.{children_of, account_txs, category_txs, schedule_txs};
ghost use Rattle.book_rows.specs.Balances.{adds, balance_of};
ghost use Rattle.finite_sums.specs.Sums.{total};
ghost use Rattle.finite_sums.specs.Maps.{text_cmp, value_or_zero};
ghost use Rattle.std.specs.List.Sorted.{IsStrictlySortedBy};
ghost use Rattle.book_rows.specs.Named.{HasNames};
ghost use Rattle.book_rows.specs.Book.{HasSizes, IsIndexed, ids_in};
ghost use Rattle.book_rows.specs.Spans.{Spans, HasDated, HasMonth};

use crate::column::{Column, Dataset, column_of, dataset_of};
use crate::indexes::{Dated, list, under};
use crate::known::dataset_kind;
use crate::months::hull;
use crate::rows::{
    AccountRow, BudgetRow, CategoryMappingRow, CategoryRow, GroupRow, MonthRow, NoteRow,
    PayeeMappingRow, PayeeRow, Rows, RuleRow, ScheduleRow, TrackRow, TxRow,
};
use crate::table::Table;
use crate::txs::{TxIndex, month_of_row, set_budget, set_month, set_tx};
use field_values::{Field, Items, NoMemory, Steps, Txt, Value};
use std::alloc::Global;
use std::collections::{BTreeMap, BTreeSet};
use std::marker::Model;
use std::sync::ledger::Ledger;

/// The rows that the fields of messages make, by dataset and id. A row is there where one of its columns is known, whatever its
/// value.
///
/// A call that answers `NoMemory` and may have changed the book leaves it spent: no clause tells then which rows it has, and it is to
/// be dropped.
///
/// What is asked often is found without a walk over all rows: the parts of a transaction, the transactions of an account, of a
/// category and of a schedule, and the first and the last month.
#[derive(Drop)]
pub struct Book {
    alloc: Global,
    rows: Rows,
    index: TxIndex,
    /// The months that ids of budget rows and month rows name.
    named: BTreeSet<u32>,
    spent: bool,
}

impl Model for Book {
    ghost use Rattle.std.specs.Prelude.{◌≡◌, false};
    ghost use Rattle.book_rows.specs.Book.{BookState, IsIndexed};
    ghost use Rattle.book_rows.specs.contracts.rows.Rows as all_rows;
    ghost use Rattle.std.specs.Coded.{codes};

    ghost Value = { BookState };

    ghost coded = { Prim.hlevel (codes, all_rows.the_row.coded) };

    ghost view = { λ b. record { rows = b.rows; spent = b.spent } };

    ghost invariant = { λ b. b.spent ≡ false → IsIndexed b.index b.named b.rows.txs b.rows.budgets b.rows.months b.rows.tracked };
}

/// Sets a column of a row.
fn set_cell(
    alloc: Global,
    rows: &mut Rows,
    index: &mut TxIndex,
    named: &mut BTreeSet<u32>,
    dataset: Dataset,
    id: &Txt,
    column: Column,
    value: &Value,
) -> Result<(), NoMemory>
    requires indexed { IsIndexed index.old named.old rows.old.txs rows.old.budgets rows.old.months rows.old.tracked }
    requires name { IsName id.now }
    requires valid { IsValue value.now }
    ensures rows { OnOk result (rows.new ≡ with_cell dataset id.now column value.now rows.old) }
    ensures indexed { OnOk result (IsIndexed index.new named.new rows.new.txs rows.new.budgets rows.new.months rows.new.tracked) }
{
    match dataset {
        Dataset::Transactions => set_tx(alloc, &mut rows.txs, index, id, column, value),
        Dataset::ZeroBudgets => set_budget(&mut rows.budgets, named, id, column, value),
        Dataset::ZeroBudgetMonths => set_month(&mut rows.months, named, id, column, value),
        Dataset::Accounts => rows.accounts.set(id, column, value),
        Dataset::CategoryGroups => rows.groups.set(id, column, value),
        Dataset::Categories => rows.categories.set(id, column, value),
        Dataset::Payees => rows.payees.set(id, column, value),
        Dataset::Rules => rows.rules.set(id, column, value),
        Dataset::Schedules => rows.schedules.set(id, column, value),
        Dataset::Notes => rows.notes.set(id, column, value),
        Dataset::CategoryMapping => rows.category_mappings.set(id, column, value),
        Dataset::PayeeMapping => rows.payee_mappings.set(id, column, value),
        Dataset::ReflectBudgets => rows.tracked.set(id, column, value),
    }
}

/// Sets a field, where its dataset is known and has its column.
fn set_field(
    alloc: Global,
    rows: &mut Rows,
    index: &mut TxIndex,
    named: &mut BTreeSet<u32>,
    field: &Field,
    value: &Value,
) -> Result<(), NoMemory>
    requires indexed { IsIndexed index.old named.old rows.old.txs rows.old.budgets rows.old.months rows.old.tracked }
    requires valid { IsValue value.now }
    ensures rows { OnOk result (rows.new ≡ with_field rows.old field.now value.now) }
    ensures indexed { OnOk result (IsIndexed index.new named.new rows.new.txs rows.new.budgets rows.new.months rows.new.tracked) }
    ensures memory { OnErr result (IsSome (kind_of field.now.dataset field.now.column)) }
{
    let Some(dataset) = dataset_of(field.dataset()) else {
        return Ok(());
    };
    let Some(column) = column_of(field.column()) else {
        return Ok(());
    };
    if dataset_kind(dataset, column).is_none() {
        return Ok(());
    }
    let id = Txt::from_text(alloc, field.row())?;
    set_cell(alloc, rows, index, named, dataset, &id, column, value)
}

/// Counts as many steps.
fn tick_times<G: Ledger>(n: usize, steps: &mut Steps<G>)
    ensures { steps.new ≡ steps.old + n }
{
    for i in 0..n {
        let _ = i;
        steps.tick();
    }
}

/// The first and the last month that stand with an id.
fn dated_span(dated: &Dated) -> Option<(u32, u32)>
    ensures { Spans (HasDated dated.now) result }
{
    match (dated.first(), dated.last()) {
        (Some(first), Some(last)) => Some((first.0, last.0)),
        _ => None,
    }
}

/// The first and the last of some months.
fn named_span(named: &BTreeSet<u32>) -> Option<(u32, u32)>
    ensures { Spans (HasMonth named.now) result }
{
    match (named.first(), named.last()) {
        (Some(first), Some(last)) => Some((*first, *last)),
        _ => None,
    }
}

impl Book {
    /// A book without rows.
    pub fn new(alloc: Global) -> Book
        ensures { result ≡ record { rows = no_rows; spent = false } }
    {
        Book {
            alloc,
            rows: Rows {
                accounts: Table::new(alloc),
                groups: Table::new(alloc),
                categories: Table::new(alloc),
                payees: Table::new(alloc),
                txs: Table::new(alloc),
                budgets: Table::new(alloc),
                months: Table::new(alloc),
                notes: Table::new(alloc),
                rules: Table::new(alloc),
                schedules: Table::new(alloc),
                category_mappings: Table::new(alloc),
                payee_mappings: Table::new(alloc),
                tracked: Table::new(alloc),
            },
            index: TxIndex {
                children: BTreeMap::new(alloc),
                accounts: BTreeMap::new(alloc),
                categories: BTreeMap::new(alloc),
                schedules: BTreeMap::new(alloc),
                months: BTreeSet::new(alloc),
            },
            named: BTreeSet::new(alloc),
            spent: false,
        }
    }

    /// Whether a want of memory has spoilt the book.
    pub fn is_spent(&self) -> bool
        ensures { result ≡ self.now.spent }
    {
        self.spent
    }

    /// Spoils the book, as a want of memory of its own does: for a call that was to change it and something else together, and ran
    /// out of memory between them.
    pub fn spend(&mut self)
        ensures { self.new ≡ record { rows = self.old.rows; spent = true } }
    {
        self.spent = true;
    }

    /// Gives a field a value. A dataset that a book doesn't know, or a column that the dataset doesn't have, changes nothing, and
    /// takes no memory.
    pub fn set(&mut self, field: &Field, value: &Value) -> Result<(), NoMemory>
        requires live { self.old.spent ≡ false }
        requires valid { IsValue value.now }
        ensures rows { OnOk result (self.new.rows ≡ with_field self.old.rows field.now value.now) }
        ensures kept { OnOk result (self.new.spent ≡ false) }
        ensures spent { OnErr result (self.new.spent ≡ true) }
        ensures memory { OnErr result (IsSome (kind_of field.now.dataset field.now.column)) }
    {
        self.spent = true;
        set_field(
            self.alloc,
            &mut self.rows,
            &mut self.index,
            &mut self.named,
            field,
            value,
        )?;
        self.spent = false;
        Ok(())
    }

    /// The row of an account.
    pub fn account(&self, id: &Txt) -> Option<&AccountRow>
        ensures { option_copied result ≡ map.get self.now.rows.accounts id.now }
    {
        self.rows.accounts.get(id)
    }

    /// The row of a group of categories.
    pub fn group(&self, id: &Txt) -> Option<&GroupRow>
        ensures { option_copied result ≡ map.get self.now.rows.groups id.now }
    {
        self.rows.groups.get(id)
    }

    /// The row of a category.
    pub fn category(&self, id: &Txt) -> Option<&CategoryRow>
        ensures { option_copied result ≡ map.get self.now.rows.categories id.now }
    {
        self.rows.categories.get(id)
    }

    /// The row of a payee.
    pub fn payee(&self, id: &Txt) -> Option<&PayeeRow>
        ensures { option_copied result ≡ map.get self.now.rows.payees id.now }
    {
        self.rows.payees.get(id)
    }

    /// The row of a rule.
    pub fn rule(&self, id: &Txt) -> Option<&RuleRow>
        ensures { option_copied result ≡ map.get self.now.rows.rules id.now }
    {
        self.rows.rules.get(id)
    }

    /// The row of a schedule.
    pub fn schedule(&self, id: &Txt) -> Option<&ScheduleRow>
        ensures { option_copied result ≡ map.get self.now.rows.schedules id.now }
    {
        self.rows.schedules.get(id)
    }

    /// The row of what a category is given in a month.
    pub fn budget_row(&self, id: &Txt) -> Option<&BudgetRow>
        ensures { option_copied result ≡ map.get self.now.rows.budgets id.now }
    {
        self.rows.budgets.get(id)
    }

    /// The row of what is held back in a month.
    pub fn month_row(&self, id: &Txt) -> Option<&MonthRow>
        ensures { option_copied result ≡ map.get self.now.rows.months id.now }
    {
        self.rows.months.get(id)
    }

    /// The row of a note.
    pub fn note(&self, id: &Txt) -> Option<&NoteRow>
        ensures { option_copied result ≡ map.get self.now.rows.notes id.now }
    {
        self.rows.notes.get(id)
    }

    /// The rows of all accounts, by id, dead or alive.
    pub fn accounts(&self) -> &BTreeMap<Txt, AccountRow>
        ensures { result.now.entries ≡ map.entries self.now.rows.accounts }
    {
        self.rows.accounts.all()
    }

    /// The rows of all groups of categories, by id, dead or alive.
    pub fn groups(&self) -> &BTreeMap<Txt, GroupRow>
        ensures { result.now.entries ≡ map.entries self.now.rows.groups }
    {
        self.rows.groups.all()
    }

    /// The rows of all categories, by id, dead or alive.
    pub fn categories(&self) -> &BTreeMap<Txt, CategoryRow>
        ensures { result.now.entries ≡ map.entries self.now.rows.categories }
    {
        self.rows.categories.all()
    }

    /// The rows of all payees, by id, dead or alive.
    pub fn payees(&self) -> &BTreeMap<Txt, PayeeRow>
        ensures { result.now.entries ≡ map.entries self.now.rows.payees }
    {
        self.rows.payees.all()
    }

    /// The rows of all rules, by id, dead or alive.
    pub fn rules(&self) -> &BTreeMap<Txt, RuleRow>
        ensures { result.now.entries ≡ map.entries self.now.rows.rules }
    {
        self.rows.rules.all()
    }

    /// The rows of all schedules, by id, dead or alive.
    pub fn schedules(&self) -> &BTreeMap<Txt, ScheduleRow>
        ensures { result.now.entries ≡ map.entries self.now.rows.schedules }
    {
        self.rows.schedules.all()
    }

    /// The rows of all that categories are given in months, by id.
    pub fn budget_rows(&self) -> &BTreeMap<Txt, BudgetRow>
        ensures { result.now.entries ≡ map.entries self.now.rows.budgets }
    {
        self.rows.budgets.all()
    }

    /// The rows of all that is held back in months, by id.
    pub fn month_rows(&self) -> &BTreeMap<Txt, MonthRow>
        ensures { result.now.entries ≡ map.entries self.now.rows.months }
    {
        self.rows.months.all()
    }

    /// The rows of all notes, by id.
    pub fn note_rows(&self) -> &BTreeMap<Txt, NoteRow>
        ensures { result.now.entries ≡ map.entries self.now.rows.notes }
    {
        self.rows.notes.all()
    }

    /// The row that maps a category to another one.
    pub fn category_mapping(&self, id: &Txt) -> Option<&CategoryMappingRow>
        ensures { option_copied result ≡ map.get self.now.rows.category_mappings id.now }
    {
        self.rows.category_mappings.get(id)
    }

    /// The row that maps a payee to another one.
    pub fn payee_mapping(&self, id: &Txt) -> Option<&PayeeMappingRow>
        ensures { option_copied result ≡ map.get self.now.rows.payee_mappings id.now }
    {
        self.rows.payee_mappings.get(id)
    }

    /// The row of what a category is given in a month by the tracking budget.
    pub fn track_row(&self, id: &Txt) -> Option<&TrackRow>
        ensures { option_copied result ≡ map.get self.now.rows.tracked id.now }
    {
        self.rows.tracked.get(id)
    }

    /// The rows of all mappings of categories, by id.
    pub fn category_mappings(&self) -> &BTreeMap<Txt, CategoryMappingRow>
        ensures { result.now.entries ≡ map.entries self.now.rows.category_mappings }
    {
        self.rows.category_mappings.all()
    }

    /// The rows of all mappings of payees, by id.
    pub fn payee_mappings(&self) -> &BTreeMap<Txt, PayeeMappingRow>
        ensures { result.now.entries ≡ map.entries self.now.rows.payee_mappings }
    {
        self.rows.payee_mappings.all()
    }

    /// The rows of all that categories are given in months by the tracking budget, by id.
    pub fn track_rows(&self) -> &BTreeMap<Txt, TrackRow>
        ensures { result.now.entries ≡ map.entries self.now.rows.tracked }
    {
        self.rows.tracked.all()
    }

    /// What a category is mapped to: the target of its own mapping row, where that is there and has one, and else the category
    /// itself. It is one step: a mapping of the target isn't followed.
    pub fn mapped_category<'a>(&'a self, id: &'a Txt) -> &'a Txt
        ensures { result.now ≡ mapped_category self.now.rows id.now }
    {
        match self.rows.category_mappings.get(id) {
            Some(mapping) => match &mapping.transfer_id {
                Some(target) => target,
                None => id,
            },
            None => id,
        }
    }

    /// What a payee is mapped to: the target of its own mapping row, where that is there and has one, and else the payee itself. It
    /// is one step: a mapping of the target isn't followed.
    pub fn mapped_payee<'a>(&'a self, id: &'a Txt) -> &'a Txt
        ensures { result.now ≡ mapped_payee self.now.rows id.now }
    {
        match self.rows.payee_mappings.get(id) {
            Some(mapping) => match &mapping.target_id {
                Some(target) => target,
                None => id,
            },
            None => id,
        }
    }

    /// The category in which a transaction counts: what its own is mapped to, if it has one.
    pub fn resolved_category<'a>(&'a self, row: &'a TxRow) -> Option<&'a Txt>
        ensures { option_copied result ≡ category_of self.now.rows row.now }
    {
        match &row.category {
            Some(id) => Some(self.mapped_category(id)),
            None => None,
        }
    }

    /// The payee of a transaction: what its own is mapped to, if it has one.
    pub fn resolved_payee<'a>(&'a self, row: &'a TxRow) -> Option<&'a Txt>
        ensures { option_copied result ≡ payee_of self.now.rows row.now }
    {
        match &row.description {
            Some(id) => Some(self.mapped_payee(id)),
            None => None,
        }
    }

    /// Whether the dataset of this name has a row of this id, dead or alive. No row of a dataset that a book doesn't know is there.
    /// It takes no step.
    pub fn has_row(&self, dataset: &str, id: &Txt) -> bool
        ensures { result ≡ is_row self.now.rows (dataset_of dataset.now) id.now }
    {
        let Some(dataset) = dataset_of(dataset) else {
            return false;
        };
        match dataset {
            Dataset::Transactions => self.rows.txs.get(id).is_some(),
            Dataset::ZeroBudgets => self.rows.budgets.get(id).is_some(),
            Dataset::ZeroBudgetMonths => self.rows.months.get(id).is_some(),
            Dataset::Accounts => self.rows.accounts.get(id).is_some(),
            Dataset::CategoryGroups => self.rows.groups.get(id).is_some(),
            Dataset::Categories => self.rows.categories.get(id).is_some(),
            Dataset::Payees => self.rows.payees.get(id).is_some(),
            Dataset::Rules => self.rows.rules.get(id).is_some(),
            Dataset::Schedules => self.rows.schedules.get(id).is_some(),
            Dataset::Notes => self.rows.notes.get(id).is_some(),
            Dataset::CategoryMapping => self.rows.category_mappings.get(id).is_some(),
            Dataset::PayeeMapping => self.rows.payee_mappings.get(id).is_some(),
            Dataset::ReflectBudgets => self.rows.tracked.get(id).is_some(),
        }
    }

    /// The row of a transaction. It is one step where it is there.
    pub fn tx<G: Ledger>(&self, id: &Txt, steps: &mut Steps<G>) -> Option<&TxRow>
        ensures row { option_copied result ≡ map.get self.now.rows.txs id.now }
        ensures cost { steps.new ≡ steps.old + (if is_some result then 1 else 0) }
    {
        let row = self.rows.txs.get(id);
        if row.is_some() {
            steps.tick();
        }
        row
    }

    /// The rows of all transactions, by id, dead or alive. Each is one step.
    pub fn txs<G: Ledger>(&self, steps: &mut Steps<G>) -> &BTreeMap<Txt, TxRow>
        ensures rows { result.now.entries ≡ map.entries self.now.rows.txs }
        ensures cost { steps.new ≡ steps.old + length (map.entries self.now.rows.txs) }
    {
        tick_times(self.rows.txs.len(), steps);
        self.rows.txs.all()
    }

    /// Whether there is a transaction of this id, dead or alive. It takes no step.
    pub fn has_tx(&self, id: &Txt) -> bool
        ensures { result ≡ is_some (map.get self.now.rows.txs id.now) }
    {
        self.rows.txs.get(id).is_some()
    }

    /// Whether a transaction is there and was not deleted, and what it is a part of, if anything, is
    /// there and was not deleted. It takes no step.
    pub fn alive(&self, id: &Txt) -> bool
        ensures { result ≡ is_alive self.now.rows id.now }
    {
        match self.rows.txs.get(id) {
            Some(row) => !row.tombstone && self.has_parent(row),
            None => false,
        }
    }

    /// Whether a transaction is no part of another one, or that one is there and was not deleted.
    fn has_parent(&self, row: &TxRow) -> bool
        ensures { result ≡ has_parent self.now.rows row.now }
    {
        if !row.is_child {
            return true;
        }
        let Some(id) = &row.parent_id else {
            return false;
        };
        match self.rows.txs.get(id) {
            Some(parent) => !parent.tombstone,
            None => false,
        }
    }

    /// The month of a transaction, YYYYMM, dead or alive, where it has a day. It takes no step.
    pub fn month_of(&self, id: &Txt) -> Option<u32>
        ensures { result ≡ month_of_tx (map.get self.now.rows.txs id.now) }
    {
        match self.rows.txs.get(id) {
            Some(row) => month_of_row(row),
            None => None,
        }
    }

    /// The ids of the parts of a transaction, dead or alive, in order. Each is one step.
    pub fn children<G: Ledger>(
        &self,
        id: &Txt,
        steps: &mut Steps<G>,
    ) -> Result<Items<Txt>, NoMemory>
        requires live { self.now.spent ≡ false }
        ensures ids { IfOk result (λ v. v ≡ children_of self.now.rows id.now) }
        ensures cost { IfOk result (λ v. steps.new ≡ steps.old + length v) }
        ensures most { steps.new ≤ steps.old + length (children_of self.now.rows id.now) }
    {
        list(self.alloc, &self.index.children, id, steps)
    }

    /// The ids of the transactions of an account, dead or alive, in order. Each is one step.
    pub fn of_account<G: Ledger>(
        &self,
        id: &Txt,
        steps: &mut Steps<G>,
    ) -> Result<Items<Txt>, NoMemory>
        requires live { self.now.spent ≡ false }
        ensures ids { IfOk result (λ v. v ≡ account_txs self.now.rows id.now) }
        ensures cost { IfOk result (λ v. steps.new ≡ steps.old + length v) }
        ensures most { steps.new ≤ steps.old + length (account_txs self.now.rows id.now) }
    {
        list(self.alloc, &self.index.accounts, id, steps)
    }

    /// The ids of the transactions whose category column is this id, dead or alive, in order, whatever the category is mapped to.
    /// Each is one step.
    pub fn of_category<G: Ledger>(
        &self,
        id: &Txt,
        steps: &mut Steps<G>,
    ) -> Result<Items<Txt>, NoMemory>
        requires live { self.now.spent ≡ false }
        ensures ids { IfOk result (λ v. v ≡ category_txs self.now.rows id.now) }
        ensures cost { IfOk result (λ v. steps.new ≡ steps.old + length v) }
        ensures most { steps.new ≤ steps.old + length (category_txs self.now.rows id.now) }
    {
        list(self.alloc, &self.index.categories, id, steps)
    }

    /// The ids of the transactions whose schedule column is this id, dead or alive, in order, lent as they stand.
    pub fn of_schedule(&self, id: &Txt) -> Option<&BTreeSet<Txt>>
        requires live { self.now.spent ≡ false }
        ensures { ids_in (option_copied result) ≡ schedule_txs self.now.rows id.now }
    {
        under(&self.index.schedules, id)
    }

    /// What a transaction adds to the balance of its account.
    fn added_by(&self, id: &Txt) -> i64
        ensures { result ≡ value_or_zero (adds self.now.rows) (map.get self.now.rows.txs id.now) }
    {
        match self.rows.txs.get(id) {
            Some(row) => {
                if row.tombstone || row.is_parent || !self.has_parent(row) {
                    0
                } else {
                    row.amount
                }
            }
            None => 0,
        }
    }

    /// What transactions add to the balances of their accounts, together.
    fn sum_of(&self, ids: &BTreeSet<Txt>) -> i128
        ensures sorted { IsStrictlySortedBy text_cmp ids.now.keys }
        ensures sum { result ≡ total (λ id. value_or_zero (adds self.now.rows) (map.get self.now.rows.txs id)) ids.now.keys }
    {
        let _ = ids.len();
        let mut sum = 0i128;
        for id in ids {
            sum += i128::from(self.added_by(id));
        }
        sum
    }

    /// The balance of an account, in cents: what its transactions add up to, but for those that are dead, and for those that are
    /// split, whose parts add up in their place. It looks at the transactions of this account alone, and takes no step.
    pub fn balance(&self, account: &Txt) -> i128
        requires live { self.now.spent ≡ false }
        ensures { result ≡ balance_of self.now.rows account.now }
    {
        match self.index.accounts.get(account) {
            Some(ids) => self.sum_of(ids),
            None => 0,
        }
    }

    /// The first and the last month, YYYYMM, with a day of a transaction, dead or alive, or in the id of a budget row or of a month
    /// row. There is none where no row has a month.
    pub fn window(&self) -> Option<(u32, u32)>
        requires live { self.now.spent ≡ false }
        ensures window { result ≡ window_of self.now.rows }
        ensures months { IfSome result (λ w. (is_month w.0 ≡ true) × (is_month w.1 ≡ true)) }
    {
        hull(dated_span(&self.index.months), named_span(&self.named))
    }

    /// Each id of a row is a name: it has come with a field.
    pub fn names(&self)
        ensures { HasNames self.now.rows }
    {
        self.rows.accounts.tell_names();
        self.rows.groups.tell_names();
        self.rows.categories.tell_names();
        self.rows.payees.tell_names();
        self.rows.txs.tell_names();
        self.rows.budgets.tell_names();
        self.rows.months.tell_names();
        self.rows.notes.tell_names();
        self.rows.rules.tell_names();
        self.rows.schedules.tell_names();
        self.rows.category_mappings.tell_names();
        self.rows.payee_mappings.tell_names();
        self.rows.tracked.tell_names();
    }

    /// How many rows there are of each kind; how great the numbers are that are added up: none is greater than a value may hold;
    /// and that each day of a transaction is one of the calendar from 1970 to 2199.
    pub fn sizes(&self)
        requires live { self.now.spent ≡ false }
        ensures { HasSizes self.now.rows }
    {
        let _ = self.rows.accounts.len();
        let _ = self.rows.groups.len();
        let _ = self.rows.categories.len();
        let _ = self.rows.payees.len();
        let _ = self.rows.txs.len();
        let _ = self.rows.budgets.len();
        let _ = self.rows.months.len();
        let _ = self.rows.notes.len();
        let _ = self.rows.rules.len();
        let _ = self.rows.schedules.len();
        let _ = self.rows.category_mappings.len();
        let _ = self.rows.payee_mappings.len();
        let _ = self.rows.tracked.len();
    }
}
