//! The rows of a book: of each dataset one type, whose fields are its columns.
ghost use Rattle.std.specs.Prelude.{◌≡◌, IfOk};

use crate::table::Table;
use field_values::{Copied, NoMemory, Txt};

/// A copy of a text that may be absent.
pub fn copied(text: &Option<Txt>) -> Result<Option<Txt>, NoMemory>
    ensures { IfOk result (λ t. t ≡ text.now) }
{
    match text {
        Some(text) => Ok(Some(text.copy()?)),
        None => Ok(None),
    }
}

/// A transaction. One that is not in a book yet has the empty id.
#[derive(Debug, PartialEq, Eq, Drop)]
pub struct TxRow {
    /// Its id.
    pub id: Txt,
    /// The id of its account.
    pub acct: Option<Txt>,
    /// Its day, YYYYMMDD from 19700101 to 21991231.
    pub date: Option<u32>,
    /// In cents, negative where money goes out.
    pub amount: i64,
    /// The id of its payee.
    pub description: Option<Txt>,
    /// The id of its category.
    pub category: Option<Txt>,
    /// What is noted of it.
    pub notes: Option<Txt>,
    /// The payee as a statement calls it.
    pub imported_description: Option<Txt>,
    /// Its id in a statement.
    pub financial_id: Option<Txt>,
    /// The id of the other part of a transfer.
    pub transferred_id: Option<Txt>,
    /// The id of its schedule.
    pub schedule: Option<Txt>,
    /// Whether it is split: its parts count in its place. The column is `isParent`.
    pub is_parent: bool,
    /// Whether it is a part of another one. The column is `isChild`.
    pub is_child: bool,
    /// The id of the transaction that it is a part of.
    pub parent_id: Option<Txt>,
    /// Whether the bank has it.
    pub cleared: bool,
    /// Whether it was compared with a statement.
    pub reconciled: bool,
    /// Its place among the others.
    pub sort_order: i64,
    /// Whether it was deleted.
    pub tombstone: bool,
}

impl TxRow {
    /// An equal row.
    pub fn copy(&self) -> Result<TxRow, NoMemory>
        ensures { IfOk result (λ r. r ≡ self.now) }
    {
        Ok(TxRow {
            id: self.id.copy()?,
            acct: copied(&self.acct)?,
            date: self.date,
            amount: self.amount,
            description: copied(&self.description)?,
            category: copied(&self.category)?,
            notes: copied(&self.notes)?,
            imported_description: copied(&self.imported_description)?,
            financial_id: copied(&self.financial_id)?,
            transferred_id: copied(&self.transferred_id)?,
            schedule: copied(&self.schedule)?,
            is_parent: self.is_parent,
            is_child: self.is_child,
            parent_id: copied(&self.parent_id)?,
            cleared: self.cleared,
            reconciled: self.reconciled,
            sort_order: self.sort_order,
            tombstone: self.tombstone,
        })
    }
}

impl Copied for TxRow {
    fn copied(&self) -> Result<TxRow, NoMemory> {
        self.copy()
    }
}

/// What a category is given in a month. The id is the month, `-` and the id of the category.
#[derive(Debug, PartialEq, Eq, Drop)]
pub struct BudgetRow {
    /// Its id.
    pub id: Txt,
    /// As the message says, YYYYMM. Only the id tells for which month the row counts.
    pub month: i64,
    /// As the message says. Only the id tells for which category the row counts.
    pub category: Option<Txt>,
    /// What the category is given, in cents.
    pub amount: i64,
    /// Whether what is overspent stays in the category.
    pub carryover: bool,
}

impl BudgetRow {
    /// An equal row.
    pub fn copy(&self) -> Result<BudgetRow, NoMemory>
        ensures { IfOk result (λ r. r ≡ self.now) }
    {
        Ok(BudgetRow {
            id: self.id.copy()?,
            month: self.month,
            category: copied(&self.category)?,
            amount: self.amount,
            carryover: self.carryover,
        })
    }
}

impl Copied for BudgetRow {
    fn copied(&self) -> Result<BudgetRow, NoMemory> {
        self.copy()
    }
}

/// An account.
#[derive(Debug, PartialEq, Eq, Drop)]
pub struct AccountRow {
    /// Its id.
    pub id: Txt,
    /// How it is called.
    pub name: Option<Txt>,
    /// Whether its transactions stand outside the budget.
    pub offbudget: bool,
    /// Whether it is closed.
    pub closed: bool,
    /// Its place among the others.
    pub sort_order: i64,
    /// Whether it was deleted.
    pub tombstone: bool,
}

impl AccountRow {
    /// An equal row.
    pub fn copy(&self) -> Result<AccountRow, NoMemory>
        ensures { IfOk result (λ r. r ≡ self.now) }
    {
        Ok(AccountRow {
            id: self.id.copy()?,
            name: copied(&self.name)?,
            offbudget: self.offbudget,
            closed: self.closed,
            sort_order: self.sort_order,
            tombstone: self.tombstone,
        })
    }
}

impl Copied for AccountRow {
    fn copied(&self) -> Result<AccountRow, NoMemory> {
        self.copy()
    }
}

/// A group of categories.
#[derive(Debug, PartialEq, Eq, Drop)]
pub struct GroupRow {
    /// Its id.
    pub id: Txt,
    /// How it is called.
    pub name: Option<Txt>,
    /// Whether its categories take income.
    pub is_income: bool,
    /// Its place among the others.
    pub sort_order: i64,
    /// Whether it is hidden. Nothing reads it.
    pub hidden: bool,
    /// Whether it was deleted.
    pub tombstone: bool,
}

impl GroupRow {
    /// An equal row.
    pub fn copy(&self) -> Result<GroupRow, NoMemory>
        ensures { IfOk result (λ r. r ≡ self.now) }
    {
        Ok(GroupRow {
            id: self.id.copy()?,
            name: copied(&self.name)?,
            is_income: self.is_income,
            sort_order: self.sort_order,
            hidden: self.hidden,
            tombstone: self.tombstone,
        })
    }
}

impl Copied for GroupRow {
    fn copied(&self) -> Result<GroupRow, NoMemory> {
        self.copy()
    }
}

/// A category.
#[derive(Debug, PartialEq, Eq, Drop)]
pub struct CategoryRow {
    /// Its id.
    pub id: Txt,
    /// How it is called.
    pub name: Option<Txt>,
    /// The id of its group.
    pub cat_group: Option<Txt>,
    /// As its group has it when the category is made. Nothing reads it.
    pub is_income: bool,
    /// Its place among the others.
    pub sort_order: i64,
    /// Whether it is hidden. Nothing reads it.
    pub hidden: bool,
    /// Whether it was deleted.
    pub tombstone: bool,
}

impl CategoryRow {
    /// An equal row.
    pub fn copy(&self) -> Result<CategoryRow, NoMemory>
        ensures { IfOk result (λ r. r ≡ self.now) }
    {
        Ok(CategoryRow {
            id: self.id.copy()?,
            name: copied(&self.name)?,
            cat_group: copied(&self.cat_group)?,
            is_income: self.is_income,
            sort_order: self.sort_order,
            hidden: self.hidden,
            tombstone: self.tombstone,
        })
    }
}

impl Copied for CategoryRow {
    fn copied(&self) -> Result<CategoryRow, NoMemory> {
        self.copy()
    }
}

/// A payee.
#[derive(Debug, PartialEq, Eq, Drop)]
pub struct PayeeRow {
    /// Its id.
    pub id: Txt,
    /// How it is called.
    pub name: Option<Txt>,
    /// The id of the account that the payee stands for, in transfers.
    pub transfer_acct: Option<Txt>,
    /// Whether it was deleted.
    pub tombstone: bool,
}

impl PayeeRow {
    /// An equal row.
    pub fn copy(&self) -> Result<PayeeRow, NoMemory>
        ensures { IfOk result (λ r. r ≡ self.now) }
    {
        Ok(PayeeRow {
            id: self.id.copy()?,
            name: copied(&self.name)?,
            transfer_acct: copied(&self.transfer_acct)?,
            tombstone: self.tombstone,
        })
    }
}

impl Copied for PayeeRow {
    fn copied(&self) -> Result<PayeeRow, NoMemory> {
        self.copy()
    }
}

/// What is held back in a month. The id is the month, as `2024-01`.
#[derive(Debug, PartialEq, Eq, Drop)]
pub struct MonthRow {
    /// Its id.
    pub id: Txt,
    /// What is held for the next month, in cents.
    pub buffered: i64,
}

impl MonthRow {
    /// An equal row.
    pub fn copy(&self) -> Result<MonthRow, NoMemory>
        ensures { IfOk result (λ r. r ≡ self.now) }
    {
        Ok(MonthRow {
            id: self.id.copy()?,
            buffered: self.buffered,
        })
    }
}

impl Copied for MonthRow {
    fn copied(&self) -> Result<MonthRow, NoMemory> {
        self.copy()
    }
}

/// A note on the row of this id.
#[derive(Debug, PartialEq, Eq, Drop)]
pub struct NoteRow {
    /// Its id.
    pub id: Txt,
    /// The text.
    pub note: Option<Txt>,
}

impl NoteRow {
    /// An equal row.
    pub fn copy(&self) -> Result<NoteRow, NoMemory>
        ensures { IfOk result (λ r. r ≡ self.now) }
    {
        Ok(NoteRow {
            id: self.id.copy()?,
            note: copied(&self.note)?,
        })
    }
}

impl Copied for NoteRow {
    fn copied(&self) -> Result<NoteRow, NoMemory> {
        self.copy()
    }
}

/// A rule.
#[derive(Debug, PartialEq, Eq, Drop)]
pub struct RuleRow {
    /// Its id.
    pub id: Txt,
    /// `pre`, `post`, or neither.
    pub stage: Option<Txt>,
    /// `or`, or else `and`.
    pub conditions_op: Option<Txt>,
    /// The conditions, as JSON.
    pub conditions: Option<Txt>,
    /// The actions, as JSON.
    pub actions: Option<Txt>,
    /// Whether it was deleted.
    pub tombstone: bool,
}

impl RuleRow {
    /// An equal row.
    pub fn copy(&self) -> Result<RuleRow, NoMemory>
        ensures { IfOk result (λ r. r ≡ self.now) }
    {
        Ok(RuleRow {
            id: self.id.copy()?,
            stage: copied(&self.stage)?,
            conditions_op: copied(&self.conditions_op)?,
            conditions: copied(&self.conditions)?,
            actions: copied(&self.actions)?,
            tombstone: self.tombstone,
        })
    }
}

impl Copied for RuleRow {
    fn copied(&self) -> Result<RuleRow, NoMemory> {
        self.copy()
    }
}

/// A schedule.
#[derive(Debug, PartialEq, Eq, Drop)]
pub struct ScheduleRow {
    /// Its id.
    pub id: Txt,
    /// The id of the rule that says when.
    pub rule: Option<Txt>,
    /// How it is called.
    pub name: Option<Txt>,
    /// The next day, YYYYMMDD.
    pub next_date: Option<u32>,
    /// Whether it has ended.
    pub completed: bool,
    /// Whether it makes its transactions by itself.
    pub posts_transaction: bool,
    /// Whether it was deleted.
    pub tombstone: bool,
}

impl ScheduleRow {
    /// An equal row.
    pub fn copy(&self) -> Result<ScheduleRow, NoMemory>
        ensures { IfOk result (λ r. r ≡ self.now) }
    {
        Ok(ScheduleRow {
            id: self.id.copy()?,
            rule: copied(&self.rule)?,
            name: copied(&self.name)?,
            next_date: self.next_date,
            completed: self.completed,
            posts_transaction: self.posts_transaction,
            tombstone: self.tombstone,
        })
    }
}

impl Copied for ScheduleRow {
    fn copied(&self) -> Result<ScheduleRow, NoMemory> {
        self.copy()
    }
}

/// What a category is given in a month by the tracking budget. The id is the month, `-` and the id of the category, as that of a
/// budget row is.
pub type TrackRow = BudgetRow;

/// Where the transactions of a category count. The id is that of the category.
#[derive(Debug, PartialEq, Eq, Drop)]
pub struct CategoryMappingRow {
    /// Its id.
    pub id: Txt,
    /// The id of the category in whose place they count. The column is `transferId`.
    pub transfer_id: Option<Txt>,
}

impl CategoryMappingRow {
    /// An equal row.
    pub fn copy(&self) -> Result<CategoryMappingRow, NoMemory>
        ensures { IfOk result (λ r. r ≡ self.now) }
    {
        Ok(CategoryMappingRow {
            id: self.id.copy()?,
            transfer_id: copied(&self.transfer_id)?,
        })
    }
}

impl Copied for CategoryMappingRow {
    fn copied(&self) -> Result<CategoryMappingRow, NoMemory> {
        self.copy()
    }
}

/// For which payee another one stands. The id is that of the payee that was merged.
#[derive(Debug, PartialEq, Eq, Drop)]
pub struct PayeeMappingRow {
    /// Its id.
    pub id: Txt,
    /// The id of the payee for which it stands. The column is `targetId`.
    pub target_id: Option<Txt>,
}

impl PayeeMappingRow {
    /// An equal row.
    pub fn copy(&self) -> Result<PayeeMappingRow, NoMemory>
        ensures { IfOk result (λ r. r ≡ self.now) }
    {
        Ok(PayeeMappingRow {
            id: self.id.copy()?,
            target_id: copied(&self.target_id)?,
        })
    }
}

impl Copied for PayeeMappingRow {
    fn copied(&self) -> Result<PayeeMappingRow, NoMemory> {
        self.copy()
    }
}

/// The rows of a book, by dataset and id.
#[derive(Debug, Drop)]
pub(crate) struct Rows {
    /// Accounts.
    pub accounts: Table<AccountRow>,
    /// Groups of categories.
    pub groups: Table<GroupRow>,
    /// Categories.
    pub categories: Table<CategoryRow>,
    /// Payees.
    pub payees: Table<PayeeRow>,
    /// Transactions.
    pub txs: Table<TxRow>,
    /// What categories are given in months.
    pub budgets: Table<BudgetRow>,
    /// What is held back in months.
    pub months: Table<MonthRow>,
    /// Notes.
    pub notes: Table<NoteRow>,
    /// Rules.
    pub rules: Table<RuleRow>,
    /// Schedules.
    pub schedules: Table<ScheduleRow>,
    /// Where the transactions of categories count.
    pub category_mappings: Table<CategoryMappingRow>,
    /// For which payees others stand.
    pub payee_mappings: Table<PayeeMappingRow>,
    /// What categories are given in months by the tracking budget.
    pub tracked: Table<TrackRow>,
}
