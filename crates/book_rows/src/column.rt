//! The names of datasets and columns that a book knows.
ghost use Rattle.std.specs.Prelude.{◌≡◌};
ghost use Rattle.book_rows.specs.Columns.{dataset_of, later_dataset_of, last_dataset_of, column_of, second_column_of, third_column_of, fourth_column_of, fifth_column_of, sixth_column_of, seventh_column_of, same_text};

/// A dataset whose messages make rows of a book.
#[derive(Clone, Copy, Debug, PartialEq, Eq)]
pub enum Dataset {
    /// `transactions`.
    Transactions,
    /// `zero_budgets`.
    ZeroBudgets,
    /// `accounts`.
    Accounts,
    /// `category_groups`.
    CategoryGroups,
    /// `categories`.
    Categories,
    /// `payees`.
    Payees,
    /// `zero_budget_months`.
    ZeroBudgetMonths,
    /// `notes`.
    Notes,
    /// `rules`.
    Rules,
    /// `schedules`.
    Schedules,
    /// `category_mapping`.
    CategoryMapping,
    /// `payee_mapping`.
    PayeeMapping,
    /// `reflect_budgets`.
    ReflectBudgets,
}

/// A column that rows of some dataset have.
#[derive(Clone, Copy, Debug, PartialEq, Eq)]
pub enum Column {
    /// `acct`.
    Acct,
    /// `date`.
    Date,
    /// `amount`.
    Amount,
    /// `category`.
    Category,
    /// `description`.
    Description,
    /// `notes`.
    Notes,
    /// `name`.
    Name,
    /// `tombstone`.
    Tombstone,
    /// `sort_order`.
    SortOrder,
    /// `cleared`.
    Cleared,
    /// `reconciled`.
    Reconciled,
    /// `note`.
    Note,
    /// `isParent`.
    IsParent,
    /// `isChild`.
    IsChild,
    /// `parent_id`.
    ParentId,
    /// `transferred_id`.
    TransferredId,
    /// `schedule`.
    Schedule,
    /// `imported_description`.
    ImportedDescription,
    /// `financial_id`.
    FinancialId,
    /// `cat_group`.
    CatGroup,
    /// `is_income`.
    IsIncome,
    /// `hidden`.
    Hidden,
    /// `offbudget`.
    Offbudget,
    /// `closed`.
    Closed,
    /// `transfer_acct`.
    TransferAcct,
    /// `month`.
    Month,
    /// `carryover`.
    Carryover,
    /// `buffered`.
    Buffered,
    /// `stage`.
    Stage,
    /// `conditions_op`.
    ConditionsOp,
    /// `conditions`.
    Conditions,
    /// `actions`.
    Actions,
    /// `rule`.
    Rule,
    /// `next_date`.
    NextDate,
    /// `completed`.
    Completed,
    /// `posts_transaction`.
    PostsTransaction,
    /// `transferId`.
    TransferId,
    /// `targetId`.
    TargetId,
}

/// Whether a name is this word.
fn is(name: &[u8], word: &[u8]) -> bool
    ensures { result ≡ same_text name.now word.now }
{
    name == word
}

/// The dataset of this name, where a book knows it.
#[tactic(auto, unfolding(crate::specs::Columns::dataset_of))]
pub fn dataset_of(name: &str) -> Option<Dataset>
    ensures { result ≡ dataset_of name.now }
{
    let name = name.as_bytes();
    if is(name, b"transactions") {
        return Some(Dataset::Transactions);
    }
    if is(name, b"zero_budgets") {
        return Some(Dataset::ZeroBudgets);
    }
    if is(name, b"accounts") {
        return Some(Dataset::Accounts);
    }
    if is(name, b"category_groups") {
        return Some(Dataset::CategoryGroups);
    }
    if is(name, b"categories") {
        return Some(Dataset::Categories);
    }
    if is(name, b"payees") {
        return Some(Dataset::Payees);
    }
    later_dataset(name)
}

/// The dataset of this name, from the second six on.
#[tactic(auto, unfolding(crate::specs::Columns::later_dataset_of))]
fn later_dataset(name: &[u8]) -> Option<Dataset>
    ensures { result ≡ later_dataset_of name.now }
{
    if is(name, b"zero_budget_months") {
        return Some(Dataset::ZeroBudgetMonths);
    }
    if is(name, b"notes") {
        return Some(Dataset::Notes);
    }
    if is(name, b"rules") {
        return Some(Dataset::Rules);
    }
    if is(name, b"schedules") {
        return Some(Dataset::Schedules);
    }
    if is(name, b"category_mapping") {
        return Some(Dataset::CategoryMapping);
    }
    if is(name, b"payee_mapping") {
        return Some(Dataset::PayeeMapping);
    }
    last_dataset(name)
}

/// The dataset of this name, from the third six on.
#[tactic(auto, unfolding(crate::specs::Columns::last_dataset_of))]
fn last_dataset(name: &[u8]) -> Option<Dataset>
    ensures { result ≡ last_dataset_of name.now }
{
    if is(name, b"reflect_budgets") {
        return Some(Dataset::ReflectBudgets);
    }
    None
}

/// The column of this name, where some dataset has it.
#[tactic(auto, unfolding(crate::specs::Columns::column_of))]
pub fn column_of(name: &str) -> Option<Column>
    ensures { result ≡ column_of name.now }
{
    let name = name.as_bytes();
    if is(name, b"acct") {
        return Some(Column::Acct);
    }
    if is(name, b"date") {
        return Some(Column::Date);
    }
    if is(name, b"amount") {
        return Some(Column::Amount);
    }
    if is(name, b"category") {
        return Some(Column::Category);
    }
    if is(name, b"description") {
        return Some(Column::Description);
    }
    if is(name, b"notes") {
        return Some(Column::Notes);
    }
    second_column(name)
}

/// The column of this name, from the second six on.
#[tactic(auto, unfolding(crate::specs::Columns::second_column_of))]
fn second_column(name: &[u8]) -> Option<Column>
    ensures { result ≡ second_column_of name.now }
{
    if is(name, b"name") {
        return Some(Column::Name);
    }
    if is(name, b"tombstone") {
        return Some(Column::Tombstone);
    }
    if is(name, b"sort_order") {
        return Some(Column::SortOrder);
    }
    if is(name, b"cleared") {
        return Some(Column::Cleared);
    }
    if is(name, b"reconciled") {
        return Some(Column::Reconciled);
    }
    if is(name, b"note") {
        return Some(Column::Note);
    }
    third_column(name)
}

/// The column of this name, from the third six on.
#[tactic(auto, unfolding(crate::specs::Columns::third_column_of))]
fn third_column(name: &[u8]) -> Option<Column>
    ensures { result ≡ third_column_of name.now }
{
    if is(name, b"isParent") {
        return Some(Column::IsParent);
    }
    if is(name, b"isChild") {
        return Some(Column::IsChild);
    }
    if is(name, b"parent_id") {
        return Some(Column::ParentId);
    }
    if is(name, b"transferred_id") {
        return Some(Column::TransferredId);
    }
    if is(name, b"schedule") {
        return Some(Column::Schedule);
    }
    if is(name, b"imported_description") {
        return Some(Column::ImportedDescription);
    }
    fourth_column(name)
}

/// The column of this name, from the fourth six on.
#[tactic(auto, unfolding(crate::specs::Columns::fourth_column_of))]
fn fourth_column(name: &[u8]) -> Option<Column>
    ensures { result ≡ fourth_column_of name.now }
{
    if is(name, b"financial_id") {
        return Some(Column::FinancialId);
    }
    if is(name, b"cat_group") {
        return Some(Column::CatGroup);
    }
    if is(name, b"is_income") {
        return Some(Column::IsIncome);
    }
    if is(name, b"hidden") {
        return Some(Column::Hidden);
    }
    if is(name, b"offbudget") {
        return Some(Column::Offbudget);
    }
    if is(name, b"closed") {
        return Some(Column::Closed);
    }
    fifth_column(name)
}

/// The column of this name, from the fifth six on.
#[tactic(auto, unfolding(crate::specs::Columns::fifth_column_of))]
fn fifth_column(name: &[u8]) -> Option<Column>
    ensures { result ≡ fifth_column_of name.now }
{
    if is(name, b"transfer_acct") {
        return Some(Column::TransferAcct);
    }
    if is(name, b"month") {
        return Some(Column::Month);
    }
    if is(name, b"carryover") {
        return Some(Column::Carryover);
    }
    if is(name, b"buffered") {
        return Some(Column::Buffered);
    }
    if is(name, b"stage") {
        return Some(Column::Stage);
    }
    if is(name, b"conditions_op") {
        return Some(Column::ConditionsOp);
    }
    sixth_column(name)
}

/// The column of this name, from the sixth six on.
#[tactic(auto, unfolding(crate::specs::Columns::sixth_column_of))]
fn sixth_column(name: &[u8]) -> Option<Column>
    ensures { result ≡ sixth_column_of name.now }
{
    if is(name, b"conditions") {
        return Some(Column::Conditions);
    }
    if is(name, b"actions") {
        return Some(Column::Actions);
    }
    if is(name, b"rule") {
        return Some(Column::Rule);
    }
    if is(name, b"next_date") {
        return Some(Column::NextDate);
    }
    if is(name, b"completed") {
        return Some(Column::Completed);
    }
    if is(name, b"posts_transaction") {
        return Some(Column::PostsTransaction);
    }
    seventh_column(name)
}

/// The column of this name, from the seventh six on.
#[tactic(auto, unfolding(crate::specs::Columns::seventh_column_of))]
fn seventh_column(name: &[u8]) -> Option<Column>
    ensures { result ≡ seventh_column_of name.now }
{
    if is(name, b"transferId") {
        return Some(Column::TransferId);
    }
    if is(name, b"targetId") {
        return Some(Column::TargetId);
    }
    None
}
