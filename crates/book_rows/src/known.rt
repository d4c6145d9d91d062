//! How a column is read, by the names of its dataset and its own.
ghost use Rattle.std.specs.Prelude.{◌≡◌};
ghost use Rattle.book_rows.specs.Rows.{dataset_kind, kind_of};

use crate::column::{Column, Dataset, column_of, dataset_of};
use crate::kind::Kind;
use crate::rows::{
    AccountRow, BudgetRow, CategoryMappingRow, CategoryRow, GroupRow, MonthRow, NoteRow,
    PayeeMappingRow, PayeeRow, RuleRow, ScheduleRow, TrackRow, TxRow,
};
use crate::table::Row;

/// How a column of a dataset is read, where the dataset has it.
pub fn dataset_kind(dataset: Dataset, column: Column) -> Option<Kind>
    ensures { result ≡ dataset_kind dataset column }
{
    match dataset {
        Dataset::Transactions => TxRow::kind(column),
        Dataset::ZeroBudgets => BudgetRow::kind(column),
        Dataset::Accounts => AccountRow::kind(column),
        Dataset::CategoryGroups => GroupRow::kind(column),
        Dataset::Categories => CategoryRow::kind(column),
        Dataset::Payees => PayeeRow::kind(column),
        Dataset::ZeroBudgetMonths => MonthRow::kind(column),
        Dataset::Notes => NoteRow::kind(column),
        Dataset::Rules => RuleRow::kind(column),
        Dataset::Schedules => ScheduleRow::kind(column),
        Dataset::CategoryMapping => CategoryMappingRow::kind(column),
        Dataset::PayeeMapping => PayeeMappingRow::kind(column),
        Dataset::ReflectBudgets => TrackRow::kind(column),
    }
}

/// How the column of a name is read in the dataset of a name, where a book knows both and the dataset has the column. A dataset
/// whose rows can be deleted has the column `tombstone`.
pub fn kind_of(dataset: &str, column: &str) -> Option<Kind>
    ensures { result ≡ kind_of dataset.now column.now }
{
    dataset_kind(dataset_of(dataset)?, column_of(column)?)
}
