//! The row of a new rule.
ghost use Rattle.std.specs.Prelude.{◌≡◌, IfOk, IfErr, Ok};
ghost use Rattle.book_edits.specs.Faults.{IsEditFault};
ghost use Rattle.book_edits.specs.Checks.{new_row};
ghost use Rattle.rule_engine.specs.Edits.{is_rule};

use book_edits::given::given_row;
use book_rows::{Book, EditFault, RowName};
use field_values::Txt;

/// The row of a new rule.
pub(crate) fn new_rule(book: &Book, id: &Option<Txt>) -> Result<RowName, EditFault>
    ensures ok { IfOk result (λ row. new_row (is_rule book.now.rows) id.now ≡ Ok row) }
    ensures err { IfErr result (IsEditFault (new_row (is_rule book.now.rows) id.now)) }
{
    match id {
        Some(id) => given_row(book.rule(id).is_some(), id),
        None => Ok(RowName::Made(0)),
    }
}
