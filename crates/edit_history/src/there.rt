//! Whether the row of a field is there.
ghost use Rattle.std.specs.Prelude.{◌≡◌, IfOk};
ghost use Rattle.book_rows.specs.Rows.{Values, AreRowsOf, has_row};

use book_rows::Book;
use field_values::{Field, NoMemory, Txt};
use std::alloc::Global;

/// Whether the row of a field is there, of a book that has the rows of some values.
pub(crate) fn is_there(alloc: Global, book: &Book, field: &Field) -> Result<bool, NoMemory>
    ensures { IfOk result (λ there. (values : Values) → AreRowsOf values book.now.rows → there ≡ has_row values field.now) }
{
    let id = Txt::from_text(alloc, field.row())?;
    Ok(book.has_row(field.dataset(), &id))
}
