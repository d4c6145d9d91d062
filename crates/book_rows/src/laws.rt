//! Facts about all books, which a proof can call for.
ghost use Rattle.book_rows.specs.Laws.{LiveRowsAreTold, MappingsAreTold, RowsFollowFields, WindowsSpan};

/// A law: the rows follow the values of the fields. To give a field a value is to give it that value among the values, the same
/// values make the same rows, and what a book doesn't know changes none.
pub fn rows_follow_fields()
    ensures { RowsFollowFields }
{}

/// A law: which transactions are live, which count, and which categories take income or are for expenses.
pub fn live_rows_are_told()
    ensures { LiveRowsAreTold }
{}

/// A law: the category and the payee of a transaction are what the ids in its columns stand for: the target of the id's own mapping
/// row, or, where no row of its own has a target, the id itself. It is one step and never two.
pub fn mappings_are_told()
    ensures { MappingsAreTold }
{}

/// A law: the window of a book is from the first month that a row has to the last.
pub fn windows_span()
    ensures { WindowsSpan }
{}
