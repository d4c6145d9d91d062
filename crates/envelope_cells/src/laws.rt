//! Facts about all budgets, which a proof can call for.
ghost use Rattle.std.specs.Prelude.{ℕ};
ghost use Rattle.finite_sums.specs.Maps.{Text};
ghost use Rattle.book_rows.specs.declared.rows.Rows.{Rows};
ghost use Rattle.envelope_cells.specs.Budget.{Budget};
ghost use Rattle.envelope_cells.specs.Laws.{CellsAreSmall, LeftoversAreMade, LiveOnesAreListed, MoneyIsKept, MonthsAreMade, OthersCountNowhere, OverspendingIsTaken, SheetsAreNamed, SheetsTellCells};

/// A law: in every month what is still to budget, what is held back and what is left in the categories add up to all that
/// came in and went out in live categories up to then. So no cent is lost, and none is made.
pub fn money_is_kept()
    ensures { MoneyIsKept }
{}

/// A law: a leftover is what the category is given and what its transactions add up to, with the leftover of the month before;
/// but what was overspent is not carried over without its flag.
pub fn leftovers_are_made()
    ensures { (b : Budget) (c : Text) → LeftoversAreMade b c }
{}

/// A law: what a category is overspent by is taken from the next month's money where it is without its flag, and with the flag
/// stays in the category.
pub fn overspending_is_taken()
    ensures { (b : Budget) (c : Text) → OverspendingIsTaken b c }
{}

/// A law: how the cells of a month are made of each other, and what comes from the month before.
pub fn months_are_made()
    ensures { (b : Budget) → MonthsAreMade b }
{}

/// A law: a category that is not live counts nowhere.
pub fn others_count_nowhere()
    ensures { OthersCountNowhere }
{}

/// A law: a name of its month has on a sheet the value of its cell, and stands on none where it has no cell.
pub fn sheets_tell_cells()
    ensures { SheetsTellCells }
{}

/// A law: the cells of a sheet are those of the month's names, in their order ([`crate::cell_names`]), and each has the value of its
/// cell. So a sheet can be made of names and cells.
pub fn sheets_are_named()
    ensures { (rows : Rows) (month : ℕ) → SheetsAreNamed rows month }
{}

/// A law: in a month from January 1970 to December 2199 no cell of a book is greater than 2 to the 121, either way.
pub fn cells_are_small()
    ensures { (rows : Rows) → CellsAreSmall rows }
{}

/// A law: the groups and the categories that a sheet lists are the live ones, each on the side that its group says; one that was
/// deleted, or whose group was, is not among them.
pub fn live_ones_are_listed()
    ensures { (rows : Rows) → LiveOnesAreListed rows }
{}
