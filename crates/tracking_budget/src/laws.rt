//! Facts about all tracking budgets, which a proof can call for.
ghost use Rattle.std.specs.Prelude.{◌≡◌, ℕ, true};
ghost use Rattle.finite_sums.specs.Maps.{Text};
ghost use Rattle.book_rows.specs.Months.{is_month};
ghost use Rattle.book_rows.specs.declared.rows.Rows.{Rows};
ghost use Rattle.envelope_cells.specs.Budget.{Budget};
ghost use Rattle.tracking_budget.specs.Laws.{BudgetsAreApart, FlagsAloneCarry, SavedMoneyIsTold, TrackNamesAreRead, TrackSheetsTellCells};
ghost use Rattle.tracking_budget.specs.Told.{CategoriesAreTold, TotalsAddUp, TrackSheetsAreInOrder};

/// A law: a leftover is what the month's own amounts leave, with the leftover of the month before where that month carries over, and
/// nowhere else.
pub fn flags_alone_carry()
    ensures { (b : Budget) (c : Text) → FlagsAloneCarry b c }
{}

/// A law: in each month what was saved beyond the plan is what expense categories left of the month's own, less what income
/// categories left of the month's own.
pub fn saved_money_is_told()
    ensures { SavedMoneyIsTold }
{}

/// A law: the rows of the tracking budget change no cell of the envelope budget, and the rows of the envelope budget none of the
/// tracking budget.
pub fn budgets_are_apart()
    ensures { (rows : Rows) → BudgetsAreApart rows }
{}

/// A law: a name of its month has on a sheet the value of its cell, and stands on none where it has no cell.
pub fn track_sheets_tell_cells()
    ensures { TrackSheetsTellCells }
{}

/// A law: on a sheet each cell of the whole month adds up the cells of the categories of its side, or is made of two such cells.
pub fn totals_add_up()
    ensures { (rows : Rows) (month : ℕ) → TotalsAddUp rows month }
{}

/// A law: what the cells of a category tell in a month from January 1970 to December 2199, by the row of the month and the category,
/// and by the side on which its group is now, for every month; one that is not live has no cell.
pub fn categories_are_told()
    ensures { (rows : Rows) (month : ℕ) (c : Text) → is_month month ≡ true → CategoriesAreTold rows month c }
{}

/// A law: the cells of a sheet stand in one order, by whole month and then by category as in the envelope budget, and how the line of
/// each reads.
pub fn track_sheets_are_in_order()
    ensures { (rows : Rows) → TrackSheetsAreInOrder rows }
{}

/// A law: exactly the text of a kind with an id behind it names a cell, and without one where the kind is of the whole month.
pub fn track_names_are_read()
    ensures { TrackNamesAreRead }
{}
