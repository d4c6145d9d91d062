//! Facts about all edits, which a proof can call for.
ghost use Rattle.std.specs.Prelude.{◌≡◌};
ghost use Rattle.finite_sums.specs.Maps.{Text, Texts};
ghost use Rattle.book_rows.specs.declared.rows.Rows.{Rows};
ghost use Rattle.book_rows.specs.declared.rows.BudgetRow.{BudgetRow};
ghost use Rattle.book_edits.specs.Laws.{NamesAreTold, IdsAloneChoose, MovesKeepMoney, amount_in};

/// A law: a name is refused where a live group has it, or a live category of the same group, and then the least id of those that
/// have it is told. A row stands in the way of its own name too.
pub fn names_are_told()
    ensures { (rows : Rows) → NamesAreTold rows }
{}

/// A law: which row says what a category is given in a month is told by the row's id alone, whatever month and category its
/// columns name.
pub fn ids_alone_choose()
    ensures { (rows : Rows) (budgets : Texts BudgetRow) (same : (id : Text) → amount_in rows.budgets id ≡ amount_in budgets id) → IdsAloneChoose rows budgets same }
{}

/// A law: what a move takes from one category it gives to the other.
pub fn moves_keep_money()
    ensures { MovesKeepMoney }
{}
