//! Facts about all books, edits, histories and sheets, which a proof can call for.
ghost use Rattle.std.specs.Prelude.{◌≡◌, List, Some};
ghost use Rattle.std.specs.FinMap as map;
ghost use Rattle.finite_sums.specs.Maps.{Text};
ghost use Rattle.book_rows.specs.declared.rows.Rows.{Rows};
ghost use Rattle.book_rows.specs.declared.rows.TxRow.{TxRow};
ghost use Rattle.book_rows.specs.declared.write.Write.{Write};
ghost use Rattle.split_transfer.specs.After.{Ids};
ghost use Rattle.book_laws.specs.Books.{BalancesAreTold, KeptRowsAreTold, MonthsAreNamed, TransactionsAreListed, ValuesAreRead};
ghost use Rattle.book_laws.specs.Columns.{ColumnsAreTold};
ghost use Rattle.book_laws.specs.HandingOn.{CategoriesAreHandedOn, GainsAreTold};
ghost use Rattle.book_laws.specs.Mapping.{OneStepIsTaken};
ghost use Rattle.book_laws.specs.Merging.{PayeesAreMerged};
ghost use Rattle.book_laws.specs.Moving.{TransfersMove};
ghost use Rattle.book_laws.specs.Splitting.{SplitsMakeParts};
ghost use Rattle.book_laws.specs.Doing.{ChangesDo, PlainEditsDo};
ghost use Rattle.book_laws.specs.AskingPairs.{PairEditsAreJudged};
ghost use Rattle.book_laws.specs.Asking.{PlainEditsAreJudged};
ghost use Rattle.book_laws.specs.Changing.{ChangesDoNoMore};
ghost use Rattle.book_laws.specs.Leaving.{PlainEditsDoNoMore};
ghost use Rattle.book_laws.specs.Histories.{HistoriesGoBack};
ghost use Rattle.envelope_cells.specs.Budget.{Budget};
ghost use Rattle.book_laws.specs.Ordered.{SheetsAreInOrder};
ghost use Rattle.book_laws.specs.Showing.{EditsShowOnSheets};
ghost use Rattle.book_laws.specs.Standing.{TransfersAreOfAccounts};
ghost use Rattle.book_laws.specs.TakingBack.{MappingsAreTakenBack};
ghost use Rattle.book_laws.specs.Undone.{RowsAreUndone};
ghost use Rattle.book_laws.specs.Wrong.{BrokenIsTold};
ghost use Rattle.book_laws.specs.Sheets.{CellsAddUp, MonthsAreNumbered, SumsAreOfTransactions};

/// A law: how a value is read in a column of each kind, and which numbers write a day.
pub fn values_are_read()
    ensures { ValuesAreRead }
{}

/// A law: each field of a row is what the column of its own name says, read as that column is. A value that is given to a column of an id
/// sets that field in the row of the id, which is made where it isn't there, and nothing else: each other field, each other row and each
/// other dataset is as before. A row is there where one of its columns has a value, and nowhere else. A name that is none of those told
/// here is that of no dataset and no column, and changes nothing.
pub fn columns_are_told()
    ensures { ColumnsAreTold }
{}

/// A law: which numbers are months, and which month a row has: a transaction that of its day, a budget row and a month row the one of
/// which its id is made.
pub fn months_are_named()
    ensures { MonthsAreNamed }
{}

/// A law: an account, a group, a payee, a rule and a schedule are live where the row is there and was not deleted; the id of a
/// transaction is alive where the transaction is there and live.
pub fn kept_rows_are_told()
    ensures { KeptRowsAreTold }
{}

/// A law: the parts of a transaction, the transactions of an account, and those that have a category in their column, are those that say so,
/// dead or alive, in the order of their ids.
pub fn transactions_are_listed()
    ensures { (rows : Rows) → TransactionsAreListed rows }
{}

/// A law: the balance of an account is what its live transactions add up to, but for those that are split, whose parts do.
pub fn balances_are_told()
    ensures { (rows : Rows) → BalancesAreTold rows }
{}

/// A law: the latest entry is undone first, and what was undone last is redone first, until an edit comes.
pub fn histories_go_back()
    ensures { HistoriesGoBack }
{}

/// A law: months are numbered one after the other from January 1970, and January follows December.
pub fn months_are_numbered()
    ensures { MonthsAreNumbered }
{}

/// A law: the sum of a category in a month is that of the transactions which count, are of the category and have a day in the month,
/// each once.
pub fn sums_are_of_transactions()
    ensures { SumsAreOfTransactions }
{}

/// A law: on a sheet the cells of the whole month stand first, then those of each group, followed by those of its categories. Groups
/// stand in the order of their numbers, and of those with one number in that of their ids; and so do the categories of a group, which
/// are all that name it and were not deleted. A line of its text has the name of the cell, a blank and the number.
pub fn sheets_are_in_order()
    ensures { (rows : Rows) → SheetsAreInOrder rows }
{}

/// A law: the cells of a group add up those of its categories, what came in and what went out is all that was moved in live categories,
/// and each cell of the whole month, and of a category, tells what its name says.
pub fn cells_add_up()
    ensures { (b : Budget) → CellsAddUp b }
{}

/// A law: what an edit that is accepted gives a category in a month is what the sheet of the month is made of, and so are whether it
/// carries over and what is held back.
pub fn edits_show_on_sheets()
    ensures { (ids : Ids) (rows : Rows) (ws : List Write) → EditsShowOnSheets ids rows ws }
{}

/// A law: a transfer that is accepted takes its amount out of the one account and brings it into the other one, by two transactions of
/// one day that name each other, have its notes and say nothing more, and changes nothing else. It is asked before that the ids of both
/// are new and differ.
pub fn transfers_move()
    ensures { TransfersMove }
{}

/// A law: a split that is accepted makes a transaction for each part, with its amount and its category, and of the day, the account and
/// the payee of what is split, which has no category then; earlier parts are deleted, and nothing else changes. It is asked before that no
/// transaction has the id of a row that is made, that these ids differ, and that the day of what is split, if it has one, is one of the
/// calendar.
pub fn splits_make_parts()
    ensures { SplitsMakeParts }
{}

/// A law: a plain edit is refused with the first fault of what it asks for, and accepted where there is none.
pub fn plain_edits_are_judged()
    ensures { PlainEditsAreJudged }
{}

/// A law: a plain edit that is accepted does what it is for: the row that it is about has then what the edit gives it, where empty
/// notes are none. What an edit does that sets a field, moves an amount, notes a text or is of the tracking budget, `plain_edits_do_no_more`
/// says, and what one does that hands a category on or merges payees, `categories_are_handed_on` and `payees_are_merged`.
pub fn plain_edits_do()
    ensures { (ids : Ids) (rows : Rows) (ws : List Write) → PlainEditsDo ids rows ws }
{}

/// A law: a plain edit that is accepted leaves the rows that were there, but for the fields that it is about: each other row stays, and
/// so does each other field of these rows.
pub fn plain_edits_do_no_more()
    ensures { (ids : Ids) (rows : Rows) (ws : List Write) → PlainEditsDoNoMore ids rows ws }
{}

/// A law: a change of a transaction that is accepted does what it is for: the transaction has then what the change gives it.
pub fn changes_do()
    ensures { (ids : Ids) (rows : Rows) (id : Text) (ws : List Write) → ChangesDo ids rows id ws }
{}

/// A law: a change of a transaction that is accepted changes nothing but that: a day is that of its parts and of its partner too, an
/// account that of its parts, its partner has the opposite amount, and is deleted with it. Nothing else changes.
pub fn changes_do_no_more()
    ensures { (ids : Ids) (rows : Rows) (id : Text) (x : TxRow) (ws : List Write) → map.get rows.txs id ≡ Some x → ChangesDoNoMore ids rows id x ws }
{}

/// A law: an edit of transactions is refused with the first fault of what it asks for, and accepted where there is none.
pub fn pair_edits_are_judged()
    ensures { PairEditsAreJudged }
{}

/// A law: the payee of a transfer is of those that were not deleted and stand for the other account the one of the least id; and one of
/// a pair may have a category exactly where one of the two accounts stands outside the budget and the other doesn't, it isn't split, and
/// the category is live.
pub fn transfers_are_of_accounts()
    ensures { (rows : Rows) → TransfersAreOfAccounts rows }
{}

/// A law: of each live transaction that names one, and is in no right pair with it, a line is told, and of each split whose parts don't add
/// up to its amount, with the amount less its parts; by id, the line on a pair first; and no other line is.
pub fn wrong_ones_are_told()
    ensures { (rows : Rows) → BrokenIsTold rows }
{}

/// A law: an entry tells a row as there exactly where a column of it that a book knows has a value, and each row that a book lacked before
/// an edit, had after it, and can be deleted, is deleted after the undo of the edit. Each row that was there before it is as it was, and rows
/// that can't be deleted say what they said; so each transaction is of the category and the payee that it was of, and categories are given
/// what they were. Where the edit makes no row that can be deleted, each sheet is what it was.
pub fn rows_are_undone()
    ensures { RowsAreUndone }
{}

/// A law: an id stands for the target of its own row of the mappings, whatever the row of the target says; so two ids that are mapped to
/// each other are exchanged.
pub fn one_step_is_taken()
    ensures { OneStepIsTaken }
{}

/// A law: where a category is deleted and handed on to another one, each transaction that was of it is of the other one, and no other
/// transaction changes its category. In each month the other one has what both had together, of transactions and of what expense
/// categories are given, and each cell of every other category tells what it told. So what came in, went out and was given stays, over
/// all live categories, and so does what is still to budget together with what is left in them. The category isn't live any more, and
/// nothing else changes.
pub fn categories_are_handed_on()
    ensures { CategoriesAreHandedOn }
{}

/// A law: what a category leaves to another one where it is deleted are, month by month in their order, the months of the calendar in which
/// an expense category is given more or less than nothing, and in each what both are given.
pub fn gains_are_told()
    ensures { (rows : Rows) (id to : Text) → GainsAreTold rows id to }
{}

/// A law: where payees become another one, each transaction that was of one of them is of the other one, and no other transaction changes
/// its payee, nor does any row of a transaction change. They aren't live any more.
pub fn payees_are_merged()
    ensures { PayeesAreMerged }
{}

/// A law: the undo of a category's deletion that handed it on, and that of a merge of payees, leave no trace: each transaction is of the
/// category and of the payee that it was of, and each sheet is what it was.
pub fn mappings_are_taken_back()
    ensures { MappingsAreTakenBack }
{}
