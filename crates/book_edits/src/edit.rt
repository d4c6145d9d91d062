//! Edits of a household's books.
ghost use Rattle.std.specs.Prelude.{◌≡◌, IfOk};

use book_rows::copied;
use field_values::{Items, NoMemory, Txt, Value};
use std::alloc::Global;

/// A plain edit of a household's books: one that touches no split and no transfer, but that `Set` may write any field.
///
/// An id that is left out is a new one: the text of the timestamp of the row's first write. Amounts are in cents, a month is
/// YYYYMM, a date YYYYMMDD.
#[derive(Debug, Drop)]
pub enum BookEdit {
    /// Writes a value into one field, whatever its dataset and column.
    Set {
        dataset: Txt,
        row: Txt,
        column: Txt,
        value: Value,
    },
    /// Adds an account, and the payee that stands for it in transfers.
    AccountAdd {
        id: Option<Txt>,
        name: Txt,
        offbudget: bool,
    },
    /// Calls an account by another name.
    AccountRename {
        id: Txt,
        name: Txt,
    },
    /// Moves an account out of the budget, or into it.
    AccountOffbudget {
        id: Txt,
        offbudget: bool,
    },
    /// Opens a closed account again.
    AccountReopen {
        id: Txt,
    },
    /// Closes an account, which has to have the balance 0.
    AccountClose {
        id: Txt,
    },
    /// Adds a group of categories.
    GroupAdd {
        id: Option<Txt>,
        name: Txt,
        income: bool,
    },
    /// Calls a group by another name.
    GroupRename {
        id: Txt,
        name: Txt,
    },
    /// Deletes a group with its categories.
    GroupDelete {
        id: Txt,
    },
    /// Adds a category to a group.
    CategoryAdd {
        id: Option<Txt>,
        group: Txt,
        name: Txt,
    },
    /// Calls a category by another name.
    CategoryRename {
        id: Txt,
        name: Txt,
    },
    /// Moves a category to a group.
    CategoryMove {
        id: Txt,
        group: Txt,
    },
    /// Deletes a category.
    CategoryDelete {
        id: Txt,
    },
    /// Deletes a category, and hands its transactions, and what it is given, on to another one of its kind. Both take income, or
    /// neither does.
    CategoryDeleteTo {
        id: Txt,
        to: Txt,
    },
    /// Adds a payee.
    PayeeAdd {
        id: Option<Txt>,
        name: Txt,
    },
    /// Calls a payee by another name.
    PayeeRename {
        id: Txt,
        name: Txt,
    },
    /// Deletes a payee.
    PayeeDelete {
        id: Txt,
    },
    /// Deletes payees, and hands their transactions on to another one. None of them stands for an account. An id that comes again is
    /// passed over.
    PayeeMerge {
        to: Txt,
        ids: Items<Txt>,
    },
    /// Adds a transaction. Empty notes are none.
    TxAdd {
        id: Option<Txt>,
        account: Txt,
        date: u32,
        amount: i64,
        payee: Option<Txt>,
        category: Option<Txt>,
        notes: Txt,
    },
    /// Gives a category an amount in a month.
    Budget {
        month: u32,
        category: Txt,
        amount: i64,
    },
    /// Says whether what a category is overspent by in a month stays in it.
    Carryover {
        month: u32,
        category: Txt,
        flag: bool,
    },
    /// Holds an amount of a month back for the next.
    Hold {
        month: u32,
        amount: i64,
    },
    /// Takes an amount that a category is given in a month from it, and gives it to another one.
    Move {
        month: u32,
        from: Txt,
        to: Txt,
        amount: i64,
    },
    /// Gives a category an amount in a month of the tracking budget.
    Track {
        month: u32,
        category: Txt,
        amount: i64,
    },
    /// Says whether what a category has left in a month of the tracking budget goes on to the next.
    TrackCarryover {
        month: u32,
        category: Txt,
        flag: bool,
    },
    /// Notes a text under an id.
    Note {
        id: Txt,
        text: Txt,
    },
}

impl BookEdit {
    /// An equal edit.
    pub fn copy(&self, alloc: Global) -> Result<BookEdit, NoMemory>
        ensures { IfOk result (λ edit. edit ≡ self.now) }
    {
        match self {
            BookEdit::Set {
                dataset,
                row,
                column,
                value,
            } => Ok(BookEdit::Set {
                dataset: dataset.copy()?,
                row: row.copy()?,
                column: column.copy()?,
                value: value.copy()?,
            }),
            BookEdit::AccountAdd {
                id,
                name,
                offbudget,
            } => Ok(BookEdit::AccountAdd {
                id: copied(id)?,
                name: name.copy()?,
                offbudget: *offbudget,
            }),
            BookEdit::AccountRename { id, name } => Ok(BookEdit::AccountRename {
                id: id.copy()?,
                name: name.copy()?,
            }),
            BookEdit::AccountOffbudget { id, offbudget } => Ok(BookEdit::AccountOffbudget {
                id: id.copy()?,
                offbudget: *offbudget,
            }),
            BookEdit::AccountReopen { id } => Ok(BookEdit::AccountReopen { id: id.copy()? }),
            BookEdit::AccountClose { id } => Ok(BookEdit::AccountClose { id: id.copy()? }),
            BookEdit::GroupAdd { id, name, income } => Ok(BookEdit::GroupAdd {
                id: copied(id)?,
                name: name.copy()?,
                income: *income,
            }),
            BookEdit::GroupRename { id, name } => Ok(BookEdit::GroupRename {
                id: id.copy()?,
                name: name.copy()?,
            }),
            BookEdit::GroupDelete { id } => Ok(BookEdit::GroupDelete { id: id.copy()? }),
            BookEdit::CategoryAdd { id, group, name } => Ok(BookEdit::CategoryAdd {
                id: copied(id)?,
                group: group.copy()?,
                name: name.copy()?,
            }),
            BookEdit::CategoryRename { id, name } => Ok(BookEdit::CategoryRename {
                id: id.copy()?,
                name: name.copy()?,
            }),
            BookEdit::CategoryMove { id, group } => Ok(BookEdit::CategoryMove {
                id: id.copy()?,
                group: group.copy()?,
            }),
            BookEdit::CategoryDelete { id } => Ok(BookEdit::CategoryDelete { id: id.copy()? }),
            BookEdit::CategoryDeleteTo { id, to } => Ok(BookEdit::CategoryDeleteTo {
                id: id.copy()?,
                to: to.copy()?,
            }),
            BookEdit::PayeeAdd { id, name } => Ok(BookEdit::PayeeAdd {
                id: copied(id)?,
                name: name.copy()?,
            }),
            BookEdit::PayeeRename { id, name } => Ok(BookEdit::PayeeRename {
                id: id.copy()?,
                name: name.copy()?,
            }),
            BookEdit::PayeeDelete { id } => Ok(BookEdit::PayeeDelete { id: id.copy()? }),
            BookEdit::PayeeMerge { to, ids } => Ok(BookEdit::PayeeMerge {
                to: to.copy()?,
                ids: ids.copy(alloc)?,
            }),
            BookEdit::TxAdd {
                id,
                account,
                date,
                amount,
                payee,
                category,
                notes,
            } => Ok(BookEdit::TxAdd {
                id: copied(id)?,
                account: account.copy()?,
                date: *date,
                amount: *amount,
                payee: copied(payee)?,
                category: copied(category)?,
                notes: notes.copy()?,
            }),
            BookEdit::Budget {
                month,
                category,
                amount,
            } => Ok(BookEdit::Budget {
                month: *month,
                category: category.copy()?,
                amount: *amount,
            }),
            BookEdit::Carryover {
                month,
                category,
                flag,
            } => Ok(BookEdit::Carryover {
                month: *month,
                category: category.copy()?,
                flag: *flag,
            }),
            BookEdit::Hold { month, amount } => Ok(BookEdit::Hold {
                month: *month,
                amount: *amount,
            }),
            BookEdit::Move {
                month,
                from,
                to,
                amount,
            } => Ok(BookEdit::Move {
                month: *month,
                from: from.copy()?,
                to: to.copy()?,
                amount: *amount,
            }),
            BookEdit::Track {
                month,
                category,
                amount,
            } => Ok(BookEdit::Track {
                month: *month,
                category: category.copy()?,
                amount: *amount,
            }),
            BookEdit::TrackCarryover {
                month,
                category,
                flag,
            } => Ok(BookEdit::TrackCarryover {
                month: *month,
                category: category.copy()?,
                flag: *flag,
            }),
            BookEdit::Note { id, text } => Ok(BookEdit::Note {
                id: id.copy()?,
                text: text.copy()?,
            }),
        }
    }
}
