//! The writes of an import.
ghost use Rattle.std.specs.Prelude.{◌≡◌, ◌++◌, List, length, false, OnOk, IfOk, IfErr, Ok};
ghost use Rattle.std.specs.List.{AllByRecursion};
ghost use Rattle.book_rows.specs.Writes.{AreWrites};
ghost use Rattle.book_edits.specs.Faults.{IsEditFault};
ghost use Rattle.bank_import.specs.declared.entry.Entry.{Entry as EntryIs};
ghost use Rattle.bank_import.specs.Statement.{statement, HasNumbers};
ghost use Rattle.bank_import.specs.Edits.{takes_none, filling, making, record_writes, records_writes, drafts_writes, import_writes};

use crate::drafts::{Draft, drafts_of, facts_of_drafts};
use crate::edit::ImportEdit;
use crate::matching::matched_by;
use crate::names::{Names, new_names};
use crate::reading::read_statement;
use crate::writing::{
    missing, missing_category, missing_payee, payee_value, payee_writes, push_cleared, push_entry,
    push_text, push_texts, push_value,
};
use book_edits::checks::live_account;
use book_edits::uncounted::tx;
use book_edits::writing::place_behind;
use book_rows::{Book, EditFault, RowName, TxRow, Write};
use field_values::{NoMemory, Txt};
use split_transfer::partner_of;
use std::alloc::Global;

/// Whether a transaction is split, or is in a pair.
fn takes_none(book: &Book, id: &Txt, row: &TxRow) -> bool
    ensures { result ≡ takes_none book.now.rows id.now row.now }
{
    row.is_parent || partner_of(book, id, row).is_some()
}

/// Puts what a record writes into the transaction that it matches behind other writes.
#[tactic(auto, unfolding(crate::specs::Edits::filling))]
fn push_filling(
    alloc: Global,
    writes: &mut Vec<Write>,
    book: &Book,
    names: &Names,
    id: &Txt,
    row: &TxRow,
    draft: &Draft,
) -> Result<(), NoMemory>
    ensures { OnOk result (writes.new.items ≡ writes.old.items ++ filling book.now.rows names.now id.now row.now draft.now) }
{
    let to = RowName::Given(id.copy()?);
    let new = &draft.row;
    let payee = missing_payee(alloc, names, &row.description, draft)?;
    push_value(alloc, writes, &to, "description", payee)?;
    let none = takes_none(book, id, row);
    let category = missing_category(none, &row.category, &new.category);
    push_text(alloc, writes, &to, "category", category)?;
    push_texts(
        alloc,
        writes,
        &to,
        missing(&row.notes, &new.notes),
        missing(&row.imported_description, &new.imported_description),
        missing(&row.financial_id, &new.financial_id),
        missing(&row.schedule, &new.schedule),
    )?;
    push_cleared(alloc, writes, &to, row.cleared)
}

/// Puts the writes of a new transaction behind other writes.
#[tactic(auto, unfolding(crate::specs::Edits::making))]
fn push_making(
    alloc: Global,
    writes: &mut Vec<Write>,
    names: &Names,
    draft: &Draft,
) -> Result<(), NoMemory>
    ensures { OnOk result (writes.new.items ≡ writes.old.items ++ making names.now (length writes.old.items) draft.now) }
{
    let to = RowName::Made(place_behind(writes)?);
    let new = &draft.row;
    push_entry(alloc, writes, &to, new)?;
    let payee = payee_value(alloc, names, draft)?;
    push_value(alloc, writes, &to, "description", payee)?;
    push_text(alloc, writes, &to, "category", new.category.as_ref())?;
    push_texts(
        alloc,
        writes,
        &to,
        new.notes.as_ref(),
        new.imported_description.as_ref(),
        new.financial_id.as_ref(),
        new.schedule.as_ref(),
    )?;
    push_cleared(alloc, writes, &to, false)
}

/// Puts the writes of a record behind others.
fn push_record(
    alloc: Global,
    writes: &mut Vec<Write>,
    book: &Book,
    names: &Names,
    draft: &Draft,
    found: &Option<Txt>,
) -> Result<(), NoMemory>
    ensures { OnOk result (writes.new.items ≡ writes.old.items ++ record_writes book.now.rows names.now (length writes.old.items) draft.now found.now) }
{
    let Some(id) = found else {
        return push_making(alloc, writes, names, draft);
    };
    match tx(book, id) {
        Some(row) => push_filling(alloc, writes, book, names, id, row, draft),
        None => Ok(()),
    }
}

/// Puts the writes of records behind others.
fn push_records(
    alloc: Global,
    writes: &mut Vec<Write>,
    book: &Book,
    names: &Names,
    drafts: &[Draft],
    found: &[Option<Txt>],
) -> Result<(), NoMemory>
    requires { length found.now ≡ length drafts.now }
    ensures { OnOk result (writes.new.items ≡ writes.old.items ++ records_writes book.now.rows names.now (length writes.old.items) drafts.now found.now) }
{
    for (i, draft) in drafts.iter().enumerate() {
        push_record(alloc, writes, book, names, draft, &found[i])?;
    }
    Ok(())
}

/// The writes of what records make: new payees first, then the records in order.
fn drafts_writes(
    alloc: Global,
    book: &Book,
    account: &Txt,
    drafts: &[Draft],
) -> Result<Vec<Write>, NoMemory>
    requires live { book.now.spent ≡ false }
    ensures { IfOk result (λ ws. ws.items ≡ drafts_writes book.now.rows account.now drafts.now) }
{
    let names = new_names(alloc, drafts)?;
    let facts = facts_of_drafts(alloc, book, drafts)?;
    let found = matched_by(alloc, book, account, facts.as_slice())?;
    let mut writes = payee_writes(alloc, names.as_slice())?;
    push_records(alloc, &mut writes, book, &names, drafts, found.as_slice())?;
    Ok(writes)
}

/// The writes of an import, or why it is refused.
fn make(alloc: Global, book: &Book, edit: &ImportEdit) -> Result<Vec<Write>, EditFault>
    requires live { book.now.spent ≡ false }
    ensures ok { IfOk result (λ ws. import_writes book.now.rows edit.now ≡ Ok ws.items) }
    ensures numbers { IfOk result (λ ws. (es : List EntryIs) → statement edit.now.statement ≡ Ok es → AllByRecursion HasNumbers es) }
    ensures err { IfErr result (IsEditFault (import_writes book.now.rows edit.now)) }
{
    live_account(book, &edit.account)?;
    let entries = read_statement(alloc, &edit.statement)?;
    let drafts = drafts_of(alloc, book, &edit.account, entries.as_slice())?;
    Ok(drafts_writes(alloc, book, &edit.account, drafts.as_slice())?)
}

/// The writes of the import of a statement into an account, in the order in which they are made: the payees that records want made,
/// and then the records in order. A record's payee is found by its name, then the rules of the book run on its transaction, and where
/// it has no payee after that and none was found, one of its name is made. A record that matches a transaction ([`matches`]) writes
/// what is missing there, and that the bank has it; one that matches none makes a transaction. All of it is said over the book as it
/// stands, so what one record makes changes nothing for another, but that records of one name share the payee that is made.
///
/// # Errors
///
/// The first of the edit's checks that fails, in the order of docs/FORMATS.md: that the account is live, and that the statement can be
/// read. Memory can run out before.
///
/// [`matches`]: crate::matches
pub fn import_writes(alloc: Global, book: &Book, edit: &ImportEdit) -> Result<Vec<Write>, EditFault>
    requires live { book.now.spent ≡ false }
    ensures ok { IfOk result (λ ws. import_writes book.now.rows edit.now ≡ Ok ws.items) }
    ensures valid { IfOk result (λ ws. AreWrites ws.items) }
    ensures err { IfErr result (IsEditFault (import_writes book.now.rows edit.now)) }
{
    book.names();
    make(alloc, book, edit)
}
