//! Payees by their names.
ghost use Rattle.std.specs.Prelude.{◌≡◌, IfOk};
ghost use Rattle.std.specs.BTreeMap as tree;
ghost use Rattle.rule_engine.specs.Conditions.{folded};
ghost use Rattle.bank_import.specs.Drafts.{key_of, payee_of};
ghost use Rattle.bank_import.specs.Named.{ArePayees};

use crate::entry::Entry;
use book_rows::{Book, PayeeRow};
use caseless::default_case_fold_str;
use field_values::{NoMemory, Txt};
use std::alloc::Global;
use std::collections::BTreeMap;

/// A text whatever the case of its letters: under Unicode's full case folding.
#[tactic(auto, unfolding(rule_engine::specs::Conditions::folded))]
pub(crate) fn folded(alloc: Global, text: &Txt) -> Result<Txt, NoMemory>
    ensures { IfOk result (λ t. t ≡ folded text.now) }
{
    Ok(Txt::new(default_case_fold_str(alloc, text.as_str())?))
}

/// The name by which a payee is found.
fn key_of(alloc: Global, row: &PayeeRow) -> Result<Option<Txt>, NoMemory>
    ensures { IfOk result (λ o. o ≡ key_of row.now) }
{
    if row.tombstone || row.transfer_acct.is_some() {
        return Ok(None);
    }
    match &row.name {
        Some(name) => Ok(Some(folded(alloc, name)?)),
        None => Ok(None),
    }
}

/// The payees of a book by the names by which they are found, of each name the one of the least id.
pub(crate) fn payees_of(alloc: Global, book: &Book) -> Result<BTreeMap<Txt, Txt>, NoMemory>
    ensures { IfOk result (λ m. ArePayees m book.now.rows) }
{
    let mut found = BTreeMap::new(alloc);
    for (id, row) in book.payees() {
        if let Some(key) = key_of(alloc, row)? {
            if found.get(&key).is_none() {
                found.insert(key, id.copy()?)?;
            }
        }
    }
    Ok(found)
}

/// The payee of a record, by its name.
pub(crate) fn payee_of(
    alloc: Global,
    book: &Book,
    payees: &BTreeMap<Txt, Txt>,
    entry: &Entry,
) -> Result<Option<Txt>, NoMemory>
    requires payees { ArePayees payees.now book.now.rows }
    ensures { IfOk result (λ o. o ≡ payee_of book.now.rows entry.now) }
{
    let Some(name) = &entry.payee else {
        return Ok(None);
    };
    let key = folded(alloc, name)?;
    match payees.get(&key) {
        Some(id) => Ok(Some(id.copy()?)),
        None => Ok(None),
    }
}
