//! Categories that are handed on, and payees that are merged.
ghost use Rattle.std.specs.Prelude.{◌≡◌, ◌++◌, ◌∷◌, [], false, flat_map, OnOk, IfOk, IfErr, Ok};
ghost use Rattle.book_edits.specs.Faults.{IsEditFault, each};
ghost use Rattle.book_edits.specs.Checks.{live_payee, two_ids, no_transfer, distinct};
ghost use Rattle.book_edits.specs.Accounts.{payee_deletion};
ghost use Rattle.book_edits.specs.Categories.{category_deletion};
ghost use Rattle.book_edits.specs.Mappings.{category_mapped, categories_mapped, payee_mapped, payees_mapped, payee_merged, gain_writes, may_hand_on, category_delete_to, payee_merge};

use crate::categories::push_deletion;
use crate::checks::{live_category, live_payee, no_transfer, same_kind};
use crate::gains::{Gain, checked_gains, push_gains};
use crate::given::{is_text, same_id, two_ids};
use crate::writing::{flag, push, text};
use book_rows::{Book, EditFault, RowName, Write};
use field_values::{NoMemory, Txt};
use std::alloc::Global;
use std::collections::BTreeSet;

/// Two live categories of one kind.
fn may_hand_on(book: &Book, id: &Txt, to: &Txt) -> Result<(), EditFault>
    ensures ok { OnOk result (may_hand_on book.now.rows id.now to.now ≡ Ok tt) }
    ensures err { IfErr result (IsEditFault (may_hand_on book.now.rows id.now to.now)) }
{
    live_category(book, id)?;
    live_category(book, to)?;
    two_ids(id, to)?;
    same_kind(book, id, to)
}

/// Puts the write that maps a category to another one behind others.
fn push_category_mapped(
    alloc: Global,
    writes: &mut Vec<Write>,
    id: &Txt,
    to: &Txt,
) -> Result<(), NoMemory>
    ensures { OnOk result (writes.new.items ≡ writes.old.items ++ category_mapped to.now id.now ∷ []) }
{
    let row = RowName::Given(id.copy()?);
    let to = text(to)?;
    push(alloc, writes, "category_mapping", &row, "transferId", to)
}

/// The writes that map what is mapped to a category, and the category itself, to another one. It looks at all mappings.
fn categories_mapped(alloc: Global, book: &Book, id: &Txt, to: &Txt) -> Result<Vec<Write>, NoMemory>
    ensures { IfOk result (λ ws. ws.items ≡ categories_mapped book.now.rows id.now to.now) }
{
    let mut writes = Vec::new(alloc);
    for (other, mapping) in book.category_mappings() {
        if is_text(id, &mapping.transfer_id) && !same_id(other, id) {
            push_category_mapped(alloc, &mut writes, other, to)?;
        }
    }
    push_category_mapped(alloc, &mut writes, id, to)?;
    Ok(writes)
}

/// The writes that delete a category, and hand on to another one what it has.
fn handed_on(
    alloc: Global,
    book: &Book,
    id: &Txt,
    to: &Txt,
    gains: &[Gain],
) -> Result<Vec<Write>, NoMemory>
    ensures { IfOk result (λ ws. ws.items ≡ categories_mapped book.now.rows id.now to.now ++ flat_map (gain_writes book.now.rows to.now) gains.now ++ category_deletion id.now ∷ []) }
{
    let mut writes = categories_mapped(alloc, book, id, to)?;
    push_gains(alloc, &mut writes, book, to, gains)?;
    push_deletion(alloc, &mut writes, id)?;
    Ok(writes)
}

/// Deletes a category, and hands on to another one what it has. It looks at all mappings, and at one row for each month of the book's
/// window, but at no transaction.
pub(crate) fn category_delete_to(
    alloc: Global,
    book: &Book,
    id: &Txt,
    to: &Txt,
) -> Result<Vec<Write>, EditFault>
    requires live { book.now.spent ≡ false }
    ensures ok { IfOk result (λ ws. category_delete_to book.now.rows id.now to.now ≡ Ok ws.items) }
    ensures err { IfErr result (IsEditFault (category_delete_to book.now.rows id.now to.now)) }
{
    may_hand_on(book, id, to)?;
    let gains = checked_gains(alloc, book, id, to)?;
    Ok(handed_on(alloc, book, id, to, gains.as_slice())?)
}

/// Puts the write that maps a payee to another one behind others.
fn push_payee_mapped(
    alloc: Global,
    writes: &mut Vec<Write>,
    id: &Txt,
    to: &Txt,
) -> Result<(), NoMemory>
    ensures { OnOk result (writes.new.items ≡ writes.old.items ++ payee_mapped to.now id.now ∷ []) }
{
    let row = RowName::Given(id.copy()?);
    let to = text(to)?;
    push(alloc, writes, "payee_mapping", &row, "targetId", to)
}

/// Puts the writes that map what is mapped to a payee, and the payee itself, to another one behind others. It looks at all mappings.
fn push_payees_mapped(
    alloc: Global,
    writes: &mut Vec<Write>,
    book: &Book,
    to: &Txt,
    id: &Txt,
) -> Result<(), NoMemory>
    ensures { OnOk result (writes.new.items ≡ writes.old.items ++ payees_mapped book.now.rows to.now id.now) }
{
    for (other, mapping) in book.payee_mappings() {
        if is_text(id, &mapping.target_id) && !same_id(other, id) {
            push_payee_mapped(alloc, writes, other, to)?;
        }
    }
    push_payee_mapped(alloc, writes, id, to)
}

/// Puts the write that deletes a payee behind others.
fn push_payee_deletion(alloc: Global, writes: &mut Vec<Write>, id: &Txt) -> Result<(), NoMemory>
    ensures { OnOk result (writes.new.items ≡ writes.old.items ++ payee_deletion id.now ∷ []) }
{
    let row = RowName::Given(id.copy()?);
    push(alloc, writes, "payees", &row, "tombstone", flag(true))
}

/// Puts the writes by which a payee becomes another one behind others.
fn push_merged(
    alloc: Global,
    writes: &mut Vec<Write>,
    book: &Book,
    to: &Txt,
    id: &Txt,
) -> Result<(), NoMemory>
    ensures { OnOk result (writes.new.items ≡ writes.old.items ++ payee_merged book.now.rows to.now id.now) }
{
    push_payees_mapped(alloc, writes, book, to, id)?;
    push_payee_deletion(alloc, writes, id)
}

/// The writes by which payees become another one, each of them once.
fn all_merged(alloc: Global, book: &Book, to: &Txt, ids: &[Txt]) -> Result<Vec<Write>, NoMemory>
    ensures { IfOk result (λ ws. ws.items ≡ flat_map (payee_merged book.now.rows to.now) (distinct ids.now)) }
{
    let mut writes = Vec::new(alloc);
    let mut seen = BTreeSet::new(alloc);
    for id in ids {
        if seen.insert(id.copy()?)? {
            push_merged(alloc, &mut writes, book, to, id)?;
        }
    }
    Ok(writes)
}

/// Payees that are live, each of them.
fn all_live(book: &Book, ids: &[Txt]) -> Result<(), EditFault>
    ensures ok { OnOk result (each (live_payee book.now.rows) ids.now ≡ Ok tt) }
    ensures err { IfErr result (IsEditFault (each (live_payee book.now.rows) ids.now)) }
{
    for id in ids {
        live_payee(book, id)?;
    }
    Ok(())
}

/// Ids that all differ from this one.
fn all_others(to: &Txt, ids: &[Txt]) -> Result<(), EditFault>
    ensures ok { OnOk result (each (two_ids to.now) ids.now ≡ Ok tt) }
    ensures err { IfErr result (IsEditFault (each (two_ids to.now) ids.now)) }
{
    for id in ids {
        two_ids(to, id)?;
    }
    Ok(())
}

/// Payees of which none stands for an account.
fn no_transfers(book: &Book, ids: &[Txt]) -> Result<(), EditFault>
    ensures ok { OnOk result (each (no_transfer book.now.rows) ids.now ≡ Ok tt) }
    ensures err { IfErr result (IsEditFault (each (no_transfer book.now.rows) ids.now)) }
{
    for id in ids {
        no_transfer(book, id)?;
    }
    Ok(())
}

/// Merges payees into another one. For each of them it looks at all mappings, and at no transaction.
pub(crate) fn payee_merge(
    alloc: Global,
    book: &Book,
    to: &Txt,
    ids: &[Txt],
) -> Result<Vec<Write>, EditFault>
    ensures ok { IfOk result (λ ws. payee_merge book.now.rows to.now ids.now ≡ Ok ws.items) }
    ensures err { IfErr result (IsEditFault (payee_merge book.now.rows to.now ids.now)) }
{
    live_payee(book, to)?;
    all_live(book, ids)?;
    all_others(to, ids)?;
    no_transfer(book, to)?;
    no_transfers(book, ids)?;
    Ok(all_merged(alloc, book, to, ids)?)
}
