//! What a book keeps beside its rows, to find transactions and months without a walk over all rows.
ghost use Rattle.std.specs.Prelude.{◌≡◌, ◌≤◌, ◌+◌, ℕ, OnOk, IfOk, if◌then◌else◌, true, false, [], length};
ghost use Rattle.std.specs.List.Sorted.{IsStrictlySortedBy};
ghost use Rattle.std.specs.Option.{option_copied};
ghost use Rattle.std.specs.Ordering.{eq_by_cmp};
ghost use Rattle.std.specs.BTreeSet as set;
ghost use Rattle.finite_sums.specs.Maps.{Text, text_cmp};
ghost use Rattle.book_rows.specs.Parts.{is_text};
ghost use Rattle.book_rows.specs.Book.{holds, ids_in, ids_under, is_pair, is_month_of, dated_cmp};

use field_values::{Items, NoMemory, Steps, Txt};
use std::alloc::Global;
use std::collections::{BTreeMap, BTreeSet};
use std::sync::ledger::Ledger;

/// Ids under keys.
pub(crate) type Index = BTreeMap<Txt, BTreeSet<Txt>>;

/// Months with ids.
pub(crate) type Dated = BTreeSet<(u32, Txt)>;

/// Puts an id under a key.
fn add(alloc: Global, index: &mut Index, key: &Txt, id: &Txt) -> Result<(), NoMemory>
    ensures { OnOk result ((k q : Text) → holds index.new k q ≡ (if is_pair key.now id.now k q then true else holds index.old k q)) }
{
    if let Some(ids) = index.get_mut(key) {
        ids.insert(id.copy()?)?;
        return Ok(());
    }
    let mut ids = BTreeSet::new(alloc);
    ids.insert(id.copy()?)?;
    index.insert(key.copy()?, ids)?;
    Ok(())
}

/// Takes an id from under a key, and tells whether the key has no id left.
fn take(index: &mut Index, key: &Txt, id: &Txt) -> bool
    ensures pairs { (k q : Text) → holds index.new k q ≡ (if is_pair key.now id.now k q then false else holds index.old k q) }
    ensures left { result ≡ true → ids_under index.new key.now ≡ [] }
{
    match index.get_mut(key) {
        Some(ids) => {
            ids.remove(id);
            ids.is_empty()
        }
        None => false,
    }
}

/// Takes an id from under a key; a key without ids isn't kept.
fn remove(index: &mut Index, key: &Txt, id: &Txt)
    ensures { (k q : Text) → holds index.new k q ≡ (if is_pair key.now id.now k q then false else holds index.old k q) }
{
    if take(index, key, id) {
        index.remove(key);
    }
}

/// Takes an id out, which stands under this key alone, if under any.
fn take_out(index: &mut Index, id: &Txt, key: &Option<Txt>)
    requires { (k : Text) → holds index.old k id.now ≡ is_text k key.now }
    ensures { (k q : Text) → holds index.new k q ≡ (if eq_by_cmp text_cmp q id.now then false else holds index.old k q) }
{
    if let Some(key) = key {
        remove(index, key, id);
    }
}

/// Puts an id, which stands under no key, under this one, if there is one.
fn put_in(alloc: Global, index: &mut Index, id: &Txt, key: &Option<Txt>) -> Result<(), NoMemory>
    requires { (k : Text) → holds index.old k id.now ≡ false }
    ensures { OnOk result ((k q : Text) → holds index.new k q ≡ (if eq_by_cmp text_cmp q id.now then is_text k key.now else holds index.old k q)) }
{
    match key {
        Some(key) => add(alloc, index, key, id),
        None => Ok(()),
    }
}

/// Moves an id from one key to another.
pub(crate) fn change(
    alloc: Global,
    index: &mut Index,
    id: &Txt,
    before: &Option<Txt>,
    after: &Option<Txt>,
) -> Result<(), NoMemory>
    requires { (k : Text) → holds index.old k id.now ≡ is_text k before.now }
    ensures { OnOk result ((k q : Text) → holds index.new k q ≡ (if eq_by_cmp text_cmp q id.now then is_text k after.now else holds index.old k q)) }
{
    if before == after {
        return Ok(());
    }
    take_out(index, id, before);
    put_in(alloc, index, id, after)
}

/// Takes an id out, which stands with this month alone, if with any.
fn take_month(dated: &mut Dated, id: &Txt, month: Option<u32>) -> Result<(), NoMemory>
    requires { (m : ℕ) → set.contains dated_cmp dated.old (m, id.now) ≡ is_month_of m month }
    ensures { OnOk result ((m : ℕ) (q : Text) → set.contains dated_cmp dated.new (m, q) ≡ (if eq_by_cmp text_cmp q id.now then false else set.contains dated_cmp dated.old (m, q))) }
{
    if let Some(month) = month {
        let place = (month, id.copy()?);
        dated.remove(&place);
    }
    Ok(())
}

/// Puts an id, which stands with no month, with this one, if there is one.
fn put_month(dated: &mut Dated, id: &Txt, month: Option<u32>) -> Result<(), NoMemory>
    requires { (m : ℕ) → set.contains dated_cmp dated.old (m, id.now) ≡ false }
    ensures { OnOk result ((m : ℕ) (q : Text) → set.contains dated_cmp dated.new (m, q) ≡ (if eq_by_cmp text_cmp q id.now then is_month_of m month else set.contains dated_cmp dated.old (m, q))) }
{
    if let Some(month) = month {
        dated.insert((month, id.copy()?))?;
    }
    Ok(())
}

/// Moves an id from one month to another.
pub(crate) fn change_month(
    dated: &mut Dated,
    id: &Txt,
    before: Option<u32>,
    after: Option<u32>,
) -> Result<(), NoMemory>
    requires { (m : ℕ) → set.contains dated_cmp dated.old (m, id.now) ≡ is_month_of m before }
    ensures { OnOk result ((m : ℕ) (q : Text) → set.contains dated_cmp dated.new (m, q) ≡ (if eq_by_cmp text_cmp q id.now then is_month_of m after else set.contains dated_cmp dated.old (m, q))) }
{
    if before == after {
        return Ok(());
    }
    take_month(dated, id, before)?;
    put_month(dated, id, after)
}

/// Copies of the ids under a key, in order; each is one step.
pub(crate) fn list<G: Ledger>(
    alloc: Global,
    index: &Index,
    key: &Txt,
    steps: &mut Steps<G>,
) -> Result<Items<Txt>, NoMemory>
    ensures sorted { IsStrictlySortedBy text_cmp (ids_under index.now key.now) }
    ensures all { IfOk result (λ v. v ≡ ids_under index.now key.now) }
    ensures cost { IfOk result (λ v. steps.new ≡ steps.old + length v) }
    ensures most { steps.new ≤ steps.old + length (ids_under index.now key.now) }
{
    match index.get(key) {
        None => Ok(Items::new(Vec::new(alloc))),
        Some(ids) => copies(alloc, ids, steps),
    }
}

/// The ids under a key, if it has any.
pub(crate) fn under<'a>(index: &'a Index, key: &Txt) -> Option<&'a BTreeSet<Txt>>
    ensures sorted { IsStrictlySortedBy text_cmp (ids_under index.now key.now) }
    ensures ids { ids_in (option_copied result) ≡ ids_under index.now key.now }
{
    match index.get(key) {
        None => None,
        Some(ids) => {
            let _ = ids.len();
            Some(ids)
        }
    }
}

/// Copies of ids, in order; each is one step.
fn copies<G: Ledger>(
    alloc: Global,
    ids: &BTreeSet<Txt>,
    steps: &mut Steps<G>,
) -> Result<Items<Txt>, NoMemory>
    ensures sorted { IsStrictlySortedBy text_cmp ids.now.keys }
    ensures all { IfOk result (λ v. v ≡ ids.now.keys) }
    ensures cost { IfOk result (λ v. steps.new ≡ steps.old + length v) }
    ensures most { steps.new ≤ steps.old + length ids.now.keys }
{
    let _ = ids.len();
    let mut found = Vec::new(alloc);
    for id in ids.iter() {
        steps.tick();
        found.push(id.copy()?)?;
    }
    Ok(Items::new(found))
}
