//! What the records of a statement make, before they are matched.
ghost use Rattle.std.specs.Prelude.{◌≡◌, IfOk, map};
ghost use Rattle.rule_engine.specs.Running.{rules_of};
ghost use Rattle.bank_import.specs.Matching.{facts_of};
ghost use Rattle.bank_import.specs.Drafts.{new_tx, wanted_by, draft_of};
ghost use Rattle.bank_import.specs.Named.{ArePayees};
ghost use Rattle.bank_import.specs.declared.drafts.Draft.{Draft as DraftIs};

use crate::entry::Entry;
use crate::facts::{Facts, facts_of};
use crate::payees::{payee_of, payees_of};
use book_rows::{Book, TxRow, copied};
use field_values::{NoMemory, Txt};
use rule_engine::{Rule, rules_of, run_rules};
use std::alloc::Global;
use std::collections::BTreeMap;

/// What a record makes.
#[derive(Debug, Drop)]
pub(crate) struct Draft {
    /// Its transaction, after the rules.
    pub row: TxRow,
    /// The name of the payee that it wants made.
    pub wanted: Option<Txt>,
}

/// The transaction that a record makes, before rules see it.
fn new_tx(
    alloc: Global,
    account: &Txt,
    payee: Option<Txt>,
    entry: &Entry,
) -> Result<TxRow, NoMemory>
    ensures { IfOk result (λ x. x ≡ new_tx account.now payee entry.now) }
{
    Ok(TxRow {
        id: Txt::from_text(alloc, "")?,
        acct: Some(account.copy()?),
        date: Some(entry.date),
        amount: entry.amount,
        description: payee,
        category: None,
        notes: copied(&entry.notes)?,
        imported_description: copied(&entry.payee)?,
        financial_id: copied(&entry.id)?,
        transferred_id: None,
        schedule: None,
        is_parent: false,
        is_child: false,
        parent_id: None,
        cleared: true,
        reconciled: false,
        sort_order: 0,
        tombstone: false,
    })
}

/// The name of the payee that a record wants made.
fn wanted_by(found: bool, row: &TxRow, entry: &Entry) -> Result<Option<Txt>, NoMemory>
    ensures { IfOk result (λ o. o ≡ wanted_by found row.now entry.now.payee) }
{
    if found || row.description.is_some() {
        return Ok(None);
    }
    copied(&entry.payee)
}

/// What a record makes, in a book with these payees and rules.
#[tactic(auto, unfolding(crate::specs::Drafts::draft_of))]
fn draft_of(
    alloc: Global,
    book: &Book,
    payees: &BTreeMap<Txt, Txt>,
    rules: &[Rule],
    account: &Txt,
    entry: &Entry,
) -> Result<Draft, NoMemory>
    requires payees { ArePayees payees.now book.now.rows }
    requires rules { rules.now ≡ rules_of book.now.rows }
    ensures { IfOk result (λ d. d ≡ draft_of book.now.rows account.now entry.now) }
{
    let payee = payee_of(alloc, book, payees, entry)?;
    let found = payee.is_some();
    let row = run_rules(alloc, book, rules, new_tx(alloc, account, payee, entry)?)?;
    let wanted = wanted_by(found, &row, entry)?;
    Ok(Draft { row, wanted })
}

/// What records make. Payees are looked up by name in a map that is made once, and the rules of the book are read once.
pub(crate) fn drafts_of(
    alloc: Global,
    book: &Book,
    account: &Txt,
    entries: &[Entry],
) -> Result<Vec<Draft>, NoMemory>
    ensures { IfOk result (λ v. v.items ≡ map (draft_of book.now.rows account.now) entries.now) }
{
    let payees = payees_of(alloc, book)?;
    let rules = rules_of(alloc, book)?;
    let mut drafts = Vec::new(alloc);
    for entry in entries {
        drafts.push(draft_of(alloc, book, &payees, rules.as_slice(), account, entry)?)?;
    }
    Ok(drafts)
}

/// What is compared of the transactions of records.
pub(crate) fn facts_of_drafts(
    alloc: Global,
    book: &Book,
    drafts: &[Draft],
) -> Result<Vec<Facts>, NoMemory>
    ensures { IfOk result (λ v. v.items ≡ map (facts_of book.now.rows) (map (λ (d : DraftIs). d.row) drafts.now)) }
{
    let mut found = Vec::new(alloc);
    for draft in drafts {
        found.push(facts_of(book, &draft.row)?)?;
    }
    Ok(found)
}
