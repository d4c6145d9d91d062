//! What records ask of a transaction that is to match one of them.
ghost use Rattle.std.specs.Prelude.{◌≡◌, ℤ, IfOk};
ghost use Rattle.std.specs.BTreeSet as set;
ghost use Rattle.std.specs.Ordering.{int_cmp};
ghost use Rattle.finite_sums.specs.Maps.{Text, text_cmp};
ghost use Rattle.bank_import.specs.Wanted.{AreAsked, has_amount, has_id, is_asked};

use crate::facts::Facts;
use book_rows::TxRow;
use field_values::{NoMemory, Txt};
use std::alloc::Global;
use std::collections::BTreeSet;

/// The amounts of records, and their ids of a statement. A transaction that has none of them matches no record.
#[derive(Drop)]
pub(crate) struct Wanted {
    amounts: BTreeSet<i64>,
    ids: BTreeSet<Txt>,
}

/// The amounts of records.
fn amounts_of(alloc: Global, records: &[Facts]) -> Result<BTreeSet<i64>, NoMemory>
    ensures { IfOk result (λ s. (amount : ℤ) → set.contains int_cmp s amount ≡ has_amount records.now amount) }
{
    let mut amounts = BTreeSet::new(alloc);
    for facts in records {
        amounts.insert(facts.amount)?;
    }
    Ok(amounts)
}

/// The ids of a statement that records have.
fn ids_of(alloc: Global, records: &[Facts]) -> Result<BTreeSet<Txt>, NoMemory>
    ensures { IfOk result (λ s. (q : Text) → set.contains text_cmp s q ≡ has_id records.now q) }
{
    let mut ids = BTreeSet::new(alloc);
    for facts in records {
        if let Some(id) = &facts.financial_id {
            ids.insert(id.copy()?)?;
        }
    }
    Ok(ids)
}

impl Wanted {
    /// What records ask.
    pub(crate) fn of(alloc: Global, records: &[Facts]) -> Result<Wanted, NoMemory>
        ensures { IfOk result (λ w. AreAsked w.amounts w.ids records.now) }
    {
        let amounts = amounts_of(alloc, records)?;
        let ids = ids_of(alloc, records)?;
        Ok(Wanted { amounts, ids })
    }

    /// Whether a transaction has the amount of a record, or its id of a statement.
    pub(crate) fn is_in(&self, row: &TxRow) -> bool
        ensures { result ≡ is_asked self.now.amounts self.now.ids row.now.amount row.now.financial_id }
    {
        if self.amounts.contains(&row.amount) {
            return true;
        }
        match &row.financial_id {
            Some(id) => self.ids.contains(id),
            None => false,
        }
    }
}
