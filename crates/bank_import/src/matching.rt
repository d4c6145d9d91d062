//! Which transaction each record of a statement matches.
ghost use Rattle.std.specs.Prelude.{◌≡◌, IfOk, false, length, map};
ghost use Rattle.bank_import.specs.Matching.{facts_of, candidates, matched_among, matched};

use crate::candidates::candidates;
use crate::facts::{Facts, facts_of};
use crate::index::Index;
use crate::wanted::Wanted;
use book_rows::{Book, TxRow};
use field_values::{NoMemory, Txt};
use std::alloc::Global;

/// For each record the transaction of the account that it matches.
pub(crate) fn matched_by(
    alloc: Global,
    book: &Book,
    account: &Txt,
    records: &[Facts],
) -> Result<Vec<Option<Txt>>, NoMemory>
    requires live { book.now.spent ≡ false }
    ensures found { IfOk result (λ v. v.items ≡ matched_among (candidates book.now.rows account.now) records.now) }
    ensures len { IfOk result (λ v. length v.items ≡ length records.now) }
{
    let wanted = Wanted::of(alloc, records)?;
    let index = Index::new(alloc, candidates(alloc, book, account, &wanted)?)?;
    index.matched(alloc, records)
}

/// What is compared of transactions.
fn facts_of_all(alloc: Global, book: &Book, rows: &[TxRow]) -> Result<Vec<Facts>, NoMemory>
    ensures { IfOk result (λ v. v.items ≡ map (facts_of book.now.rows) rows.now) }
{
    let mut found = Vec::new(alloc);
    for row in rows {
        found.push(facts_of(book, row)?)?;
    }
    Ok(found)
}

/// For each record, given as the transaction that it makes, the id of the transaction of the account that it matches. Candidates are
/// the live transactions of the account but for parts of splits, and none is matched twice. There are three passes, each over the
/// records in order that have no match yet: first both have an id of a statement, and it is the same; then the amount and the payees that
/// theirs stand for by the mappings of the book are the same, and they are at most seven days apart; then the amount is, and they are at
/// most seven days apart. In the second and the third not both have an id of a statement. Of the candidates that agree and that nobody took the nearest in days is taken, and of
/// equally near ones that of the least id; one without a day is the farthest. It looks at the transactions of this account alone, once,
/// and then a record at those of its id, or of its amount and at most twenty-two days from its own.
#[tactic(auto, unfolding(crate::specs::Matching::matched))]
pub fn matches(
    alloc: Global,
    book: &Book,
    account: &Txt,
    records: &[TxRow],
) -> Result<Vec<Option<Txt>>, NoMemory>
    requires live { book.now.spent ≡ false }
    ensures { IfOk result (λ v. v.items ≡ matched book.now.rows account.now records.now) }
{
    let facts = facts_of_all(alloc, book, records)?;
    matched_by(alloc, book, account, facts.as_slice())
}
