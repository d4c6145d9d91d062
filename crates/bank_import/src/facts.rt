//! What is compared of a record and of a transaction.
ghost use Rattle.std.specs.Prelude.{◌≡◌, IfOk};
ghost use Rattle.std.specs.Option.{option_copied};
ghost use Rattle.book_rows.specs.Live.{payee_of};
ghost use Rattle.bank_import.specs.Matching.{day_of, facts_of, candidate_of, are_same, days_apart, distance, is_near, meets, is_nearer};

use book_edits::given::same_id;
use book_rows::{Book, TxRow, copied};
use field_values::{NoMemory, Txt};
use rule_engine::numbered;

/// What is compared of a record.
#[derive(Debug, PartialEq, Eq, Drop)]
pub(crate) struct Facts {
    /// The number of its day: 0 is 1 January 1970.
    pub day: Option<i32>,
    /// In cents.
    pub amount: i64,
    /// The id of the payee that its own stands for.
    pub payee: Option<Txt>,
    /// Its id in a statement.
    pub financial_id: Option<Txt>,
}

/// A transaction that a record may match.
#[derive(Debug, PartialEq, Eq, Drop)]
pub(crate) struct Candidate {
    /// The id of the transaction.
    pub id: Txt,
    /// The number of its day: 0 is 1 January 1970.
    pub day: Option<i32>,
    /// In cents.
    pub amount: i64,
    /// The id of the payee that its own stands for.
    pub payee: Option<Txt>,
    /// Its id in a statement.
    pub financial_id: Option<Txt>,
}

/// In what a record and a transaction agree.
#[derive(Clone, Copy, Debug, PartialEq, Eq)]
pub(crate) enum Pass {
    /// The id in a statement.
    ById,
    /// The amount and the payee, and nearly the day.
    ByPayee,
    /// The amount, and nearly the day.
    ByAmount,
}

impl Candidate {
    /// An equal candidate.
    pub fn copy(&self) -> Result<Candidate, NoMemory>
        ensures { IfOk result (λ c. c ≡ self.now) }
    {
        Ok(Candidate {
            id: self.id.copy()?,
            day: self.day,
            amount: self.amount,
            payee: copied(&self.payee)?,
            financial_id: copied(&self.financial_id)?,
        })
    }
}

/// The number of a transaction's day.
fn day_of(row: &TxRow) -> Option<i32>
    ensures { result ≡ day_of row.now }
{
    match row.date {
        Some(date) => numbered(date),
        None => None,
    }
}

/// The id of the payee that a transaction's own stands for, by the mappings of a book.
fn resolved_payee(book: &Book, row: &TxRow) -> Result<Option<Txt>, NoMemory>
    ensures { IfOk result (λ o. o ≡ payee_of book.now.rows row.now) }
{
    match book.resolved_payee(row) {
        Some(id) => Ok(Some(id.copy()?)),
        None => Ok(None),
    }
}

/// What is compared of a transaction that a record makes.
pub(crate) fn facts_of(book: &Book, row: &TxRow) -> Result<Facts, NoMemory>
    ensures { IfOk result (λ f. f ≡ facts_of book.now.rows row.now) }
{
    Ok(Facts {
        day: day_of(row),
        amount: row.amount,
        payee: resolved_payee(book, row)?,
        financial_id: copied(&row.financial_id)?,
    })
}

/// What is compared of the transaction of an id.
pub(crate) fn candidate_of(book: &Book, id: &Txt, row: &TxRow) -> Result<Candidate, NoMemory>
    ensures { IfOk result (λ c. c ≡ candidate_of book.now.rows id.now row.now) }
{
    Ok(Candidate {
        id: id.copy()?,
        day: day_of(row),
        amount: row.amount,
        payee: resolved_payee(book, row)?,
        financial_id: copied(&row.financial_id)?,
    })
}

/// Whether both are there and equal.
fn are_same(a: &Option<Txt>, b: &Option<Txt>) -> bool
    ensures { result ≡ are_same a.now b.now }
{
    match (a, b) {
        (Some(a), Some(b)) => same_id(a, b),
        _ => false,
    }
}

/// How many days two are apart, or more than any two are where one is not there.
fn days_apart(a: Option<i32>, b: Option<i32>) -> u64
    ensures { result ≡ days_apart a b }
{
    match (a, b) {
        (Some(a), Some(b)) => u64::from(a.abs_diff(b)),
        _ => 4_294_967_296,
    }
}

fn distance(facts: &Facts, other: &Candidate) -> u64
    ensures { result ≡ distance facts.now other.now }
{
    days_apart(facts.day, other.day)
}

/// Whether the amount is the same, they are at most seven days apart, and not both have an id of a statement.
fn is_near(facts: &Facts, other: &Candidate) -> bool
    ensures { result ≡ is_near facts.now other.now }
{
    facts.amount == other.amount
        && distance(facts, other) <= 7
        && !(facts.financial_id.is_some() && other.financial_id.is_some())
}

/// Whether a record and a transaction agree as a pass asks.
pub(crate) fn meets(pass: Pass, facts: &Facts, other: &Candidate) -> bool
    ensures { result ≡ meets pass facts.now other.now }
{
    match pass {
        Pass::ById => are_same(&facts.financial_id, &other.financial_id),
        Pass::ByPayee => is_near(facts, other) && are_same(&facts.payee, &other.payee),
        Pass::ByAmount => is_near(facts, other),
    }
}

/// Whether a transaction is nearer to a record's day than the best one so far.
pub(crate) fn is_nearer(facts: &Facts, best: Option<&Candidate>, candidate: &Candidate) -> bool
    ensures { result ≡ is_nearer facts.now (option_copied best.entry) candidate.now }
{
    match best {
        None => true,
        Some(best) => distance(facts, candidate) < distance(facts, best),
    }
}
