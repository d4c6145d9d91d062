//! Which transactions of an account records match, by a table that was worked out by hand from the rules.
ghost use Rattle.std.specs.Prelude.{◌≡◌, ◌≤◌, IfOk, OnOk, false};

use bank_import::matches;
use book_rows::{Book, TxRow};
use field_values::{Copied, Field, Steps, Txt, Value};
use std::alloc::Global;
use std::marker::Brand;
use std::sync::ledger::{Blank, Ledger};
use std::test::Fail;

/// Transactions of the account, records, and what each record matches. A transaction or a record is its id, day, amount, payee and id in a
/// statement; `-` stands for none. The payee `old` stands for `shop`.
const TABLE: &str = "a 20240101 -5 - f, b 20240109 -7 - f > r 20240110 -1 - f > b
a 20240108 -5 - f, b 20240112 -5 - f > r 20240110 -5 - f > a
a - -5 - f, b 20230101 -5 - f > r 20240110 -5 - f > b
a - -5 - f > r 20240110 -5 - f > a
a - -5 - f, b 20240110 -5 - f > r - -5 - f > a
a 20240110 -5 - f, b 20240111 -5 - f > r 20240111 -5 - f, s 20240110 -5 - f, t 20240110 -5 - f > b a -
a 20240110 -5 - e, b 20240110 -5 - f > r 20240110 -5 - f, s 20240110 -5 - e > b a
a 20240110 -5 shop -, b 20240111 -5 cafe - > r 20240110 -5 cafe - > b
a 20240117 -5 shop - > r 20240110 -5 cafe - > a
a 20240118 -5 shop - > r 20240110 -5 shop - > -
a 20240103 -5 shop - > r 20240110 -5 shop - > a
a 20240102 -5 shop - > r 20240110 -5 shop - > -
a - -5 shop - > r 20240110 -5 shop - > -
a 20240110 -5 shop - > r - -5 shop - > -
a 20240110 -5 shop f > r 20240110 -5 shop g > -
a 20240110 -5 shop f > r 20240110 -5 shop - > a
a 20240110 -5 shop - > r 20240110 -5 shop f > a
a 20240110 -5 shop -, b 20240110 -5 shop f > r 20240110 -5 shop -, s 20240110 -5 shop f > a b
a 20240110 -5 shop - > r 20240110 -5 cafe -, s 20240112 -5 shop - > - a
a 20240112 -5 shop -, b 20240110 -5 shop - > r 20240109 -5 shop -, s 20240109 -5 shop -, t 20240109 -5 shop - > b a -
a 20240110 5 - - > r 20240110 -5 - - > -
b 20240110 -5 old -, a 20240110 -5 cafe - > r 20240110 -5 shop - > b
a 20240110 -5 cafe -, b 20240110 -5 shop - > r 20240110 -5 old - > b";

/// Gives a transaction's column its value, or none where the text is `-`.
fn put(
    alloc: Global,
    book: &mut Book,
    id: &str,
    column: &str,
    kind: &str,
    text: &str,
) -> Result<(), Fail>
    requires { book.old.spent ≡ false }
    ensures { OnOk result (book.new.spent ≡ false) }
{
    if text == "-" {
        return Ok(());
    }
    let field = Field::make(alloc, "transactions", id, column)?;
    let value = Value::read(alloc, format!(in alloc; "{kind}{text}")?.as_str())?;
    Ok(book.set(&field, &value)?)
}

/// What stands before the separator, and what stands behind it.
fn cut<'a>(text: &'a str, by: &str) -> (&'a str, &'a str) {
    text.split_once(by).unwrap_or((text, "-"))
}

/// Adds the transaction of a row `ID DAY AMOUNT PAYEE STATEMENT-ID`.
fn add(alloc: Global, book: &mut Book, row: &str) -> Result<(), Fail>
    requires { book.old.spent ≡ false }
    ensures { OnOk result (book.new.spent ≡ false) }
{
    let (id, rest) = cut(row, " ");
    let (day, rest) = cut(rest, " ");
    let (amount, rest) = cut(rest, " ");
    let (payee, statement_id) = cut(rest, " ");
    put(alloc, book, id, "acct", "S:", "bank")?;
    put(alloc, book, id, "date", "N:", day)?;
    put(alloc, book, id, "amount", "N:", amount)?;
    put(alloc, book, id, "description", "S:", payee)?;
    put(alloc, book, id, "financial_id", "S:", statement_id)
}

/// The book of rows, with a mapping of a payee.
fn book_of(alloc: Global, rows: &str) -> Result<Book, Fail>
    ensures { IfOk result (λ b. b.spent ≡ false) }
{
    let mut book = Book::new(alloc);
    let field = Field::make(alloc, "payee_mapping", "old", "targetId")?;
    book.set(&field, &Value::read(alloc, "S:shop")?)?;
    for row in rows.split(", ") {
        add(alloc, &mut book, row)?;
    }
    Ok(book)
}

/// Copies of all transactions of a book, by id.
fn rows_of<G: Ledger>(blank: Blank, alloc: Global, book: &Book) -> Result<Vec<TxRow>, Fail>
    requires name { blank.name ≡ G.name }
    requires parts { blank.parts ≡ G.parts }
    requires some { 1 ≤ G.parts }
{
    let mut steps = Steps::<G>::new(blank);
    let mut rows = Vec::new(alloc);
    for (_, row) in book.txs(&mut steps).iter() {
        rows.push(row.copied()?)?;
    }
    Ok(rows)
}

/// The same, with a counter of steps that nobody reads.
fn copies_of(alloc: Global, book: &Book) -> Result<Vec<TxRow>, Fail> {
    rows_of::<Brand>(Blank::new(1), alloc, book)
}

/// Ids, or `-` where there is none, with a blank between them.
fn joined(alloc: Global, ids: &[Option<Txt>]) -> Result<String, Fail> {
    let mut text = String::new(alloc);
    for id in ids {
        if !text.as_str().is_empty() {
            text.push_str(" ")?;
        }
        match id {
            Some(id) => text.push_str(id.as_str())?,
            None => text.push_str("-")?,
        }
    }
    Ok(text)
}

/// Records, given as the transactions of a book.
fn records_of(alloc: Global, rows: &str) -> Result<Vec<TxRow>, Fail> {
    let book = book_of(alloc, rows)?;
    copies_of(alloc, &book)
}

/// What records match in a book.
fn told(alloc: Global, book: &Book, records: &[TxRow]) -> Result<Vec<Option<Txt>>, Fail>
    requires { book.now.spent ≡ false }
{
    let account = Txt::from_text(alloc, "bank")?;
    Ok(matches(alloc, book, &account, records)?)
}

/// What records match among the transactions of rows.
fn found(alloc: Global, rows: &str, records: &[TxRow]) -> Result<Vec<Option<Txt>>, Fail> {
    let book = book_of(alloc, rows)?;
    told(alloc, &book, records)
}

/// What the records of a row match.
fn matched(alloc: Global, known: &str, given: &str) -> Result<String, Fail> {
    let records = records_of(alloc, given)?;
    let ids = found(alloc, known, records.as_slice())?;
    joined(alloc, ids.as_slice())
}

#[test]
fn records_are_matched(rt: HostRuntime) -> Result<(), Fail> {
    for row in TABLE.lines() {
        let (known, rest) = cut(row, " > ");
        let (given, wanted) = cut(rest, " > ");
        let told = matched(rt.alloc(), known, given)?;
        assert_eq!(rt; told.as_str(), wanted, "{row}");
    }
    Ok(())
}
