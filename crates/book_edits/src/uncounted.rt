//! What is asked of a book, where nobody counts the steps.
ghost use Rattle.std.specs.Prelude.{◌≡◌, ◌≤◌, IfOk, false};
ghost use Rattle.std.specs.Option.{option_copied};
ghost use Rattle.std.specs.FinMap as map;
ghost use Rattle.book_rows.specs.Parts.{children_of, account_txs};

use book_rows::{Book, TxRow};
use field_values::{Items, NoMemory, Steps, Txt};
use std::collections::BTreeMap;
use std::marker::Brand;
use std::sync::ledger::{Blank, Ledger};

/// The row of a transaction, over a counter of its own.
fn tx_over<'a, G: Ledger>(book: &'a Book, id: &Txt, blank: Blank) -> Option<&'a TxRow>
    requires name { blank.name ≡ G.name }
    requires parts { blank.parts ≡ G.parts }
    requires some { 1 ≤ G.parts }
    ensures { option_copied result ≡ map.get book.now.rows.txs id.now }
{
    let mut steps = Steps::<G>::new(blank);
    book.tx(id, &mut steps)
}

/// The row of a transaction.
pub fn tx<'a>(book: &'a Book, id: &Txt) -> Option<&'a TxRow>
    ensures { option_copied result ≡ map.get book.now.rows.txs id.now }
{
    tx_over::<Brand>(book, id, Blank::new(1))
}

/// The rows of all transactions, over a counter of their own.
fn txs_over<G: Ledger>(book: &Book, blank: Blank) -> &BTreeMap<Txt, TxRow>
    requires name { blank.name ≡ G.name }
    requires parts { blank.parts ≡ G.parts }
    requires some { 1 ≤ G.parts }
    ensures { result.now.entries ≡ map.entries book.now.rows.txs }
{
    let mut steps = Steps::<G>::new(blank);
    book.txs(&mut steps)
}

/// The rows of all transactions, by id, dead or alive.
pub fn txs(book: &Book) -> &BTreeMap<Txt, TxRow>
    ensures { result.now.entries ≡ map.entries book.now.rows.txs }
{
    txs_over::<Brand>(book, Blank::new(1))
}

/// The ids of the parts of a transaction, over a counter of their own.
fn children_over<G: Ledger>(book: &Book, id: &Txt, blank: Blank) -> Result<Items<Txt>, NoMemory>
    requires name { blank.name ≡ G.name }
    requires parts { blank.parts ≡ G.parts }
    requires some { 1 ≤ G.parts }
    requires live { book.now.spent ≡ false }
    ensures { IfOk result (λ v. v ≡ children_of book.now.rows id.now) }
{
    let mut steps = Steps::<G>::new(blank);
    book.children(id, &mut steps)
}

/// The ids of the parts of a transaction, dead or alive, in order.
pub fn children(book: &Book, id: &Txt) -> Result<Items<Txt>, NoMemory>
    requires live { book.now.spent ≡ false }
    ensures { IfOk result (λ v. v ≡ children_of book.now.rows id.now) }
{
    children_over::<Brand>(book, id, Blank::new(1))
}

/// The ids of the transactions of an account, over a counter of their own.
fn of_account_over<G: Ledger>(book: &Book, id: &Txt, blank: Blank) -> Result<Items<Txt>, NoMemory>
    requires name { blank.name ≡ G.name }
    requires parts { blank.parts ≡ G.parts }
    requires some { 1 ≤ G.parts }
    requires live { book.now.spent ≡ false }
    ensures { IfOk result (λ v. v ≡ account_txs book.now.rows id.now) }
{
    let mut steps = Steps::<G>::new(blank);
    book.of_account(id, &mut steps)
}

/// The ids of the transactions of an account, dead or alive, in order.
pub fn of_account(book: &Book, id: &Txt) -> Result<Items<Txt>, NoMemory>
    requires live { book.now.spent ≡ false }
    ensures { IfOk result (λ v. v ≡ account_txs book.now.rows id.now) }
{
    of_account_over::<Brand>(book, id, Blank::new(1))
}
