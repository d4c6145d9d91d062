//! The register of an account: its live transactions, by day and id.
ghost use Rattle.std.specs.Prelude.{◌≡◌, ◌≤◌, ◌++◌, ◌∷◌, List, false, not, OnOk, IfOk, string_bytes};
ghost use Rattle.std.specs.List.{flat_map};
ghost use Rattle.std.specs.Option.{option_copied};
ghost use Rattle.std.specs.Fmt.{signed_decimal};
ghost use Rattle.finite_sums.specs.Maps.{Text, some_and};
ghost use Rattle.book_rows.specs.Live.{is_live_tx};
ghost use Rattle.command_lines.specs.Register.{day_text, day_or_first, shown_id, register_line, entry_of, placed, register_of, register_lines};

use book_rows::{Book, TxRow};
use field_merge::push_escaped;
use field_values::{Items, NoMemory, Steps, Txt};
use itoa::Buffer;
use std::alloc::Global;
use std::collections::BTreeMap;
use std::marker::Brand;
use std::sync::ledger::{Blank, Ledger};

/// Room for most lines.
const ROOM: usize = 128;

/// Where a transaction stands in a register: its day, or 0 where it has none, and its id.
type Place = (u32, Txt);

/// Puts a TAB and a day, or a hyphen for none, behind a text.
fn push_day(text: &mut String, date: Option<u32>) -> Result<(), NoMemory>
    ensures { OnOk result (string_bytes text.new ≡ string_bytes text.old ++ 9 ∷ day_text date) }
{
    text.push('\t')?;
    match date {
        Some(day) => {
            let mut buffer = Buffer::new();
            text.push_str(buffer.format(day))?;
        }
        None => text.push('-')?,
    }
    Ok(())
}

/// Puts a TAB and an amount behind a text.
fn push_amount(text: &mut String, amount: i64) -> Result<(), NoMemory>
    ensures { OnOk result (string_bytes text.new ≡ string_bytes text.old ++ 9 ∷ signed_decimal amount) }
{
    let mut buffer = Buffer::new();
    text.push('\t')?;
    text.push_str(buffer.format(amount))?;
    Ok(())
}

/// Puts a TAB and an id, escaped, or a hyphen for none, behind a text.
fn push_id(text: &mut String, id: Option<&Txt>) -> Result<(), NoMemory>
    ensures { OnOk result (string_bytes text.new ≡ string_bytes text.old ++ 9 ∷ shown_id (option_copied id.entry)) }
{
    text.push('\t')?;
    match id {
        Some(id) => push_escaped(text, id.as_str()),
        None => {
            text.push('-')?;
            Ok(())
        }
    }
}

/// The line of a transaction: its id, day, amount, category and payee, with a TAB between them. Category and payee are those that its
/// own are mapped to.
fn line_of(alloc: Global, book: &Book, id: &Txt, row: &TxRow) -> Result<Txt, NoMemory>
    ensures { IfOk result (λ t. t ≡ register_line book.now.rows id.now row.now) }
{
    let mut text = String::with_capacity(alloc, ROOM)?;
    text.push_str(id.as_str())?;
    push_day(&mut text, row.date)?;
    push_amount(&mut text, row.amount)?;
    push_id(&mut text, book.resolved_category(row))?;
    push_id(&mut text, book.resolved_payee(row))?;
    Ok(Txt::new(text))
}

/// Where a transaction stands in a register.
fn place_of(id: Txt, date: Option<u32>) -> Place
    ensures { result ≡ (day_or_first date, id) }
{
    (date.unwrap_or(0), id)
}

/// Whether a transaction was deleted.
fn is_deleted(row: Option<&TxRow>) -> bool
    ensures { result ≡ not (some_and (λ x. not x.tombstone) (option_copied row.entry)) }
{
    match row {
        Some(row) => row.tombstone,
        None => true,
    }
}

/// Whether a transaction is live. One that is no part of another one needs no look-up.
fn is_live<G: Ledger>(book: &Book, row: &TxRow, steps: &mut Steps<G>) -> bool
    ensures { result ≡ is_live_tx book.now.rows row.now }
{
    if row.tombstone {
        return false;
    }
    if !row.is_child {
        return true;
    }
    match &row.parent_id {
        Some(id) => !is_deleted(book.tx(id, steps)),
        None => false,
    }
}

/// Puts the line of a transaction in its place, if it is live.
fn place_tx<G: Ledger>(
    alloc: Global,
    book: &Book,
    id: Txt,
    found: &mut BTreeMap<Place, Txt>,
    steps: &mut Steps<G>,
) -> Result<(), NoMemory>
    ensures { OnOk result ((rest : List Text) → placed (flat_map (entry_of book.now.rows) rest) found.new.entries ≡ placed (flat_map (entry_of book.now.rows) (id ∷ rest)) found.old.entries) }
{
    let Some(row) = book.tx(&id, steps) else {
        return Ok(());
    };
    if !is_live(book, row, steps) {
        return Ok(());
    }
    let line = line_of(alloc, book, &id, row)?;
    found.insert(place_of(id, row.date), line)?;
    Ok(())
}

/// The lines of the live transactions of an account, by place, over a counter of its own.
fn placed_lines<G: Ledger>(
    alloc: Global,
    book: &Book,
    account: &Txt,
    blank: Blank,
) -> Result<BTreeMap<Place, Txt>, NoMemory>
    requires name { blank.name ≡ G.name }
    requires parts { blank.parts ≡ G.parts }
    requires some { 1 ≤ G.parts }
    requires live { book.now.spent ≡ false }
    ensures { IfOk result (λ found. found.entries ≡ register_of book.now.rows account.now) }
{
    let mut steps = Steps::<G>::new(blank);
    let ids = book.of_account(account, &mut steps)?;
    let mut found = BTreeMap::new(alloc);
    for id in ids.into_vec() {
        place_tx(alloc, book, id, &mut found, &mut steps)?;
    }
    Ok(found)
}

/// The lines of an account's live transactions, by day, those without one first, and then by id. It looks at this account's
/// transactions alone.
pub(crate) fn register_lines(
    alloc: Global,
    book: &Book,
    account: &Txt,
) -> Result<Items<Txt>, NoMemory>
    requires live { book.now.spent ≡ false }
    ensures { IfOk result (λ lines. lines ≡ register_lines book.now.rows account.now) }
{
    let found = placed_lines::<Brand>(alloc, book, account, Blank::new(1))?;
    let lines = found.into_values().collect(alloc)?;
    Ok(Items::new(lines))
}
