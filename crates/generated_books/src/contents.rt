//! What the generated messages write.
ghost use Rattle.std.specs.Prelude.{◌≡◌, ◌<◌, ◌≤◌, ◌+◌, ◌-◌, ◌*◌, ◌/◌, ◌%◌, ◌==◌, pos, neg_ℤ, length, codes, slice_index_or, IfOk, string_bytes};
ghost use Rattle.field_values.specs.Names.{field_of, AreNames};
ghost use Rattle.generated_books.specs.Draws.{draw};
ghost use Rattle.generated_books.specs.Generated as meant;
ghost use Rattle.generated_books.specs.Numbers.{AreDraws, content_at, no_content};

use field_values::{Field, NameFault, NoMemory, Txt, Value};
use std::alloc::Global;

/// A field, and what a message writes into it.
type Content = (Field, Value);

/// The field of three names.
fn field_of(alloc: Global, dataset: &str, row: &str, column: &str) -> Result<Field, NoMemory>
    requires { AreNames (field_of dataset.now row.now column.now) }
    ensures { IfOk result (λ field. field ≡ field_of dataset.now row.now column.now) }
{
    match Field::make(alloc, dataset, row, column) {
        Ok(field) => Ok(field),
        Err(fault) => match fault {
            NameFault::NoMemory => Err(NoMemory),
            // They are names.
            _ => unreachable!(),
        },
    }
}

/// A text in a field.
fn text(
    alloc: Global,
    dataset: &str,
    row: &str,
    column: &str,
    text: &str,
) -> Result<Content, NoMemory>
    requires { AreNames (field_of dataset.now row.now column.now) }
    ensures { IfOk result (λ content. content ≡ meant.text dataset.now row.now column.now text.now) }
{
    let field = field_of(alloc, dataset, row, column)?;
    Ok((field, Value::Text(Txt::from_text(alloc, text)?)))
}

/// A number in a field.
fn number(
    alloc: Global,
    dataset: &str,
    row: &str,
    column: &str,
    number: i64,
) -> Result<Content, NoMemory>
    requires { AreNames (field_of dataset.now row.now column.now) }
    ensures { IfOk result (λ content. content ≡ meant.number dataset.now row.now column.now number) }
{
    let field = field_of(alloc, dataset, row, column)?;
    Ok((field, Value::Number(number)))
}

/// The category of a digit: `c0` to `c9`.
#[tactic(auto, using(std::proofs::lemmas::Fmt::decimal_digit))]
fn category(alloc: Global, digit: u32) -> Result<String, NoMemory>
    requires { digit < 10 }
    ensures { IfOk result (λ id. string_bytes id ≡ meant.category digit) }
{
    let id = format!(in alloc; "c{digit}")?;
    Ok(id)
}

/// That the category of a digit is in its group.
fn category_in_group(alloc: Global, digit: u32) -> Result<Content, NoMemory>
    requires { digit < 10 }
    ensures { IfOk result (λ content. content ≡ meant.text (codes "categories") (meant.category digit) (codes "cat_group") (codes "g")) }
{
    let id = category(alloc, digit)?;
    text(alloc, "categories", id.as_str(), "cat_group", "g")
}

/// What one of the first five messages writes.
#[tactic(auto, unfolding(crate::specs::Generated::beginnings))]
fn first(alloc: Global, at: u32) -> Result<Content, NoMemory>
    requires { at < 5 }
    ensures { IfOk result (λ content. content ≡ slice_index_or meant.beginnings at no_content) }
{
    match at {
        0 => text(alloc, "accounts", "bank", "name", "Bank"),
        1 => text(alloc, "category_groups", "gi", "name", "Income"),
        2 => number(alloc, "category_groups", "gi", "is_income", 1),
        3 => text(alloc, "categories", "pay", "cat_group", "gi"),
        _ => text(alloc, "category_groups", "g", "name", "Usual"),
    }
}

/// What one of the messages before all transactions writes.
#[tactic(auto, using(crate::proofs::Numbers::late_beginning))]
fn beginning(alloc: Global, at: u32) -> Result<Content, NoMemory>
    requires { at < 15 }
    ensures { IfOk result (λ content. content ≡ slice_index_or meant.beginnings at no_content) }
{
    if at < 5 {
        first(alloc, at)
    } else {
        category_in_group(alloc, at - 5)
    }
}

/// A day of 2024.
fn day(a: u32, b: u32) -> i64
    ensures { result ≡ pos (meant.day a b) }
{
    (20_240_000 + 100 * (1 + a % 12) + (1 + b % 28)) as i64
}

/// An amount: one of eleven comes in.
fn amount(c: u32, d: u32) -> i64
    ensures { result ≡ meant.amount c d }
{
    if c % 11 == 10 {
        (1 + d % 100_000) as i64
    } else {
        -((1 + d % 10_000) as i64)
    }
}

/// The category of a transaction.
fn category_of(alloc: Global, c: u32) -> Result<String, NoMemory>
    ensures { IfOk result (λ id. string_bytes id ≡ meant.category_of c) }
{
    if c % 11 == 10 {
        Ok(String::from_str(alloc, "pay")?)
    } else {
        category(alloc, c % 11)
    }
}

/// The row of a transaction: `t`, and its number.
fn row(alloc: Global, number: u32) -> Result<String, NoMemory>
    ensures { IfOk result (λ id. string_bytes id ≡ meant.row number) }
{
    let id = format!(in alloc; "t{number}")?;
    Ok(id)
}

/// A field of a transaction.
fn field_in(alloc: Global, number: u32, column: &str) -> Result<Field, NoMemory>
    requires { AreNames (field_of (codes "transactions") (codes "t") column.now) }
    ensures { IfOk result (λ field. field ≡ field_of (codes "transactions") (meant.row number) column.now) }
{
    let id = row(alloc, number)?;
    field_of(alloc, "transactions", id.as_str(), column)
}

/// A text in a field of a transaction.
fn text_in(alloc: Global, number: u32, column: &str, text: &str) -> Result<Content, NoMemory>
    requires { AreNames (field_of (codes "transactions") (codes "t") column.now) }
    ensures { IfOk result (λ content. content ≡ meant.text (codes "transactions") (meant.row number) column.now text.now) }
{
    let field = field_in(alloc, number, column)?;
    Ok((field, Value::Text(Txt::from_text(alloc, text)?)))
}

/// A number in a field of a transaction.
fn number_in(alloc: Global, number: u32, column: &str, value: i64) -> Result<Content, NoMemory>
    requires { AreNames (field_of (codes "transactions") (codes "t") column.now) }
    ensures { IfOk result (λ content. content ≡ meant.number (codes "transactions") (meant.row number) column.now value) }
{
    let field = field_in(alloc, number, column)?;
    Ok((field, Value::Number(value)))
}

/// The category of a transaction, by a draw.
fn category_in(alloc: Global, number: u32, c: u32) -> Result<Content, NoMemory>
    ensures { IfOk result (λ content. content ≡ meant.text (codes "transactions") (meant.row number) (codes "category") (meant.category_of c)) }
{
    let category = category_of(alloc, c)?;
    text_in(alloc, number, "category", category.as_str())
}

/// One of the four draws of the transaction that follows so many others, counted from 1.
fn draw_of(draws: &[u32], before: u32, nth: u32, count: u32) -> u32
    requires draws { AreDraws draws.now count }
    requires within { before < count }
    requires few { count ≤ 100_000 }
    requires first { 1 ≤ nth }
    requires last { nth ≤ 4 }
    ensures { result ≡ draw (4 * before + nth) }
{
    draws[(4 * before + nth - 1) as usize]
}

/// The day of the transaction that follows so many others.
fn day_of(draws: &[u32], before: u32, count: u32) -> i64
    requires draws { AreDraws draws.now count }
    requires within { before < count }
    requires few { count ≤ 100_000 }
    ensures { result ≡ pos (meant.day (draw (4 * before + 1)) (draw (4 * before + 2))) }
{
    day(
        draw_of(draws, before, 1, count),
        draw_of(draws, before, 2, count),
    )
}

/// The amount of the transaction that follows so many others.
fn amount_of(draws: &[u32], before: u32, count: u32) -> i64
    requires draws { AreDraws draws.now count }
    requires within { before < count }
    requires few { count ≤ 100_000 }
    ensures { result ≡ meant.amount (draw (4 * before + 3)) (draw (4 * before + 4)) }
{
    amount(
        draw_of(draws, before, 3, count),
        draw_of(draws, before, 4, count),
    )
}

/// What one of the four messages of the transaction writes that follows so many others.
#[tactic(auto, unfolding(crate::specs::Generated::transaction))]
fn transaction(
    alloc: Global,
    draws: &[u32],
    before: u32,
    part: u32,
    count: u32,
) -> Result<Content, NoMemory>
    requires draws { AreDraws draws.now count }
    requires within { before < count }
    requires few { count ≤ 100_000 }
    requires part { part < 4 }
    ensures { IfOk result (λ content. content ≡ slice_index_or (meant.transaction before) part no_content) }
{
    let number = before + 1;
    match part {
        0 => text_in(alloc, number, "acct", "bank"),
        1 => number_in(alloc, number, "date", day_of(draws, before, count)),
        2 => number_in(alloc, number, "amount", amount_of(draws, before, count)),
        _ => category_in(alloc, number, draw_of(draws, before, 3, count)),
    }
}

/// What the message with a number writes.
pub(crate) fn content_at(
    alloc: Global,
    draws: &[u32],
    at: u32,
    count: u32,
) -> Result<Content, NoMemory>
    requires draws { AreDraws draws.now count }
    requires few { count ≤ 100_000 }
    requires within { at < 15 + 4 * count }
    ensures { IfOk result (λ content. content ≡ content_at at) }
{
    if at < 15 {
        beginning(alloc, at)
    } else {
        transaction(alloc, draws, (at - 15) / 4, (at - 15) % 4, count)
    }
}
