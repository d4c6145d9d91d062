//! The ids of the rows that speak of a month.
ghost use Rattle.std.specs.Prelude.{◌≡◌, ◌<◌, ◌+◌, ◌++◌, OnOk, IfOk, string_bytes};
ghost use Rattle.book_rows.specs.Months.{is_month};
ghost use Rattle.book_rows.specs.Ids.{two_digits, four_digits, budget_id, month_id};

use field_values::{NoMemory, Txt};
use std::alloc::Global;

/// Whether a number YYYYMM is a month from January 1970 to December 2199.
pub fn is_month(month: u32) -> bool
    ensures { result ≡ is_month month }
{
    let year = month / 100;
    let within = month % 100;
    year >= 1970 && year <= 2199 && within >= 1 && within <= 12
}

/// The digit of a number below ten.
fn digit(n: u32) -> char
    requires { n < 10 }
    ensures { result ≡ 48 + n }
{
    char::from(b'0' + n as u8)
}

/// Puts the last two digits of a number behind a text.
fn push_two(text: &mut String, n: u32) -> Result<(), NoMemory>
    ensures { OnOk result (string_bytes text.new ≡ string_bytes text.old ++ two_digits n) }
{
    text.push(digit(n / 10 % 10))?;
    text.push(digit(n % 10))?;
    Ok(())
}

/// Puts the last four digits of a number behind a text.
fn push_four(text: &mut String, n: u32) -> Result<(), NoMemory>
    ensures { OnOk result (string_bytes text.new ≡ string_bytes text.old ++ four_digits n) }
{
    push_two(text, n / 100)?;
    push_two(text, n)
}

/// The id of the row of what a category is given in a month YYYYMM: the month, `-` and the category.
pub fn budget_id(alloc: Global, category: &Txt, month: u32) -> Result<Txt, NoMemory>
    ensures { IfOk result (λ id. id ≡ budget_id category.now month) }
{
    let mut text = String::new(alloc);
    push_four(&mut text, month / 100)?;
    push_two(&mut text, month)?;
    text.push('-')?;
    text.push_str(category.as_str())?;
    Ok(Txt::new(text))
}

/// The id of the row of what is held back in a month YYYYMM: YYYY, `-`, MM.
pub fn month_id(alloc: Global, month: u32) -> Result<Txt, NoMemory>
    ensures { IfOk result (λ id. id ≡ month_id month) }
{
    let mut text = String::new(alloc);
    push_four(&mut text, month / 100)?;
    text.push('-')?;
    push_two(&mut text, month)?;
    Ok(Txt::new(text))
}
