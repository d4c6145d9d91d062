//! What is asked of what an edit gives: ids, numbers, days and months.
ghost use Rattle.std.specs.Prelude.{◌≡◌, OnOk, IfOk, IfErr, Ok};
ghost use Rattle.book_rows.specs.Parts.{is_text};
ghost use Rattle.book_edits.specs.Faults.{IsEditFault};
ghost use Rattle.book_edits.specs.Checks.{is_name, may_be_chosen, a_name, given_row, same_id, two_ids, a_day, a_month, is_amount, an_amount, is_held, a_held};

use book_rows::{EditFault, RowName, is_day, is_month};
use field_values::{NamePart, Txt, check_name};
use hybrid_clock::Stamp;
use std::cmp::Ordering;

/// The greatest amount that a value holds, in cents.
const LARGEST: i128 = field_values::value::LARGEST as i128;

/// The most bytes of an id that a caller chooses.
const MOST_BYTES: usize = 64;

/// Whether a text may be the name of a row.
fn is_name(id: &Txt) -> bool
    ensures { result ≡ is_name id.now }
{
    check_name(NamePart::Row, id.bytes()).is_ok()
}

/// A text that may be the name of a row.
pub(crate) fn a_name(id: &Txt) -> Result<(), EditFault>
    ensures ok { OnOk result (a_name id.now ≡ Ok tt) }
    ensures err { IfErr result (IsEditFault (a_name id.now)) }
{
    if is_name(id) {
        return Ok(());
    }
    Err(EditFault::BadId { id: id.copy()? })
}

/// Whether a caller may choose this id: a name of at most 64 bytes that can't be taken for a timestamp.
fn may_be_chosen(id: &Txt) -> bool
    ensures { result ≡ may_be_chosen id.now }
{
    is_name(id) && id.bytes().len() <= MOST_BYTES && Stamp::parse(id.bytes()).is_err()
}

/// The row of an id that is given for a new one: `BadId` where a caller may not choose it, else `IdTaken` where it is `there`.
pub fn given_row(there: bool, id: &Txt) -> Result<RowName, EditFault>
    ensures ok { IfOk result (λ row. given_row there id.now ≡ Ok row) }
    ensures err { IfErr result (IsEditFault (given_row there id.now)) }
{
    if !may_be_chosen(id) {
        return Err(EditFault::BadId { id: id.copy()? });
    }
    if there {
        return Err(EditFault::IdTaken { id: id.copy()? });
    }
    Ok(RowName::Given(id.copy()?))
}

/// Whether two ids are the same.
pub fn same_id(a: &Txt, b: &Txt) -> bool
    ensures { result ≡ same_id a.now b.now }
{
    a.cmp(b) == Ordering::Equal
}

/// Whether the text is there and is this one.
pub fn is_text(text: &Txt, own: &Option<Txt>) -> bool
    ensures { result ≡ is_text text.now own.now }
{
    match own {
        Some(own) => same_id(own, text),
        None => false,
    }
}

/// Two ids that have to differ, or else `SameAccount`.
pub fn two_ids(a: &Txt, b: &Txt) -> Result<(), EditFault>
    ensures ok { OnOk result (two_ids a.now b.now ≡ Ok tt) }
    ensures err { IfErr result (IsEditFault (two_ids a.now b.now)) }
{
    if same_id(a, b) {
        return Err(EditFault::SameAccount { id: a.copy()? });
    }
    Ok(())
}

/// A day YYYYMMDD from 1970 to 2199, or else `BadDate`.
pub fn a_day(n: u32) -> Result<(), EditFault>
    ensures { result ≡ a_day n }
{
    if is_day(n) {
        return Ok(());
    }
    Err(EditFault::BadDate { n })
}

/// A month YYYYMM from 1970 to 2199.
pub(crate) fn a_month(n: u32) -> Result<(), EditFault>
    ensures { result ≡ a_month n }
{
    if is_month(n) {
        return Ok(());
    }
    Err(EditFault::BadMonth { n })
}

/// Whether a value holds this amount.
fn is_amount(n: i128) -> bool
    ensures { result ≡ is_amount n }
{
    -LARGEST <= n && n <= LARGEST
}

/// An amount in cents that a value holds, or else `BadAmount`.
pub fn an_amount(n: i128) -> Result<(), EditFault>
    ensures { result ≡ an_amount n }
{
    if is_amount(n) {
        return Ok(());
    }
    Err(EditFault::BadAmount { n })
}

/// Whether a value holds this amount, and it is not negative.
fn is_held(n: i128) -> bool
    ensures { result ≡ is_held n }
{
    0 <= n && n <= LARGEST
}

/// An amount that a value holds and that is not negative.
pub(crate) fn a_held(n: i128) -> Result<(), EditFault>
    ensures { result ≡ a_held n }
{
    if is_held(n) {
        return Ok(());
    }
    Err(EditFault::BadAmount { n })
}

/// An amount that a value holds, as a number of 64 bits.
pub(crate) fn as_amount(n: i128) -> Result<i64, EditFault>
    ensures ok { IfOk result (λ m. (m ≡ n) × (an_amount n ≡ Ok tt)) }
    ensures err { IfErr result (IsEditFault (an_amount n)) }
{
    an_amount(n)?;
    Ok(n as i64)
}
