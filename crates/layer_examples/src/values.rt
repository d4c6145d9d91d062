//! Texts, values, names and lists.
ghost use Rattle.std.specs.Prelude.{◌≡◌, ◌≤◌, ◌+◌};
ghost use Rattle.field_values.specs.Value.{IsValue};

use field_values::{Field, FieldKey, Items, NameFault, NamePart, Steps, Txt, TxtFault, Value};
use std::alloc::Global;
use std::cmp::Ordering;
use std::marker::Brand;
use std::mem::size_of;
use std::sync::ledger::{Blank, Ledger};
use std::test::Fail;

/// What the value's text begins with, where it is read, and else `?`.
fn form_of(value: &Value) -> u8 {
    match value {
        Value::Null => b'0',
        Value::Number(_) => b'N',
        Value::Text(_) => b'S',
        Value::Other(_) => b'?',
    }
}

/// Whether a value has this text.
fn has_text(alloc: Global, value: &Value, text: &Txt) -> Result<bool, Fail>
    requires { IsValue value.now }
{
    let written = value.text(alloc)?;
    Ok(written == *text)
}

/// Whether a copy of a value is another one.
fn is_copied_as(value: &Value, other: &Value) -> Result<bool, Fail> {
    let copied = value.copy()?;
    Ok(copied == *other)
}

/// The form that the text is read as, or `!` where the value of it or its copy does not have the very text.
fn form_again(alloc: Global, given: &Txt, value: &Value) -> Result<u8, Fail>
    requires { IsValue value.now }
{
    let again = Value::read(alloc, given.as_str())?;
    if has_text(alloc, value, given)? && is_copied_as(value, &again)? {
        Ok(form_of(&again))
    } else {
        Ok(b'!')
    }
}

/// The form that the text of these bytes is read as.
fn read_form(alloc: Global, bytes: &[u8]) -> Result<u8, Fail> {
    let given = Txt::make(alloc, bytes)?;
    let value = Value::from_text(alloc, &given)?;
    form_again(alloc, &given, &value)
}

#[test]
fn texts_of_values(rt: HostRuntime) -> Result<(), Fail> {
    for (text, form) in [
        (&b"0:"[..], b'0'),
        (&b"0:x"[..], b'?'),
        (&b""[..], b'?'),
        (&b"N:"[..], b'?'),
        (&b"N:0"[..], b'N'),
        (&b"N:-0"[..], b'?'),
        (&b"N:+5"[..], b'?'),
        (&b"N:007"[..], b'?'),
        (&b"N:12.5"[..], b'?'),
        (&b"N:9007199254740992"[..], b'?'),
        (&b"N:-9007199254740991"[..], b'N'),
        (&b"S:"[..], b'S'),
        (&b"S:0:\t\xc3\xa9"[..], b'S'),
    ] {
        assert_eq!(rt; read_form(rt.alloc(), text)?, form);
    }
    Ok(())
}

/// Where the bytes are first no UTF-8, or 100.
fn place_of(alloc: Global, bytes: &[u8]) -> usize {
    match Txt::make(alloc, bytes) {
        Err(TxtFault::NotUtf8 { at }) => at,
        _ => 100,
    }
}

/// How two texts are ordered.
fn order_of(alloc: Global, own: &str, other: &str) -> Result<Ordering, Fail> {
    let own = Txt::from_text(alloc, own)?;
    let other = Txt::from_text(alloc, other)?;
    Ok(own.cmp(&other))
}

#[test]
fn texts_are_ordered(rt: HostRuntime) -> Result<(), Fail> {
    for (own, other) in [
        ("", "a"),
        ("abc", "abd"),
        ("abc", "abcd"),
        ("abcd", "abcde"),
        ("abcdeg", "abce"),
        ("abcdez", "abcdfa"),
        ("abcdef", "abcdefgh"),
        ("abcdefg", "abcdefz"),
        ("abcdefgh", "abcdefghi"),
        ("abcdefghij", "abcdefghz"),
        ("abcdefghijklmnop", "abcdefghijklmnoq"),
        ("abcdefghijklmnop", "abcdefghijklmnopq"),
        ("abcdefghijklmnopqr", "abcdefghijklmnopqs"),
        ("abcdefghijklmnopqrs", "abcdefghijklmnopqrst"),
        ("z", "\u{e9}"),
    ] {
        let orders = (
            order_of(rt.alloc(), own, other)?,
            order_of(rt.alloc(), other, own)?,
        );
        assert_eq!(rt; orders, (Ordering::Less, Ordering::Greater));
        assert_eq!(rt; order_of(rt.alloc(), other, other)?, Ordering::Equal);
    }
    Ok(())
}

/// A list of one text, which is a copy of another.
fn list_of(alloc: Global, text: &str) -> Result<Items<Txt>, Fail> {
    let text = Txt::from_text(alloc, text)?;
    let mut list = Vec::new(alloc);
    list.push(Txt::new(text.copy()?.into_string()))?;
    Ok(Items::new(list))
}

/// Whether a list of one text is copied, how many the copy has, and how many the list.
fn list_copied(alloc: Global, text: &str) -> Result<(bool, usize, usize), Fail> {
    let items = list_of(alloc, text)?;
    let copied = items.copy(alloc)?;
    let same = copied == items && !copied.is_empty();
    Ok((same, copied.into_vec().len(), items.len()))
}

#[test]
fn texts_and_lists(rt: HostRuntime) -> Result<(), Fail> {
    for (bytes, at) in [
        (b"a\xffbc", 1),
        (b"ab\xe2\x82", 2),
        (b"\xc3\xa9\xc3(", 2),
        (b"\xc3\xa9\xc3\xa9", 100),
    ] {
        assert_eq!(rt; place_of(rt.alloc(), bytes), at);
    }
    let (same, count, kept) = list_copied(rt.alloc(), "x")?;
    assert_eq!(rt; (same, count), (true, kept));
    Ok(())
}

/// Whether a copy of a field has these names, and is the field.
fn copy_has(field: &Field, names: (&str, &str, &str)) -> Result<bool, Fail> {
    let copied = field.copy()?;
    let has_names = copied.dataset() == names.0
        && copied.row() == names.1
        && copied.column() == names.2;
    Ok(has_names && copied == *field)
}

/// Whether the key of a field is of this field.
fn key_has(field: &Field) -> Result<bool, Fail> {
    let key = FieldKey::of(field)?;
    Ok(*key.field() == *field)
}

/// The fault of the names, where they have one. Where they have none, the field has them, and so has its copy.
fn fault_in(alloc: Global, names: (&str, &str, &str)) -> Result<Option<NameFault>, Fail> {
    match Field::make(alloc, names.0, names.1, names.2) {
        Ok(field) => {
            if copy_has(&field, names)? && key_has(&field)? {
                Ok(None)
            } else {
                Ok(Some(NameFault::NoMemory))
            }
        }
        Err(fault) => Ok(Some(fault)),
    }
}

/// The fault of the names that these bytes are.
fn fault_of(
    alloc: Global,
    dataset: &[u8],
    row: &[u8],
    column: &[u8],
) -> Result<Option<NameFault>, Fail> {
    let dataset = Txt::make(alloc, dataset)?;
    let row = Txt::make(alloc, row)?;
    let column = Txt::make(alloc, column)?;
    fault_in(alloc, (dataset.as_str(), row.as_str(), column.as_str()))
}

#[test]
fn names_of_fields(rt: HostRuntime) -> Result<(), Fail> {
    let long = [b'a'; 256];
    for (dataset, row, column, fault) in [
        (&b"\xc2\x80"[..], &long[..255], &b" ~"[..], None),
        (
            &b""[..],
            &b""[..],
            &long[..],
            Some(NameFault::Empty {
                part: NamePart::Dataset,
            }),
        ),
        (
            &b"d"[..],
            &long[..],
            &b""[..],
            Some(NameFault::TooLong {
                part: NamePart::Row,
                len: 256,
            }),
        ),
        (
            &b"d"[..],
            &b"r"[..],
            &b"ab\x7f\x1f"[..],
            Some(NameFault::BadByte {
                part: NamePart::Column,
                at: 2,
            }),
        ),
        (
            &b"d"[..],
            &b"\x1fr"[..],
            &b"ab\x7f"[..],
            Some(NameFault::BadByte {
                part: NamePart::Row,
                at: 0,
            }),
        ),
    ] {
        assert!(rt; fault_of(rt.alloc(), dataset, row, column)? == fault);
    }
    Ok(())
}

fn two_steps<G: Ledger>(steps: &mut Steps<G>)
    ensures { steps.new ≡ steps.old + 2 }
{
    steps.tick();
    steps.tick();
}

/// The pattern of a caller that has no counter: a function over the ledger of a blank makes one.
fn two_steps_over<G: Ledger>(blank: Blank)
    requires name { blank.name ≡ G.name }
    requires parts { blank.parts ≡ G.parts }
    requires some { 1 ≤ G.parts }
{
    let mut steps = Steps::<G>::new(blank);
    two_steps(&mut steps);
}

#[test]
fn a_counter_of_its_own(rt: HostRuntime) {
    two_steps_over::<Brand>(Blank::new(1));
    assert_eq!(rt; size_of::<Steps<Brand>>(), 0);
}
