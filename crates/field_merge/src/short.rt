//! The names of a field, in place as numbers where they are short.
ghost use Rattle.std.specs.Prelude.{◌≡◌, ◌≤◌, ◌+◌, ◌++◌, length, take, drop, true, IfSome};
ghost use Rattle.field_values.specs.Heads.{head_of};
ghost use Rattle.field_values.specs.Names.{field_of, names_cmp, AreNames, IsName};
ghost use Rattle.field_merge.specs.Padded.{bytes_of, bytes_of_three};
ghost use Rattle.field_merge.specs.Short.{names_of_texts};

use crate::number::Number;
use field_values::Field;
use std::cmp::Ordering;
use std::hash::{FoldHasher, Hash, Hasher};
use std::marker::Model;
use std::str;

/// Most datasets and columns have no more bytes.
const SHORT: usize = 16;

/// Most rows have no more bytes: a UUID has 36, and the text of a timestamp 46.
const LONG: usize = 3 * SHORT;

/// A text of at most 16 bytes, with zeros behind it. A contract sees its bytes.
#[derive(Debug, Drop)]
pub(crate) struct Short {
    bytes: [u8; SHORT],
    len: u8,
}

/// A text of at most 48 bytes, with zeros behind it. A contract sees its bytes.
#[derive(Debug, Drop)]
pub(crate) struct Long {
    bytes: [u8; LONG],
    len: u8,
}

impl Model for Short {
    ghost use Rattle.std.specs.Prelude.{List, ℕ, take};
    ghost use Rattle.field_merge.specs.Padded.{IsPadded};

    ghost Value = { List ℕ };

    ghost view = { λ s. take s.len s.bytes };

    ghost invariant = { λ s. IsPadded 16 s.bytes s.len };
}

impl Model for Long {
    ghost use Rattle.std.specs.Prelude.{List, ℕ, take};
    ghost use Rattle.field_merge.specs.Padded.{IsPadded};

    ghost Value = { List ℕ };

    ghost view = { λ s. take s.len s.bytes };

    ghost invariant = { λ s. IsPadded 48 s.bytes s.len };
}

/// The first 16 bytes as a number.
fn front(bytes: &[u8]) -> u128
    requires { 16 ≤ length bytes.now }
    ensures { result ≡ head_of bytes.now }
{
    u128::from_be_bytes([
        bytes[0], bytes[1], bytes[2], bytes[3], bytes[4], bytes[5], bytes[6], bytes[7], bytes[8],
        bytes[9], bytes[10], bytes[11], bytes[12], bytes[13], bytes[14], bytes[15],
    ])
}

/// The 16 bytes from a place on as a number.
fn front_at(bytes: &[u8], at: usize) -> u128
    requires { at + 16 ≤ length bytes.now }
    ensures { result ≡ head_of (drop at bytes.now) }
{
    front(&bytes[at..])
}

/// The 16 bytes of a number.
#[inline]
fn bytes_of(number: u128) -> [u8; SHORT]
    ensures { result ≡ bytes_of number }
{
    number.to_be_bytes()
}

/// Puts the 16 bytes of a number at a place.
fn put_at(bytes: &mut [u8; LONG], at: usize, number: u128)
    requires { at ≤ 32 }
    ensures { bytes.new ≡ take at bytes.old ++ (bytes_of number ++ drop (at + 16) bytes.old) }
{
    bytes[at..at + SHORT].copy_from_slice(&bytes_of(number));
}

/// The 48 bytes of three numbers.
fn bytes_of_three(first: u128, second: u128, third: u128) -> [u8; LONG]
    ensures { result ≡ bytes_of_three first second third }
{
    let mut bytes = [0u8; LONG];
    put_at(&mut bytes, 0, first);
    put_at(&mut bytes, SHORT, second);
    put_at(&mut bytes, 2 * SHORT, third);
    bytes
}

impl Short {
    fn of(text: &str) -> Short
        requires { length text.now ≤ 16 }
        ensures { result ≡ text.now }
    {
        let mut bytes = [0u8; SHORT];
        bytes[..text.len()].copy_from_slice(text.as_bytes());
        Short {
            bytes,
            len: text.len() as u8,
        }
    }

    fn text(&self) -> &str
        ensures { result.now ≡ self.now }
    {
        str::from_utf8(&self.bytes[..self.len as usize]).unwrap()
    }
}

impl Long {
    fn of(text: &str) -> Long
        requires { length text.now ≤ 48 }
        ensures { result ≡ text.now }
    {
        let mut bytes = [0u8; LONG];
        bytes[..text.len()].copy_from_slice(text.as_bytes());
        Long {
            bytes,
            len: text.len() as u8,
        }
    }

    fn text(&self) -> &str
        ensures { result.now ≡ self.now }
    {
        str::from_utf8(&self.bytes[..self.len as usize]).unwrap()
    }
}

/// Three short texts as numbers: each spells 16 bytes, the greatest first, with zeros behind the text. A contract sees them as names.
#[derive(Debug, Drop)]
pub(crate) struct ShortNames {
    dataset: Number,
    row: Number,
    /// The row's bytes from 16 on.
    row_second: Number,
    /// The row's bytes from 32 on.
    row_third: Number,
    column: Number,
    dataset_len: u8,
    row_len: u8,
    column_len: u8,
}

impl Model for ShortNames {
    ghost use Rattle.field_values.specs.Names.{FieldNames};
    ghost use Rattle.field_merge.specs.Padded.{kept_names, AreKept};

    ghost Value = { FieldNames };

    ghost view = { λ n. kept_names n.dataset n.dataset_len n.row n.row_second n.row_third n.row_len n.column n.column_len };

    ghost invariant = { λ n. AreKept n.dataset n.dataset_len n.row n.row_second n.row_third n.row_len n.column n.column_len };
}

/// Three short names as texts.
#[derive(Debug, Drop)]
pub(crate) struct ShortTexts {
    dataset: Short,
    row: Long,
    column: Short,
}

impl ShortNames {
    /// Three texts, where each is short. Whether they are names is not tested.
    pub(crate) fn of(dataset: &str, row: &str, column: &str) -> Option<ShortNames>
        ensures { IfSome result (λ names. names ≡ field_of dataset.now row.now column.now) }
    {
        if dataset.len() > SHORT || row.len() > LONG || column.len() > SHORT {
            return None;
        }
        let dataset = Short::of(dataset);
        let row = Long::of(row);
        let column = Short::of(column);
        Some(ShortNames {
            dataset: Number::of(front(&dataset.bytes)),
            row: Number::of(front(&row.bytes)),
            row_second: Number::of(front_at(&row.bytes, SHORT)),
            row_third: Number::of(front_at(&row.bytes, 2 * SHORT)),
            column: Number::of(front(&column.bytes)),
            dataset_len: dataset.len,
            row_len: row.len,
            column_len: column.len,
        })
    }

    /// A number that is made of them. What is found by it is looked at before it is believed, so any number would do.
    pub(crate) fn number(&self) -> u64 {
        let mut hasher = FoldHasher::default();
        self.row.get().hash(&mut hasher);
        self.row_second.get().hash(&mut hasher);
        self.row_third.get().hash(&mut hasher);
        self.column.get().hash(&mut hasher);
        hasher.finish()
    }

    /// Whether they are the same.
    #[inline]
    fn is(&self, other: &ShortNames) -> bool
        ensures { result ≡ true → self.now ≡ other.now }
    {
        self.row.get() == other.row.get()
            && self.row_second.get() == other.row_second.get()
            && self.row_third.get() == other.row_third.get()
            && self.column.get() == other.column.get()
            && self.dataset.get() == other.dataset.get()
            && self.row_len == other.row_len
            && self.column_len == other.column_len
            && self.dataset_len == other.dataset_len
    }

    /// The names as texts.
    fn texts(&self) -> ShortTexts
        ensures { names_of_texts result ≡ self.now }
    {
        ShortTexts {
            dataset: Short {
                bytes: bytes_of(self.dataset.get()),
                len: self.dataset_len,
            },
            row: Long {
                bytes: bytes_of_three(self.row.get(), self.row_second.get(), self.row_third.get()),
                len: self.row_len,
            },
            column: Short {
                bytes: bytes_of(self.column.get()),
                len: self.column_len,
            },
        }
    }

    /// How the names are ordered: as their numbers are, since no name has a zero.
    #[inline]
    fn cmp(&self, other: &ShortNames) -> Ordering
        requires own { AreNames self.now }
        requires other { AreNames other.now }
        ensures { result ≡ names_cmp self.now other.now }
    {
        let own = self.dataset.get();
        let others = other.dataset.get();
        if own != others {
            return own.cmp(&others);
        }
        let own = self.row.get();
        let others = other.row.get();
        if own != others {
            return own.cmp(&others);
        }
        let own = self.row_second.get();
        let others = other.row_second.get();
        if own != others {
            return own.cmp(&others);
        }
        let own = self.row_third.get();
        let others = other.row_third.get();
        if own != others {
            return own.cmp(&others);
        }
        let own = self.column.get();
        let others = other.column.get();
        if own != others {
            return own.cmp(&others);
        }
        Ordering::Equal
    }
}

/// The texts of a field's names: copies of those that stand in place, else those of the field.
#[derive(Debug, Drop)]
pub(crate) enum HeldTexts<'a> {
    Here(ShortTexts),
    There(&'a Field),
}

/// The texts of a field's names. A contract sees the names.
#[derive(Debug, Drop)]
pub(crate) struct NamesTexts<'a> {
    held: HeldTexts<'a>,
}

impl<'a> Model for NamesTexts<'a> {
    ghost use Rattle.field_values.specs.Names.{FieldNames, AreNames};
    ghost use Rattle.field_merge.specs.Short.{texts_in};

    ghost Value = { FieldNames };

    ghost view = { λ n. texts_in n.held };

    ghost invariant = { λ n. AreNames (texts_in n.held) };
}

impl<'a> NamesTexts<'a> {
    pub(crate) fn dataset(&self) -> &str
        ensures value { result.now ≡ self.now.dataset }
        ensures name { IsName result.now }
    {
        match &self.held {
            HeldTexts::Here(texts) => texts.dataset.text(),
            HeldTexts::There(field) => field.dataset(),
        }
    }

    pub(crate) fn row(&self) -> &str
        ensures value { result.now ≡ self.now.row }
        ensures name { IsName result.now }
    {
        match &self.held {
            HeldTexts::Here(texts) => texts.row.text(),
            HeldTexts::There(field) => field.row(),
        }
    }

    pub(crate) fn column(&self) -> &str
        ensures value { result.now ≡ self.now.column }
        ensures name { IsName result.now }
    {
        match &self.held {
            HeldTexts::Here(texts) => texts.column.text(),
            HeldTexts::There(field) => field.column(),
        }
    }

    /// How the names are ordered.
    fn cmp(&self, other: &NamesTexts<'_>) -> Ordering
        ensures { result ≡ names_cmp self.now other.now }
    {
        let datasets = self.dataset().cmp(other.dataset());
        if datasets.is_ne() {
            return datasets;
        }
        let rows = self.row().cmp(other.row());
        if rows.is_ne() {
            return rows;
        }
        self.column().cmp(other.column())
    }
}

/// The names of a field: in place where they are short, else in the memory that the field's copies share.
#[derive(Debug, Drop)]
pub(crate) enum Held {
    Here(ShortNames),
    There(Field),
}

/// The names of a field. A contract sees them.
#[derive(Debug, Drop)]
pub(crate) struct Names {
    held: Held,
}

impl Model for Names {
    ghost use Rattle.field_values.specs.Names.{FieldNames, AreNames};
    ghost use Rattle.field_merge.specs.Short.{names_in};

    ghost Value = { FieldNames };

    ghost view = { λ n. names_in n.held };

    ghost invariant = { λ n. AreNames (names_in n.held) };
}

impl Names {
    /// The names of a field.
    pub(crate) fn of(field: Field) -> Names
        requires { AreNames field }
        ensures { result ≡ field }
    {
        match ShortNames::of(field.dataset(), field.row(), field.column()) {
            Some(names) => Names {
                held: Held::Here(names),
            },
            None => Names {
                held: Held::There(field),
            },
        }
    }

    /// Names that are short.
    pub(crate) fn short(names: ShortNames) -> Names
        requires { AreNames names }
        ensures { result ≡ names }
    {
        Names {
            held: Held::Here(names),
        }
    }

    /// Whether they are these short ones.
    pub(crate) fn are(&self, names: &ShortNames) -> bool
        ensures same { result ≡ true → self.now ≡ names.now }
        ensures valid { result ≡ true → AreNames names.now }
    {
        match &self.held {
            Held::Here(own) => own.is(names),
            Held::There(_) => false,
        }
    }

    /// The names as texts.
    pub(crate) fn texts(&self) -> NamesTexts<'_>
        ensures { result ≡ self.now }
    {
        match &self.held {
            Held::Here(names) => NamesTexts {
                held: HeldTexts::Here(names.texts()),
            },
            Held::There(field) => NamesTexts {
                held: HeldTexts::There(field),
            },
        }
    }

    /// How the names are ordered. Short ones are ordered without a look at their texts.
    #[inline]
    pub(crate) fn cmp(&self, other: &Names) -> Ordering
        ensures { result ≡ names_cmp self.now other.now }
    {
        if let (Held::Here(own), Held::Here(others)) = (&self.held, &other.held) {
            return own.cmp(others);
        }
        self.texts().cmp(&other.texts())
    }
}
