//! A field as the key of a map.
ghost use Rattle.std.specs.Prelude.{◌≡◌, drop, IfOk};
ghost use Rattle.std.specs.Ordering.{as_partial_cmp, nat_cmp};
ghost use Rattle.std.specs.Cmp.Lexicographic.{slice_cmp};
ghost use Rattle.field_values.specs.Heads.{head_of, AreBytes, IsShortLength};
ghost use Rattle.std.proofs.Common.{rules};
ghost use Rattle.std.specs.Cmp.Rules.{comparing};
ghost use Rattle.std.specs.Cmp.{partial_order_from_own_ties};
ghost use Rattle.field_values.specs.Names.{names_eq, names_cmp};

use crate::field::Field;
use crate::memory::NoMemory;
use crate::order::front;
use std::cmp::Ordering;
use std::marker::Model;

/// A field with the beginnings of its names beside it, by which most fields are ordered without a look at the names: the first
/// 16 bytes of the dataset and of the column, and the first 48 of the row. It is equal to another, and ordered, as its field is:
/// the key of a map of many fields.
#[derive(Debug, Drop)]
pub struct FieldKey {
    field: Field,
    dataset_len: u8,
    row_len: u8,
    column_len: u8,
    dataset_head: u128,
    row_head: u128,
    /// The head of the row's bytes from 16 on.
    row_second: u128,
    /// The head of the row's bytes from 32 on.
    row_third: u128,
    column_head: u128,
}

/// How many bytes of a text its head has.
const HEAD_BYTES: usize = 16;

/// The greatest length that a head tells.
const HEAD_LEN: u8 = HEAD_BYTES as u8;

/// The greatest length that the three heads of a row tell.
const ROW_LEN: u8 = 3 * HEAD_LEN;

/// Stands for each length from 255 on.
const LONG: u8 = 255;

impl Model for FieldKey {
    ghost use Rattle.field_values.specs.Names.{FieldNames};
    ghost use Rattle.field_values.specs.Heads.{KeepsHeads};

    ghost Value = { FieldNames };

    ghost view = { λ k. k.field };

    ghost invariant = { λ k. KeepsHeads k.dataset_head k.dataset_len k.row_head k.row_second k.row_third k.row_len
        k.column_head k.column_len k.field };
}

/// The first 16 bytes as a number, with 0 for each that is not there. Where the heads of two texts differ, they are ordered as
/// the texts are.
fn head(bytes: &[u8]) -> u128
    ensures value { result ≡ head_of bytes.now }
    ensures bytes { AreBytes bytes.now }
{
    if HEAD_BYTES <= bytes.len() {
        return front(bytes);
    }
    let mut padded = [0u8; HEAD_BYTES];
    padded[..bytes.len()].copy_from_slice(bytes);
    front(&padded)
}

/// The head of what stands from a place on.
fn head_at(bytes: &[u8], at: usize) -> u128
    ensures { result ≡ head_of (drop at bytes.now) }
{
    if bytes.len() <= at {
        0
    } else {
        head(&bytes[at..])
    }
}

/// The length where it is below 255, else 255.
fn short_len(bytes: &[u8]) -> u8
    ensures { IsShortLength result bytes.now }
{
    if bytes.len() < LONG as usize {
        bytes.len() as u8
    } else {
        LONG
    }
}

impl FieldKey {
    /// The key of a field, whose names it shares.
    pub fn of(field: &Field) -> Result<FieldKey, NoMemory>
        ensures { IfOk result (λ k. k ≡ field.now) }
    {
        let dataset = field.dataset().as_bytes();
        let row = field.row().as_bytes();
        let column = field.column().as_bytes();
        let copy = field.copy()?;
        Ok(FieldKey {
            field: copy,
            dataset_len: short_len(dataset),
            row_len: short_len(row),
            column_len: short_len(column),
            dataset_head: head(dataset),
            row_head: head(row),
            row_second: head_at(row, HEAD_BYTES),
            row_third: head_at(row, 2 * HEAD_BYTES),
            column_head: head(column),
        })
    }

    /// The field.
    pub fn field(&self) -> &Field
        ensures { result.now ≡ self.now }
    {
        &self.field
    }

    /// How the datasets are ordered. Mostly no pointer has to be followed.
    fn dataset_cmp(&self, other: &FieldKey) -> Ordering
        ensures { result ≡ slice_cmp nat_cmp self.now.dataset other.now.dataset }
    {
        if self.dataset_head != other.dataset_head {
            return self.dataset_head.cmp(&other.dataset_head);
        }
        if self.dataset_len == other.dataset_len && self.dataset_len <= HEAD_LEN {
            return Ordering::Equal;
        }
        self.field.dataset().cmp(other.field.dataset())
    }

    /// How the rows are ordered. A pointer has to be followed only where one is longer than 48 bytes and their first 48 are the same.
    fn row_cmp(&self, other: &FieldKey) -> Ordering
        ensures { result ≡ slice_cmp nat_cmp self.now.row other.now.row }
    {
        if self.row_head != other.row_head {
            return self.row_head.cmp(&other.row_head);
        }
        if self.row_second != other.row_second {
            return self.row_second.cmp(&other.row_second);
        }
        if self.row_third != other.row_third {
            return self.row_third.cmp(&other.row_third);
        }
        if self.row_len == other.row_len && self.row_len <= ROW_LEN {
            return Ordering::Equal;
        }
        self.field.row().cmp(other.field.row())
    }

    /// How the columns are ordered. Mostly no pointer has to be followed.
    fn column_cmp(&self, other: &FieldKey) -> Ordering
        ensures { result ≡ slice_cmp nat_cmp self.now.column other.now.column }
    {
        if self.column_head != other.column_head {
            return self.column_head.cmp(&other.column_head);
        }
        if self.column_len == other.column_len && self.column_len <= HEAD_LEN {
            return Ordering::Equal;
        }
        self.field.column().cmp(other.field.column())
    }
}

impl PartialEq for FieldKey {
    ghost eq = { names_eq };

    ghost laws = { Prim.search (comparing, rules) };

    fn eq(&self, other: &FieldKey) -> bool {
        self.cmp(other).is_eq()
    }
}

impl Eq for FieldKey {
    ghost laws = { Prim.search (comparing, rules) };
}

impl Ord for FieldKey {
    ghost cmp = { names_cmp };

    ghost total = { Prim.search (comparing, rules) };

    ghost matches_partial_cmp = { Prim.search (comparing, rules) };

    ghost matches_eq = { Prim.search (comparing, rules) };

    fn cmp(&self, other: &FieldKey) -> Ordering {
        self.dataset_cmp(other)
            .then_with(|| self.row_cmp(other))
            .then_with(|| self.column_cmp(other))
    }
}

impl PartialOrd for FieldKey {
    ghost partial_cmp = { as_partial_cmp names_cmp };

    ghost laws = { partial_order_from_own_ties (Prim.search (comparing, rules)) (Prim.search (comparing, rules)) };

    fn partial_cmp(&self, other: &FieldKey) -> Option<Ordering> {
        Some(self.cmp(other))
    }
}
