//! UTF-8 text that contracts see as its bytes.
ghost use Rattle.std.specs.Prelude.{◌≡◌, ◌==◌, IfOk, IsUtf8, string_bytes};
ghost use Rattle.std.specs.Ordering.{nat_cmp, as_partial_cmp};
ghost use Rattle.std.specs.Cmp.Lexicographic.{slice_cmp, pointwise};
ghost use Rattle.std.proofs.Common.{rules};
ghost use Rattle.std.specs.Cmp.Rules.{comparing};
ghost use Rattle.field_values.specs.Text.{IsMadeOf};

use crate::items::Copied;
use crate::memory::NoMemory;
use crate::order::order_of_fronts;
use std::alloc::Global;
use std::cmp::Ordering;
use std::marker::Model;
use std::str;

/// UTF-8 text. A contract sees its bytes, by which texts are equal and ordered.
#[derive(Debug, Drop)]
pub struct Txt {
    text: String,
}

impl Model for Txt {
    ghost use Rattle.std.specs.Prelude.{List, ℕ, string_bytes};

    ghost Value = { List ℕ };

    ghost view = { λ t. string_bytes t.text };
}

/// Why bytes were not made a text.
#[derive(Clone, Copy, Debug, PartialEq, Eq)]
pub enum TxtFault {
    /// The bytes are not UTF-8. `at` is the place, counted from 0, of the first byte of the first sequence that is not UTF-8:
    /// for a character that is cut short, the byte where it begins.
    NotUtf8 { at: usize },
    /// The bytes are UTF-8, but memory for the copy ran out.
    NoMemory,
}

impl Txt {
    /// A copy of the bytes, which have to be UTF-8.
    pub fn make(alloc: Global, bytes: &[u8]) -> Result<Txt, TxtFault>
        ensures { IsMadeOf bytes.now result }
    {
        match str::from_utf8(bytes) {
            Ok(text) => match String::from_str(alloc, text) {
                Ok(text) => Ok(Txt { text }),
                Err(_) => Err(TxtFault::NoMemory),
            },
            Err(fault) => Err(TxtFault::NotUtf8 {
                at: fault.valid_up_to(),
            }),
        }
    }

    /// A copy of the text.
    pub fn from_text(alloc: Global, text: &str) -> Result<Txt, NoMemory>
        ensures { IfOk result (λ t. t ≡ text.now) }
    {
        let text = String::from_str(alloc, text)?;
        Ok(Txt { text })
    }

    /// Takes the string as it is.
    pub fn new(text: String) -> Txt
        ensures { result ≡ string_bytes text }
    {
        Txt { text }
    }

    /// The text's bytes.
    pub fn bytes(&self) -> &[u8]
        ensures value { result.now ≡ self.now }
        ensures utf8 { IsUtf8 result.now }
    {
        self.text.as_str().as_bytes()
    }

    /// The text as a string slice.
    pub fn as_str(&self) -> &str
        ensures { result.now ≡ self.now }
    {
        self.text.as_str()
    }

    /// Hands the string back.
    pub fn into_string(self) -> String
        ensures { string_bytes result ≡ self }
    {
        let Txt { text } = self;
        text
    }

    /// An equal text.
    pub fn copy(&self) -> Result<Txt, NoMemory>
        ensures { IfOk result (λ t. t ≡ self.now) }
    {
        let text = self.text.clone()?;
        Ok(Txt { text })
    }
}

impl Copied for Txt {
    fn copied(&self) -> Result<Txt, NoMemory> {
        self.copy()
    }
}

impl PartialEq for Txt {
    ghost eq = { pointwise ◌==◌ };

    ghost laws = { Prim.search (comparing, rules) };

    fn eq(&self, other: &Txt) -> bool {
        self.text.as_str() == other.text.as_str()
    }
}

impl Eq for Txt {
    ghost laws = { Prim.search (comparing, rules) };
}

impl Ord for Txt {
    ghost cmp = { slice_cmp nat_cmp };

    ghost total = { Prim.search (comparing, rules) };

    ghost matches_partial_cmp = { Prim.search (comparing, rules) };

    ghost matches_eq = { Prim.search (comparing, rules) };

    fn cmp(&self, other: &Txt) -> Ordering {
        let (own, theirs) = (self.text.as_str(), other.text.as_str());
        match order_of_fronts(own.as_bytes(), theirs.as_bytes()) {
            Some(order) => order,
            None => own.cmp(theirs),
        }
    }
}

impl PartialOrd for Txt {
    ghost use Rattle.std.specs.Cmp.{partial_order_from_own_ties};

    ghost partial_cmp = { as_partial_cmp (slice_cmp nat_cmp) };

    ghost laws = { partial_order_from_own_ties (Prim.search (comparing, rules)) (Prim.search (comparing, rules)) };

    fn partial_cmp(&self, other: &Txt) -> Option<Ordering> {
        Some(self.cmp(other))
    }
}
