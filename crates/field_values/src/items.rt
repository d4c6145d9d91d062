//! A vector that contracts see as the list of its elements.
ghost use Rattle.std.specs.Prelude.{◌≡◌, ◌==◌, length, IfOk};
ghost use Rattle.std.specs.Cmp.Lexicographic.{pointwise};
ghost use Rattle.std.proofs.Common.{rules};
ghost use Rattle.std.specs.Cmp.Rules.{comparing};

use crate::memory::NoMemory;
use std::alloc::Global;
use std::marker::Model;

/// The elements of a vector. A contract sees their list, and nothing of the vector's room.
#[derive(Debug, Drop)]
pub struct Items<T> {
    elements: Vec<T>,
}

impl<T> Model for Items<T> {
    ghost use Rattle.std.specs.Prelude.{List};

    ghost Value = { List T };

    ghost view = { λ s. s.elements.items };
}

impl<T> Items<T> {
    /// Takes the vector as it is.
    pub fn new(elements: Vec<T>) -> Items<T>
        ensures { result ≡ elements.items }
    {
        Items { elements }
    }

    /// The elements, in order.
    pub fn as_slice(&self) -> &[T]
        ensures { result.now ≡ self.now }
    {
        self.elements.as_slice()
    }

    /// How many elements there are.
    pub fn len(&self) -> usize
        ensures { result ≡ length self.now }
    {
        self.elements.len()
    }

    /// Whether there is no element.
    pub fn is_empty(&self) -> bool
        ensures { result ≡ (length self.now == 0) }
    {
        self.elements.is_empty()
    }

    /// Hands the vector back.
    pub fn into_vec(self) -> Vec<T>
        ensures { result.items ≡ self }
    {
        let Items { elements } = self;
        elements
    }
}

/// What can be copied where memory allows. A copy equals what it was made from, which stays as it is.
pub trait Copied: Sized {
    /// An equal value.
    fn copied(&self) -> Result<Self, NoMemory>
        ensures { IfOk result (λ v. v ≡ self.now) };
}

impl<T: Copied + Drop> Items<T> {
    /// An equal list, element by element.
    pub fn copy(&self, alloc: Global) -> Result<Items<T>, NoMemory>
        ensures { IfOk result (λ v. v ≡ self.now) }
    {
        let mut elements = Vec::with_capacity(alloc, self.elements.len())?;
        for element in self.elements.as_slice() {
            elements.push(element.copied()?)?;
        }
        Ok(Items { elements })
    }
}

impl<T: PartialEq> PartialEq for Items<T> {
    ghost eq = { pointwise T.eq };

    ghost laws = { Prim.search (comparing, rules) };

    fn eq(&self, other: &Items<T>) -> bool {
        self.elements.as_slice() == other.elements.as_slice()
    }
}

impl<T: Eq> Eq for Items<T> {
    ghost laws = { Prim.search (comparing, rules) };
}
