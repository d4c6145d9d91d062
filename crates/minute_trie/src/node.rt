//! A node of the trie, with the nodes below it.
ghost use Rattle.std.specs.Prelude.{◌≡◌, ◌&&◌, is_some, OnOk, List, ◌∷◌, [], Some};
ghost use Rattle.minute_trie.specs.declared.key.Digit.TheVariants.{One, Two};
ghost use Rattle.minute_trie.specs.Held.{at_node, at_below};
ghost use Rattle.minute_trie.specs.Adding.{added, with_two_greatest};
ghost use Rattle.minute_trie.specs.Pruned.{pruned};

use crate::key::Digit;
use field_values::NoMemory;
use std::alloc::Global;

/// The name in JSON of a node's hash.
pub const HASH: &str = "hash";

/// A hash, as a pattern of 32 bits, and the children that are there.
#[derive(Drop)]
pub struct Node {
    /// The XOR of the hashes that were added here or below, and of what the text of a trie gave.
    pub hash: u32,
    /// The child behind the digit 0, if it is there.
    pub zero: Option<Box<Node>>,
    /// The child behind the digit 1, if it is there.
    pub one: Option<Box<Node>>,
    /// The child behind the digit 2, if it is there.
    pub two: Option<Box<Node>>,
}

impl Node {
    /// The root of the empty trie.
    pub fn new() -> Node
        ensures { (p : List Digit) → at_node result p ≡ pruned [] p }
    {
        Node {
            hash: 0,
            zero: None,
            one: None,
            two: None,
        }
    }

    /// The hash as a pattern of 32 bits.
    pub fn hash(&self) -> u32
        ensures { at_node self.now [] ≡ Some result }
    {
        self.hash
    }

    /// The child behind the digit, or `None` where it isn't there.
    pub fn child(&self, digit: Digit) -> &Option<Box<Node>>
        ensures { (p : List Digit) → at_below result.now p ≡ at_node self.now (digit ∷ p) }
    {
        match digit {
            Digit::Zero => &self.zero,
            Digit::One => &self.one,
            Digit::Two => &self.two,
        }
    }

    /// Adds the hash on the way that the key names.
    #[cycle(insert)]
    pub fn insert(&mut self, alloc: Global, key: &[Digit], hash: u32) -> Result<(), NoMemory>
        ensures { OnOk result ((p : List Digit) → at_node self.new p ≡ added key.now hash (at_node self.old) p) }
    {
        self.hash ^= hash;
        if let Some((digit, rest)) = key.split_first() {
            match digit {
                Digit::Zero => {
                    // Behind 1 and 2 it would be taken out at once.
                    if !self.is_full() {
                        insert_below(&mut self.zero, alloc, rest, hash)?;
                    }
                }
                Digit::One => insert_below(&mut self.one, alloc, rest, hash)?,
                Digit::Two => insert_below(&mut self.two, alloc, rest, hash)?,
            }
            self.prune();
        }
        Ok(())
    }

    /// Whether the two greatest children are there.
    fn is_full(&self) -> bool
        ensures { result ≡ (is_some (at_node self.now (One ∷ [])) && is_some (at_node self.now (Two ∷ []))) }
    {
        self.one.is_some() && self.two.is_some()
    }

    /// Keeps the two greatest children.
    fn prune(&mut self)
        ensures { (p : List Digit) → at_node self.new p ≡ with_two_greatest (at_node self.old) p }
    {
        if self.is_full() {
            self.zero = None;
        }
    }
}

/// Adds the hash below a child, which is made if it is not there.
#[cycle(insert)]
fn insert_below(
    child: &mut Option<Box<Node>>,
    alloc: Global,
    key: &[Digit],
    hash: u32,
) -> Result<(), NoMemory>
    ensures { OnOk result ((p : List Digit) → at_below child.new p ≡ added key.now hash (at_below child.old) p) }
{
    match child {
        Some(node) => node.insert(alloc, key, hash),
        None => {
            let mut node = Node::new();
            node.insert(alloc, key, hash)?;
            *child = Some(Box::new(alloc, node)?);
            Ok(())
        }
    }
}
