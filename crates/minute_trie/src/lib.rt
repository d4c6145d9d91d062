//! The pruned hash trie of minutes, by which two devices find from when on they exchange messages.
//!
//! It is the trie of Actual Budget's `crdt` package (`packages/crdt/src/crdt/merkle.ts`): each
//! timestamp stands under its minute, written to the base 3, and each node has the XOR of the
//! hashes below it. A key has 16 digits here, padded on the left with zeros.
#![tactic(auto)]

mod hash;
mod key;
mod laws;
mod node;
mod read;
mod text;
mod trie;
mod walk;

pub use hash::hash32;
pub use key::Digit;
pub use laws::{
    differences_are_found, faults_are_first, order_free, pruned_for_good, reads_back,
    rounds_are_made, rounds_by_minute, stamps_are_placed, tries_are_maps,
};
pub use read::TrieFault;
pub use trie::Trie;
