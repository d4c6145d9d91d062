//! The node of a timestamp.
ghost use Rattle.std.specs.Prelude.{◌≡◌, not, position};
ghost use Rattle.std.specs.Char.{is_ascii_alphanumeric};
ghost use Rattle.hybrid_clock.specs.Node as spec;

use std::hash::{Hash, Hasher};
use std::marker::Model;

/// The sixteen characters by which the timestamps of one device differ from all others':
/// letters and digits of ASCII, where case counts, and not all of them `0`.
#[derive(Clone, Copy, Debug, PartialEq, Eq, PartialOrd, Ord)]
pub struct Node {
    bytes: [u8; 16],
}

/// Why a text names no node.
#[derive(Clone, Copy, Debug, PartialEq, Eq)]
pub enum NodeFault {
    /// It has no character.
    Empty,
    /// It has `len` bytes, more than sixteen.
    TooLong { len: usize },
    /// The byte at the place `at`, counted from 0, is the first that is no letter or digit.
    BadByte { at: usize },
    /// Each character is `0`.
    Zero,
}

impl Model for Node {
    ghost use Rattle.std.specs.Prelude.{List, ℕ};
    ghost use Rattle.hybrid_clock.specs.Node.{IsNode};

    ghost Value = { List ℕ };

    ghost view = { λ n. n.bytes };

    ghost invariant = { λ n. IsNode n.bytes };

    ghost inverse = { λ bytes. record { bytes = bytes } };
}

/// Its sixteen bytes are fed to a hasher at once, which takes two steps of it and not one for each byte.
impl Hash for Node {
    ghost use Rattle.std.specs.Prelude.{[], ◌∷◌};
    ghost use Rattle.std.proofs.Common.{rules};
    ghost use Rattle.std.specs.Cmp.Rules.{comparing, hashing};

    ghost hash_input = { λ node. node ∷ [] };

    ghost respects_eq = { Prim.search (hashing, comparing, rules) };

    fn hash<H: Hasher>(&self, state: &mut H) {
        state.write(&self.bytes);
    }
}

impl Node {
    ghost use Rattle.std.specs.Prelude.{◌≡◌, ◌≤◌, length, IfOk};
    ghost use Rattle.hybrid_clock.specs.Node.{IsNode, node_of, padded};

    /// The node that a text of one to sixteen letters and digits names, which is that text
    /// with `0` on its left up to sixteen characters.
    ///
    /// # Errors
    ///
    /// Tested in this order: `Empty`, `TooLong`, `BadByte`, `Zero`.
    #[tactic(auto, unfolding(crate::specs::Node::node_of))]
    pub fn make(text: &[u8]) -> Result<Node, NodeFault>
        ensures is { result ≡ node_of text.now }
        ensures node { IfOk result IsNode }
    {
        if text.is_empty() {
            return Err(NodeFault::Empty);
        }
        if text.len() > 16 {
            return Err(NodeFault::TooLong { len: text.len() });
        }
        if let Some(at) = bad_byte(text) {
            return Err(NodeFault::BadByte { at });
        }
        if is_zeros(text) {
            return Err(NodeFault::Zero);
        }
        Ok(Node::padded(text))
    }

    /// At most sixteen characters, with `0` on their left up to sixteen.
    fn padded(text: &[u8]) -> Node
        requires short { length text.now ≤ 16 }
        requires node { IsNode (padded text.now) }
        ensures { result ≡ padded text.now }
    {
        let mut bytes = [b'0'; 16];
        bytes[16 - text.len()..].copy_from_slice(text);
        Node { bytes }
    }

    /// The node of these characters.
    pub(crate) fn of(bytes: [u8; 16]) -> Node
        requires { IsNode bytes }
        ensures { result ≡ bytes }
    {
        Node { bytes }
    }

    /// Its sixteen characters.
    pub fn bytes(&self) -> [u8; 16]
        ensures value { result ≡ self.now }
        ensures node { IsNode result }
    {
        self.bytes
    }
}

/// The place of the first byte that is no letter or digit.
fn bad_byte(text: &[u8]) -> Option<usize>
    ensures { result ≡ position (λ b. not (is_ascii_alphanumeric b)) text.now }
{
    text.iter().position(|b| !b.is_ascii_alphanumeric())
}

/// Whether each byte is `0`.
pub(crate) fn is_zeros(text: &[u8]) -> bool
    ensures { result ≡ spec.is_zeros text.now }
{
    text.iter().all(|b| *b == b'0')
}
