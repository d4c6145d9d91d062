//! The trie of minutes.
ghost use Rattle.std.specs.Prelude.{◌≡◌, ◌<◌, ◌++◌, ◌∷◌, [], List, true, false, IfOk, IfErr, OnOk, OnErr};
ghost use Rattle.std.specs.Int.{w32, cast_signed};
ghost use Rattle.serde_json.specs.Errors.{IsMemory};
ghost use Rattle.hybrid_clock.specs.Stamp.{IsStamp, window};
ghost use Rattle.minute_trie.specs.Held.{or_zero};
ghost use Rattle.minute_trie.specs.Trie.{Pair, stamp_pair, held, is_spent, IsTrieOf};
ghost use Rattle.minute_trie.specs.Adding.{with_pair};
ghost use Rattle.minute_trie.specs.Diff.{difference};
ghost use Rattle.minute_trie.specs.Json.{trie_text};
ghost use Rattle.minute_trie.specs.Faults.{fault_of_text, IsReadingOf, IsTrieFault};

use crate::hash::hash32;
use crate::key::key_of;
use crate::node::Node;
use crate::read::{TrieFault, read_node};
use crate::text::write_node;
use crate::walk::walk;
use field_values::{NoMemory, Txt};
use hybrid_clock::Stamp;
use serde_json::{Error, Value};
use std::alloc::Global;

/// Room for the text of most tries.
const ROOM: usize = 1 << 12;

/// A trie of hashes by minute.
///
/// The trie of a list of timestamps has a root, and a node at each prefix of a key that is, as each
/// shorter prefix, among the two greatest below its parent, each with the XOR of the hashes of all
/// timestamps below it.
#[derive(Drop)]
pub struct Trie {
    root: Node,
    spent: bool,
    alloc: Global,
}

impl Trie {
    /// The trie of no timestamps.
    pub fn new(alloc: Global) -> Trie
        ensures empty { IsTrieOf [] result }
        ensures live { is_spent result ≡ false }
    {
        Trie {
            root: Node::new(),
            spent: false,
            alloc,
        }
    }

    /// Adds a timestamp, with the hash of its text in its minute. After an error the trie is spent.
    pub fn insert(&mut self, stamp: &Stamp) -> Result<(), NoMemory>
        requires live { is_spent self.old ≡ false }
        requires stamp { IsStamp stamp.now }
        ensures inserted { OnOk result ((pairs : List Pair) → IsTrieOf pairs self.old
            → IsTrieOf (pairs ++ stamp_pair stamp.now ∷ []) self.new) }

        // Also on a trie that was read and is that of no list.
        ensures added { OnOk result (held self.new ≡ with_pair (stamp_pair stamp.now) (held self.old)) }
        ensures live { OnOk result (is_spent self.new ≡ false) }
        ensures spent { OnErr result (is_spent self.new ≡ true) }
    {
        let mut text = [0; 46];
        stamp.write_text(&mut text);
        self.insert_hash(stamp.minute(), hash32(&text).cast_signed())
    }

    /// Adds a hash in a minute, counted from the start of 1970. After an error the trie is spent.
    pub fn insert_hash(&mut self, minute: u32, hash: i32) -> Result<(), NoMemory>
        requires live { is_spent self.old ≡ false }
        requires window { minute < window }
        ensures inserted { OnOk result ((pairs : List Pair) → IsTrieOf pairs self.old
            → IsTrieOf (pairs ++ (minute, hash) ∷ []) self.new) }

        // Also on a trie that was read and is that of no list.
        ensures added { OnOk result (held self.new ≡ with_pair (minute, hash) (held self.old)) }
        ensures live { OnOk result (is_spent self.new ≡ false) }
        ensures spent { OnErr result (is_spent self.new ≡ true) }
    {
        self.spent = true;
        let key = key_of(minute);
        self.root.insert(self.alloc, &key, hash.cast_unsigned())?;
        self.spent = false;
        Ok(())
    }

    /// The hash at the root: the XOR of all hashes that were added, and of that at the root of the text
    /// where the trie was read from one.
    pub fn root(&self) -> i32
        ensures { result ≡ cast_signed w32 (or_zero (held self.now [])) }
    {
        self.root.hash().cast_signed()
    }

    /// The first moment of a minute from which on the two exchange what they have, in
    /// milliseconds since 1970, or `None` where their roots have one hash. Where both have
    /// pruned they may also differ before it: that is left to a later round. It takes no memory.
    pub fn diff(&self, other: &Trie) -> Option<u64>
        ensures { result ≡ difference (held self.now) (held other.now) }
    {
        if self.root.hash() == other.root.hash() {
            return None;
        }
        Some(walk(&self.root, &other.root, 16) * 60_000)
    }

    /// The JSON text: each node is an object of its children `0`, `1` and `2`, as far as they
    /// are there, and then its `hash`, with no space.
    pub fn to_json(&self) -> Result<Txt, NoMemory>
        ensures { IfOk result (λ text. text ≡ trie_text (held self.now)) }
    {
        let mut text = String::with_capacity(self.alloc, ROOM)?;
        write_node(&self.root, 16, &mut text)?;
        Ok(Txt::new(text))
    }

    /// The trie of a JSON text, or the first fault of the text. A `hash` that is missing is 0,
    /// and three children are kept. Of the members of an object that have one name the last
    /// counts alone, and those before it have but to be JSON.
    pub fn from_json(alloc: Global, text: &Txt) -> Result<Trie, TrieFault>
        ensures read { IfOk result (IsReadingOf text.now) }
        ensures live { IfOk result (λ trie. is_spent trie ≡ false) }
        ensures refused { IfErr result (IsTrieFault (fault_of_text text.now)) }
    {
        match Value::from_str(alloc, text.as_str()) {
            Ok(value) => Ok(Trie {
                root: read_node(alloc, &value, 17)?,
                spent: false,
                alloc,
            }),
            Err(error) => Err(fault_of_error(&error)),
        }
    }

    /// Whether an insertion ran out of memory. Nothing may then be added, and what
    /// [`Trie::root`], [`Trie::diff`] and [`Trie::to_json`] answer means nothing: they tell of
    /// what was left behind, which may be the trie of no list.
    pub fn is_spent(&self) -> bool
        ensures { result ≡ is_spent self.now }
    {
        self.spent
    }
}

fn fault_of_error(error: &Error) -> TrieFault
    ensures memory { IsMemory error.now → result ≡ TrieFault.NoMemory }
    ensures text { ¬ IsMemory error.now → result ≡ TrieFault.NotJson }
{
    if error.is_memory() {
        TrieFault::NoMemory
    } else {
        TrieFault::NotJson
    }
}
