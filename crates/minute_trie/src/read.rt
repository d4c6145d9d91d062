//! Reading a trie from its JSON.
ghost use Rattle.std.specs.Prelude.{◌≡◌, ◌≤◌, ◌<◌, IfOk, IfErr};
ghost use Rattle.serde_json.specs.Find.{get};
ghost use Rattle.serde_json.specs.View.{view, members_view};
ghost use Rattle.minute_trie.specs.Names.{child_name};
ghost use Rattle.minute_trie.specs.Faults.{first_fault, of_child, all_known, is_node, is_known, hash_of_node, IsTrieFault};
ghost use Rattle.minute_trie.specs.Steps.{IsReading, IsReadingBelow};

use crate::key::Digit;
use crate::node::{HASH, Node};
use serde_json::{Map, Value};
use std::alloc::Global;

/// Why a text is no trie: the first fault, depth first, a node before its children and they
/// ascending.
#[derive(Clone, Copy, Debug, PartialEq, Eq)]
pub enum TrieFault {
    /// It is no JSON, its objects and arrays nest deeper than 127, or a number in it is too large
    /// for a float of 64 bits.
    NotJson,
    /// A node is no object, has a member other than `0`, `1`, `2` and `hash`, or a `hash` that
    /// is no whole number of signed 32 bits (`1.0` and `-0` are none). The root has the depth 0.
    BadNode { depth: u32 },
    /// A value stands at the depth 17, where no key reaches.
    TooDeep,
    /// There is no memory for the trie. It tells nothing of the text.
    NoMemory,
}

/// The node of a value, where so many levels may stand, this one included.
#[cycle(read)]
pub fn read_node(alloc: Global, value: &Value, levels: u32) -> Result<Node, TrieFault>
    requires { levels ≤ 17 }
    ensures ok { IfOk result (IsReading levels (view value.now)) }
    ensures err { IfErr result (IsTrieFault (first_fault levels (view value.now))) }
{
    if levels == 0 {
        return Err(TrieFault::TooDeep);
    }
    if !is_trie_node(value) {
        return Err(TrieFault::BadNode { depth: 17 - levels });
    }
    let zero = read_child(alloc, value, Digit::Zero, levels - 1)?;
    let one = read_child(alloc, value, Digit::One, levels - 1)?;
    let two = read_child(alloc, value, Digit::Two, levels - 1)?;
    Ok(Node {
        hash: hash_of(value),
        zero,
        one,
        two,
    })
}

/// The child behind the digit, where it is there.
#[cycle(read)]
fn read_child(
    alloc: Global,
    value: &Value,
    digit: Digit,
    levels: u32,
) -> Result<Option<Box<Node>>, TrieFault>
    requires { levels < 17 }
    ensures ok { IfOk result (IsReadingBelow levels (get (child_name digit) (view value.now))) }
    ensures err { IfErr result (IsTrieFault (of_child (first_fault levels) (get (child_name digit) (view value.now)))) }
{
    match value.get(digit.name()) {
        None => Ok(None),
        Some(child) => {
            let node = read_node(alloc, child, levels)?;
            match Box::new(alloc, node) {
                Ok(node) => Ok(Some(node)),
                Err(_) => Err(TrieFault::NoMemory),
            }
        }
    }
}

/// The hash of a node, 0 where it has none.
fn hash_of(value: &Value) -> u32
    ensures { result ≡ hash_of_node (view value.now) }
{
    match value.get(HASH) {
        None => 0,
        Some(hash) => match hash.as_i64() {
            None => 0,
            Some(hash) => match i32::try_from(hash) {
                Ok(hash) => hash.cast_unsigned(),
                Err(_) => 0,
            },
        },
    }
}

/// Whether the value is an object with no members but those of a node.
fn is_trie_node(value: &Value) -> bool
    ensures { result ≡ is_node (view value.now) }
{
    match value.as_object() {
        None => false,
        Some(members) => has_known_members(members),
    }
}

/// Whether each member has a name and a value that a node may have.
fn has_known_members(members: &Map<String, Value>) -> bool
    ensures { result ≡ all_known (members_view members.now.entries) }
{
    for (name, member) in members.iter() {
        if !is_known_member(name.as_str(), member) {
            return false;
        }
    }
    true
}

/// Whether a node may have the member: a child, or a hash.
fn is_known_member(name: &str, member: &Value) -> bool
    ensures { result ≡ is_known name.now (view member.now) }
{
    if name == Digit::Zero.name() || name == Digit::One.name() || name == Digit::Two.name() {
        return true;
    }
    if name != HASH {
        return false;
    }
    match member.as_i64() {
        None => false,
        Some(hash) => -(1 << 31) <= hash && hash < 1 << 31,
    }
}
