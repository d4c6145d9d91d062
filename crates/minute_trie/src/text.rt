//! The JSON text of a trie.
ghost use Rattle.std.specs.Prelude.{◌≡◌, ◌≤◌, ◌<◌, ◌++◌, OnOk, [], codes, string_bytes};
ghost use Rattle.minute_trie.specs.Held.{at_node, at_below};
ghost use Rattle.minute_trie.specs.Json.{map_text, members_text, child_text, hash_text, key_text};

use crate::key::Digit;
use crate::node::{HASH, Node};
use field_values::NoMemory;
use itoa::Buffer;

/// Writes a node at the end of the text, with so many digits below it.
#[cycle(write)]
pub fn write_node(node: &Node, digits: u32, out: &mut String) -> Result<(), NoMemory>
    requires { digits ≤ 16 }
    ensures { OnOk result (string_bytes out.new ≡ string_bytes out.old ++ map_text digits (at_node node.now)) }
{
    out.push_str("{")?;
    write_members(node, digits, out)?;
    write_hash(node.hash, out)
}

/// Writes the members of the children.
#[cycle(write)]
fn write_members(node: &Node, digits: u32, out: &mut String) -> Result<(), NoMemory>
    requires { digits ≤ 16 }
    ensures { OnOk result (string_bytes out.new ≡ string_bytes out.old ++ members_text digits (at_node node.now)) }
{
    if digits == 0 {
        return Ok(());
    }
    write_child(Digit::Zero, &node.zero, digits - 1, out)?;
    write_child(Digit::One, &node.one, digits - 1, out)?;
    write_child(Digit::Two, &node.two, digits - 1, out)?;
    Ok(())
}

/// Writes the member of a child, where the child is there.
#[cycle(write)]
fn write_child(
    digit: Digit,
    child: &Option<Box<Node>>,
    digits: u32,
    out: &mut String,
) -> Result<(), NoMemory>
    requires { digits < 16 }
    ensures { OnOk result (string_bytes out.new ≡ string_bytes out.old
        ++ child_text digit (map_text digits (at_below child.now)) (at_below child.now [])) }
{
    match child {
        None => Ok(()),
        Some(node) => {
            write_key(digit.name(), out)?;
            write_node(node, digits, out)?;
            out.push_str(",")?;
            Ok(())
        }
    }
}

/// Writes what stands before the value of the member of this name.
fn write_key(name: &str, out: &mut String) -> Result<(), NoMemory>
    ensures { OnOk result (string_bytes out.new ≡ string_bytes out.old ++ key_text name.now) }
{
    out.push_str("\"")?;
    out.push_str(name)?;
    out.push_str("\":")?;
    Ok(())
}

/// Writes the hash, which is the last member of a node, and the end of the node.
fn write_hash(hash: u32, out: &mut String) -> Result<(), NoMemory>
    ensures { OnOk result (string_bytes out.new ≡ string_bytes out.old ++ (hash_text hash ++ codes "}")) }
{
    let mut digits = Buffer::new();
    write_key(HASH, out)?;
    out.push_str(digits.format(hash.cast_signed()))?;
    out.push_str("}")?;
    Ok(())
}
