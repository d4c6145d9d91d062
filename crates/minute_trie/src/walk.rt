//! The walk over two tries to where they differ.
ghost use Rattle.std.specs.Prelude.{◌≡◌, ◌<◌, ◌≤◌, ◌^◌, ◌+◌, ◌*◌, []};
ghost use Rattle.minute_trie.specs.Held.{at_node, at_below};
ghost use Rattle.minute_trie.specs.Diff.{turn_of, digit_by_turn, way_down, walk, padded, digit_value};

use crate::key::Digit;
use crate::node::Node;

/// What the walk does at a child.
#[derive(Clone, Copy, Debug, PartialEq, Eq)]
pub enum Turn {
    /// It goes on to the next child.
    On,
    /// It goes down to this one.
    Down,
    /// It ends at the parent.
    Stop,
}

/// What the walk does at two children behind one digit.
fn turn_between(left: &Option<Box<Node>>, right: &Option<Box<Node>>) -> Turn
    ensures { result ≡ turn_of (at_below left.now []) (at_below right.now []) }
{
    match (left, right) {
        (None, None) => Turn::On,
        (Some(left), Some(right)) => {
            if left.hash() == right.hash() {
                Turn::On
            } else {
                Turn::Down
            }
        }
        _ => Turn::Stop,
    }
}

/// The digit by which the walk goes down, if it does.
fn next_digit(left: &Node, right: &Node) -> Option<Digit>
    ensures { result ≡ way_down (at_node left.now) (at_node right.now) }
{
    let at_two = digit_by_turn(turn_between(&left.two, &right.two), Digit::Two, None);
    let at_one = digit_by_turn(turn_between(&left.one, &right.one), Digit::One, at_two);
    digit_by_turn(turn_between(&left.zero, &right.zero), Digit::Zero, at_one)
}

/// The digit by which the walk goes down once it came to a child, where the next children give `next`.
fn digit_by_turn(turn: Turn, digit: Digit, next: Option<Digit>) -> Option<Digit>
    ensures { result ≡ digit_by_turn turn digit next }
{
    match turn {
        Turn::On => next,
        Turn::Down => Some(digit),
        Turn::Stop => None,
    }
}

/// The number of a digit with so many digits after it.
fn placed(digit: Digit, levels: u32, rest: u64) -> u64
    requires levels { levels < 16 }
    requires rest { rest < 3 ^ levels }
    ensures number { result ≡ digit_value digit * 3 ^ levels + rest }
    ensures bound { result < 3 ^ (levels + 1) }
{
    let place = 3u64.pow(levels);
    match digit {
        Digit::Zero => rest,
        Digit::One => place + rest,
        Digit::Two => 2 * place + rest,
    }
}

/// The number of the string where the walk ends, padded to so many digits.
#[cycle(walk)]
pub fn walk(left: &Node, right: &Node, levels: u32) -> u64
    requires { levels ≤ 16 }
    ensures number { result ≡ padded levels (walk levels (at_node left.now) (at_node right.now)) }
    ensures bound { result < 3 ^ levels }
{
    if levels == 0 {
        return 0;
    }
    match next_digit(left, right) {
        None => 0,
        Some(digit) => {
            let rest = walk_below(left.child(digit), right.child(digit), levels - 1);
            placed(digit, levels - 1, rest)
        }
    }
}

/// The same of two children behind one digit; where one is not there, the walk ends.
#[cycle(walk)]
fn walk_below(left: &Option<Box<Node>>, right: &Option<Box<Node>>, levels: u32) -> u64
    requires { levels < 16 }
    ensures number { result ≡ padded levels (walk levels (at_below left.now) (at_below right.now)) }
    ensures bound { result < 3 ^ levels }
{
    match (left, right) {
        (Some(left), Some(right)) => walk(left, right, levels),
        _ => 0,
    }
}
