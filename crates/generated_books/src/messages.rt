//! The generated messages, by their numbers.
ghost use Rattle.std.specs.Prelude.{◌≡◌, ◌<◌, ◌≤◌, ◌+◌, ◌-◌, ◌*◌, codes, IfOk};
ghost use Rattle.field_merge.specs.Messages.{AreMessages};
ghost use Rattle.generated_books.specs.Generated as meant;
ghost use Rattle.generated_books.specs.Numbers.{AreDraws, message_at, messages_at};

use crate::contents::content_at;
use field_merge::Message;
use field_values::NoMemory;
use hybrid_clock::{Node, Stamp};
use std::alloc::Global;

/// The time of the first message: 2024-01-01T00:00:00.000Z.
const FIRST: u64 = 1_704_067_200_000;

/// The node of all messages.
#[tactic(auto, using(crate::proofs::Nodes::of_messages))]
fn node() -> Node
    ensures { result ≡ codes "0000000000000gen" }
{
    match Node::make(b"0000000000000gen") {
        Ok(node) => node,
        // It is a node.
        Err(_) => unreachable!(),
    }
}

/// The time of the message with a number.
pub(crate) fn time_at(at: u32) -> u64
    ensures { result ≡ 1_704_067_200_000 + 1000 * at }
{
    FIRST + 1000 * at as u64
}

/// The message with a number.
#[tactic(auto, unfolding(crate::specs::Numbers::message_at))]
fn message_at(alloc: Global, draws: &[u32], at: u32, count: u32) -> Result<Message, NoMemory>
    requires draws { AreDraws draws.now count }
    requires few { count ≤ 100_000 }
    requires within { at < 15 + 4 * count }
    ensures { IfOk result (λ message. message ≡ message_at at) }
{
    let content = content_at(alloc, draws, at, count)?;
    Ok(Message {
        stamp: Stamp {
            millis: time_at(at),
            counter: 0,
            node: node(),
        },
        field: content.0,
        value: content.1,
    })
}

/// The messages with the numbers from one on and before another.
pub(crate) fn messages_between(
    alloc: Global,
    draws: &[u32],
    from: u32,
    to: u32,
    count: u32,
) -> Result<Vec<Message>, NoMemory>
    requires draws { AreDraws draws.now count }
    requires few { count ≤ 100_000 }
    requires ordered { from ≤ to }
    requires within { to ≤ 15 + 4 * count }
    ensures { IfOk result (λ messages. messages.items ≡ messages_at from (to - from)) }
{
    let mut messages = Vec::with_capacity(alloc, (to - from) as usize)?;
    for at in from..to {
        let message = message_at(alloc, draws, at, count)?;
        messages.push(message)?;
    }
    Ok(messages)
}
