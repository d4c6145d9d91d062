//! The messages after a text, taken from the end of a log.
ghost use Rattle.std.specs.Prelude.{◌≡◌, IfOk};
ghost use Rattle.std.specs.Ordering.{is_gt, nat_cmp};
ghost use Rattle.std.specs.Cmp.Lexicographic.{slice_cmp};
ghost use Rattle.std.specs.BTreeMap.{values};
ghost use Rattle.hybrid_clock.specs.Stamp.{IsStamp, stamp_text};
ghost use Rattle.field_merge.specs.Stored.{AreEntries};
ghost use Rattle.field_merge.specs.Messages.{AreMessages};
ghost use Rattle.field_merge.specs.Log.{messages_after};

use crate::index::Messages;
use crate::message::Message;
use crate::shared::Shared;
use field_values::NoMemory;
use hybrid_clock::order_of_texts;
use std::alloc::Global;

/// Whether the text of a message's timestamp is greater than a text, by bytes.
fn is_after(message: &Shared, text: &[u8]) -> bool
    requires { IsStamp message.now.stamp }
    ensures { result ≡ is_gt (slice_cmp nat_cmp (stamp_text message.now.stamp) text.now) }
{
    let mut own = [0u8; 46];
    message.message().stamp.write_text(&mut own);
    own.as_slice().cmp(&text).is_gt()
}

/// Copies of the messages whose timestamp's text is greater than a text, by
/// timestamp.
pub(crate) fn copies_after(
    alloc: Global,
    messages: &Messages,
    text: &[u8],
) -> Result<Vec<Message>, NoMemory>
    requires { AreEntries messages.now.entries }
    ensures messages { IfOk result (λ found. found.items ≡ messages_after text.now (values messages.now)) }
    ensures valid { IfOk result (λ found. AreMessages found.items) }
{
    order_of_texts();
    let mut left = messages.values();
    let mut found = Vec::new(alloc);
    while let Some(message) = left.next_back() {
        if !is_after(message, text) {
            break;
        }
        found.push(message.own()?)?;
    }
    found.reverse();
    Ok(found)
}
