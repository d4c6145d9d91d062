//! Messages that join a log and its trie, and the records of those that are new.
ghost use Rattle.std.specs.Prelude.{◌≡◌, ◌≢◌, ◌↔◌, ◌++◌, ◌∷◌, ◌&&◌, [], None, Some, map, false, true, is_none, if◌then◌else◌, IfOk, IfErr, OnOk, OnErr, Err};
ghost use Rattle.field_merge.specs.Log.{join, join_one};
ghost use Rattle.field_merge.specs.Messages.{IsMessage, AreMessages};
ghost use Rattle.field_merge.specs.Log.{at_stamp, has_field, latest};
ghost use Rattle.field_values.specs.Names.{FieldNames};
ghost use Rattle.minute_trie.specs.Trie.{is_spent, IsTrieOf};
ghost use Rattle.kept_messages.specs.News.{new_in};
ghost use Rattle.kept_messages.specs.Pairs.{pairs_of};
ghost use Rattle.kept_messages.specs.Records.{record_of, kept_set, IsStartFault, HasFirstStamp};
ghost use Rattle.kept_messages.specs.declared.join.StartFault.TheVariants.{NoMemory as OutOfMemory};

use crate::record::{read_record, write_record};
use budget_ports::Record;
use field_merge::{Entered, Log, Message};
use field_values::NoMemory;
use minute_trie::{Trie, order_free};
use std::alloc::Global;

/// Why records have no message set.
#[derive(Clone, Copy, Debug, PartialEq, Eq)]
pub enum StartFault {
    /// The record with this index, counted from 0, is the first that keeps no message.
    BadRecord { index: usize },
    /// Memory ran out.
    NoMemory,
}

impl From<NoMemory> for StartFault {
    ghost from_gives = { λ _ fault. fault ≡ OutOfMemory };

    fn from(_error: NoMemory) -> StartFault {
        StartFault::NoMemory
    }
}

/// Joins a message, and adds its timestamp to the log's trie where it is new. Says whether it is, and
/// whether the message is now the latest of its field. After want of memory the log or the trie may have
/// the message.
pub fn enter(log: &mut Log, trie: &mut Trie, message: Message) -> Result<Entered, NoMemory>
    requires live { log.old.spent ≡ false }
    requires trie_live { is_spent trie.old ≡ false }
    requires right { IsTrieOf (pairs_of log.old.messages) trie.old }
    requires valid { IsMessage message }
    ensures live { OnOk result (log.new.spent ≡ false) }
    ensures trie_live { OnOk result (is_spent trie.new ≡ false) }
    ensures right { OnOk result (IsTrieOf (pairs_of log.new.messages) trie.new) }
    ensures joined { OnOk result (log.new.messages ≡ join_one log.old.messages message) }
    ensures fresh { IfOk result (λ entered. entered.fresh ≡ is_none (at_stamp log.old.messages message.stamp)) }
    ensures latest { IfOk result (λ entered. (f : FieldNames) → latest log.new.messages f ≡ (if entered.latest && has_field f message then Some message else latest log.old.messages f)) }
    ensures changed { IfOk result (λ entered. (entered.latest ≡ true) ↔ (latest log.old.messages message.field ≢ latest log.new.messages message.field)) }
    ensures memory { OnErr result (at_stamp log.old.messages message.stamp ≡ None) }
{
    // The log keeps its messages in another order than that in which they come.
    order_free();
    let stamp = message.stamp;
    let entered = log.enter(message)?;
    if entered.fresh {
        trie.insert(&stamp)?;
    }
    Ok(entered)
}

/// The log of the messages that records keep, joined in the order of the records, and its trie. So of
/// records with one timestamp the first counts.
///
/// # Errors
///
/// `BadRecord` for the first record that keeps no message. Where the key of the very first one is no
/// timestamp, this is told before memory is taken.
pub fn read_log(alloc: Global, records: &[Record]) -> Result<(Log, Trie), StartFault>
    ensures messages { IfOk result (λ l. kept_set records.now ≡ Ok l.0.messages) }
    ensures live { IfOk result (λ l. l.0.spent ≡ false) }
    ensures valid { IfOk result (λ l. AreMessages l.0.messages) }
    ensures trie_live { IfOk result (λ l. is_spent l.1 ≡ false) }
    ensures right { IfOk result (λ l. IsTrieOf (pairs_of l.0.messages) l.1) }
    ensures err { IfErr result (IsStartFault (kept_set records.now)) }
    ensures memory { result ≡ Err OutOfMemory → HasFirstStamp records.now }
{
    let mut log = Log::new(alloc);
    let mut trie = Trie::new(alloc);
    for (index, kept) in records.iter().enumerate() {
        let Some(message) = read_record(alloc, kept)? else {
            return Err(StartFault::BadRecord { index });
        };
        enter(&mut log, &mut trie, message)?;
    }
    Ok((log, trie))
}

/// Joins a message to a log and its trie, and adds its record to a batch where it is new. Says what `enter`
/// says. After want of memory the log or the trie may have the message.
pub fn join_message(
    alloc: Global,
    log: &mut Log,
    trie: &mut Trie,
    message: &Message,
    batch: &mut Vec<Record>,
) -> Result<Entered, NoMemory>
    requires live { log.old.spent ≡ false }
    requires trie_live { is_spent trie.old ≡ false }
    requires right { IsTrieOf (pairs_of log.old.messages) trie.old }
    requires valid { IsMessage message.now }
    ensures live { OnOk result (log.new.spent ≡ false) }
    ensures trie_live { OnOk result (is_spent trie.new ≡ false) }
    ensures right { OnOk result (IsTrieOf (pairs_of log.new.messages) trie.new) }
    ensures joined { OnOk result (log.new.messages ≡ join_one log.old.messages message.now) }
    ensures batch { OnOk result (batch.new.items ≡ batch.old.items ++ map record_of (new_in log.old.messages (message.now ∷ []))) }
    ensures fresh { IfOk result (λ entered. entered.fresh ≡ is_none (at_stamp log.old.messages message.now.stamp)) }
    ensures latest { IfOk result (λ entered. (f : FieldNames) → latest log.new.messages f ≡ (if entered.latest && has_field f message.now then Some message.now else latest log.old.messages f)) }
    ensures changed { IfOk result (λ entered. (entered.latest ≡ true) ↔ (latest log.old.messages message.now.field ≢ latest log.new.messages message.now.field)) }
{
    let kept = write_record(alloc, message)?;
    let told = enter(log, trie, message.copy()?)?;
    push_if(told.fresh, batch, kept)?;
    Ok(told)
}

/// Adds a record where it is new.
fn push_if(is_new: bool, batch: &mut Vec<Record>, kept: Record) -> Result<(), NoMemory>
    ensures { OnOk result (batch.new.items ≡ batch.old.items ++ (if is_new then kept ∷ [] else [])) }
{
    if is_new {
        batch.push(kept)?;
    }
    Ok(())
}

/// Joins messages to a log and its trie, and adds the records of the new ones to a batch, in the order
/// in which they come. After want of memory the log, the trie or the batch may have some of them.
pub fn join_all(
    alloc: Global,
    log: &mut Log,
    trie: &mut Trie,
    messages: &[Message],
    batch: &mut Vec<Record>,
) -> Result<(), NoMemory>
    requires live { log.old.spent ≡ false }
    requires trie_live { is_spent trie.old ≡ false }
    requires right { IsTrieOf (pairs_of log.old.messages) trie.old }
    requires valid { AreMessages messages.now }
    ensures live { OnOk result (log.new.spent ≡ false) }
    ensures trie_live { OnOk result (is_spent trie.new ≡ false) }
    ensures right { OnOk result (IsTrieOf (pairs_of log.new.messages) trie.new) }
    ensures joined { OnOk result (log.new.messages ≡ join log.old.messages messages.now) }
    ensures batch { OnOk result (batch.new.items ≡ batch.old.items ++ map record_of (new_in log.old.messages messages.now)) }
    ensures memory { OnErr result (messages.now ≢ []) }
{
    for message in messages {
        join_message(alloc, log, trie, message, batch)?;
    }
    Ok(())
}
