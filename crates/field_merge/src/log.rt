//! The message log.
ghost use Rattle.std.specs.Prelude.{◌≡◌, ◌≢◌, ◌↔◌, ◌&&◌, cond, None, Some, ◌+◌, IfOk, OnOk, OnErr, false, true, [], ◌∷◌, ◌++◌, List, length};
ghost use Rattle.std.specs.BTreeSet.{IsOrdered};
ghost use Rattle.field_values.specs.Names.{FieldNames, names_cmp};
ghost use Rattle.std.specs.Option.{option_copied, is_none};
ghost use Rattle.std.specs.BTreeMap.{values};
ghost use Rattle.field_merge.specs.Messages.{AreMessages, IsMessage};
ghost use Rattle.field_merge.specs.Log.{IsRising, at_stamp, field_text, has_field, join, last_stamp, latest, messages_after, value_in};
ghost use Rattle.field_merge.specs.Joining.{AreChanged, HasOneEach, HaveSame};
ghost use Rattle.field_merge.specs.declared.message.Message.{Message};

use crate::hashed::HashedField;
use crate::index::{Index, Messages, enter, is_known, latest_by_field, take_in, winner_among};
use crate::later::copies_after;
use crate::message::Message;
use crate::pieces::push_ended_line;
use field_values::{Field, Items, NoMemory, Txt, Value};
use hybrid_clock::Stamp;
use std::alloc::Global;
use std::collections::{BTreeMap, BTreeSet};
use std::marker::Model;

/// All messages that a device knows, by timestamp, with the latest message of
/// each field at hand.
///
/// Of the messages with one timestamp the log keeps the first. The latest
/// message of a field, the one with the greatest timestamp, gives the field's
/// value, in whatever order messages come. A call that answers `NoMemory`
/// and may have changed the log leaves it spent; then nothing but `is_spent`
/// may be asked of it.
#[derive(Drop)]
pub struct Log {
    alloc: Global,
    messages: Messages,
    index: Index,
    spent: bool,
}

impl Model for Log {
    ghost use Rattle.std.specs.BTreeMap.{values};
    ghost use Rattle.field_merge.specs.Log.{LogState};
    ghost use Rattle.field_merge.specs.Stored.{IsStored};

    ghost Value = { LogState };

    ghost view = { λ l. record { messages = values l.messages; spent = l.spent } };

    ghost invariant = { λ l. IsStored l.messages.entries l.index.entries l.spent };
}

/// What a join tells.
#[derive(Debug, Drop)]
pub struct Joined {
    /// How many messages had a timestamp that the log did not have.
    pub added: usize,
    /// Each field whose latest message is now another one, once.
    pub changed: Items<Field>,
}

impl Joined {
    ghost use Rattle.std.specs.Prelude.{◌≡◌, IfOk};

    /// A copy in memory of its own.
    pub fn copy(&self, alloc: Global) -> Result<Joined, NoMemory>
        ensures { IfOk result (λ j. j ≡ self.now) }
    {
        Ok(Joined {
            added: self.added,
            changed: self.changed.copy(alloc)?,
        })
    }
}

/// What the entry of a message tells.
#[derive(Clone, Copy, Debug, PartialEq, Eq)]
pub struct Entered {
    /// Whether the log did not have its timestamp.
    pub fresh: bool,
    /// Whether the message is now the latest of its field, which had another one before, or none.
    pub latest: bool,
}

/// The marked fields as a list.
fn fields_of(alloc: Global, marked: BTreeSet<Field>) -> Result<Items<Field>, NoMemory>
    ensures all { IfOk result (λ fields. fields ≡ marked.keys) }
    ensures ordered { IsOrdered names_cmp marked }
{
    let fields: Vec<Field> = marked.into_iter().collect(alloc)?;
    Ok(Items::new(fields))
}

impl Log {
    /// A log without messages.
    pub fn new(alloc: Global) -> Log
        ensures { result ≡ record { messages = []; spent = false } }
    {
        Log {
            alloc,
            messages: BTreeMap::new(alloc),
            index: BTreeMap::new(alloc),
            spent: false,
        }
    }

    /// Whether a want of memory has spoilt the log.
    pub fn is_spent(&self) -> bool
        ensures { result ≡ self.now.spent }
    {
        self.spent
    }

    /// Joins copies of the messages of a batch, one after the other. Joining the batch again would change nothing; what joins
    /// next might as well have stood behind the batch; and where equal timestamps mean equal messages in it, it joins as its
    /// messages do in any other order and number.
    pub fn join(&mut self, batch: &[Message]) -> Result<Joined, NoMemory>
        requires live { self.old.spent ≡ false }
        requires valid { AreMessages batch.now }
        ensures joined { OnOk result (self.new.messages ≡ join self.old.messages batch.now) }
        ensures again { OnOk result (join self.new.messages batch.now ≡ self.new.messages) }
        ensures in_turn { OnOk result ((more : List Message) → join self.new.messages more ≡ join self.old.messages (batch.now ++ more)) }
        ensures any_order { OnOk result ((other : List Message) → HasOneEach batch.now → HaveSame batch.now other → self.new.messages ≡ join self.old.messages other) }
        ensures added { IfOk result (λ j. length self.old.messages + j.added ≡ length self.new.messages) }
        ensures changed { IfOk result (λ j. AreChanged self.old.messages self.new.messages j.changed) }
        ensures kept { OnOk result (self.new.spent ≡ false) }
        ensures spent { OnErr result (self.new.spent ≡ true) }
    {
        self.spent = true;
        let mut added = 0;
        let mut changed = BTreeSet::new(self.alloc);
        for message in batch {
            if take_in(
                self.alloc,
                &mut self.messages,
                &mut self.index,
                &mut changed,
                message,
            )? {
                added += 1;
            }
        }
        let changed = fields_of(self.alloc, changed)?;
        self.spent = false;
        Ok(Joined { added, changed })
    }

    /// Joins one message, which moves into the log, and says whether its timestamp was new and
    /// whether it is now the latest message of its field. Each other field keeps its latest message.
    /// A message whose timestamp the log has takes no memory.
    pub fn enter(&mut self, message: Message) -> Result<Entered, NoMemory>
        requires live { self.old.spent ≡ false }
        requires valid { IsMessage message }
        ensures joined { OnOk result (self.new.messages ≡ join self.old.messages (message ∷ [])) }
        ensures fresh { IfOk result (λ e. e.fresh ≡ is_none (at_stamp self.old.messages message.stamp)) }
        ensures latest { IfOk result (λ e. (f : FieldNames) → latest self.new.messages f ≡ cond (e.latest && has_field f message) (Some message) (latest self.old.messages f)) }
        ensures memory { OnErr result (at_stamp self.old.messages message.stamp ≡ None) }
        ensures changed { IfOk result (λ e. (e.latest ≡ true) ↔ (latest self.old.messages message.field ≢ latest self.new.messages message.field)) }
        ensures kept { OnOk result (self.new.spent ≡ false) }
        ensures spent { OnErr result (self.new.spent ≡ true) }
    {
        if is_known(&self.messages, &message.stamp) {
            return Ok(Entered {
                fresh: false,
                latest: false,
            });
        }
        self.spent = true;
        let latest = enter(self.alloc, &mut self.messages, &mut self.index, message)?;
        self.spent = false;
        Ok(Entered {
            fresh: true,
            latest,
        })
    }

    /// Joins one message, as `enter` does, and says whether its timestamp was new.
    pub fn add(&mut self, message: Message) -> Result<bool, NoMemory>
        requires live { self.old.spent ≡ false }
        requires valid { IsMessage message }
        ensures joined { OnOk result (self.new.messages ≡ join self.old.messages (message ∷ [])) }
        ensures fresh { IfOk result (λ fresh. fresh ≡ is_none (at_stamp self.old.messages message.stamp)) }
        ensures memory { OnErr result (at_stamp self.old.messages message.stamp ≡ None) }
        ensures kept { OnOk result (self.new.spent ≡ false) }
        ensures spent { OnErr result (self.new.spent ≡ true) }
    {
        let entered = self.enter(message)?;
        Ok(entered.fresh)
    }

    /// The latest message of a field.
    pub fn winner(&self, field: &Field) -> Option<&Message>
        requires { self.now.spent ≡ false }
        ensures { option_copied result ≡ latest self.now.messages field.now }
    {
        let Ok(key) = HashedField::of(field) else {
            // the field has more copies than can be counted
            return winner_among(&self.index, field);
        };
        let message = self.index.get(&key)?;
        Some(message.message())
    }

    /// The value of a field: that of its latest message.
    pub fn value(&self, field: &Field) -> Option<&Value>
        requires { self.now.spent ≡ false }
        ensures { option_copied result ≡ value_in self.now.messages field.now }
    {
        let message = self.winner(field)?;
        Some(&message.value)
    }

    /// How many messages the log has.
    pub fn len(&self) -> usize
        requires { self.now.spent ≡ false }
        ensures count { result ≡ length self.now.messages }
        ensures rising { IsRising self.now.messages }
        ensures valid { AreMessages self.now.messages }
    {
        self.messages.len()
    }

    /// The greatest timestamp, that of the last message.
    pub fn last(&self) -> Option<Stamp>
        requires { self.now.spent ≡ false }
        ensures { result ≡ last_stamp self.now.messages }
    {
        match self.messages.last_key_value() {
            Some((stamp, _)) => Some(*stamp),
            None => None,
        }
    }

    /// Copies of the messages whose timestamp's text is greater than a text by
    /// bytes, from the oldest on. They cost the time that they take alone,
    /// however many older messages the log has.
    pub fn since(&self, text: &[u8]) -> Result<Items<Message>, NoMemory>
        requires { self.now.spent ≡ false }
        ensures messages { IfOk result (λ ms. ms ≡ messages_after text.now self.now.messages) }
        ensures valid { IfOk result AreMessages }
    {
        let found = copies_after(self.alloc, &self.messages, text)?;
        Ok(Items::new(found))
    }

    /// The lines of the latest message of each field, by dataset, row and
    /// column, each with a line feed.
    pub fn field_lines(&self) -> Result<Txt, NoMemory>
        requires { self.now.spent ≡ false }
        ensures { IfOk result (λ t. t ≡ field_text self.now.messages) }
    {
        let latest = latest_by_field(self.alloc, &self.index)?;
        let mut text = String::new(self.alloc);
        for arrival in &latest {
            push_ended_line(&mut text, arrival)?;
        }
        Ok(Txt::new(text))
    }
}
