//! The two maps of a log: its messages by timestamp, and the index of the
//! latest message of each field.
ghost use Rattle.std.specs.Prelude.{◌≡◌, ◌&&◌, ◌||◌, IfOk, OnOk, OnErr, List, None, Some, cond, not, true, false};
ghost use Rattle.std.specs.List.{find, list_any};
ghost use Rattle.std.specs.BTreeMap.{get, insert_entry, is_at, values, IsOrdered};
ghost use Rattle.std.specs.Option.{is_some, option_copied};
ghost use Rattle.std.specs.BTreeSet.{contains};
ghost use Rattle.field_values.specs.Names.{FieldNames, names_cmp};
ghost use Rattle.hybrid_clock.specs.Order.{stamp_cmp};
ghost use Rattle.field_merge.specs.declared.message.Message.{Message};
ghost use Rattle.field_merge.specs.Hashed.{hashed_cmp};
ghost use Rattle.field_merge.specs.Latest.{KeepsLatest};
ghost use Rattle.field_merge.specs.Messages.{AreMessages, IsMessage};
ghost use Rattle.field_merge.specs.Log.{by_stamp, has_field, has_stamp, join_one, latest, placed};
ghost use Rattle.field_merge.specs.Stored.{AreEntries, IsIndex, MarksChanged, Notes};

use crate::arrival::Arrival;
use crate::hashed::HashedField;
use crate::latest_messages::keep_latest;
use crate::message::Message;
use crate::shared::Shared;
use field_values::{Field, NoMemory};
use hybrid_clock::Stamp;
use std::alloc::Global;
use std::collections::btree_map::Entry;
use std::collections::{BTreeMap, BTreeSet};

/// The messages of a log, each under its own timestamp.
pub(crate) type Messages = BTreeMap<Stamp, Shared>;

/// The latest message of each field, by the numbers that are made of the fields.
pub(crate) type Index = BTreeMap<HashedField, Shared>;

/// The message with the names of an equal field, so that its own are not kept.
fn with_names_of(message: Message, field: &Field) -> Result<Message, NoMemory>
    requires { field.now ≡ message.field }
    ensures { IfOk result (λ m. m ≡ message) }
{
    Ok(Message {
        stamp: message.stamp,
        field: field.copy()?,
        value: message.value,
    })
}

/// Enters a message into the index where it is later than the one of its
/// field there, or there is none, and says whether it did. Where the index
/// has the field, the message shares its names.
fn note(alloc: Global, index: &mut Index, message: Message) -> Result<(Shared, bool), NoMemory>
    ensures { IfOk result (λ r. (r.0 ≡ message) × Notes index.old.entries index.new.entries message r.1) }
{
    let key = HashedField::of(&message.field)?;
    match index.entry(key)? {
        Entry::Vacant(place) => {
            let message = Shared::new(alloc, message)?;
            place.insert(message.copy()?);
            Ok((message, true))
        }
        Entry::Occupied(mut place) => {
            let is_later = place.get().message().stamp < message.stamp;
            let message = with_names_of(message, place.key().field())?;
            let message = Shared::new(alloc, message)?;
            if is_later {
                place.insert(message.copy()?);
            }
            Ok((message, is_later))
        }
    }
}

/// Puts a message under its timestamp, which no message has yet.
fn store(messages: &mut Messages, message: Shared) -> Result<(), NoMemory>
    requires { get stamp_cmp messages.old message.stamp ≡ None }
    ensures stored { OnOk result (messages.new.entries ≡ insert_entry stamp_cmp messages.old.entries message.stamp message) }
    ensures unchanged { OnErr result (messages.new.entries ≡ messages.old.entries) }
{
    let stamp = message.message().stamp;
    messages.insert(stamp, message)?;
    Ok(())
}

/// Takes in a message with a new timestamp, and says whether it is now the
/// latest of its field.
pub(crate) fn enter(
    alloc: Global,
    messages: &mut Messages,
    index: &mut Index,
    message: Message,
) -> Result<bool, NoMemory>
    requires stands { AreEntries messages.old.entries }
    requires right { IsIndex (values messages.old) index.old.entries }
    requires valid { IsMessage message }
    requires fresh { get stamp_cmp messages.old message.stamp ≡ None }
    ensures stands { AreEntries messages.new.entries }
    ensures right { OnOk result (IsIndex (values messages.new) index.new.entries) }
    ensures placed { OnOk result (values messages.new ≡ placed by_stamp (values messages.old) message) }
    ensures wins { IfOk result (λ wins. (f : FieldNames) → latest (values messages.new) f ≡ cond (wins && has_field f message) (Some message) (latest (values messages.old) f)) }
{
    let (entered, is_latest) = note(alloc, index, message)?;
    store(messages, entered)?;
    Ok(is_latest)
}

/// Marks a field.
fn mark(changed: &mut BTreeSet<Field>, field: &Field) -> Result<(), NoMemory>
    ensures { OnOk result ((f : FieldNames) → contains names_cmp changed.new f ≡ (is_at (names_cmp field.now) f || contains names_cmp changed.old f)) }
{
    if !changed.contains(field) {
        changed.insert(field.copy()?)?;
    }
    Ok(())
}

/// Whether a message has this timestamp. One that is later than all of them is known by the last one to be new.
pub(crate) fn is_known(messages: &Messages, stamp: &Stamp) -> bool
    ensures { result ≡ is_some (get stamp_cmp messages.now stamp.now) }
{
    match messages.last_key_value() {
        Some((last, _)) if *last < *stamp => false,
        _ => messages.contains_key(stamp),
    }
}

/// Takes in a copy of a message unless its timestamp is there already, marks
/// its field where it is now the latest of it, and says whether it was new.
pub(crate) fn take_in(
    alloc: Global,
    messages: &mut Messages,
    index: &mut Index,
    changed: &mut BTreeSet<Field>,
    message: &Message,
) -> Result<bool, NoMemory>
    requires stands { AreEntries messages.old.entries }
    requires right { IsIndex (values messages.old) index.old.entries }
    requires valid { IsMessage message.now }
    ensures stands { AreEntries messages.new.entries }
    ensures right { OnOk result (IsIndex (values messages.new) index.new.entries) }
    ensures joined { OnOk result (values messages.new ≡ join_one (values messages.old) message.now) }
    ensures fresh { IfOk result (λ fresh. fresh ≡ not (list_any (has_stamp message.now.stamp) (values messages.old))) }
    ensures marked { OnOk result ((before : List Message) → MarksChanged before (values messages.old) changed.old → MarksChanged before (values messages.new) changed.new) }
{
    if is_known(messages, &message.stamp) {
        return Ok(false);
    }
    if enter(alloc, messages, index, message.copy()?)? {
        mark(changed, &message.field)?;
    }
    Ok(true)
}

/// The latest message of a field, found by going through the index.
pub(crate) fn winner_among<'a>(index: &'a Index, field: &Field) -> Option<&'a Message>
    ensures found { option_copied result ≡ find (has_field field.now) (values index.now) }
    ensures ordered { IsOrdered hashed_cmp index.now }
{
    for message in index.values() {
        if *field == message.message().field {
            return Some(message.message());
        }
    }
    None
}

/// Copies of the messages of the index, by dataset, row and column.
pub(crate) fn latest_by_field(alloc: Global, index: &Index) -> Result<Vec<Arrival>, NoMemory>
    requires { IsOrdered hashed_cmp index.now → AreMessages (values index.now) }
    ensures latest { IfOk result (λ found. KeepsLatest (values index.now) found.items) }
    ensures ordered { OnOk result (IsOrdered hashed_cmp index.now) }
{
    let mut found = Vec::with_capacity(alloc, index.len())?;
    for message in index.values() {
        found.push(Arrival::new(message.own()?))?;
    }
    keep_latest(&mut found)?;
    Ok(found)
}
