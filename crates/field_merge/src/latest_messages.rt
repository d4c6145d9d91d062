//! The latest message of each field, without the older ones.
ghost use Rattle.std.specs.Prelude.{◌≡◌, ◌≢◌, ◌<◌, None, Some, ◌∷◌, ◌++◌, [], List, length, slice_index_or, IfErr, IfOk, IfSome, Ok, OnOk, OnErr, false, true};
ghost use Rattle.field_values.specs.Names.{field_of, names_fault, AreNames};
ghost use Rattle.hybrid_clock.specs.Stamp.{IsStamp};
ghost use Rattle.field_merge.specs.declared.message.Message.{Message};
ghost use Rattle.field_merge.specs.Messages.{message_of, IsMessage};
ghost use Rattle.field_merge.specs.Lines.{message_of_texts, of_parts, reading, IsLineFault, TakesMemory};
ghost use Rattle.field_merge.specs.Escapes.{ArePlain};
ghost use Rattle.std.specs.Result.{is_ok};
ghost use Rattle.field_merge.specs.declared.line.LineFault.TheVariants.{NoMemory as OutOfMemory};
ghost use Rattle.field_merge.specs.Log.{IsByField, fields, join};
ghost use Rattle.field_merge.specs.Latest.{AddsRead, CameFrom, HasLatest, IsFew, KeepsLatest, later, next_most};

use crate::arrival::Arrival;
use crate::line::{CutLine, LineFault, Parts, cut_line, message_in};
use crate::message::Message;
use crate::pieces::FieldLines;
use crate::short::ShortNames;
use crate::stamps::Stamps;
use field_values::{NameFault, NamePart, NoMemory, Value, check_name};
use hybrid_clock::Stamp;
use std::alloc::Global;
use std::marker::Model;

/// The latest message of each field, for those who want no older ones, in whatever order messages come and however often.
///
/// It takes less memory than a `Log`, and less time: of the messages that it lets go it keeps the timestamps alone, by which a
/// later message with one of them is passed over. After `NoMemory` it is spent.
#[derive(Drop)]
pub struct LatestMessages {
    alloc: Global,
    stamps: Stamps,
    /// Where a message of a field may stand among those that came, by a number that is made of the field's names. It is dropped before
    /// them: the C library goes over all that was freed in small blocks when one of this size is.
    places: Vec<Place>,
    /// Messages among which are the latest ones. From time to time they are sorted by field, and the older ones go.
    came: Vec<Arrival>,
    /// How many there are when that is done next.
    most: usize,
    spent: bool,
}

/// Older messages are first looked for once there are so many: about as many as the processor's nearer caches hold.
const FEW: usize = 1 << 11;

/// Of so many fields it is known where a message of them stands, if their numbers differ.
const PLACES: usize = 1 << 12;

impl Model for LatestMessages {
    ghost use Rattle.field_merge.specs.Latest.{LatestState};

    ghost Value = { LatestState };

    ghost view = { λ l. record { stamps = l.stamps; messages = l.came.items; most = l.most; spent = l.spent } };
}

/// Where the last message of short names stands that was put behind the others by their number.
#[derive(Clone, Copy)]
struct Place {
    number: u64,
    at: usize,
}

/// What a line without a backslash tells of its message, if its names are short. The value is still a text.
#[derive(Drop)]
struct Draft<'a> {
    stamp: Stamp,
    names: ShortNames,
    /// The number that is made of the names.
    number: u64,
    value: &'a str,
}

/// The slot of a number, where there are so many.
fn slot_of(number: u64, count: usize) -> usize
    requires { 0 < count }
    ensures { result < count }
{
    number as usize & (count - 1)
}

/// Whether a message of these names stands at a place.
fn is_at(came: &[Arrival], place: usize, names: &ShortNames) -> bool
    ensures there { result ≡ true → place < length came.now }
    ensures field { result ≡ true → (m : Message) → (slice_index_or came.now place m).field ≡ names.now }
    ensures valid { result ≡ true → AreNames names.now }
{
    match came.get(place) {
        Some(arrival) => arrival.names().are(names),
        None => false,
    }
}

/// The place of a message of these names, where it is known.
fn known_place(came: &[Arrival], places: &[Place], number: u64, names: &ShortNames) -> Option<usize>
    ensures there { IfSome result (λ at. at < length came.now) }
    ensures field { IfSome result (λ at. (m : Message) → (slice_index_or came.now at m).field ≡ names.now) }
    ensures valid { IfSome result (λ at. AreNames names.now) }
{
    if places.is_empty() {
        return None;
    }
    let place = places[slot_of(number, places.len())];
    if place.number == number && is_at(came, place.at, names) {
        return Some(place.at);
    }
    None
}

/// Tests the names of a line.
fn check_names(parts: &Parts<'_>) -> Result<(), NameFault>
    ensures good { OnOk result (names_fault (field_of parts.now.dataset.now parts.now.row.now parts.now.column.now) ≡ None) }
    ensures bad { IfErr result (λ fault. names_fault (field_of parts.now.dataset.now parts.now.row.now parts.now.column.now) ≡ Some fault) }
{
    check_name(NamePart::Dataset, parts.dataset.as_bytes())?;
    check_name(NamePart::Row, parts.row.as_bytes())?;
    check_name(NamePart::Column, parts.column.as_bytes())?;
    Ok(())
}

/// The place of a message of these names, where it is known. Names of which none is known are tested.
fn place_of(
    came: &[Arrival],
    places: &[Place],
    number: u64,
    names: &ShortNames,
    parts: &Parts<'_>,
) -> Result<Option<usize>, NameFault>
    requires { names.now ≡ field_of parts.now.dataset.now parts.now.row.now parts.now.column.now }
    ensures there { IfOk result (λ known. IfSome known (λ at. at < length came.now)) }
    ensures field { IfOk result (λ known. IfSome known (λ at. (m : Message) → (slice_index_or came.now at m).field ≡ names.now)) }
    ensures good { OnOk result (AreNames names.now) }
    ensures bad { IfErr result (λ fault. names_fault names.now ≡ Some fault) }
{
    if let Some(at) = known_place(came, places, number, names) {
        return Ok(Some(at));
    }
    check_names(parts)?;
    Ok(None)
}

/// Keeps the later of a message and one of its field. The value of one that is not kept is not read.
fn keep_later(alloc: Global, kept: &mut Arrival, draft: Draft<'_>) -> Result<(), NoMemory>
    requires valid { IsStamp draft.stamp }
    requires field { kept.old.field ≡ draft.names }
    ensures { OnOk result (kept.new ≡ later kept.old (message_of draft.entry.stamp draft.entry.names draft.entry.value.now)) }
{
    if kept.stamp() < draft.stamp {
        kept.renew(draft.stamp, Value::read(alloc, draft.value)?);
    }
    Ok(())
}

/// Puts a message behind the others.
fn put_behind(alloc: Global, came: &mut Vec<Arrival>, draft: Draft<'_>) -> Result<(), NoMemory>
    requires valid { IsStamp draft.stamp }
    requires names { AreNames draft.names }
    ensures { OnOk result (came.new.items ≡ came.old.items ++ message_of draft.entry.stamp draft.entry.names draft.entry.value.now ∷ []) }
{
    let value = Value::read(alloc, draft.value)?;
    came.push(Arrival::of(draft.stamp, draft.names, value))?;
    Ok(())
}

/// Takes a message in. Where one of its field stands at a known place, the later of them stays there.
fn take_in(
    alloc: Global,
    came: &mut Vec<Arrival>,
    places: &mut Vec<Place>,
    known: Option<usize>,
    draft: Draft<'_>,
) -> Result<(), NoMemory>
    requires valid { IsStamp draft.stamp }
    requires names { AreNames draft.names }
    requires there { IfSome known (λ at. at < length came.old.items) }
    requires field { IfSome known (λ at. (m : Message) → (slice_index_or came.old.items at m).field ≡ draft.names) }
    ensures { OnOk result (HasLatest (came.old.items ++ message_of draft.entry.stamp draft.entry.names draft.entry.value.now ∷ []) came.new.items) }
{
    if let Some(at) = known {
        return keep_later(alloc, &mut came[at], draft);
    }
    make_places(places)?;
    let slot = slot_of(draft.number, places.len());
    places[slot] = Place {
        number: draft.number,
        at: came.len(),
    };
    put_behind(alloc, came, draft)
}

/// Makes room for places where there is none yet.
fn make_places(places: &mut Vec<Place>) -> Result<(), NoMemory>
    ensures { OnOk result (0 < length places.new.items) }
{
    if places.is_empty() {
        places.resize(PLACES, Place { number: 0, at: 0 })?;
    }
    Ok(())
}

/// Sorts messages by field, and keeps the latest of each field.
pub(crate) fn keep_latest(came: &mut Vec<Arrival>) -> Result<(), NoMemory>
    ensures { OnOk result (KeepsLatest came.old.items came.new.items) }
{
    came.sort()?;
    came.dedup_by(|next, kept| next.is_of_field_of(kept));
    Ok(())
}

impl LatestMessages {
    /// No message came yet.
    pub fn new(alloc: Global) -> LatestMessages
        ensures live { result.spent ≡ false }
        ensures none { CameFrom [] result }
    {
        LatestMessages {
            alloc,
            stamps: Stamps::new(alloc),
            places: Vec::new(alloc),
            came: Vec::new(alloc),
            most: FEW,
            spent: false,
        }
    }

    /// Whether a want of memory has spoilt it.
    pub fn is_spent(&self) -> bool
        ensures { result ≡ self.now.spent }
    {
        self.spent
    }

    /// Takes one message more. Where its timestamp came before, it is passed over. Older messages go before
    /// there are more messages than two for each field, or than 2,048 where that is more.
    pub fn add(&mut self, message: Message) -> Result<(), NoMemory>
        requires live { self.old.spent ≡ false }
        requires valid { IsMessage message }
        ensures came { OnOk result ((ms : List Message) → CameFrom ms self.old → CameFrom (ms ++ message ∷ []) self.new) }
        ensures few { OnOk result ((ms : List Message) → CameFrom ms self.old → IsFew (ms ++ message ∷ []) self.new) }
        ensures kept { OnOk result (self.new.spent ≡ false) }
        ensures spent { OnErr result (self.new.spent ≡ true) }
    {
        self.gather(message)?;
        self.tidy_when_many()
    }

    /// Takes the message of a line that is lent, as `read_line` reads it, or says why the line is no message's; nothing is changed
    /// then. It takes less time than to read the message and to add it: what is not kept of the line is not copied.
    pub fn add_line(&mut self, line: &str) -> Result<(), LineFault>
        requires live { self.old.spent ≡ false }
        ensures ok { OnOk result (AddsRead (reading line.now) self.old self.new) }
        ensures kept { OnOk result (self.new.spent ≡ false) }
        ensures err { IfErr result (IsLineFault (reading line.now)) }
        ensures same { IfErr result (λ fault. fault ≢ OutOfMemory → self.new ≡ self.old) }
        ensures spent { IfErr result (λ fault. fault ≡ OutOfMemory → self.new.spent ≡ true) }
        ensures memory { IfErr result (λ fault. fault ≡ OutOfMemory → TakesMemory line.now) }
    {
        let cut = cut_line(line)?;
        if cut.is_plain {
            let parts = &cut.parts;
            if let Some(names) = ShortNames::of(parts.dataset, parts.row, parts.column) {
                return self.add_parts(parts, names);
            }
        }
        self.add_read(&cut)
    }

    /// Takes the message of the parts of a line.
    fn add_read(&mut self, cut: &CutLine<'_>) -> Result<(), LineFault>
        requires live { self.old.spent ≡ false }
        requires plain { cut.now.is_plain ≡ true → ArePlain cut.now.parts.stamp.now cut.now.parts.dataset.now cut.now.parts.row.now cut.now.parts.column.now cut.now.parts.value.now }
        ensures ok { OnOk result (AddsRead (of_parts (cut.now.parts.stamp.now ∷ cut.now.parts.dataset.now ∷ cut.now.parts.row.now ∷ cut.now.parts.column.now ∷ cut.now.parts.value.now ∷ []) None) self.old self.new) }
        ensures kept { OnOk result (self.new.spent ≡ false) }
        ensures err { IfErr result (IsLineFault (of_parts (cut.now.parts.stamp.now ∷ cut.now.parts.dataset.now ∷ cut.now.parts.row.now ∷ cut.now.parts.column.now ∷ cut.now.parts.value.now ∷ []) None)) }
        ensures same { IfErr result (λ fault. fault ≢ OutOfMemory → self.new ≡ self.old) }
        ensures spent { IfErr result (λ fault. fault ≡ OutOfMemory → self.new.spent ≡ true) }
        ensures memory { IfErr result (λ fault. fault ≡ OutOfMemory → ArePlain cut.now.parts.stamp.now cut.now.parts.dataset.now cut.now.parts.row.now cut.now.parts.column.now cut.now.parts.value.now → is_ok (of_parts (cut.now.parts.stamp.now ∷ cut.now.parts.dataset.now ∷ cut.now.parts.row.now ∷ cut.now.parts.column.now ∷ cut.now.parts.value.now ∷ []) None) ≡ true) }
    {
        let message = match message_in(self.alloc, &cut.parts, cut.is_plain) {
            Ok(message) => message,
            Err(fault) => {
                self.spent = fault == LineFault::NoMemory;
                return Err(fault);
            }
        };
        self.add(message)?;
        Ok(())
    }

    /// Takes the message of five texts, of which three are short names.
    fn add_parts(&mut self, parts: &Parts<'_>, names: ShortNames) -> Result<(), LineFault>
        requires live { self.old.spent ≡ false }
        requires names { names ≡ field_of parts.now.dataset.now parts.now.row.now parts.now.column.now }
        ensures ok { OnOk result (AddsRead (message_of_texts parts.now.stamp.now names parts.now.value.now) self.old self.new) }
        ensures kept { OnOk result (self.new.spent ≡ false) }
        ensures err { IfErr result (IsLineFault (message_of_texts parts.now.stamp.now names parts.now.value.now)) }
        ensures same { IfErr result (λ fault. fault ≢ OutOfMemory → self.new ≡ self.old) }
        ensures spent { IfErr result (λ fault. fault ≡ OutOfMemory → self.new.spent ≡ true) }
        ensures memory { IfErr result (λ fault. fault ≡ OutOfMemory → is_ok (message_of_texts parts.now.stamp.now names parts.now.value.now) ≡ true) }
    {
        let stamp = match Stamp::parse(parts.stamp.as_bytes()) {
            Ok(stamp) => stamp,
            Err(fault) => return Err(LineFault::Stamp(fault)),
        };
        let number = names.number();
        let known = match place_of(&self.came, &self.places, number, &names, parts) {
            Ok(known) => known,
            Err(fault) => return Err(LineFault::Name(fault)),
        };
        let draft = Draft {
            stamp,
            names,
            number,
            value: parts.value,
        };
        self.gather_draft(known, draft)?;
        self.tidy_when_many()?;
        Ok(())
    }

    /// Takes one message more, and sorts none.
    fn gather(&mut self, message: Message) -> Result<(), NoMemory>
        requires live { self.old.spent ≡ false }
        requires valid { IsMessage message }
        ensures came { OnOk result ((ms : List Message) → CameFrom ms self.old → CameFrom (ms ++ message ∷ []) self.new) }
        ensures kept { OnOk result (self.new.spent ≡ false) }
        ensures spent { OnErr result (self.new.spent ≡ true) }
    {
        self.spent = true;
        if self.stamps.insert(message.stamp)? {
            self.came.push(Arrival::new(message))?;
        }
        self.spent = false;
        Ok(())
    }

    /// The same of a message of short names, of whose field one may stand at a known place.
    fn gather_draft(&mut self, known: Option<usize>, draft: Draft<'_>) -> Result<(), NoMemory>
        requires live { self.old.spent ≡ false }
        requires valid { IsStamp draft.stamp }
        requires names { AreNames draft.names }
        requires there { IfSome known (λ at. at < length self.old.messages) }
        requires field { IfSome known (λ at. (m : Message) → (slice_index_or self.old.messages at m).field ≡ draft.names) }
        ensures came { OnOk result ((ms : List Message) → CameFrom ms self.old → CameFrom (ms ++ message_of draft.entry.stamp draft.entry.names draft.entry.value.now ∷ []) self.new) }
        ensures kept { OnOk result (self.new.spent ≡ false) }
        ensures spent { OnErr result (self.new.spent ≡ true) }
    {
        self.spent = true;
        if self.stamps.insert(draft.stamp)? {
            take_in(self.alloc, &mut self.came, &mut self.places, known, draft)?;
        }
        self.spent = false;
        Ok(())
    }

    /// Lets older messages go, where there are as many messages as may be.
    fn tidy_when_many(&mut self) -> Result<(), NoMemory>
        requires live { self.old.spent ≡ false }
        ensures came { OnOk result ((ms : List Message) → CameFrom ms self.old → CameFrom ms self.new) }
        ensures few { OnOk result ((ms : List Message) → CameFrom ms self.old → IsFew ms self.new) }
        ensures kept { OnOk result (self.new.spent ≡ false) }
        ensures spent { OnErr result (self.new.spent ≡ true) }
    {
        if self.came.len() < self.most {
            return Ok(());
        }
        self.tidy()
    }

    /// Sorts what came by field, and lets older messages go. It costs time that grows with the messages that are kept.
    pub fn tidy(&mut self) -> Result<(), NoMemory>
        requires live { self.old.spent ≡ false }
        ensures came { OnOk result ((ms : List Message) → CameFrom ms self.old → CameFrom ms self.new) }
        ensures latest { OnOk result ((ms : List Message) → CameFrom ms self.old → self.new.messages ≡ fields (join [] ms)) }
        ensures tidy { OnOk result (IsByField self.new.messages) }
        ensures most { OnOk result (self.new.most ≡ next_most self.new.messages) }
        ensures kept { OnOk result (self.new.spent ≡ false) }
        ensures spent { OnErr result (self.new.spent ≡ true) }
    {
        self.spent = true;
        keep_latest(&mut self.came)?;
        self.most = (2 * self.came.len()).max(FEW);
        self.spent = false;
        Ok(())
    }

    /// The latest message of each field, by dataset, row and column, whose lines are then given piece by piece. The messages
    /// have to be tidy.
    pub fn lines_by_field(&self) -> FieldLines<'_>
        requires live { self.now.spent ≡ false }
        requires tidy { IsByField self.now.messages }
        ensures { (ms : List Message) → CameFrom ms self.now → result ≡ fields (join [] ms) }
    {
        FieldLines::new(self.alloc, self.came.iter())
    }
}
