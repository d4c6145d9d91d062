//! Messages, and what is at hand of them: their trie and their book.
ghost use Rattle.std.specs.Prelude.{◌≡◌, ◌≢◌, ◌++◌, ◌∷◌, ◌&&◌, ◌||◌, List, [], map, flat_map, false, if◌then◌else◌, IfOk, IfErr, OnOk, OnErr, Err, Ok};
ghost use Rattle.std.specs.BTreeMap.{is_at};
ghost use Rattle.std.specs.BTreeSet.{IsOrdered, contains};
ghost use Rattle.field_values.specs.Names.{FieldNames, names_cmp};
ghost use Rattle.field_merge.specs.declared.message.Message.{Message as MessageIs};
ghost use Rattle.minute_trie.specs.Trie.{is_spent, IsTrieOf};
ghost use Rattle.kept_messages.specs.Pairs.{pairs_of};
ghost use Rattle.dirty_cells.specs.Stands.{StandsFor, with_window};
ghost use Rattle.device_core.specs.Books.{rows_of};
ghost use Rattle.device_core.specs.Changes.{AreChangesOf, AreOthers, Marks, change_of};
ghost use Rattle.device_core.specs.Covering.{covered_by, IsWithin};
ghost use Rattle.field_values.specs.Value.{IsValue};
ghost use Rattle.field_merge.specs.Log.{join, join_one};
ghost use Rattle.field_merge.specs.Messages.{IsMessage, AreMessages};
ghost use Rattle.kept_messages.specs.News.{new_in};
ghost use Rattle.kept_messages.specs.Records.{record_of, kept_set, IsStartFault, HasFirstStamp};
ghost use Rattle.kept_messages.specs.declared.join.StartFault.TheVariants.{NoMemory as OutOfMemory};
ghost use Rattle.book_rows.specs.Rows.{no_rows, with_field};
ghost use Rattle.book_rows.specs.Months.{window_of};
ghost use Rattle.device_core.specs.Known.{IsKnown};

use book_rows::Book;
use budget_ports::Record;
use dirty_cells::grid::Grid;
use field_merge::{Log, Message};
use field_values::{Field, FieldKey, NoMemory, Steps, Value};
use kept_messages::{StartFault, enter, join_message, read_record};
use minute_trie::Trie;
use std::alloc::Global;
use std::collections::BTreeSet;
use std::sync::ledger::Ledger;

/// Messages, and what is at hand of them.
#[derive(Drop)]
pub(crate) struct Known {
    /// The messages.
    pub(crate) log: Log,
    /// The trie of their timestamps.
    pub(crate) trie: Trie,
    /// The rows that the values of their fields make.
    pub(crate) book: Book,
}

/// Gives a field of a book a value, if it is told to.
fn set_if(is_latest: bool, book: &mut Book, field: &Field, value: &Value) -> Result<(), NoMemory>
    requires live { book.old.spent ≡ false }
    requires valid { IsValue value.now }
    ensures rows { OnOk result (book.new.rows ≡ (if is_latest then with_field book.old.rows field.now value.now else book.old.rows)) }
    ensures live { OnOk result (book.new.spent ≡ false) }
{
    if is_latest {
        book.set(field, value)?;
    }
    Ok(())
}

/// Joins a message, which moves to the others.
fn take_in(known: &mut Known, message: Message) -> Result<(), NoMemory>
    requires known { IsKnown known.old }
    requires valid { IsMessage message }
    ensures known { OnOk result (IsKnown known.new) }
    ensures joined { OnOk result (known.new.log.messages ≡ join_one known.old.log.messages message) }
{
    let field = message.field.copy()?;
    let value = message.value.copy()?;
    let entered = enter(&mut known.log, &mut known.trie, message)?;
    set_if(entered.latest, &mut known.book, &field, &value)?;
    Ok(())
}

/// The messages that records keep, joined in the order of the records. So of records with one timestamp
/// the first counts.
///
/// # Errors
///
/// `BadRecord` for the first record that keeps no message. Where the key of the very first one is no
/// timestamp, this is told before memory is taken.
pub(crate) fn read_all(alloc: Global, records: &[Record]) -> Result<Known, StartFault>
    ensures messages { IfOk result (λ known. kept_set records.now ≡ Ok known.log.messages) }
    ensures known { IfOk result IsKnown }
    ensures err { IfErr result (IsStartFault (kept_set records.now)) }
    ensures memory { result ≡ Err OutOfMemory → HasFirstStamp records.now }
    ensures first { OnOk result (records.now ≢ [] → HasFirstStamp records.now) }
{
    let mut known = Known {
        log: Log::new(alloc),
        trie: Trie::new(alloc),
        book: Book::new(alloc),
    };
    for (index, kept) in records.iter().enumerate() {
        let Some(message) = read_record(alloc, kept)? else {
            return Err(StartFault::BadRecord { index });
        };
        take_in(&mut known, message)?;
    }
    Ok(known)
}

/// The cells beside the book of what records keep. Where there are no records, no memory is taken.
pub(crate) fn grid_of(alloc: Global, book: &Book, records: &[Record]) -> Result<Grid, NoMemory>
    requires live { book.now.spent ≡ false }
    requires empty { records.now ≡ [] → book.now.rows ≡ no_rows }
    ensures stands { IfOk result (λ grid. StandsFor grid book.now.rows) }
    ensures range { IfOk result (λ grid. (grid.first, grid.end) ≡ with_window (0, 0) (window_of book.now.rows)) }
    ensures live { IfOk result (λ grid. grid.spent ≡ false) }
    ensures memory { OnErr result (records.now ≢ []) }
{
    if records.is_empty() {
        return Ok(Grid::none(alloc));
    }
    Grid::build(alloc, book)
}

/// Marks a field.
fn mark(marked: &mut BTreeSet<FieldKey>, field: &Field) -> Result<(), NoMemory>
    ensures { OnOk result ((f : FieldNames) → contains names_cmp marked.new f ≡ (is_at (names_cmp field.now) f || contains names_cmp marked.old f)) }
{
    marked.insert(FieldKey::of(field)?)?;
    Ok(())
}

/// Marks a field, if it is told to.
fn mark_if(is_latest: bool, marked: &mut BTreeSet<FieldKey>, field: &Field) -> Result<(), NoMemory>
    ensures { OnOk result ((f : FieldNames) → contains names_cmp marked.new f ≡ ((is_latest && is_at (names_cmp field.now) f) || contains names_cmp marked.old f)) }
{
    if is_latest {
        mark(marked, field)?;
    }
    Ok(())
}

/// Joins a message to a log and its trie, adds its record to a batch where it is new, and marks its field where it is now the latest of
/// it.
fn join_one(
    alloc: Global,
    log: &mut Log,
    trie: &mut Trie,
    marked: &mut BTreeSet<FieldKey>,
    message: &Message,
    batch: &mut Vec<Record>,
) -> Result<(), NoMemory>
    requires live { log.old.spent ≡ false }
    requires trie_live { is_spent trie.old ≡ false }
    requires right { IsTrieOf (pairs_of log.old.messages) trie.old }
    requires valid { IsMessage message.now }
    ensures live { OnOk result (log.new.spent ≡ false) }
    ensures trie_live { OnOk result (is_spent trie.new ≡ false) }
    ensures right { OnOk result (IsTrieOf (pairs_of log.new.messages) trie.new) }
    ensures joined { OnOk result (log.new.messages ≡ join_one log.old.messages message.now) }
    ensures batch { OnOk result (batch.new.items ≡ batch.old.items ++ map record_of (new_in log.old.messages (message.now ∷ []))) }
    ensures marked { OnOk result ((before : List MessageIs) → Marks before log.old.messages marked.old → Marks before log.new.messages marked.new) }
{
    let entered = join_message(alloc, log, trie, message, batch)?;
    mark_if(entered.latest, marked, &message.field)?;
    Ok(())
}

/// The marked fields as a list.
fn fields_of(alloc: Global, marked: BTreeSet<FieldKey>) -> Result<Vec<FieldKey>, NoMemory>
    ensures all { IfOk result (λ fields. fields.items ≡ marked.keys) }
    ensures ordered { IsOrdered names_cmp marked }
{
    let fields: Vec<FieldKey> = marked.into_iter().collect(alloc)?;
    Ok(fields)
}

/// Joins messages to a log and its trie, adds the records of the new ones to a batch, in the order in which they come, and tells the
/// fields whose latest message is then another one. After want of memory some of them may have joined.
fn join_logged(
    alloc: Global,
    log: &mut Log,
    trie: &mut Trie,
    messages: &[Message],
    batch: &mut Vec<Record>,
) -> Result<Vec<FieldKey>, NoMemory>
    requires live { log.old.spent ≡ false }
    requires trie_live { is_spent trie.old ≡ false }
    requires right { IsTrieOf (pairs_of log.old.messages) trie.old }
    requires valid { AreMessages messages.now }
    ensures live { OnOk result (log.new.spent ≡ false) }
    ensures trie_live { OnOk result (is_spent trie.new ≡ false) }
    ensures right { OnOk result (IsTrieOf (pairs_of log.new.messages) trie.new) }
    ensures joined { OnOk result (log.new.messages ≡ join log.old.messages messages.now) }
    ensures batch { OnOk result (batch.new.items ≡ batch.old.items ++ map record_of (new_in log.old.messages messages.now)) }
    ensures changed { IfOk result (λ fields. AreOthers log.old.messages log.new.messages fields.items) }
{
    let mut marked = BTreeSet::new(alloc);
    for message in messages {
        join_one(alloc, log, trie, &mut marked, message, batch)?;
    }
    let fields = fields_of(alloc, marked)?;
    Ok(fields)
}

/// Puts a field with its value behind others, where it has one.
fn push_change(changes: &mut Vec<(Field, Value)>, log: &Log, key: &FieldKey) -> Result<(), NoMemory>
    requires { log.now.spent ≡ false }
    ensures { OnOk result (changes.new.items ≡ changes.old.items ++ change_of log.now.messages key.now) }
{
    let field = key.field();
    if let Some(value) = log.value(field) {
        changes.push((field.copy()?, value.copy()?))?;
    }
    Ok(())
}

/// Fields with the values that they have.
fn changes_of(
    alloc: Global,
    log: &Log,
    fields: &[FieldKey],
) -> Result<Vec<(Field, Value)>, NoMemory>
    requires { log.now.spent ≡ false }
    ensures { IfOk result (λ changes. changes.items ≡ flat_map (change_of log.now.messages) fields.now) }
{
    let mut changes = Vec::with_capacity(alloc, fields.len())?;
    for field in fields {
        push_change(&mut changes, log, field)?;
    }
    Ok(changes)
}

/// Puts the field of a message with its value behind others, if it is told to.
fn push_if(
    is_latest: bool,
    changes: &mut Vec<(Field, Value)>,
    message: &Message,
) -> Result<(), NoMemory>
    ensures { OnOk result (changes.new.items ≡ changes.old.items ++ (if is_latest then (message.now.field, message.now.value) ∷ [] else [])) }
{
    if is_latest {
        changes.push((message.field.copy()?, message.value.copy()?))?;
    }
    Ok(())
}

/// Joins a single message to a log and its trie, adds its record to a batch where it is new, and tells its field with its value where it
/// is now the latest of it. No set of fields is needed.
fn join_single(
    alloc: Global,
    log: &mut Log,
    trie: &mut Trie,
    message: &Message,
    batch: &mut Vec<Record>,
) -> Result<Vec<(Field, Value)>, NoMemory>
    requires live { log.old.spent ≡ false }
    requires trie_live { is_spent trie.old ≡ false }
    requires right { IsTrieOf (pairs_of log.old.messages) trie.old }
    requires valid { IsMessage message.now }
    ensures live { OnOk result (log.new.spent ≡ false) }
    ensures trie_live { OnOk result (is_spent trie.new ≡ false) }
    ensures right { OnOk result (IsTrieOf (pairs_of log.new.messages) trie.new) }
    ensures joined { OnOk result (log.new.messages ≡ join log.old.messages (message.now ∷ [])) }
    ensures batch { OnOk result (batch.new.items ≡ batch.old.items ++ map record_of (new_in log.old.messages (message.now ∷ []))) }
    ensures changed { IfOk result (λ changes. AreChangesOf log.old.messages log.new.messages changes.items) }
{
    let entered = join_message(alloc, log, trie, message, batch)?;
    let mut changes = Vec::with_capacity(alloc, 1)?;
    push_if(entered.latest, &mut changes, message)?;
    Ok(changes)
}

/// Joins messages to a log and its trie, adds the records of the new ones to a batch, in the order in which they come, and tells the
/// fields whose latest message is then another one, each with its value. After want of memory some of them may have joined.
fn join_changes(
    alloc: Global,
    log: &mut Log,
    trie: &mut Trie,
    messages: &[Message],
    batch: &mut Vec<Record>,
) -> Result<Vec<(Field, Value)>, NoMemory>
    requires live { log.old.spent ≡ false }
    requires trie_live { is_spent trie.old ≡ false }
    requires right { IsTrieOf (pairs_of log.old.messages) trie.old }
    requires valid { AreMessages messages.now }
    ensures live { OnOk result (log.new.spent ≡ false) }
    ensures trie_live { OnOk result (is_spent trie.new ≡ false) }
    ensures right { OnOk result (IsTrieOf (pairs_of log.new.messages) trie.new) }
    ensures joined { OnOk result (log.new.messages ≡ join log.old.messages messages.now) }
    ensures batch { OnOk result (batch.new.items ≡ batch.old.items ++ map record_of (new_in log.old.messages messages.now)) }
    ensures changed { IfOk result (λ changes. AreChangesOf log.old.messages log.new.messages changes.items) }
{
    if let [message] = messages {
        return join_single(alloc, log, trie, message, batch);
    }
    let fields = join_logged(alloc, log, trie, messages, batch)?;
    changes_of(alloc, log, fields.as_slice())
}

/// Joins messages, and adds the records of the new ones to a batch, in the order in which they come. The fields whose latest message is
/// then another one get their values in the book and in the cells at once. After want of memory some of them may have joined.
pub(crate) fn join_all<G: Ledger>(
    alloc: Global,
    known: &mut Known,
    grid: &mut Grid,
    messages: &[Message],
    batch: &mut Vec<Record>,
    steps: &mut Steps<G>,
) -> Result<(), NoMemory>
    requires known { IsKnown known.old }
    requires grid { grid.old.spent ≡ false }
    requires stands { StandsFor grid.old (rows_of known.old.log.messages) }
    requires valid { AreMessages messages.now }
    ensures known { OnOk result (IsKnown known.new) }
    ensures grid { OnOk result (grid.new.spent ≡ false) }
    ensures stands { OnOk result (StandsFor grid.new (rows_of known.new.log.messages)) }
    ensures range { OnOk result ((grid.new.first, grid.new.end) ≡ covered_by (grid.old.first, grid.old.end) known.new.log.messages) }
    ensures joined { OnOk result (known.new.log.messages ≡ join known.old.log.messages messages.now) }
    ensures batch { OnOk result (batch.new.items ≡ batch.old.items ++ map record_of (new_in known.old.log.messages messages.now)) }
    ensures cost { OnOk result (IsWithin known.old.log.messages known.new.log.messages (grid.old.first, grid.old.end) (grid.new.first, grid.new.end) steps.old steps.new) }
{
    let changes = join_changes(alloc, &mut known.log, &mut known.trie, messages, batch)?;
    grid.apply(&mut known.book, changes.as_slice(), steps)?;
    Ok(())
}
