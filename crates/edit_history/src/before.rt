//! What stood in the fields that an edit wrote.
ghost use Rattle.std.specs.Prelude.{◌≡◌, ◌≢◌, ◌≤◌, ◌++◌, ◌∷◌, [], false, map, length, if◌then◌else◌, IfOk, OnOk};
ghost use Rattle.std.specs.List.{list_any};
ghost use Rattle.std.specs.Option.{option_copied};
ghost use Rattle.std.specs.BTreeSet as set;
ghost use Rattle.field_values.specs.Names.{FieldNames, names_eq, names_cmp};
ghost use Rattle.field_merge.specs.Log.{value_in};
ghost use Rattle.field_merge.specs.Messages.{AreMessages};
ghost use Rattle.book_rows.specs.Rows.{AreRowsOf};
ghost use Rattle.edit_history.specs.Undo.{before_of, entry_over};
ghost use Rattle.edit_history.specs.History.{IsEntry};

use crate::there::is_there;
use book_rows::Book;
use field_merge::{Log, Message};
use field_values::{Copied, Field, Items, NoMemory, Value};
use std::alloc::Global;
use std::collections::BTreeSet;

/// A field that an edit wrote, as it was before.
#[derive(Debug, Drop)]
pub struct Before {
    /// The field.
    pub field: Field,
    /// Its value, if it had one.
    pub value: Option<Value>,
    /// Whether its row was there: whether one of the columns that a book knows of the row had a value.
    pub was_there: bool,
}

/// A copy of a value that may be absent.
fn copy_of(value: Option<&Value>) -> Result<Option<Value>, NoMemory>
    ensures { IfOk result (λ v. v ≡ option_copied value.entry) }
{
    match value {
        Some(value) => Ok(Some(value.copy()?)),
        None => Ok(None),
    }
}

impl Before {
    /// An equal one.
    pub fn copy(&self) -> Result<Before, NoMemory>
        ensures { IfOk result (λ b. b ≡ self.now) }
    {
        Ok(Before {
            field: self.field.copy()?,
            value: copy_of(self.value.as_ref())?,
            was_there: self.was_there,
        })
    }
}

impl Copied for Before {
    fn copied(&self) -> Result<Before, NoMemory> {
        self.copy()
    }
}

/// What a field has, and whether its row is there.
fn before_of(alloc: Global, log: &Log, book: &Book, field: &Field) -> Result<Before, NoMemory>
    requires live { log.now.spent ≡ false }
    requires rows { AreRowsOf (value_in log.now.messages) book.now.rows }
    ensures { IfOk result (λ b. b ≡ before_of (value_in log.now.messages) field.now) }
{
    Ok(Before {
        field: field.copy()?,
        value: copy_of(log.value(field))?,
        was_there: is_there(alloc, book, field)?,
    })
}

/// Adds what a field has, unless it was added. It takes a few look-ups.
fn push_before(
    alloc: Global,
    log: &Log,
    book: &Book,
    field: &Field,
    seen: &mut BTreeSet<Field>,
    found: &mut Vec<Before>,
) -> Result<(), NoMemory>
    requires live { log.now.spent ≡ false }
    requires rows { AreRowsOf (value_in log.now.messages) book.now.rows }
    requires seen { (f : FieldNames) → set.contains names_cmp seen.old f ≡ list_any (λ b. names_eq b.field f) found.old.items }
    ensures seen { OnOk result ((f : FieldNames) → set.contains names_cmp seen.new f ≡ list_any (λ b. names_eq b.field f) found.new.items) }
    ensures found { OnOk result (found.new.items ≡ found.old.items ++ (if list_any (λ b. names_eq b.field field.now) found.old.items then [] else before_of (value_in log.now.messages) field.now ∷ [])) }
{
    if seen.insert(field.copy()?)? {
        found.push(before_of(alloc, log, book, field)?)?;
    }
    Ok(())
}

/// What a single message writes over. One field needs no set of those that were added.
fn single_entry(
    alloc: Global,
    log: &Log,
    book: &Book,
    field: &Field,
) -> Result<Items<Before>, NoMemory>
    requires live { log.now.spent ≡ false }
    requires rows { AreRowsOf (value_in log.now.messages) book.now.rows }
    ensures { IfOk result (λ entry. entry ≡ entry_over (value_in log.now.messages) (field.now ∷ [])) }
{
    let mut found = Vec::with_capacity(alloc, 1)?;
    found.push(before_of(alloc, log, book, field)?)?;
    Ok(Items::new(found))
}

/// What messages write over that are to join a log, whose values make the rows of a book: each field once, in the order of the messages.
pub fn entry_over(
    alloc: Global,
    log: &Log,
    book: &Book,
    messages: &[Message],
) -> Result<Items<Before>, NoMemory>
    requires live { log.now.spent ≡ false }
    requires rows { AreRowsOf (value_in log.now.messages) book.now.rows }
    requires known { AreMessages log.now.messages }
    requires valid { AreMessages messages.now }
    requires some { messages.now ≢ [] }
    requires few { length messages.now ≤ 65_536 }
    ensures entry { IfOk result (λ entry. entry ≡ entry_over (value_in log.now.messages) (map (λ m. m.field) messages.now)) }
    ensures valid { IfOk result IsEntry }
{
    if let [single] = messages {
        return single_entry(alloc, log, book, &single.field);
    }
    let mut seen = BTreeSet::new(alloc);
    let mut found = Vec::with_capacity(alloc, messages.len())?;
    for message in messages {
        push_before(alloc, log, book, &message.field, &mut seen, &mut found)?;
    }
    Ok(Items::new(found))
}
