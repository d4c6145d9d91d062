//! The sums of all categories, kept through a batch of changes, and what the transactions that these touch mark.
ghost use Rattle.std.specs.Prelude.{◌≡◌, List, ◌+◌, ◌*◌, ◌≤◌, ◌||◌, length, flat_map, map as list_map, false, OnOk, IfOk};
ghost use Rattle.std.specs.BTreeSet as set;
ghost use Rattle.finite_sums.specs.Maps.{Text, text_cmp, is_among};
ghost use Rattle.envelope_cells.specs.Parts.{AreSums};
ghost use Rattle.dirty_cells.specs.Changes.{with_fields, Spares, AreValues};
ghost use Rattle.dirty_cells.specs.Marking.{category_at, month_at_tx, earliest};

use crate::passing::pass_all;
use book_rows::Book;
use envelope_cells::CellValues;
use field_values::{Field, NoMemory, Steps, Txt, Value};
use std::collections::BTreeSet;
use std::sync::ledger::Ledger;

/// Gives all fields of a list their values.
fn set_all(book: &mut Book, changes: &[(Field, Value)]) -> Result<(), NoMemory>
    requires live { book.old.spent ≡ false }
    requires values { AreValues changes.now }
    ensures rows { OnOk result (book.new.rows ≡ with_fields book.old.rows changes.now) }
    ensures live { OnOk result (book.new.spent ≡ false) }
{
    for (field, value) in changes {
        book.set(field, value)?;
    }
    Ok(())
}

/// Gives fields their values, and keeps the sums those of the book. Each transaction that the changes touch is among the ids: their
/// categories before and after the changes are put among others, and the least of a number and those of their months then is told.
pub fn change_sums<G: Ledger>(
    sums: &mut CellValues,
    book: &mut Book,
    categories: &mut BTreeSet<Txt>,
    changes: &[(Field, Value)],
    ids: &[Txt],
    number: u32,
    steps: &mut Steps<G>,
) -> Result<u32, NoMemory>
    requires live { book.old.spent ≡ false }
    requires values { AreValues changes.now }
    requires spares { Spares book.old.rows (with_fields book.old.rows changes.now) ids.now }
    requires sums { AreSums sums.old book.old.rows }
    ensures book { OnOk result (book.new.rows ≡ with_fields book.old.rows changes.now) }
    ensures live { OnOk result (book.new.spent ≡ false) }
    ensures sums { OnOk result (AreSums sums.new book.new.rows) }
    ensures more { OnOk result ((q : Text) → set.contains text_cmp categories.new q ≡ (is_among text_cmp (flat_map (category_at book.new.rows) ids.now) q || (is_among text_cmp (flat_map (category_at book.old.rows) ids.now) q || set.contains text_cmp categories.old q))) }
    ensures first { IfOk result (λ n. n ≡ earliest (earliest number (list_map (month_at_tx book.old.rows) ids.now)) (list_map (month_at_tx book.new.rows) ids.now)) }
    ensures cost { OnOk result (steps.new ≤ steps.old + 4 * length ids.now) }
{
    book.sizes();
    let first = pass_all(sums, book, categories, ids, false, number, steps)?;
    set_all(book, changes)?;
    pass_all(sums, book, categories, ids, true, first, steps)
}
