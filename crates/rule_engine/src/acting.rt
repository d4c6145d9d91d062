//! What an action makes of a transaction.
ghost use Rattle.std.specs.Prelude.{◌≡◌, ◌++◌, IfOk};
ghost use Rattle.book_rows.specs.Live.{is_live_payee, is_live_category};
ghost use Rattle.rule_engine.specs.Running.{noted, if_given, takes_none, acted};

use crate::holding::or_empty;
use crate::rule::Action;
use book_edits::checks::{is_live_category, is_live_payee};
use book_edits::writing::copied;
use book_rows::{Book, TxRow};
use field_values::{NoMemory, Txt};
use split_transfer::partner_of;
use std::alloc::Global;

/// Whether a payee is live, or none is given.
fn may_have_payee(book: &Book, id: &Option<Txt>) -> bool
    ensures { result ≡ if_given (is_live_payee book.now.rows) id.now }
{
    match id {
        Some(id) => is_live_payee(book, id),
        None => true,
    }
}

/// Whether a category is live, or none is given.
fn may_have_category(book: &Book, id: &Option<Txt>) -> bool
    ensures { result ≡ if_given (is_live_category book.now.rows) id.now }
{
    match id {
        Some(id) => is_live_category(book, id),
        None => true,
    }
}

/// Whether a transaction is split, or is in a pair.
fn takes_none(book: &Book, row: &TxRow) -> bool
    ensures { result ≡ takes_none book.now.rows row.now }
{
    row.is_parent || partner_of(book, &row.id, row).is_some()
}

/// One text behind another.
fn joined(alloc: Global, front: &str, back: &str) -> Result<Txt, NoMemory>
    ensures { IfOk result (λ t. t ≡ front.now ++ back.now) }
{
    let mut text = String::from_str(alloc, front)?;
    text.push_str(back)?;
    Ok(Txt::new(text))
}

/// Notes, which are none where they are empty.
fn noted(text: Txt) -> Option<Txt>
    ensures { result ≡ noted text }
{
    if text.bytes().is_empty() {
        None
    } else {
        Some(text)
    }
}

/// What an action makes of a transaction.
#[tactic(auto, unfolding(crate::specs::Running::acted))]
pub(crate) fn act(
    alloc: Global,
    book: &Book,
    action: &Action,
    row: TxRow,
) -> Result<TxRow, NoMemory>
    ensures { IfOk result (λ x. x ≡ acted book.now.rows row action.now) }
{
    let mut now = row;
    match action {
        Action::SetDescription(payee) => {
            if may_have_payee(book, payee) {
                now.description = copied(payee)?;
            }
        }
        Action::SetCategory(category) => {
            if !takes_none(book, &now) && may_have_category(book, category) {
                now.category = copied(category)?;
            }
        }
        Action::SetNotes(text) => now.notes = noted(text.copy()?),
        Action::SetCleared(set) => now.cleared = *set,
        Action::PrependNotes(text) => {
            now.notes = noted(joined(alloc, text.as_str(), or_empty(&now.notes))?);
        }
        Action::AppendNotes(text) => {
            now.notes = noted(joined(alloc, or_empty(&now.notes), text.as_str())?);
        }
        Action::LinkSchedule(id) => now.schedule = Some(id.copy()?),
    }
    Ok(now)
}
