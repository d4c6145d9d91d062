//! The lines of the latest messages, given piece by piece.
ghost use Rattle.std.specs.Prelude.{◌≡◌, ◌++◌, ◌<◌, ◌≤◌, List, [], length, IfOk, OnOk, MatchBool, MatchOption, string_bytes};
ghost use Rattle.std.specs.List.{flat_map};
ghost use Rattle.std.specs.Slice.Iter.{iter_rest};
ghost use Rattle.field_merge.specs.declared.message.Message.{Message};
ghost use Rattle.field_merge.specs.Log.{ended_line};
ghost use Rattle.field_merge.specs.Pieces.{IsPiece};

use crate::arrival::Arrival;
use crate::line::push_arrival;
use field_values::{NoMemory, Txt};
use std::alloc::Global;
use std::marker::Model;
use std::slice::Iter;

/// A piece ends with the line by which it has so many bytes.
const ENOUGH: usize = 1 << 16;

/// Room for most pieces.
const ROOM: usize = ENOUGH + (1 << 12);

/// Messages whose lines were not given yet. A contract sees their list.
#[derive(Drop)]
pub struct FieldLines<'a> {
    alloc: Global,
    left: Iter<'a, Arrival>,
}

impl<'a> Model for FieldLines<'a> {
    ghost use Rattle.std.specs.Prelude.{List};
    ghost use Rattle.std.specs.Slice.Iter.{iter_rest};
    ghost use Rattle.field_merge.specs.declared.message.Message.{Message};

    ghost Value = { List Message };

    ghost view = { λ l. iter_rest l.left };
}

/// Writes the line of a message that came and a line feed after a text.
pub(crate) fn push_ended_line(text: &mut String, arrival: &Arrival) -> Result<(), NoMemory>
    ensures { OnOk result (string_bytes text.new ≡ string_bytes text.old ++ ended_line arrival.now) }
{
    push_arrival(text, arrival)?;
    text.push_str("\n")?;
    Ok(())
}

/// Writes the line of the first of the messages after a text, where there is one, and says whether there is.
fn push_first(text: &mut String, left: &mut Iter<'_, Arrival>) -> Result<bool, NoMemory>
    ensures lines { OnOk result (string_bytes text.new ++ flat_map ended_line (iter_rest left.new) ≡ string_bytes text.old ++ flat_map ended_line (iter_rest left.old)) }
    ensures fewer { length (iter_rest left.new) ≤ length (iter_rest left.old) }
    ensures some { IfOk result (λ some. MatchBool some (length (iter_rest left.new) < length (iter_rest left.old)) ((iter_rest left.old ≡ []) × (iter_rest left.new ≡ []))) }
    ensures one { IfOk result (λ some. MatchBool some ((m : Message) × (string_bytes text.new ≡ string_bytes text.old ++ ended_line m)) (string_bytes text.new ≡ string_bytes text.old)) }
{
    let Some(arrival) = left.next() else {
        return Ok(false);
    };
    push_ended_line(text, arrival)?;
    Ok(true)
}

impl<'a> FieldLines<'a> {
    pub(crate) fn new(alloc: Global, left: Iter<'a, Arrival>) -> FieldLines<'a>
        ensures { result ≡ iter_rest left.entry }
    {
        FieldLines { alloc, left }
    }

    /// The lines of the next messages, each with a line feed: 64 KiB and the rest of a line, or all that are left. `None` says
    /// that no message is left. After `NoMemory` lines may be lost, so ask for no more
    /// pieces then.
    pub fn next_piece(&mut self) -> Result<Option<Txt>, NoMemory>
        ensures lines { IfOk result (λ piece. MatchOption piece ((self.old ≡ []) × (self.new ≡ []))
            (λ text. (flat_map ended_line self.old ≡ text ++ flat_map ended_line self.new) × (length self.new < length self.old))) }
        ensures size { IfOk result (λ piece. MatchOption piece (Unit {0}) (IsPiece self.new)) }
    {
        let mut text = String::with_capacity(self.alloc, ROOM)?;
        if !push_first(&mut text, &mut self.left)? {
            return Ok(None);
        }
        'lines: while text.len() < ENOUGH {
            if !push_first(&mut text, &mut self.left)? {
                break;
            }
        }
        Ok(Some(Txt::new(text)))
    }
}
