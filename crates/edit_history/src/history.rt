//! The entries that can be undone and redone.
ghost use Rattle.std.specs.Prelude.{◌≡◌, OnOk, IfSome};
ghost use Rattle.std.specs.Option.{option_copied};
ghost use Rattle.edit_history.specs.History.{no_entries, latest_of, after, IsEntry, AreEntries};

use crate::before::Before;
use field_values::{Items, NoMemory};
use std::alloc::Global;
use std::marker::Model;

/// Which line makes writes.
#[derive(Clone, Copy, Debug, PartialEq, Eq)]
pub enum Turn {
    /// An edit.
    New,
    /// One that undoes the latest entry that can be undone.
    Undo,
    /// One that redoes the latest entry that can be redone.
    Redo,
}

/// The entries that can be undone, and those that can be redone, of each the latest at the end.
#[derive(Debug, Drop)]
pub struct History {
    undo: Vec<Items<Before>>,
    redo: Vec<Items<Before>>,
}

impl Model for History {
    ghost use Rattle.edit_history.specs.History.{Entries, AreEntries};

    ghost Value = { Entries };

    ghost view = { λ h. record { undo = h.undo.items; redo = h.redo.items } };

    ghost invariant = { λ h. AreEntries (record { undo = h.undo.items; redo = h.redo.items }) };
}

impl History {
    /// Nothing can be undone or redone.
    pub fn new(alloc: Global) -> History
        ensures { result ≡ no_entries }
    {
        History {
            undo: Vec::new(alloc),
            redo: Vec::new(alloc),
        }
    }

    /// The latest entry that can be undone.
    pub fn undo(&self) -> Option<&Items<Before>>
        ensures entry { option_copied result ≡ latest_of self.now.undo }
        ensures valid { IfSome result (λ entry. IsEntry entry.now) }
    {
        self.undo.as_slice().last()
    }

    /// The latest entry that can be redone.
    pub fn redo(&self) -> Option<&Items<Before>>
        ensures entry { option_copied result ≡ latest_of self.now.redo }
        ensures valid { IfSome result (λ entry. IsEntry entry.now) }
    {
        self.redo.as_slice().last()
    }

    /// Goes on after a line that made writes, with what it wrote over. After want of memory entries may be lost.
    pub fn advance(&mut self, turn: Turn, entry: Items<Before>) -> Result<(), NoMemory>
        requires { IsEntry entry }
        ensures { OnOk result (self.new ≡ after turn self.old entry) }
    {
        match turn {
            Turn::New => {
                self.redo.clear();
                self.undo.push(entry)?;
            }
            Turn::Undo => {
                self.undo.pop();
                self.redo.push(entry)?;
            }
            Turn::Redo => {
                self.redo.pop();
                self.undo.push(entry)?;
            }
        }
        Ok(())
    }

    /// Each entry is valid.
    pub fn tell_entries(&self)
        ensures { AreEntries self.now }
    {
        let _ = &self.undo;
    }
}
