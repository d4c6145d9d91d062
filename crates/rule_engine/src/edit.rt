//! Edits of rules, and of transactions by rules.
ghost use Rattle.std.specs.Prelude.{◌≡◌, IfOk};

use crate::rule::{RuleOp, Stage};
use book_rows::copied;
use field_values::{Items, NoMemory, Txt};
use std::alloc::Global;

/// An edit of the rules of a book, or of transactions by its rules.
#[derive(Debug, Drop)]
pub enum RuleEdit {
    /// Adds a rule. An id that is left out is a new one: the text of the timestamp of the row's first write. Conditions and actions
    /// are JSON.
    RuleAdd {
        id: Option<Txt>,
        stage: Stage,
        op: RuleOp,
        conditions: Txt,
        actions: Txt,
    },
    /// Deletes a rule.
    RuleDelete {
        id: Txt,
    },
    /// Runs the rules of the book on each of these transactions: those that were not deleted and can be read.
    RulesRun {
        ids: Items<Txt>,
    },
}

impl RuleEdit {
    /// An equal edit.
    pub fn copy(&self, alloc: Global) -> Result<RuleEdit, NoMemory>
        ensures { IfOk result (λ edit. edit ≡ self.now) }
    {
        match self {
            RuleEdit::RuleAdd {
                id,
                stage,
                op,
                conditions,
                actions,
            } => Ok(RuleEdit::RuleAdd {
                id: copied(id)?,
                stage: *stage,
                op: *op,
                conditions: conditions.copy()?,
                actions: actions.copy()?,
            }),
            RuleEdit::RuleDelete { id } => Ok(RuleEdit::RuleDelete { id: id.copy()? }),
            RuleEdit::RulesRun { ids } => Ok(RuleEdit::RulesRun {
                ids: ids.copy(alloc)?,
            }),
        }
    }
}
