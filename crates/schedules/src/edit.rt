//! Edits of schedules.
ghost use Rattle.std.specs.Prelude.{◌≡◌, IfOk};

use book_rows::copied;
use field_values::{NoMemory, Txt};

/// An edit of a schedule. Amounts are in cents.
#[derive(Debug, Drop)]
pub enum ScheduleEdit {
    /// Adds a schedule, and the rule that says when, from which account, to whom if somebody, and how much. The recurrence is JSON.
    Add {
        id: Option<Txt>,
        name: Txt,
        account: Txt,
        payee: Option<Txt>,
        amount: i64,
        recur: Txt,
    },
    /// Makes the transaction of a schedule's next day.
    Post {
        id: Txt,
    },
    /// Goes on to the day that follows the next one. Where none follows, the schedule has ended.
    Skip {
        id: Txt,
    },
    /// Deletes a schedule. Its rule stays.
    Delete {
        id: Txt,
    },
}

impl ScheduleEdit {
    /// An equal edit.
    pub fn copy(&self) -> Result<ScheduleEdit, NoMemory>
        ensures { IfOk result (λ edit. edit ≡ self.now) }
    {
        match self {
            ScheduleEdit::Add {
                id,
                name,
                account,
                payee,
                amount,
                recur,
            } => Ok(ScheduleEdit::Add {
                id: copied(id)?,
                name: name.copy()?,
                account: account.copy()?,
                payee: copied(payee)?,
                amount: *amount,
                recur: recur.copy()?,
            }),
            ScheduleEdit::Post { id } => Ok(ScheduleEdit::Post { id: id.copy()? }),
            ScheduleEdit::Skip { id } => Ok(ScheduleEdit::Skip { id: id.copy()? }),
            ScheduleEdit::Delete { id } => Ok(ScheduleEdit::Delete { id: id.copy()? }),
        }
    }
}
