//! Schedules, and the recurrences by which their days come.
//!
//! A recurrence ([`Recurrence`]) is read from JSON ([`read_recur`]); its days are asked for one after the other ([`next`]), or from one
//! day to another ([`occurrences`]). A schedule has a status on each day ([`status`]), and an edit of one ([`ScheduleEdit`]) gives its
//! writes, or the first reason why it is refused ([`schedule_writes`]).
#![tactic(auto)]

mod adding;
mod changes;
mod conditions;
mod conditions_text;
mod copying;
mod dates;
mod edit;
mod floats;
mod given;
mod laws;
mod making;
mod meant;
mod month;
mod raw;
mod reading;
mod recurrence;
mod standing;
mod terms;
mod upcoming;
mod writing;

pub use edit::ScheduleEdit;
pub use laws::{days_have_dates, months_go_on, occurrences_are_told, statuses_are_told};
pub use making::schedule_writes;
pub use reading::read_recur;
pub use recurrence::{Ending, Frequency, Pattern, Recurrence, Weekends};
pub use standing::{ScheduleStatus, status};
pub use upcoming::{next, occurrences};
