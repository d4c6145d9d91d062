//! A device: the messages that it knows, with their trie and their book, its clock, and the records of new
//! messages that are not kept yet.
#![tactic(auto)]

mod device;
mod edit;
mod known;
mod laws;
mod placing;
mod sheet;

pub use bank_import::ImportEdit;
pub use book_edits::BookEdit;
pub use book_rows::{EditFault, RowName, Write, WriteValue};
pub use device::Device;
pub use edit::{Edit, LineRefusal};
pub use envelope_cells::name::Sheet;
pub use envelope_cells::{Cell, CellKind, CellName};
pub use kept_messages::StartFault;
pub use laws::{
    accepted_are_joined, books_follow_messages, devices_begin, edits_are_made, edits_read_back,
    entries_are_taken_back, greatest_is_told, lines_are_undone, messages_are_answered,
    received_are_joined, writes_are_answered, writes_are_joined,
};
pub use rule_engine::{RuleEdit, RuleOp, Stage};
pub use schedules::ScheduleEdit;
pub use split_transfer::{PairEdit, SplitPart, TxChange};
