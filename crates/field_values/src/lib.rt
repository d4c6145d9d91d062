//! The plainest parts of a budget's messages: texts, the values of fields, the names of fields, lists and a counter of steps.
//!
//! A value and its text are one to one ([`values_read_back`], [`texts_write_back`]). Names without a fault are exactly
//! those that a field may have, and a fault that is told is the first thing that is wrong with them ([`faults_are_told`]).
//! Fields are equal where their names are, and ordered by them ([`fields_are_ordered`]).
#![tactic(auto)]

pub mod field;
pub mod items;
pub mod key;
mod laws;
pub mod memory;
pub mod name;
pub mod order;
pub mod steps;
pub mod text;
pub mod value;

pub use field::Field;
pub use items::{Copied, Items};
pub use key::FieldKey;
pub use laws::{faults_are_told, fields_are_ordered, texts_write_back, values_read_back};
pub use memory::NoMemory;
pub use name::{NameFault, NamePart, check_name};
pub use order::order_of_fronts;
pub use steps::Steps;
pub use text::{Txt, TxtFault};
pub use value::Value;
