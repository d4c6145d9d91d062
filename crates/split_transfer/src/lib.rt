//! Edits of single transactions, splits and transfers: what each writes, or the first reason why it is refused.
//!
//! An edit ([`PairEdit`]) is checked against the rows of a book in a fixed order, and gives its writes in a fixed order
//! ([`pair_writes`]). What was right stays right ([`pairs_and_splits_stay_right`]); where messages of several devices have made a
//! pair or a split wrong, [`broken`] tells it.
#![tactic(auto)]

mod breaks;
mod changes;
mod checks;
mod edit;
mod fields;
mod given;
mod laws;
mod making;
mod pairs;
mod splits;
mod transfers;
mod writing;

pub use breaks::broken;
pub use edit::{PairEdit, SplitPart, TxChange};
pub use fields::day_or_null;
pub use laws::{
    broken_tells_all, links_are_told, pairs_and_splits_stay_right,
    plain_edits_keep_pairs_and_splits,
};
pub use making::pair_writes;
pub use pairs::{live_row, partner_of};
