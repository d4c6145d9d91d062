//! The tables of a store, of both versions: what each statement means over them, and what it does.
//!
//! There is little code here: records are added to a group of a store of the second version (`group_id`, `enter`), and those of the
//! first version are copied (`copy_all`). The rest are laws.
#![tactic(auto)]

mod copying;
mod laws;

pub use copying::{copy_all, enter, group_id};
pub use laws::{
    copies_are_whole, entries_are_made, groups_are_made, layouts_are_known, records_are_told,
    stores_are_read, tables_are_laid_out, tables_are_made, texts_are, texts_are_put,
    texts_are_told, texts_have_their_table,
};
