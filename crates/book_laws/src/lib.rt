//! What is true of all books, of their edits, histories and sheets, beyond what the crates that make them say.
//!
//! There is no code here: the definitions are those of `book_rows`, `book_edits`, `split_transfer`, `edit_history` and
//! `envelope_cells`, and each law says of some of them, in the subject's words, what a wrong definition would break.
#![tactic(auto)]

mod laws;

pub use laws::{
    balances_are_told, categories_are_handed_on, cells_add_up, changes_do, changes_do_no_more,
    columns_are_told, edits_show_on_sheets, gains_are_told, histories_go_back, kept_rows_are_told,
    mappings_are_taken_back, months_are_named, months_are_numbered, one_step_is_taken,
    pair_edits_are_judged, payees_are_merged, plain_edits_are_judged, plain_edits_do,
    plain_edits_do_no_more, rows_are_undone, sheets_are_in_order, splits_make_parts,
    sums_are_of_transactions, transactions_are_listed, transfers_are_of_accounts, transfers_move,
    values_are_read, wrong_ones_are_told,
};
