//! Examples of books, sheets and recurrences: the public calls of `book_rows`, `envelope_cells` and `tracking_budget`, and some of
//! `schedules`, with ample memory, on values that were written out by hand from the rules, or that another program gave.
#![tactic(auto)]

#[cfg(test)]
mod books;
#[cfg(test)]
mod copies;
#[cfg(test)]
mod recurring;
#[cfg(test)]
mod sheets;
#[cfg(test)]
mod tracking;
