//! Examples of stores: the keeper over SQLite by its public calls, over memory, over files that stop at some call, and over a real
//! file. Expected values are written out by hand from the rules.
#![tactic(auto)]

#[cfg(test)]
mod files;
#[cfg(test)]
mod moves;
#[cfg(test)]
mod script;
#[cfg(test)]
mod stops;
#[cfg(test)]
mod stores;
