//! Examples of stops: the run of a device with a household's lines over a store in memory, of which the log or the database fails from some
//! call on, the first call, the second, and so on, until a run ends with no stop. After each the store is opened again, and has the messages
//! of all lines that were answered, and of the next one all or none. The lines, the replies and the messages are written by
//! `checks/faults.py` from docs/FORMATS.md.
#![tactic(auto)]

#[cfg(test)]
mod household;
#[cfg(test)]
mod running;
#[cfg(test)]
mod stops;
