//! Examples of the cells that a device keeps: what they tell through a long run of edits, and that such a run takes no longer than kept cells do.
#![tactic(auto)]

#[cfg(test)]
mod chance;
#[cfg(test)]
mod edits;
#[cfg(test)]
mod looks;
#[cfg(test)]
mod running;
