//! Examples of the lower layers, one file for each crate: their public calls with ample memory, on values that were written out
//! by hand from the rules or that another program gave.
#![tactic(auto)]

#[cfg(test)]
mod clock;
#[cfg(test)]
mod messages;
#[cfg(test)]
mod ports;
#[cfg(test)]
mod tries;
#[cfg(test)]
mod values;
#[cfg(test)]
mod wire;
