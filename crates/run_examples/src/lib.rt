//! Examples of runs and of lines: the public calls of `budget_top` and `command_lines` over objects in memory, as rows that were
//! written out by hand from the rules or that another program gave.
#![tactic(auto)]

#[cfg(test)]
mod books;
#[cfg(test)]
mod calls;
#[cfg(test)]
mod checks;
#[cfg(test)]
mod conditions;
#[cfg(test)]
mod goals;
#[cfg(test)]
mod mappings;
#[cfg(test)]
mod pairs;
#[cfg(test)]
mod reads;
#[cfg(test)]
mod rules;
#[cfg(test)]
mod runs;
#[cfg(test)]
mod scheduled;
#[cfg(test)]
mod scores;
#[cfg(test)]
mod statements;
#[cfg(test)]
mod syncs;
#[cfg(test)]
mod table;
#[cfg(test)]
mod tracking;
#[cfg(test)]
mod undo;
#[cfg(test)]
mod words;
#[cfg(test)]
mod worlds;
