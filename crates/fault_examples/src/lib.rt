//! Examples of runs of which a call of the outside fails, or finds no memory: the first call, the second, and so on, of each object. The
//! runs are those of a device with a household's lines, of a server with three requests, and of a device with a sync of two turns. Each
//! row says what becomes of one run; `checks/faults.py` works the rows out from docs/FORMATS.md, writes them, and compares them with those
//! here where it is run with `--check`. And values are changed, each of which is spent, or as it was, where it finds no memory.
#![tactic(auto)]

#[cfg(test)]
mod contents;
#[cfg(test)]
mod household;
#[cfg(test)]
mod requests;
#[cfg(test)]
mod running;
#[cfg(test)]
mod short;
#[cfg(test)]
mod spent;
#[cfg(test)]
mod syncs;
