//! Examples of a sync, from both ends, with ample memory: connections of the server, and a device that talks to one, as rows. Requests,
//! replies and tries were written by a few lines of another program, from the public descriptions of Protocol Buffers, of HTTP/1.1 and
//! of MurmurHash3.
#![tactic(auto)]

#[cfg(test)]
mod changed;
#[cfg(test)]
mod copies;
#[cfg(test)]
mod serving;
#[cfg(test)]
mod sides;
#[cfg(test)]
mod talks;
