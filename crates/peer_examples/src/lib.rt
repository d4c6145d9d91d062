//! Examples of devices over a link whose far end is the server, and of replies that break off, with ample memory. Requests, replies and
//! tries were written by a few lines of another program, from the public descriptions of Protocol Buffers, of HTTP/1.1 and of MurmurHash3.
#![tactic(auto)]

#[cfg(test)]
mod cuts;
#[cfg(test)]
mod devices;
#[cfg(test)]
mod meetings;
#[cfg(test)]
mod pieces;
#[cfg(test)]
mod replies;
