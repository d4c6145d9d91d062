//! The link of the program. It is the edge of what is proved: what the network gives and takes is not
//! told, but each failure raises a count.
ghost use Rattle.std.specs.Prelude.{◌≡◌, ◌≤◌, ◌<◌, ◌∷◌, [], length, None, IfOk, OnOk, OnErr, IsErr};
ghost use Rattle.budget_ports.specs.Exchanges.{Adds, Gets, begun};
ghost use Rattle.budget_ports.specs.Faults.{risen, count_after};
ghost use Rattle.budget_ports.specs.Keeper.{has_failed};

use crate::connection::Connection;
use budget_ports::{Link, PortFault};
use std::alloc::Global;
use std::io;
use std::io::{ErrorKind, Read, Write};
use std::net::{Net, OpenStream, TcpStream, ToSocketAddrs};
use std::time::{Clock, Duration};

/// How many seconds a server has to let a connection in.
const PATIENCE: u64 = 10;

/// The most bytes that are taken of a reply: one more than a reply may have.
const MOST_BYTES: usize = 268_435_457;

/// A connection to an address, such as `127.0.0.1:5006`: to the first of its places that lets one in.
fn connect<N: Net>(net: &N, address: &str) -> io::Result<N::Stream> {
    for place in address.to_socket_addrs(net)? {
        let patience = Duration::from_secs(PATIENCE);
        if let Ok(stream) = TcpStream::connect_timeout(net, &place, patience) {
            return Ok(stream);
        }
    }
    Err(ErrorKind::ConnectionRefused.into())
}

/// Writes all bytes.
fn write_all<S: Read + Write + OpenStream + Drop, C: Clock>(
    connection: &mut Connection<S>,
    clock: &C,
    bytes: &[u8],
) -> io::Result<()> {
    let mut at = 0;
    'writes: while at < bytes.len() {
        let count = connection.write(clock, &bytes[at..])?;
        if count == 0 {
            return Err(ErrorKind::WriteZero.into());
        }
        at += count;
    }
    Ok(())
}

/// The bytes that come until the other side ends, at most one more than a reply may have.
fn read_reply<S: Read + Write + OpenStream + Drop, C: Clock>(
    alloc: Global,
    connection: &mut Connection<S>,
    clock: &C,
) -> Result<Vec<u8>, PortFault>
    ensures { IfOk result (λ got. length got.items ≤ 268_435_457) }
{
    connection.await_reply();
    let mut got = Vec::new(alloc);
    let mut buffer = [0u8; 4096];
    'reads: while got.len() < MOST_BYTES {
        let wanted = buffer.len().min(MOST_BYTES - got.len());
        let Ok(count) = connection.read(clock, &mut buffer[..wanted]) else {
            return Err(PortFault::Failed);
        };
        if count == 0 {
            return Ok(got);
        }
        if got.extend_from_slice(&buffer[..count]).is_err() {
            return Err(PortFault::NoMemory);
        }
    }
    Ok(got)
}

/// A link over the network to the server at an address, the connection on which something was sent, and how often the link has failed.
///
/// Each request has a connection of its own, which is let go when its reply was read.
#[derive(Drop)]
pub struct TcpLink<'a, N: Net, C: Clock> {
    alloc: Global,
    net: &'a N,
    clock: C,
    peer: Option<&'a str>,
    asked: Option<Connection<N::Stream>>,
    faults: u64,
}

impl<'a, N: Net, C: Clock> TcpLink<'a, N, C> {
    /// A link to the server at an address. Where there is none, each call fails. It has not failed.
    pub fn new(alloc: Global, net: &'a N, clock: C, peer: Option<&'a str>) -> TcpLink<'a, N, C>
        ensures peer { result.peer ≡ peer.entry }
        ensures unasked { result.asked ≡ None }
        ensures faults { result.faults ≡ 0 }
    {
        TcpLink {
            alloc,
            net,
            clock,
            peer,
            asked: None,
            faults: 0,
        }
    }

    /// A connection to the server, on which these bytes were written.
    fn begin(&self, address: &str, bytes: &[u8]) -> io::Result<Connection<N::Stream>> {
        let stream = connect(self.net, address)?;
        let mut connection = Connection::begin(stream, &self.clock)?;
        write_all(&mut connection, &self.clock, bytes)?;
        Ok(connection)
    }

    /// Counts a failure. All else stays as it is.
    fn fail(&mut self) -> PortFault
        ensures counted { self.new ≡ record self.old { faults = risen self.old.faults } }
        ensures failed { result ≡ PortFault.Failed }
    {
        self.faults = self.faults.saturating_add(1);
        PortFault::Failed
    }
}

impl<'a, N: Net, C: Clock> Link for TcpLink<'a, N, C> {
    ghost exchanges = { λ _. None };

    ghost faults = { λ l. l.faults };

    /// Connects, and writes the bytes. Fails where there is no server, where it doesn't let the connection in within ten seconds, where ten
    /// seconds of waiting take less than 4,096 bytes, and where the connection has been open for ten minutes but for ten seconds.
    fn send(&mut self, bytes: &[u8]) -> Result<(), PortFault>
        // what each link promises
        ensures ok { OnOk result (Adds None None (begun bytes.now ∷ [])) }
        ensures err { OnErr result (Adds None None []) }
        ensures count { self.new.faults ≡ count_after (has_failed result) self.old.faults }

        // what this one does
        ensures alone { self.old.peer ≡ None → IsErr result }
        ensures peer { self.new.peer ≡ self.old.peer }
    {
        if let Some(address) = self.peer {
            if let Ok(connection) = self.begin(address, bytes) {
                self.asked = Some(connection);
                return Ok(());
            }
        }
        Err(self.fail())
    }

    /// Reads until the server ends the connection, or more bytes have come than a reply may have, and ends it too. Fails where nothing was sent,
    /// where the server sends nothing for half a minute, where ten seconds of waiting bring less than 4,096 bytes behind the first one, and
    /// where the connection has been open for ten minutes but for ten seconds.
    fn receive(&mut self) -> Result<Vec<u8>, PortFault>
        // what each link promises
        ensures ok { IfOk result (λ got. Gets None None got.items) }
        ensures err { OnErr result (Adds None None []) }
        ensures count { self.new.faults ≡ count_after (has_failed result) self.old.faults }

        // what this one does
        ensures bound { IfOk result (λ got. length got.items ≤ 268_435_457) }
        ensures closed { self.old.asked ≡ None → IsErr result }
        ensures ended { self.new.asked ≡ None }
        ensures peer { self.new.peer ≡ self.old.peer }
    {
        if let Some(mut connection) = self.asked.take() {
            match read_reply(self.alloc, &mut connection, &self.clock) {
                Ok(got) => return Ok(got),
                Err(PortFault::NoMemory) => return Err(PortFault::NoMemory),
                Err(PortFault::Failed) => {}
            }
        }
        Err(self.fail())
    }
}
