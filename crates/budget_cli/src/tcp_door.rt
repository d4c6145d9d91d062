//! The door of the program. It is the edge of what is proved: what the network gives and takes is not
//! told, but each failure raises a count.
ghost use Rattle.std.specs.Prelude.{◌≡◌, ◌<◌, length, not, None, IfOk, IsErr, IsTrue, OnOk, false};
ghost use Rattle.std.specs.Option.{is_some};
ghost use Rattle.std.specs.Result.{is_err};
ghost use Rattle.std.specs.Io.{ReadsAtMost, WritesAtMost};
ghost use Rattle.budget_ports.specs.Faults.{risen, count_after};

use crate::causes::address_text;
use crate::connection::Connection;
use budget_ports::{Door, Failed};
use std::io;
use std::io::ErrorKind;
use std::net::{Net, OpenListener, TcpListener};
use std::time::Clock;

/// How often the next connection is let in where the one before it was given up.
const MOST_TRIES: usize = 1_000_000;

/// A door on the network, the connection that is open, and how often the door has failed.
///
/// Whoever is let in can hold up the others for so long as the limits of a connection say.
#[derive(Drop)]
pub struct TcpDoor<N: Net, C: Clock> {
    listener: Option<N::Listener>,
    visit: Option<Connection<N::Stream>>,
    clock: C,
    faults: u64,
    refusal: Option<&'static str>,
}

/// Whether a connection can't be let in that its other side has given up, or to which the way is lost. A signal may also have interrupted
/// the call. The connection behind it may be let in.
fn is_given_up(kind: ErrorKind) -> bool {
    matches!(
        kind,
        ErrorKind::ConnectionAborted
            | ErrorKind::ConnectionReset
            | ErrorKind::HostUnreachable
            | ErrorKind::NetworkUnreachable
            | ErrorKind::NetworkDown
            | ErrorKind::Interrupted
    )
}

/// Lets in the next connection that was not given up.
fn let_in<L: OpenListener>(listener: &L) -> io::Result<L::Stream> {
    for _ in 0..MOST_TRIES {
        match listener.accept() {
            Ok((stream, _)) => return Ok(stream),
            Err(error) => {
                if !is_given_up(error.kind()) {
                    return Err(error);
                }
            }
        }
    }
    Err(ErrorKind::ConnectionAborted.into())
}

impl<N: Net, C: Clock> TcpDoor<N, C> {
    /// A door that lets nobody in: each call fails. It has not failed.
    pub fn shut(clock: C) -> TcpDoor<N, C>
        ensures listener { result.listener ≡ None }
        ensures visit { result.visit ≡ None }
        ensures faults { result.faults ≡ 0 }
    {
        TcpDoor {
            listener: None,
            visit: None,
            clock,
            faults: 0,
            refusal: None,
        }
    }

    /// A door that listens at an address, such as `127.0.0.1:5006`. Where that is refused it is shut, and knows why.
    /// It has not failed.
    pub fn listen(net: &N, clock: C, address: &str) -> TcpDoor<N, C>
        ensures visit { result.visit ≡ None }
        ensures faults { result.faults ≡ 0 }
        ensures refusal { is_some result.refusal ≡ not (is_some result.listener) }
    {
        let (listener, refusal) = match TcpListener::bind(net, address) {
            Ok(listener) => (Some(listener), None),
            Err(error) => (None, Some(address_text(error.kind()))),
        };
        TcpDoor {
            listener,
            visit: None,
            clock,
            faults: 0,
            refusal,
        }
    }

    /// Why it was refused to listen, if it was.
    pub fn refusal(&self) -> Option<&'static str>
        ensures { result ≡ self.now.refusal }
    {
        self.refusal
    }

    /// Counts a failure. All else stays as it is.
    fn fail(&mut self) -> Failed
        ensures { self.new ≡ record self.old { faults = risen self.old.faults } }
    {
        self.faults = self.faults.saturating_add(1);
        Failed
    }
}

impl<N: Net, C: Clock> Door for TcpDoor<N, C> {
    ghost waiting = { λ _. None };

    ghost left = { λ _. None };

    ghost outs = { λ _. None };

    ghost is_open = { λ d. is_some d.visit };

    ghost faults = { λ d. d.faults };

    /// Waits for the next connection, however long that is. One that its other side gave up before it was let in is passed over.
    /// A connection on which no call could be made isn't served: each call on it fails.
    fn accept(&mut self) -> Result<(), Failed>
        // what each door promises
        ensures count { self.new.faults ≡ count_after (is_err result) self.old.faults }

        // what this one does
        ensures shut { self.old.listener ≡ None → IsErr result }
        ensures listener { self.new.listener ≡ self.old.listener }
    {
        if let Some(listener) = &self.listener {
            if let Ok(stream) = let_in(listener) {
                self.visit = Connection::begin(stream, &self.clock).ok();
                return Ok(());
            }
        }
        Err(self.fail())
    }

    /// Fails where no connection is open, where ten seconds of waiting bring less than 4,096 bytes, and where
    /// the connection has been open for ten minutes but for ten seconds.
    fn read(&mut self, buffer: &mut [u8]) -> Result<usize, Failed>
        requires { 0 < length buffer.old }

        // what each door promises
        ensures bound { ReadsAtMost result buffer.new }
        ensures open { OnOk result (IsTrue (is_some self.old.visit)) × (IsTrue (is_some self.new.visit) → IsTrue (is_some self.old.visit)) }
        ensures count { self.new.faults ≡ count_after (is_err result) self.old.faults }

        // what this one does
        ensures closed { self.old.visit ≡ None → IsErr result }
        ensures listener { self.new.listener ≡ self.old.listener }
    {
        if let Some(visit) = &mut self.visit {
            if let Ok(count) = visit.read(&self.clock, buffer) {
                return Ok(count);
            }
        }
        Err(self.fail())
    }

    /// Fails where no connection is open, where ten seconds of waiting take less than 4,096 bytes, and where
    /// the connection has been open for ten minutes but for ten seconds. A connection that takes none of some bytes has failed.
    fn write(&mut self, bytes: &[u8]) -> Result<usize, Failed>
        // what each door promises
        ensures bound { WritesAtMost result bytes.now }
        ensures some { IfOk result (λ n. 0 < length bytes.now → 0 < n) }
        ensures open { OnOk result (IsTrue (is_some self.old.visit)) × (IsTrue (is_some self.new.visit) → IsTrue (is_some self.old.visit)) }
        ensures count { self.new.faults ≡ count_after (is_err result) self.old.faults }

        // what this one does
        ensures closed { self.old.visit ≡ None → IsErr result }
        ensures listener { self.new.listener ≡ self.old.listener }
    {
        if let Some(visit) = &mut self.visit {
            match visit.write(&self.clock, bytes) {
                Ok(count) if count > 0 || bytes.is_empty() => return Ok(count),
                _ => {}
            }
        }
        Err(self.fail())
    }

    /// Fails where no connection is open, and where the other side doesn't end its own within ten seconds.
    /// No connection is open then.
    fn close(&mut self) -> Result<(), Failed>
        // what each door promises
        ensures shut { is_some self.new.visit ≡ false }
        ensures count { self.new.faults ≡ count_after (is_err result) self.old.faults }

        // what this one does
        ensures closed { self.old.visit ≡ None → IsErr result }
        ensures listener { self.new.listener ≡ self.old.listener }
    {
        if let Some(visit) = self.visit.take() {
            if visit.end(&self.clock).is_ok() {
                return Ok(());
            }
        }
        Err(self.fail())
    }
}
