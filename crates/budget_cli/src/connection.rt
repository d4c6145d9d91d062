//! A connection of the network with limits of time.
ghost use Rattle.std.specs.Prelude.{◌≡◌, Ok, IfOk, IfSome};
ghost use Rattle.std.specs.Io.{ReadsAtMost, WritesAtMost};

use crate::pace::Pace;
use std::io;
use std::io::{ErrorKind, Read, Write};
use std::net::{OpenStream, Shutdown};
use std::time::{Clock, Duration, Instant};

/// How many milliseconds the other side has to end the connection once all is written.
const PARTING: u64 = 10_000;

/// How often a call is tried that a signal interrupts, or that waits on.
const MOST_TRIES: usize = 1_000_000;

/// A connection, since when it is open, and which bytes it waits for.
#[derive(Drop)]
pub struct Connection<S: Read + Write + OpenStream + Drop> {
    stream: S,
    since: Instant,
    pace: Pace,
}

/// The whole milliseconds of a time, or as many as there can be.
fn millis(time: Duration) -> u64 {
    u64::try_from(time.as_millis()).unwrap_or(u64::MAX)
}

/// Whether a call that failed so has waited for as long as it might.
fn has_waited(kind: ErrorKind) -> bool {
    kind == ErrorKind::WouldBlock || kind == ErrorKind::TimedOut
}

impl<S: Read + Write + OpenStream + Drop> Connection<S> {
    /// A connection that is open from now on.
    pub fn begin<C: Clock>(stream: S, clock: &C) -> io::Result<Connection<S>> {
        stream.set_nodelay(true)?;
        let since = Instant::now(clock)?;
        Ok(Connection {
            stream,
            since,
            pace: Pace::steady(),
        })
    }

    /// From now on a reply is awaited, which the other side may take some time to make.
    pub fn await_reply(&mut self) {
        self.pace = Pace::before_reply();
    }

    /// How many milliseconds the next call may wait. Fails where the connection is over.
    fn patience<C: Clock>(&self, clock: &C) -> io::Result<u64> {
        match self.pace.patience(millis(self.since.elapsed(clock)?)) {
            Some(patience) => Ok(patience),
            None => Err(ErrorKind::TimedOut.into()),
        }
    }

    /// What a call has come to that began then and might wait for so many milliseconds: the bytes that it moved, or none where it is to be
    /// tried again. Fails where the call did.
    fn moved<C: Clock>(
        &mut self,
        clock: &C,
        begun: Instant,
        patience: u64,
        call: io::Result<usize>,
    ) -> io::Result<Option<usize>>
        ensures told { IfOk result (λ moved. IfSome moved (λ n. call ≡ Ok n)) }
    {
        let waited = millis(begun.elapsed(clock)?);
        match call {
            Ok(count) => {
                self.pace = self.pace.after(waited, count as u64);
                Ok(Some(count))
            }
            Err(error) => {
                let waited = if has_waited(error.kind()) {
                    waited.max(patience)
                } else if error.kind() == ErrorKind::Interrupted {
                    waited
                } else {
                    return Err(error);
                };
                self.pace = self.pace.after(waited, 0);
                Ok(None)
            }
        }
    }

    /// Takes bytes that came. Fails where they are late, and where the connection is open for too long.
    pub fn read<C: Clock>(&mut self, clock: &C, buffer: &mut [u8]) -> io::Result<usize>
        ensures bound { ReadsAtMost result buffer.new }
    {
        for _ in 0..MOST_TRIES {
            let patience = self.patience(clock)?;
            self.stream
                .set_read_timeout(Some(Duration::from_millis(patience)))?;
            let begun = Instant::now(clock)?;
            let call = self.stream.read(buffer);
            if let Some(count) = self.moved(clock, begun, patience, call)? {
                return Ok(count);
            }
        }
        Err(ErrorKind::TimedOut.into())
    }

    /// Writes bytes from the front. Fails where the other side takes them too slowly, and where the connection is open for too long.
    pub fn write<C: Clock>(&mut self, clock: &C, bytes: &[u8]) -> io::Result<usize>
        ensures bound { WritesAtMost result bytes.now }
    {
        for _ in 0..MOST_TRIES {
            let patience = self.patience(clock)?;
            self.stream
                .set_write_timeout(Some(Duration::from_millis(patience)))?;
            let begun = Instant::now(clock)?;
            let call = self.stream.write(bytes);
            if let Some(count) = self.moved(clock, begun, patience, call)? {
                return Ok(count);
            }
        }
        Err(ErrorKind::TimedOut.into())
    }

    /// Ends the connection. What still comes is taken before, until the other side has ended too, for ten seconds at most: a connection that
    /// is given up with bytes left to read takes back what was written to it. Fails where the other side has not ended by then.
    pub fn end<C: Clock>(mut self, clock: &C) -> io::Result<()> {
        self.stream.shutdown(Shutdown::Write)?;
        let since = Instant::now(clock)?;
        let mut buffer = [0u8; 4096];
        for _ in 0..u64::MAX {
            let gone = millis(since.elapsed(clock)?);
            if gone >= PARTING {
                break;
            }
            self.stream
                .set_read_timeout(Some(Duration::from_millis(PARTING - gone)))?;
            match self.stream.read(&mut buffer) {
                Ok(0) => return Ok(()),
                Ok(_) => {}
                Err(error) => {
                    if error.kind() != ErrorKind::Interrupted {
                        return Err(error);
                    }
                }
            }
        }
        Err(ErrorKind::TimedOut.into())
    }
}
