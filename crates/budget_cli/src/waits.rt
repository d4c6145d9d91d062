//! Tests of what a connection waits for, over a network and a clock that are set by hand.
use crate::connection::Connection;
use crate::tcp_door::TcpDoor;
use crate::tcp_link::TcpLink;
use budget_ports::{Door, Failed, Link};
use std::alloc::Global;
use std::cell::Cell;
use std::io;
use std::io::{ErrorKind, Read, Write};
use std::net::{Ipv4Addr, Net, OpenListener, OpenStream, Shutdown, SocketAddr, SocketAddrV4};
use std::os::fd::{AsRawFd, RawFd};
use std::test::Fail;
use std::time::{Clock, Duration};

/// A clock that tells the milliseconds that have passed by hand.
#[derive(Drop)]
struct HandClock {
    now: Cell<u64>,
}

impl HandClock {
    /// A clock at its start.
    fn new() -> HandClock {
        HandClock { now: Cell::new(0) }
    }

    /// Time passes.
    fn pass(&self, millis: u64) {
        self.now.set(self.now.get().saturating_add(millis));
    }
}

impl Clock for HandClock {
    fn monotonic(&self) -> io::Result<Duration> {
        Ok(Duration::from_millis(self.now.get()))
    }

    fn since_1970(&self) -> io::Result<Duration> {
        Ok(Duration::from_millis(self.now.get()))
    }
}

/// Bytes that move piece by piece, each so many milliseconds after the one before it, until so many have moved.
#[derive(Clone, Copy, Drop)]
struct Pieces {
    gap: u64,
    piece: usize,
    left: usize,
}

/// The other side of a connection: it sends pieces and then ends its own side, and takes pieces.
#[derive(Drop)]
struct Peer<'a> {
    clock: &'a HandClock,
    sends: Pieces,
    takes: Pieces,
    sent_at: u64,
    taken_at: u64,
    patience: Cell<u64>,
}

impl<'a> Peer<'a> {
    /// One that sends and takes these.
    fn new(clock: &'a HandClock, sends: Pieces, takes: Pieces) -> Peer<'a> {
        Peer {
            clock,
            sends,
            takes,
            sent_at: clock.now.get(),
            taken_at: clock.now.get(),
            patience: Cell::new(0),
        }
    }

    /// Waits until the time, or as long as a call may wait.
    fn wait(&self, until: u64) -> io::Result<()> {
        let wait = until.saturating_sub(self.clock.now.get());
        if wait > self.patience.get() {
            self.clock.pass(self.patience.get());
            return Err(ErrorKind::WouldBlock.into());
        }
        self.clock.pass(wait);
        Ok(())
    }

    /// How long a call may wait.
    fn limit(&self, time: Option<Duration>) -> io::Result<()> {
        match time {
            Some(time) => {
                self.patience
                    .set(u64::try_from(time.as_millis()).unwrap_or(0));
                Ok(())
            }
            None => Err(ErrorKind::InvalidInput.into()),
        }
    }
}

impl<'a> Read for Peer<'a> {
    fn read(&mut self, buffer: &mut [u8]) -> io::Result<usize> {
        let count = self.sends.piece.min(self.sends.left).min(buffer.len());
        if count == 0 {
            return Ok(0);
        }
        let at = self.sent_at.saturating_add(self.sends.gap);
        self.wait(at)?;
        self.sent_at = at;
        self.sends.left -= count;
        Ok(count)
    }
}

impl<'a> Write for Peer<'a> {
    fn write(&mut self, bytes: &[u8]) -> io::Result<usize> {
        let at = self.taken_at.saturating_add(self.takes.gap);
        self.wait(at)?;
        self.taken_at = at;
        Ok(self.takes.piece.min(bytes.len()))
    }

    fn flush(&mut self) -> io::Result<()> {
        Ok(())
    }
}

impl<'a> OpenStream for Peer<'a> {
    fn shutdown(&self, _how: Shutdown) -> io::Result<()> {
        Ok(())
    }

    fn set_nodelay(&self, _nodelay: bool) -> io::Result<()> {
        Ok(())
    }

    fn set_read_timeout(&self, time: Option<Duration>) -> io::Result<()> {
        self.limit(time)
    }

    fn set_write_timeout(&self, time: Option<Duration>) -> io::Result<()> {
        self.limit(time)
    }
}

impl<'a> AsRawFd for Peer<'a> {
    fn as_raw_fd(&self) -> RawFd {
        -1
    }
}

/// A network of which each connection sends and takes the same. So many are given up before one is let in, or no call goes well.
#[derive(Drop)]
struct HandNet<'a> {
    clock: &'a HandClock,
    sends: Pieces,
    takes: Pieces,
    given_up: usize,
    fault: ErrorKind,
}

/// Where its connections wait.
#[derive(Drop)]
struct Waiting<'a> {
    clock: &'a HandClock,
    sends: Pieces,
    takes: Pieces,
    given_up: Cell<usize>,
    fault: ErrorKind,
}

impl<'a> OpenListener for Waiting<'a> {
    type Stream = Peer<'a>;

    fn accept(&self) -> io::Result<(Peer<'a>, SocketAddr)> {
        let left = self.given_up.get();
        if left > 0 {
            self.given_up.set(left - 1);
            return Err(self.fault.into());
        }
        let place = SocketAddr::V4(SocketAddrV4::new(Ipv4Addr::LOCALHOST, 1));
        Ok((Peer::new(self.clock, self.sends, self.takes), place))
    }
}

impl<'a> AsRawFd for Waiting<'a> {
    fn as_raw_fd(&self) -> RawFd {
        -1
    }
}

impl<'a> Net for HandNet<'a> {
    type Stream = Peer<'a>;

    type Listener = Waiting<'a>;

    fn bind(&self, _addr: SocketAddr) -> io::Result<Waiting<'a>> {
        Ok(Waiting {
            clock: self.clock,
            sends: self.sends,
            takes: self.takes,
            given_up: Cell::new(self.given_up),
            fault: self.fault,
        })
    }

    fn connect(&self, _addr: SocketAddr) -> io::Result<Peer<'a>> {
        Ok(Peer::new(self.clock, self.sends, self.takes))
    }

    fn connect_timeout(&self, addr: SocketAddr, _timeout: Duration) -> io::Result<Peer<'a>> {
        self.connect(addr)
    }
}

/// Nothing moves.
const NOTHING: Pieces = Pieces {
    gap: 0,
    piece: 0,
    left: 0,
};

/// All moves at once.
const ALL: Pieces = Pieces {
    gap: 0,
    piece: usize::MAX,
    left: usize::MAX,
};

/// How many bytes come by a connection, whether it ends well, and when.
fn taken(sends: Pieces) -> io::Result<(usize, bool, u64)> {
    let clock = HandClock::new();
    let mut connection = Connection::begin(Peer::new(&clock, sends, NOTHING), &clock)?;
    let mut buffer = [0u8; 4096];
    let mut taken = 0usize;
    for _ in 0..100_000 {
        match connection.read(&clock, &mut buffer) {
            Ok(0) => return Ok((taken, true, clock.now.get())),
            Ok(count) => taken = taken.saturating_add(count),
            Err(_) => return Ok((taken, false, clock.now.get())),
        }
    }
    Ok((taken, false, u64::MAX))
}

/// A piece every so many milliseconds: how many bytes come until the connection ends or is let go, and when.
#[test]
fn bytes_have_their_time(rt: HostRuntime) -> Result<(), Fail> {
    let rows = [
        // a byte a second
        (1_000, 1, 1_000, 10, false, 10_000),
        (1_000, 1, 9, 9, true, 9_000),
        // nothing for ten seconds
        (10_001, 4_096, 4_096, 0, false, 10_000),
        (10_000, 4_096, 40_960, 40_960, true, 100_000),
        // too slow, and just not
        (1_000, 409, 1_000_000, 4_090, false, 10_000),
        (1_000, 410, 1_000_000, 241_900, false, 590_000),
        (1_000, 410, 241_490, 241_490, true, 589_000),
        // 64 MiB in nearly seven minutes
        (25, 4_096, 67_108_864, 67_108_864, true, 409_600),
        (0, 1, 5_000, 5_000, true, 0),
    ];
    for (gap, piece, left, bytes, ended, at) in rows {
        let sends = Pieces { gap, piece, left };
        assert_eq!(rt; taken(sends)?, (bytes, ended, at));
    }
    Ok(())
}

/// How many of 100,000 bytes a connection takes, and when the last call ends.
fn written(takes: Pieces) -> io::Result<(usize, u64)> {
    let clock = HandClock::new();
    let mut connection = Connection::begin(Peer::new(&clock, NOTHING, takes), &clock)?;
    let bytes = [0u8; 1_000];
    let mut written = 0usize;
    for _ in 0..100_000 {
        let left = 100_000usize.saturating_sub(written).min(1_000);
        if left == 0 {
            return Ok((written, clock.now.get()));
        }
        match connection.write(&clock, &bytes[..left]) {
            Ok(count) => written = written.saturating_add(count),
            Err(_) => return Ok((written, clock.now.get())),
        }
    }
    Ok((written, u64::MAX))
}

/// A piece every so many milliseconds: how many bytes are taken, and when the last of them is, or the connection is let go.
#[test]
fn writes_have_their_time(rt: HostRuntime) -> Result<(), Fail> {
    let rows = [
        (0, 1_000, 100_000, 0),
        (1_000, 1, 10, 10_000),
        (10_001, 1_000, 0, 10_000),
        (2_000, 1_000, 100_000, 200_000),
        // less than 4,096 bytes in ten seconds
        (2_500, 1_000, 4_000, 10_000),
    ];
    for (gap, piece, bytes, at) in rows {
        let takes = Pieces {
            gap,
            piece,
            left: 0,
        };
        assert_eq!(rt; written(takes)?, (bytes, at));
    }
    Ok(())
}

/// Whether a connection ends well whose other side still sends, and when it is over.
fn ended(sends: Pieces) -> io::Result<(bool, u64)> {
    let clock = HandClock::new();
    let connection = Connection::begin(Peer::new(&clock, sends, ALL), &clock)?;
    let ended = connection.end(&clock).is_ok();
    Ok((ended, clock.now.get()))
}

/// A piece every so many milliseconds: when a parting is over. It takes ten seconds at most.
#[test]
fn partings_have_their_time(rt: HostRuntime) -> Result<(), Fail> {
    let rows = [
        (0, 1, 0, true, 0),
        // more than 1,024 pieces
        (1, 10, 20_000, true, 2_000),
        (1, 4_096, 3_145_728, true, 768),
        (1_000, 1, 9, true, 9_000),
        // a byte a second, and many at a time, for ever
        (1_000, 1, 1_000, false, 10_000),
        (1, 4_096, 1_000_000_000, false, 10_000),
        // nothing, and no end
        (60_000, 1, 1, false, 10_000),
    ];
    for (gap, piece, left, ends, at) in rows {
        let sends = Pieces { gap, piece, left };
        assert_eq!(rt; ended(sends)?, (ends, at));
    }
    Ok(())
}

/// Whether a door lets in a connection behind so many that come to this, and is then read from.
fn let_in(given_up: usize, fault: ErrorKind) -> (Result<(), Failed>, Result<usize, Failed>) {
    let clock = HandClock::new();
    let net = HandNet {
        clock: &clock,
        sends: ALL,
        takes: ALL,
        given_up,
        fault,
    };
    let mut door = TcpDoor::listen(&net, &clock, "127.0.0.1:1");
    let mut buffer = [0u8; 3];
    let accepted = door.accept();
    (accepted, door.read(&mut buffer))
}

/// A connection that was given up before it was let in is passed over; any other fault is told.
#[test]
fn given_up_are_passed_over(rt: HostRuntime) {
    let rows = [
        (0, ErrorKind::Other, Ok(()), Ok(3)),
        (1, ErrorKind::ConnectionAborted, Ok(()), Ok(3)),
        (1_000, ErrorKind::ConnectionAborted, Ok(()), Ok(3)),
        (2, ErrorKind::Interrupted, Ok(()), Ok(3)),
        (1, ErrorKind::Other, Err(Failed), Err(Failed)),
    ];
    for (given_up, fault, accepted, read) in rows {
        assert_eq!(rt; let_in(given_up, fault), (accepted, read));
    }
}

/// How many bytes of a reply come over a link of this network, or that it failed, and when.
fn replied_over<'a>(alloc: Global, net: &'a HandNet<'a>, address: &'a str) -> (Option<usize>, u64) {
    let mut link = TcpLink::new(alloc, net, net.clock, Some(address));
    if link.send(b"ask").is_err() {
        return (None, net.clock.now.get());
    }
    match link.receive() {
        Ok(came) => (Some(came.len()), net.clock.now.get()),
        Err(_) => (None, net.clock.now.get()),
    }
}

/// The same, of a network whose connections send and take this.
fn replied(alloc: Global, sends: Pieces, takes: Pieces) -> (Option<usize>, u64) {
    let clock = HandClock::new();
    let net = HandNet {
        clock: &clock,
        sends,
        takes,
        given_up: 0,
        fault: ErrorKind::Other,
    };
    replied_over(alloc, &net, "127.0.0.1:1")
}

/// A server that lets a device wait: the first byte of a reply has half a minute, and each 4,096 behind it ten seconds.
#[test]
fn replies_have_their_time(rt: HostRuntime) {
    let rows = [
        (0, 4_096, 1_000_000, ALL, Some(1_000_000), 0),
        (29_999, 1, 1, ALL, Some(1), 29_999),
        (30_001, 1, 1, ALL, None, 30_000),
        // a byte a second
        (1_000, 1, 1_000, ALL, None, 11_000),
        (1_000, 1, 10, ALL, Some(10), 10_000),
        (1_000, 4_096, 40_960, ALL, Some(40_960), 10_000),
        (5_000, 4_096, 4_096_000, ALL, None, 590_000),
        // it takes nothing
        (
            0,
            1,
            1,
            Pieces {
                gap: 60_000,
                piece: 1,
                left: 0,
            },
            None,
            10_000,
        ),
    ];
    for (gap, piece, left, takes, came, at) in rows {
        let sends = Pieces { gap, piece, left };
        assert_eq!(rt; replied(rt.alloc(), sends, takes), (came, at));
    }
}
