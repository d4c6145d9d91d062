use crate::causes::{address_text, store_text};
use crate::stdin_source::StdinSource;
use crate::stdout_sink::StdoutSink;
use crate::system_clock::SystemClock;
use crate::tcp_door::TcpDoor;
use crate::tcp_link::TcpLink;
use budget_ports::{Door, Failed, Link, PortFault, Sink, Source, WallClock};
use sqlite_keeper::OpeningCause;
use std::cell::Cell;
use std::io::{ErrorKind, Read, Write};
use std::net::{Shutdown, TcpListener, TcpStream};
use std::test::Fail;
use std::time::{Clock, Duration};
use std::{fs, io};

/// A clock that is set by hand. Where it isn't set, its time can't be read.
#[derive(Drop)]
struct SetClock {
    time: Cell<Option<Duration>>,
}

impl Clock for SetClock {
    fn monotonic(&self) -> io::Result<Duration> {
        Ok(Duration::ZERO)
    }

    fn since_1970(&self) -> io::Result<Duration> {
        match self.time.get() {
            Some(time) => Ok(time),
            None => Err(ErrorKind::Other.into()),
        }
    }
}

#[test]
fn clock_gives_the_last_reading_again(rt: HostRuntime) {
    let system = SetClock {
        time: Cell::new(None),
    };
    let mut clock = SystemClock::new(&system);
    let rows = [
        (None, 0),
        (
            Some(Duration::new(1_704_448_800, 1_999_999)),
            1_704_448_800_001,
        ),
        (None, 1_704_448_800_001),
        // the milliseconds of so many seconds need more than 64 bits
        (Some(Duration::from_secs(1 << 62)), 1_704_448_800_001),
        (Some(Duration::from_millis(7)), 7),
    ];
    for (time, reading) in rows {
        system.time.set(time);
        assert_eq!(rt; clock.now(), reading);
    }
}

/// A reader and a writer whose calls work and fail in turn; `works` says which the next one does.
#[derive(Drop)]
struct Flickering {
    works: bool,
}

impl Flickering {
    /// One call.
    fn call(&mut self) -> io::Result<()> {
        let works = self.works;
        self.works = !works;
        if works {
            Ok(())
        } else {
            Err(ErrorKind::Other.into())
        }
    }
}

impl Read for Flickering {
    fn read(&mut self, _buffer: &mut [u8]) -> io::Result<usize> {
        self.call()?;
        Ok(0)
    }
}

impl Write for Flickering {
    fn write(&mut self, bytes: &[u8]) -> io::Result<usize> {
        self.call()?;
        Ok(bytes.len())
    }

    fn flush(&mut self) -> io::Result<()> {
        self.call()
    }
}

/// Each call asks the stream once: a failure is told, and isn't tried again.
#[test]
fn failures_are_told(rt: HostRuntime) {
    let mut buffer = *b"...";
    let mut source = StdinSource::new(Flickering { works: false });
    assert_eq!(rt; source.read(&mut buffer), Err(Failed));
    assert_eq!(rt; buffer, *b"...");
    assert_eq!(rt; source.read(&mut buffer), Ok(0));
    assert_eq!(rt; source.read(&mut buffer), Err(Failed));
    let mut sink = StdoutSink::new(Flickering { works: false });
    assert_eq!(rt; sink.write(b"a"), Err(Failed));
    assert_eq!(rt; sink.write(b"a"), Ok(1));
    assert_eq!(rt; sink.flush(), Err(Failed));
    assert_eq!(rt; sink.flush(), Ok(()));
}

#[test]
fn bytes_are_handed_on(rt: HostRuntime) -> Result<(), Fail> {
    let bytes: &[u8] = b"money";
    let mut source = StdinSource::new(bytes);
    let mut buffer = *b"...";
    assert_eq!(rt; source.read(&mut buffer), Ok(3));
    assert_eq!(rt; buffer, *b"mon");
    assert_eq!(rt; source.read(&mut buffer), Ok(2));
    assert_eq!(rt; source.read(&mut buffer), Ok(0));
    let mut written = Vec::new(rt.alloc());
    let mut sink = StdoutSink::new(&mut written);
    assert_eq!(rt; sink.write(b""), Ok(0));
    assert_eq!(rt; sink.write(b"money"), Ok(5));
    assert_eq!(rt; sink.flush(), Ok(()));
    drop(sink);
    assert_eq!(rt; written.as_slice(), b"money".as_slice());
    Ok(())
}

/// A writer that has no room left takes no byte.
#[test]
fn no_byte_taken_is_a_failure(rt: HostRuntime) {
    let mut room = *b"..";
    let mut sink = StdoutSink::new(room.as_mut_slice());
    assert_eq!(rt; sink.write(b"abc"), Ok(2));
    assert_eq!(rt; sink.write(b"c"), Err(Failed));
    assert_eq!(rt; sink.write(b""), Ok(0));
}

/// Both ends of a connection: what one end writes the other reads. Without a connection each call fails,
/// and so does a door at an address that is taken.
#[test]
fn connections_are_let_in(rt: HostRuntime) -> Result<(), Fail> {
    let address = TcpListener::bind(&rt, "127.0.0.1:0")?.local_addr()?;
    let text = format!(in rt.alloc(); "{address}")?;
    let mut door = TcpDoor::listen(&rt, &rt, text.as_str());
    let mut late = TcpDoor::listen(&rt, &rt, text.as_str());
    assert_eq!(rt; door.refusal(), None);
    assert_eq!(rt; late.refusal(), Some("another program listens there"));
    assert_eq!(rt; late.accept(), Err(Failed));
    let mut buffer = *b"....";
    assert_eq!(rt; door.read(&mut buffer), Err(Failed));
    let mut peer = TcpStream::connect(&rt, address)?;
    peer.write_all(b"ask")?;
    peer.shutdown(Shutdown::Write)?;
    assert_eq!(rt; door.accept(), Ok(()));
    assert_eq!(rt; door.read(&mut buffer), Ok(3));
    assert_eq!(rt; buffer, *b"ask.");
    assert_eq!(rt; door.read(&mut buffer), Ok(0));
    assert_eq!(rt; door.write(b"answer"), Ok(6));
    assert_eq!(rt; door.close(), Ok(()));
    assert_eq!(rt; door.write(b"more"), Err(Failed));
    assert_eq!(rt; door.close(), Err(Failed));
    let mut came = Vec::new(rt.alloc());
    peer.read_to_end(&mut came)?;
    assert_eq!(rt; came.as_slice(), b"answer".as_slice());
    Ok(())
}

/// A request and its reply over a connection of their own. Without a server each call fails, and so does a reply that nothing was sent for.
#[test]
fn replies_come_over_the_network(rt: HostRuntime) -> Result<(), Fail> {
    let address = TcpListener::bind(&rt, "127.0.0.1:0")?.local_addr()?;
    let text = format!(in rt.alloc(); "{address}")?;
    let mut alone = TcpLink::new(rt.alloc(), &rt, &rt, None);
    assert_eq!(rt; alone.send(b"ask"), Err(PortFault::Failed));
    let mut link = TcpLink::new(rt.alloc(), &rt, &rt, Some(text.as_str()));
    assert_eq!(rt; link.send(b"ask"), Err(PortFault::Failed));
    assert!(rt; link.receive().is_err());
    let mut door = TcpDoor::listen(&rt, &rt, text.as_str());
    assert_eq!(rt; link.send(b"ask"), Ok(()));
    let mut buffer = *b"....";
    assert_eq!(rt; door.accept(), Ok(()));
    assert_eq!(rt; door.read(&mut buffer), Ok(3));
    assert_eq!(rt; buffer, *b"ask.");
    assert_eq!(rt; door.write(b"answer"), Ok(6));
    drop(door);
    let Ok(came) = link.receive() else {
        return Err(Fail::new("no reply"));
    };
    assert_eq!(rt; came.as_slice(), b"answer".as_slice());
    assert!(rt; link.receive().is_err());
    Ok(())
}

/// Where the files stand of which the program says why they are no stores.
const FOLDER: &str = "budget_cli_causes";

/// What SQLite doesn't tell of a path, the system does.
#[test]
fn causes_are_told(rt: HostRuntime) -> Result<(), Fail> {
    let _ = fs::remove_dir_all(&rt, FOLDER);
    fs::create_dir(&rt, FOLDER)?;
    fs::write(&rt, "budget_cli_causes/text", "this is no store")?;
    fs::write(
        &rt,
        "budget_cli_causes/store",
        "SQLite format 3\0, and no more",
    )?;
    fs::write(&rt, "budget_cli_causes/other", "")?;
    fs::write(&rt, "budget_cli_causes/other-journal", "x")?;
    let rows = [
        (
            "budget_cli_causes",
            OpeningCause::NotOpened,
            "a folder stands there",
        ),
        (
            "budget_cli_causes/none/a",
            OpeningCause::NotOpened,
            "there is no such folder",
        ),
        (
            "budget_cli_causes/text/a",
            OpeningCause::NotOpened,
            "a part of its path is no folder",
        ),
        (":memory:", OpeningCause::NotOpened, "no file is named so"),
        (
            "budget_cli_causes/text",
            OpeningCause::NotOpened,
            "no log can be made beside it",
        ),
        (
            "budget_cli_causes/other",
            OpeningCause::NotOpened,
            "sqlite3 has left a journal beside it",
        ),
        (
            "budget_cli_causes/text",
            OpeningCause::Damaged,
            "it is no SQLite file",
        ),
        (
            "budget_cli_causes/other",
            OpeningCause::Damaged,
            "it is no SQLite file",
        ),
        (
            "budget_cli_causes/store",
            OpeningCause::Damaged,
            "it is damaged",
        ),
        ("a", OpeningCause::InUse, "another run is on it"),
        (
            "budget_cli_causes/text",
            OpeningCause::NoStore,
            "it is no SQLite file",
        ),
        (
            "budget_cli_causes/store",
            OpeningCause::NoStore,
            "it has tables that can't be read",
        ),
        (
            "a",
            OpeningCause::OtherTables,
            "its tables are not a store's",
        ),
        ("a", OpeningCause::NoRoom, "there is no room"),
        ("a", OpeningCause::Failed, "it can't be read or written"),
    ];
    for (path, cause, text) in rows {
        assert_eq!(rt; store_text(&rt, path, cause), text, "of {path}");
    }
    fs::remove_dir_all(&rt, FOLDER)?;
    Ok(())
}

#[test]
fn refused_addresses_are_told(rt: HostRuntime) {
    for (kind, text) in [
        (ErrorKind::AddrInUse, "another program listens there"),
        (ErrorKind::PermissionDenied, "no permission to listen there"),
        (
            ErrorKind::AddrNotAvailable,
            "this machine has no such address",
        ),
        (ErrorKind::InvalidInput, "that is no address"),
    ] {
        assert_eq!(rt; address_text(kind), text);
    }
}
