//! The household's run over files that stop at some call.
use crate::household::{ANSWERED, KEPT, REPLIES};
use crate::running::ended;
use budget_ports::{Failed, Keeper, MemorySink, Record};
use field_values::{Items, NoMemory, Txt};
use sqlite::{Alter, Connection, FileStore, Files, Options};
use sqlite_disk::{Crash, Disk, Fuse, Memory};
use sqlite_keeper::{SqliteKeeper, take};
use std::alloc::Global;
use std::test::Fail;

/// Files in memory whose calls fail from some call on.
type Fused = Fuse<Memory>;

/// How a run ended, how many bytes it wrote, and whether they are the first of the replies.
type End = (u8, usize, bool);

/// How many bytes the records have that are kept, each as a line, and whether they are the first of those that the household makes.
type Kept = (usize, bool);

/// The end of a run whose keeper couldn't be opened.
const UNOPENED: End = (6, 0, true);

/// Opens the files, or hands them back. The log is copied into the database each time that it has ten pages, and few pages are kept in
/// memory, so that both files are asked often.
fn open(alloc: Global, files: Files<Fused>) -> Result<Connection<FileStore<Fused>>, Files<Fused>> {
    if !files.may_be_used() {
        return Err(files);
    }
    let options = Options {
        cache_pages: 10,
        checkpoint_frames: 10,
        ..Options::new(1)
    };
    match Connection::open_files(alloc, files, options) {
        Ok(connection) => Ok(connection),
        Err((_, left)) => Err(left.into_files()),
    }
}

/// How a run over a keeper ended.
fn end_of<K: Keeper>(alloc: Global, keeper: &mut K) -> Result<End, Fail> {
    let mut sink = MemorySink::new(alloc, 2000)?;
    let status = ended(alloc, &mut sink, keeper)?;
    let output = sink.written();
    Ok((status, output.len(), REPLIES.as_bytes().starts_with(output)))
}

/// The store that a keeper leaves.
fn left_by<S: Alter + Drop>(keeper: SqliteKeeper<S>) -> S {
    keeper.into_connection().into_store()
}

/// How a run over a keeper ended, and the store that it leaves.
fn run_over<S: Alter + Drop>(alloc: Global, keeper: SqliteKeeper<S>) -> Result<(End, S), Fail> {
    let mut keeper = keeper;
    let end = end_of(alloc, &mut keeper)?;
    Ok((end, left_by(keeper)))
}

/// How a run over an open connection ended, and the store that it leaves. Where that is no keeper's nothing is written, and the status is 6.
fn run_by<S: Alter + Drop>(alloc: Global, connection: Connection<S>) -> Result<(End, S), Fail> {
    match take(alloc, connection) {
        Ok(keeper) => run_over(alloc, keeper),
        Err(untaken) => Ok((UNOPENED, untaken.store)),
    }
}

/// How a run over files ended, and the files that it leaves. Where they can't be opened nothing is written, and the status is 6.
fn run_from(alloc: Global, files: Files<Fused>) -> Result<(End, Files<Fused>), Fail> {
    match open(alloc, files) {
        Ok(connection) => {
            let (end, store) = run_by(alloc, connection)?;
            Ok((end, store.close()))
        }
        Err(files) => Ok((UNOPENED, files)),
    }
}

/// Adds a text and what stands behind it.
fn add(lines: &mut String, text: &str, end: &str) -> Result<(), NoMemory> {
    lines.push_str(text)?;
    lines.push_str(end)?;
    Ok(())
}

/// Adds the line of a record.
fn add_line(lines: &mut String, record: &Record) -> Result<(), NoMemory> {
    add(lines, record.key.as_str(), "\t")?;
    add(lines, record.body.as_str(), "\n")
}

/// Records, each as a line.
fn lines_of(alloc: Global, records: &[Record]) -> Result<String, NoMemory> {
    let mut lines = String::new(alloc);
    for record in records {
        add_line(&mut lines, record)?;
    }
    Ok(lines)
}

/// How many bytes these lines have, and whether they are the first of those that the household makes.
fn front_of(alloc: Global, lines: &str) -> Result<Kept, NoMemory> {
    let meant = KEPT.replace(alloc, '>', "\t")?;
    Ok((lines.len(), meant.as_str().starts_with(lines)))
}

/// The same of records.
fn kept_of(alloc: Global, records: &[Record]) -> Result<Kept, NoMemory> {
    let lines = lines_of(alloc, records)?;
    front_of(alloc, lines.as_str())
}

/// The device's records in a keeper.
fn records_of<K: Keeper>(alloc: Global, keeper: &mut K) -> Result<Items<Record>, Fail> {
    let group = Txt::from_text(alloc, "device")?;
    let first = Txt::from_text(alloc, "")?;
    Ok(keeper.since(&group, &first)?)
}

/// What a keeper holds.
fn kept_by<K: Keeper>(alloc: Global, keeper: &mut K) -> Result<Kept, Fail> {
    let records = records_of(alloc, keeper)?;
    Ok(kept_of(alloc, records.as_slice())?)
}

/// What an open connection holds. One that is no keeper's is a fault.
fn kept_over<S: Alter + Drop>(alloc: Global, connection: Connection<S>) -> Result<Kept, Fail> {
    match take(alloc, connection) {
        Ok(keeper) => {
            let mut keeper = keeper;
            kept_by(alloc, &mut keeper)
        }
        Err(untaken) => Err(Fail::from(untaken.fault)),
    }
}

/// Files after a stop.
fn crashed(files: Files<Fused>) -> Files<Fused> {
    let mut files = files;
    files.log.crash();
    files.db.crash();
    files
}

/// What files hold after a stop. Files that can't be opened, or are no store, are a fault.
fn kept_after_stop(alloc: Global, files: Files<Fused>) -> Result<Kept, Fail> {
    match open(alloc, crashed(files)) {
        Ok(connection) => kept_over(alloc, connection),
        Err(_) => Err(Fail::from(Failed)),
    }
}

/// Whether replies of so many bytes are those of some lines, and messages of so many bytes those of these lines, or of one line more.
fn fits(output: usize, kept: usize) -> bool {
    let mut answered = false;
    for (replies, messages) in ANSWERED {
        if answered {
            return kept == messages;
        }
        if replies == output {
            if kept == messages {
                return true;
            }
            answered = true;
        }
    }
    false
}

/// New files of which the log and the database fail from these calls on.
fn new_files(alloc: Global, log_call: u64, db_call: u64) -> Files<Fused> {
    Files {
        log: Fuse::new(Memory::new(alloc), log_call),
        db: Fuse::new(Memory::new(alloc), db_call),
    }
}

/// How a run over files ended of which the log and the database fail from these calls on, and what they hold after the stop.
fn end_and_kept(alloc: Global, log_call: u64, db_call: u64) -> Result<(End, Kept), Fail> {
    let (end, files) = run_from(alloc, new_files(alloc, log_call, db_call))?;
    let kept = kept_after_stop(alloc, files)?;
    Ok((end, kept))
}

/// Whether a run over files of which the log and the database fail from these calls on leaves what it answered, and its status; none where
/// it doesn't.
fn stopped(alloc: Global, log_call: u64, db_call: u64) -> Result<Option<u8>, Fail> {
    let ((status, output, is_answered), (kept, is_meant)) = end_and_kept(alloc, log_call, db_call)?;
    if !is_answered || !is_meant || !fits(output, kept) {
        return Ok(None);
    }
    Ok(Some(status))
}

/// How many runs stop of those that fail from the call `first` on, from the one that is `step` later on, and so on, up to the first run with no
/// stop; or the call of a run that didn't leave what it had answered.
fn stops_of(alloc: Global, is_log: bool, first: u64, step: u64) -> Result<Result<u64, u64>, Fail> {
    for count in 0..1000u64 {
        let call = first.saturating_add(count.saturating_mul(step));
        let (log_call, db_call) = match is_log {
            true => (call, u64::MAX),
            false => (u64::MAX, call),
        };
        match stopped(alloc, log_call, db_call)? {
            Some(0) => return Ok(Ok(count)),
            Some(6) => {}
            _ => return Ok(Err(call)),
        }
    }
    Ok(Err(u64::MAX))
}

/// Each call of the log, in four parts: 92 of them fail.
#[test]
fn log_fails_0(rt: HostRuntime) -> Result<(), Fail> {
    let stops = stops_of(rt.alloc(), true, 0, 4)?;
    assert_eq!(rt; stops, Ok(23));
    Ok(())
}

#[test]
fn log_fails_1(rt: HostRuntime) -> Result<(), Fail> {
    let stops = stops_of(rt.alloc(), true, 1, 4)?;
    assert_eq!(rt; stops, Ok(23));
    Ok(())
}

#[test]
fn log_fails_2(rt: HostRuntime) -> Result<(), Fail> {
    let stops = stops_of(rt.alloc(), true, 2, 4)?;
    assert_eq!(rt; stops, Ok(23));
    Ok(())
}

#[test]
fn log_fails_3(rt: HostRuntime) -> Result<(), Fail> {
    let stops = stops_of(rt.alloc(), true, 3, 4)?;
    assert_eq!(rt; stops, Ok(23));
    Ok(())
}

/// Each call of the database: 28 of them fail.
#[test]
fn database_fails(rt: HostRuntime) -> Result<(), Fail> {
    let stops = stops_of(rt.alloc(), false, 0, 1)?;
    assert_eq!(rt; stops, Ok(28));
    Ok(())
}
