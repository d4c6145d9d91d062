//! Stores over files that stop at some call.
use crate::script::answer;
use crate::stores::{FIRST, fault_text, ran, taken};
use budget_ports::Keeper;
use sqlite::{Alter, Connection, Error, FileStore, Files, Options};
use sqlite_disk::{Crash, Disk, Fuse, Memory};
use sqlite_keeper::{SqliteKeeper, StoreFault, Untaken, take};
use std::alloc::Global;
use std::test::Fail;

/// Files in memory whose calls fail from some call on.
pub type Fused = Fuse<Memory>;

/// Opens the files, or hands them back.
pub fn open(
    alloc: Global,
    files: Files<Fused>,
) -> Result<Connection<FileStore<Fused>>, Files<Fused>> {
    if !files.may_be_used() {
        return Err(files);
    }
    match Connection::open_files(alloc, files, Options::new(1)) {
        Ok(connection) => Ok(connection),
        Err((_, left)) => Err(left.into_files()),
    }
}

/// How many of three calls answered before the first that failed.
fn answered<K: Keeper>(alloc: Global, keeper: &mut K) -> usize {
    let mut count: usize = 0;
    for line in ["append book", "append shelf", "put a b"] {
        if answer(alloc, keeper, line).is_err() {
            return count;
        }
        count = count.saturating_add(1);
    }
    count
}

/// New files of which the log and the database fail from these calls on.
pub fn new_files(alloc: Global, log_call: u64, db_call: u64) -> Files<Fused> {
    Files {
        log: Fuse::new(Memory::new(alloc), log_call),
        db: Fuse::new(Memory::new(alloc), db_call),
    }
}

/// The store that a keeper leaves.
pub fn left_by<S: Alter + Drop>(keeper: SqliteKeeper<S>) -> S {
    keeper.into_connection().into_store()
}

/// How many calls a keeper answered, and the store that it leaves.
fn run<S: Alter + Drop>(alloc: Global, keeper: SqliteKeeper<S>) -> (usize, S) {
    let mut keeper = keeper;
    let count = answered(alloc, &mut keeper);
    (count, left_by(keeper))
}

/// Calls over an open connection: how many answered, and the store.
fn run_over<S: Alter + Drop>(alloc: Global, connection: Connection<S>) -> (usize, S) {
    match take(alloc, connection) {
        Ok(keeper) => run(alloc, keeper),
        Err(untaken) => (0, untaken.store),
    }
}

/// Calls over new files, of which the log fails from this call on: how many answered, and the files.
fn started(alloc: Global, calls: u64) -> (usize, Files<Fused>) {
    match open(alloc, new_files(alloc, calls, u64::MAX)) {
        Ok(connection) => {
            let (count, store) = run_over(alloc, connection);
            (count, store.close())
        }
        Err(files) => (0, files),
    }
}

/// Files after a stop.
fn crashed(files: Files<Fused>) -> Files<Fused> {
    let mut files = files;
    files.log.crash();
    files.db.crash();
    files
}

/// What files tell otherwise than a script says, after a stop.
pub fn after_stop(alloc: Global, files: Files<Fused>, script: &str) -> Result<String, Fail> {
    match open(alloc, crashed(files)) {
        Ok(connection) => taken(alloc, connection, script),
        Err(_) => Ok(String::from_str(alloc, "unopened")?),
    }
}

/// What a store answers of which so many of the three calls were done.
fn done(count: usize) -> &'static str {
    match count {
        0 => "since book > \nsince shelf > \nget a > none",
        1 => "since book > a1b2\nsince shelf > \nget a > none",
        2 => "since book > a1b2\nsince shelf > a1b2\nget a > none",
        _ => "since book > a1b2\nsince shelf > a1b2\nget a > b",
    }
}

/// What is left otherwise than what the calls that answered have done, or that with the next one.
fn left(alloc: Global, calls: u64, with_next: bool) -> Result<String, Fail> {
    let (count, files) = started(alloc, calls);
    let script = match with_next {
        true => done(count.saturating_add(1)),
        false => done(count),
    };
    after_stop(alloc, files, script)
}

/// Why a store wasn't taken, and what its files are taken as when they are opened again.
fn told_twice(alloc: Global, fault: StoreFault, files: Files<Fused>) -> Result<String, Fail> {
    let first = fault_text(alloc, fault)?;
    let again = after_stop(alloc, files, "")?;
    Ok(format!(in alloc; "{first}, {again}")?)
}

/// A store with these statements that isn't taken.
fn untaken<S: Alter + Drop>(
    alloc: Global,
    connection: Connection<S>,
    sql: &str,
) -> Result<Option<Untaken<S>>, Error> {
    match take(alloc, ran(connection, sql)?) {
        Ok(_) => Ok(None),
        Err(untaken) => Ok(Some(untaken)),
    }
}

/// What becomes of files with these statements: why they aren't taken, and again of what then comes back.
fn taken_twice(alloc: Global, sql: &str) -> Result<String, Fail> {
    let Ok(connection) = open(alloc, new_files(alloc, u64::MAX, u64::MAX)) else {
        return Ok(String::from_str(alloc, "unopened")?);
    };
    match untaken(alloc, connection, sql)? {
        Some(Untaken { fault, store }) => told_twice(alloc, fault, store.close()),
        None => Ok(String::from_str(alloc, "taken")?),
    }
}

/// The same of files of the first version whose version is no number.
fn unnumbered_twice(alloc: Global) -> Result<String, Fail> {
    let sql = format!(in alloc; "{FIRST}; INSERT INTO named VALUES ('version', 'one')")?;
    taken_twice(alloc, sql.as_str())
}

/// A store that is refused comes back: its files are closed and opened again, and it is refused as before.
#[test]
fn refused_stores_come_back(rt: HostRuntime) -> Result<(), Fail> {
    let told = unnumbered_twice(rt.alloc())?;
    assert_eq!(rt; told.as_str(), "version one, version one");
    Ok(())
}

/// What is left otherwise than what the calls that answered have done, and otherwise than that with the next one: nothing where one of
/// them is left, else both.
fn wrong_both_ways(alloc: Global, calls: u64) -> Result<String, Fail> {
    let without = left(alloc, calls, false)?;
    if without.as_str() == "" {
        return Ok(without);
    }
    let with = left(alloc, calls, true)?;
    if with.as_str() == "" {
        return Ok(with);
    }
    Ok(format!(in alloc; "{without}, {with}")?)
}

/// How many calls answer where none fails.
fn count_of_all(alloc: Global) -> usize {
    let (count, _) = started(alloc, 1000);
    count
}

/// A stop leaves what the calls that answered have done, and of the next one all or nothing.
#[test]
fn stops_leave_whole_calls(rt: HostRuntime) -> Result<(), Fail> {
    for calls in [0, 20, 30, 38, 1000] {
        let wrong = wrong_both_ways(rt.alloc(), calls)?;
        assert_eq!(rt; wrong.as_str(), "", "{calls}");
    }
    assert_eq!(rt; count_of_all(rt.alloc()), 3);
    Ok(())
}
