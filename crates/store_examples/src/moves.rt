//! Stores of the first version that become ones of the second, over files that stop at some call.
use crate::stops::{Fused, after_stop, left_by, new_files, open};
use crate::stores::{FIRST, MOVED, ROWS};
use sqlite::{Alter, Connection, Error, Files};
use sqlite_keeper::{SqliteKeeper, take};
use std::alloc::Global;
use std::test::Fail;

/// How far a store came.
#[derive(Clone, Copy, Debug, PartialEq, Eq)]
enum Far {
    /// It was not made.
    Nowhere,
    /// It was made, of the first version.
    First,
    /// It was taken, as one of the second.
    Second,
}

/// A store of the first version is made, in one commit.
fn made<S: Alter>(alloc: Global, connection: &mut Connection<S>) -> Result<(), Error> {
    let sql = format!(in alloc; "BEGIN; {FIRST}; {ROWS}; COMMIT")?;
    connection.execute_batch(sql.as_str())?;
    Ok(())
}

/// How far a keeper came, and the store that it leaves.
fn far_of<S: Alter + Drop>(keeper: SqliteKeeper<S>) -> (Far, S) {
    let far = match keeper.is_shut() {
        true => Far::First,
        false => Far::Second,
    };
    (far, left_by(keeper))
}

/// How far a store comes that was made, and what is left of it.
fn taken_over<S: Alter + Drop>(alloc: Global, connection: Connection<S>) -> (Far, S) {
    match take(alloc, connection) {
        Ok(keeper) => far_of(keeper),
        Err(untaken) => (Far::First, untaken.store),
    }
}

/// How far a store comes over an open connection, and what is left of it.
fn moved_over<S: Alter + Drop>(alloc: Global, connection: Connection<S>) -> (Far, S) {
    let mut connection = connection;
    match made(alloc, &mut connection) {
        Ok(()) => taken_over(alloc, connection),
        Err(_) => (Far::Nowhere, connection.into_store()),
    }
}

/// How far a store comes over new files of which the log and the database fail from these calls on, and the files.
fn moved(alloc: Global, log_call: u64, db_call: u64) -> (Far, Files<Fused>) {
    match open(alloc, new_files(alloc, log_call, db_call)) {
        Ok(connection) => {
            let (far, store) = moved_over(alloc, connection);
            (far, store.close())
        }
        Err(files) => (Far::Nowhere, files),
    }
}

/// What a store tells otherwise, that was stopped before it was made: it has nothing, or all that a store has that was made.
fn left_unmade(
    alloc: Global,
    files: Files<Fused>,
    log_call: u64,
    db_call: u64,
) -> Result<String, Fail> {
    let wrong = after_stop(alloc, files, "names > version,")?;
    if wrong.as_str() == "" {
        return Ok(wrong);
    }
    let (_, again) = moved(alloc, log_call, db_call);
    after_stop(alloc, again, MOVED)
}

/// How far a store comes over files that fail from these calls on, and what it tells otherwise after the stop.
fn left(alloc: Global, log_call: u64, db_call: u64) -> Result<(Far, String), Fail> {
    let (far, files) = moved(alloc, log_call, db_call);
    let wrong = match far {
        Far::Nowhere => left_unmade(alloc, files, log_call, db_call)?,
        _ => after_stop(alloc, files, MOVED)?,
    };
    Ok((far, wrong))
}

/// At how many calls a store was not made, and at how many more it was not taken, of files that fail at each call in turn up to the first run
/// with no stop. Where a run leaves something else, its call and the greatest number.
fn stops_of(alloc: Global, log_fails: bool, db_fails: bool) -> Result<(u64, u64), Fail> {
    let mut not_made: u64 = 0;
    let mut not_taken: u64 = 0;
    for call in 0..1000u64 {
        let log_call = if log_fails { call } else { u64::MAX };
        let db_call = if db_fails { call } else { u64::MAX };
        let (far, wrong) = left(alloc, log_call, db_call)?;
        if wrong.as_str() != "" {
            return Ok((call, u64::MAX));
        }
        match far {
            Far::Nowhere => not_made = not_made.saturating_add(1),
            Far::First => not_taken = not_taken.saturating_add(1),
            Far::Second => return Ok((not_made, not_taken)),
        }
    }
    Ok((not_made, u64::MAX))
}

/// Each call of the log fails.
#[test]
fn log_fails(rt: HostRuntime) -> Result<(), Fail> {
    assert_eq!(rt; stops_of(rt.alloc(), true, false)?, (23, 6));
    Ok(())
}

/// Each call of the database fails.
#[test]
fn database_fails(rt: HostRuntime) -> Result<(), Fail> {
    assert_eq!(rt; stops_of(rt.alloc(), false, true)?, (14, 0));
    Ok(())
}

/// Each call of both fails.
#[test]
fn both_fail(rt: HostRuntime) -> Result<(), Fail> {
    assert_eq!(rt; stops_of(rt.alloc(), true, true)?, (23, 6));
    Ok(())
}
