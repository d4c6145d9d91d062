//! Stores in memory, taken by a keeper.
use crate::script::first_wrong;
use field_values::NoMemory;
use sqlite::{Alter, Connection, Error, ErrorCode, MemStore};
use sqlite_keeper::{ShutKeeper, SqliteKeeper, StoreFault, in_order, opening_fault, take};
use std::alloc::Global;
use std::test::Fail;

/// The tables of the first version.
pub const FIRST: &str =
    "CREATE TABLE items (grp TEXT NOT NULL, stamp TEXT NOT NULL, body TEXT NOT NULL, PRIMARY KEY (grp, stamp)) STRICT; \
    CREATE TABLE named (name TEXT NOT NULL PRIMARY KEY, body TEXT NOT NULL) STRICT";

/// The tables of the second version.
pub const SECOND: &str =
    "CREATE TABLE grps (id INTEGER PRIMARY KEY AUTOINCREMENT, name TEXT NOT NULL UNIQUE) STRICT; \
    CREATE TABLE entries (grp INTEGER NOT NULL REFERENCES grps (id), stamp TEXT NOT NULL, body TEXT NOT NULL, PRIMARY KEY (grp, stamp)) STRICT; \
    CREATE TABLE named (name TEXT NOT NULL PRIMARY KEY, body TEXT NOT NULL) STRICT";

/// Rows of a store of the first version: two groups of two records and of one, and a text.
pub const ROWS: &str =
    "INSERT INTO items VALUES ('a', '2', 'two'), ('b', '1', 'uno'), ('a', '1', 'one'); \
    INSERT INTO named VALUES ('version', '1'), ('file/home', 'x')";

/// Calls over that store when it is one of the second version.
pub const MOVED: &str =
    "since a > 1one2two\nsince b > 1uno\nsince c > \nget file/home > x\nget version > 2\nnames > file/home,version,";

/// Calls that add to it.
const ADDED: &str =
    "append a > \nappend c > \nput file/home y > \nsince a > 1one2twoa1b2\nsince a 1 > 2twoa1b2\nsince b > 1uno\nsince c > a1b2\nget file/home > y";

/// Calls over it when it is taken again.
const KEPT: &str =
    "since a > 1one2twoa1b2\nsince b > 1uno\nsince c > a1b2\nget file/home > y\nget version > 2\nnames > file/home,version,";

/// Calls over a new store.
pub const NEW: &str =
    "names > version,\nget version > 2\nsince book > \nappend book > \nsince book > a1b2\nsince book a > b2\nsince boo > \n\
    put a first > \nput a second > \nget a > second\nget b > none\nnames > a,version,";

/// Calls over that store when it is taken again.
pub const LATER: &str =
    "since book > a1b2\nappend book > \nsince book > a1b2\nget a > second\nnames > a,version,\nget version > 2";

/// Calls over a store that has two rows, of which one has no key and so is no record.
const OLD: &str = "since book > a1\nnames > version,\nget version > 2";

/// Calls over a store of the first version that says it is of the second.
const MISTAKEN: &str = "get version > 2\nsince book > failed\nappend book > failed";

/// Calls of a keeper that is shut.
const SHUT: &str =
    "append book > failed\nsince book > failed\nput a b > failed\nget a > failed\nnames > failed";

/// Why a store isn't taken.
pub fn fault_text(alloc: Global, fault: StoreFault) -> Result<String, Fail> {
    match fault {
        StoreFault::Unopened { cause } => Ok(format!(in alloc; "unopened {cause:?}")?),
        StoreFault::Version { found } => Ok(format!(in alloc; "version {}", found.as_str())?),
        StoreFault::NoMemory => Err(Fail::from(NoMemory)),
    }
}

/// A failure of SQLite is told as its cause.
#[test]
fn failures_are_told(rt: HostRuntime) -> Result<(), Fail> {
    let rows = [
        (ErrorCode::CannotOpen, "unopened NotOpened"),
        (ErrorCode::DatabaseBusy, "unopened InUse"),
        (ErrorCode::NotADatabase, "unopened NoStore"),
        (ErrorCode::NameTaken, "unopened OtherTables"),
        (ErrorCode::DatabaseCorrupt, "unopened Damaged"),
        (ErrorCode::DiskFull, "unopened NoRoom"),
        (ErrorCode::SystemIoFailure, "unopened Failed"),
        (ErrorCode::Closed, "unopened Failed"),
    ];
    for (code, wanted) in rows {
        let fault = opening_fault(&Error::SqliteFailure(code));
        assert_eq!(rt; fault_text(rt.alloc(), fault)?.as_str(), wanted);
    }
    Ok(())
}

/// What a keeper over a store answers otherwise than a script says.
pub fn over<S: Alter + Drop>(
    alloc: Global,
    keeper: SqliteKeeper<S>,
    script: &str,
) -> Result<String, Fail> {
    let mut keeper = keeper;
    first_wrong(alloc, &mut keeper, script)
}

/// What becomes of a store: why it isn't taken, or what its keeper answers otherwise.
pub fn taken<S: Alter + Drop>(
    alloc: Global,
    connection: Connection<S>,
    script: &str,
) -> Result<String, Fail> {
    match take(alloc, connection) {
        Ok(keeper) => over(alloc, keeper, script),
        Err(untaken) => fault_text(alloc, untaken.fault),
    }
}

/// A connection after these statements.
pub fn ran<S: Alter + Drop>(connection: Connection<S>, sql: &str) -> Result<Connection<S>, Error> {
    let mut connection = connection;
    connection.execute_batch(sql)?;
    Ok(connection)
}

/// A store in memory, after these statements.
fn store_of(alloc: Global, sql: &str) -> Result<Connection<MemStore>, Error> {
    ran(Connection::open_in_memory(alloc)?, sql)
}

/// What becomes of the store that these statements make.
fn taken_of(alloc: Global, sql: &str, script: &str) -> Result<String, Fail> {
    taken(alloc, store_of(alloc, sql)?, script)
}

/// A store is taken or not, by what it has.
#[test]
fn stores_are_taken(rt: HostRuntime) -> Result<(), Fail> {
    let rows = [
        ("", "", NEW, ""),
        (FIRST, ROWS, MOVED, ""),
        (
            FIRST,
            "INSERT INTO items VALUES ('book', 'a', '1'), ('book', '', '0'); INSERT INTO named VALUES ('version', '1')",
            OLD,
            "",
        ),
        (
            SECOND,
            "INSERT INTO grps VALUES (7, 'book'), (3, 'none'); INSERT INTO entries VALUES (7, 'a', '1'), (7, '', '0'); \
            INSERT INTO named VALUES ('version', '2')",
            OLD,
            "",
        ),
        (
            FIRST,
            "INSERT INTO named VALUES ('version', '2')",
            MISTAKEN,
            "",
        ),
        (
            SECOND,
            "INSERT INTO named VALUES ('version', '1')",
            SHUT,
            "",
        ),
        (
            SECOND,
            "INSERT INTO named VALUES ('version', '3')",
            "",
            "version 3",
        ),
        (
            FIRST,
            "INSERT INTO named VALUES ('version', 'one')",
            "",
            "version one",
        ),
        (
            FIRST,
            "INSERT INTO named VALUES ('name', '1')",
            "",
            "version ",
        ),
        ("", "CREATE TABLE items (a INTEGER) STRICT", NEW, ""),
        (
            "",
            "CREATE TABLE entries (a INTEGER) STRICT",
            "",
            "unopened OtherTables",
        ),
        (
            "",
            "CREATE TABLE named (a INTEGER) STRICT",
            "",
            "unopened OtherTables",
        ),
        (
            "CREATE TABLE named (name TEXT NOT NULL PRIMARY KEY, body TEXT NOT NULL) STRICT",
            "CREATE TABLE items (a INTEGER) STRICT; INSERT INTO named VALUES ('version', '1')",
            "",
            "unopened OtherTables",
        ),
    ];
    for (tables, sql, script, wanted) in rows {
        let sql = format!(in rt.alloc(); "{tables}; {sql}")?;
        let found = taken_of(rt.alloc(), sql.as_str(), script)?;
        assert_eq!(rt; found.as_str(), wanted, "of {sql}");
    }
    Ok(())
}

/// The store of a keeper, after a script.
fn store_after(
    alloc: Global,
    keeper: SqliteKeeper<MemStore>,
    script: &str,
) -> Result<(Connection<MemStore>, String), Fail> {
    let mut keeper = keeper;
    let wrong = first_wrong(alloc, &mut keeper, script)?;
    Ok((keeper.into_connection(), wrong))
}

/// What a store that was used is like when it is taken again.
fn taken_again(
    alloc: Global,
    keeper: SqliteKeeper<MemStore>,
    script: &str,
    again: &str,
) -> Result<String, Fail> {
    let (connection, wrong) = store_after(alloc, keeper, script)?;
    if wrong.as_str() != "" {
        return Ok(wrong);
    }
    taken(alloc, connection, again)
}

/// The store that these statements make, used and taken again.
fn used_twice(alloc: Global, sql: &str, script: &str, again: &str) -> Result<String, Fail> {
    match take(alloc, store_of(alloc, sql)?) {
        Ok(keeper) => taken_again(alloc, keeper, script, again),
        Err(untaken) => fault_text(alloc, untaken.fault),
    }
}

/// A store that is taken again tells what was committed last: a new one, and one of the first version, which is of the second then.
#[test]
fn stores_remember(rt: HostRuntime) -> Result<(), Fail> {
    assert_eq!(rt; used_twice(rt.alloc(), "", NEW, LATER)?.as_str(), "");
    let sql = format!(in rt.alloc(); "{FIRST}; {ROWS}")?;
    for (script, again) in [(MOVED, MOVED), (ADDED, KEPT)] {
        let wrong = used_twice(rt.alloc(), sql.as_str(), script, again)?;
        assert_eq!(rt; wrong.as_str(), "");
    }
    Ok(())
}

/// The version that a connection shows.
fn version_in(connection: Connection<MemStore>) -> Result<String, Error> {
    let mut connection = connection;
    connection
        .query_row("SELECT body FROM named WHERE name = 'version'", &[])?
        .get(0)
}

/// The version that the connection of a store shows which wasn't taken.
fn left_version(alloc: Global, connection: Connection<MemStore>) -> Result<String, Error> {
    match in_order(alloc, connection) {
        Ok(ordered) => match SqliteKeeper::adopt(alloc, ordered) {
            Ok(_) => Err(Error::InvalidQuery),
            Err(unadopted) => version_in(unadopted.connection),
        },
        Err(unread) => Err(unread.error),
    }
}

/// A store of another version comes back as it was, and a keeper over no store fails at each call.
#[test]
fn refusals(rt: HostRuntime) -> Result<(), Fail> {
    let sql = format!(in rt.alloc(); "{FIRST}; INSERT INTO named VALUES ('version', '3')")?;
    let left = left_version(rt.alloc(), store_of(rt.alloc(), sql.as_str())?)?;
    assert_eq!(rt; left.as_str(), "3");
    let mut none = ShutKeeper::new();
    assert_eq!(rt; first_wrong(rt.alloc(), &mut none, SHUT)?.as_str(), "");
    Ok(())
}
