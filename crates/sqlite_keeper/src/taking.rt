//! What the program does with a store that it has opened.
ghost use Rattle.std.specs.Prelude.{◌≡◌, ◌≢◌, ◌≤◌, ◌⊎◌, true, false, if◌then◌else◌, [], Some, IsTrue, IfOk, IfErr};
ghost use Rattle.std.specs.FinMap.{get};
ghost use Rattle.budget_ports.specs.Keeper.{IsAlone};
ghost use Rattle.sqlite.specs.State.{HasCleanDisk};
ghost use Rattle.sqlite.specs.Held.{state};
ghost use Rattle.sqlite_catalog.specs.Listing.{IsSound};
ghost use Rattle.sqlite_keeper.specs.Tables.{first_schema, no_schema};
ghost use Rattle.sqlite_keeper.specs.Contents.{contents_of, contents_now};
ghost use Rattle.sqlite_keeper.specs.Keeping.{TellsAll, MayBeLeft};
ghost use Rattle.sqlite_keeper.specs.Adopting.{moved, new_contents, version_name, version_one, version_two};
ghost use Rattle.sqlite_trees.specs.View.{doubt, IsClean};
ghost use Rattle.sqlite_keeper.specs.Taking.{IsSecondStore, IsStoreOrBlank, IsKeptOrBlank, HasFailedSince, IsLetGo, TellsLast, opening_fault, told_as};

use crate::keeper::{AdoptFault, SqliteKeeper, Unadopted};
use crate::order::{Unread, in_order};
use field_values::Txt;
use sqlite::{Alter, Connection, Error, ErrorCode, File, FileStore, Files, Unknown};
use std::alloc::Global;
use std::fs;
use std::io::ErrorKind;

/// Why a store could not be opened, not be read again, or not be made one of this version, as far as SQLite tells it.
#[derive(Clone, Copy, Debug, PartialEq, Eq)]
pub enum OpeningCause {
    /// Nothing can be opened or made at its path, or no log beside it.
    NotOpened,
    /// Another run, or another program, is on it.
    InUse,
    /// It is no SQLite file, or one with tables of a kind that is not read.
    NoStore,
    /// It has other tables, and with them it refuses a store's.
    OtherTables,
    /// It is an SQLite file that is damaged.
    Damaged,
    /// There is no room for what is to be written.
    NoRoom,
    /// Reading or writing failed.
    Failed,
}

/// Why there is no keeper over a store.
#[derive(Debug, Drop)]
pub enum StoreFault {
    /// The store could not be opened, not be read again, or not be made one of this version.
    Unopened {
        /// Why not.
        cause: OpeningCause,
    },
    /// It is of another version, or of one that it does not tell: then `found` is empty.
    Version {
        /// The text `version` of the store.
        found: Txt,
    },
    /// There was not enough memory.
    NoMemory,
}

/// What a failure of SQLite says of a store that is to be opened, read again, or made one of this version.
pub fn opening_fault(error: &Error) -> StoreFault
    ensures { result ≡ opening_fault error.now }
{
    let cause = match error {
        Error::SqliteFailure(ErrorCode::OutOfMemory) => return StoreFault::NoMemory,
        Error::SqliteFailure(ErrorCode::CannotOpen) => OpeningCause::NotOpened,
        Error::SqliteFailure(ErrorCode::DatabaseBusy) => OpeningCause::InUse,
        Error::SqliteFailure(ErrorCode::NotADatabase) => OpeningCause::NoStore,
        Error::SqliteFailure(ErrorCode::NameTaken) => OpeningCause::OtherTables,
        Error::SqlInputError(_) => OpeningCause::OtherTables,
        Error::SqliteFailure(ErrorCode::DatabaseCorrupt) => OpeningCause::Damaged,
        Error::SqliteFailure(ErrorCode::DiskFull) => OpeningCause::NoRoom,
        _ => OpeningCause::Failed,
    };
    StoreFault::Unopened { cause }
}

/// A store that no keeper took.
#[derive(Drop)]
pub struct Untaken<S> {
    /// Why it was not taken.
    pub fault: StoreFault,
    /// The store, in which nothing is pending: its files can be closed and opened anew.
    pub store: S,
}

/// The store behind a connection that was not taken, and why.
fn left_by<S: Alter + Drop>(unadopted: Unadopted<S>) -> Untaken<S>
    ensures fault { result.fault ≡ told_as unadopted.fault }
    ensures clean { doubt (state S.Store unadopted.connection).is_clean ≤ doubt (S.Store.view result.store).is_clean }
    ensures opened { IsClean (S.Store.view result.store) → IsTrue (S.Store.view result.store).is_open → IsTrue (state S.Store unadopted.connection).is_open }
    ensures rows { unadopted.connection.in_transaction ≡ false → IsClean (S.Store.view result.store) → IsTrue (S.Store.view result.store).is_open → (S.Store.view result.store).trees ≡ (state S.Store unadopted.connection).now.trees }
{
    let Unadopted { fault, connection } = unadopted;
    let _settled = connection.is_autocommit();
    let store = connection.into_store();
    let fault = match fault {
        AdoptFault::Version { found } => StoreFault::Version { found },
        AdoptFault::Refused { error } => opening_fault(&error),
        AdoptFault::NoMemory => StoreFault::NoMemory,
    };
    Untaken { fault, store }
}

/// A keeper over a store that was opened: what was not committed is rolled back, the store is read
/// again in order, and taken as `SqliteKeeper::adopt` does. Where it is not, it comes back as it was left.
///
/// A keeper that tells has what was committed last, told to be of this version where it was of the one before, or, where nothing
/// was listed, what a new store has; over the tables of either version it tells, unless it is shut, the disk has returned something
/// else, or the tables are not those that the version says.
///
/// Unless the disk has returned something else: over tables that do not tell the version before, or where nothing was listed, a
/// keeper is shut only if the disk has failed since the store was read again. And the
/// faults are told each for its reason: `Unopened` where the connection was shut or the disk failed
/// meanwhile, or tables of neither version stand there, `Version` where something is listed, and if it is the tables of either version, where they
/// tell another version or none. Want of memory needs no reason. Over the tables of either version, or where nothing was listed, a cause
/// that is told is that of the store's last error where it keeps that, or a failure where the store is broken.
pub fn take<S: Alter + Drop>(
    alloc: Global,
    connection: Connection<S>,
) -> Result<SqliteKeeper<S>, Untaken<S>>
    ensures again { IfOk result (λ k. TellsAll S.Store k → ((contents_now S.Store k.conn ≡ contents_of (state S.Store connection).committed.trees) × IsSecondStore (state S.Store connection).committed.trees) ⊎ (((contents_now S.Store k.conn ≡ moved (contents_of (state S.Store connection).committed.trees)) × IsSound first_schema (state S.Store connection).committed.trees) ⊎ ((contents_now S.Store k.conn ≡ new_contents) × IsSound no_schema (state S.Store connection).committed.trees))) }
    ensures kept { IfOk result (λ k. IsSecondStore (state S.Store connection).committed.trees → k.is_shut ≡ false → HasCleanDisk (state S.Store k.conn) → TellsAll S.Store k × (contents_now S.Store k.conn ≡ contents_of (state S.Store connection).committed.trees) × (get (contents_now S.Store k.conn).texts version_name ≡ Some version_two)) }
    ensures moved { IfOk result (λ k. IsSound first_schema (state S.Store connection).committed.trees → k.is_shut ≡ false → HasCleanDisk (state S.Store k.conn) → get (contents_of (state S.Store connection).committed.trees).texts version_name ≢ Some version_two → TellsAll S.Store k × (contents_now S.Store k.conn ≡ moved (contents_of (state S.Store connection).committed.trees)) × (get (contents_of (state S.Store connection).committed.trees).texts version_name ≡ Some version_one) × ((state S.Store k.conn).now.trees 0 ≡ [])) }
    ensures made { IfOk result (λ k. IsSound no_schema (state S.Store connection).committed.trees → k.is_shut ≡ false → HasCleanDisk (state S.Store k.conn) → TellsAll S.Store k × (contents_now S.Store k.conn ≡ new_contents)) }
    ensures alone { IfOk result (λ k. IsAlone (TellsAll S.Store k) (contents_now S.Store k.conn) (MayBeLeft S.Store k)) }
    ensures count { IfOk result (λ k. k.faults ≡ (if k.is_shut then 1 else 0)) }
    ensures reason { IfOk result (λ k. k.is_shut ≡ true → IsKeptOrBlank (state S.Store connection).committed.trees → HasCleanDisk (state S.Store k.conn) → HasFailedSince S.Store connection k.conn) }
    ensures shut { IfOk result (λ k. k.is_shut ≡ true → IsStoreOrBlank (state S.Store connection).committed.trees → HasCleanDisk (state S.Store k.conn) → IsTrue (state S.Store k.conn).is_open → contents_now S.Store k.conn ≡ contents_of (state S.Store connection).committed.trees) }
    ensures opened { IfOk result (λ k. HasCleanDisk (state S.Store k.conn) → IsTrue (state S.Store connection).is_open) }
    ensures let_go { IfErr result (λ u. IsLetGo S.Store connection u.store u.fault) }
    ensures told { IfErr result (λ u. IsStoreOrBlank (state S.Store connection).committed.trees → IsClean (S.Store.view u.store) → TellsLast (S.Store.blamed u.store) (S.Store.view u.store).is_broken u.fault) }
    ensures back { IfErr result (λ u. IsStoreOrBlank (state S.Store connection).committed.trees → IsClean (S.Store.view u.store) → IsTrue (S.Store.view u.store).is_open → contents_of (S.Store.view u.store).trees ≡ contents_of (state S.Store connection).committed.trees) }
{
    match in_order(alloc, connection) {
        Ok(ordered) => match SqliteKeeper::adopt(alloc, ordered) {
            Ok(keeper) => Ok(keeper),
            Err(unadopted) => Err(left_by(unadopted)),
        },
        Err(unread) => {
            let Unread { error, store } = unread;
            let fault = opening_fault(&error);
            Err(Untaken { fault, store })
        }
    }
}

/// Where the log of a file is to stand that is there and has none.
fn missing_log(rt: &HostRuntime, path: &str) -> Option<String> {
    let real = fs::canonicalize(rt, path).ok()?;
    let log = format!(in rt.alloc(); "{}-wal", real.as_str()).ok()?;
    match fs::symlink_metadata(rt, log.as_str()) {
        Err(error) if error.kind() == ErrorKind::NotFound => Some(log),
        _ => None,
    }
}

/// A log of fewer bytes has no page: 32 of its head, 24 of the head of a page, and 512 of the smallest page.
const FIRST_PAGE: u64 = 568;

/// Lets go of the files of a store that was not taken. A log that was made beside it, and that has no page, is taken away while they
/// are locked.
fn let_go(rt: &HostRuntime, files: Files<File>, made: Option<String>) {
    if let Some(log) = made {
        if let Ok(found) = fs::symlink_metadata(rt, log.as_str()) {
            if found.is_file() && found.len() < FIRST_PAGE {
                let _ = fs::remove_file(rt, log.as_str());
            }
        }
    }
    drop(files);
}

/// A keeper over the store in a file, which is made where it is not there.
///
/// A file that cannot be opened, or that is no store, is told as `Unopened`. Where a file that is there is not taken, nothing stands
/// beside it that did not before. What an open finds in files has its rows in order, so the file is not read again, as `take` reads
/// a store of which that is not known.
pub fn open(rt: &HostRuntime, path: &str) -> Result<SqliteKeeper<FileStore<File>>, StoreFault>
    ensures count { IfOk result (λ k. k.faults ≡ (if k.is_shut then 1 else 0)) }
{
    let made = missing_log(rt, path);
    match Connection::open_from(rt, path, false, Unknown) {
        Ok(connection) => match SqliteKeeper::adopt(rt.alloc(), connection) {
            Ok(keeper) => Ok(keeper),
            Err(unadopted) => {
                let Untaken { fault, store } = left_by(unadopted);
                let_go(rt, store.close(), made);
                Err(fault)
            }
        },
        Err((error, left)) => {
            if let Some(left) = left {
                let_go(rt, left.into_files(), made);
            }
            Err(opening_fault(&error))
        }
    }
}
