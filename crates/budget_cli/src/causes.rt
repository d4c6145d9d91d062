//! Why there is no store at a path, and why a server can't listen: what stands on standard error below the word for it.
//!
//! What SQLite doesn't tell, the system is asked for once more. Nothing is made or changed by that, but where a file could
//! not be made and now can be: then it is made, and empty.
use sqlite_keeper::OpeningCause;
use std::fs::OpenOptions;
use std::io::{ErrorKind, Read};
use std::os::unix::fs::MetadataExt;
use std::{fs, io};

/// What the first bytes of each SQLite file are.
const FIRST_BYTES: [u8; 16] = *b"SQLite format 3\0";

/// What is told where nothing more is known.
const NOT_OPENED: &str = "it can't be opened";

/// What a failure of the system says of a path.
fn system_text(kind: ErrorKind) -> &'static str {
    match kind {
        ErrorKind::NotFound => "there is no such folder",
        ErrorKind::NotADirectory => "a part of its path is no folder",
        ErrorKind::PermissionDenied => "no permission",
        ErrorKind::ReadOnlyFilesystem => "the disk is read-only",
        ErrorKind::StorageFull | ErrorKind::QuotaExceeded => "there is no room",
        ErrorKind::InvalidFilename => "its name is too long",
        ErrorKind::FilesystemLoop => "its links lead nowhere",
        _ => NOT_OPENED,
    }
}

/// Whether a file begins as each SQLite file does.
fn begins_as_store(rt: &HostRuntime, path: &str) -> io::Result<bool> {
    let mut file = fs::open(rt, path)?;
    let mut first = [0; 16];
    match file.read_exact(&mut first) {
        Ok(()) => Ok(first == FIRST_BYTES),
        Err(error) if error.kind() == ErrorKind::UnexpectedEof => Ok(false),
        Err(error) => Err(error),
    }
}

/// Why a file can't be opened in which nothing is wrong by itself: for what stands beside it.
fn beside_text(rt: &HostRuntime, path: &str) -> io::Result<&'static str> {
    let real = fs::canonicalize(rt, path)?;
    let journal = format!(in rt.alloc(); "{}-journal", real.as_str())?;
    if let Ok(found) = fs::symlink_metadata(rt, journal.as_str()) {
        if !found.is_file() || found.len() > 0 {
            return Ok("sqlite3 has left a journal beside it");
        }
    }
    let log = format!(in rt.alloc(); "{}-wal", real.as_str())?;
    match fs::symlink_metadata(rt, log.as_str()) {
        Ok(found) if found.is_file() && found.nlink() == 1 => Ok("its log can't be opened"),
        Ok(_) => Ok("what stands in the place of its log is no log"),
        Err(_) => Ok("no log can be made beside it"),
    }
}

/// Why a file that is there can't be opened.
fn file_text(rt: &HostRuntime, path: &str, names: u64) -> &'static str {
    if names != 1 {
        return "the file has a second name";
    }
    match OpenOptions::new().read(true).write(true).open(rt, path) {
        Ok(_) => beside_text(rt, path).unwrap_or(NOT_OPENED),
        Err(error) => system_text(error.kind()),
    }
}

/// Why no file can be made.
fn making_text(rt: &HostRuntime, path: &str) -> &'static str {
    match OpenOptions::new()
        .read(true)
        .write(true)
        .create_new(true)
        .open(rt, path)
    {
        Ok(_) => NOT_OPENED,
        Err(error) if error.kind() == ErrorKind::AlreadyExists => "its links lead nowhere",
        Err(error) => system_text(error.kind()),
    }
}

/// Why nothing can be opened at a path.
fn path_text(rt: &HostRuntime, path: &str) -> &'static str {
    if path == ":memory:" || path.starts_with("file:") {
        return "no file is named so";
    }
    match fs::metadata(rt, path) {
        Ok(found) if found.is_dir() => "a folder stands there",
        Ok(found) if !found.is_file() => "what stands there is no file",
        Ok(found) => file_text(rt, path, found.nlink()),
        Err(error) if error.kind() == ErrorKind::NotFound => making_text(rt, path),
        Err(error) => system_text(error.kind()),
    }
}

/// Why there is no store at a path.
pub fn store_text(rt: &HostRuntime, path: &str, cause: OpeningCause) -> &'static str {
    match cause {
        OpeningCause::NotOpened => path_text(rt, path),
        OpeningCause::InUse => "another run is on it",
        OpeningCause::NoStore => match begins_as_store(rt, path) {
            Ok(true) => "it has tables that can't be read",
            _ => "it is no SQLite file",
        },
        OpeningCause::OtherTables => "its tables are not a store's",
        OpeningCause::Damaged => match begins_as_store(rt, path) {
            Ok(false) => "it is no SQLite file",
            _ => "it is damaged",
        },
        OpeningCause::NoRoom => "there is no room",
        OpeningCause::Failed => "it can't be read or written",
    }
}

/// Why a server can't listen at an address.
pub fn address_text(kind: ErrorKind) -> &'static str {
    match kind {
        ErrorKind::AddrInUse => "another program listens there",
        ErrorKind::PermissionDenied => "no permission to listen there",
        ErrorKind::AddrNotAvailable => "this machine has no such address",
        _ => "that is no address",
    }
}
