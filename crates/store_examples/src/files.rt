//! A store in a real file.
use crate::stores::{FIRST, LATER, MOVED, NEW, ROWS, fault_text, over, ran};
use sqlite::Connection;
use sqlite_keeper::open;
use std::fs;
use std::test::Fail;

/// Where the files stand.
const FOLDER: &str = "store_examples_folder";

/// The file of the store.
const PATH: &str = "store_examples_folder/device.db";

/// What becomes of a file: why it isn't taken, or what its keeper answers otherwise than a script says.
fn opened(rt: &HostRuntime, path: &str, script: &str) -> Result<String, Fail> {
    match open(rt, path) {
        Ok(keeper) => over(rt.alloc(), keeper, script),
        Err(fault) => fault_text(rt.alloc(), fault),
    }
}

/// A file is made, written, and opened again.
#[test]
fn file_is_opened_again(rt: HostRuntime) -> Result<(), Fail> {
    let _ = fs::remove_dir_all(&rt, FOLDER);
    fs::create_dir(&rt, FOLDER)?;
    assert_eq!(rt; opened(&rt, PATH, NEW)?.as_str(), "");
    assert_eq!(rt; opened(&rt, PATH, LATER)?.as_str(), "");
    fs::remove_dir_all(&rt, FOLDER)?;
    Ok(())
}

/// Where the files stand that are refused.
const REFUSED: &str = "store_examples_refused";

/// A file that is refused, and where its log would stand.
const TEXT: &str = "store_examples_refused/text.db";

const LOG: &str = "store_examples_refused/text.db-wal";

/// What becomes of a file that has this text.
fn opened_text(rt: &HostRuntime, text: &str) -> Result<String, Fail> {
    fs::write(rt, TEXT, text)?;
    opened(rt, TEXT, "")
}

/// Whether the file that is refused has this text.
fn has_text(rt: &HostRuntime, text: &str) -> Result<bool, Fail> {
    let found = fs::read_to_string(rt, TEXT)?;
    Ok(found.as_str() == text)
}

/// Runs these statements over a new file.
fn written(rt: &HostRuntime, sql: &str) -> Result<(), Fail> {
    fs::remove_file(rt, TEXT)?;
    let connection = ran(Connection::open(rt, TEXT)?, sql)?;
    Ok(connection.close()?)
}

/// What becomes of a file after these statements, without a log beside it.
fn opened_after(rt: &HostRuntime, sql: &str, script: &str) -> Result<String, Fail> {
    written(rt, sql)?;
    fs::remove_file(rt, LOG)?;
    opened(rt, TEXT, script)
}

/// What becomes of a file after these tables and statements.
fn opened_with(rt: &HostRuntime, tables: &str, sql: &str, script: &str) -> Result<String, Fail> {
    let sql = format!(in rt.alloc(); "{tables}; {sql}")?;
    opened_after(rt, sql.as_str(), script)
}

/// What becomes of a file after these tables and statements, and whether a log then stands beside it.
fn refused_with(rt: &HostRuntime, tables: &str, sql: &str) -> Result<(String, bool), Fail> {
    let told = opened_with(rt, tables, sql, "")?;
    Ok((told, fs::exists(rt, LOG)?))
}

/// What becomes of a file that has a text, whether it has it still, and whether a log then stands beside it.
fn refused_text(rt: &HostRuntime, text: &str) -> Result<(String, bool, bool), Fail> {
    let told = opened_text(rt, text)?;
    let left = has_text(rt, text)?;
    Ok((told, left, fs::exists(rt, LOG)?))
}

/// What becomes of a file that a keeper has open.
fn opened_beside(rt: &HostRuntime) -> Result<String, Fail> {
    let first = open(rt, TEXT);
    let second = opened(rt, TEXT, "");
    drop(first);
    second
}

/// What becomes of a new file that a keeper has open.
fn opened_twice(rt: &HostRuntime) -> Result<String, Fail> {
    fs::remove_file(rt, TEXT)?;
    opened_beside(rt)
}

/// A file of the first version is moved, and opened again: what is wrong of it, or what becomes of a file that a keeper has open.
fn taken_after(rt: &HostRuntime) -> Result<String, Fail> {
    let moved = opened_with(rt, FIRST, ROWS, MOVED)?;
    if moved.as_str() != "" {
        return Ok(moved);
    }
    let again = opened(rt, TEXT, MOVED)?;
    if again.as_str() != "" {
        return Ok(again);
    }
    opened_twice(rt)
}

/// A file that is refused is told why, and nothing stands beside it afterwards.
#[test]
fn refused_files_are_left_alone(rt: HostRuntime) -> Result<(), Fail> {
    let _ = fs::remove_dir_all(&rt, REFUSED);
    fs::create_dir(&rt, REFUSED)?;
    assert_eq!(rt; opened(&rt, REFUSED, "")?.as_str(), "unopened NotOpened");
    let (told, left, log) = refused_text(&rt, "this is no store")?;
    assert_eq!(rt;
        (told.as_str(), left, log),
        ("unopened NoStore", true, false)
    );
    for (tables, sql, wanted) in [
        (
            FIRST,
            "INSERT INTO named VALUES ('version', '7')",
            "version 7",
        ),
        (
            "",
            "CREATE TABLE entries (a INTEGER) STRICT",
            "unopened OtherTables",
        ),
        (
            "",
            "CREATE TABLE named (a INTEGER) STRICT",
            "unopened OtherTables",
        ),
    ] {
        let (told, log) = refused_with(&rt, tables, sql)?;
        assert_eq!(rt; (told.as_str(), log), (wanted, false), "of {sql}");
    }
    assert_eq!(rt; taken_after(&rt)?.as_str(), "unopened InUse");
    fs::remove_dir_all(&rt, REFUSED)?;
    Ok(())
}
