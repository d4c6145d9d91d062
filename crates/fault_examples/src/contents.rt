//! What a keeper holds behind a run, and the bytes that a text of a table stands for.
use budget_ports::{Keeper, PortFault, Record};
use field_values::{Items, NoMemory, Txt};
use std::alloc::Global;
use std::test::Fail;

/// The records behind a key. Where the first call fails it is asked again: the call that fails is then the one behind the last of the run.
fn records_behind<K: Keeper>(
    keeper: &mut K,
    group: &Txt,
    first: &Txt,
) -> Result<Items<Record>, PortFault> {
    match keeper.since(group, first) {
        Ok(records) => Ok(records),
        Err(_) => keeper.since(group, first),
    }
}

/// The records of a group.
pub(crate) fn records_of<K: Keeper>(
    alloc: Global,
    keeper: &mut K,
    group: &str,
) -> Result<Items<Record>, Fail> {
    let group = Txt::from_text(alloc, group)?;
    let first = Txt::from_text(alloc, "")?;
    Ok(records_behind(keeper, &group, &first)?)
}

/// Adds the line of a record.
fn add_line(lines: &mut String, record: &Record) -> Result<(), NoMemory> {
    lines.push_str(record.key.as_str())?;
    lines.push_str("\t")?;
    lines.push_str(record.body.as_str())?;
    lines.push_str("\n")?;
    Ok(())
}

/// Records, each as a line.
pub(crate) fn lines_of(alloc: Global, records: &[Record]) -> Result<String, Fail> {
    let mut lines = String::new(alloc);
    for record in records {
        add_line(&mut lines, record)?;
    }
    Ok(lines)
}

/// The records of a group, each as a line.
fn group_of<K: Keeper>(alloc: Global, keeper: &mut K, group: &str) -> Result<String, Fail> {
    let records = records_of(alloc, keeper, group)?;
    lines_of(alloc, records.as_slice())
}

/// Adds a line with the text under a name, where there is one.
fn add_named<K: Keeper>(keeper: &mut K, lines: &mut String, name: &Txt) -> Result<(), Fail> {
    if let Some(found) = keeper.get(name)? {
        lines.push_str(found.as_str())?;
        lines.push_str("\n")?;
    }
    Ok(())
}

/// The records of a group, each as a line, and a line with the text under a name, where there is one.
fn contents_of<K: Keeper>(
    alloc: Global,
    keeper: &mut K,
    group: &str,
    name: &Txt,
) -> Result<String, Fail> {
    let mut lines = group_of(alloc, keeper, group)?;
    add_named(keeper, &mut lines, name)?;
    Ok(lines)
}

/// Whether the records of a group, each as a line, and a line with the text under a name, where there is one, are this text.
pub(crate) fn holds<K: Keeper>(
    alloc: Global,
    keeper: &mut K,
    group: &str,
    name: &str,
    text: &str,
) -> Result<bool, Fail> {
    let name = Txt::from_text(alloc, name)?;
    let contents = contents_of(alloc, keeper, group, &name)?;
    Ok(contents.as_str() == text)
}

/// The bytes that a text stands for: each of its characters, which are below 256, is a byte.
pub(crate) fn bytes_of(alloc: Global, text: &str) -> Result<Vec<u8>, Fail> {
    let mut bytes = Vec::new(alloc);
    for letter in text.chars() {
        bytes.push(u8::try_from(letter).unwrap_or(0))?;
    }
    Ok(bytes)
}
