//! Scripts: lines with what a keeper is to answer to them.
ghost use Rattle.std.specs.Prelude.{◌<◌, IfOk, length};

use budget_ports::{Keeper, PortFault, Record};
use field_values::{NoMemory, Txt};
use std::alloc::Global;
use std::test::Fail;

/// A record of a key and a body.
fn record(alloc: Global, key: &str, body: &str) -> Result<Record, NoMemory>
    requires { 0 < length key.now }
    ensures { IfOk result (λ r. 0 < length r.key) }
{
    Ok(Record {
        key: Txt::from_text(alloc, key)?,
        body: Txt::from_text(alloc, body)?,
    })
}

/// Appends `b`, `a` and `b` again to a group.
fn append<K: Keeper>(alloc: Global, keeper: &mut K, group: &Txt) -> Result<String, PortFault> {
    let b = record(alloc, "b", "2")?;
    let a = record(alloc, "a", "1")?;
    let again = record(alloc, "b", "3")?;
    keeper.append(group, &[b, a, again])?;
    Ok(String::new(alloc))
}

/// The text of records, each as its key and its body.
fn text_of(alloc: Global, records: &[Record]) -> Result<String, NoMemory> {
    let mut text = String::new(alloc);
    for record in records {
        text.push_str(record.key.as_str())?;
        text.push_str(record.body.as_str())?;
    }
    Ok(text)
}

/// The records of a group after a key.
fn since<K: Keeper>(
    alloc: Global,
    keeper: &mut K,
    group: &Txt,
    after: &Txt,
) -> Result<String, PortFault> {
    let found = keeper.since(group, after)?;
    Ok(text_of(alloc, found.as_slice())?)
}

/// Puts a text under a name.
fn put<K: Keeper>(
    alloc: Global,
    keeper: &mut K,
    name: &Txt,
    text: &Txt,
) -> Result<String, PortFault> {
    keeper.put(name, text)?;
    Ok(String::new(alloc))
}

/// A text, or `none`.
fn text_or_none(alloc: Global, found: &Option<Txt>) -> Result<String, NoMemory> {
    let text = match found {
        Some(text) => text.as_str(),
        None => "none",
    };
    Ok(String::from_str(alloc, text)?)
}

/// The text under a name, or `none`.
fn get<K: Keeper>(alloc: Global, keeper: &mut K, name: &Txt) -> Result<String, PortFault> {
    let found = keeper.get(name)?;
    Ok(text_or_none(alloc, &found)?)
}

/// Names, with a comma behind each.
fn names_of(alloc: Global, names: &[Txt]) -> Result<String, NoMemory> {
    let mut text = String::new(alloc);
    for name in names {
        text.push_str(name.as_str())?;
        text.push_str(",")?;
    }
    Ok(text)
}

/// The names that have a text.
fn names<K: Keeper>(alloc: Global, keeper: &mut K) -> Result<String, PortFault> {
    let found = keeper.names()?;
    Ok(names_of(alloc, found.as_slice())?)
}

/// What stands before the first space, and what stands behind it.
fn cut(text: &str) -> (&str, &str) {
    text.split_once(" ").unwrap_or((text, ""))
}

/// The answer to `append GROUP`, `since GROUP KEY`, `put NAME TEXT`, `get NAME` or `names`.
pub fn answer<K: Keeper>(alloc: Global, keeper: &mut K, line: &str) -> Result<String, PortFault> {
    let (word, rest) = cut(line);
    let (name, text) = cut(rest);
    let name = Txt::from_text(alloc, name)?;
    let text = Txt::from_text(alloc, text)?;
    match word {
        "append" => append(alloc, keeper, &name),
        "since" => since(alloc, keeper, &name, &text),
        "put" => put(alloc, keeper, &name, &text),
        "get" => get(alloc, keeper, &name),
        _ => names(alloc, keeper),
    }
}

/// The answer to a line, or `failed`.
fn told<K: Keeper>(alloc: Global, keeper: &mut K, line: &str) -> Result<String, Fail> {
    match answer(alloc, keeper, line) {
        Ok(text) => Ok(text),
        Err(PortFault::Failed) => Ok(String::from_str(alloc, "failed")?),
        Err(PortFault::NoMemory) => Err(Fail::from(NoMemory)),
    }
}

/// Of rows "line > answer", the first that a keeper answers otherwise, with its answer.
pub fn first_wrong<K: Keeper>(alloc: Global, keeper: &mut K, script: &str) -> Result<String, Fail> {
    for row in script.lines() {
        let (line, wanted) = row.split_once(" > ").unwrap_or((row, ""));
        let told = told(alloc, keeper, line)?;
        if told.as_str() != wanted {
            return Ok(format!(in alloc; "{line} > {told}")?);
        }
    }
    Ok(String::new(alloc))
}
