//! The sides of rows, and the bytes that they stand for.
use field_values::Items;
use std::alloc::Global;
use std::test::Fail;

/// The text of the trie of the message of `aa`, and of that one with the message of `bb`.
const FIRST: &str =
    "{\"1\":{\"2\":{\"2\":{\"2\":{\"1\":{\"1\":{\"0\":{\"0\":{\"2\":{\"0\":{\"2\":{\"0\":{\"1\":{\"2\":{\"2\":{\"0\":{\"hash\":189847234},\"hash\":189847234},\"hash\":189847234},\"hash\":189847234},\"hash\":189847234},\"hash\":189847234},\"hash\":189847234},\"hash\":189847234},\"hash\":189847234},\"hash\":189847234},\"hash\":189847234},\"hash\":189847234},\"hash\":189847234},\"hash\":189847234},\"hash\":189847234},\"hash\":189847234},\"hash\":189847234}";

const BOTH: &str =
    "{\"1\":{\"2\":{\"2\":{\"2\":{\"1\":{\"1\":{\"0\":{\"0\":{\"2\":{\"0\":{\"2\":{\"0\":{\"1\":{\"2\":{\"2\":{\"0\":{\"hash\":16148298},\"hash\":16148298},\"hash\":16148298},\"hash\":16148298},\"hash\":16148298},\"hash\":16148298},\"hash\":16148298},\"hash\":16148298},\"hash\":16148298},\"hash\":16148298},\"hash\":16148298},\"hash\":16148298},\"hash\":16148298},\"hash\":16148298},\"hash\":16148298},\"hash\":16148298},\"hash\":16148298}";

/// The envelopes of the two messages.
const FOOD: &str =
    "\x0aR\x0a.2024-01-05T10:00:00.000Z-0000-00000000000000aa\x1a \x0a\x0acategories\x12\x04food\x1a\x04name\"\x06S:Food";

const MEALS: &str =
    "\x0aS\x0a.2024-01-05T10:00:01.000Z-0000-00000000000000bb\x1a!\x0a\x0acategories\x12\x04food\x1a\x04name\"\x07S:Meals";

/// A text with the messages, their timestamps and the tries in place of their signs.
fn with_messages(alloc: Global, side: &str) -> Result<String, Fail> {
    let text = side.replace(alloc, '#', FOOD)?;
    let text = text.as_str().replace(alloc, '%', MEALS)?;
    let text = text.as_str().replace(alloc, '<', "2024-01-05T10:00:00.000Z-0000-00000000000000aa")?;
    let text = text.as_str().replace(alloc, '>', "2024-01-05T10:00:01.000Z-0000-00000000000000bb")?;
    let text = text.as_str().replace(alloc, '@', FIRST)?;
    Ok(text.as_str().replace(alloc, '&', BOTH)?)
}

/// A text with the parts of heads in place of their signs: `^` for a good head up to the length, `~` for that of an answer, `_` for what a
/// refusal's has behind its first line, `$` for its end, `;` for file, group and the tag of what is asked from; `|` for CR LF, `\`` for LF.
fn with_heads(alloc: Global, text: &str) -> Result<String, Fail> {
    let text = text.replace(
        alloc,
        '^',
        "POST /sync/sync HTTP/1.1\r\nX-ACTUAL-TOKEN: local\r\nContent-Length: ",
    )?;
    let text = text.as_str().replace(
        alloc,
        '~',
        "HTTP/1.1 200 OK\r\nContent-Type: application/actual-sync\r\nContent-Length: ",
    )?;
    let text = text.as_str().replace(
        alloc,
        '_',
        "\r\nContent-Type: text/plain\r\nContent-Length: ",
    )?;
    let text = text
        .as_str()
        .replace(alloc, '$', "\r\nConnection: close\r\n\r\n")?;
    let text = text
        .as_str()
        .replace(alloc, ';', "\x12\x04home\x1a\x04home2")?;
    let text = text.as_str().replace(alloc, '|', "\r\n")?;
    Ok(text.as_str().replace(alloc, '`', "\n")?)
}

/// The bytes that a side stands for: each of its characters, which are below 256, is a byte.
pub(crate) fn bytes_of(alloc: Global, side: &str) -> Result<Vec<u8>, Fail> {
    let text = with_messages(alloc, side)?;
    let text = with_heads(alloc, text.as_str())?;
    let mut bytes = Vec::new(alloc);
    for letter in text.as_str().chars() {
        bytes.push(u8::try_from(letter).unwrap_or(0))?;
    }
    Ok(bytes)
}

/// The left sides of rows `LEFT = RIGHT`, and the right ones, one behind the other and each with a line feed behind it.
pub(crate) fn sides_of(alloc: Global, rows: &[&str]) -> Result<(Vec<Items<u8>>, Vec<u8>), Fail> {
    let mut lefts = Vec::new(alloc);
    let mut rights = Vec::new(alloc);
    for row in rows {
        let (left, right) = row.split_once(" = ").unwrap_or((row, ""));
        lefts.push(Items::new(bytes_of(alloc, left)?))?;
        rights.extend_from_slice(bytes_of(alloc, right)?.as_slice())?;
        rights.push(b'\n')?;
    }
    Ok((lefts, rights))
}
