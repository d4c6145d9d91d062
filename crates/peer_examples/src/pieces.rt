//! Pieces of requests, of replies, and of what devices have.
use std::alloc::Global;
use std::test::Fail;

/// Pieces, one behind the other. Of a request and of a reply each character is a byte.
pub(crate) type Pieces = &'static [&'static str];

/// What stands in front of the length of a device's request, and of a server's answer, and what stands behind it.
pub(crate) const ASK: &str =
    "POST /sync/sync HTTP/1.1\r\nHost: localhost\r\nContent-Type: application/actual-sync\r\nX-ACTUAL-TOKEN: local\r\nContent-Length: ";

pub(crate) const TELL: &str =
    "HTTP/1.1 200 OK\r\nContent-Type: application/actual-sync\r\nContent-Length: ";

pub(crate) const BODY: &str = "\r\nConnection: close\r\n\r\n";

/// The server's file and its group.
pub(crate) const HOME: &str = "\x12\x04home\x1a\x04home";

/// From the first message on.
pub(crate) const ALL: &str = "2\x010";

/// The messages of the device `aa`: food has a name, and a group.
pub(crate) const OF_ONE: &str =
    "\nR\n.2024-01-05T10:00:00.000Z-0000-00000000000000aa\x1a \n\ncategories\x12\x04food\x1a\x04name\"\x06S:Food\nX\n.2024-01-05T10:00:00.000Z-0001-00000000000000aa\x1a&\n\ncategories\x12\x04food\x1a\x09cat_group\"\x07S:usual";

/// Those of the device `bb`: food has another name, and rent has one.
pub(crate) const OF_OTHER: &str =
    "\nS\n.2024-01-05T10:00:01.000Z-0000-00000000000000bb\x1a!\n\ncategories\x12\x04food\x1a\x04name\"\x07S:Meals\nR\n.2024-01-05T10:01:30.000Z-0000-00000000000000bb\x1a \n\ncategories\x12\x04rent\x1a\x04name\"\x06S:Rent";

/// The trie of the first device's messages, and that of all four, each behind what a reply has in front of it; and that of none.
pub(crate) const FRONT_OF_ONE: &str = "\x12\u{93}\x03";

pub(crate) const ONE: &str =
    "{\"1\":{\"2\":{\"2\":{\"2\":{\"1\":{\"1\":{\"0\":{\"0\":{\"2\":{\"0\":{\"2\":{\"0\":{\"1\":{\"2\":{\"2\":{\"0\":{\"hash\":1294069467},\"hash\":1294069467},\"hash\":1294069467},\"hash\":1294069467},\"hash\":1294069467},\"hash\":1294069467},\"hash\":1294069467},\"hash\":1294069467},\"hash\":1294069467},\"hash\":1294069467},\"hash\":1294069467},\"hash\":1294069467},\"hash\":1294069467},\"hash\":1294069467},\"hash\":1294069467},\"hash\":1294069467},\"hash\":1294069467}";

pub(crate) const FRONT_OF_BOTH: &str = "\x12\u{9b}\x03";

pub(crate) const BOTH: &str =
    "{\"1\":{\"2\":{\"2\":{\"2\":{\"1\":{\"1\":{\"0\":{\"0\":{\"2\":{\"0\":{\"2\":{\"0\":{\"1\":{\"2\":{\"2\":{\"0\":{\"hash\":1183276883},\"1\":{\"hash\":2084899801},\"hash\":985814154},\"hash\":985814154},\"hash\":985814154},\"hash\":985814154},\"hash\":985814154},\"hash\":985814154},\"hash\":985814154},\"hash\":985814154},\"hash\":985814154},\"hash\":985814154},\"hash\":985814154},\"hash\":985814154},\"hash\":985814154},\"hash\":985814154},\"hash\":985814154},\"hash\":985814154}";

pub(crate) const NONE: &str = "\x12\n{\"hash\":0}";

/// The latest of each field, of the first device's messages, and of all four.
pub(crate) const FIELDS_OF_ONE: &str =
    "2024-01-05T10:00:00.000Z-0001-00000000000000aa\tcategories\tfood\tcat_group\tS:usual\n2024-01-05T10:00:00.000Z-0000-00000000000000aa\tcategories\tfood\tname\tS:Food\n";

pub(crate) const FIELDS_OF_BOTH: &str =
    "2024-01-05T10:00:00.000Z-0001-00000000000000aa\tcategories\tfood\tcat_group\tS:usual\n2024-01-05T10:00:01.000Z-0000-00000000000000bb\tcategories\tfood\tname\tS:Meals\n2024-01-05T10:01:30.000Z-0000-00000000000000bb\tcategories\trent\tname\tS:Rent\n";

/// Adds the bytes of pieces.
pub(crate) fn add_bytes(bytes: &mut Vec<u8>, pieces: &[&str]) -> Result<(), Fail> {
    for piece in pieces {
        for letter in piece.chars() {
            bytes.push(u8::try_from(letter).unwrap_or(0))?;
        }
    }
    Ok(())
}

/// The text of pieces.
pub(crate) fn text_of(alloc: Global, pieces: &[&str]) -> Result<String, Fail> {
    let mut text = String::new(alloc);
    for piece in pieces {
        text.push_str(piece)?;
    }
    Ok(text)
}
