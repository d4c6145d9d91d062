//! The wire format of a sync. The bytes were written by a few lines of another program, from the public description of Protocol
//! Buffers.
ghost use Rattle.field_merge.specs.Messages.{AreMessages};
ghost use Rattle.hybrid_clock.specs.Stamp.{IsStamp};

use field_merge::Message;
use field_values::{Items, Value};
use hybrid_clock::Stamp;
use std::alloc::Global;
use std::test::Fail;
use sync_wire::{
    SyncRequest, SyncResponse, WireFault, read_message, read_request, read_response, write_message,
    write_request, write_response,
};

#[test]
fn refuses_requests(rt: HostRuntime) {
    let cases: [(&[u8], WireFault); 33] = [
        (b"\x0a", WireFault::Truncated { at: 1 }),
        (b"\x0a\x05", WireFault::Truncated { at: 2 }),
        (b"\x00", WireFault::BadTag { at: 0 }),
        (b"\x0b", WireFault::BadTag { at: 0 }),
        (b"(\x01", WireFault::BadTag { at: 0 }),
        (b"=\x00\x00", WireFault::Truncated { at: 3 }),
        (
            b"\x80\x80\x80\x80\x80\x80\x80\x80\x80\x80",
            WireFault::LongVarint { at: 0 },
        ),
        (
            b"\x80\x80\x80\x80\x80\x80\x80\x80\x80",
            WireFault::Truncated { at: 9 },
        ),
        (
            b"\x80\x80\x80\x80\x80\x80\x80\x80\x80\x02",
            WireFault::LongVarint { at: 0 },
        ),
        (b"\x12\x03a\xffb", WireFault::NotUtf8 { at: 3 }),
        (b"\x12\x02a\xc3", WireFault::NotUtf8 { at: 3 }),
        (b"\x0a\x00", WireFault::BadStamp { at: 2 }),
        (b"\x0a\x05\x0a\x01x\x1a\x00", WireFault::BadStamp { at: 2 }),
        (b"\x0a\x05\x0a\x01x\x10\x01", WireFault::BadStamp { at: 2 }),
        (
            b"\x0a\x03\x0a\x09x\x12\x04home",
            WireFault::Truncated { at: 5 },
        ),
        (
            b"\x0aK\x0a.2024-01-05T10:00:00.000Z-0000-00000000000000aa\x1a\x15\x0a\x05notes\x12\x01n\x1a\x04note\"\x04S:h:\x02zz\x12\x04home",
            WireFault::Truncated { at: 73 },
        ),
        (
            b"\x0a\x08\x0a\x01x\x1a\x03\x0a\x01\xff",
            WireFault::NotUtf8 { at: 9 },
        ),
        (
            b"\x12\x04home\x0a\x11\x0a\x01x\x1a\x0c\x0a\x00\x12\x01r\x1a\x01c\"\x02S:",
            WireFault::BadStamp { at: 8 },
        ),
        (
            b"\x12\x04home\x0a8\x0a.2024-01-05T10:00:00.000Z-0000-00000000000000aa\x1a\x06\x12\x01r\x1a\x01c",
            WireFault::BadMessage { at: 8 },
        ),
        (
            b"\x12\x04home\x0a0\x0a.2024-01-05T10:00:00.000Z-0000-00000000000000aa",
            WireFault::BadMessage { at: 8 },
        ),
        (
            b"\x0a\x03\x0a\x01x\x12\x01\xff",
            WireFault::BadStamp { at: 2 },
        ),
        (
            b"\x0aK\x0a\x01\xff\x0a.2024-01-05T10:00:00.000Z-0000-00000000000000aa\x1a\x16\x0a\x05notes\x12\x01n\x1a\x04note\"\x04S:hi",
            WireFault::NotUtf8 { at: 4 },
        ),
        (b"\x12\x01\xff\x12\x04home", WireFault::NotUtf8 { at: 2 }),
        (b"\x0a\x02\x08\x05", WireFault::BadTag { at: 2 }),
        (
            b"\x0a3\x0a.2024-01-05T10:00:00.000Z-0000-00000000000000aa\x12\x01\x01",
            WireFault::BadTag { at: 50 },
        ),
        (
            b"\x0a6\x0a.2024-01-05T10:00:00.000Z-0000-00000000000000aa\x10\x00\x1a\x02 \x01",
            WireFault::BadTag { at: 54 },
        ),
        (
            b"\x12\xff\xff\xff\xff\xff\xff\xff\xff\xff\xff",
            WireFault::LongVarint { at: 1 },
        ),
        (
            b"8\xff\xff\xff\xff\xff\xff\xff\xff\xff\x018\xff\xff\xff\xff\xff\xff\xff\xff\xff\x02",
            WireFault::LongVarint { at: 12 },
        ),
        (b"\x12\x01fK", WireFault::BadTag { at: 3 }),
        (b"\x12\x01fL", WireFault::BadTag { at: 3 }),
        (b"\x12\x01fN", WireFault::BadTag { at: 3 }),
        (b"\x12\x01fO", WireFault::BadTag { at: 3 }),
        (b"\x04", WireFault::BadTag { at: 0 }),
    ];
    for (bytes, fault) in cases {
        assert_eq!(rt;
            read_request(rt.alloc(), bytes).err(),
            Some(fault),
            "{bytes:?}"
        );
    }
}

/// What a request holds: how many messages, whether one is encrypted, and the file, the group and the time, with slashes between.
fn told(alloc: Global, request: &SyncRequest) -> Result<(usize, bool, String), Fail> {
    let file = request.file.as_str();
    let group = request.group.as_str();
    let since = request.since.as_str();
    let texts = format!(in alloc; "{file}/{group}/{since}")?;
    Ok((request.messages.len(), request.encrypted, texts))
}

/// What the request holds that the bytes mean.
fn told_of(alloc: Global, bytes: &[u8]) -> Result<(usize, bool, String), Fail> {
    let request = read_request(alloc, bytes)?;
    told(alloc, &request)
}

#[test]
fn reads_requests(rt: HostRuntime) -> Result<(), Fail> {
    let cases: [(&[u8], usize, bool, &str); 5] = [
        (b"", 0, false, "//"),
        (b"I\x00\x00\x00\x00\x00\x00\x00\x00", 0, false, "//"),
        (
            b"2\x01s\x1a\x01g8\xff\xff\xff\xff\xff\xff\xff\xff\xff\x01\x12\x03old*\x02\xff\xfe\x12\x01f\xfd\xff\xff\xff\xff\xff\xff\xff\xff\x01\x00\x00\x00\x00\x0aH\x0a.2024-01-05T10:00:00.000Z-0000-00000000000000aa\x1a\x16\x0a\x05notes\x12\x01n\x1a\x04note\"\x04S:hi",
            1,
            false,
            "f/g/s",
        ),
        (
            b"\x0a6\x0a.2024-01-05T10:00:00.000Z-0000-00000000000000aa\x10\x01\x1a\x02\xff\xff\x0aM\x0a.2024-01-05T10:00:00.000Z-0000-00000000000000aa\x1a\x01\xff\x10\x00\x1a\x16\x0a\x05notes\x12\x01n\x1a\x04note\"\x04S:hi",
            1,
            true,
            "//",
        ),
        (
            b"\x0aE\x0a\x01x\x0a.2024-01-05T10:00:01.000Z-0000-00000000000000bb\x1a\x10\x0a\x05notes\x12\x01n\x1a\x04note\x0aH\x0a.2024-01-05T10:00:00.000Z-0000-00000000000000aa\x1a\x16\x0a\x05notes\x12\x01n\x1a\x04note\"\x04S:hi",
            2,
            false,
            "//",
        ),
    ];
    for (bytes, messages, encrypted, texts) in cases {
        let (count, one_is, found) = told_of(rt.alloc(), bytes)?;
        assert_eq!(rt;
            (count, one_is, found.as_str()),
            (messages, encrypted, texts)
        );
    }
    Ok(())
}

/// The bytes that are written of a request, or none where one of its messages is encrypted.
fn written_of(alloc: Global, request: &SyncRequest) -> Result<Items<u8>, Fail>
    requires { AreMessages request.now.messages }
{
    if request.encrypted {
        return Ok(Items::new(Vec::new(alloc)));
    }
    Ok(write_request(alloc, request)?)
}

/// How many messages the request holds that the bytes mean, whether one is encrypted, and the bytes that are written of it.
fn request_again(alloc: Global, bytes: &[u8]) -> Result<(usize, bool, Items<u8>), Fail> {
    let request = read_request(alloc, bytes)?;
    let written = written_of(alloc, &request)?;
    Ok((request.messages.len(), request.encrypted, written))
}

#[test]
fn writes_a_request(rt: HostRuntime) -> Result<(), Fail> {
    let bytes: &[u8] =
        b"\x0aR\x0a.2024-01-05T10:00:00.000Z-0000-00000000000000aa\x1a \x0a\x0acategories\x12\x04food\x1a\x04name\"\x06S:Food\x12\x04home\x1a\x04home2.2024-01-05T09:55:02.000Z-0000-0000000000000000";
    let (count, encrypted, written) = request_again(rt.alloc(), bytes)?;
    assert_eq!(rt; (count, encrypted, written.as_slice()), (1, false, bytes));
    Ok(())
}

/// Whether a message is of the field notes, n and note, and its value the text hi.
fn says_hi(message: &Message) -> bool {
    let field = &message.field;
    let text = match &message.value {
        Value::Text(text) => text.as_str(),
        _ => "",
    };
    field.dataset() == "notes" && field.row() == "n" && field.column() == "note" && text == "hi"
}

/// Whether that is the message that the bytes mean, and the bytes that are written of it.
fn message_again(alloc: Global, stamp: &Stamp, bytes: &[u8]) -> Result<(bool, Items<u8>), Fail>
    requires { IsStamp stamp.now }
{
    let message = read_message(alloc, stamp, bytes)?;
    let written = write_message(alloc, &message)?;
    Ok((says_hi(&message), written))
}

#[test]
fn writes_a_message(rt: HostRuntime) -> Result<(), Fail> {
    let alloc = rt.alloc();
    let bytes: &[u8] = b"\x0a\x05notes\x12\x01n\x1a\x04note\"\x04S:hi";
    let stamp = Stamp::parse(b"2024-01-05T10:00:00.000Z-0000-00000000000000aa")?;
    for (bytes, fault) in [
        (&bytes[..21], WireFault::Truncated { at: 21 }),
        (&bytes[..10], WireFault::BadMessage { at: 0 }),
    ] {
        assert_eq!(rt; read_message(alloc, &stamp, bytes).err(), Some(fault));
    }
    let (hi, written) = message_again(alloc, &stamp, bytes)?;
    assert_eq!(rt; (hi, written.as_slice()), (true, bytes));
    Ok(())
}

/// What a reply holds: how many messages, whether one is encrypted, and whether its tree is `{}`.
type Reply = (usize, bool, bool);

fn reply_told(reply: &SyncResponse) -> Reply {
    let blank = reply.merkle.as_str() == "{}";
    (reply.messages.len(), reply.encrypted, blank)
}

/// The bytes that are written of a reply, or none where one of its messages is encrypted.
fn reply_written(alloc: Global, reply: &SyncResponse) -> Result<Items<u8>, Fail>
    requires { AreMessages reply.now.messages }
{
    if reply.encrypted {
        return Ok(Items::new(Vec::new(alloc)));
    }
    Ok(write_response(alloc, reply)?)
}

/// What the bytes mean as a reply, and the bytes that are written of it.
fn reply_again(alloc: Global, bytes: &[u8]) -> Result<(Reply, Items<u8>), Fail> {
    let reply = read_response(alloc, bytes)?;
    let written = reply_written(alloc, &reply)?;
    Ok((reply_told(&reply), written))
}

#[test]
fn writes_a_reply(rt: HostRuntime) -> Result<(), Fail> {
    let cases: [(&[u8], WireFault); 3] = [
        (b"\x10\x01", WireFault::BadTag { at: 0 }),
        (b"\x1a\x01x\x12\x02a\xff", WireFault::NotUtf8 { at: 6 }),
        (b"\x0a\x03\x0a\x01x", WireFault::BadStamp { at: 2 }),
    ];
    for (bytes, fault) in cases {
        assert_eq!(rt; read_response(rt.alloc(), bytes).err(), Some(fault));
    }
    let bytes: &[u8] =
        b"\x0aH\x0a.2024-01-05T10:00:01.000Z-0000-00000000000000bb\x1a\x16\x0a\x05notes\x12\x01n\x1a\x04note\"\x04N:-7\x12\x02{}";
    let (held, written) = reply_again(rt.alloc(), bytes)?;
    assert_eq!(rt; (held, written.as_slice()), ((1, false, true), bytes));
    Ok(())
}

/// What a copy of the request holds that the bytes mean.
fn copy_of_request(alloc: Global, bytes: &[u8]) -> Result<(usize, bool, String), Fail> {
    let request = read_request(alloc, bytes)?;
    told(alloc, &request.copy(alloc)?)
}

/// What a copy of the reply holds that the bytes mean.
fn copy_of_reply(alloc: Global, bytes: &[u8]) -> Result<Reply, Fail> {
    let reply = read_response(alloc, bytes)?;
    Ok(reply_told(&reply.copy(alloc)?))
}

#[test]
fn requests_and_replies_are_copied(rt: HostRuntime) -> Result<(), Fail> {
    let (count, encrypted, texts) = copy_of_request(
        rt.alloc(),
        b"\x0aH\x0a.2024-01-05T10:00:00.000Z-0000-00000000000000aa\x1a\x16\x0a\x05notes\x12\x01n\x1a\x04note\"\x04S:hi\x12\x01f\x1a\x01g2\x01s",
    )?;
    assert_eq!(rt; (count, encrypted, texts.as_str()), (1, false, "f/g/s"));
    let held = copy_of_reply(
        rt.alloc(),
        b"\x0a6\x0a.2024-01-05T10:00:00.000Z-0000-00000000000000aa\x10\x01\x1a\x02\xff\xff\x12\x02{}",
    )?;
    assert_eq!(rt; held, (0, true, true));
    Ok(())
}
