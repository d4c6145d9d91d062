//! Writes whole texts.
ghost use Rattle.std.specs.Prelude.{◌≡◌, OnOk, OnErr};
ghost use Rattle.std.specs.Result.{is_err};
ghost use Rattle.std.specs.Io.KnownBytes.{Appends};
ghost use Rattle.budget_ports.specs.Faults.{count_after};
ghost use Rattle.budget_top.specs.Fronts.{AppendsFront};

use budget_ports::{Failed, Sink};

/// Writes all of the bytes, in as many pieces as the sink takes. Where it fails, a front of them
/// was written.
pub fn write_all<W: Sink>(sink: &mut W, bytes: &[u8]) -> Result<(), Failed>
    ensures all { OnOk result (Appends (W.taken sink.old) (W.taken sink.new) bytes.now) }
    ensures front { OnErr result (AppendsFront (W.taken sink.old) (W.taken sink.new) bytes.now) }
    ensures count { W.faults sink.new ≡ count_after (is_err result) (W.faults sink.old) }
{
    let mut at = 0;
    while at < bytes.len() {
        at += sink.write(&bytes[at..])?;
    }
    Ok(())
}

/// Writes all of the bytes, and hands them on. Where the sink fails at that, all of them may have
/// been written.
pub fn write_and_flush<W: Sink>(sink: &mut W, bytes: &[u8]) -> Result<(), Failed>
    ensures all { OnOk result (Appends (W.taken sink.old) (W.taken sink.new) bytes.now) }
    ensures front { OnErr result (AppendsFront (W.taken sink.old) (W.taken sink.new) bytes.now) }
    ensures count { W.faults sink.new ≡ count_after (is_err result) (W.faults sink.old) }
{
    write_reply(sink, bytes, true)
}

/// Writes all of the bytes of a reply, and hands on what was written where no other reply stands ready. Where the sink fails at
/// that, all of them may have been written.
pub fn write_reply<W: Sink>(sink: &mut W, bytes: &[u8], is_last: bool) -> Result<(), Failed>
    ensures all { OnOk result (Appends (W.taken sink.old) (W.taken sink.new) bytes.now) }
    ensures front { OnErr result (AppendsFront (W.taken sink.old) (W.taken sink.new) bytes.now) }
    ensures count { W.faults sink.new ≡ count_after (is_err result) (W.faults sink.old) }
{
    write_all(sink, bytes)?;
    if is_last {
        return sink.flush();
    }
    Ok(())
}
