//! Tells how connections ended.
ghost use Rattle.std.specs.Prelude.{◌≡◌, OnOk, OnErr, decimal};
ghost use Rattle.std.specs.Result.{is_err};
ghost use Rattle.std.specs.Io.KnownBytes.{Appends};
ghost use Rattle.budget_ports.specs.Faults.{count_after};
ghost use Rattle.budget_top.specs.Fronts.{AppendsFront};
ghost use Rattle.budget_top.specs.Serving.{end_line, end_text};

use crate::write::{write_all, write_and_flush};
use budget_ports::{Failed, Sink};
use itoa::Buffer;
use sync_server::Served;

/// Writes a number.
fn write_number<W: Sink>(sink: &mut W, number: u32) -> Result<(), Failed>
    ensures all { OnOk result (Appends (W.taken sink.old) (W.taken sink.new) (decimal number)) }
    ensures front { OnErr result (AppendsFront (W.taken sink.old) (W.taken sink.new) (decimal number)) }
    ensures count { W.faults sink.new ≡ count_after (is_err result) (W.faults sink.old) }
{
    let mut digits = Buffer::new();
    write_all(sink, digits.format(number).as_bytes())
}

/// Writes how a connection ended: the status of its answer, or `cut`.
fn write_end<W: Sink>(sink: &mut W, end: Served) -> Result<(), Failed>
    ensures all { OnOk result (Appends (W.taken sink.old) (W.taken sink.new) (end_text end)) }
    ensures front { OnErr result (AppendsFront (W.taken sink.old) (W.taken sink.new) (end_text end)) }
    ensures count { W.faults sink.new ≡ count_after (is_err result) (W.faults sink.old) }
{
    match end {
        Served::Answered { status } => write_number(sink, u32::from(status)),
        Served::Cut => write_all(sink, b"cut"),
    }
}

/// Writes the line of the connection with this number, and hands it on: `N STATUS`, or `N cut`. It takes
/// no memory. Where the sink fails, a front of the line was written.
pub fn tell_end<W: Sink>(sink: &mut W, number: u32, end: Served) -> Result<(), Failed>
    ensures all { OnOk result (Appends (W.taken sink.old) (W.taken sink.new) (end_line number end)) }
    ensures front { OnErr result (AppendsFront (W.taken sink.old) (W.taken sink.new) (end_line number end)) }
    ensures count { W.faults sink.new ≡ count_after (is_err result) (W.faults sink.old) }
{
    write_number(sink, number)?;
    write_all(sink, b" ")?;
    write_end(sink, end)?;
    write_and_flush(sink, b"\n")
}
