//! The sink of the program. It is the edge of what is proved: what the system takes is not told, but
//! each failure raises a count.
ghost use Rattle.std.specs.Prelude.{◌≡◌, ◌<◌, length, None, IfOk};
ghost use Rattle.std.specs.Result.{is_err};
ghost use Rattle.std.specs.Io.{WritesAtMost};
ghost use Rattle.std.specs.Io.KnownBytes.{Keeps, WriteAppends};
ghost use Rattle.budget_ports.specs.Faults.{risen, count_after};

use budget_ports::{Failed, Sink};
use std::io::Write;

/// A writer, and how often it has failed. Over a writer with a buffer, what could not be written
/// shows at the latest when it is flushed.
#[derive(Drop)]
pub struct StdoutSink<W: Write> {
    writer: W,
    faults: u64,
}

impl<W: Write> StdoutSink<W> {
    /// A sink that has not failed.
    pub fn new(writer: W) -> StdoutSink<W>
        ensures faults { result.faults ≡ 0 }
        ensures writer { result.writer ≡ writer }
    {
        StdoutSink { writer, faults: 0 }
    }

    /// Counts a failure. The writer stays as it is.
    fn fail(&mut self) -> Failed
        ensures count { self.new.faults ≡ risen self.old.faults }
        ensures writer { self.new.writer ≡ self.old.writer }
    {
        self.faults = self.faults.saturating_add(1);
        Failed
    }
}

impl<W: Write> Sink for StdoutSink<W> {
    ghost taken = { λ _. None };

    ghost faults = { λ s. s.faults };

    /// Hands the bytes to the writer. Where the writer tells its bytes, they are known. A writer that
    /// takes none of some bytes has failed.
    fn write(&mut self, bytes: &[u8]) -> Result<usize, Failed>
        // what each sink promises
        ensures bound { WritesAtMost result bytes.now }
        ensures some { IfOk result (λ n. 0 < length bytes.now → 0 < n) }
        ensures count { self.new.faults ≡ count_after (is_err result) self.old.faults }

        // what this one does
        ensures writer { WriteAppends (W.contents self.old.writer) (W.contents self.new.writer) result bytes.now }
    {
        match self.writer.write(bytes) {
            Ok(count) if count > 0 || bytes.is_empty() => Ok(count),
            _ => Err(self.fail()),
        }
    }

    fn flush(&mut self) -> Result<(), Failed>
        // what each sink promises
        ensures count { self.new.faults ≡ count_after (is_err result) self.old.faults }

        // what this one does
        ensures writer { Keeps (W.contents self.old.writer) (W.contents self.new.writer) }
    {
        match self.writer.flush() {
            Ok(()) => Ok(()),
            Err(_) => Err(self.fail()),
        }
    }
}
