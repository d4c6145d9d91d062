//! The source of the program. It is the edge of what is proved: what the system gives is not told,
//! but each failure raises a count.
ghost use Rattle.std.specs.Prelude.{◌≡◌, None};
ghost use Rattle.std.specs.Result.{is_err};
ghost use Rattle.std.specs.Io.{ReadsAtMost};
ghost use Rattle.std.specs.Io.KnownBytes.{ReadConsumes};
ghost use Rattle.budget_ports.specs.Faults.{risen, count_after};

use budget_ports::{Failed, Source};
use std::io;
use std::io::{ErrorKind, Read};

/// How often a read is tried that signals interrupt.
const MOST_TRIES: usize = 1_000_000;

/// Takes what a reader gives. A read that a signal interrupts is tried again.
fn read_on<R: Read>(reader: &mut R, buffer: &mut [u8]) -> io::Result<usize>
    ensures bound { ReadsAtMost result buffer.new }
    ensures reader { ReadConsumes (R.remaining reader.old) (R.remaining reader.new) result buffer.new }
{
    'tries: for _ in 0..MOST_TRIES {
        match reader.read(buffer) {
            Ok(count) => return Ok(count),
            Err(error) => {
                if error.kind() != ErrorKind::Interrupted {
                    return Err(error);
                }
            }
        }
    }
    Err(ErrorKind::Interrupted.into())
}

/// A reader, and how often it has failed.
#[derive(Drop)]
pub struct StdinSource<R: Read> {
    reader: R,
    faults: u64,
}

impl<R: Read> StdinSource<R> {
    /// A source that has not failed.
    pub fn new(reader: R) -> StdinSource<R>
        ensures faults { result.faults ≡ 0 }
        ensures reader { result.reader ≡ reader }
    {
        StdinSource { reader, faults: 0 }
    }

    /// Counts a failure. The reader stays as it is.
    fn fail(&mut self) -> Failed
        ensures count { self.new.faults ≡ risen self.old.faults }
        ensures reader { self.new.reader ≡ self.old.reader }
    {
        self.faults = self.faults.saturating_add(1);
        Failed
    }
}

impl<R: Read> Source for StdinSource<R> {
    ghost left = { λ _. None };

    ghost faults = { λ s. s.faults };

    /// Gives what the reader gives. Where the reader tells its bytes, they are known.
    fn read(&mut self, buffer: &mut [u8]) -> Result<usize, Failed>
        // what each source promises
        ensures bound { ReadsAtMost result buffer.new }
        ensures count { self.new.faults ≡ count_after (is_err result) self.old.faults }

        // what this one does
        ensures reader { ReadConsumes (R.remaining self.old.reader) (R.remaining self.new.reader) result buffer.new }
    {
        match read_on(&mut self.reader, buffer) {
            Ok(count) => Ok(count),
            Err(_) => Err(self.fail()),
        }
    }
}
