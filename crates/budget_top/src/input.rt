//! The input of a run: how much of it is read, and where its lines end.
ghost use Rattle.std.specs.Prelude.{◌≡◌, ◌≤◌, ℕ, List, Option, length, position};
ghost use Rattle.std.specs.Io.KnownBytes.{Consumes};
ghost use Rattle.budget_ports.specs.Faults.{count_after};
ghost use Rattle.budget_top.specs.Lines.{is_end};
ghost use Rattle.budget_top.specs.Limits.{most_input, Reads, is_failed};

use budget_ports::Source;
use memchr::memchr;

/// The most bytes of input that a run takes.
const MOST_INPUT: usize = 1_073_741_824;

/// How many bytes are asked for at once.
pub const PIECE: usize = 4096;

/// What a read gave.
#[derive(Clone, Copy, Debug, PartialEq, Eq)]
pub enum Piece {
    /// The source has no more bytes.
    End,
    /// The source failed.
    Failed,
    /// So many bytes within the limit, which stand at the front of the buffer, and where `past` one
    /// behind them that is not within it.
    Bytes { count: usize, past: bool },
}

/// How reading ended.
#[derive(Clone, Copy, Debug, PartialEq, Eq)]
pub enum End<S> {
    /// The source has no more bytes.
    AtEnd,
    SourceFailed,
    /// A byte past the limit came.
    TooMuch,
    Stopped(S),
}

/// Reads bytes into the buffer, of a source of which `taken` were read before. No more than one byte
/// past the limit is asked for.
pub fn read_piece<S: Source>(source: &mut S, buffer: &mut [u8; PIECE], taken: usize) -> Piece
    requires { taken ≤ most_input }
    ensures reads { (left : Option (List ℕ)) (read : List ℕ) → Consumes left (S.left source.old) read → length read ≡ taken → Reads result left (S.left source.new) read buffer.new }
    ensures count { S.faults source.new ≡ count_after (is_failed result) (S.faults source.old) }
{
    let room = MOST_INPUT - taken;
    let most = PIECE.min(room + 1);
    match source.read(&mut buffer[..most]) {
        Ok(0) => Piece::End,
        Ok(count) => Piece::Bytes {
            count: count.min(room),
            past: count > room,
        },
        Err(_) => Piece::Failed,
    }
}

/// How many bytes stand before the first line feed.
pub fn line_length(bytes: &[u8]) -> Option<usize>
    ensures { result ≡ position is_end bytes.now }
{
    memchr(b'\n', bytes)
}
