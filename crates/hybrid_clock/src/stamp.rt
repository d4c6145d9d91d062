//! Timestamps.
use crate::node::Node;
use std::hash::{Hash, Hasher};

/// The first minute since 1970 that is past those of timestamps, which is 3 to the 16.
pub const WINDOW: u64 = 43_046_721;

/// A timestamp of a hybrid clock.
///
/// It is valid (`IsStamp`) where its minute is below 43,046,721 and its node is one that
/// `Node::make` gives. Timestamps are ordered by time, then by counter, then by node, which
/// is the order of their texts byte by byte.
#[derive(Clone, Copy, Debug, PartialEq, Eq)]
pub struct Stamp {
    /// Milliseconds since the start of 1970 in UTC.
    pub millis: u64,
    /// Tells the timestamps of one millisecond apart.
    pub counter: u16,
    /// The device that drew it.
    pub node: Node,
}

/// Why a text is no timestamp.
#[derive(Clone, Copy, Debug, PartialEq, Eq)]
pub enum StampFault {
    /// It has `len` bytes, and not 46.
    Length { len: usize },
    /// The byte at the place `at`, counted from 0, is the first that may not stand there.
    BadByte { at: usize },
    /// The year is before 1970, or the calendar has no such day or the clock no such time.
    NoSuchMoment,
    /// The moment lies in this minute since 1970, which is 43,046,721 or later.
    BeyondWindow { minute: u64 },
    /// Each character of the node is `0`.
    ZeroNode,
}

/// Time and counter are fed to a hasher as one number, whose low 48 bits no counter reaches and whose high 16 no time of a valid
/// timestamp.
impl Hash for Stamp {
    ghost use Rattle.std.specs.Prelude.{[], ◌∷◌, ◌++◌, bit_xor};
    ghost use Rattle.std.specs.Hash as fed;
    ghost use Rattle.std.specs.Hash.FoldHasher.{shl};
    ghost use Rattle.std.proofs.Common.{rules};
    ghost use Rattle.std.specs.Cmp.Rules.{comparing, hashing};

    ghost hash_input = { λ s. fed.u64 (bit_xor s.millis (shl s.counter 48)) ++ s.node ∷ [] };

    ghost respects_eq = { Prim.search (hashing, comparing, rules) };

    fn hash<H: Hasher>(&self, state: &mut H) {
        state.write_u64(self.millis ^ (self.counter as u64) << 48);
        self.node.hash(state);
    }
}

impl Stamp {
    ghost use Rattle.std.specs.Prelude.{◌≡◌, ◌*◌, ◌/◌, ◌<◌};
    ghost use Rattle.hybrid_clock.specs.Stamp.{window};

    /// The minute of its time, counted from the start of 1970.
    pub fn minute(&self) -> u32
        requires { self.now.millis < 60_000 * window }
        ensures { result ≡ self.now.millis / 60_000 }
    {
        (self.millis / 60_000) as u32
    }
}
