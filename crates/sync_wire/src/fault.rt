//! What is wrong with the bytes of a message.
ghost use Rattle.std.specs.Prelude.{◌≡◌};
ghost use Rattle.sync_wire.specs.declared.fault.WireFault.TheVariants.{NoMemory as OutOfMemory};

use field_values::NoMemory;

/// The first fault in reading order. `at` is a place counted from the start of the whole body, from 0. A message inside
/// another is read to its end before what stands behind it.
#[derive(Clone, Copy, Debug, PartialEq, Eq, Drop)]
pub enum WireFault {
    /// The bytes of a message end inside a tag, a number, or the content of a field. `at` is the place where they end, which is
    /// that of the missing byte.
    Truncated { at: usize },
    /// A tag has the field number 0, a type other than 0, 1, 2 and 5, or another type than its field has. `at` is the
    /// place of the tag.
    BadTag { at: usize },
    /// A number has more than ten bytes or more than 64 bits. `at` is the place of its first byte.
    LongVarint { at: usize },
    /// A text is not UTF-8. `at` is the place of the first byte of the first sequence that is not.
    NotUtf8 { at: usize },
    /// The timestamp of an envelope is none. `at` is the place of the envelope's first byte.
    BadStamp { at: usize },
    /// The names in the content of an envelope are not those of a field. `at` is the place of the envelope's first byte.
    BadMessage { at: usize },
    /// Memory ran out.
    NoMemory,
}

impl From<NoMemory> for WireFault {
    ghost from_gives = { λ _ e. e ≡ OutOfMemory };

    fn from(_e: NoMemory) -> WireFault {
        WireFault::NoMemory
    }
}
