//! What a name of a field may be.
ghost use Rattle.std.specs.Prelude.{◌≡◌, ◌||◌, OnOk, IfErr, Some, None, false, position};
ghost use Rattle.std.specs.List.{fold};
ghost use Rattle.field_values.specs.declared.name.NameFault.TheVariants.{NoMemory as OutOfMemory};
ghost use Rattle.field_values.specs.Names.{is_bad_byte, name_fault};

use crate::memory::NoMemory;

/// Which of a field's three names.
#[derive(Clone, Copy, Debug, PartialEq, Eq)]
pub enum NamePart {
    /// The first: what kind of thing the field belongs to.
    Dataset,
    /// The second: which of these things.
    Row,
    /// The third: which field of that thing.
    Column,
}

/// Why names were not made a field. The names are tested dataset, row, column, and each of them in the order of the variants.
#[derive(Clone, Copy, Debug, PartialEq, Eq)]
pub enum NameFault {
    /// The name has no byte.
    Empty { part: NamePart },
    /// The name has `len` bytes, more than 255.
    TooLong { part: NamePart, len: usize },
    /// The name's first byte below 32 or equal to 127 is at `at`, counted from 0.
    BadByte { part: NamePart, at: usize },
    /// The names have no fault, but memory ran out.
    NoMemory,
}

impl From<NoMemory> for NameFault {
    ghost from_gives = { λ _ fault. fault ≡ OutOfMemory };

    fn from(_error: NoMemory) -> NameFault {
        NameFault::NoMemory
    }
}

/// The most bytes that a name has.
pub const MOST_BYTES: usize = 255;

/// Whether there is a byte that no name may have. It goes on behind one, so that a processor looks at many bytes at once.
fn has_bad_byte(name: &[u8]) -> bool
    ensures { result ≡ fold (λ b byte. b || is_bad_byte byte) false name.now }
{
    name.iter()
        .fold(false, |bad, byte| bad | (*byte < 32 || *byte == 127))
}

/// The place of the first byte that no name may have.
#[tactic(auto, using(crate::proofs::Folded::no_place))]
fn bad_byte(name: &[u8]) -> Option<usize>
    ensures { result ≡ position is_bad_byte name.now }
{
    if has_bad_byte(name) {
        name.iter().position(|byte| *byte < 32 || *byte == 127)
    } else {
        None
    }
}

/// Whether the bytes may be the name of this part, or what is first wrong with them.
pub fn check_name(part: NamePart, name: &[u8]) -> Result<(), NameFault>
    ensures good { OnOk result (name_fault part name.now ≡ None) }
    ensures bad { IfErr result (λ fault. name_fault part name.now ≡ Some fault) }
{
    if name.is_empty() {
        return Err(NameFault::Empty { part });
    }
    if name.len() > MOST_BYTES {
        return Err(NameFault::TooLong {
            part,
            len: name.len(),
        });
    }
    match bad_byte(name) {
        Some(at) => Err(NameFault::BadByte { part, at }),
        None => Ok(()),
    }
}
