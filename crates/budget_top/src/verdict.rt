//! What merging makes of a line.
ghost use Rattle.std.specs.Prelude.{◌≡◌, IfOk, IsErr, IsUtf8, Err, false, string_bytes};
ghost use Rattle.field_merge.specs.Lines.{TakesMemory};
ghost use Rattle.budget_top.specs.Verdicts.{bad_line, judged_short, word_text, Takes};

use field_merge::{LatestMessages, LineFault};
use field_values::NoMemory;
use std::alloc::Global;
use std::str;

/// Why a line is no message. The first that holds is told.
#[derive(Clone, Copy, Debug, PartialEq, Eq)]
pub enum Word {
    /// It has more than 1,048,576 bytes.
    Long,
    /// It is no UTF-8.
    Utf8,
    /// It has not five parts.
    Columns,
    /// A backslash in it begins no escape.
    Escape,
    /// Its first part is no timestamp.
    Stamp,
    /// A name in it is not allowed.
    Name,
}

impl Word {
    /// The word as it is written.
    pub fn text(self) -> &'static str
        ensures { result.now ≡ word_text self }
    {
        match self {
            Word::Long => "long",
            Word::Utf8 => "utf8",
            Word::Columns => "columns",
            Word::Escape => "escape",
            Word::Stamp => "stamp",
            Word::Name => "name",
        }
    }
}

/// Takes the message of a line that is short enough among the latest ones, or tells the word for what is wrong with it.
///
/// # Errors
///
/// `NoMemory`; the latest messages are then spent.
#[tactic(auto, unfolding(crate::specs::Verdicts::judged_short))]
pub fn take_line(latest: &mut LatestMessages, line: &[u8]) -> Result<Result<(), Word>, NoMemory>
    requires live { latest.old.spent ≡ false }
    ensures taken { IfOk result (λ told. Takes (judged_short line.now) told latest.old latest.new) }
    ensures memory { IsErr result → IsUtf8 line.now × TakesMemory line.now }
{
    let Ok(text) = str::from_utf8(line) else {
        return Ok(Err(Word::Utf8));
    };
    match latest.add_line(text) {
        Ok(()) => Ok(Ok(())),
        Err(LineFault::Columns { .. }) => Ok(Err(Word::Columns)),
        Err(LineFault::Escape { .. }) => Ok(Err(Word::Escape)),
        Err(LineFault::Stamp(_)) => Ok(Err(Word::Stamp)),
        Err(LineFault::Name(_)) => Ok(Err(Word::Name)),
        Err(LineFault::NoMemory) => Err(NoMemory),
    }
}

/// The line that tells of a bad line, which has this number.
pub fn bad_line_text(alloc: Global, number: u64, word: Word) -> Result<String, NoMemory>
    ensures { IfOk result (λ text. string_bytes text ≡ bad_line number (Err word)) }
{
    let word = word.text();
    let text = format!(in alloc; "bad-line {number} {word}\n")?;
    Ok(text)
}
