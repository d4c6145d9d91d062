//! The words of a line.
ghost use Rattle.std.specs.Prelude.{◌≡◌, ◌≤◌, IfNone, IfOk, IfSome, drop, length};
ghost use Rattle.field_merge.specs.Lines.{parts};

use field_merge::cut_part;
use field_values::{NoMemory, Txt};
use std::alloc::Global;

/// The words of a line as they are written.
pub(crate) fn cut_words(alloc: Global, line: &str) -> Result<Vec<Txt>, NoMemory>
    ensures { IfOk result (λ words. words.items ≡ parts line.now) }
{
    let mut words = Vec::new(alloc);
    let mut rest = line;
    'words: while let Some((word, next)) = cut_part(rest) {
        words.push(Txt::from_text(alloc, word)?)?;
        rest = next;
    }
    words.push(Txt::from_text(alloc, rest)?)?;
    Ok(words)
}

/// What stands behind so many words of a line, where it has more.
pub(crate) fn text_behind(line: &str, count: u32) -> Option<&str>
    ensures some { IfSome result (λ rest. parts rest.now ≡ drop count (parts line.now)) }
    ensures none { IfNone result (length (parts line.now) ≤ count) }
{
    let mut rest = line;
    for _at in 0..count {
        match cut_part(rest) {
            Some((_, next)) => rest = next,
            None => return None,
        }
    }
    Some(rest)
}
