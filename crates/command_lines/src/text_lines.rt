//! The lines of a text.
ghost use Rattle.std.specs.Prelude.{◌≡◌, ◌<◌, ◌==◌, ◌++◌, ◌∷◌, [], List, ℕ, length, MatchOption, IfOk, IfSome};
ghost use Rattle.std.specs.List.{slice_split};

use field_values::{Items, NoMemory, Txt};
use std::alloc::Global;

/// Cuts a text at its first LF.
fn cut_line(text: &str) -> Option<(&str, &str)>
    ensures pieces { MatchOption result (slice_split (λ b. b == 10) text.now ≡ text.now ∷ [])
        (λ p. slice_split (λ b. b == 10) text.now ≡ p.0.now ∷ slice_split (λ b. b == 10) p.1.now) }
    ensures shorter { IfSome result (λ p. length p.1.now < length text.now) }
{
    text.split_once('\n')
}

/// The lines of a text, of which each has its end.
pub(crate) fn lines_in(alloc: Global, text: &str) -> Result<Items<Txt>, NoMemory>
    ensures { IfOk result (λ lines. (last : List ℕ) × (slice_split (λ b. b == 10) text.now ≡ lines ++ last ∷ [])) }
{
    let mut lines = Vec::new(alloc);
    let mut rest = text;
    'lines: while let Some((line, after)) = cut_line(rest) {
        lines.push(Txt::from_text(alloc, line)?)?;
        rest = after;
    }
    Ok(Items::new(lines))
}
