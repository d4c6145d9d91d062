//! The transaction that one record takes.
ghost use Rattle.std.specs.Prelude.{◌≡◌, IfOk};
ghost use Rattle.std.specs.Option.{option_copied};
ghost use Rattle.std.specs.BTreeSet as set;
ghost use Rattle.finite_sums.specs.Maps.{Text, text_cmp};
ghost use Rattle.bank_import.specs.Matching.{turn, id_of, with_taken, somes, is_among};

use crate::facts::{Candidate, Facts, Pass, is_nearer, meets};
use field_values::{NoMemory, Txt};
use std::alloc::Global;
use std::collections::BTreeSet;

/// The candidate that a record takes: of those that agree and that nobody took the nearest, and of equally near ones the first.
fn turn<'a>(
    pass: Pass,
    facts: &Facts,
    candidates: &'a [Candidate],
    taken: &BTreeSet<Txt>,
) -> Option<&'a Candidate>
    ensures { option_copied result ≡ turn pass facts.now (λ q. set.contains text_cmp taken.now q) candidates.now }
{
    let mut best: Option<&Candidate> = None;
    for candidate in candidates {
        if meets(pass, facts, candidate)
            && !taken.contains(&candidate.id)
            && is_nearer(facts, best, candidate)
        {
            best = Some(candidate);
        }
    }
    best
}

/// The id of the candidate that a record without a match takes, which is then taken.
pub(crate) fn claim(
    pass: Pass,
    facts: &Facts,
    candidates: &[Candidate],
    taken: &mut BTreeSet<Txt>,
) -> Result<Option<Txt>, NoMemory>
    ensures found { IfOk result (λ o. o ≡ id_of (turn pass facts.now (λ q. set.contains text_cmp taken.old q) candidates.now)) }
    ensures taken { IfOk result (λ o. (q : Text) → set.contains text_cmp taken.new q ≡ with_taken o (λ q. set.contains text_cmp taken.old q) q) }
{
    match turn(pass, facts, candidates, taken) {
        None => Ok(None),
        Some(candidate) => {
            let id = candidate.id.copy()?;
            taken.insert(candidate.id.copy()?)?;
            Ok(Some(id))
        }
    }
}

/// The ids that are matched so far.
pub(crate) fn ids_taken(alloc: Global, matches: &[Option<Txt>]) -> Result<BTreeSet<Txt>, NoMemory>
    ensures { IfOk result (λ s. (q : Text) → set.contains text_cmp s q ≡ is_among (somes matches.now) q) }
{
    let mut taken = BTreeSet::new(alloc);
    for found in matches {
        if let Some(id) = found {
            taken.insert(id.copy()?)?;
        }
    }
    Ok(taken)
}
