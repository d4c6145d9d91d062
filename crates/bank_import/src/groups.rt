//! Candidates by a key.
ghost use Rattle.std.specs.Prelude.{◌≡◌, ℕ, ℤ, ◌++◌, [], ◌∷◌, OnOk, IfOk, if◌then◌else◌};
ghost use Rattle.std.specs.BTreeMap.{is_at};
ghost use Rattle.bank_import.specs.Groups.{group, AreById, AreBySpan, of_span, span_cmp};

use crate::facts::Candidate;
use crate::spans::{first_span, last_span};
use field_values::{NoMemory, Txt};
use std::alloc::Global;
use std::collections::BTreeMap;

/// Puts a candidate at the end of the group of a key.
fn enter<K: Ord + Drop>(
    alloc: Global,
    groups: &mut BTreeMap<K, Vec<Candidate>>,
    key: K,
    candidate: Candidate,
) -> Result<(), NoMemory>
    ensures { OnOk result ((k : K) → group K.cmp groups.new k ≡ (if is_at (K.cmp key) k then group K.cmp groups.old k ++ candidate ∷ [] else group K.cmp groups.old k)) }
{
    if let Some(group) = groups.get_mut(&key) {
        group.push(candidate)?;
        return Ok(());
    }
    let mut group = Vec::new(alloc);
    group.push(candidate)?;
    groups.insert(key, group)?;
    Ok(())
}

/// The candidates that have an id of a statement, by this id.
pub(crate) fn by_id(
    alloc: Global,
    candidates: &[Candidate],
) -> Result<BTreeMap<Txt, Vec<Candidate>>, NoMemory>
    ensures { IfOk result (λ m. AreById m candidates.now) }
{
    let mut groups = BTreeMap::new(alloc);
    for candidate in candidates {
        if let Some(id) = &candidate.financial_id {
            enter(alloc, &mut groups, id.copy()?, candidate.copy()?)?;
        }
    }
    Ok(groups)
}

/// Puts a candidate into the groups of its amount and of the spans that have a day at most seven from its own.
fn enter_near(
    alloc: Global,
    groups: &mut BTreeMap<(i64, u32), Vec<Candidate>>,
    day: i32,
    candidate: &Candidate,
) -> Result<(), NoMemory>
    requires { candidate.now.day ≡ Some day }
    ensures { OnOk result ((amount : ℤ) (at : ℕ) → group span_cmp groups.new (amount, at) ≡ group span_cmp groups.old (amount, at) ++ of_span amount at (candidate.now ∷ [])) }
{
    let first = first_span(day);
    let last = last_span(day);
    enter(alloc, groups, (candidate.amount, first), candidate.copy()?)?;
    if last != first {
        enter(alloc, groups, (candidate.amount, last), candidate.copy()?)?;
    }
    Ok(())
}

/// The candidates that have a day, by their amounts and by the spans that have a day at most seven from their own: one or two.
pub(crate) fn by_span(
    alloc: Global,
    candidates: &[Candidate],
) -> Result<BTreeMap<(i64, u32), Vec<Candidate>>, NoMemory>
    ensures { IfOk result (λ m. AreBySpan m candidates.now) }
{
    let mut groups = BTreeMap::new(alloc);
    for candidate in candidates {
        if let Some(day) = candidate.day {
            enter_near(alloc, &mut groups, day, candidate)?;
        }
    }
    Ok(groups)
}
