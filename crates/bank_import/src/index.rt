//! Candidates, found by what a record has to agree with.
ghost use Rattle.std.specs.Prelude.{◌≡◌, List, IfOk, length};
ghost use Rattle.std.specs.Option.{option_copied};
ghost use Rattle.std.specs.BTreeSet as set;
ghost use Rattle.finite_sums.specs.Maps.{Text, text_cmp};
ghost use Rattle.bank_import.specs.Matching.{turn, id_of, with_taken, next_pass, no_match, matched_among};
ghost use Rattle.bank_import.specs.Groups.{items_of, near_in};

use crate::facts::{Candidate, Facts, Pass};
use crate::groups;
use crate::spans::span;
use crate::turns::{claim, ids_taken};
use field_values::{NoMemory, Txt};
use std::alloc::Global;
use std::collections::{BTreeMap, BTreeSet};
use std::marker::Model;

/// The candidates, grouped by the ids of statements, and by their amounts and days, so that a record looks at no others than those of
/// its id, or of its amount and at most twenty-two days from its own.
#[derive(Drop)]
pub(crate) struct Index {
    all: Vec<Candidate>,
    by_id: BTreeMap<Txt, Vec<Candidate>>,
    by_span: BTreeMap<(i64, u32), Vec<Candidate>>,
}

impl Model for Index {
    ghost use Rattle.std.specs.Prelude.{List};
    ghost use Rattle.bank_import.specs.declared.facts.Candidate.{Candidate};

    ghost Value = { List Candidate };

    ghost view = { λ x. x.all.items };

    ghost use Rattle.bank_import.specs.IndexView.{IsIndex};

    ghost invariant = { IsIndex };
}

/// The id of the candidate that a record takes out of a group, if there is one.
fn claim_in(
    pass: Pass,
    facts: &Facts,
    group: Option<&Vec<Candidate>>,
    taken: &mut BTreeSet<Txt>,
) -> Result<Option<Txt>, NoMemory>
    ensures found { IfOk result (λ o. o ≡ id_of (turn pass facts.now (λ q. set.contains text_cmp taken.old q) (items_of (option_copied group.entry)))) }
    ensures taken { IfOk result (λ o. (q : Text) → set.contains text_cmp taken.new q ≡ with_taken o (λ q. set.contains text_cmp taken.old q) q) }
{
    match group {
        None => Ok(None),
        Some(group) => claim(pass, facts, group.as_slice(), taken),
    }
}

impl Index {
    /// The index of candidates.
    pub fn new(alloc: Global, all: Vec<Candidate>) -> Result<Index, NoMemory>
        ensures { IfOk result (λ x. x ≡ all.items) }
    {
        let by_id = groups::by_id(alloc, all.as_slice())?;
        let by_span = groups::by_span(alloc, all.as_slice())?;
        Ok(Index {
            all,
            by_id,
            by_span,
        })
    }

    /// The group that has all candidates near a record.
    fn near(&self, facts: &Facts) -> Option<&Vec<Candidate>>
        ensures { items_of (option_copied result) ≡ near_in facts.now.amount facts.now.day self.now }
    {
        let day = facts.day?;
        self.by_span.get(&(facts.amount, span(day)))
    }

    /// The id of the candidate that a record without a match takes, which is then taken.
    fn claim(
        &self,
        pass: Pass,
        facts: &Facts,
        taken: &mut BTreeSet<Txt>,
    ) -> Result<Option<Txt>, NoMemory>
        ensures found { IfOk result (λ o. o ≡ id_of (turn pass facts.now (λ q. set.contains text_cmp taken.old q) self.now)) }
        ensures taken { IfOk result (λ o. (q : Text) → set.contains text_cmp taken.new q ≡ with_taken o (λ q. set.contains text_cmp taken.old q) q) }
    {
        match pass {
            Pass::ById => match &facts.financial_id {
                None => Ok(None),
                Some(id) => claim_in(pass, facts, self.by_id.get(id), taken),
            },
            Pass::ByPayee => claim_in(pass, facts, self.near(facts), taken),
            Pass::ByAmount => claim_in(pass, facts, self.near(facts), taken),
        }
    }

    /// One pass over the records, in order: those that have a match keep it.
    fn next_pass(
        &self,
        alloc: Global,
        pass: Pass,
        records: &[Facts],
        matches: &[Option<Txt>],
    ) -> Result<Vec<Option<Txt>>, NoMemory>
        requires { length matches.now ≡ length records.now }
        ensures found { IfOk result (λ v. v.items ≡ next_pass pass self.now records.now matches.now) }
        ensures len { IfOk result (λ v. length v.items ≡ length records.now) }
    {
        let mut taken = ids_taken(alloc, matches)?;
        let mut found = Vec::new(alloc);
        for (i, facts) in records.iter().enumerate() {
            let id = match &matches[i] {
                Some(id) => Some(id.copy()?),
                None => self.claim(pass, facts, &mut taken)?,
            };
            found.push(id)?;
        }
        Ok(found)
    }

    /// For each record the candidate that it matches.
    pub fn matched(&self, alloc: Global, records: &[Facts]) -> Result<Vec<Option<Txt>>, NoMemory>
        ensures found { IfOk result (λ v. v.items ≡ matched_among self.now records.now) }
        ensures len { IfOk result (λ v. length v.items ≡ length records.now) }
    {
        let none = no_match(alloc, records)?;
        let first = self.next_pass(alloc, Pass::ById, records, none.as_slice())?;
        let second = self.next_pass(alloc, Pass::ByPayee, records, first.as_slice())?;
        self.next_pass(alloc, Pass::ByAmount, records, second.as_slice())
    }
}

/// No match for each record.
fn no_match(alloc: Global, records: &[Facts]) -> Result<Vec<Option<Txt>>, NoMemory>
    ensures found { IfOk result (λ v. v.items ≡ no_match records.now) }
    ensures len { IfOk result (λ v. length v.items ≡ length records.now) }
{
    let mut found = Vec::new(alloc);
    for facts in records {
        let _ = facts;
        found.push(None)?;
    }
    Ok(found)
}
