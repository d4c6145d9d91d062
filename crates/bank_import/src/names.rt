//! The names of the payees that an import makes.
ghost use Rattle.std.specs.Prelude.{◌≡◌, [], IfOk, Some};
ghost use Rattle.rule_engine.specs.Conditions.{folded};
ghost use Rattle.bank_import.specs.Drafts.{place_of, with_name, new_names};

use crate::drafts::Draft;
use crate::payees::folded;
use field_values::{NoMemory, Txt};
use std::alloc::Global;
use std::collections::BTreeMap;
use std::marker::Model;

/// Names, each once whatever the case of its letters, and the place of each.
#[derive(Drop)]
pub(crate) struct Names {
    list: Vec<Txt>,
    places: BTreeMap<Txt, u32>,
}

impl Model for Names {
    ghost use Rattle.std.specs.Prelude.{List};
    ghost use Rattle.finite_sums.specs.Maps.{Text};

    ghost Value = { List Text };

    ghost view = { λ x. x.list.items };

    ghost use Rattle.bank_import.specs.NamesView.{AreFound};

    ghost invariant = { AreFound };
}

impl Names {
    /// No names.
    fn new(alloc: Global) -> Names
        ensures { result ≡ [] }
    {
        Names {
            list: Vec::new(alloc),
            places: BTreeMap::new(alloc),
        }
    }

    /// The names, in the order in which they came.
    pub fn as_slice(&self) -> &[Txt]
        ensures { result.now ≡ self.now }
    {
        self.list.as_slice()
    }

    /// The place of a name.
    pub fn place(&self, alloc: Global, name: &Txt) -> Result<Option<u32>, NoMemory>
        ensures { IfOk result (λ o. o ≡ place_of self.now (folded name.now)) }
    {
        let key = folded(alloc, name)?;
        Ok(self.places.get(&key).copied())
    }

    /// The names with one more, unless it is among them. There is no memory for 4,294,967,297 of them.
    fn add(self, alloc: Global, name: &Txt) -> Result<Names, NoMemory>
        ensures { IfOk result (λ names. names ≡ with_name self (Some name.now)) }
    {
        let Names {
            mut list,
            mut places,
        } = self;
        let key = folded(alloc, name)?;
        if places.get(&key).is_none() {
            let Ok(at) = u32::try_from(list.len()) else {
                return Err(NoMemory);
            };
            places.insert(key, at)?;
            list.push(name.copy()?)?;
        }
        Ok(Names { list, places })
    }
}

/// The names of the payees that records want made, each once, as the first record has it that wants it.
#[tactic(auto, unfolding(crate::specs::Drafts::new_names))]
pub(crate) fn new_names(alloc: Global, drafts: &[Draft]) -> Result<Names, NoMemory>
    ensures { IfOk result (λ names. names ≡ new_names drafts.now) }
{
    let mut names = Names::new(alloc);
    for draft in drafts {
        if let Some(name) = &draft.wanted {
            names = names.add(alloc, name)?;
        }
    }
    Ok(names)
}
