//! The records and the texts of a keeper in memory.
ghost use Rattle.std.specs.Prelude.{◌≡◌, IfOk, OnOk, OnErr};
ghost use Rattle.std.specs.FinMap as map;
ghost use Rattle.budget_ports.specs.Contents.{records_of_after, with_records};

use crate::group_records::GroupRecords;
use crate::keeper::Record;
use field_values::{Items, NoMemory, Txt};
use std::alloc::Global;
use std::collections::BTreeMap;
use std::marker::Model;

/// Bodies by group and key.
#[derive(Debug, Drop)]
pub struct Records {
    alloc: Global,
    groups: BTreeMap<Txt, GroupRecords>,
}

impl Model for Records {
    ghost use Rattle.std.specs.FinMap as map;
    ghost use Rattle.budget_ports.specs.Contents.{Text, place_cmp};
    ghost use Rattle.budget_ports.specs.Groups.{flattened};
    ghost use Rattle.budget_ports.specs.KeeperState.{records_code};

    ghost Value = { map.FinMap place_cmp Text };

    ghost coded = { records_code };

    ghost view = { λ r. flattened (map.from_entries r.groups.entries) };
}

impl Records {
    /// No records.
    pub fn new(alloc: Global) -> Records
        ensures { result ≡ map.empty }
    {
        Records {
            alloc,
            groups: BTreeMap::new(alloc),
        }
    }

    /// Adds the records whose key is not there, or none of them where memory runs out.
    pub fn append(&mut self, group: &Txt, batch: &[Record]) -> Result<(), NoMemory>
        ensures ok { OnOk result (self.new ≡ with_records group.now self.old batch.now) }
        ensures err { OnErr result (self.new ≡ self.old) }
    {
        if let Some(records) = self.groups.get_mut(group) {
            return records.append(batch);
        }
        let mut records = GroupRecords::new(self.alloc);
        records.append(batch)?;
        self.groups.insert(group.copy()?, records)?;
        Ok(())
    }

    /// The records of a group with a key above this one, by key.
    pub fn after(&self, group: &Txt, after: &Txt) -> Result<Items<Record>, NoMemory>
        ensures { IfOk result (λ rs. rs ≡ records_of_after self.now group.now after.now) }
    {
        match self.groups.get(group) {
            Some(records) => records.after(after),
            None => Ok(Items::new(Vec::new(self.alloc))),
        }
    }
}

/// Texts by name.
#[derive(Debug, Drop)]
pub struct Texts {
    alloc: Global,
    texts: BTreeMap<Txt, Txt>,
}

impl Model for Texts {
    ghost use Rattle.std.specs.FinMap as map;
    ghost use Rattle.budget_ports.specs.Contents.{Text, text_cmp};
    ghost use Rattle.budget_ports.specs.KeeperState.{texts_code};

    ghost Value = { map.FinMap text_cmp Text };

    ghost coded = { texts_code };

    ghost view = { λ t. map.from_entries t.texts.entries };
}

impl Texts {
    /// No texts.
    pub fn new(alloc: Global) -> Texts
        ensures { result ≡ map.empty }
    {
        Texts {
            alloc,
            texts: BTreeMap::new(alloc),
        }
    }

    /// Puts a text under a name, in place of the one that was there.
    pub fn put(&mut self, name: &Txt, text: &Txt) -> Result<(), NoMemory>
        ensures ok { OnOk result (self.new ≡ map.insert self.old name.now text.now) }
        ensures err { OnErr result (self.new ≡ self.old) }
    {
        let name = name.copy()?;
        let text = text.copy()?;
        self.texts.insert(name, text)?;
        Ok(())
    }

    /// The text under a name.
    pub fn get(&self, name: &Txt) -> Result<Option<Txt>, NoMemory>
        ensures { IfOk result (λ text. text ≡ map.get self.now name.now) }
    {
        match self.texts.get(name) {
            Some(text) => Ok(Some(text.copy()?)),
            None => Ok(None),
        }
    }

    /// The names, in order.
    pub fn names(&self) -> Result<Items<Txt>, NoMemory>
        ensures { IfOk result (λ names. names ≡ map.keys self.now) }
    {
        let mut names = Vec::new(self.alloc);
        for name in self.texts.keys() {
            names.push(name.copy()?)?;
        }
        Ok(Items::new(names))
    }
}
