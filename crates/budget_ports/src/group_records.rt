//! The records of one group of a keeper in memory.
ghost use Rattle.std.specs.Prelude.{◌≡◌, List, Some, not, IfOk, OnOk, OnErr};
ghost use Rattle.std.specs.List.{slice_get};
ghost use Rattle.std.specs.FinMap as map;
ghost use Rattle.budget_ports.specs.declared.keeper.Record.{Record};
ghost use Rattle.budget_ports.specs.Groups.{with_body, with_bodies, bodies_after};
ghost use Rattle.budget_ports.specs.Latest.{IsRoomFor};
ghost use Rattle.budget_ports.specs.Undoing.{taken_out};

use crate::keeper::Record;
use crate::latest_first::LatestFirst;
use field_values::{Items, NoMemory, Txt};
use std::alloc::Global;
use std::collections::BTreeSet;
use std::marker::Model;
use std::ops::Bound;

/// Records from the greatest key on: a search of the set begins at its first element, and most records that come are behind all
/// others.
#[derive(Debug, Drop)]
pub struct GroupRecords {
    alloc: Global,
    records: BTreeSet<LatestFirst>,
}

impl Model for GroupRecords {
    ghost use Rattle.std.specs.FinMap as map;
    ghost use Rattle.budget_ports.specs.Contents.{Text, text_cmp};
    ghost use Rattle.budget_ports.specs.KeeperState.{texts_code};
    ghost use Rattle.std.specs.BTreeSet.{IsOrdered};
    ghost use Rattle.budget_ports.specs.Latest.{by_text, latest_first};

    ghost Value = { map.FinMap text_cmp Text };

    ghost coded = { texts_code };

    ghost view = { λ r. map.from_entries (by_text r.records.keys) };

    ghost invariant = { λ r. IsOrdered latest_first r.records };
}

impl GroupRecords {
    /// No records.
    pub fn new(alloc: Global) -> GroupRecords
        ensures { result ≡ map.empty }
    {
        GroupRecords {
            alloc,
            records: BTreeSet::new(alloc),
        }
    }

    /// Adds the records whose key is not there, or none of them where memory runs out.
    pub fn append(&mut self, batch: &[Record]) -> Result<(), NoMemory>
        ensures ok { OnOk result (self.new ≡ with_bodies self.old batch.now) }
        ensures err { OnErr result (self.new ≡ self.old) }
    {
        if let [kept] = batch {
            self.add_one(kept)?;
            return Ok(());
        }
        let mut added = Vec::with_capacity(self.alloc, batch.len())?;
        let room = LatestFirst::with_room(self.alloc, longest_key(batch))?;
        match self.add_all(batch, &mut added) {
            Ok(()) => Ok(()),
            Err(fault) => {
                self.take_out(batch, added, room);
                Err(fault)
            }
        }
    }

    /// Adds the records whose key is not there, and their places in the batch to `added`.
    fn add_all(&mut self, batch: &[Record], added: &mut Vec<usize>) -> Result<(), NoMemory>
        ensures ok { OnOk result (self.new ≡ with_bodies self.old batch.now) }
        ensures undone { taken_out batch.now self.new added.new.items ≡ taken_out batch.now self.old added.old.items }
    {
        for (place, kept) in batch.iter().enumerate() {
            self.add(kept, place, added)?;
        }
        Ok(())
    }

    /// Adds a record whose key is not there, or nothing where memory runs out, and says whether it was added.
    fn add_one(&mut self, kept: &Record) -> Result<bool, NoMemory>
        ensures added { IfOk result (λ added. added ≡ not (map.contains_key self.old kept.now.key)) }
        ensures ok { OnOk result (self.new ≡ with_body self.old kept.now) }
        ensures err { OnErr result (self.new ≡ self.old) }
    {
        let record = LatestFirst::of(self.alloc, kept.key.as_str(), kept.body.as_str())?;
        let added = self.records.insert(record)?;
        Ok(added)
    }

    /// Adds a record whose key is not there, and its place in the batch to `added`.
    fn add(&mut self, kept: &Record, place: usize, added: &mut Vec<usize>) -> Result<(), NoMemory>
        ensures ok { OnOk result (self.new ≡ with_body self.old kept.now) }
        ensures undone { (batch : List Record) → slice_get batch place ≡ Some kept.now → taken_out batch self.new added.new.items ≡ taken_out batch self.old added.old.items }
    {
        added.reserve(1)?;
        if self.add_one(kept)? {
            added.push(place)?;
        }
        Ok(())
    }

    /// Takes out the records that stand at these places in the batch, the last place first. `room` is room for a key, so that
    /// it takes no memory.
    fn take_out(&mut self, batch: &[Record], mut added: Vec<usize>, mut room: LatestFirst)
        requires { IsRoomFor batch.now room.1.1 }
        ensures { self.new ≡ taken_out batch.now self.old added.items }
    {
        while let Some(place) = added.pop() {
            if let Some(kept) = batch.get(place) {
                room.put(&kept.key);
                self.remove(&room);
            }
        }
    }

    /// Takes out the record under a key, if there is one.
    fn remove(&mut self, key: &LatestFirst)
        ensures { self.new ≡ map.remove self.old key.now.0 }
    {
        self.records.remove(key);
    }

    /// The records with a key above this one, by key.
    pub fn after(&self, after: &Txt) -> Result<Items<Record>, NoMemory>
        ensures { IfOk result (λ rs. rs ≡ bodies_after self.now after.now) }
    {
        let end = LatestFirst::of(self.alloc, after.as_str(), "")?;
        let mut above = self
            .records
            .range((Bound::Unbounded, Bound::Excluded(&end)));
        let mut found = Vec::new(self.alloc);
        while let Some(latest) = above.next_back() {
            found.push(latest.record(self.alloc)?)?;
        }
        Ok(Items::new(found))
    }
}

/// How many bytes the longest key of a batch has.
fn longest_key(batch: &[Record]) -> usize
    ensures { IsRoomFor batch.now result }
{
    let mut longest = 0;
    for kept in batch {
        longest = longest.max(kept.key.bytes().len());
    }
    longest
}
