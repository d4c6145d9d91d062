//! A keeper in memory, for tests.
ghost use Rattle.std.specs.Prelude.{◌≡◌, ◌↔◌, [], IsTrue, IsErrOf, IfOk, OnOk, OnErr};
ghost use Rattle.std.specs.FinMap as map;
ghost use Rattle.budget_ports.specs.Faults.{count_after};
ghost use Rattle.budget_ports.specs.Calls.{no_calls, is_listed};
ghost use Rattle.budget_ports.specs.Contents.{nothing, records_after, appended, with_text};
ghost use Rattle.budget_ports.specs.Keeper.{has_failed, Commits, IsAlone, LeavesNoMore, Rise, HaveKeys};
ghost use Rattle.budget_ports.specs.KeeperState.{counted, holds};
ghost use Rattle.budget_ports.specs.declared.keeper.PortFault.TheVariants.{Failed as HasFailed};

use crate::calls::Calls;
use crate::keeper::{Keeper, PortFault, Record};
use crate::records::{Records, Texts};
use field_values::{Items, Txt};
use std::alloc::Global;
use std::marker::Model;

/// A keeper in memory.
///
/// To a contract it is its contents and its calls: their number, those that fail, and how many have
/// failed.
#[derive(Debug, Drop)]
pub struct MemoryKeeper {
    records: Records,
    texts: Texts,
    calls: Calls,
}

impl Model for MemoryKeeper {
    ghost use Rattle.budget_ports.specs.KeeperState.{KeeperState, state_code};

    ghost Value = { KeeperState };

    ghost coded = { state_code };

    ghost view = { λ k. record { contents = record { records = k.records; texts = k.texts }; calls = k.calls } };
}

impl MemoryKeeper {
    /// A keeper that holds nothing, of which no call fails.
    pub fn new(alloc: Global) -> MemoryKeeper
        ensures { result ≡ record { contents = nothing; calls = no_calls [] } }
    {
        MemoryKeeper::with_faults(alloc, Vec::new(alloc))
    }

    /// A keeper that holds nothing. A call whose number is in `calls` fails; the calls are numbered
    /// from 0 over all methods together.
    pub fn with_faults(alloc: Global, calls: Vec<u64>) -> MemoryKeeper
        ensures { result ≡ record { contents = nothing; calls = no_calls calls.items } }
    {
        MemoryKeeper {
            records: Records::new(alloc),
            texts: Texts::new(alloc),
            calls: Calls::new(calls),
        }
    }
}

impl Keeper for MemoryKeeper {
    ghost tells = { λ _. Unit {0} };

    ghost contents = { λ k. k.contents };

    ghost left = { λ k c. c ≡ k.contents };

    ghost faults = { λ k. k.calls.faults };

    /// Fails exactly where the call is listed.
    fn append(&mut self, group: &Txt, batch: &[Record]) -> Result<(), PortFault>
        requires { HaveKeys batch.now }

        // what each keeper promises
        ensures ok { OnOk result (self.new.contents ≡ appended self.old.contents group.now batch.now) }
        ensures err { OnErr result (self.new.contents ≡ self.old.contents) }
        ensures left { Commits (Unit {0}) (holds self.old) (holds self.new) (appended self.old.contents group.now batch.now) }
        ensures alone { OnOk result (IsAlone (Unit {0}) self.new.contents (holds self.new)) }
        ensures here { holds self.new self.new.contents }
        ensures count { self.new.calls.faults ≡ count_after (has_failed result) self.old.calls.faults }

        // what this one does
        ensures fails { IsErrOf result HasFailed ↔ IsTrue (is_listed self.old.calls) }
        ensures counts { self.new.calls ≡ counted self.old.calls }
    {
        self.calls.begin(true)?;
        self.records.append(group, batch)?;
        Ok(())
    }

    /// Fails exactly where the call is listed.
    fn since(&mut self, group: &Txt, after: &Txt) -> Result<Items<Record>, PortFault>
        // what each keeper promises
        ensures records { IfOk result (λ rs. rs ≡ records_after self.old.contents group.now after.now) }
        ensures rise { IfOk result Rise }
        ensures same { self.new.contents ≡ self.old.contents }
        ensures left { LeavesNoMore (holds self.old) (holds self.new) }
        ensures here { holds self.new self.new.contents }
        ensures count { self.new.calls.faults ≡ count_after (has_failed result) self.old.calls.faults }

        // what this one does
        ensures fails { IsErrOf result HasFailed ↔ IsTrue (is_listed self.old.calls) }
        ensures counts { self.new.calls ≡ counted self.old.calls }
    {
        self.calls.begin(true)?;
        Ok(self.records.after(group, after)?)
    }

    /// Fails exactly where the call is listed.
    fn put(&mut self, name: &Txt, text: &Txt) -> Result<(), PortFault>
        // what each keeper promises
        ensures ok { OnOk result (self.new.contents ≡ with_text self.old.contents name.now text.now) }
        ensures err { OnErr result (self.new.contents ≡ self.old.contents) }
        ensures left { Commits (Unit {0}) (holds self.old) (holds self.new) (with_text self.old.contents name.now text.now) }
        ensures alone { OnOk result (IsAlone (Unit {0}) self.new.contents (holds self.new)) }
        ensures here { holds self.new self.new.contents }
        ensures count { self.new.calls.faults ≡ count_after (has_failed result) self.old.calls.faults }

        // what this one does
        ensures fails { IsErrOf result HasFailed ↔ IsTrue (is_listed self.old.calls) }
        ensures counts { self.new.calls ≡ counted self.old.calls }
    {
        self.calls.begin(true)?;
        self.texts.put(name, text)?;
        Ok(())
    }

    /// Fails exactly where the call is listed.
    fn get(&mut self, name: &Txt) -> Result<Option<Txt>, PortFault>
        // what each keeper promises
        ensures text { IfOk result (λ text. text ≡ map.get self.old.contents.texts name.now) }
        ensures same { self.new.contents ≡ self.old.contents }
        ensures left { LeavesNoMore (holds self.old) (holds self.new) }
        ensures here { holds self.new self.new.contents }
        ensures count { self.new.calls.faults ≡ count_after (has_failed result) self.old.calls.faults }

        // what this one does
        ensures fails { IsErrOf result HasFailed ↔ IsTrue (is_listed self.old.calls) }
        ensures counts { self.new.calls ≡ counted self.old.calls }
    {
        self.calls.begin(true)?;
        Ok(self.texts.get(name)?)
    }

    /// Fails exactly where the call is listed.
    fn names(&mut self) -> Result<Items<Txt>, PortFault>
        // what each keeper promises
        ensures names { IfOk result (λ names. names ≡ map.keys self.old.contents.texts) }
        ensures same { self.new.contents ≡ self.old.contents }
        ensures left { LeavesNoMore (holds self.old) (holds self.new) }
        ensures here { holds self.new self.new.contents }
        ensures count { self.new.calls.faults ≡ count_after (has_failed result) self.old.calls.faults }

        // what this one does
        ensures fails { IsErrOf result HasFailed ↔ IsTrue (is_listed self.old.calls) }
        ensures counts { self.new.calls ≡ counted self.old.calls }
    {
        self.calls.begin(true)?;
        Ok(self.texts.names()?)
    }
}
