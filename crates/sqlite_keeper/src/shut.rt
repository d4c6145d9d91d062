//! A keeper over no store.
ghost use Rattle.std.specs.Prelude.{◌≡◌, true, IsErrOf};
ghost use Rattle.budget_ports.specs.declared.keeper.PortFault.TheVariants.{Failed as HasFailed};
ghost use Rattle.budget_ports.specs.Faults.{count_after};
ghost use Rattle.budget_ports.specs.Contents.{nothing};

use budget_ports::{Keeper, PortFault, Record};
use field_values::{Items, Txt};
use std::marker::Model;

/// A keeper over no store: each call fails and is counted. It tells nothing, and a stop leaves nothing
/// of it.
#[derive(Debug, Drop)]
pub struct ShutKeeper {
    faults: u64,
}

impl Model for ShutKeeper {
    ghost use Rattle.std.specs.Prelude.{ℕ};

    ghost Value = { ℕ };

    ghost view = { λ k. k.faults };
}

impl ShutKeeper {
    /// No call has failed so far.
    pub fn new() -> ShutKeeper
        ensures { result ≡ 0 }
    {
        ShutKeeper { faults: 0 }
    }

    /// One more failure.
    fn fail(&mut self) -> PortFault
        ensures fault { result ≡ PortFault.Failed }
        ensures count { self.new ≡ count_after true self.old }
    {
        self.faults = self.faults.saturating_add(1);
        PortFault::Failed
    }
}

impl Keeper for ShutKeeper {
    ghost tells = { λ _. ⊥ };

    ghost contents = { λ _. nothing };

    ghost left = { λ _ _. ⊥ };

    ghost faults = { λ k. k };

    fn append(&mut self, _group: &Txt, _batch: &[Record]) -> Result<(), PortFault>
        ensures fails { IsErrOf result HasFailed }
        ensures count { self.new ≡ count_after true self.old }
    {
        Err(self.fail())
    }

    fn since(&mut self, _group: &Txt, _after: &Txt) -> Result<Items<Record>, PortFault>
        ensures fails { IsErrOf result HasFailed }
        ensures count { self.new ≡ count_after true self.old }
    {
        Err(self.fail())
    }

    fn put(&mut self, _name: &Txt, _text: &Txt) -> Result<(), PortFault>
        ensures fails { IsErrOf result HasFailed }
        ensures count { self.new ≡ count_after true self.old }
    {
        Err(self.fail())
    }

    fn get(&mut self, _name: &Txt) -> Result<Option<Txt>, PortFault>
        ensures fails { IsErrOf result HasFailed }
        ensures count { self.new ≡ count_after true self.old }
    {
        Err(self.fail())
    }

    fn names(&mut self) -> Result<Items<Txt>, PortFault>
        ensures fails { IsErrOf result HasFailed }
        ensures count { self.new ≡ count_after true self.old }
    {
        Err(self.fail())
    }
}
