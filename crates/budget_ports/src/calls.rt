//! The count of calls that the objects in memory share.
ghost use Rattle.std.specs.Prelude.{◌≡◌, ◌↔◌, ◌||◌, not, IsTrue, IsErr, OnOk, OnErr};
ghost use Rattle.std.specs.Result.{is_err};
ghost use Rattle.budget_ports.specs.Faults.{count_after};
ghost use Rattle.budget_ports.specs.Calls.{no_calls, is_listed, answered, failed};

use crate::stream::Failed;
use std::marker::Model;

/// How many calls were made, and which of them fail.
///
/// The calls of an object are numbered from 0 over all its methods together.
#[derive(Debug, Drop)]
pub struct Calls {
    listed: Vec<u64>,
    made: u64,
    faults: u64,
}

impl Model for Calls {
    ghost use Rattle.budget_ports.specs.Calls.{CallState};

    ghost Value = { CallState };

    ghost view = { λ c. record { listed = c.listed.items; made = c.made; faults = c.faults } };
}

impl Calls {
    /// No call was made, and those with these numbers will fail.
    pub fn new(listed: Vec<u64>) -> Calls
        ensures { result ≡ no_calls listed.items }
    {
        Calls {
            listed,
            made: 0,
            faults: 0,
        }
    }

    /// Counts a call, which fails where it is listed or is not possible.
    pub fn begin(&mut self, possible: bool) -> Result<(), Failed>
        ensures fails { IsErr result ↔ IsTrue (is_listed self.old || not possible) }
        ensures ok { OnOk result (self.new ≡ answered self.old) }
        ensures err { OnErr result (self.new ≡ failed self.old) }
        ensures count { self.new.faults ≡ count_after (is_err result) self.old.faults }
    {
        let fails = self.listed.contains(&self.made) || !possible;
        self.made = self.made.saturating_add(1);
        if fails {
            self.faults = self.faults.saturating_add(1);
            return Err(Failed);
        }
        Ok(())
    }
}
