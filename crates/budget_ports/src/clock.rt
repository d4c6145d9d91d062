//! Where readings of the time come from.
ghost use Rattle.std.specs.Prelude.{◌≡◌, ◌<◌, [], ◌∷◌, vec_len, IsSome, Some};
ghost use Rattle.std.specs.declared.option.Option.{Option};
ghost use Rattle.budget_ports.specs.Readings.{Readings, Takes, all_then_last};

use std::marker::Model;

/// Where readings of the time come from, in milliseconds since the start of 1970 in UTC.
///
/// A clock that tells has known readings. One that does not tell promises nothing: its readings may
/// stand still or fall.
pub trait WallClock {
    /// The readings to come, where the clock tells.
    ghost readings: { Self → Option Readings };

    /// Gives the next reading.
    fn now(&mut self) -> u64
        ensures given { Takes (readings self.old) (readings self.new) (result ∷ []) }
        ensures told { IsSome (readings self.new) → IsSome (readings self.old) };
}

/// A clock that gives a list of readings, and then the last of them again.
#[derive(Debug, Drop)]
pub struct ListClock {
    readings: Vec<u64>,
    at: usize,
}

impl Model for ListClock {
    ghost use Rattle.std.specs.Prelude.{◌<◌, ◌-◌, drop, length, slice_index};
    ghost use Rattle.budget_ports.specs.Readings.{Readings};

    ghost Value = { Readings };

    ghost view = { λ c. record { to_come = drop c.at c.readings.items; after_them = slice_index c.readings.items (length c.readings.items - 1) } };

    ghost invariant = { λ c. 0 < length c.readings.items };
}

impl ListClock {
    /// A clock that gives these readings, of which there is at least one.
    pub fn new(readings: Vec<u64>) -> ListClock
        requires { 0 < vec_len readings }
        ensures { result ≡ all_then_last readings.items }
    {
        ListClock { readings, at: 0 }
    }
}

impl WallClock for ListClock {
    ghost readings = { λ c. Some c };

    fn now(&mut self) -> u64 {
        if self.at < self.readings.len() {
            let reading = self.readings[self.at];
            self.at += 1;
            return reading;
        }
        self.readings[self.readings.len() - 1]
    }
}
