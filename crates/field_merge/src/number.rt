//! A number of 16 bytes that needs no more room than these.
ghost use Rattle.std.specs.Prelude.{◌≡◌};

use std::marker::Model;

/// So many numbers have 8 bytes.
const HIGH: u128 = 1 << 64;

/// A number of 16 bytes, which stands at any place where one of 8 bytes may: of a structure with such numbers no room is left unused, as
/// is where its place has to be one for 16. A contract sees the number.
#[derive(Debug, Drop)]
pub(crate) struct Number {
    high: u64,
    low: u64,
}

impl Model for Number {
    ghost use Rattle.std.specs.Prelude.{ℕ, ◌+◌, ◌*◌, ◌^◌};

    ghost Value = { ℕ };

    ghost view = { λ n. n.high * 2 ^ 64 + n.low };
}

impl Number {
    #[inline]
    pub(crate) fn of(number: u128) -> Number
        ensures { result ≡ number }
    {
        Number {
            high: (number / HIGH) as u64,
            low: (number % HIGH) as u64,
        }
    }

    /// The number.
    #[inline]
    pub(crate) fn get(&self) -> u128
        ensures { result ≡ self.now }
    {
        self.high as u128 * HIGH + self.low as u128
    }
}
