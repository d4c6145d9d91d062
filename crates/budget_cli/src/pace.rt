//! How long a connection waits for its other side.
ghost use Rattle.std.specs.Prelude.{◌≡◌};
ghost use Rattle.budget_cli.specs.Pace.{steady, before_reply, patience, after};

/// How many milliseconds after its beginning no call of a connection waits any more.
const LONGEST: u64 = 590_000;

/// Which bytes are waited for: so many milliseconds are left for so many bytes.
#[derive(Clone, Copy, Drop)]
pub struct Pace {
    left: u64,
    wanted: u64,
}

impl Pace {
    /// The pace of a connection on which bytes come and go: 4,096 of them have ten seconds.
    pub fn steady() -> Pace
        ensures { result ≡ steady }
    {
        Pace {
            left: 10_000,
            wanted: 4_096,
        }
    }

    /// The pace of a connection on which a reply is awaited: its first byte has half a minute.
    pub fn before_reply() -> Pace
        ensures { result ≡ before_reply }
    {
        Pace {
            left: 30_000,
            wanted: 1,
        }
    }

    /// How many milliseconds the next call may wait, on a connection that is so many old. Where there are none, it is over.
    pub fn patience(self, age: u64) -> Option<u64>
        ensures { result ≡ patience age self }
    {
        if age < LONGEST && self.left > 0 {
            Some((LONGEST - age).min(self.left))
        } else {
            None
        }
    }

    /// The pace after a call that waited for so many milliseconds and moved so many bytes.
    pub fn after(self, waited: u64, moved: u64) -> Pace
        ensures { result ≡ after self waited moved }
    {
        if moved >= self.wanted {
            return Pace::steady();
        }
        Pace {
            left: self.left.saturating_sub(waited),
            wanted: self.wanted - moved,
        }
    }
}
