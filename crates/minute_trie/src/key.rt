//! The key of a minute.
ghost use Rattle.std.specs.Prelude.{◌≡◌, ◌<◌};
ghost use Rattle.minute_trie.specs.Key.{digit_at, key};
ghost use Rattle.minute_trie.specs.Names.{child_name};

/// A digit to the base 3.
#[derive(Clone, Copy, Debug, PartialEq, Eq)]
pub enum Digit {
    /// The digit 0, behind which the earliest minutes stand.
    Zero,
    /// The digit 1.
    One,
    /// The digit 2, behind which the latest minutes stand.
    Two,
}

impl Digit {
    /// The name in JSON of the child behind it.
    pub(crate) fn name(self) -> &'static str
        ensures { result.now ≡ child_name self }
    {
        match self {
            Digit::Zero => "0",
            Digit::One => "1",
            Digit::Two => "2",
        }
    }
}

/// The digit of the minute at the place with this worth.
fn digit_of(minute: u32, place: u32) -> Digit
    requires { 0 < place }
    ensures { result ≡ digit_at minute place }
{
    match minute / place % 3 {
        0 => Digit::Zero,
        1 => Digit::One,
        _ => Digit::Two,
    }
}

/// The lowest 16 digits of the minute to the base 3, of which the first has the greatest worth.
#[tactic(auto, unfolding(crate::specs::Key::key))]
pub fn key_of(minute: u32) -> [Digit; 16]
    ensures { result ≡ key minute }
{
    [
        digit_of(minute, 14_348_907),
        digit_of(minute, 4_782_969),
        digit_of(minute, 1_594_323),
        digit_of(minute, 531_441),
        digit_of(minute, 177_147),
        digit_of(minute, 59_049),
        digit_of(minute, 19_683),
        digit_of(minute, 6561),
        digit_of(minute, 2187),
        digit_of(minute, 729),
        digit_of(minute, 243),
        digit_of(minute, 81),
        digit_of(minute, 27),
        digit_of(minute, 9),
        digit_of(minute, 3),
        digit_of(minute, 1),
    ]
}
