//! Numbers that look like chance, and are the same in each run.
ghost use Rattle.std.specs.Prelude.{◌<◌};

/// A generator of such numbers.
#[derive(Drop)]
pub(crate) struct Draws {
    state: u32,
}

impl Draws {
    /// The generator that begins with this number.
    pub(crate) fn new(state: u32) -> Draws {
        Draws { state }
    }

    /// The next number, below another.
    pub(crate) fn below(&mut self, count: u32) -> u32
        requires { 0 < count }
        ensures { result < count }
    {
        self.state = self
            .state
            .wrapping_mul(1_664_525)
            .wrapping_add(1_013_904_223);
        (self.state >> 8) % count
    }
}
