//! The clock of the system.
ghost use Rattle.std.specs.Prelude.{◌≡◌, None};
ghost use Rattle.budget_cli.specs.Reading.{reading_at};

use budget_ports::WallClock;
use std::time::{Clock, SystemTime};

/// The clock of the system, and its last reading.
#[derive(Drop)]
pub struct SystemClock<C: Clock> {
    clock: C,
    last: u64,
}

impl<C: Clock> SystemClock<C> {
    /// A clock that has given no reading, so that its last one counts as 0.
    pub fn new(clock: C) -> SystemClock<C>
        ensures last { result.last ≡ 0 }
        ensures clock { result.clock ≡ clock }
    {
        SystemClock { clock, last: 0 }
    }
}

/// The reading at a time, or the last one again.
fn reading(time: Option<SystemTime>, last: u64) -> u64
    ensures { result ≡ reading_at time last }
{
    let Some(time) = time else {
        return last;
    };
    match time.duration_since(SystemTime::UNIX_EPOCH) {
        Ok(since) => u64::try_from(since.as_millis()).unwrap_or(last),
        Err(_) => last,
    }
}

impl<C: Clock> WallClock for SystemClock<C> {
    ghost readings = { λ _. None };

    /// Gives the system's time. Where the time can't be read, is before 1970, or needs more than 64 bits,
    /// it gives the last reading again.
    fn now(&mut self) -> u64
        ensures kept { self.new.last ≡ result }
    {
        let time = SystemTime::now(&self.clock).ok();
        self.last = reading(time, self.last);
        self.last
    }
}
