//! A copy of a recurrence.
ghost use Rattle.std.specs.Prelude.{◌≡◌, IfOk};
ghost use Rattle.schedules.specs.Days.{said};

use crate::recurrence::Recurrence;
use field_values::NoMemory;
use std::alloc::Global;

impl Recurrence {
    /// A recurrence that says the same.
    pub fn copy(&self, alloc: Global) -> Result<Recurrence, NoMemory>
        ensures { IfOk result (λ copy. said copy ≡ said self.now) }
    {
        let mut patterns = Vec::with_capacity(alloc, self.patterns.len())?;
        for pattern in &self.patterns {
            patterns.push(*pattern)?;
        }
        Ok(Recurrence {
            frequency: self.frequency,
            interval: self.interval,
            start: self.start,
            patterns,
            ending: self.ending,
            weekends: self.weekends,
        })
    }
}
