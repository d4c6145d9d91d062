//! What the program keeps without a store on a disk.
ghost use Rattle.std.specs.Prelude.{◌≡◌, []};
ghost use Rattle.budget_ports.specs.Calls.{no_calls};
ghost use Rattle.budget_ports.specs.Contents.{nothing};

use budget_ports::MemoryKeeper;
use std::alloc::Global;

/// A keeper in memory that holds nothing and of which no call fails.
pub fn memory_keeper(alloc: Global) -> MemoryKeeper
    ensures { result ≡ record { contents = nothing; calls = no_calls [] } }
{
    MemoryKeeper::new(alloc)
}
