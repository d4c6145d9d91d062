//! The top call over the objects in memory, which tell all that they hold.
ghost use Rattle.std.specs.Prelude.{◌≡◌, Some, IsErr};
ghost use Rattle.budget_top.specs.Words.{planned, planned_mode};
ghost use Rattle.budget_top.specs.Outside.{outside_in_memory};
ghost use Rattle.budget_top.specs.Ran.{Ran};
ghost use Rattle.budget_top.specs.Unfailed.{EndsUnfailed};
ghost use Rattle.budget_top.specs.Acknowledged.{AcknowledgedStay};

use crate::dispatch::run;
use crate::words::Mode;
use budget_ports::{ListClock, MemoryDoor, MemoryKeeper, MemorySink, MemorySource, ScriptLink};
use field_values::{Items, Steps, Txt};
use std::alloc::Global;
use std::sync::ledger::Ledger;

/// Does what the words ask for over objects in memory, as `run` does, and answers the status.
///
/// Here what `run` says as far as its objects tell is said of all that they hold.
pub fn run_in_memory<G: Ledger>(
    alloc: Global,
    words: &Items<Txt>,
    source: &mut MemorySource,
    sink: &mut MemorySink,
    keeper: &mut MemoryKeeper,
    link: &mut ScriptLink,
    door: &mut MemoryDoor,
    clock: &mut ListClock,
    steps: &mut Steps<G>,
) -> u8
    ensures ran { Ran words.now result (outside_in_memory source.old sink.old keeper.old link.old door.old clock.old) (outside_in_memory source.new sink.new keeper.new link.new door.new clock.new) }
    ensures unfailed { EndsUnfailed words.now result (outside_in_memory source.old sink.old keeper.old link.old door.old clock.old) (outside_in_memory source.new sink.new keeper.new link.new door.new clock.new) }
    ensures acknowledged { AcknowledgedStay words.now (outside_in_memory source.old sink.old keeper.old link.old door.old clock.old) (outside_in_memory source.new sink.new keeper.new link.new door.new clock.new) }
    ensures untouched { IsErr (planned words.now) → (source.new ≡ source.old) × (sink.new ≡ sink.old) × (keeper.new ≡ keeper.old) × (link.new ≡ link.old) × (door.new ≡ door.old) × (clock.new ≡ clock.old) }
    ensures merge_alone { planned_mode words.now ≡ Some Mode.Merge → (keeper.new ≡ keeper.old) × (link.new ≡ link.old) × (door.new ≡ door.old) × (clock.new ≡ clock.old) }
    ensures device_alone { planned_mode words.now ≡ Some Mode.Device → door.new ≡ door.old }
    ensures serve_alone { planned_mode words.now ≡ Some Mode.Serve → (source.new ≡ source.old) × (link.new ≡ link.old) × (clock.new ≡ clock.old) }
    ensures generate_alone { planned_mode words.now ≡ Some Mode.Generate → (source.new ≡ source.old) × (keeper.new ≡ keeper.old) × (link.new ≡ link.old) × (door.new ≡ door.old) × (clock.new ≡ clock.old) }
    ensures world_alone { planned_mode words.now ≡ Some Mode.World → (keeper.new ≡ keeper.old) × (link.new ≡ link.old) × (door.new ≡ door.old) × (clock.new ≡ clock.old) }
{
    run(alloc, words, source, sink, keeper, link, door, clock, steps)
}
