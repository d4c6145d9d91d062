//! The top call.
ghost use Rattle.std.specs.Prelude.{◌≡◌, Some, IsErr};
ghost use Rattle.budget_top.specs.Words.{planned, planned_mode, refusal_status};
ghost use Rattle.budget_top.specs.Outside.{outside};
ghost use Rattle.budget_top.specs.Ran.{Ran};
ghost use Rattle.budget_top.specs.DeviceRun.{target_of};
ghost use Rattle.budget_top.specs.Unfailed.{EndsUnfailed};
ghost use Rattle.budget_top.specs.Acknowledged.{AcknowledgedStay};

use crate::device_run::run_device;
use crate::generate_run::run_generate;
use crate::laws::plans_are_asked;
use crate::merge::run_merge;
use crate::planning::plan;
use crate::serve_run::run_serve;
use crate::words::{Mode, Plan, WordFault};
use crate::world_run::run_world;
use budget_ports::{Door, Keeper, Link, Sink, Source, WallClock};
use device_core::accepted_are_joined;
use device_sync::Target;
use field_values::{Items, Steps, Txt};
use std::alloc::Global;
use std::sync::ledger::Ledger;
use sync_server::connections_are_decided;

/// All was done, and no line was refused.
pub(crate) const DONE: u8 = 0;

/// All was done, and a line was refused.
pub(crate) const SOME_BAD: u8 = 1;

/// The words are refused. Nothing was touched.
pub(crate) const BAD_WORDS: u8 = 2;

/// A record that is kept is no message. No line was taken.
pub(crate) const BAD_RECORD: u8 = 3;

/// The source failed.
pub(crate) const SOURCE_FAILED: u8 = 4;

/// The sink failed.
pub(crate) const SINK_FAILED: u8 = 5;

/// The keeper failed.
pub(crate) const KEEPER_FAILED: u8 = 6;

/// Memory ran out.
pub(crate) const NO_MEMORY: u8 = 7;

/// The door failed to let a connection in.
pub(crate) const DOOR_FAILED: u8 = 8;

/// The source gave more than 1,073,741,824 bytes.
pub(crate) const TOO_MUCH: u8 = 9;

/// The status of a run whose words are refused.
pub fn refusal_status(fault: WordFault) -> u8
    ensures { result ≡ refusal_status fault }
{
    match fault {
        WordFault::NoMemory => NO_MEMORY,
        _ => BAD_WORDS,
    }
}

/// Whom a device with this plan syncs with.
fn target_of(plan: Plan) -> Target
    ensures { result ≡ target_of plan }
{
    Target {
        token: plan.token,
        file: plan.file,
        group: plan.group,
    }
}

/// Does what the words ask for, and answers the status: 0, all was done; 1, all was done, and a line was
/// refused; 2, the words are refused, and nothing was touched; 3, a record that is kept is no message, and
/// no line was taken; 4, 5, 6, the source, the sink or the keeper failed; 7, memory ran out; 8, the door failed
/// to let a connection in; 9, the source gave more than 1,073,741,824 bytes.
///
/// The words leave out the program's name. The first event that ends the run decides the status.
///
/// Where words are accepted, no object's count of failures has risen and what is kept reads as messages, all that was
/// asked for is done, or memory has run out. A line of which a byte of the reply was written, and a request that was
/// answered with 200, is in whatever a stop may leave, however the run ends.
pub fn run<S: Source, W: Sink, K: Keeper, L: Link, D: Door, C: WallClock, G: Ledger>(
    alloc: Global,
    words: &Items<Txt>,
    source: &mut S,
    sink: &mut W,
    keeper: &mut K,
    link: &mut L,
    door: &mut D,
    clock: &mut C,
    steps: &mut Steps<G>,
) -> u8
    ensures ran { Ran words.now result (outside (S.left source.old) (S.faults source.old) (W.taken sink.old) (W.faults sink.old) (K.tells keeper.old) (K.contents keeper.old) (K.left keeper.old) (K.faults keeper.old) (L.exchanges link.old) (L.faults link.old) (D.waiting door.old) (D.outs door.old) (D.faults door.old) (C.readings clock.old)) (outside (S.left source.new) (S.faults source.new) (W.taken sink.new) (W.faults sink.new) (K.tells keeper.new) (K.contents keeper.new) (K.left keeper.new) (K.faults keeper.new) (L.exchanges link.new) (L.faults link.new) (D.waiting door.new) (D.outs door.new) (D.faults door.new) (C.readings clock.new)) }

    // how it ends where no object fails
    ensures unfailed { EndsUnfailed words.now result (outside (S.left source.old) (S.faults source.old) (W.taken sink.old) (W.faults sink.old) (K.tells keeper.old) (K.contents keeper.old) (K.left keeper.old) (K.faults keeper.old) (L.exchanges link.old) (L.faults link.old) (D.waiting door.old) (D.outs door.old) (D.faults door.old) (C.readings clock.old)) (outside (S.left source.new) (S.faults source.new) (W.taken sink.new) (W.faults sink.new) (K.tells keeper.new) (K.contents keeper.new) (K.left keeper.new) (K.faults keeper.new) (L.exchanges link.new) (L.faults link.new) (D.waiting door.new) (D.outs door.new) (D.faults door.new) (C.readings clock.new)) }
    ensures acknowledged { AcknowledgedStay words.now (outside (S.left source.old) (S.faults source.old) (W.taken sink.old) (W.faults sink.old) (K.tells keeper.old) (K.contents keeper.old) (K.left keeper.old) (K.faults keeper.old) (L.exchanges link.old) (L.faults link.old) (D.waiting door.old) (D.outs door.old) (D.faults door.old) (C.readings clock.old)) (outside (S.left source.new) (S.faults source.new) (W.taken sink.new) (W.faults sink.new) (K.tells keeper.new) (K.contents keeper.new) (K.left keeper.new) (K.faults keeper.new) (L.exchanges link.new) (L.faults link.new) (D.waiting door.new) (D.outs door.new) (D.faults door.new) (C.readings clock.new)) }

    // what a run leaves alone
    ensures untouched { IsErr (planned words.now) → (source.new ≡ source.old) × (sink.new ≡ sink.old) × (keeper.new ≡ keeper.old) × (link.new ≡ link.old) × (door.new ≡ door.old) × (clock.new ≡ clock.old) }
    ensures merge_alone { planned_mode words.now ≡ Some Mode.Merge → (keeper.new ≡ keeper.old) × (link.new ≡ link.old) × (door.new ≡ door.old) × (clock.new ≡ clock.old) }
    ensures device_alone { planned_mode words.now ≡ Some Mode.Device → door.new ≡ door.old }
    ensures serve_alone { planned_mode words.now ≡ Some Mode.Serve → (source.new ≡ source.old) × (link.new ≡ link.old) × (clock.new ≡ clock.old) }
    ensures generate_alone { planned_mode words.now ≡ Some Mode.Generate → (source.new ≡ source.old) × (keeper.new ≡ keeper.old) × (link.new ≡ link.old) × (door.new ≡ door.old) × (clock.new ≡ clock.old) }
    ensures world_alone { planned_mode words.now ≡ Some Mode.World → (keeper.new ≡ keeper.old) × (link.new ≡ link.old) × (door.new ≡ door.old) × (clock.new ≡ clock.old) }
{
    plans_are_asked();
    accepted_are_joined();
    connections_are_decided();
    match plan(alloc, words) {
        Ok(plan) => match (plan.mode, plan.node) {
            (Mode::Merge, _) => run_merge(alloc, source, sink),
            (Mode::Device, Some(node)) => {
                let target = target_of(plan);
                run_device(
                    alloc, node, target, source, sink, keeper, link, clock, steps,
                )
            }
            (Mode::Serve, _) => run_serve(alloc, &plan, sink, keeper, door),
            (Mode::Generate, _) => run_generate(alloc, plan.count, sink),
            (Mode::World, _) => run_world(alloc, source, sink, steps),
            // no plan of a device lacks its node
            (Mode::Device, None) => unreachable!(),
        },
        Err(fault) => refusal_status(fault),
    }
}
