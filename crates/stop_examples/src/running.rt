//! Runs of the household's device over a keeper.
ghost use Rattle.std.specs.Prelude.{◌≡◌, ◌≤◌};

use crate::household::LINES;
use budget_ports::{Keeper, ListClock, MemoryDoor, MemorySink, MemorySource, ScriptLink};
use budget_top::run;
use field_values::{Items, Steps, Txt};
use std::alloc::Global;
use std::collections::VecDeque;
use std::marker::Brand;
use std::sync::ledger::{Blank, Ledger};
use std::test::Fail;

/// 2024-01-05T10:00:00.000Z.
const T0: u64 = 1_704_448_800_000;

/// The words `device --node aa`.
fn words_of(alloc: Global) -> Result<Items<Txt>, Fail> {
    let mut words = Vec::new(alloc);
    for word in ["device", "--node", "aa"] {
        words.push(Txt::from_text(alloc, word)?)?;
    }
    Ok(Items::new(words))
}

/// The status of a run without a server, with a counter of steps that nobody reads.
fn status_of<K: Keeper, G: Ledger>(
    blank: Blank,
    alloc: Global,
    words: &Items<Txt>,
    source: &mut MemorySource,
    sink: &mut MemorySink,
    keeper: &mut K,
    door: &mut MemoryDoor,
    clock: &mut ListClock,
) -> u8
    requires name { blank.name ≡ G.name }
    requires parts { blank.parts ≡ G.parts }
    requires some { 1 ≤ G.parts }
{
    let mut link = ScriptLink::new(alloc, VecDeque::new(alloc));
    let mut steps = Steps::<G>::new(blank);
    run(
        alloc, words, source, sink, keeper, &mut link, door, clock, &mut steps,
    )
}

/// The household's lines.
fn input_of(alloc: Global) -> Result<Vec<u8>, Fail> {
    let lines = LINES.replace(alloc, '>', "\t")?;
    Ok(lines.as_bytes().to_vec(alloc)?)
}

fn clock_of(alloc: Global) -> Result<ListClock, Fail> {
    Ok(ListClock::new([T0].to_vec(alloc)?))
}

/// The status of a run of these words over a source, a sink, a keeper and a door.
fn ended_by<K: Keeper>(
    alloc: Global,
    words: &Items<Txt>,
    source: &mut MemorySource,
    sink: &mut MemorySink,
    keeper: &mut K,
    door: &mut MemoryDoor,
) -> Result<u8, Fail> {
    let mut clock = clock_of(alloc)?;
    Ok(status_of::<K, Brand>(
        Blank::new(1),
        alloc,
        words,
        source,
        sink,
        keeper,
        door,
        &mut clock,
    ))
}

/// The status of a run over a source, a sink, a keeper and a door.
fn ended_over<K: Keeper>(
    alloc: Global,
    source: &mut MemorySource,
    sink: &mut MemorySink,
    keeper: &mut K,
    door: &mut MemoryDoor,
) -> Result<u8, Fail> {
    let words = words_of(alloc)?;
    ended_by(alloc, &words, source, sink, keeper, door)
}

/// The status of a run over a source, a sink and a keeper, in which nobody connects.
fn ended_from<K: Keeper>(
    alloc: Global,
    source: &mut MemorySource,
    sink: &mut MemorySink,
    keeper: &mut K,
) -> Result<u8, Fail> {
    let mut door = MemoryDoor::new(alloc, Vec::new(alloc), Vec::new(alloc), 0)?;
    ended_over(alloc, source, sink, keeper, &mut door)
}

/// The status of the household's run over a keeper and a sink.
pub(crate) fn ended<K: Keeper>(
    alloc: Global,
    sink: &mut MemorySink,
    keeper: &mut K,
) -> Result<u8, Fail> {
    let mut source = MemorySource::new(alloc, input_of(alloc)?);
    ended_from(alloc, &mut source, sink, keeper)
}
