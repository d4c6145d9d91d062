//! Runs over objects in memory, whose clock stands still.
ghost use Rattle.std.specs.Prelude.{◌≡◌, ◌≤◌};

use budget_ports::{Keeper, Link, ListClock, MemoryDoor, MemorySink, MemorySource};
use budget_top::run;
use field_values::{Items, Steps, Txt};
use std::alloc::Global;
use std::marker::Brand;
use std::sync::ledger::{Blank, Ledger};
use std::test::Fail;

/// 2024-01-05T10:00:00.000Z.
const T0: u64 = 1_704_448_800_000;

/// A call that no run makes.
pub(crate) const NEVER: u64 = u64::MAX;

/// The words that stand between blanks.
fn words_of(alloc: Global, text: &str) -> Result<Items<Txt>, Fail> {
    let mut words = Vec::new(alloc);
    for word in text.split(' ') {
        words.push(Txt::from_text(alloc, word)?)?;
    }
    Ok(Items::new(words))
}

/// The status of a run, with a counter of steps that nobody reads.
fn status_of<K: Keeper, L: Link, G: Ledger>(
    blank: Blank,
    alloc: Global,
    words: &Items<Txt>,
    source: &mut MemorySource,
    sink: &mut MemorySink,
    keeper: &mut K,
    link: &mut L,
    door: &mut MemoryDoor,
    clock: &mut ListClock,
) -> u8
    requires name { blank.name ≡ G.name }
    requires parts { blank.parts ≡ G.parts }
    requires some { 1 ≤ G.parts }
{
    let mut steps = Steps::<G>::new(blank);
    run(
        alloc, words, source, sink, keeper, link, door, clock, &mut steps,
    )
}

/// The status of a run of these words over these objects.
fn ended_by<K: Keeper, L: Link>(
    alloc: Global,
    words: &Items<Txt>,
    source: &mut MemorySource,
    sink: &mut MemorySink,
    keeper: &mut K,
    link: &mut L,
    door: &mut MemoryDoor,
) -> Result<u8, Fail> {
    let mut clock = ListClock::new([T0].to_vec(alloc)?);
    Ok(status_of::<K, L, Brand>(
        Blank::new(1),
        alloc,
        words,
        source,
        sink,
        keeper,
        link,
        door,
        &mut clock,
    ))
}

/// The status of a run over these objects.
pub(crate) fn ended<K: Keeper, L: Link>(
    alloc: Global,
    words: &str,
    source: &mut MemorySource,
    sink: &mut MemorySink,
    keeper: &mut K,
    link: &mut L,
    door: &mut MemoryDoor,
) -> Result<u8, Fail> {
    let words = words_of(alloc, words)?;
    ended_by(alloc, &words, source, sink, keeper, link, door)
}
