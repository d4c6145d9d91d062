//! The long run: a device with 20,000 transactions is edited 50,000 times, one edit at a time, and each time one of its cells and the root of
//! its trie are looked at. Whoever computes them anew at each edit goes over millions of rows here, and does not end in time.
ghost use Rattle.std.specs.Prelude.{◌≡◌, ◌≤◌, [], OnOk, false};
ghost use Rattle.device_core.specs.Edits.{IsEdit};

use crate::chance::Draws;
use crate::edits::{LAST, TRANSACTIONS, edit_at};
use crate::looks::{look, look_anew, other_month, root_anew, some_name};
use device_core::{CellName, Device, Edit};
use field_values::Steps;
use generated_books::generated_device;
use std::alloc::Global;
use std::marker::Brand;
use std::sync::ledger::{Blank, Ledger};
use std::test::Fail;

/// How many edits there are.
const EDITS: u32 = 50_000;

/// At every so manyth edit all is computed anew.
const CHECKED: u32 = 10_000;

/// 2025-01-01T00:00:00.000Z, which is later than all generated messages.
const T0: u64 = 1_735_689_600_000;

/// What is there at the end.
#[derive(Clone, Copy, Debug, PartialEq, Eq)]
struct End {
    /// How many messages there are, and how many writes the edits were.
    messages: u64,
    writes: u64,
    /// The first month whose cells are others than those of the sheet, or 0.
    other: u32,
    /// The hash at the root of the trie, and the one that the messages have.
    root: i32,
    anew: i32,
}

/// Makes an edit, of which nothing is pending then, and answers how many writes it was.
fn make<G: Ledger>(
    device: &mut Device,
    edit: &Edit,
    at: u32,
    steps: &mut Steps<G>,
) -> Result<u64, Fail>
    requires live { device.old.spent ≡ false }
    requires idle { device.old.batch ≡ [] }
    requires valid { IsEdit edit.now }
    ensures live { OnOk result (device.new.spent ≡ false) }
    ensures idle { OnOk result (device.new.batch ≡ []) }
{
    let writes = device.prepare(edit, T0 + 1000 * at as u64, steps)?;
    device.commit();
    Ok(writes as u64)
}

/// Makes the edit with a number.
fn edit<G: Ledger>(
    alloc: Global,
    device: &mut Device,
    draws: &mut Draws,
    at: u32,
    steps: &mut Steps<G>,
) -> Result<u64, Fail>
    requires live { device.old.spent ≡ false }
    requires idle { device.old.batch ≡ [] }
    ensures live { OnOk result (device.new.spent ≡ false) }
    ensures idle { OnOk result (device.new.batch ≡ []) }
{
    let edit = edit_at(alloc, draws, at)?;
    make(device, &edit, at, steps)
}

/// Looks at a cell and at the root, and compares them with what is computed anew where that is due.
fn watch_cell(alloc: Global, device: &Device, name: &CellName, at: u32) -> Result<(), Fail>
    requires { device.now.spent ≡ false }
{
    let seen = look(device, name);
    if seen.0.is_none() {
        return Err(Fail::new("there is no such cell"));
    }
    if at % CHECKED == 0 && seen != look_anew(alloc, device, name)? {
        return Err(Fail::new("another cell, or another root"));
    }
    Ok(())
}

/// Does so with some cell.
fn watch(alloc: Global, device: &Device, draws: &mut Draws, at: u32) -> Result<(), Fail>
    requires { device.now.spent ≡ false }
{
    let name = some_name(alloc, draws)?;
    watch_cell(alloc, device, &name, at)
}

/// Makes all edits, with a look behind each, and answers how many writes they were.
fn run<G: Ledger>(alloc: Global, device: &mut Device, steps: &mut Steps<G>) -> Result<u64, Fail>
    requires live { device.old.spent ≡ false }
    requires idle { device.old.batch ≡ [] }
    ensures live { OnOk result (device.new.spent ≡ false) }
{
    let mut draws = Draws::new(1);
    let mut writes: u64 = 0;
    for at in 0..EDITS {
        let more = edit(alloc, device, &mut draws, at, steps)?;
        writes = writes.saturating_add(more);
        watch(alloc, device, &mut draws, at)?;
    }
    Ok(writes)
}

/// What is there, behind so many writes.
fn end_of(alloc: Global, device: &Device, writes: u64) -> Result<End, Fail>
    requires { device.now.spent ≡ false }
{
    Ok(End {
        messages: device.log().len() as u64,
        writes,
        other: other_month(alloc, device)?,
        root: device.trie().root(),
        anew: root_anew(alloc, device)?,
    })
}

/// Covers the months, and makes all edits.
fn cover_and_run<G: Ledger>(
    alloc: Global,
    device: &mut Device,
    steps: &mut Steps<G>,
) -> Result<u64, Fail>
    requires live { device.old.spent ≡ false }
    requires idle { device.old.batch ≡ [] }
    ensures live { OnOk result (device.new.spent ≡ false) }
{
    device.cover(LAST, steps)?;
    run(alloc, device, steps)
}

/// The whole run.
fn played<G: Ledger>(blank: Blank, alloc: Global) -> Result<End, Fail>
    requires name { blank.name ≡ G.name }
    requires parts { blank.parts ≡ G.parts }
    requires some { 1 ≤ G.parts }
{
    let mut steps = Steps::<G>::new(blank);
    let mut device = generated_device(alloc, TRANSACTIONS, &mut steps)?;
    let writes = cover_and_run(alloc, &mut device, &mut steps)?;
    end_of(alloc, &device, writes)
}

/// The same with a counter of steps that nobody reads.
fn uncounted(alloc: Global) -> Result<End, Fail> {
    played::<Brand>(Blank::new(1), alloc)
}

#[test]
fn kept_cells_are_right(rt: HostRuntime) -> Result<(), Fail> {
    let end = uncounted(rt.alloc())?;
    // The account, its categories and groups are fifteen messages, and each transaction is four.
    let before = 15 + 4 * TRANSACTIONS as u64;
    assert_eq!(rt; Some(end.messages), before.checked_add(end.writes));
    assert_eq!(rt; end.other, 0);
    assert_eq!(rt; end.root, end.anew);
    Ok(())
}
