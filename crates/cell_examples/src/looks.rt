//! What kept cells tell, and what is told where all is computed anew.
ghost use Rattle.std.specs.Prelude.{◌≡◌, OnOk, false, true};
ghost use Rattle.book_rows.specs.Months.{is_month};
ghost use Rattle.device_core.specs.Device.{is_covered};
ghost use Rattle.field_merge.specs.Messages.{IsMessage};
ghost use Rattle.minute_trie.specs.Trie.{is_spent};

use crate::chance::Draws;
use crate::edits::{FIRST, MONTHS, category, month};
use book_rows::is_month;
use device_core::{CellKind, CellName, Device};
use envelope_cells::{month_at, sheet, sheet_text};
use field_merge::Message;
use field_values::Txt;
use minute_trie::Trie;
use std::alloc::Global;
use std::test::Fail;

/// What a cell tells, if it is there, and the hash at the root of the trie.
pub(crate) type Look = (Option<i128>, i32);

/// The name of a cell of a whole month.
fn whole(alloc: Global, draws: &mut Draws, kind: CellKind) -> Result<CellName, Fail> {
    let id = Txt::from_text(alloc, "")?;
    Ok(CellName {
        month: month(draws),
        kind,
        id,
    })
}

/// The name of a cell of the group of expenses.
fn of_group(alloc: Global, draws: &mut Draws, kind: CellKind) -> Result<CellName, Fail> {
    let id = Txt::from_text(alloc, "g")?;
    Ok(CellName {
        month: month(draws),
        kind,
        id,
    })
}

/// The name of a cell of a category of expenses.
fn of_category(alloc: Global, draws: &mut Draws, kind: CellKind) -> Result<CellName, Fail> {
    let id = category(alloc, draws, 9)?;
    Ok(CellName {
        month: month(draws),
        kind,
        id,
    })
}

/// The name of a cell that is there.
pub(crate) fn some_name(alloc: Global, draws: &mut Draws) -> Result<CellName, Fail> {
    match draws.below(8) {
        0 => whole(alloc, draws, CellKind::TotalIncome),
        1 => whole(alloc, draws, CellKind::ToBudget),
        2 => whole(alloc, draws, CellKind::TotalLeftover),
        3 => of_group(alloc, draws, CellKind::GroupSum),
        4 => of_group(alloc, draws, CellKind::GroupLeftover),
        5 => of_category(alloc, draws, CellKind::Budget),
        6 => of_category(alloc, draws, CellKind::Sum),
        _ => of_category(alloc, draws, CellKind::Leftover),
    }
}

/// What a device tells.
pub(crate) fn look(device: &Device, name: &CellName) -> Look
    requires { device.now.spent ≡ false }
{
    let value = if device.is_covered(name.month) {
        device.cell(name)
    } else {
        None
    };
    (value, device.trie().root())
}

/// Adds the timestamp of a message to a trie.
fn enter(trie: &mut Trie, message: &Message) -> Result<(), Fail>
    requires live { is_spent trie.old ≡ false }
    requires valid { IsMessage message.now }
    ensures { OnOk result (is_spent trie.new ≡ false) }
{
    trie.insert(&message.stamp)?;
    Ok(())
}

/// The hash at the root of the trie that is made of a device's messages.
pub(crate) fn root_anew(alloc: Global, device: &Device) -> Result<i32, Fail>
    requires { device.now.spent ≡ false }
{
    let messages = device.outgoing(b"")?;
    let mut trie = Trie::new(alloc);
    for message in messages.as_slice() {
        enter(&mut trie, message)?;
    }
    Ok(trie.root())
}

/// What the sheet of the book tells of a cell.
fn cell_anew(alloc: Global, device: &Device, name: &CellName) -> Result<Option<i128>, Fail>
    requires { device.now.spent ≡ false }
{
    if !is_month(name.month) {
        return Ok(None);
    }
    let sheet = sheet(alloc, device.book(), name.month)?;
    Ok(sheet.cell(name))
}

/// What is told where all is computed anew.
pub(crate) fn look_anew(alloc: Global, device: &Device, name: &CellName) -> Result<Look, Fail>
    requires { device.now.spent ≡ false }
{
    Ok((cell_anew(alloc, device, name)?, root_anew(alloc, device)?))
}

/// The sheet of a month, by the cells that a device keeps.
fn kept_text(alloc: Global, device: &Device, month: u32) -> Result<Txt, Fail>
    requires live { device.now.spent ≡ false }
    requires covered { is_covered device.now month ≡ true }
{
    let sheet = device.sheet(month)?;
    Ok(sheet_text(alloc, &sheet)?)
}

/// The sheet of a month, by its book.
fn text_anew(alloc: Global, device: &Device, month: u32) -> Result<Txt, Fail>
    requires live { device.now.spent ≡ false }
    requires month { is_month month ≡ true }
{
    let sheet = sheet(alloc, device.book(), month)?;
    Ok(sheet_text(alloc, &sheet)?)
}

/// Whether both are the same.
fn is_same(alloc: Global, device: &Device, month: u32) -> Result<bool, Fail>
    requires { device.now.spent ≡ false }
{
    if !is_month(month) || !device.is_covered(month) {
        return Ok(false);
    }
    let kept = kept_text(alloc, device, month)?;
    Ok(kept == text_anew(alloc, device, month)?)
}

/// The first of the months whose kept cells are others, or 0.
pub(crate) fn other_month(alloc: Global, device: &Device) -> Result<u32, Fail>
    requires { device.now.spent ≡ false }
{
    for number in 0..MONTHS {
        let month = month_at(FIRST + number);
        if !is_same(alloc, device, month)? {
            return Ok(month);
        }
    }
    Ok(0)
}
