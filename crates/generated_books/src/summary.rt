//! What is told of a device with generated messages.
ghost use Rattle.std.specs.Prelude.{◌≡◌, ◌≤◌, true, false, length, IsSome, IfOk};
ghost use Rattle.device_core.specs.Device.{is_covered};
ghost use Rattle.generated_books.specs.Generated.{generated};
ghost use Rattle.generated_books.specs.Summary.{root_of, december_of, summary_of};

use crate::device::{DECEMBER, generated_device};
use device_core::{CellKind, CellName, Device};
use field_values::{NoMemory, Steps, Txt};
use std::alloc::Global;
use std::marker::Brand;
use std::sync::ledger::{Blank, Ledger};

/// What is told of a device.
#[derive(Clone, Copy, Debug, PartialEq, Eq)]
pub struct Summary {
    /// How many messages it has.
    pub messages: u64,
    /// The hash at the root of its trie.
    pub root: i32,
    /// What is to budget in December 2024, in cents.
    pub to_budget: i128,
}

/// How many messages a device has.
fn count_of(device: &Device) -> u64
    requires { device.now.spent ≡ false }
    ensures { result ≡ length device.now.state.messages }
{
    device.log().len() as u64
}

/// The hash at the root of the trie of a device.
fn root_of(device: &Device) -> i32
    requires { device.now.spent ≡ false }
    ensures { result ≡ root_of device.now.state.messages }
{
    device.trie().root()
}

/// What a cell that is there tells.
fn there(value: Option<i128>) -> i128
    requires { IsSome value }
    ensures { Some result ≡ value }
{
    match value {
        Some(cents) => cents,
        None => unreachable!(),
    }
}

/// What is to budget in December 2024.
fn december_of(alloc: Global, device: &Device) -> Result<i128, NoMemory>
    requires live { device.now.spent ≡ false }
    requires covered { is_covered device.now 202_412 ≡ true }
    ensures { IfOk result (λ cents. cents ≡ december_of device.now.state.messages) }
{
    let id = Txt::from_text(alloc, "")?;
    let name = CellName {
        month: DECEMBER,
        kind: CellKind::ToBudget,
        id,
    };
    let value = device.cell(&name);
    Ok(there(value))
}

/// What is told of a device that covers December 2024.
fn summary_of(alloc: Global, device: &Device) -> Result<Summary, NoMemory>
    requires live { device.now.spent ≡ false }
    requires covered { is_covered device.now 202_412 ≡ true }
    ensures { IfOk result (λ summary. summary ≡ summary_of device.now.state.messages) }
{
    let to_budget = december_of(alloc, device)?;
    Ok(Summary {
        messages: count_of(device),
        root: root_of(device),
        to_budget,
    })
}

/// What is told of the device, whose steps are counted.
fn summary_over<G: Ledger>(alloc: Global, count: u32, blank: Blank) -> Result<Summary, NoMemory>
    requires some { 1 ≤ count }
    requires few { count ≤ 100_000 }
    requires name { blank.name ≡ G.name }
    requires parts { blank.parts ≡ G.parts }
    requires one { 1 ≤ G.parts }
    ensures { IfOk result (λ summary. summary ≡ summary_of (generated count)) }
{
    let mut steps = Steps::<G>::new(blank);
    let device = generated_device(alloc, count, &mut steps)?;
    summary_of(alloc, &device)
}

/// What is told of the device that has the generated messages of so many transactions.
pub fn generated_summary(alloc: Global, count: u32) -> Result<Summary, NoMemory>
    requires some { 1 ≤ count }
    requires few { count ≤ 100_000 }
    ensures { IfOk result (λ summary. summary ≡ summary_of (generated count)) }
{
    summary_over::<Brand>(alloc, count, Blank::new(1))
}
