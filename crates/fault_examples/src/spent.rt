//! Values that are changed while memory may be wanting: they are spent then, as they say, and a keeper is as it was. Where nothing fails they
//! are neither; `bench/fail-allocations` lets each allocation of these tests fail in turn, and takes an assertion that fails here for a fault.
ghost use Rattle.std.specs.Prelude.{◌≡◌, ◌≤◌, ◌<◌, [], length, IfOk, false};
ghost use Rattle.field_merge.specs.Messages.{IsMessage, AreMessages};
ghost use Rattle.minute_trie.specs.Trie.{is_spent};
ghost use Rattle.device_core.specs.Edits.{IsEdit};

use book_rows::Book;
use budget_ports::{Keeper, MemoryKeeper, Record};
use device_core::{BookEdit, Device, Edit, LineRefusal};
use field_merge::{LatestMessages, Log, Message, read_line};
use field_values::{Steps, Txt};
use hybrid_clock::Node;
use minute_trie::Trie;
use std::alloc::Global;
use std::marker::Brand;
use std::sync::ledger::{Blank, Ledger};
use std::test::Fail;

/// 2024-01-05T10:00:00.000Z.
const T0: u64 = 1_704_448_800_000;

/// The line of a message of another device.
const LINE: &str = "2024-01-05T10:00:00.000Z-0000-00000000000000bb\ttransactions\tt\tacct\tS:bank";

/// The message of the line.
fn message_of(alloc: Global) -> Result<Message, Fail>
    ensures { IfOk result IsMessage }
{
    let line = Txt::from_text(alloc, LINE)?;
    Ok(read_line(alloc, &line)?)
}

/// Whether a log finds no memory for a message.
fn wants_in_log(alloc: Global, log: &mut Log) -> Result<bool, Fail>
    requires { log.old.spent ≡ false }
{
    let message = message_of(alloc)?;
    Ok(log.add(message).is_err())
}

/// Whether a log is spent by a message, and whether it found no memory.
fn log_told(alloc: Global) -> Result<(bool, bool), Fail> {
    let mut log = Log::new(alloc);
    let wants = wants_in_log(alloc, &mut log)?;
    Ok((log.is_spent(), wants))
}

#[test]
fn logs(rt: HostRuntime) -> Result<(), Fail> {
    let (spent, wants) = log_told(rt.alloc())?;
    assert_eq!(rt; spent, wants);
    Ok(())
}

/// Whether a log finds no memory to join a message.
fn wants_to_join(alloc: Global, log: &mut Log) -> Result<bool, Fail>
    requires { log.old.spent ≡ false }
{
    let batch = [message_of(alloc)?];
    Ok(log.join(&batch).is_err())
}

/// Whether a log is spent by a message that is joined, and whether it found no memory.
fn join_told(alloc: Global) -> Result<(bool, bool), Fail> {
    let mut log = Log::new(alloc);
    let wants = wants_to_join(alloc, &mut log)?;
    Ok((log.is_spent(), wants))
}

#[test]
fn logs_that_join(rt: HostRuntime) -> Result<(), Fail> {
    let (spent, wants) = join_told(rt.alloc())?;
    assert_eq!(rt; spent, wants);
    Ok(())
}

/// Whether the latest messages find no memory for one.
fn wants_in_latest(alloc: Global, latest: &mut LatestMessages) -> Result<bool, Fail>
    requires { latest.old.spent ≡ false }
{
    let message = message_of(alloc)?;
    Ok(latest.add(message).is_err())
}

/// Whether the latest messages are spent by one, and whether they found no memory.
fn latest_told(alloc: Global) -> Result<(bool, bool), Fail> {
    let mut latest = LatestMessages::new(alloc);
    let wants = wants_in_latest(alloc, &mut latest)?;
    Ok((latest.is_spent(), wants))
}

/// The same of a line that is taken.
fn line_told(alloc: Global) -> (bool, bool) {
    let mut latest = LatestMessages::new(alloc);
    let wants = latest.add_line(LINE).is_err();
    (latest.is_spent(), wants)
}

#[test]
fn latest_messages(rt: HostRuntime) -> Result<(), Fail> {
    let (spent, wants) = latest_told(rt.alloc())?;
    assert_eq!(rt; spent, wants);
    Ok(())
}

#[test]
fn latest_messages_of_lines(rt: HostRuntime) -> Result<(), Fail> {
    let (spent, wants) = line_told(rt.alloc());
    assert_eq!(rt; spent, wants);
    Ok(())
}

/// Whether a trie finds no memory for the timestamp of a message.
fn wants_in_trie(alloc: Global, trie: &mut Trie) -> Result<bool, Fail>
    requires { is_spent trie.old ≡ false }
{
    let message = message_of(alloc)?;
    Ok(trie.insert(&message.stamp).is_err())
}

/// Whether a trie is spent by a timestamp, and whether it found no memory.
fn trie_told(alloc: Global) -> Result<(bool, bool), Fail> {
    let mut trie = Trie::new(alloc);
    let wants = wants_in_trie(alloc, &mut trie)?;
    Ok((trie.is_spent(), wants))
}

#[test]
fn tries(rt: HostRuntime) -> Result<(), Fail> {
    let (spent, wants) = trie_told(rt.alloc())?;
    assert_eq!(rt; spent, wants);
    Ok(())
}

/// Whether a book finds no memory for a message.
fn wants_in_book(alloc: Global, book: &mut Book) -> Result<bool, Fail>
    requires { book.old.spent ≡ false }
{
    let message = message_of(alloc)?;
    Ok(book.set(&message.field, &message.value).is_err())
}

/// Whether a book is spent by a message, and whether it found no memory.
fn book_told(alloc: Global) -> Result<(bool, bool), Fail> {
    let mut book = Book::new(alloc);
    let wants = wants_in_book(alloc, &mut book)?;
    Ok((book.is_spent(), wants))
}

#[test]
fn books(rt: HostRuntime) -> Result<(), Fail> {
    let (spent, wants) = book_told(rt.alloc())?;
    assert_eq!(rt; spent, wants);
    Ok(())
}

/// A device without messages.
fn device_of(alloc: Global) -> Result<Device, Fail>
    ensures live { IfOk result (λ d. d.spent ≡ false) }
    ensures idle { IfOk result (λ d. d.batch ≡ []) }
{
    Ok(Device::start(alloc, Node::make(b"aa")?, &[])?)
}

/// Whether a device that receives messages, with a counter of steps that nobody reads, finds no memory.
fn wants_to_receive<G: Ledger>(blank: Blank, device: &mut Device, batch: &[Message]) -> bool
    requires name { blank.name ≡ G.name }
    requires parts { blank.parts ≡ G.parts }
    requires some { 1 ≤ G.parts }
    requires live { device.old.spent ≡ false }
    requires idle { device.old.batch ≡ [] }
    requires valid { AreMessages batch.now }
{
    let mut steps = Steps::<G>::new(blank);
    match device.incoming(batch, T0, &mut steps) {
        Err(LineRefusal::NoMemory) => true,
        _ => false,
    }
}

/// Whether a device finds no memory for a message.
fn wants_in_device(alloc: Global, device: &mut Device) -> Result<bool, Fail>
    requires live { device.old.spent ≡ false }
    requires idle { device.old.batch ≡ [] }
{
    let batch = [message_of(alloc)?];
    Ok(wants_to_receive::<Brand>(Blank::new(1), device, &batch))
}

/// Whether a device is spent by a message, and whether it found no memory.
fn receive_told(alloc: Global) -> Result<(bool, bool), Fail> {
    let mut device = device_of(alloc)?;
    let wants = wants_in_device(alloc, &mut device)?;
    Ok((device.is_spent(), wants))
}

#[test]
fn devices_that_receive(rt: HostRuntime) -> Result<(), Fail> {
    let (spent, wants) = receive_told(rt.alloc())?;
    assert_eq!(rt; spent, wants);
    Ok(())
}

/// Whether a device that makes an edit, with a counter of steps that nobody reads, finds no memory.
fn wants_to_edit<G: Ledger>(blank: Blank, device: &mut Device, edit: &Edit) -> bool
    requires name { blank.name ≡ G.name }
    requires parts { blank.parts ≡ G.parts }
    requires some { 1 ≤ G.parts }
    requires live { device.old.spent ≡ false }
    requires idle { device.old.batch ≡ [] }
    requires valid { IsEdit edit.now }
{
    let mut steps = Steps::<G>::new(blank);
    match device.prepare(edit, T0, &mut steps) {
        Err(LineRefusal::NoMemory) => true,
        _ => false,
    }
}

/// An edit that adds a payee.
fn payee_added(alloc: Global) -> Result<Edit, Fail>
    ensures { IfOk result IsEdit }
{
    let name = Txt::from_text(alloc, "Market")?;
    Ok(Edit::Book(BookEdit::PayeeAdd { id: None, name }))
}

/// Whether a device finds no memory at a payee that is added.
fn wants_to_add(alloc: Global, device: &mut Device) -> Result<bool, Fail>
    requires live { device.old.spent ≡ false }
    requires idle { device.old.batch ≡ [] }
{
    let edit = payee_added(alloc)?;
    Ok(wants_to_edit::<Brand>(Blank::new(1), device, &edit))
}

/// Whether a device is spent by an edit, and whether it found no memory.
fn edit_told(alloc: Global) -> Result<(bool, bool), Fail> {
    let mut device = device_of(alloc)?;
    let wants = wants_to_add(alloc, &mut device)?;
    Ok((device.is_spent(), wants))
}

#[test]
fn devices_that_edit(rt: HostRuntime) -> Result<(), Fail> {
    let (spent, wants) = edit_told(rt.alloc())?;
    assert_eq!(rt; spent, wants);
    Ok(())
}

/// A record with a key.
fn record_of(alloc: Global, key: &str) -> Result<Record, Fail>
    requires { 0 < length key.now }
    ensures { IfOk result (λ r. 0 < length r.key) }
{
    Ok(Record {
        key: Txt::from_text(alloc, key)?,
        body: Txt::from_text(alloc, "x")?,
    })
}

/// Whether a keeper finds no memory for two records.
fn wants_to_append(alloc: Global, keeper: &mut MemoryKeeper, group: &Txt) -> Result<bool, Fail> {
    let batch = [record_of(alloc, "a")?, record_of(alloc, "b")?];
    Ok(keeper.append(group, &batch).is_err())
}

/// How many records a keeper has.
fn count_of(alloc: Global, keeper: &mut MemoryKeeper, group: &Txt) -> Result<usize, Fail> {
    let none = Txt::from_text(alloc, "")?;
    let records = keeper.since(group, &none)?;
    Ok(records.len())
}

/// Whether a keeper found no memory for two records of a group, and how many it has then.
fn group_told(
    alloc: Global,
    keeper: &mut MemoryKeeper,
    group: &Txt,
) -> Result<(bool, usize), Fail> {
    let wants = wants_to_append(alloc, keeper, group)?;
    let count = count_of(alloc, keeper, group)?;
    Ok((wants, count))
}

/// The same of a new keeper.
fn keeper_told(alloc: Global) -> Result<(bool, usize), Fail> {
    let group = Txt::from_text(alloc, "home")?;
    let mut keeper = MemoryKeeper::new(alloc);
    group_told(alloc, &mut keeper, &group)
}

#[test]
fn keepers(rt: HostRuntime) -> Result<(), Fail> {
    let (wants, count) = keeper_told(rt.alloc())?;
    assert_eq!(rt; count, if wants { 0 } else { 2 });
    Ok(())
}
