//! A device of a world, as an event leaves it.
ghost use Rattle.std.specs.Prelude.{◌≡◌, ◌≢◌, false, [], IfOk, IfErr, OnOk, OnErr};
ghost use Rattle.field_merge.specs.Messages.{AreMessages};
ghost use Rattle.std.specs.Option.{ForSome};
ghost use Rattle.hybrid_clock.specs.Stamp.{IsStamp};
ghost use Rattle.device_core.specs.Device.{received, IsAccepted, WouldBeAccepted, WouldBeRefused};
ghost use Rattle.sync_world.specs.World.{changed};
ghost use Rattle.sync_world.specs.Members.{IsWorldEdit, IsReady, text_of, last_text, HasChanged, HasStopped, HasReceived, IsRefusedBy};

use crate::event::WorldEdit;
use crate::laws::lines_make_news;
use device_core::{Device, LineRefusal};
use field_merge::Message;
use field_values::{Items, NoMemory, Steps, Txt};
use hybrid_clock::Stamp;
use kept_messages::stamp_text;
use std::alloc::Global;
use std::sync::ledger::Ledger;

/// What a device made of an edit.
#[derive(Drop)]
pub(crate) struct Changed {
    /// How many writes it was.
    pub(crate) writes: u32,
    /// The ids of the rows that it made.
    pub(crate) made: Items<Txt>,
    /// The messages that it made.
    pub(crate) news: Items<Message>,
}

/// The text of a timestamp, or the empty one.
fn text_of(alloc: Global, stamp: Option<Stamp>) -> Result<Txt, NoMemory>
    requires { ForSome stamp IsStamp }
    ensures { IfOk result (λ text. text ≡ text_of stamp) }
{
    match stamp {
        Some(stamp) => stamp_text(alloc, &stamp),
        None => Ok(Txt::new(String::new(alloc))),
    }
}

/// The text of the timestamp of the last message of a device, or the empty one where it has no message.
fn last_text(alloc: Global, device: &Device) -> Result<Txt, NoMemory>
    requires { device.now.spent ≡ false }
    ensures { IfOk result (λ text. text ≡ last_text device.now.state.messages) }
{
    text_of(alloc, device.log().last())
}

/// The answer to an edit, an undo or a redo.
fn change<G: Ledger>(
    device: &mut Device,
    edit: &WorldEdit,
    reading: u64,
    steps: &mut Steps<G>,
) -> Result<u32, LineRefusal>
    requires ready { IsReady device.old }
    requires valid { IsWorldEdit edit.now }
    ensures ok { IfOk result (IsAccepted (changed device.old.state edit.now reading) device.new) }
    ensures refused { IfErr result (IsRefusedBy (changed device.old.state edit.now reading) device.old device.new) }
    ensures live { OnOk result (device.new.spent ≡ false) }
{
    match edit {
        WorldEdit::Line(edit) => device.prepare(edit, reading, steps),
        WorldEdit::Undo => device.undo(reading, steps),
        WorldEdit::Redo => device.redo(reading, steps),
    }
}

/// What an edit, an undo or a redo would be answered.
fn would_change(device: &Device, edit: &WorldEdit, reading: u64) -> Result<u32, LineRefusal>
    requires live { device.now.spent ≡ false }
    requires valid { IsWorldEdit edit.now }
    ensures ok { IfOk result (WouldBeAccepted (changed device.now.state edit.now reading)) }
    ensures refused { IfErr result (WouldBeRefused (changed device.now.state edit.now reading)) }
{
    match edit {
        WorldEdit::Line(edit) => device.would_prepare(edit, reading),
        WorldEdit::Undo => device.would_undo(reading),
        WorldEdit::Redo => device.would_redo(reading),
    }
}

/// Makes an edit, an undo or a redo, of which nothing is then pending.
pub(crate) fn change_device<G: Ledger>(
    alloc: Global,
    device: &mut Device,
    edit: &WorldEdit,
    reading: u64,
    steps: &mut Steps<G>,
) -> Result<Changed, LineRefusal>
    requires ready { IsReady device.old }
    requires valid { IsWorldEdit edit.now }
    ensures ok { IfOk result (HasChanged (changed device.old.state edit.now reading) device.old device.new) }
    ensures refused { IfErr result (IsRefusedBy (changed device.old.state edit.now reading) device.old device.new) }
{
    lines_make_news();
    // The contract of `len` says that the messages of a log rise.
    let _before = device.log().len();
    let _clock = device.clock_last();
    let since = match last_text(alloc, device) {
        Ok(since) => since,
        Err(_) => return Err(LineRefusal::NoMemory),
    };
    let writes = change(device, edit, reading, steps)?;
    let _after = device.log().len();
    device.commit();
    let Ok(made) = device.made().copy(alloc) else {
        return Err(LineRefusal::NoMemory);
    };
    match device.outgoing(since.bytes()) {
        Ok(news) => Ok(Changed { writes, made, news }),
        Err(_) => Err(LineRefusal::NoMemory),
    }
}

/// Stops during an edit, an undo or a redo, and begins anew: with its messages where `whole` is true, which are answered, and without them where it is not.
pub(crate) fn stop_device<G: Ledger>(
    alloc: Global,
    device: &mut Device,
    edit: &WorldEdit,
    reading: u64,
    whole: bool,
    steps: &mut Steps<G>,
) -> Result<Items<Message>, LineRefusal>
    requires ready { IsReady device.old }
    requires valid { IsWorldEdit edit.now }
    ensures ok { IfOk result (HasStopped (changed device.old.state edit.now reading) device.old device.new whole) }
    ensures refused { IfErr result (IsRefusedBy (changed device.old.state edit.now reading) device.old device.new) }
{
    if whole {
        let changed = change_device(alloc, device, edit, reading, steps)?;
        device.restart();
        return Ok(changed.news);
    }
    would_change(device, edit, reading)?;
    device.restart();
    Ok(Items::new(Vec::new(alloc)))
}

/// Takes in messages, of which nothing is then pending, and answers how many were new.
pub(crate) fn receive_device<G: Ledger>(
    device: &mut Device,
    messages: &[Message],
    reading: u64,
    steps: &mut Steps<G>,
) -> Result<u64, LineRefusal>
    requires ready { IsReady device.old }
    requires valid { AreMessages messages.now }
    ensures ok { IfOk result (HasReceived (received device.old.state messages.now reading) device.old device.new) }
    ensures refused { IfErr result (IsRefusedBy (received device.old.state messages.now reading) device.old device.new) }
{
    let count = device.incoming(messages, reading, steps)?;
    device.commit();
    Ok(count)
}
