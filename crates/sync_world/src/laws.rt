//! Facts about worlds, which a proof can call for.
ghost use Rattle.sync_world.specs.Happening.{EventsHappen};
ghost use Rattle.sync_world.specs.News.{LinesMakeNews};
ghost use Rattle.sync_world.specs.Promises.{RightWorldsKeep, StepsSendFew, WorldsKeepPromises};
ghost use Rattle.sync_world.specs.Right.{StepsStayRight, WorldsStayRight};
ghost use Rattle.sync_world.specs.Taking.{EditsAreTakenBack};

use device_core::{
    accepted_are_joined, devices_begin, lines_are_undone, received_are_joined, writes_are_joined,
};
use field_merge::{joined, joined_in_any_order};
use hybrid_clock::order_of_texts;
use sync_server::answers_tell;

/// A law: whatever happens in a world, each part of what is right of it stays so.
pub fn worlds_stay_right()
    ensures { WorldsStayRight }
{
    devices_begin();
    accepted_are_joined();
    writes_are_joined();
    received_are_joined();
    joined();
    answers_tell();
}

/// A law: after any events, among devices with different nodes, no set has a message that was not made; what a device acknowledged is in its
/// maker's set, and what the server acknowledged in the server's; no two messages that were made have one timestamp, so the order and the
/// number in which they join do not matter, and devices with the same messages have equal sets. After more events nothing that was made,
/// acknowledged or sent is taken back, and no set has lost a message.
pub fn worlds_keep_promises()
    ensures { WorldsKeepPromises }
{
    devices_begin();
    accepted_are_joined();
    writes_are_joined();
    received_are_joined();
    joined();
    joined_in_any_order();
    answers_tell();
}

/// A law: whatever happens next in a world of which this is right, it stays right.
pub fn steps_stay_right()
    ensures { StepsStayRight }
{
    devices_begin();
    accepted_are_joined();
    writes_are_joined();
    received_are_joined();
    joined();
    answers_tell();
}

/// A law: what each event does, in words. Of an edit that a device accepts, its messages stand behind those that it had, under timestamps of its
/// node that are later than where its clock stood, and are noted as made and as acknowledged. A request has all the device's messages later than
/// a text, and no others. The server that answers a request has what it had and all of the request, which it acknowledges; it sends what it had
/// before and is later than the request asks for, with the trie of what it has then. Of a reply the device takes all in, and the new ones are
/// counted. A device that stops begins anew, with nothing to undo or redo and a clock that goes on after its messages: those that it had, and
/// those of the edit where it was kept whole; none is acknowledged. A server that stops has all of the request, or what it had; nothing is sent.
/// Nothing else changes, each other device stays as it is, and an event is refused only where the number names none or the device refuses.
/// What is said leaves one world alone, and one outcome.
pub fn events_happen()
    ensures { EventsHappen }
{
    devices_begin();
    accepted_are_joined();
    writes_are_joined();
    received_are_joined();
    joined();
    joined_in_any_order();
    answers_tell();
}

/// A law: an event sends one request or one reply at most. So whoever lets fewer than 4,294,967,295 events happen can let each of them happen.
pub fn steps_send_few()
    ensures { StepsSendFew }
{}

/// A law: an undo takes back what an edit with writes wrote over, a redo what an undo did, and an undo what a redo did, whatever happened between
/// them that left the device as it was.
pub fn edits_are_taken_back()
    ensures { EditsAreTakenBack }
{
    lines_are_undone();
}

/// A law: what a device made of an accepted edit, undo or redo are its messages later than the last one of before, and these are
/// those that stand behind the ones of before; its clock has the node that it had.
pub(crate) fn lines_make_news()
    ensures { LinesMakeNews }
{
    accepted_are_joined();
    writes_are_joined();
    order_of_texts();
}

/// A law: a world of which all is right keeps to what `worlds_keep_promises` says.
pub fn right_worlds_keep()
    ensures { RightWorldsKeep }
{
    joined_in_any_order();
}
