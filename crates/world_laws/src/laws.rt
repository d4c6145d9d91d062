//! Facts about worlds, their lines and generated messages, which a proof can call for.
ghost use Rattle.std.specs.Prelude.{ℕ, List};
ghost use Rattle.sync_world.specs.World.{WorldState, start};
ghost use Rattle.world_laws.specs.Begun.{HasBegun};
ghost use Rattle.world_laws.specs.Equal.{EqualIsTold};
ghost use Rattle.world_laws.specs.Generated.{GeneratedAreWorkedOut};
ghost use Rattle.world_laws.specs.Said.{WorldLinesReadBack, WorldsAreBegun};
ghost use Rattle.world_laws.specs.Told.{OutcomesAreTold};

use command_lines::commands_read_back;
use generated_books::generated_are_numbered;
use world_lines::same_lines_are_same_messages;

/// A law: a world of devices with some nodes begins with a device of each node, in their order: without messages, with nothing to undo or
/// redo, and with its clock at the start of 1970. The server has no messages; nothing was made, and nothing acknowledged, by a device or by
/// the server; no request and no reply was sent.
pub fn worlds_begin()
    ensures { (nodes : List (List ℕ)) → HasBegun nodes (start nodes) }
{}

/// A law: a line that asks whether two devices of a world have the same messages changes nothing. It is answered `equal 1` exactly where
/// both are there and have the same messages, and `equal 0` exactly where both are there and have others. Where the first is not there, it
/// is told that the first is not, and else, where the second is not there, that the second is not. It is asked that the messages of the
/// devices are valid, as those of devices are.
pub fn equal_is_told()
    ensures { (w : WorldState) (one other : ℕ) → EqualIsTold w one other }
{
    same_lines_are_same_messages();
}

/// A law: the line of a command of a world is read as the command, and is obeyed in a world that has begun, unless the line is too long.
/// Its numbers have 32 bits, but for the reading of a clock, which has 64; what it has of a line of a device is valid, and words can
/// write it.
pub fn world_lines_read_back()
    ensures { WorldLinesReadBack }
{
    commands_read_back();
}

/// A law: where no world has begun, the line `devices` with a number from 1 to 16 begins a world of so many devices. The node of each is
/// the one that its number names, counted from 1. With 0, or with a greater number of 32 bits, the line begins none, and its second word is
/// at fault.
pub fn worlds_are_begun()
    ensures { WorldsAreBegun }
{}

/// A law: the reply to each outcome of an event, and the one to an event that did not happen, as they are written. A device's own refusals
/// have other numbers than those of a device, a request and a reply that are not there. Different outcomes, whose numbers have 64 bits, have
/// different replies, and so have different numbers that are not there. Where an event happened, the world is what it left, and else the one
/// of before.
pub fn outcomes_are_told()
    ensures { OutcomesAreTold }
{}

/// A law: the second to the fourth transaction, and the eleventh, are those that were worked out by hand: the fourth is pay, and the eleventh
/// is of a day 28. Each transaction is pay, with a positive amount and the category `pay`, or goes out, with a negative amount and the
/// category of a digit; its day is one of the first 28 of a month of 2024. Draws can make each of these days and each of the amounts. The
/// message with a number has the time of so many seconds after the start of 2024, the counter 0 and one node.
pub fn generated_are_worked_out()
    ensures { GeneratedAreWorkedOut }
{
    generated_are_numbered();
}
