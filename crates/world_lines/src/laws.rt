//! Facts about lines of a world, which a proof can call for.
ghost use Rattle.world_lines.specs.Laws.{SameLinesAreSameMessages};

use field_merge::message_lines;

/// A law: two devices are told to have the same messages exactly where they have them.
pub fn same_lines_are_same_messages()
    ensures { SameLinesAreSameMessages }
{
    message_lines();
}
