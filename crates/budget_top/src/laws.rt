//! What holds of all command lines, of what a merge makes of its lines, of what a device does at a line and
//! replies, and of what a server answers and what is written of its connections.
ghost use Rattle.budget_top.specs.Written.{LinesAreWritten};
ghost use Rattle.budget_top.specs.Replies.{RepliesAreCut};
ghost use Rattle.budget_top.specs.Obeying.{LinesAreObeyed};
ghost use Rattle.budget_top.specs.Valid.{StatesStayValid};
ghost use Rattle.budget_top.specs.CutLines.{LinesAreCut};
ghost use Rattle.budget_top.specs.Merging.{MergesAgree};
ghost use Rattle.budget_top.specs.Asking.{PlansAreAsked};
ghost use Rattle.budget_top.specs.Answers.{AnswersStay, EndsAreTold};

use command_lines::{lines_write_back, replies_are_lines};
use device_core::{accepted_are_joined, edits_are_made, edits_read_back, received_are_joined};
use device_sync::{talks_are_told, talks_are_valid};
use field_merge::latest_message;
use sync_server::answers_tell;

/// The command lines are the words that write one mode word and options, each at most once: an
/// option as `--name=value`, or as `--name value` where the value has no hyphen in front.
pub fn lines_are_written()
    ensures { LinesAreWritten }
{}

/// Whoever cuts what a device has written at its line feeds finds one reply behind the other, each as
/// `ok N` and N lines, or as the one line of a refusal. So a text in a reply never looks like the end
/// of it. The device's state has to be valid, as it always is (`states_stay_valid`), and the lines have to have their whole
/// talk with a server, as those of a run have (`Talked`).
pub fn replies_are_cut()
    ensures { RepliesAreCut }
{
    replies_are_lines();
    accepted_are_joined();
    states_stay_valid();
}

/// What a device does at a line. A write that is accepted leaves one message more, with the value that was
/// written, which is the latest of its field, and answers `writes 1`. Any edit that is accepted has made its
/// writes in the book of the messages, and the answer tells how many they were and which ids they made. A
/// message that is accepted has joined the others, and the answer tells by how many the set has grown. A line
/// that only reads leaves all as it is, and gets its answer. A sync leaves what its talk with the server has
/// left, and the reply tells how that ended. An edit, an undo, a redo or a message that is refused, and a line
/// that is no command, leave all as it is; the reply tells the refusal, or the part of the line that is at fault.
pub fn lines_are_obeyed()
    ensures { LinesAreObeyed }
{
    edits_read_back();
    edits_are_made();
    received_are_joined();
    talks_are_told();
}

/// A device that begins with a node and valid messages has a valid state: its messages are valid, and so is the
/// timestamp at which its clock stands, and what can be undone and redone. No line that has its whole talk with a server
/// leaves it another one, whatever the server sends.
pub fn states_stay_valid()
    ensures { StatesStayValid }
{
    lines_write_back();
    talks_are_valid();
}

/// How bytes become lines. Any bytes are lines with their ends and a last piece without one; the whole lines are those
/// lines, the empty ones too, and all lines are these and the last piece, where it is not empty. A bad line is told by
/// its number among all lines, from 1 on, and by its word; of a good one nothing is told.
pub fn lines_are_cut()
    ensures { LinesAreCut }
{}

/// What a merge writes. A line is judged as the message of which it is the line: not too long, UTF-8, and read as
/// the message; another one is bad, and its word tells the first thing wrong with it. Behind the bad lines stands the
/// line of the latest message of each field, of all messages that the lines have, where of one timestamp the first
/// counts. So inputs without a bad line give the same text where their lines have the same messages, one for each
/// timestamp, in whatever order and number.
pub fn merges_agree()
    ensures { MergesAgree }
{
    latest_message();
}

/// What words ask for. They ask for a plan exactly where they are a command line whose mode word names the plan's mode
/// and whose options give its values, each its own; what is not given is a default, or none.
pub fn plans_are_asked()
    ensures { PlansAreAsked }
{}

/// What a server answers, and that it stays. Of connections that were served one after the other over a keeper that
/// tells, each answer of status 200 has exactly those messages of its group that were kept before it and whose timestamp's
/// text is greater than the one asked for, from the oldest on. Whatever connections come later, the group keeps all that
/// it had then, and the messages of the request; of one timestamp the message that came first.
pub fn answers_stay()
    ensures { AnswersStay }
{
    answers_tell();
}

/// What is written of the connections of a server: a line for each, in their order, with its number among them, from 1 on, and the
/// status of its answer, or `cut`.
pub fn ends_are_told()
    ensures { EndsAreTold }
{}
