//! Facts about what a keeper holds, about the bytes of a sync, about the server, about conversations, about the lines of a device, and
//! about what is written of a generated book and of a world's lines, which a proof can call for.
ghost use Rattle.sync_laws.specs.Asking.{RequestsAsk, LastSyncsAreApart};
ghost use Rattle.sync_laws.specs.Contents.{ContentsAreKept};
ghost use Rattle.sync_laws.specs.Counting.{EnvelopesCount};
ghost use Rattle.sync_laws.specs.Devices.{DevicesBeginAnew, EditsAreOfTheirKind, IdsAreMadeInOrder};
ghost use Rattle.sync_laws.specs.Equal.{ServersAnswerEqually};
ghost use Rattle.sync_laws.specs.Lines.{LinesAreTakenBack, EqualSetsAnswerEqually};
ghost use Rattle.sync_laws.specs.Plans.{PlansMeet};
ghost use Rattle.sync_laws.specs.Played.{RepliesFollowLines, OneRefusalIsTold};
ghost use Rattle.sync_laws.specs.Server.{BodiesDecide, FilesAreApart, PathsAreCut, StatusesAreWritten, TriesAreOfTimestamps};
ghost use Rattle.sync_laws.specs.Staying.{TalksKeepMessages, AnsweredLinesStay};
ghost use Rattle.sync_laws.specs.Told.{SummariesAreTold};
ghost use Rattle.sync_laws.specs.Turning.{TalksBegin, TalksEnd};
ghost use Rattle.sync_laws.specs.Whole.{RepliesAreWhole};
ghost use Rattle.budget_top.specs.Replied.{AcceptedGetReplies};

use budget_top::lines_are_obeyed;
use device_core::{
    accepted_are_joined, entries_are_taken_back, lines_are_undone, writes_are_joined,
};
use field_merge::joined_in_any_order;
use sync_server::{accepted_are_kept, answers_tell, connections_are_decided};

/// A law: what is given of a group are the records that it has above a key, each once, by key. After an append
/// each record that was there is there as it was; under a key that the group lacked stands the first record of the
/// batch that has it, and nothing where none has; other groups, and the texts, are as they were. After a put
/// the name has the text; other names, and the records, are as they were.
pub fn contents_are_kept()
    ensures { ContentsAreKept }
{}

/// A law: an envelope that says that it is encrypted has no message, and another one has that of its timestamp and its content. The
/// messages of a request or of a reply are those of its envelopes, in their order, and it is encrypted just where one of them is.
pub fn envelopes_count()
    ensures { EnvelopesCount }
{}

/// A law: the path of a request is what stands before the first question mark of its target, or all of it.
pub fn paths_are_cut()
    ensures { PathsAreCut }
{}

/// A law: no two files share the name under which a file has its group.
pub fn files_are_apart()
    ensures { FilesAreApart }
{}

/// A law: behind a head that is not refused as many bytes decide as it tells. Where fewer come, the connection ends; where they mean a
/// request, this decides over what the keeper has, and where they mean none, it is refused for that, whatever follows them.
pub fn bodies_decide()
    ensures { BodiesDecide }
{
    connections_are_decided();
}

/// A law: the status that is told of a connection is that of the reply that was written.
pub fn statuses_are_written()
    ensures { StatusesAreWritten }
{}

/// A law: servers with one token, whose files have the same groups, and whose groups have the same message sets, answer connections with
/// equal bytes by equal bytes, where they answer with 200, however the messages came there.
pub fn servers_answer_equally()
    ensures { ServersAnswerEqually }
{
    connections_are_decided();
    accepted_are_kept();
}

/// A law: the text of the trie in an answer is that of any trie of the timestamps of all messages that the group has then.
pub fn tries_are_of_timestamps()
    ensures { TriesAreOfTimestamps }
{
    answers_tell();
}

/// A law: of a reply that tells its length no part in front is a reply. So an answer that breaks off is never taken for one.
pub fn replies_are_whole()
    ensures { RepliesAreWhole }
{}

/// A law: a device asks first from the timestamp of the last sync on, where the text of that is a timestamp's. Else it asks from five
/// minutes before the reading, where that lies in the window of timestamps: it hands in and gets what is of that moment or later.
pub fn talks_begin()
    ensures { TalksBegin }
{}

/// A law: how a conversation ended tells what its last reply was, and what the device made of it. A status and a place that are told
/// are those of the reply, which changed nothing; messages that the clock did not take changed nothing either. Else the answer was
/// received: where the roots of the tries are the same, the conversation ended with an agreement; where they are not, it goes on from the
/// moment of their difference, or, where no more requests may be made, both roots are told.
pub fn talks_end()
    ensures { TalksEnd }
{}

/// A law: a device hands in exactly the messages that it has, whoever made them, whose timestamp's text is greater than the text from
/// which it asks, from the oldest on. It asks for such, of the file and the group of its target.
pub fn requests_ask()
    ensures { RequestsAsk }
{
    answers_tell();
}

/// A law: the text of the last sync is kept under a name of its own for each file and group, where the files have no slash, as no file
/// of a command line has.
pub fn last_syncs_are_apart()
    ensures { LastSyncsAreApart }
{}

/// A law: the device of a plan says the plan's token, file and group. A server of a plan with the same file and group has, when its first
/// connection comes, the group for which that device asks.
pub fn plans_meet()
    ensures { PlansMeet }
{
    contents_are_kept();
}

/// A law: a device that begins, as it does after each stop, has nothing to undo or to redo, and refuses both for that.
pub fn devices_begin_anew()
    ensures { DevicesBeginAnew }
{}

/// A law: each kind of edit is answered by the writes that its own crate makes of it in the book of the messages. It is refused for
/// just the refusal of its checks, else, with at most 65,536 writes, for the fault of the clock where that draws no timestamps; what is
/// accepted has made just these writes, where the clock was behind no message, and without any all stays. More are refused for their
/// number, as `writes_are_joined` says.
pub fn edits_are_of_their_kind()
    ensures { EditsAreOfTheirKind }
{
    writes_are_joined();
}

/// A law: the ids that a line made for rows are told in the order of their timestamps, each once. Which they are `writes_are_joined`
/// says.
pub fn ids_are_made_in_order()
    ensures { IdsAreMadeInOrder }
{}

/// A law: what a line `undo` or `redo` makes of a run. Where there is no entry, it is refused for that, and where the clock draws no
/// timestamps, for its fault; all stays then. Else exactly the writes that undo the latest entry have joined, whatever has come since
/// the entry was made, and the reply tells them. An `undo` right behind an edit with writes restores what the edit wrote over, and so
/// does a `redo` behind an `undo`, and an `undo` behind a `redo`. It is asked before that the entries are valid, and that the clock is
/// behind no message, as in each device.
pub fn lines_are_taken_back()
    ensures { LinesAreTakenBack }
{
    lines_are_obeyed();
    entries_are_taken_back();
    lines_are_undone();
}

/// A law: equal sets answer equal bytes. Two runs with the same messages answer a line that only reads by the same bytes, wherever their
/// clocks stand, whatever could be undone or redone, with whom they sync, in whatever order and number the messages have come, and
/// whether one of them begins with what is kept of the other.
pub fn equal_sets_answer_equally()
    ensures { EqualSetsAnswerEqually }
{
    lines_are_obeyed();
    joined_in_any_order();
}

/// A law: the end of a conversation has every message of its beginning, as it was, whatever the server sends.
pub fn talks_keep_messages()
    ensures { TalksKeepMessages }
{
    accepted_are_joined();
}

/// A law: no line of a device loses a message. So each of what a stop may leave of a run has all messages that each line left that was
/// answered before, whatever line is in hand then, and whether or not this one syncs.
pub fn answered_lines_stay()
    ensures { AnsweredLinesStay }
{
    accepted_are_joined();
}

/// A law: a whole request that is accepted, at which neither the keeper nor the door fails, gets the whole answer with the status 200,
/// or memory runs out and it gets 507.
pub fn accepted_get_replies()
    ensures { AcceptedGetReplies }
{
    connections_are_decided();
}

/// A law: the text of a generated book is three lines, with nothing behind them: `messages ` and how many messages the book has; `root `
/// and the hash at the root of their trie, as a signed number of 32 bits; and `to-budget ` and what is left to budget in December 2024.
/// A run that ends with status 0 has written such a text, where the sink tells. No two different summaries have one text, where
/// their numbers are of their types.
pub fn summaries_are_told()
    ensures { SummariesAreTold }
{}

/// A law: a run of lines begins with no world. A line that is too long, or no UTF-8, is refused for its first word, and leaves the world that
/// the lines before it left; another one is answered in that world. For lines are written the replies to them: as many as there are lines,
/// in their order, each the reply to its line behind those before it. So they are by a run that ends with status 0 or 1, for all lines
/// of what it read, where source and sink tell.
pub fn replies_follow_lines()
    ensures { RepliesFollowLines }
{}

/// A law: one of some lines counts as refused exactly where there is one whose reply, behind the lines before it, is a refusal. Among all
/// lines of what a run read, as the source tells it, there is no such line where it ends with status 0, and there is one where it ends
/// with status 1.
pub fn one_refusal_is_told()
    ensures { OneRefusalIsTold }
{}
