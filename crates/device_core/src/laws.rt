//! Facts about what a device makes of edits and of messages, which a proof can call for.
ghost use Rattle.device_core.specs.Accepting.{AcceptedAreJoined};
ghost use Rattle.device_core.specs.Answering.{WritesAreAnswered, MessagesAreAnswered};
ghost use Rattle.device_core.specs.Beginning.{DevicesBegin};
ghost use Rattle.device_core.specs.Books.{BooksFollowMessages};
ghost use Rattle.device_core.specs.Greatest.{GreatestIsTold};
ghost use Rattle.device_core.specs.ReadBack.{EditsReadBack, ReceivedAreJoined};
ghost use Rattle.device_core.specs.Several.{EditsAreMade, WritesAreJoined};
ghost use Rattle.device_core.specs.Undoing.{EntriesAreTakenBack, LinesAreUndone};

/// A law: a device begins with the messages that it is given, and a clock of its node at the time and the
/// counter of the last of them, or at the start of 1970 where there are none. Where they rise by timestamp, it is
/// behind none of them.
pub fn devices_begin()
    ensures { DevicesBegin }
{}

/// A law: the rows of messages are those that the values of the fields make, and no others are. So devices
/// whose fields have the same values have the same books, and where equal timestamps mean equal messages,
/// the order and the number in which messages came do not matter.
pub fn books_follow_messages()
    ensures { BooksFollowMessages }
{}

/// A law: of every accepted line some messages have joined, and the records of the new ones, and no
/// others, are pending; no id that it made has a line feed, where the
/// clock stood at a valid timestamp. The clock keeps its node, and is behind no
/// message where it was behind none before.
pub fn accepted_are_joined()
    ensures { AcceptedAreJoined }
{}

/// A law: where the clock is not behind a message, a write of a value into a field that is accepted is
/// one message under a timestamp that no message had, of the device's own node, at which the clock then
/// stands. It joins the messages, is the latest of its field, so that the field has that value, and its
/// record alone is pending. So a write is never lost to a message that came before it, whatever clock that
/// message had.
pub fn edits_read_back()
    ensures { EditsReadBack }
{}

/// A law: where the clock is not behind a message, writes that are accepted are a message each, under
/// timestamps of the device's own node with counters in a row, all later than where the clock stood; the
/// clock stands at the last. They stand behind the messages of before, so that the set has grown by their
/// number, and their records alone are pending. A field has the value of its last write, and one that is
/// not written keeps its latest message. The ids that were made are those of the rows that the writes make,
/// each the text of the timestamp of the row's first write; no message of before was of such a row, where none
/// was of a row with the id of a timestamp past the clock. At most 65,536 writes are accepted, where the clock
/// draws their timestamps; more are refused for their number, else they are refused for the fault of the clock.
/// Where there are no writes, the line is accepted and leaves all as it was.
pub fn writes_are_joined()
    ensures { WritesAreJoined }
{}

/// A law: where the clock is not behind a message, an edit that is accepted has made the writes that it makes in
/// the book of the messages, as `writes_are_joined` says; where these are none, all is as it was.
pub fn edits_are_made()
    ensures { EditsAreMade }
{}

/// A law: a write is accepted where its three names are names and the clock draws a timestamp, at
/// which it then stands. Where they are not all names, it is refused for the first of dataset, row and
/// column that is none; else, where the clock draws no timestamp, for the fault of the clock.
pub fn writes_are_answered()
    ensures { WritesAreAnswered }
{}

/// A law: messages are accepted where the clock receives their greatest timestamp, and always where
/// there are none. Else they are refused for the fault of the clock.
pub fn messages_are_answered()
    ensures { MessagesAreAnswered }
{}

/// A law: messages that are accepted have all joined, the device has grown by as many as were counted,
/// and the records of the new ones, and no others, are pending. The clock has received their greatest
/// timestamp, keeps its node, and is not behind one of them; where it was not behind a message before,
/// it is behind none now.
pub fn received_are_joined()
    ensures { ReceivedAreJoined }
{}

/// A law: the timestamp by which a clock receives messages is that of one of them, and none of them
/// has a greater one. Only of no messages there is none.
pub fn greatest_is_told()
    ensures { GreatestIsTold }
{}

/// A law: an undo, and so a redo, is refused where there is no entry, else for the fault of the clock where it draws no timestamps for
/// the writes that undo the latest entry; else it is accepted. The writes that it makes are those of the entry, as `writes_are_joined`
/// says, whatever messages have come since, where the clock is behind no message, as that of a device never is. It is asked that
/// the entries are valid, as those of a device are.
pub fn entries_are_taken_back()
    ensures { EntriesAreTakenBack }
{}

/// A law: an undo right after an edit with writes leaves each field that had a value with that value, and deletes each row that the edit
/// made, where rows of its dataset can be deleted; so does a redo right after an undo, and an undo right after a redo. It is asked that
/// the clock was behind no message, as that of a device never is.
pub fn lines_are_undone()
    ensures { LinesAreUndone }
{}
