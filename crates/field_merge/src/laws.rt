//! Facts about messages, their lines and lists of them, which a proof can call for.
ghost use Rattle.field_merge.specs.LineFaults.{LineFaultsAreTold};
ghost use Rattle.field_merge.specs.Laws.{
  BadEscapesAreFound,
  FieldsListLatest,
  JoinsAgain,
  JoinsAreJoins,
  JoinsInAnyOrder,
  JoinsInTurn,
  LatestIsLatest,
  MessagesHaveOneLine,
  MessagesReadBack,
  ReadLinesWriteBack,
  ReadMessagesAreValid,
  StampsHaveNoEscape,
};

/// Laws of all lines and messages: what is written is read back, and what is read is valid and written
/// back; a message has one line, which begins with the text of its timestamp; the place that is told of a bad escape is
/// that of the first backslash that begins no escape.
pub fn message_lines()
    ensures reads_back { MessagesReadBack }
    ensures valid { ReadMessagesAreValid }
    ensures writes_back { ReadLinesWriteBack }
    ensures one_line { MessagesHaveOneLine }
    ensures stamp { StampsHaveNoEscape }
    ensures escape_place { BadEscapesAreFound }
{}

/// A law: the fault that is told of a line is the first thing that is wrong with it, and a line with which nothing is wrong is
/// read as a message.
pub fn line_faults_are_told()
    ensures { LineFaultsAreTold }
{}

/// A law: the join of two lists rises by timestamp where the first does; a timestamp finds in it the
/// message of the first list, or else the first one of the second; and it has no other message.
pub fn joined()
    ensures { JoinsAreJoins }
{}

/// A law: of messages that rise by timestamp, the latest message of a field is one of the field, and
/// none of the field has a greater timestamp; there is none exactly where no message has the field.
pub fn latest_message()
    ensures { LatestIsLatest }
{}

/// A law: `fields` lists exactly the latest message of each field, by dataset, row and column.
pub fn listed_fields()
    ensures { FieldsListLatest }
{}

/// A law: joining the same messages again changes nothing.
pub fn joined_again()
    ensures { JoinsAgain }
{}

/// A law: joining two lists in turn is joining the one followed by the other.
pub fn joined_in_turn()
    ensures { JoinsInTurn }
{}

/// A law: where the first list rises by timestamp, and equal timestamps mean equal messages among those
/// that join it, the order and the number in which these are joined do not matter.
pub fn joined_in_any_order()
    ensures { JoinsInAnyOrder }
{}
