//! Facts about lines and replies, which a proof can call for.
ghost use Rattle.command_lines.specs.Answers.{AnswersTell};
ghost use Rattle.command_lines.specs.FirstBad.{FirstBadIsTold};
ghost use Rattle.command_lines.specs.FormLaws.{FormsAreRead};
ghost use Rattle.command_lines.specs.ReplyLines.{RepliesAreLines};
ghost use Rattle.command_lines.specs.Written.{CommandsReadBack, LinesWriteBack, ReceivesMessageLines};

use field_merge::{latest_message, message_lines};
use minute_trie::{order_free, reads_back, tries_are_maps};

/// A law: a reader who cuts the text of a reply at its line feeds finds the lines of the reply, if none
/// of its lines and no code has a line feed; the detail of a refusal may have one, since it is escaped. And
/// so it is with a reply of this crate, where it answers of valid messages, and no id that an edit made has one.
pub fn replies_are_lines()
    ensures { RepliesAreLines }
{
    // No message's line has a LF.
    message_lines();
}

/// A law: the line of a valid command is read as the command, unless the line is too long. Words can write what it holds: no id
/// that is given is a hyphen where that stands for none, a date has eight digits at most, a month six, and an amount 64 bits; a split
/// has a part at least, and rules run on a transaction at least.
pub fn commands_read_back()
    ensures { CommandsReadBack }
{}

/// A law: what a line is read as is a valid command that words can write, and the line is that of the command, but for the bytes 0 and LF that
/// stand in it without their escape. So each word of it counts, none has a bad escape, and lines that differ in anything else are read as
/// different commands.
pub fn lines_write_back()
    ensures { LinesWriteBack }
{}

/// A law: a line behind `receive` and a TAB commands to receive a message exactly where it is read as that message, unless
/// the whole is too long. So a device takes the message lines that `merge` takes, up to that length.
pub fn receives_message_lines()
    ensures { ReceivesMessageLines }
{}

/// A law: the index that is told of words that are no command is that of the first that is not of its form. With some words
/// behind them the words before it are a command, and with the word at it they are none, whatever stands behind it. Where no
/// word stands at it, one is missing there.
pub fn first_bad_is_told()
    ensures { FirstBadIsTold }
{}

/// A law: what lines that only read are answered. `value` tells the value of the latest message of the field, escaped, and
/// `none` where no message is one of the field. `fields` tells the line of the latest message of each field, by
/// dataset, row and column. `messages` tells the line of each message whose timestamp's text is greater than the text, by
/// timestamp. `trie` tells a text that is read as the trie of the messages' timestamps, in whichever order they came. `balance`
/// and `register` tell of a live account, `cell` and `sheet` of a month, what the rows of the messages say: the balance, exactly
/// the live transactions of the account by day and id, what the cell tells, and the lines of the sheet. Which account, month,
/// group, category or kind of cell is refused is told, too.
pub fn answers_tell()
    ensures { AnswersTell }
{
    latest_message();
    order_free();
    reads_back();
    tries_are_maps();
}

/// A law: what words that repeat, or may be left out, are read as. Where texts are wanted, words are read as a command
/// exactly where they are those of one text or more, and so where shares are wanted, each an amount and an id or a
/// hyphen. Where the words may end, no words are read as the command, and any others as where a word is wanted.
pub fn forms_are_read()
    ensures { FormsAreRead }
{}
