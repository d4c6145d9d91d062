//! The words of a line, read one after the other.
ghost use Rattle.std.specs.Prelude.{◌≡◌, ◌≢◌, ◌+◌, ◌<◌, ◌^◌, ◌∷◌, [], IfOk, IfErr, OnOk, IfNone, IfSome, IsTrue, false, List, ℕ, ℤ, length, Bool as Truth, Option as Choice};
ghost use Rattle.std.specs.Option.{option_copied};
ghost use Rattle.field_values.specs.Names.{IsName};
ghost use Rattle.field_merge.specs.Lines.{parts};
ghost use Rattle.hybrid_clock.specs.Stamp.{IsStamp};
ghost use Rattle.hybrid_clock.specs.declared.stamp.Stamp.{Stamp};
ghost use Rattle.rule_engine.specs.declared.rule.Stage.{Stage};
ghost use Rattle.rule_engine.specs.declared.rule.RuleOp.{RuleOp};
ghost use Rattle.command_lines.specs.declared.command.Command.{Command};
ghost use Rattle.command_lines.specs.Commands.{IsCommandFault};
ghost use Rattle.command_lines.specs.Forms.{Wanted, word, no_more, stamp_word, name_word, amount_word, flag_word, date_word, month_word, id_word, stage_word, op_word};
ghost use Rattle.command_lines.specs.Unread.{words_of, command_of_unread, HasText, ArePlainWords};

use crate::command::CommandFault;
use crate::forms::{amount_in, date_in, flag_in, month_in, op_in, stage_in};
use device_core::{RuleOp, Stage};
use field_merge::{bad_escape, cut_part, unescape};
use field_values::{NamePart, NoMemory, Txt, check_name};
use hybrid_clock::Stamp;
use memchr::memchr;
use std::alloc::Global;
use std::marker::Model;

/// Where the text of a word stands: in the line, or in memory of its own where it had to be unescaped.
#[derive(Drop)]
enum Held<'a> {
    Lent(&'a str),
    Owned(Txt),
}

/// A word of a line, without its escapes. A contract sees its text.
#[derive(Drop)]
struct Word<'a> {
    held: Held<'a>,
}

impl<'a> Model for Word<'a> {
    ghost use Rattle.std.specs.Prelude.{List, ℕ};
    ghost use Rattle.command_lines.specs.Held.{text_in};

    ghost Value = { List ℕ };

    ghost view = { λ w. text_in w.held };
}

impl<'a> Word<'a> {
    /// The text of the word.
    fn as_str(&self) -> &str
        ensures { result.now ≡ self.now }
    {
        match &self.held {
            Held::Lent(text) => text,
            Held::Owned(text) => text.as_str(),
        }
    }

    /// The text of the word in memory of its own.
    fn into_text(self, alloc: Global) -> Result<Txt, NoMemory>
        ensures { IfOk result (λ text. text ≡ self.entry) }
    {
        match self.held {
            Held::Lent(text) => Txt::from_text(alloc, text),
            Held::Owned(text) => Ok(text),
        }
    }
}

/// The words of a line that are still to be read.
#[derive(Drop)]
pub(crate) struct Words<'a> {
    /// What stands behind the last TAB that was passed; nothing behind the last word.
    rest: Option<&'a str>,
    /// The index of the word that was read last.
    last: u32,
    /// Where it is set, no backslash stands in the rest.
    is_plain: bool,
}

impl<'a> Model for Words<'a> {
    ghost use Rattle.std.specs.Prelude.{◌+◌, ◌<◌, ◌^◌, length};
    ghost use Rattle.std.specs.Option.{option_copied};
    ghost use Rattle.command_lines.specs.Unread.{UnreadWords, words_of, ArePlainWords};

    ghost Value = { UnreadWords };

    ghost view = { λ w. record { last = w.last; words = words_of (option_copied w.rest) } };

    ghost invariant = { λ w. (w.last + 1 + length (words_of (option_copied w.rest)) < 2 ^ 32) × ArePlainWords w.is_plain (words_of (option_copied w.rest)) };
}

/// Cuts the first word off a line, and what stands behind its TAB where it has one.
pub(crate) fn cut_word(line: &str) -> (&str, Option<&str>)
    ensures { parts line.now ≡ result.0.now ∷ words_of (option_copied result.1) }
{
    match cut_part(line) {
        Some((word, rest)) => (word, Some(rest)),
        None => (line, None),
    }
}

/// Whether no backslash stands in what is left of a line.
fn lacks_backslash(rest: Option<&str>) -> bool
    ensures { ArePlainWords result (words_of (option_copied rest.entry)) }
{
    match rest {
        Some(rest) => memchr(b'\\', rest.as_bytes()).is_none(),
        None => true,
    }
}

impl<'a> Words<'a> {
    /// The words of what stands behind the first one.
    pub(crate) fn new(rest: Option<&'a str>) -> Words<'a>
        requires { length (words_of (option_copied rest)) < 2 ^ 31 }
        ensures last { result.last ≡ 0 }
        ensures words { result.words ≡ words_of (option_copied rest.entry) }
    {
        Words {
            rest,
            last: 0,
            is_plain: lacks_backslash(rest),
        }
    }

    /// The next word as it is written.
    fn next(&mut self) -> Option<&'a str>
        ensures none { IfNone result (self.old.words ≡ []) }
        ensures word { IfSome result (λ w. self.old.words ≡ w.now ∷ self.new.words) }
        ensures same { IfNone result (self.new.last ≡ self.old.last) }
        ensures last { IfSome result (λ _. self.new.last ≡ self.old.last + 1) }
    {
        let rest = self.rest?;
        let (word, rest) = cut_word(rest);
        self.rest = rest;
        self.last += 1;
        Some(word)
    }

    /// Whether no word is left.
    pub(crate) fn is_done(&self) -> bool
        ensures done { IsTrue result → self.now.words ≡ [] }
        ensures more { result ≡ false → self.now.words ≢ [] }
    {
        match self.rest {
            Some(_) => false,
            None => true,
        }
    }

    /// The fault of a word behind the one that was read last: it is missing, or one too many.
    fn behind_last(&self) -> CommandFault
        ensures { result ≡ CommandFault.BadCommand (self.now.last + 1) }
    {
        CommandFault::BadCommand {
            word: self.last + 1,
        }
    }

    /// The fault of the word that was read last.
    pub(crate) fn at_last(&self) -> CommandFault
        ensures { result ≡ CommandFault.BadCommand self.now.last }
    {
        CommandFault::BadCommand { word: self.last }
    }

    /// The next word. It is at fault where it is missing or has a bad escape. It is lent from the line where nothing of the line is
    /// written by an escape.
    fn word(&mut self, alloc: Global) -> Result<Word<'a>, CommandFault>
        ensures ok { IfOk result (λ text. (next : List ℕ → Wanted) → command_of_unread (word next) self.old ≡ command_of_unread (next text) self.new) }
        ensures err { IfErr result (λ fault. (next : List ℕ → Wanted) → IsCommandFault (command_of_unread (word next) self.old) fault) }
        ensures there { OnOk result (HasText self.old.words) }
        ensures fewer { OnOk result (length self.new.words < length self.old.words) }
        ensures memory { IfErr result (λ fault. fault ≡ CommandFault.NoMemory → HasText self.old.words) }
    {
        let is_plain = self.is_plain;
        let Some(written) = self.next() else {
            return Err(self.behind_last());
        };
        if is_plain {
            return Ok(Word {
                held: Held::Lent(written),
            });
        }
        if bad_escape(written.as_bytes()).is_some() {
            return Err(self.at_last());
        }
        let text = unescape(alloc, written)?;
        Ok(Word {
            held: Held::Owned(Txt::new(text)),
        })
    }

    /// The text of the next word. It is at fault where it is missing or has a bad escape.
    pub(crate) fn text(&mut self, alloc: Global) -> Result<Txt, CommandFault>
        ensures ok { IfOk result (λ text. (next : List ℕ → Wanted) → command_of_unread (word next) self.old ≡ command_of_unread (next text) self.new) }
        ensures err { IfErr result (λ fault. (next : List ℕ → Wanted) → IsCommandFault (command_of_unread (word next) self.old) fault) }
        ensures there { OnOk result (HasText self.old.words) }
        ensures fewer { OnOk result (length self.new.words < length self.old.words) }
        ensures memory { IfErr result (λ fault. fault ≡ CommandFault.NoMemory → HasText self.old.words) }
    {
        let word = self.word(alloc)?;
        Ok(word.into_text(alloc)?)
    }

    /// The timestamp whose text the next word is. The word is at fault where it is missing, has a bad
    /// escape or is no timestamp.
    pub(crate) fn stamp(&mut self, alloc: Global) -> Result<Stamp, CommandFault>
        ensures ok { IfOk result (λ stamp. (next : Stamp → Wanted) → command_of_unread (stamp_word next) self.old ≡ command_of_unread (next stamp) self.new) }
        ensures valid { IfOk result IsStamp }
        ensures err { IfErr result (λ fault. (next : Stamp → Wanted) → IsCommandFault (command_of_unread (stamp_word next) self.old) fault) }
        ensures there { OnOk result (HasText self.old.words) }
        ensures memory { IfErr result (λ fault. fault ≡ CommandFault.NoMemory → HasText self.old.words) }
    {
        let word = self.word(alloc)?;
        match Stamp::parse(word.as_str().as_bytes()) {
            Ok(stamp) => Ok(stamp),
            Err(_) => Err(self.at_last()),
        }
    }

    /// The name that the next word is. The word is at fault where it is missing, has a bad escape or is
    /// no name.
    pub(crate) fn name(&mut self, alloc: Global) -> Result<Txt, CommandFault>
        ensures ok { IfOk result (λ name. (next : List ℕ → Wanted) → command_of_unread (name_word next) self.old ≡ command_of_unread (next name) self.new) }
        ensures good { IfOk result IsName }
        ensures err { IfErr result (λ fault. (next : List ℕ → Wanted) → IsCommandFault (command_of_unread (name_word next) self.old) fault) }
        ensures memory { IfErr result (λ fault. fault ≡ CommandFault.NoMemory → HasText self.old.words) }
    {
        let word = self.word(alloc)?;
        // The part is told with a fault, and only whether there is one matters here.
        match check_name(NamePart::Dataset, word.as_str().as_bytes()) {
            Ok(()) => Ok(word.into_text(alloc)?),
            Err(_) => Err(self.at_last()),
        }
    }

    /// The amount that the next word writes. The word is at fault where it is missing, has a bad escape, or is not the
    /// decimal text of a number of 64 bits.
    pub(crate) fn amount(&mut self, alloc: Global) -> Result<i64, CommandFault>
        ensures ok { IfOk result (λ amount. (next : ℤ → Wanted) → command_of_unread (amount_word next) self.old ≡ command_of_unread (next amount) self.new) }
        ensures err { IfErr result (λ fault. (next : ℤ → Wanted) → IsCommandFault (command_of_unread (amount_word next) self.old) fault) }
        ensures there { OnOk result (HasText self.old.words) }
        ensures fewer { OnOk result (length self.new.words < length self.old.words) }
        ensures memory { IfErr result (λ fault. fault ≡ CommandFault.NoMemory → HasText self.old.words) }
    {
        let word = self.word(alloc)?;
        match amount_in(word.as_str()) {
            Some(read) => Ok(read),
            None => Err(self.at_last()),
        }
    }

    /// The flag that the next word writes. The word is at fault where it is missing, has a bad escape, or is neither `0` nor `1`.
    pub(crate) fn flag(&mut self, alloc: Global) -> Result<bool, CommandFault>
        ensures ok { IfOk result (λ flag. (next : Truth → Wanted) → command_of_unread (flag_word next) self.old ≡ command_of_unread (next flag) self.new) }
        ensures err { IfErr result (λ fault. (next : Truth → Wanted) → IsCommandFault (command_of_unread (flag_word next) self.old) fault) }
        ensures there { OnOk result (HasText self.old.words) }
        ensures memory { IfErr result (λ fault. fault ≡ CommandFault.NoMemory → HasText self.old.words) }
    {
        let word = self.word(alloc)?;
        match flag_in(word.as_str()) {
            Some(read) => Ok(read),
            None => Err(self.at_last()),
        }
    }

    /// The number YYYYMMDD that the next word writes. The word is at fault where it is missing, has a bad escape, or is not eight
    /// digits.
    pub(crate) fn date(&mut self, alloc: Global) -> Result<u32, CommandFault>
        ensures ok { IfOk result (λ date. (next : ℕ → Wanted) → command_of_unread (date_word next) self.old ≡ command_of_unread (next date) self.new) }
        ensures err { IfErr result (λ fault. (next : ℕ → Wanted) → IsCommandFault (command_of_unread (date_word next) self.old) fault) }
        ensures there { OnOk result (HasText self.old.words) }
        ensures memory { IfErr result (λ fault. fault ≡ CommandFault.NoMemory → HasText self.old.words) }
    {
        let word = self.word(alloc)?;
        match date_in(word.as_str()) {
            Some(read) => Ok(read),
            None => Err(self.at_last()),
        }
    }

    /// The number YYYYMM that the next word writes. The word is at fault where it is missing, has a bad escape, or is not four
    /// digits, `-` and two digits.
    pub(crate) fn month(&mut self, alloc: Global) -> Result<u32, CommandFault>
        ensures ok { IfOk result (λ month. (next : ℕ → Wanted) → command_of_unread (month_word next) self.old ≡ command_of_unread (next month) self.new) }
        ensures err { IfErr result (λ fault. (next : ℕ → Wanted) → IsCommandFault (command_of_unread (month_word next) self.old) fault) }
        ensures there { OnOk result (HasText self.old.words) }
        ensures memory { IfErr result (λ fault. fault ≡ CommandFault.NoMemory → HasText self.old.words) }
    {
        let word = self.word(alloc)?;
        match month_in(word.as_str()) {
            Some(read) => Ok(read),
            None => Err(self.at_last()),
        }
    }

    /// The stage of a rule that the next word names. The word is at fault where it is missing, has a bad escape, or is none of `pre`,
    /// `none` and `post`.
    pub(crate) fn stage(&mut self, alloc: Global) -> Result<Stage, CommandFault>
        ensures ok { IfOk result (λ stage. (next : Stage → Wanted) → command_of_unread (stage_word next) self.old ≡ command_of_unread (next stage) self.new) }
        ensures err { IfErr result (λ fault. (next : Stage → Wanted) → IsCommandFault (command_of_unread (stage_word next) self.old) fault) }
        ensures there { OnOk result (HasText self.old.words) }
        ensures memory { IfErr result (λ fault. fault ≡ CommandFault.NoMemory → HasText self.old.words) }
    {
        let word = self.word(alloc)?;
        match stage_in(word.as_str()) {
            Some(read) => Ok(read),
            None => Err(self.at_last()),
        }
    }

    /// How many conditions of a rule have to hold, by the next word. The word is at fault where it is missing, has a bad escape, or is
    /// neither `and` nor `or`.
    pub(crate) fn op(&mut self, alloc: Global) -> Result<RuleOp, CommandFault>
        ensures ok { IfOk result (λ op. (next : RuleOp → Wanted) → command_of_unread (op_word next) self.old ≡ command_of_unread (next op) self.new) }
        ensures err { IfErr result (λ fault. (next : RuleOp → Wanted) → IsCommandFault (command_of_unread (op_word next) self.old) fault) }
        ensures there { OnOk result (HasText self.old.words) }
        ensures memory { IfErr result (λ fault. fault ≡ CommandFault.NoMemory → HasText self.old.words) }
    {
        let word = self.word(alloc)?;
        match op_in(word.as_str()) {
            Some(read) => Ok(read),
            None => Err(self.at_last()),
        }
    }

    /// The id that the next word is, or none where it is a hyphen. The word is at fault where it is missing or has a bad escape.
    #[tactic(auto, unfolding(crate::specs::Forms::id_of))]
    pub(crate) fn id_or_none(&mut self, alloc: Global) -> Result<Option<Txt>, CommandFault>
        ensures ok { IfOk result (λ id. (next : Choice (List ℕ) → Wanted) → command_of_unread (id_word next) self.old ≡ command_of_unread (next id) self.new) }
        ensures err { IfErr result (λ fault. (next : Choice (List ℕ) → Wanted) → IsCommandFault (command_of_unread (id_word next) self.old) fault) }
        ensures there { OnOk result (HasText self.old.words) }
        ensures fewer { OnOk result (length self.new.words < length self.old.words) }
        ensures memory { IfErr result (λ fault. fault ≡ CommandFault.NoMemory → HasText self.old.words) }
    {
        let word = self.word(alloc)?;
        if word.as_str() == "-" {
            return Ok(None);
        }
        Ok(Some(word.into_text(alloc)?))
    }

    /// Nothing, where no word is left. The next word is one too many, and at fault.
    pub(crate) fn end(&self) -> Result<(), CommandFault>
        ensures ok { OnOk result ((command : Command) → command_of_unread (no_more command) self.now ≡ Ok command) }
        ensures err { IfErr result (λ fault. (command : Command) → IsCommandFault (command_of_unread (no_more command) self.now) fault) }
        ensures memory { IfErr result (λ fault. fault ≢ CommandFault.NoMemory) }
    {
        match self.rest {
            Some(_) => Err(self.behind_last()),
            None => Ok(()),
        }
    }
}
