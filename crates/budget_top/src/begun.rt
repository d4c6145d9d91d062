//! The line that has begun.
ghost use Rattle.std.specs.Prelude.{◌≡◌, ◌↔◌, IfOk, IfSome, OnOk, OnErr, IsErr, IsSome, IsTrue, IsUtf8, MatchOption, None, Some, false, []};
ghost use Rattle.field_merge.specs.Lines.{TakesMemory};
ghost use Rattle.budget_top.specs.KeptLine.{judged_kept_line, kept_line_with};
ghost use Rattle.budget_top.specs.Verdicts.{Takes};

use crate::verdict::{Word, take_line};
use command_lines::LONGEST_LINE;
use field_merge::LatestMessages;
use field_values::NoMemory;
use std::alloc::Global;
use std::marker::Model;

/// What was read of a line. A contract sees its bytes, or none where it is too long: then they are
/// not kept.
#[derive(Drop)]
pub struct Begun {
    bytes: Vec<u8>,
    is_long: bool,
}

impl Model for Begun {
    ghost use Rattle.std.specs.Prelude.{ℕ, ◌≤◌, List, Option, None, Some, if◌then◌else◌, vec_len};
    ghost use Rattle.command_lines.specs.Commands.{longest_line};

    ghost Value = { Option (List ℕ) };

    ghost view = { λ b. if b.is_long then None else Some b.bytes.items };

    ghost invariant = { λ b. vec_len b.bytes ≤ longest_line };
}

impl Begun {
    /// A line of no bytes yet.
    pub fn new(alloc: Global) -> Begun
        ensures { result ≡ Some [] }
    {
        Begun {
            bytes: Vec::new(alloc),
            is_long: false,
        }
    }

    /// Goes on with the line. Of a line that gets too long nothing is kept.
    ///
    /// # Errors
    ///
    /// `NoMemory`; the line is then not to be used any more.
    pub fn push(&mut self, bytes: &[u8]) -> Result<(), NoMemory>
        ensures ok { OnOk result (self.new ≡ kept_line_with self.old bytes.now) }
        ensures memory { OnErr result (IsSome (kept_line_with self.old bytes.now)) }
    {
        if self.is_long {
            return Ok(());
        }
        if bytes.len() > LONGEST_LINE - self.bytes.len() {
            self.bytes.clear();
            self.is_long = true;
            return Ok(());
        }
        self.bytes.extend_from_slice(bytes)?;
        Ok(())
    }

    /// Whether the line has no byte.
    pub fn is_empty(&self) -> bool
        ensures { IsTrue result ↔ (self.now ≡ Some []) }
    {
        !self.is_long && self.bytes.is_empty()
    }

    /// The line's bytes, where it is not too long.
    pub fn bytes(&self) -> Option<&[u8]>
        ensures { MatchOption result (self.now ≡ None) (λ bytes. self.now ≡ Some bytes.now) }
    {
        if self.is_long {
            return None;
        }
        Some(self.bytes.as_slice())
    }

    /// Takes the message of the line among the latest ones, or tells the word for what is wrong with it.
    ///
    /// # Errors
    ///
    /// `NoMemory`; the latest messages are then spent. The line stays as it is.
    pub fn take_in(&self, latest: &mut LatestMessages) -> Result<Result<(), Word>, NoMemory>
        requires live { latest.old.spent ≡ false }
        ensures taken { IfOk result (λ told. Takes (judged_kept_line self.now) told latest.old latest.new) }
        ensures memory { IsErr result → IsSome self.now × IfSome self.now (λ line. IsUtf8 line × TakesMemory line) }
    {
        if self.is_long {
            return Ok(Err(Word::Long));
        }
        take_line(latest, self.bytes.as_slice())
    }

    /// Begins the next line.
    pub fn clear(&mut self)
        ensures { self.new ≡ Some [] }
    {
        self.bytes.clear();
        self.is_long = false;
    }
}
