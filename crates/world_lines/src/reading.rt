//! The words of a line, by their index.
ghost use Rattle.std.specs.Prelude.{◌≡◌};
ghost use Rattle.world_lines.specs.Words.{number_at, long_number_at, flag_at, text_at, IsReadAs};

use crate::numbers::{flag_in, long_number_in, number_in};
use command_lines::CommandFault;
use field_merge::{bad_escape, unescape};
use field_values::Txt;
use std::alloc::Global;

/// The number of 32 bits that the word at an index writes.
#[tactic(auto, using(crate::proofs::WordAt::reads_word, crate::proofs::WordAt::lacks_word))]
pub(crate) fn number_at(words: &[Txt], index: u32) -> Result<u32, CommandFault>
    ensures { result ≡ number_at words.now index }
{
    if index as usize >= words.len() {
        return Err(CommandFault::BadCommand { word: index });
    }
    match number_in(words[index as usize].as_str()) {
        Some(number) => Ok(number),
        None => Err(CommandFault::BadCommand { word: index }),
    }
}

/// The number of 64 bits that the word at an index writes.
#[tactic(auto, using(crate::proofs::WordAt::reads_word, crate::proofs::WordAt::lacks_word))]
pub(crate) fn long_number_at(words: &[Txt], index: u32) -> Result<u64, CommandFault>
    ensures { result ≡ long_number_at words.now index }
{
    if index as usize >= words.len() {
        return Err(CommandFault::BadCommand { word: index });
    }
    match long_number_in(words[index as usize].as_str()) {
        Some(number) => Ok(number),
        None => Err(CommandFault::BadCommand { word: index }),
    }
}

/// The flag that the word at an index writes.
#[tactic(auto, using(crate::proofs::WordAt::reads_word, crate::proofs::WordAt::lacks_word))]
pub(crate) fn flag_at(words: &[Txt], index: u32) -> Result<bool, CommandFault>
    ensures { result ≡ flag_at words.now index }
{
    if index as usize >= words.len() {
        return Err(CommandFault::BadCommand { word: index });
    }
    match flag_in(words[index as usize].as_str()) {
        Some(flag) => Ok(flag),
        None => Err(CommandFault::BadCommand { word: index }),
    }
}

/// The text that the word at an index writes.
#[tactic(auto, using(crate::proofs::WordAt::reads_word, crate::proofs::WordAt::lacks_word))]
pub(crate) fn text_at(alloc: Global, words: &[Txt], index: u32) -> Result<Txt, CommandFault>
    ensures { IsReadAs (text_at words.now index) result }
{
    if index as usize >= words.len() {
        return Err(CommandFault::BadCommand { word: index });
    }
    let word = words[index as usize].as_str();
    if bad_escape(word.as_bytes()).is_some() {
        return Err(CommandFault::BadCommand { word: index });
    }
    match unescape(alloc, word) {
        Ok(text) => Ok(Txt::new(text)),
        Err(_) => Err(CommandFault::NoMemory),
    }
}
