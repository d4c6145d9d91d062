//! The escapes of a line's parts: `\0`, `\t`, `\n` and `\\` for the bytes 0, 9, 10 and 92.
ghost use Rattle.std.specs.Prelude.{None, true, false, ◌≡◌, ◌<◌, ◌≤◌, ◌||◌, ◌++◌, ◌∷◌, length, IfOk, IsTrue, OnErr, OnOk, MatchOption, position, string_bytes};
ghost use Rattle.std.specs.Bool.{OnTrue};
ghost use Rattle.std.specs.List.{fold};
ghost use Rattle.field_values.specs.Names.{IsName};
ghost use Rattle.field_merge.specs.Escapes as spec;
ghost use Rattle.field_merge.specs.Escapes.{escaped, escaped_byte, unescaped};

use field_values::NoMemory;
use memchr::memchr;
use std::alloc::Global;

/// Whether a byte makes an escape with a backslash before it.
fn is_letter(byte: u8) -> bool
    ensures { result ≡ spec.is_letter byte }
{
    matches!(byte, b'0' | b't' | b'n' | b'\\')
}

/// Whether bytes stand for themselves, since there is no backslash among them.
fn lacks_backslash(bytes: &[u8]) -> bool
    ensures whole { OnTrue result (unescaped bytes.now ≡ bytes.now) }
    ensures good { OnTrue result (spec.bad_escape bytes.now ≡ None) }
    ensures none { OnTrue result (spec.has_backslash bytes.now ≡ false) }
    ensures other { result ≡ false → spec.has_backslash bytes.now ≡ true }
{
    memchr(b'\\', bytes).is_none()
}

/// The place of the first backslash that begins no escape. Most texts have no backslash at all.
pub fn bad_escape(text: &[u8]) -> Option<usize>
    ensures { result ≡ spec.bad_escape text.now }
{
    if lacks_backslash(text) {
        None
    } else {
        first_bad(text)
    }
}

/// The same, where there is a backslash.
fn first_bad(text: &[u8]) -> Option<usize>
    ensures { result ≡ spec.bad_escape text.now }
{
    let mut at = 0;
    while at < text.len() {
        if text[at] != b'\\' {
            at += 1;
        } else if at + 1 < text.len() && is_letter(text[at + 1]) {
            at += 2;
        } else {
            return Some(at);
        }
    }
    None
}

/// A text, cut at a byte that is written by an escape.
#[derive(Drop)]
struct Cut<'a> {
    before: &'a str,
    byte: u8,
    after: &'a str,
}

/// Cuts at the first backslash.
fn cut_backslash(part: &str) -> Option<(&str, &str)>
    ensures cut { MatchOption result (unescaped part.now ≡ part.now)
        (λ p. (unescaped part.now ≡ p.0.now ++ unescaped (92 ∷ p.1.now)) × (length p.1.now < length part.now)) }
    ensures plain { MatchOption result (spec.bad_escape part.now ≡ None) (λ p. Unit {0}) }
{
    part.split_once('\\')
}

/// Whether a part stands for itself, since it has no backslash.
pub(crate) fn is_plain(part: &str) -> bool
    ensures whole { OnTrue result (unescaped part.now ≡ part.now) }
    ensures good { OnTrue result (spec.bad_escape part.now ≡ None) }
    ensures none { OnTrue result (spec.has_backslash part.now ≡ false) }
    ensures other { result ≡ false → spec.has_backslash part.now ≡ true }
{
    lacks_backslash(part.as_bytes())
}

/// Whether a part stands for itself, where it may be known that it has no backslash.
pub(crate) fn is_plain_part(is_known: bool, part: &str) -> bool
    requires { is_known ≡ true → spec.has_backslash part.now ≡ false }
    ensures whole { OnTrue result (unescaped part.now ≡ part.now) }
    ensures other { result ≡ false → spec.has_backslash part.now ≡ true }
{
    is_known || is_plain(part)
}

/// What stands behind a backslash: the byte that the two stand for, and the text after them.
/// A backslash that begins no escape stands for itself.
fn after_backslash(text: &str) -> (u8, &str)
    ensures meaning { unescaped (92 ∷ text.now) ≡ result.0 ∷ unescaped result.1.now }
    ensures ascii { result.0 < 128 }
    ensures length { length result.1.now ≤ length text.now }
{
    if let Some(rest) = text.strip_prefix('0') {
        return (0, rest);
    }
    if let Some(rest) = text.strip_prefix('t') {
        return (9, rest);
    }
    if let Some(rest) = text.strip_prefix('n') {
        return (10, rest);
    }
    if let Some(rest) = text.strip_prefix('\\') {
        return (92, rest);
    }
    (92, text)
}

/// Cuts at the first backslash, which stands for itself where it begins no escape.
fn cut_escape(part: &str) -> Option<Cut<'_>>
    ensures { MatchOption result (unescaped part.now ≡ part.now)
        (λ cut. (unescaped part.now ≡ cut.before.now ++ (cut.byte ∷ unescaped cut.after.now))
        × (cut.byte < 128) × (length cut.after.now < length part.now)) }
{
    let (before, rest) = cut_backslash(part)?;
    let (byte, after) = after_backslash(rest);
    Some(Cut {
        before,
        byte,
        after,
    })
}

/// The text that a part stands for.
pub fn unescape(alloc: Global, part: &str) -> Result<String, NoMemory>
    ensures { IfOk result (λ text. string_bytes text ≡ unescaped part.now) }
{
    if is_plain(part) {
        return Ok(String::from_str(alloc, part)?);
    }
    let mut text = String::with_capacity(alloc, part.len())?;
    let mut rest = part;
    'escapes: while let Some(cut) = cut_escape(rest) {
        text.push_str(cut.before)?;
        text.push(char::from(cut.byte))?;
        rest = cut.after;
    }
    text.push_str(rest)?;
    Ok(text)
}

/// Whether a part writes the byte by an escape.
fn is_special(byte: u8) -> bool
    ensures { result ≡ spec.is_special byte }
{
    matches!(byte, 0 | 9 | 10 | 92)
}

/// Whether a part writes a byte of a text by an escape. It goes on behind one, so that a processor looks at many bytes at once.
fn has_special(text: &[u8]) -> bool
    ensures { result ≡ fold (λ b byte. b || spec.is_special byte) false text.now }
{
    text.iter()
        .fold(false, |special, byte| special | is_special(*byte))
}

/// The place of the first byte that a part writes by an escape.
fn first_special(text: &str) -> Option<usize>
    ensures { result ≡ position spec.is_special text.now }
{
    text.as_bytes().iter().position(|byte| is_special(*byte))
}

/// The escape of a byte.
fn escape_of(byte: u8) -> &'static str
    requires { IsTrue (spec.is_special byte) }
    ensures { result.now ≡ escaped_byte byte }
{
    match byte {
        0 => "\\0",
        9 => "\\t",
        10 => "\\n",
        _ => "\\\\",
    }
}

/// Cuts at the first byte that a part writes by an escape.
fn cut_special(text: &str) -> Option<Cut<'_>>
    ensures { MatchOption result (escaped text.now ≡ text.now)
        (λ cut. (escaped text.now ≡ cut.before.now ++ (escaped_byte cut.byte ++ escaped cut.after.now))
        × IsTrue (spec.is_special cut.byte) × (length cut.after.now < length text.now)) }
{
    let at = first_special(text)?;
    let byte = text.as_bytes()[at];
    let (before, _) = text.split_at(at);
    let (_, after) = text.split_at(at + 1);
    Some(Cut {
        before,
        byte,
        after,
    })
}

/// Puts a text at the end of a line, as a part writes it. After `NoMemory` the line may have got a part of it.
#[tactic(auto, using(crate::proofs::EscapeLemmas::whole_folded))]
pub fn push_escaped(line: &mut String, text: &str) -> Result<(), NoMemory>
    ensures line { OnOk result (string_bytes line.new ≡ string_bytes line.old ++ escaped text.now) }
    ensures front { OnErr result (spec.BeginsWith (string_bytes line.old) (string_bytes line.new)) }
{
    if !has_special(text.as_bytes()) {
        line.push_str(text)?;
        return Ok(());
    }
    push_specials(line, text)
}

/// The same, where there may well be bytes that are written by an escape.
fn push_specials(line: &mut String, text: &str) -> Result<(), NoMemory>
    ensures line { OnOk result (string_bytes line.new ≡ string_bytes line.old ++ escaped text.now) }
    ensures front { OnErr result (spec.BeginsWith (string_bytes line.old) (string_bytes line.new)) }
{
    let mut rest = text;
    'specials: while let Some(cut) = cut_special(rest) {
        line.push_str(cut.before)?;
        line.push_str(escape_of(cut.byte))?;
        rest = cut.after;
    }
    line.push_str(rest)?;
    Ok(())
}

/// Puts a name of a field at the end of a line, as a part writes it. No byte of a name but a backslash is written by an escape.
#[tactic(auto, using(crate::proofs::EscapeLemmas::whole_name))]
pub(crate) fn push_name(line: &mut String, name: &str) -> Result<(), NoMemory>
    requires { IsName name.now }
    ensures line { OnOk result (string_bytes line.new ≡ string_bytes line.old ++ escaped name.now) }
    ensures front { OnErr result (spec.BeginsWith (string_bytes line.old) (string_bytes line.new)) }
{
    if is_plain(name) {
        line.push_str(name)?;
        return Ok(());
    }
    push_specials(line, name)
}
