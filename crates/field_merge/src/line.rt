//! The line of a message, read and written.
ghost use Rattle.std.specs.Prelude.{◌≡◌, ◌≢◌, ◌==◌, ◌≤◌, ◌∷◌, ◌++◌, [], length, count_by, IfOk, IfErr, OnErr, OnOk, MatchOption, MatchResult, IsUtf8, Ok, Err, Some, None, true, false, string_bytes};
ghost use Rattle.field_values.specs.Names.{field_of, names_fault, AreNames, IsName};
ghost use Rattle.field_values.specs.Value.{value_of, value_text, HoldsNumber, IsValue};
ghost use Rattle.field_values.specs.declared.value.Value.TheVariants.{Number};
ghost use Rattle.hybrid_clock.specs.Stamp.{stamp_text, IsStamp};
ghost use Rattle.hybrid_clock.specs.Reading.{read_stamp};
ghost use Rattle.field_merge.specs.Escapes as spec;
ghost use Rattle.field_merge.specs.Escapes.{escaped, unescaped, has_backslash, BeginsWith};
ghost use Rattle.std.specs.Result.{is_ok};
ghost use Rattle.field_merge.specs.Escapes.{ArePlain};
ghost use Rattle.field_merge.specs.Lines.{reading, parts, of_parts, IsLineFault, TakesMemory};
ghost use Rattle.field_merge.specs.Messages.{IsMessage, line_of_texts, message_line, message_body};
ghost use Rattle.field_merge.specs.declared.line.LineFault.TheVariants.{NoMemory as OutOfMemory};

use crate::arrival::Arrival;
use crate::escape::{bad_escape, is_plain, is_plain_part, push_escaped, push_name, unescape};
use crate::message::Message;
use field_values::{Field, NameFault, NoMemory, Txt, Value};
use hybrid_clock::{Stamp, StampFault};
use itoa::Buffer;
use memchr::memchr;
use std::alloc::Global;
use std::str;

/// Room for most lines.
const ROOM: usize = 160;

/// Why a line is refused. The causes are tested in this order, over the whole line each.
#[derive(Clone, Copy, Debug, PartialEq, Eq)]
pub enum LineFault {
    /// The line has another number of parts between TABs than five.
    Columns { found: usize },
    /// A backslash that none of `0`, `t`, `n` and a backslash follows within its part, the first
    /// one: `at` counts the bytes of the line before it.
    Escape { at: usize },
    /// The first part is no timestamp.
    Stamp(StampFault),
    /// The second, third or fourth part is no name.
    Name(NameFault),
    /// Memory ran out.
    NoMemory,
}

impl From<NoMemory> for LineFault {
    ghost from_gives = { λ _ e. e ≡ OutOfMemory };

    fn from(_e: NoMemory) -> LineFault {
        LineFault::NoMemory
    }
}

/// The five parts of a line, still with their escapes.
#[derive(Drop)]
pub(crate) struct Parts<'a> {
    pub stamp: &'a str,
    pub dataset: &'a str,
    pub row: &'a str,
    pub column: &'a str,
    pub value: &'a str,
}

/// A line that has five parts and no bad escape.
#[derive(Drop)]
pub(crate) struct CutLine<'a> {
    pub parts: Parts<'a>,
    /// Where it is set, the line has no backslash.
    pub is_plain: bool,
}

/// Cuts a line at its first TAB, which belongs to neither side: before it stands the first part, and
/// behind it the line of the others. A line without a TAB is one part.
pub fn cut_part(line: &str) -> Option<(&str, &str)>
    ensures { MatchOption result (parts line.now ≡ line.now ∷ []) (λ p. parts line.now ≡ p.0.now ∷ parts p.1.now) }
{
    let at = memchr(b'\t', line.as_bytes())?;
    let (part, _) = line.split_at(at);
    let (_, rest) = line.split_at(at + 1);
    Some((part, rest))
}

/// The parts of a line that has five.
fn five_parts(line: &str) -> Option<Parts<'_>>
    ensures { MatchOption result (length (parts line.now) ≢ 5) (λ p. parts line.now
        ≡ p.stamp.now ∷ p.dataset.now ∷ p.row.now ∷ p.column.now ∷ p.value.now ∷ []) }
{
    let (stamp, rest) = cut_part(line)?;
    let (dataset, rest) = cut_part(rest)?;
    let (row, rest) = cut_part(rest)?;
    let (column, value) = cut_part(rest)?;
    match cut_part(value) {
        Some(_) => None,
        None => Some(Parts {
            stamp,
            dataset,
            row,
            column,
            value,
        }),
    }
}

fn count_tabs(line: &[u8]) -> usize
    ensures count { result ≡ count_by (λ b. b == 9) line.now }
    ensures bound { result ≤ length line.now }
{
    line.iter().filter(|byte| **byte == 9).count()
}

/// How many parts a line has.
#[tactic(auto, using(crate::proofs::LineLemmas::length_of_parts))]
fn count_parts(line: &[u8]) -> usize
    ensures { result ≡ length (parts line.now) }
{
    count_tabs(line) + 1
}

/// The timestamp that a part stands for. `is_plain` is that the line is known to have no backslash.
fn stamp_in(
    alloc: Global,
    part: &str,
    is_plain: bool,
) -> Result<Result<Stamp, StampFault>, NoMemory>
    requires { is_plain ≡ true → has_backslash part.now ≡ false }
    ensures reading { IfOk result (λ read. read ≡ read_stamp (unescaped part.now)) }
    ensures valid { IfOk result (λ read. IfOk read IsStamp) }
    ensures memory { OnErr result (has_backslash part.now ≡ true) }
{
    if is_plain_part(is_plain, part) {
        return Ok(Stamp::parse(part.as_bytes()));
    }
    let text = unescape(alloc, part)?;
    Ok(Stamp::parse(text.as_bytes()))
}

/// The field of three names.
fn field_of_names(
    alloc: Global,
    dataset: &str,
    row: &str,
    column: &str,
) -> Result<Result<Field, NameFault>, NoMemory>
    ensures reading { let names = field_of dataset.now row.now column.now in
        IfOk result (λ read. MatchResult read
        (λ field. (field ≡ names) × AreNames names × (names_fault names ≡ None))
        (λ fault. names_fault names ≡ Some fault)) }
    ensures memory { OnErr result (names_fault (field_of dataset.now row.now column.now) ≡ None) }
{
    match Field::make(alloc, dataset, row, column) {
        Ok(field) => Ok(Ok(field)),
        Err(NameFault::NoMemory) => Err(NoMemory),
        Err(fault) => Ok(Err(fault)),
    }
}

/// The field that three parts stand for. Where none has a backslash they are not copied first.
fn field_in(
    alloc: Global,
    parts: &Parts<'_>,
    is_plain: bool,
) -> Result<Result<Field, NameFault>, NoMemory>
    requires dataset { is_plain ≡ true → has_backslash parts.now.dataset.now ≡ false }
    requires row { is_plain ≡ true → has_backslash parts.now.row.now ≡ false }
    requires column { is_plain ≡ true → has_backslash parts.now.column.now ≡ false }
    ensures reading { let names = field_of (unescaped parts.now.dataset.now) (unescaped parts.now.row.now) (unescaped parts.now.column.now) in
        IfOk result (λ read. MatchResult read
        (λ field. (field ≡ names) × AreNames names × (names_fault names ≡ None))
        (λ fault. names_fault names ≡ Some fault)) }
    ensures memory { OnErr result (has_backslash parts.now.dataset.now ≡ false → has_backslash parts.now.row.now ≡ false → has_backslash parts.now.column.now ≡ false
        → names_fault (field_of (unescaped parts.now.dataset.now) (unescaped parts.now.row.now) (unescaped parts.now.column.now)) ≡ None) }
{
    if is_plain_part(is_plain, parts.dataset)
        && is_plain_part(is_plain, parts.row)
        && is_plain_part(is_plain, parts.column)
    {
        return field_of_names(alloc, parts.dataset, parts.row, parts.column);
    }
    let dataset = unescape(alloc, parts.dataset)?;
    let row = unescape(alloc, parts.row)?;
    let column = unescape(alloc, parts.column)?;
    field_of_names(alloc, dataset.as_str(), row.as_str(), column.as_str())
}

/// The value that a part stands for.
fn value_in(alloc: Global, part: &str, is_plain: bool) -> Result<Value, NoMemory>
    requires { is_plain ≡ true → has_backslash part.now ≡ false }
    ensures value { IfOk result (λ v. v ≡ value_of (unescaped part.now)) }
    ensures valid { IfOk result IsValue }
{
    if is_plain_part(is_plain, part) {
        return Value::read(alloc, part);
    }
    let text = unescape(alloc, part)?;
    Value::read(alloc, text.as_str())
}

/// The message that five parts stand for.
#[tactic(auto, using(crate::proofs::LineLemmas::reads_well))]
pub(crate) fn message_in(
    alloc: Global,
    parts: &Parts<'_>,
    is_plain: bool,
) -> Result<Message, LineFault>
    requires { is_plain ≡ true → ArePlain parts.now.stamp.now parts.now.dataset.now parts.now.row.now parts.now.column.now parts.now.value.now }
    ensures ok { IfOk result (λ m. of_parts (parts.now.stamp.now ∷ parts.now.dataset.now ∷ parts.now.row.now
        ∷ parts.now.column.now ∷ parts.now.value.now ∷ []) None ≡ Ok m) }
    ensures valid { IfOk result IsMessage }
    ensures err { IfErr result (IsLineFault (of_parts (parts.now.stamp.now ∷ parts.now.dataset.now ∷ parts.now.row.now
        ∷ parts.now.column.now ∷ parts.now.value.now ∷ []) None)) }
    ensures memory { IfErr result (λ fault. fault ≡ OutOfMemory → ArePlain parts.now.stamp.now parts.now.dataset.now parts.now.row.now parts.now.column.now parts.now.value.now
        → is_ok (of_parts (parts.now.stamp.now ∷ parts.now.dataset.now ∷ parts.now.row.now ∷ parts.now.column.now ∷ parts.now.value.now ∷ []) None) ≡ true) }
{
    let stamp = match stamp_in(alloc, parts.stamp, is_plain)? {
        Ok(stamp) => stamp,
        Err(fault) => return Err(LineFault::Stamp(fault)),
    };
    let field = match field_in(alloc, parts, is_plain)? {
        Ok(field) => field,
        Err(fault) => return Err(LineFault::Name(fault)),
    };
    let value = value_in(alloc, parts.value, is_plain)?;
    Ok(Message {
        stamp,
        field,
        value,
    })
}

/// The place of the first bad escape of a line, where it may be known that there is none.
fn bad_escape_in(line: &str, is_plain: bool) -> Option<usize>
    requires { is_plain ≡ true → spec.bad_escape line.now ≡ None }
    ensures { result ≡ spec.bad_escape line.now }
{
    if is_plain {
        None
    } else {
        bad_escape(line.as_bytes())
    }
}

/// Cuts a line, where it has five parts and no bad escape.
#[tactic(auto, using(crate::proofs::LineLemmas::reading_of_others))]
pub(crate) fn cut_line(line: &str) -> Result<CutLine<'_>, LineFault>
    ensures cut { IfOk result (λ cut. parts line.now ≡ cut.parts.stamp.now ∷ cut.parts.dataset.now ∷ cut.parts.row.now
        ∷ cut.parts.column.now ∷ cut.parts.value.now ∷ []) }
    ensures good { OnOk result (spec.bad_escape line.now ≡ None) }
    ensures plain { IfOk result (λ cut. cut.is_plain ≡ true → has_backslash line.now ≡ false) }
    ensures bad { IfErr result (λ fault. reading line.now ≡ Err fault) }
    ensures memory { IfErr result (λ fault. fault ≢ OutOfMemory) }
{
    let Some(parts) = five_parts(line) else {
        return Err(LineFault::Columns {
            found: count_parts(line.as_bytes()),
        });
    };
    let is_plain = is_plain(line);
    if let Some(at) = bad_escape_in(line, is_plain) {
        return Err(LineFault::Escape { at });
    }
    Ok(CutLine { parts, is_plain })
}

/// The message of a line. The line stands without its end: a LF in it is read as any other byte.
pub fn read_line(alloc: Global, line: &Txt) -> Result<Message, LineFault>
    ensures ok { IfOk result (λ m. reading line.now ≡ Ok m) }
    ensures valid { IfOk result IsMessage }
    ensures err { IfErr result (IsLineFault (reading line.now)) }
    ensures memory { IfErr result (λ fault. fault ≡ OutOfMemory → TakesMemory line.now) }
{
    let cut = cut_line(line.as_str())?;
    message_in(alloc, &cut.parts, cut.is_plain)
}

/// Bytes that are UTF-8, as a text.
fn text_of(bytes: &[u8]) -> &str
    requires { IsUtf8 bytes.now }
    ensures { result.now ≡ bytes.now }
{
    str::from_utf8(bytes).unwrap()
}

/// Puts the text of a timestamp at the end of a line. No byte of it needs an escape.
#[tactic(auto, using(crate::proofs::StampLemmas::stamp_text_escaped, crate::proofs::StampLemmas::stamp_text_utf8))]
fn push_stamp(line: &mut String, stamp: &Stamp) -> Result<(), NoMemory>
    requires { IsStamp stamp.now }
    ensures line { OnOk result (string_bytes line.new ≡ string_bytes line.old ++ escaped (stamp_text stamp.now)) }
    ensures front { OnErr result (BeginsWith (string_bytes line.old) (string_bytes line.new)) }
{
    let mut text = [0u8; 46];
    stamp.write_text(&mut text);
    line.push_str(text_of(&text))?;
    Ok(())
}

/// Puts a TAB and an escaped name at the end of a line.
fn push_part(line: &mut String, name: &str) -> Result<(), NoMemory>
    requires { IsName name.now }
    ensures line { OnOk result (string_bytes line.new ≡ string_bytes line.old ++ 9 ∷ escaped name.now) }
    ensures front { OnErr result (BeginsWith (string_bytes line.old) (string_bytes line.new)) }
{
    line.push('\t')?;
    push_name(line, name)
}

/// Puts the text of a number at the end of a line. No byte of it needs an escape.
#[tactic(auto, using(crate::proofs::StampLemmas::number_pushed))]
fn push_number(line: &mut String, number: i64) -> Result<(), NoMemory>
    requires { HoldsNumber number }
    ensures line { OnOk result (string_bytes line.new ≡ string_bytes line.old ++ escaped (value_text (Number number))) }
    ensures front { OnErr result (BeginsWith (string_bytes line.old) (string_bytes line.new)) }
{
    let mut digits = Buffer::new();
    line.push_str("N:")?;
    line.push_str(digits.format(number))?;
    Ok(())
}

/// Puts the text of a value at the end of a line, escaped.
fn push_value(line: &mut String, value: &Value) -> Result<(), NoMemory>
    requires { IsValue value.now }
    ensures line { OnOk result (string_bytes line.new ≡ string_bytes line.old ++ escaped (value_text value.now)) }
    ensures front { OnErr result (BeginsWith (string_bytes line.old) (string_bytes line.new)) }
{
    match value {
        Value::Null => {
            line.push_str("0:")?;
            Ok(())
        }
        Value::Number(number) => push_number(line, *number),
        Value::Text(text) => {
            line.push_str("S:")?;
            push_escaped(line, text.as_str())
        }
        Value::Other(text) => push_escaped(line, text.as_str()),
    }
}

/// Puts the names of a field and a value at the end of a line, each escaped, with a TAB between them.
#[tactic(auto, using(crate::proofs::LineLemmas::body_pushed))]
fn push_texts(
    line: &mut String,
    dataset: &str,
    row: &str,
    column: &str,
    value: &Value,
) -> Result<(), NoMemory>
    requires dataset { IsName dataset.now }
    requires row { IsName row.now }
    requires column { IsName column.now }
    requires value { IsValue value.now }
    ensures line { OnOk result (string_bytes line.new ≡ string_bytes line.old ++ line_of_texts (dataset.now ∷ row.now ∷ column.now ∷ value_text value.now ∷ [])) }
    ensures front { OnErr result (BeginsWith (string_bytes line.old) (string_bytes line.new)) }
{
    push_name(line, dataset)?;
    push_part(line, row)?;
    push_part(line, column)?;
    line.push('\t')?;
    push_value(line, value)
}

/// Puts a message's line without its timestamp at the end of a text: names and value, each escaped, with a TAB between them.
/// After `NoMemory` the text may have got a part of it.
pub fn push_body(line: &mut String, message: &Message) -> Result<(), NoMemory>
    requires { IsMessage message.now }
    ensures line { OnOk result (string_bytes line.new ≡ string_bytes line.old ++ message_body message.now) }
    ensures front { OnErr result (BeginsWith (string_bytes line.old) (string_bytes line.new)) }
{
    let field = &message.field;
    push_texts(
        line,
        field.dataset(),
        field.row(),
        field.column(),
        &message.value,
    )
}

/// Puts a message's line at the end of a text. After `NoMemory` the text may have got a part of it.
#[tactic(auto, using(crate::proofs::LineLemmas::line_pushed))]
pub(crate) fn push_line(line: &mut String, message: &Message) -> Result<(), NoMemory>
    requires { IsMessage message.now }
    ensures line { OnOk result (string_bytes line.new ≡ string_bytes line.old ++ message_line message.now) }
    ensures front { OnErr result (BeginsWith (string_bytes line.old) (string_bytes line.new)) }
{
    push_stamp(line, &message.stamp)?;
    line.push('\t')?;
    push_body(line, message)
}

/// Puts the line of a message that came at the end of a text.
#[tactic(auto, using(crate::proofs::LineLemmas::line_pushed))]
pub(crate) fn push_arrival(line: &mut String, arrival: &Arrival) -> Result<(), NoMemory>
    ensures line { OnOk result (string_bytes line.new ≡ string_bytes line.old ++ message_line arrival.now) }
{
    push_stamp(line, &arrival.stamp())?;
    line.push('\t')?;
    let names = arrival.names().texts();
    push_texts(
        line,
        names.dataset(),
        names.row(),
        names.column(),
        arrival.value(),
    )
}

/// The line of a message, without its end. It has no LF, and reads as the message again.
#[tactic(auto, using(crate::proofs::LineLemmas::reading_of_line))]
pub fn write_line(alloc: Global, message: &Message) -> Result<Txt, NoMemory>
    requires { IsMessage message.now }
    ensures line { IfOk result (λ t. t ≡ message_line message.now) }
    ensures reads_back { IfOk result (λ t. reading t ≡ Ok message.now) }
{
    let mut line = String::with_capacity(alloc, ROOM)?;
    push_line(&mut line, message)?;
    Ok(Txt::new(line))
}
