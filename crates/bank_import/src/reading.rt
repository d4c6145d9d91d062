//! The entries of a statement.
ghost use Rattle.std.specs.Prelude.{◌≡◌, IfOk, IfErr, Ok, Err, map, min, unwrap_or, pos, IsUtf8};
ghost use Rattle.std.specs.List.{AllByRecursion};
ghost use Rattle.csv.specs.Reading.{AreRecords, default_config, strip_bom};
ghost use Rattle.csv.specs.Records.{AllText, fields_of};
ghost use Rattle.csv.specs.declared.parser.State.TheVariants as st;
ghost use Rattle.field_values.specs.Value.{HoldsNumber};
ghost use Rattle.book_edits.specs.Faults.{IsEditFault};
ghost use Rattle.rule_engine.specs.Days.{day_of_text};
ghost use Rattle.rule_engine.specs.Reading.{largest_place};
ghost use Rattle.bank_import.specs.Statement as said;
ghost use Rattle.bank_import.specs.Statement.{column_of, is_good, bad_from, or_none, text_in, columns_of, entry_of, bad_place, read_record, read_records, read_rows, rows_in, statement, HasNumbers};

use crate::amounts::amount_of_text;
use crate::entry::{Columns, Entry};
use book_rows::EditFault;
use csv::{ByteRecord, ReaderBuilder};
use field_values::{NoMemory, Txt, TxtFault};
use rule_engine::day_of_text;
use std::alloc::Global;

/// There was no memory for a record: nothing else keeps one from being read.
#[derive(Clone, Copy, Debug, PartialEq, Eq)]
struct Unread;

impl From<csv::Error> for Unread {
    fn from(_error: csv::Error) -> Unread {
        Unread
    }
}

/// Every record of a text, of any length, the header's among them.
fn read_all(alloc: Global, text: &[u8]) -> Result<Vec<ByteRecord>, Unread>
    ensures { IfOk result (λ v. AreRecords default_config st.StartRecord (strip_bom text.now) (map fields_of v.items)) }
{
    let reader = ReaderBuilder::new()
        .has_headers(false)
        .flexible(true)
        .from_reader(alloc, text);
    let mut rows = Vec::new(alloc);
    for row in reader.into_byte_records() {
        if rows.push(row?).is_err() {
            return Err(Unread);
        }
    }
    Ok(rows)
}

/// The records of a text, whose fields are texts.
fn rows_in(alloc: Global, text: &Txt) -> Result<Vec<ByteRecord>, NoMemory>
    ensures rows { IfOk result (λ v. map fields_of v.items ≡ rows_in text.now) }
    ensures texts { IfOk result (λ v. AllByRecursion AllText (map fields_of v.items)) }
{
    match read_all(alloc, text.bytes()) {
        Ok(rows) => Ok(rows),
        Err(_) => Err(NoMemory),
    }
}

/// A field, which is a text.
fn field_text(alloc: Global, field: &[u8]) -> Result<Txt, NoMemory>
    requires { IsUtf8 field.now }
    ensures { IfOk result (λ t. t ≡ field.now) }
{
    match Txt::make(alloc, field) {
        Ok(text) => Ok(text),
        Err(TxtFault::NoMemory) => Err(NoMemory),
        Err(TxtFault::NotUtf8 { at: _ }) => unreachable!(),
    }
}

/// The fields of a record.
fn fields(alloc: Global, row: &ByteRecord) -> Result<Vec<Txt>, NoMemory>
    requires { AllText (fields_of row.now) }
    ensures { IfOk result (λ v. v.items ≡ fields_of row.now) }
{
    let mut found = Vec::new(alloc);
    for i in 0..row.len() {
        if let Some(field) = row.get(i) {
            found.push(field_text(alloc, field)?)?;
        }
    }
    Ok(found)
}

/// The first column of a name.
fn column_of(header: &[Txt], name: &str) -> Option<usize>
    ensures { result ≡ column_of name.now header.now }
{
    for (i, field) in header.iter().enumerate() {
        if field.as_str() == name {
            return Some(i);
        }
    }
    None
}

/// Whether a field is good: it is a day or an amount, where it stands in such a column.
fn is_good(columns: &Columns, k: usize, field: &Txt) -> bool
    ensures { result ≡ is_good columns.now k field.now }
{
    (k != columns.date || day_of_text(field.as_str()).is_some())
        && (k != columns.amount || amount_of_text(field.bytes()).is_some())
}

/// The first column whose field is bad.
fn first_bad(columns: &Columns, fields: &[Txt]) -> Option<usize>
    ensures { result ≡ bad_from columns.now 0 fields.now }
{
    for (i, field) in fields.iter().enumerate() {
        if !is_good(columns, i, field) {
            return Some(i);
        }
    }
    None
}

/// A copy of a text, or none where it is empty.
fn or_none(text: &Txt) -> Result<Option<Txt>, NoMemory>
    ensures { IfOk result (λ t. t ≡ or_none text.now) }
{
    if text.bytes().is_empty() {
        return Ok(None);
    }
    Ok(Some(text.copy()?))
}

/// A copy of the text in a column, or none where it is empty or there is no such column.
fn text_in(column: Option<usize>, fields: &[Txt]) -> Result<Option<Txt>, NoMemory>
    ensures { IfOk result (λ t. t ≡ text_in column fields.now) }
{
    match column {
        None => Ok(None),
        Some(k) => {
            if k < fields.len() {
                or_none(&fields[k])
            } else {
                Ok(None)
            }
        }
    }
}

/// The day in a column.
#[tactic(auto, unfolding(rule_engine::specs::Days::day_of_text, rule_engine::specs::Days::has_form))]
fn day_in(k: usize, fields: &[Txt]) -> u32
    ensures day { result ≡ unwrap_or (day_of_text (said.field fields.now k)) 0 }
    ensures small { HoldsNumber (pos result) }
{
    if k < fields.len() {
        day_of_text(fields[k].as_str()).unwrap_or(0)
    } else {
        0
    }
}

/// The amount in a column.
#[tactic(auto, unfolding(crate::specs::Statement::amount_of_text))]
fn amount_in(k: usize, fields: &[Txt]) -> i64
    ensures amount { result ≡ unwrap_or (said.amount_of_text (said.field fields.now k)) (pos 0) }
    ensures small { HoldsNumber result }
{
    if k < fields.len() {
        match amount_of_text(fields[k].bytes()) {
            Some(amount) => amount,
            None => 0,
        }
    } else {
        0
    }
}

/// The entry of a record.
fn entry_of(columns: &Columns, fields: &[Txt]) -> Result<Entry, NoMemory>
    ensures entry { IfOk result (λ e. e ≡ entry_of columns.now fields.now) }
    ensures valid { IfOk result HasNumbers }
{
    Ok(Entry {
        date: day_in(columns.date, fields),
        amount: amount_in(columns.amount, fields),
        payee: text_in(columns.payee, fields)?,
        notes: text_in(columns.notes, fields)?,
        id: text_in(columns.id, fields)?,
    })
}

/// A row or a column, as a refusal tells it: one of more than 32 bits as the greatest number of 32 bits.
fn told(n: usize) -> u32
    ensures { result ≡ min n largest_place }
{
    match u32::try_from(n) {
        Ok(n) => n,
        Err(_) => u32::MAX,
    }
}

/// This place is bad.
fn bad_place(row: usize, column: usize) -> EditFault
    ensures { result ≡ bad_place row column }
{
    EditFault::BadStatement {
        row: told(row),
        column: told(column),
    }
}

/// The entry of a record, or its first bad place.
fn read_record(
    columns: &Columns,
    width: usize,
    row: usize,
    fields: &[Txt],
) -> Result<Entry, EditFault>
    ensures ok { IfOk result (λ e. read_record columns.now width row fields.now ≡ Ok e) }
    ensures valid { IfOk result HasNumbers }
    ensures err { IfErr result (IsEditFault (read_record columns.now width row fields.now)) }
{
    if fields.len() != width {
        return Err(bad_place(row, fields.len()));
    }
    if let Some(column) = first_bad(columns, fields) {
        return Err(bad_place(row, column));
    }
    Ok(entry_of(columns, fields)?)
}

/// The entries of records under the header.
fn read_records(
    alloc: Global,
    columns: &Columns,
    width: usize,
    rows: &[ByteRecord],
) -> Result<Vec<Entry>, EditFault>
    requires { AllByRecursion AllText (map fields_of rows.now) }
    ensures ok { IfOk result (λ v. read_records columns.now width 1 (map fields_of rows.now) ≡ Ok v.items) }
    ensures valid { IfOk result (λ v. AllByRecursion HasNumbers v.items) }
    ensures err { IfErr result (IsEditFault (read_records columns.now width 1 (map fields_of rows.now))) }
{
    let mut found = Vec::new(alloc);
    for (i, row) in rows.iter().enumerate() {
        let fields = fields(alloc, row)?;
        match read_record(columns, width, i + 1, fields.as_slice()) {
            Ok(entry) => found.push(entry)?,
            Err(fault) => return Err(fault),
        }
    }
    Ok(found)
}

/// In which columns the fields of records stand.
fn columns_of(header: &[Txt], date: usize, amount: usize) -> Columns
    ensures { result ≡ columns_of header.now date amount }
{
    Columns {
        date,
        amount,
        payee: column_of(header, "payee"),
        notes: column_of(header, "notes"),
        id: column_of(header, "id"),
    }
}

/// The entries of rows, the first of which is the header.
fn read_rows(alloc: Global, rows: &[ByteRecord]) -> Result<Vec<Entry>, EditFault>
    requires { AllByRecursion AllText (map fields_of rows.now) }
    ensures ok { IfOk result (λ v. read_rows (map fields_of rows.now) ≡ Ok v.items) }
    ensures valid { IfOk result (λ v. AllByRecursion HasNumbers v.items) }
    ensures err { IfErr result (IsEditFault (read_rows (map fields_of rows.now))) }
{
    match rows {
        [] => Err(bad_place(0, 0)),
        [header, rest @ ..] => {
            let header = fields(alloc, header)?;
            let width = header.len();
            let Some(date) = column_of(header.as_slice(), "date") else {
                return Err(bad_place(0, width));
            };
            let Some(amount) = column_of(header.as_slice(), "amount") else {
                return Err(bad_place(0, width));
            };
            let columns = columns_of(header.as_slice(), date, amount);
            read_records(alloc, &columns, width, rest)
        }
    }
}

/// The entries of a statement, in order. It is a CSV text: records end with CR, LF or both, fields stand apart by commas, and a
/// field in quotes may have each of these, and quotes that stand twice. A byte order mark in front is passed over, and so is an
/// empty line, which is no record. The first record is the header: it has to name the columns `date` and `amount`, and may name
/// `payee`, `notes` and `id`; of several columns of a name the first counts, and others are not read.
///
/// # Errors
///
/// [`EditFault::BadStatement`] tells the first bad place, records in order and fields from left to right. Row 0 is the header, and
/// the first column is 0. A header that lacks a column, or a record with more or fewer fields than the header, is told with the
/// number of its fields as the column; a text without a header at row 0, column 0. Memory can run out before.
#[tactic(auto, unfolding(crate::specs::Statement::statement))]
pub fn read_statement(alloc: Global, text: &Txt) -> Result<Vec<Entry>, EditFault>
    ensures ok { IfOk result (λ v. statement text.now ≡ Ok v.items) }
    ensures valid { IfOk result (λ v. AllByRecursion HasNumbers v.items) }
    ensures err { IfErr result (IsEditFault (statement text.now)) }
{
    let rows = rows_in(alloc, text)?;
    read_rows(alloc, rows.as_slice())
}
