//! The answer of the line that asks what templates get.
ghost use Rattle.std.specs.Prelude.{◌≡◌, ◌++◌, ◌∷◌, false, OnOk, IfOk, map, string_bytes};
ghost use Rattle.std.specs.Fmt.{signed_decimal};
ghost use Rattle.goal_templates.specs.Grammar.{template_text};
ghost use Rattle.command_lines.specs.BookAnswers.{share_text, bad_text, goals_answer};

use crate::refusal::bad_month;
use crate::reply::Reply;
use book_rows::{Book, is_month};
use field_values::{Items, NoMemory, Txt};
use goal_templates::{BadLine, Share, Template, allocate, bad_lines, write_template};
use itoa::Buffer;
use std::alloc::Global;

/// Puts a TAB and a template behind a text.
fn push_template(alloc: Global, text: &mut String, template: &Template) -> Result<(), NoMemory>
    ensures { OnOk result (string_bytes text.new ≡ string_bytes text.old ++ 9 ∷ template_text template.now) }
{
    let template = write_template(alloc, template)?;
    text.push('\t')?;
    text.push_str(template.as_str())?;
    Ok(())
}

/// Puts a TAB and an amount behind a text.
fn push_amount(text: &mut String, amount: i128) -> Result<(), NoMemory>
    ensures { OnOk result (string_bytes text.new ≡ string_bytes text.old ++ 9 ∷ signed_decimal amount) }
{
    let mut buffer = Buffer::new();
    text.push('\t')?;
    text.push_str(buffer.format(amount))?;
    Ok(())
}

/// The line of a share: its category, its template, what this wants and what it is given, with a TAB between them.
fn share_line(alloc: Global, share: &Share) -> Result<Txt, NoMemory>
    ensures { IfOk result (λ t. t ≡ share_text share.now) }
{
    let mut text = String::new(alloc);
    text.push_str(share.category.as_str())?;
    push_template(alloc, &mut text, &share.template)?;
    push_amount(&mut text, share.want)?;
    push_amount(&mut text, share.given)?;
    Ok(Txt::new(text))
}

/// The line of a bad line: its category, and its number in the note.
fn bad_line(alloc: Global, bad: &BadLine) -> Result<Txt, NoMemory>
    ensures { IfOk result (λ t. t ≡ bad_text bad.now) }
{
    let category = bad.category.as_str();
    let number = bad.number;
    let text = format!(in alloc; "bad {category} {number}")?;
    Ok(Txt::new(text))
}

/// Puts the lines of shares behind others.
fn push_shares(alloc: Global, lines: &mut Vec<Txt>, shares: &[Share]) -> Result<(), NoMemory>
    ensures { OnOk result (lines.new.items ≡ lines.old.items ++ map share_text shares.now) }
{
    for share in shares {
        lines.push(share_line(alloc, share)?)?;
    }
    Ok(())
}

/// Puts the lines of bad lines behind others.
fn push_bad(alloc: Global, lines: &mut Vec<Txt>, bad: &[BadLine]) -> Result<(), NoMemory>
    ensures { OnOk result (lines.new.items ≡ lines.old.items ++ map bad_text bad.now) }
{
    for line in bad {
        lines.push(bad_line(alloc, line)?)?;
    }
    Ok(())
}

/// The lines of shares, and then those of bad lines.
fn lines_of(alloc: Global, shares: &[Share], bad: &[BadLine]) -> Result<Items<Txt>, NoMemory>
    ensures { IfOk result (λ lines. lines ≡ map share_text shares.now ++ map bad_text bad.now) }
{
    let mut lines = Vec::new(alloc);
    push_shares(alloc, &mut lines, shares)?;
    push_bad(alloc, &mut lines, bad)?;
    Ok(Items::new(lines))
}

/// The reply to `goals`: the shares of a month, in the order in which they are given, and then the bad lines of notes.
pub(crate) fn goals_reply(alloc: Global, book: &Book, month: u32) -> Result<Reply, NoMemory>
    requires live { book.now.spent ≡ false }
    ensures { IfOk result (λ r. r ≡ goals_answer book.now.rows month) }
{
    if !is_month(month) {
        return bad_month(alloc, month);
    }
    let shares = allocate(alloc, book, month)?;
    let bad = bad_lines(alloc, book)?;
    let lines = lines_of(alloc, shares.as_slice(), bad.as_slice())?;
    Ok(Reply::Done { lines })
}
