//! What the notes of categories ask for.
ghost use Rattle.std.specs.Prelude.{◌≡◌, ◌==◌, ◌+◌, ◌∷◌, [], ◌++◌, map as list_map, IfOk, OnOk};
ghost use Rattle.std.specs.List.{slice_split};
ghost use Rattle.goal_templates.specs.Reading.{template_of};
ghost use Rattle.goal_templates.specs.Notes.{note_lines, asked_by, asked_in, asked_for, bad_by, bad_from, bad_for, bad_lines};

use crate::reading::template_in;
use crate::share::{Asked, BadLine};
use crate::sides::ids_on;
use crate::template::TemplateFault;
use book_rows::Book;
use envelope_cells::groups_of;
use field_values::{Items, NoMemory, Txt};
use std::alloc::Global;

/// The lines of a text.
fn lines_of(alloc: Global, text: &str) -> Result<Vec<&str>, NoMemory>
    ensures { IfOk result (λ lines. list_map (λ x. x.now) lines.items ≡ slice_split (λ b. b == 10) text.now) }
{
    let lines = text.split('\n').collect(alloc)?;
    Ok(lines)
}

/// The lines of a category's note.
fn note_lines<'a>(alloc: Global, book: &'a Book, id: &Txt) -> Result<Vec<&'a str>, NoMemory>
    ensures { IfOk result (λ lines. list_map (λ x. x.now) lines.items ≡ note_lines book.now.rows id.now) }
{
    match book.note(id) {
        None => Ok(Vec::new(alloc)),
        Some(row) => match &row.note {
            None => Ok(Vec::new(alloc)),
            Some(note) => lines_of(alloc, note.as_str()),
        },
    }
}

/// Puts the template of a line behind others, if it has one.
fn push_asked(asked: &mut Vec<Asked>, id: &Txt, line: &str) -> Result<(), NoMemory>
    ensures { OnOk result (asked.new.items ≡ asked.old.items ++ asked_by id.now (template_of line.now)) }
{
    if let Ok(template) = template_in(line) {
        asked.push(Asked {
            category: id.copy()?,
            template,
        })?;
    }
    Ok(())
}

/// Puts the templates of lines behind others.
fn push_all(asked: &mut Vec<Asked>, id: &Txt, lines: &[&str]) -> Result<(), NoMemory>
    ensures { OnOk result (asked.new.items ≡ asked.old.items ++ asked_in id.now (list_map (λ x. x.now) lines.now)) }
{
    for line in lines {
        push_asked(asked, id, line)?;
    }
    Ok(())
}

/// Puts the templates of a category behind others.
fn push_category(
    alloc: Global,
    asked: &mut Vec<Asked>,
    book: &Book,
    id: &Txt,
) -> Result<(), NoMemory>
    ensures { OnOk result (asked.new.items ≡ asked.old.items ++ asked_in id.now (note_lines book.now.rows id.now)) }
{
    let lines = note_lines(alloc, book, id)?;
    push_all(asked, id, lines.as_slice())
}

/// The templates of categories.
pub(crate) fn asked_for(alloc: Global, book: &Book, ids: &[Txt]) -> Result<Vec<Asked>, NoMemory>
    ensures { IfOk result (λ asked. asked.items ≡ asked_for book.now.rows ids.now) }
{
    let mut asked = Vec::new(alloc);
    for id in ids {
        push_category(alloc, &mut asked, book, id)?;
    }
    Ok(asked)
}

/// Puts a line behind others, if it is bad.
fn push_bad(bad: &mut Vec<BadLine>, id: &Txt, number: usize, line: &str) -> Result<(), NoMemory>
    ensures { OnOk result (bad.new.items ≡ bad.old.items ++ bad_by id.now number (template_of line.now)) }
{
    if let Err(TemplateFault::Bad) = template_in(line) {
        bad.push(BadLine {
            category: id.copy()?,
            number,
        })?;
    }
    Ok(())
}

/// Puts the bad ones among lines behind others.
fn push_bad_lines(bad: &mut Vec<BadLine>, id: &Txt, lines: &[&str]) -> Result<(), NoMemory>
    ensures { OnOk result (bad.new.items ≡ bad.old.items ++ bad_from id.now 1 (list_map (λ x. x.now) lines.now)) }
{
    for (i, line) in lines.iter().enumerate() {
        push_bad(bad, id, i + 1, line)?;
    }
    Ok(())
}

/// Puts the bad lines of a category behind others.
fn push_bad_of(alloc: Global, bad: &mut Vec<BadLine>, book: &Book, id: &Txt) -> Result<(), NoMemory>
    ensures { OnOk result (bad.new.items ≡ bad.old.items ++ bad_from id.now 1 (note_lines book.now.rows id.now)) }
{
    let lines = note_lines(alloc, book, id)?;
    push_bad_lines(bad, id, lines.as_slice())
}

/// The bad lines of categories.
fn bad_for(alloc: Global, book: &Book, ids: &[Txt]) -> Result<Vec<BadLine>, NoMemory>
    ensures { IfOk result (λ bad. bad.items ≡ bad_for book.now.rows ids.now) }
{
    let mut bad = Vec::new(alloc);
    for id in ids {
        push_bad_of(alloc, &mut bad, book, id)?;
    }
    Ok(bad)
}

/// The lines that begin as templates and are none, in the notes of all live expense categories, in the order of the sheet. Such a
/// line asks for nothing.
pub fn bad_lines(alloc: Global, book: &Book) -> Result<Items<BadLine>, NoMemory>
    ensures { IfOk result (λ bad. bad ≡ bad_lines book.now.rows) }
{
    let groups = groups_of(alloc, book)?;
    let ids = ids_on(alloc, groups.as_slice(), false)?;
    let bad = bad_for(alloc, book, ids.as_slice())?;
    Ok(Items::new(bad))
}
