//! Edits of groups and of their categories.
ghost use Rattle.std.specs.Prelude.{◌≡◌, ◌++◌, ◌∷◌, [], map as list_map, OnOk, IfOk, IfErr, Ok};
ghost use Rattle.book_edits.specs.Faults.{IsEditFault};
ghost use Rattle.book_edits.specs.Checks.{new_row};
ghost use Rattle.book_edits.specs.Categories.{is_group, is_category, is_live_in, categories_of, group_add, group_rename, category_deletion, group_deletion, group_delete, placed_in, category_add, category_rename, category_move, category_delete};

use crate::checks::{is_live_row, live_category, live_group, takes_income};
use crate::given::{given_row, is_text};
use crate::names::{free_beside, free_category_name, free_group_name, free_in};
use crate::writing::{flag, one, push, text};
use book_rows::{Book, CategoryRow, EditFault, RowName, Write};
use field_values::{NoMemory, Txt};
use std::alloc::Global;

/// The row of a new group.
fn new_group(book: &Book, id: &Option<Txt>) -> Result<RowName, EditFault>
    ensures ok { IfOk result (λ row. new_row (is_group book.now.rows) id.now ≡ Ok row) }
    ensures err { IfErr result (IsEditFault (new_row (is_group book.now.rows) id.now)) }
{
    match id {
        Some(id) => given_row(book.group(id).is_some(), id),
        None => Ok(RowName::Made(0)),
    }
}

/// The row of a new category.
fn new_category(book: &Book, id: &Option<Txt>) -> Result<RowName, EditFault>
    ensures ok { IfOk result (λ row. new_row (is_category book.now.rows) id.now ≡ Ok row) }
    ensures err { IfErr result (IsEditFault (new_row (is_category book.now.rows) id.now)) }
{
    match id {
        Some(id) => given_row(book.category(id).is_some(), id),
        None => Ok(RowName::Made(0)),
    }
}

/// Adds a group.
pub(crate) fn group_add(
    alloc: Global,
    book: &Book,
    id: &Option<Txt>,
    name: &Txt,
    income: bool,
) -> Result<Vec<Write>, EditFault>
    ensures ok { IfOk result (λ ws. group_add book.now.rows id.now name.now income ≡ Ok ws.items) }
    ensures err { IfErr result (IsEditFault (group_add book.now.rows id.now name.now income)) }
{
    let row = new_group(book, id)?;
    free_group_name(book, name)?;
    let mut writes = Vec::new(alloc);
    let name = text(name)?;
    push(alloc, &mut writes, "category_groups", &row, "name", name)?;
    let income = flag(income);
    push(
        alloc,
        &mut writes,
        "category_groups",
        &row,
        "is_income",
        income,
    )?;
    Ok(writes)
}

/// Calls a group by another name.
pub(crate) fn group_rename(
    alloc: Global,
    book: &Book,
    id: &Txt,
    name: &Txt,
) -> Result<Vec<Write>, EditFault>
    ensures ok { IfOk result (λ ws. group_rename book.now.rows id.now name.now ≡ Ok ws.items) }
    ensures err { IfErr result (IsEditFault (group_rename book.now.rows id.now name.now)) }
{
    live_group(book, id)?;
    free_group_name(book, name)?;
    Ok(one(alloc, "category_groups", id, "name", text(name)?)?)
}

/// Puts the write that deletes a category behind others.
pub(crate) fn push_deletion(
    alloc: Global,
    writes: &mut Vec<Write>,
    id: &Txt,
) -> Result<(), NoMemory>
    ensures { OnOk result (writes.new.items ≡ writes.old.items ++ category_deletion id.now ∷ []) }
{
    let row = RowName::Given(id.copy()?);
    push(alloc, writes, "categories", &row, "tombstone", flag(true))
}

/// Whether a category is live and of the group.
fn is_live_in(book: &Book, group: &Txt, row: &CategoryRow) -> bool
    ensures { result ≡ is_live_in book.now.rows group.now row.now }
{
    is_live_row(book, row) && is_text(group, &row.cat_group)
}

/// The writes that delete the live categories of a group, in the order of their ids.
fn deletions(alloc: Global, book: &Book, group: &Txt) -> Result<Vec<Write>, NoMemory>
    ensures { IfOk result (λ ws. ws.items ≡ list_map category_deletion (categories_of book.now.rows group.now)) }
{
    let mut writes = Vec::new(alloc);
    for (id, row) in book.categories() {
        if is_live_in(book, group, row) {
            push_deletion(alloc, &mut writes, id)?;
        }
    }
    Ok(writes)
}

/// Puts the write that deletes a group behind others.
fn push_group_deletion(alloc: Global, writes: &mut Vec<Write>, id: &Txt) -> Result<(), NoMemory>
    ensures { OnOk result (writes.new.items ≡ writes.old.items ++ group_deletion id.now ∷ []) }
{
    let row = RowName::Given(id.copy()?);
    let deleted = flag(true);
    push(alloc, writes, "category_groups", &row, "tombstone", deleted)
}

/// Deletes a group with its live categories. It looks at all categories.
pub(crate) fn group_delete(alloc: Global, book: &Book, id: &Txt) -> Result<Vec<Write>, EditFault>
    ensures ok { IfOk result (λ ws. group_delete book.now.rows id.now ≡ Ok ws.items) }
    ensures err { IfErr result (IsEditFault (group_delete book.now.rows id.now)) }
{
    live_group(book, id)?;
    let mut writes = deletions(alloc, book, id)?;
    push_group_deletion(alloc, &mut writes, id)?;
    Ok(writes)
}

/// Puts the writes that place a category in a group behind others.
fn push_placed(
    alloc: Global,
    writes: &mut Vec<Write>,
    book: &Book,
    row: &RowName,
    group: &Txt,
) -> Result<(), NoMemory>
    ensures { OnOk result (writes.new.items ≡ writes.old.items ++ placed_in book.now.rows row.now group.now) }
{
    push(alloc, writes, "categories", row, "cat_group", text(group)?)?;
    let income = flag(takes_income(book, group));
    push(alloc, writes, "categories", row, "is_income", income)
}

/// Adds a category to a group.
pub(crate) fn category_add(
    alloc: Global,
    book: &Book,
    id: &Option<Txt>,
    group: &Txt,
    name: &Txt,
) -> Result<Vec<Write>, EditFault>
    ensures ok { IfOk result (λ ws. category_add book.now.rows id.now group.now name.now ≡ Ok ws.items) }
    ensures err { IfErr result (IsEditFault (category_add book.now.rows id.now group.now name.now)) }
{
    let row = new_category(book, id)?;
    live_group(book, group)?;
    free_category_name(book, group, name)?;
    let mut writes = Vec::new(alloc);
    push(alloc, &mut writes, "categories", &row, "name", text(name)?)?;
    push_placed(alloc, &mut writes, book, &row, group)?;
    Ok(writes)
}

/// Calls a category by another name.
pub(crate) fn category_rename(
    alloc: Global,
    book: &Book,
    id: &Txt,
    name: &Txt,
) -> Result<Vec<Write>, EditFault>
    ensures ok { IfOk result (λ ws. category_rename book.now.rows id.now name.now ≡ Ok ws.items) }
    ensures err { IfErr result (IsEditFault (category_rename book.now.rows id.now name.now)) }
{
    live_category(book, id)?;
    free_beside(book, id, name)?;
    Ok(one(alloc, "categories", id, "name", text(name)?)?)
}

/// Moves a category to a group.
pub(crate) fn category_move(
    alloc: Global,
    book: &Book,
    id: &Txt,
    group: &Txt,
) -> Result<Vec<Write>, EditFault>
    ensures ok { IfOk result (λ ws. category_move book.now.rows id.now group.now ≡ Ok ws.items) }
    ensures err { IfErr result (IsEditFault (category_move book.now.rows id.now group.now)) }
{
    live_category(book, id)?;
    live_group(book, group)?;
    free_in(book, id, group)?;
    let mut writes = Vec::new(alloc);
    let row = RowName::Given(id.copy()?);
    push_placed(alloc, &mut writes, book, &row, group)?;
    Ok(writes)
}

/// Deletes a category.
pub(crate) fn category_delete(alloc: Global, book: &Book, id: &Txt) -> Result<Vec<Write>, EditFault>
    ensures ok { IfOk result (λ ws. category_delete book.now.rows id.now ≡ Ok ws.items) }
    ensures err { IfErr result (IsEditFault (category_delete book.now.rows id.now)) }
{
    live_category(book, id)?;
    Ok(one(alloc, "categories", id, "tombstone", flag(true))?)
}
