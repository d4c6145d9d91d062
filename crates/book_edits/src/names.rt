//! Names that have to be free: among groups, and among the categories of one group.
ghost use Rattle.std.specs.Prelude.{◌≡◌, OnOk, IfErr, Ok};
ghost use Rattle.book_edits.specs.Faults.{IsEditFault, if_there};
ghost use Rattle.book_edits.specs.Checks.{is_group_named, free_group_name, is_category_named, free_category_name, group_of, name_of};

use crate::checks::is_live_row;
use crate::given::is_text;
use book_rows::{Book, CategoryRow, EditFault, GroupRow};
use field_values::Txt;

/// Whether a live group has the name.
fn is_group_named(name: &Txt, row: &GroupRow) -> bool
    ensures { result ≡ is_group_named name.now row.now }
{
    !row.tombstone && is_text(name, &row.name)
}

/// A name that no live group has. It looks at all groups.
pub(crate) fn free_group_name(book: &Book, name: &Txt) -> Result<(), EditFault>
    ensures ok { OnOk result (free_group_name book.now.rows name.now ≡ Ok tt) }
    ensures err { IfErr result (IsEditFault (free_group_name book.now.rows name.now)) }
{
    for (id, row) in book.groups() {
        if is_group_named(name, row) {
            return Err(EditFault::NameTaken { id: id.copy()? });
        }
    }
    Ok(())
}

/// Whether a live category of the group has the name.
fn is_category_named(book: &Book, group: &Txt, name: &Txt, row: &CategoryRow) -> bool
    ensures { result ≡ is_category_named book.now.rows group.now name.now row.now }
{
    is_live_row(book, row) && is_text(group, &row.cat_group) && is_text(name, &row.name)
}

/// A name that no live category of the group has. It looks at all categories.
pub(crate) fn free_category_name(book: &Book, group: &Txt, name: &Txt) -> Result<(), EditFault>
    ensures ok { OnOk result (free_category_name book.now.rows group.now name.now ≡ Ok tt) }
    ensures err { IfErr result (IsEditFault (free_category_name book.now.rows group.now name.now)) }
{
    for (id, row) in book.categories() {
        if is_category_named(book, group, name, row) {
            return Err(EditFault::NameTaken { id: id.copy()? });
        }
    }
    Ok(())
}

/// A name that no live category has in the group of this one.
pub(crate) fn free_beside(book: &Book, id: &Txt, name: &Txt) -> Result<(), EditFault>
    ensures ok { OnOk result (if_there (λ group. free_category_name book.now.rows group name.now) (group_of book.now.rows id.now) ≡ Ok tt) }
    ensures err { IfErr result (IsEditFault (if_there (λ group. free_category_name book.now.rows group name.now) (group_of book.now.rows id.now))) }
{
    match book.category(id) {
        Some(row) => match &row.cat_group {
            Some(group) => free_category_name(book, group, name),
            None => Ok(()),
        },
        None => Ok(()),
    }
}

/// That no live category of the group has the name of this category, if it has one.
pub(crate) fn free_in(book: &Book, id: &Txt, group: &Txt) -> Result<(), EditFault>
    ensures ok { OnOk result (if_there (free_category_name book.now.rows group.now) (name_of book.now.rows id.now) ≡ Ok tt) }
    ensures err { IfErr result (IsEditFault (if_there (free_category_name book.now.rows group.now) (name_of book.now.rows id.now))) }
{
    match book.category(id) {
        Some(row) => match &row.name {
            Some(name) => free_category_name(book, group, name),
            None => Ok(()),
        },
        None => Ok(()),
    }
}
