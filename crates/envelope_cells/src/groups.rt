//! The live groups and categories, in the order of a sheet.
ghost use Rattle.std.specs.Prelude.{◌≡◌, List, [], ◌∷◌, ◌++◌, Option, OnOk, IfOk, if◌then◌else◌};
ghost use Rattle.std.specs.BTreeMap.{is_at};
ghost use Rattle.std.specs.FinMap as fin;
ghost use Rattle.finite_sums.specs.Maps.{Text, text_cmp};
ghost use Rattle.book_rows.specs.declared.rows.GroupRow.{GroupRow as GroupRowIs};
ghost use Rattle.book_rows.specs.declared.rows.CategoryRow.{CategoryRow as CategoryRowIs};
ghost use Rattle.envelope_cells.specs.declared.groups.Place.{Place as PlaceIs};
ghost use Rattle.envelope_cells.specs.Places.{placed, group_places, category_places, ids_of_group, members_of};
ghost use Rattle.envelope_cells.specs.BudgetOf.{groups_of};

use book_rows::{Book, CategoryRow, GroupRow, copied};
use field_values::{Items, NoMemory, Txt};
use std::alloc::Global;
use std::cmp::Ordering;
use std::collections::BTreeMap;

/// A live group, with its live categories in the order of the sheet.
#[derive(Debug, Drop)]
pub struct BudgetGroup {
    /// Its id.
    pub id: Txt,
    /// Whether its categories take income.
    pub is_income: bool,
    /// The ids of its categories.
    pub categories: Items<Txt>,
}

/// Where a group stands among groups, or a category among categories.
#[derive(Debug, Drop)]
pub struct Place {
    /// What the row says of its place.
    pub sort_order: i64,
    /// The id of the row.
    pub id: Txt,
}

impl PartialEq for Place {
    ghost use Rattle.std.specs.Ordering.{eq_by_cmp};
    ghost use Rattle.std.specs.Cmp.{partial_equiv_from_equiv, eq_by_cmp_equiv};
    ghost use Rattle.envelope_cells.specs.Places.{place_cmp, places_total};

    ghost eq = { eq_by_cmp place_cmp };

    ghost laws = { partial_equiv_from_equiv (eq_by_cmp_equiv places_total) };

    fn eq(&self, other: &Place) -> bool {
        self.cmp(other) == Ordering::Equal
    }
}

impl Eq for Place {
    ghost use Rattle.std.specs.Cmp.{eq_by_cmp_equiv};
    ghost use Rattle.envelope_cells.specs.Places.{places_total};

    ghost laws = { eq_by_cmp_equiv places_total };
}

impl PartialOrd for Place {
    ghost use Rattle.std.specs.Ordering.{as_partial_cmp};
    ghost use Rattle.std.specs.Cmp.{partial_order_from_total};
    ghost use Rattle.envelope_cells.specs.Places.{place_cmp, places_total};

    ghost partial_cmp = { as_partial_cmp place_cmp };

    ghost laws = { partial_order_from_total places_total };

    fn partial_cmp(&self, other: &Place) -> Option<Ordering> {
        Some(self.cmp(other))
    }
}

impl Ord for Place {
    ghost use Rattle.std.specs.Prelude.{refl};
    ghost use Rattle.envelope_cells.specs.Places.{place_cmp, places_total};

    ghost cmp = { place_cmp };

    ghost total = { places_total };

    ghost matches_partial_cmp = { λ x y. refl };

    ghost matches_eq = { λ x y. refl };

    fn cmp(&self, other: &Place) -> Ordering {
        self.sort_order
            .cmp(&other.sort_order)
            .then(self.id.cmp(&other.id))
    }
}

/// Puts a group in its place, if it was not deleted.
fn place_group(found: &mut BTreeMap<Place, bool>, id: &Txt, row: &GroupRow) -> Result<(), NoMemory>
    ensures { OnOk result ((rest : List (Text × GroupRowIs)) → placed (group_places rest) found.new.entries ≡ placed (group_places ((id.now, row.now) ∷ rest)) found.old.entries) }
{
    if row.tombstone {
        return Ok(());
    }
    let place = Place {
        sort_order: row.sort_order,
        id: id.copy()?,
    };
    found.insert(place, row.is_income)?;
    Ok(())
}

/// The groups that were not deleted, in order.
fn groups_in_place(alloc: Global, book: &Book) -> Result<BTreeMap<Place, bool>, NoMemory>
    ensures { IfOk result (λ found. found.entries ≡ placed (group_places (fin.entries book.now.rows.groups)) []) }
{
    let mut found = BTreeMap::new(alloc);
    for (id, row) in book.groups() {
        place_group(&mut found, id, row)?;
    }
    Ok(found)
}

/// Puts a category in its place, if it was not deleted.
fn place_category(
    found: &mut BTreeMap<Place, Option<Txt>>,
    id: &Txt,
    row: &CategoryRow,
) -> Result<(), NoMemory>
    ensures { OnOk result ((rest : List (Text × CategoryRowIs)) → placed (category_places rest) found.new.entries ≡ placed (category_places ((id.now, row.now) ∷ rest)) found.old.entries) }
{
    if row.tombstone {
        return Ok(());
    }
    let place = Place {
        sort_order: row.sort_order,
        id: id.copy()?,
    };
    found.insert(place, copied(&row.cat_group)?)?;
    Ok(())
}

/// The categories that were not deleted, in order, each with its group.
fn categories_in_place(alloc: Global, book: &Book) -> Result<BTreeMap<Place, Option<Txt>>, NoMemory>
    ensures { IfOk result (λ found. found.entries ≡ placed (category_places (fin.entries book.now.rows.categories)) []) }
{
    let mut found = BTreeMap::new(alloc);
    for (id, row) in book.categories() {
        place_category(&mut found, id, row)?;
    }
    Ok(found)
}

/// Puts a category behind those of its group.
fn enter(
    alloc: Global,
    members: &mut BTreeMap<Txt, Vec<Txt>>,
    group: Txt,
    id: Txt,
) -> Result<(), NoMemory>
    ensures { OnOk result ((g : Text) → members_of members.new g ≡ (if is_at (text_cmp group) g then members_of members.old g ++ id ∷ [] else members_of members.old g)) }
{
    if let Some(ids) = members.get_mut(&group) {
        ids.push(id)?;
        return Ok(());
    }
    let mut ids = Vec::new(alloc);
    ids.push(id)?;
    members.insert(group, ids)?;
    Ok(())
}

/// Puts a category behind those of its group, if it names one.
fn enter_place(
    alloc: Global,
    members: &mut BTreeMap<Txt, Vec<Txt>>,
    place: &Place,
    group: &Option<Txt>,
) -> Result<(), NoMemory>
    ensures { OnOk result ((rest : List (PlaceIs × Option Text)) (g : Text) → members_of members.new g ++ ids_of_group g rest ≡ members_of members.old g ++ ids_of_group g ((place.now, group.now) ∷ rest)) }
{
    match group {
        Some(group) => enter(alloc, members, group.copy()?, place.id.copy()?),
        None => Ok(()),
    }
}

/// The ids of the categories of each group, from one pass over the categories.
fn members_in(
    alloc: Global,
    categories: &BTreeMap<Place, Option<Txt>>,
) -> Result<BTreeMap<Txt, Vec<Txt>>, NoMemory>
    ensures { IfOk result (λ members. (g : Text) → members_of members g ≡ ids_of_group g categories.now.entries) }
{
    let mut members = BTreeMap::new(alloc);
    for (place, group) in categories {
        enter_place(alloc, &mut members, place, group)?;
    }
    Ok(members)
}

/// Copies of ids.
fn copies(alloc: Global, ids: &[Txt]) -> Result<Items<Txt>, NoMemory>
    ensures { IfOk result (λ v. v ≡ ids.now) }
{
    let mut copies = Vec::with_capacity(alloc, ids.len())?;
    for id in ids {
        copies.push(id.copy()?)?;
    }
    Ok(Items::new(copies))
}

/// The ids of the categories of a group.
fn ids_of(
    alloc: Global,
    members: &BTreeMap<Txt, Vec<Txt>>,
    group: &Txt,
) -> Result<Items<Txt>, NoMemory>
    ensures { IfOk result (λ ids. ids ≡ members_of members.now group.now) }
{
    match members.get(group) {
        Some(ids) => copies(alloc, ids.as_slice()),
        None => Ok(Items::new(Vec::new(alloc))),
    }
}

/// The live groups in their order, each with its live categories in theirs. It goes once over the groups and once over the
/// categories.
pub fn groups_of(alloc: Global, book: &Book) -> Result<Items<BudgetGroup>, NoMemory>
    ensures { IfOk result (λ groups. groups ≡ groups_of book.now.rows) }
{
    let categories = categories_in_place(alloc, book)?;
    let members = members_in(alloc, &categories)?;
    let places = groups_in_place(alloc, book)?;
    let mut groups = Vec::new(alloc);
    for (place, is_income) in &places {
        let group = BudgetGroup {
            id: place.id.copy()?,
            is_income: *is_income,
            categories: ids_of(alloc, &members, &place.id)?,
        };
        groups.push(group)?;
    }
    Ok(Items::new(groups))
}
