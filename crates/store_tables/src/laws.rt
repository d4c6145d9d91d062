//! The laws.
ghost use Rattle.store_tables.specs.Texts.{Tables, Texts, made_tables, moved_tables, TextsOfAll, TextsOfMaking};
ghost use Rattle.store_tables.specs.Layout.{Layout};
ghost use Rattle.store_tables.specs.Grouped.{MakesGroups};
ghost use Rattle.store_tables.specs.Entered.{MakesEntries};
ghost use Rattle.store_tables.specs.Stored.{IsRead};
ghost use Rattle.store_tables.specs.Moving.{MakesTables, EmptiesItems};
ghost use Rattle.store_tables.specs.Since.{AsksSince, AsksGroup, AsksNobody};
ghost use Rattle.store_tables.specs.Copied.{AsksItems, CopiesAll, MovesContents};
ghost use Rattle.store_tables.specs.Named.{IsNamed, NamedTexts, named_first, named_made, named_moved, PutsTexts, AsksTexts, AsksNames};
ghost use Rattle.store_tables.specs.Known.{IsSecond, Known};
ghost use Rattle.sqlite_trees.specs.Tree.{Trees};

/// A law: each text means the same over the tables of a new store and over those of a store that was of version 1.
pub fn texts_are()
    ensures made { Texts made_tables }
    ensures moved { Texts moved_tables }
    ensures all { TextsOfAll }
    ensures making { TextsOfMaking }
{}

/// A law: both are laid out as the proofs need it.
pub fn tables_are_laid_out()
    ensures made { Layout made_tables }
    ensures moved { Layout moved_tables }
{}

/// A law: a group that is made gets an id that no group has, and what the tables hold stays.
pub fn groups_are_made()
    ensures { MakesGroups }
{}

/// A law: where an entry is added to a group that is there, the two tables read as they did with that one record more, if its place was free.
pub fn entries_are_made()
    ensures { MakesEntries }
{}

/// A law: what a store holds is read from its list of tables, of each version and wherever the tables stand.
pub fn stores_are_read()
    ensures { (db : Trees) → IsRead db }
{}

/// A law: the tables of the second version are made behind those of the first, which stay, and the items alone are taken out.
pub fn tables_are_made()
    ensures made { MakesTables }
    ensures emptied { EmptiesItems }
{}

/// A law: the items, copied one after the other in whatever order, are what the new tables hold, and the store holds what it held but for
/// its version.
pub fn copies_are_whole()
    ensures shown { AsksItems }
    ensures copied { CopiesAll }
    ensures moved { MovesContents }
{}

/// A law: what is asked of a group whose id is known are its records above the key, and no others; the id
/// is that of a group with the name, and none is shown where no group has it: then it has no record.
pub fn records_are_told()
    ensures since { AsksSince }
    ensures group { AsksGroup }
    ensures nobody { AsksNobody }
{}

/// A law: in each layout the table of texts stands at its place, and its three statements mean the same.
pub fn texts_have_their_table()
    ensures first { IsNamed named_first × NamedTexts named_first }
    ensures made { IsNamed named_made × NamedTexts named_made }
    ensures moved { IsNamed named_moved × NamedTexts named_moved }
{}

/// A law: a text that is put stands in place of the one that was there, the other texts stay, and so do the other tables.
pub fn texts_are_put()
    ensures { PutsTexts }
{}

/// A law: what is asked of a name is its text, and what is asked of all are the names that have one.
pub fn texts_are_told()
    ensures text { AsksTexts }
    ensures names { AsksNames }
{}

/// A law: all that the proofs need is known of both layouts of the second version.
pub fn layouts_are_known()
    ensures { (t : Tables) → IsSecond t → Known t }
{}
