//! Facts about all edits of rules, of schedules and of statements, and about months that are filled by templates, which a proof can call for.
ghost use Rattle.book_rows.specs.declared.rows.Rows.{Rows};
ghost use Rattle.bank_import.specs.declared.edit.ImportEdit.{ImportEdit};
ghost use Rattle.bank_import.specs.declared.entry.Entry.{Entry};
ghost use Rattle.kept_pairs.specs.Imports.{ImportsWrite};
ghost use Rattle.kept_pairs.specs.Changing.{ImportsWriteChanges};
ghost use Rattle.kept_pairs.specs.Judged.{ImportsAreJudged};
ghost use Rattle.kept_pairs.specs.Meant.{PayeesAreFound};
ghost use Rattle.kept_pairs.specs.Near.{NearnessIsTold};
ghost use Rattle.kept_pairs.specs.Columns.{ColumnsAreTold, PlainTextsReadBack};
ghost use Rattle.kept_pairs.specs.Cutting.{TextsAreCut};
ghost use Rattle.kept_pairs.specs.Kept.{
  RulesKeepPairsAndSplits,
  SchedulesKeepPairsAndSplits,
  StatementsKeepPairsAndSplits,
  GoalsKeepPairsAndSplits,
};

use goal_templates::goals_are_filled;

/// A law: after an edit of rules, or of transactions by rules, that is accepted each pair of opposite amounts and the same day, and each
/// split whose parts add up to its amount, is right as before, if it is there still, and so is each that the edit makes. It is asked
/// before that the ids of the rows that the edit makes are new, and that no transaction names one that the edit adds as what it is a
/// part of.
pub fn rules_keep_pairs_and_splits()
    ensures { RulesKeepPairsAndSplits }
{}

/// A law: so it is after an edit of a schedule that is accepted, and the same is asked before.
pub fn schedules_keep_pairs_and_splits()
    ensures { SchedulesKeepPairsAndSplits }
{}

/// A law: so it is after an import of a statement that is accepted, and the same is asked before.
pub fn statements_keep_pairs_and_splits()
    ensures { StatementsKeepPairsAndSplits }
{}

/// A law: so it is after a month is filled by the templates in the notes of categories, and nothing has to be asked before.
pub fn goals_keep_pairs_and_splits()
    ensures { GoalsKeepPairsAndSplits }
{
    goals_are_filled();
}

/// A law: an import that is accepted fills in what is missing in the transaction that a record matches: the payee, the notes, the payee as
/// the statement has it, the id there and the schedule; and the category, unless it is split or in a pair. What is there stays. A record
/// that matches none makes a transaction of the account, with all of these, its day and its amount; and the bank has either. The category,
/// the notes and the schedule are those that the rules of the book leave a transaction that has what the statement says. The payee is the
/// one that they leave it, or, where the book has none of the name and rules gave none, one of the name that the import makes. Nothing else
/// changes. It is asked before that the ids of the rows that the import makes are new and differ.
pub fn imports_write()
    ensures { ImportsWrite }
{}

/// A law: each write of an import that is accepted into a row that the book has changes it: it goes into a transaction, into one of the payee,
/// the category, the notes, the payee as the statement has it, the id there and the schedule that was missing, or it sets that the bank has
/// it, where that wasn't set. Each other write is of a new row, the name of a payee or a column of a transaction. No field is written twice.
pub fn imports_write_changes()
    ensures { ImportsWriteChanges }
{}

/// A law: the payee of the book that a record means is the one of the least id of those that were not deleted, stand for no account, and have
/// its payee's name, whatever the case of letters; where there is none, or the record names none, it means none.
pub fn imports_find_payees()
    ensures { (rows : Rows) (e : Entry) → PayeesAreFound rows e }
{}

/// A law: an import is refused where its account isn't live, whatever the statement, and else where the text is no statement, with the
/// first bad place: without a header at row 0 and column 0, of a header that lacks the days or the amounts with the number of its fields,
/// and else at the first bad record and there at its first bad field, or with the number of its fields where it has more or fewer than
/// the header. Any other import is accepted, also into an account that is closed.
pub fn imports_are_judged()
    ensures { (rows : Rows) (edit : ImportEdit) → ImportsAreJudged rows edit }
{}

/// A law: a record of a statement and a transaction agree where both have an id, and it is the same, or where the amounts are the same, both
/// have a day, these are at most seven days apart, and not both have an id. A record that stands alone takes a transaction with which it
/// agrees, and no other: of two the one with its id, else of near ones the one whose payee stands for the same as its own, by the
/// mappings of the book, else the one that is fewer days away; and one without a day is taken after one that has one.
pub fn nearness_is_told()
    ensures { (rows : Rows) → NearnessIsTold rows }
{}

/// A law: the columns of a statement are the first of their names; an empty field says nothing; a field is bad where it is none of its
/// column, of days or of amounts alone; and a bad place is told as it is, up to 32 bits.
pub fn columns_are_told()
    ensures { ColumnsAreTold }
{}

/// A law: lines of at least two plain fields each, with commas between them, are read as these fields. A plain field has no comma, no quote
/// and no line break, and the text doesn't begin with the first byte of a byte order mark.
pub fn plain_texts_read_back()
    ensures { PlainTextsReadBack }
{}

/// A law: a statement is cut into the fields of its lines, however it is spelled: fields stand apart by commas; one without a comma, a quote
/// and a line break may stand as it is, and any one in quotes, where each of its own quotes stands twice; lines end with carriage returns,
/// line feeds or both, as many as there are, and the last one needs none. A byte order mark in front is passed over, and nothing is trimmed.
pub fn texts_are_cut()
    ensures { TextsAreCut }
{}
