//! Facts about all imports, which a proof can call for.
ghost use Rattle.bank_import.specs.Laws.{LawOfMatches, LawOfBest, LawOfCandidates};
ghost use Rattle.bank_import.specs.Second.{LawOfSecond, LawOfRows};
ghost use Rattle.bank_import.specs.Rest.{LawOfRest};
ghost use Rattle.bank_import.specs.Amounts.{LawOfAmounts};
ghost use Rattle.bank_import.specs.NewPayees.{LawOfNames};
ghost use Rattle.bank_import.specs.Read.{LawOfReading};
ghost use Rattle.bank_import.specs.Twice.{LawOfImports};

/// A law: no transaction is matched twice, nor is a record; each match agrees in some pass; and a record without a match agrees in no
/// pass with a transaction that nobody took.
pub fn matches_are_told()
    ensures { LawOfMatches }
{}

/// A law: a match is the nearest of the transactions that are left and agree in its pass, of equally near ones that of the least id,
/// and none that is left agrees in an earlier pass.
pub fn matches_are_nearest()
    ensures { LawOfBest }
{}

/// A law: where each record has an id of its own, a second import finds each record's own row: the one that it filled or made. Whatever
/// payees the records have then, since the first may have made them.
pub fn ids_are_found_again()
    ensures { LawOfSecond }
{}

/// A law: where each record has a day, and an id of its own, or no id and made a row, and the ids of all made rows rise in the order of
/// the records, a second import finds each record's own row, whatever payees the records have then.
pub fn rows_are_found_again()
    ensures { LawOfRows }
{}

/// A law: the candidates of a book are exactly the transactions of the account that were not deleted and are no part of a split, in the
/// order of their ids.
pub fn candidates_are_told()
    ensures { LawOfCandidates }
{}

/// A law: an import writes nothing where no record wants a payee made and each matches a transaction that has all that it would write.
/// So it is when a statement comes again, where each record has a day, and an id of its own, or no id and made a row, the ids of all made
/// rows rise, the candidates are those that a first import leaves, rules make of each record what they made before, as far as it is
/// compared, but for its payee, no record wants a payee made then, and each one's own transaction has all.
pub fn imports_come_to_rest()
    ensures { LawOfRest }
{}

/// A law: an import makes a payee for each name that records want, and by which no payee of the book is found, whatever the case of its
/// letters; one that was deleted or stands for an account is found by none. Each is made once, with the name as the first record has it
/// that wants it, and in the order of these records.
pub fn new_payees_are_told()
    ensures { LawOfNames }
{}

/// A law: an amount is an optional `-`, 1 to 13 digits, and optionally a point with one or two digits, and no other text is one; it is
/// read as the cents that it writes.
pub fn amounts_are_told()
    ensures { LawOfAmounts }
{}

/// A law: a statement whose header names a day and an amount is read exactly where each record has as many fields as the header, a day
/// and an amount in their columns, and then as one entry for each record, in order; else it is refused with its first bad place: the
/// first bad record, and there the number of its fields, if it has more or fewer than the header, or the first field that is none of
/// its column. A header that lacks one of the two is refused with the number of its fields. A column is the first one of its name.
pub fn statements_are_told()
    ensures { LawOfReading }
{}

/// A law: a statement that comes again writes nothing, where the rows are those that the writes of its first import left.
///
/// It is asked of the first import that it was accepted; that no transaction and no payee had an id that it makes, and no rule gives one
/// as a payee; that these ids rise in the order of the writes, as timestamps of one line do; that no two records have one id, and each
/// without an id matched nothing, so that it made a row; and that rules make of each record for which the book has no payee, with any id
/// that the import makes as its payee, what they make of it without a payee, but for that payee. The last holds of any rules that don't
/// tell a payee from none: no condition on the payee answers otherwise for what it stands for, and no action takes the payee away.
/// Nothing is asked of mappings: payees may have been merged before in any way. What is asked of records and of rules holds where each
/// record has an id of its own and the book has no rules.
///
/// Without these it is false. A record without an id that matched may find a nearer row, which a later record made. Of two records with
/// one id the second may have filled a row that is nearer to the first. Equal records without ids change rows where the ids of the rows
/// that they made fall. And a rule that asks whether there is no payee may leave out of the second import what it did in the first, or
/// the other way round.
pub fn statements_come_once()
    ensures { LawOfImports }
{}
