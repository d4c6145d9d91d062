//! Facts about all templates, notes and months, which a proof can call for.
ghost use Rattle.budget_laws.specs.Wanting.{WantsAreTold};
ghost use Rattle.budget_laws.specs.Noting.{NotesAreWhole};
ghost use Rattle.budget_laws.specs.Giving.{SharesAreInTurn};
ghost use Rattle.budget_laws.specs.Judging.{GoalsAreJudged};

/// A law: what a template wants, of whatever priority. An amount wants itself. Up to a limit it wants what is missing, with what the
/// month before leaves in its category and what earlier templates gave it, and with an amount no more than that. Up to a month that is
/// due it wants the fewest cents that, given in each month from this one to that, bring the category to its amount, and nothing once the
/// month is past. On average it wants the most cents, as far as a value holds them, that so many times are no more than what was spent
/// in so many months before; months before January 1970 count as ones in which nothing was spent. A copy wants what the category was
/// given so many months before, and nothing where that was less than nothing or there is no such month.
pub fn wants_are_told()
    ensures { WantsAreTold }
{}

/// A law: the lines of a note, joined by line feeds, are the note, and each of its lines that is a template asks for it once, in the
/// order of the lines, and of categories in the order of the sheet. In that order too the lines are told that are bad, each by its number
/// in the note. The templates are given by priority, each once, and those of one priority in the order in which the book asks for them.
pub fn notes_are_whole()
    ensures { NotesAreWhole }
{}

/// A law: in a month each template of the book has one share, in the order in which they are given. It wants what is wanted where its
/// category got so much by the shares before it. At priority 0 it is given that, and at any other no more of it than what is left of the
/// money that the month has to share out, and nothing where nothing is left.
pub fn shares_are_in_turn()
    ensures { SharesAreInTurn }
{}

/// A law: the filling of a month is refused with the first fault of what it asks for, and accepted where there is none: the month is one
/// from January 1970 to December 2199; then each amount that is written is one that a value holds; then each row that is written has a
/// name. Written are the categories that have a template and whose budget is not what their templates give them, in the order of the
/// sheet.
pub fn goals_are_judged()
    ensures { GoalsAreJudged }
{}
