//! Facts about all recurrences and rules, which a proof can call for.
ghost use Rattle.std.specs.Prelude.{ℕ, ◌≤◌, List};
ghost use Rattle.book_rows.specs.declared.rows.Rows.{Rows};
ghost use Rattle.book_rows.specs.declared.rows.TxRow.{TxRow};
ghost use Rattle.book_rows.specs.declared.write.Write.{Write};
ghost use Rattle.split_transfer.specs.After.{Ids};
ghost use Rattle.schedules.specs.Days.{Said};
ghost use Rattle.rule_laws.specs.Recurring.{DaysMove, EndsCut, MiddlesAreRounded, RawDaysAreTold};
ghost use Rattle.rule_laws.specs.Comparing.{ConditionsAreTold};
ghost use Rattle.rule_laws.specs.StandingFor.{IdsStandForOthers};
ghost use Rattle.rule_laws.specs.Making.{IdsAreTakenOnce, RuleEditsDo, RulesMakeRows, RulesReadBack, StagesComeInTurn};
ghost use Rattle.rule_laws.specs.Scheduling.{ScheduleEditsDo};
ghost use Rattle.rule_laws.specs.Acting.{ActionsAreTold};
ghost use Rattle.rule_laws.specs.Saying.{SchedulesReadBack};
ghost use Rattle.rule_laws.specs.Asking.{RuleEditsAreJudged, ScheduleEditsAreJudged};
ghost use Rattle.rule_laws.specs.Wording.{RulePartsAreRead};
ghost use Rattle.rule_laws.specs.Scoring.{ScoresAreTold};
ghost use Rattle.rule_laws.specs.DayTexts.{DaysAreWritten};
ghost use Rattle.rule_laws.specs.Alike.{RulesAreReadAlike};
ghost use Rattle.rule_laws.specs.Termed.{TermsAreTold};
ghost use Rattle.rule_laws.specs.RecurrenceWords.{RecurrencesReadBack};

/// A law: raw days lie whole steps of days, weeks, months or years from the start on, where the interval is at least 1, and by months on a
/// day that is meant.
pub fn raw_days_are_told()
    ensures { (r : Said) (some : 1 ≤ r.interval) → RawDaysAreTold r some }
{}

/// A law: an end with a day keeps the raw days up to it, and one after so many the first ones, wherever they move.
pub fn ends_cut()
    ensures { (r : Said) → EndsCut r }
{}

/// A law: a Saturday and a Sunday move to the last day before that is none, or to the first one behind, or stay where no day is to move,
/// and no other day moves.
pub fn days_move()
    ensures { (d : ℕ) → DaysMove d }
{}

/// A law: the amount of a schedule that is given by two is their middle, and a half of a cent is rounded up.
pub fn middles_are_rounded()
    ensures { MiddlesAreRounded }
{}

/// A law: a schedule that is added has the name, its rule and the first date; one that is posted makes the transaction of its next date
/// as its rule says; one that is skipped goes on to the least date after that, or has ended where there is none; one that is deleted is
/// deleted. Nothing else changes. It is asked before that the rows that are made are new.
pub fn schedule_edits_do()
    ensures { (ids : Ids) (rows : Rows) (ws : List Write) → ScheduleEditsDo ids rows ws }
{}

/// A law: which column of a transaction a condition tests, and what the tests say of ids, texts, amounts, days and flags.
pub fn conditions_are_told()
    ensures { ConditionsAreTold }
{}

/// A law: a condition on the payee or the category of a transaction holds just where what its own id stands for is what an id of the
/// condition stands for. So payees that stand for the same one are the same to conditions and rules, and others are not: after a merge a
/// rule that names any of them fires on the transactions of them all. Where each stands for itself, the columns are tested as they are.
pub fn ids_stand_for_others()
    ensures { IdsStandForOthers }
{}

/// A law: what each action makes of a transaction. A payee or a category that isn't live changes nothing, nor does a category where the
/// transaction is split or in a pair.
pub fn actions_are_told()
    ensures { (rows : Rows) (x : TxRow) → ActionsAreTold rows x }
{}

/// A law: rules run by stage, first, none and last, within a stage from the one that counts least, and of those that count the same by
/// their ids.
pub fn stages_come_in_turn()
    ensures { StagesComeInTurn }
{}

/// A law: a rule that is accepted can be read, with the stage and the op that were given.
pub fn rules_read_back()
    ensures { RulesReadBack }
{}

/// A law: a rule that is added, where there was no row of its id, has a row that says what was given, and one that is deleted is deleted;
/// nothing else changes.
pub fn rule_edits_do()
    ensures { (ids : Ids) (rows : Rows) (ws : List Write) → RuleEditsDo ids rows ws }
{}

/// A law: after the rules were run on transactions each of them stands as the rules make it, and each other one as before; nothing is
/// written that stays as it is, and no column twice.
pub fn rules_make_rows()
    ensures { RulesMakeRows }
{}

/// A law: of ids that are named several times each is taken once, at its first place.
pub fn ids_are_taken_once()
    ensures { IdsAreTakenOnce }
{}

/// A law: an edit of rules, or of transactions by rules, is refused with the first fault of what it asks for, and accepted where there is
/// none.
pub fn rule_edits_are_judged()
    ensures { RuleEditsAreJudged }
{}

/// A law: an edit of a schedule is refused with the first fault of what it asks for, and accepted where there is none.
pub fn schedule_edits_are_judged()
    ensures { ScheduleEditsAreJudged }
{}

/// A law: a schedule that is added says the account, the payee, the amount and the days that were given, and its rule tests for them but
/// for the days, of which its test has only that there is a recurrence. It is asked before that both rows are new, and that the recurrence
/// has whole numbers of at most 64 bits alone, none of them `-0`, and isn't nested deeper than 125.
pub fn schedules_read_back()
    ensures { (ids : Ids) (rows : Rows) (ws : List Write) → SchedulesReadBack ids rows ws }
{}

/// A law: by which words and values the JSON of a rule says its conditions and its actions, and its row its stage and whether one condition
/// suffices: what is read says so, and what says so is read. A condition that asks for a direction of money is none.
pub fn rule_parts_are_read()
    ensures { RulePartsAreRead }
{}

/// A law: how much each test counts, and that a rule counts what its tests do together, twice where each of them names its values: `is`,
/// `isNot`, `isapprox`, `oneOf` and `notOneOf`.
pub fn scores_are_told()
    ensures { ScoresAreTold }
{}

/// A law: a text of a rule or of a statement is a day exactly where it writes a civil date from 1970 to 2199 as YYYY-MM-DD, and schedules
/// read the same day.
pub fn days_are_written()
    ensures { DaysAreWritten }
{}

/// A law: what can be a condition or an action of the rule of a schedule can be one of any rule, and the other way round; so a text that
/// the reader of schedules takes for conditions or actions that of rules takes, and the other way round.
pub fn rules_are_read_alike()
    ensures { RulesAreReadAlike }
{}

/// A law: what the rule of a schedule says, where it says something: the account and the payee are those of the first condition that names
/// one, under either name of the column, the amount is what the first condition on it means (the middle of two where it lies between
/// them, what it is or is near to, and 0 for any other test or for none), and the days are those of the first condition on them. When
/// it says nothing, `schedule_edits_are_judged` tells.
pub fn terms_are_told()
    ensures { TermsAreTold }
{}

/// A law: by which keys, words and values JSON says a recurrence, and what each key that is missing stands for: what is read says it, and
/// what says it is read.
pub fn recurrences_read_back()
    ensures { RecurrencesReadBack }
{}
