//! Facts about all recurrences, which a proof can call for.
ghost use Rattle.schedules.specs.Laws.{DaysHaveDates, MonthsGoOn, OccurrencesAreTold};
ghost use Rattle.schedules.specs.Statuses.{StatusesAreTold};

/// A law: the month and the place of a day are those of its civil date, each day has one date YYYYMMDD, and later days greater ones.
pub fn days_have_dates()
    ensures { DaysHaveDates }
{}

/// A law: a day is an occurrence where a raw day that the end keeps moves to it; the next one from a day on is the least of them.
pub fn occurrences_are_told()
    ensures { OccurrencesAreTold }
{}

/// A law: by steps of at least one month or year, and without an end, there is always a next occurrence from a day on that is not before
/// the start, as long as the end of 2199 is not near, where each month whose turn it is has a day that is meant; it has one where the last
/// day is named, or one up to the 28th.
pub fn months_go_on()
    ensures { MonthsGoOn }
{}

/// A law: which of the six statuses a schedule has on a day, and that only a live one has any.
pub fn statuses_are_told()
    ensures { StatusesAreTold }
{}
