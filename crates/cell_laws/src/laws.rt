//! Facts about all sheets of the tracking budget and all ranges of months, which a proof can call for.
ghost use Rattle.cell_laws.specs.Ranges.{RangesAreLeast};
ghost use Rattle.cell_laws.specs.Sheets.{SheetsHaveMonths};

/// A law: on a sheet of the tracking budget stands each cell that there is of its month, with what it tells, once, and no other one. A
/// name of another month has no value on it. Two names are of one cell exactly where they have one month, one kind and one id.
pub fn sheets_have_months()
    ensures { SheetsHaveMonths }
{}

/// A law: with one month more, a range of months is the least that has this month and all that it had; and with the window of a book, of
/// whose transactions each day is one of the calendar, it is the least that has the months of the rows and all that it had. It lies in each
/// other range that has all of these. Where it had none, it is the month alone, or the window. A grid covers the months whose numbers its
/// range has.
pub fn ranges_are_least()
    ensures { RangesAreLeast }
{}
