//! What a recurrence says. Days are numbered from 1 January 1970, and go to the end of 2199.
ghost use Rattle.std.specs.Prelude.{◌<◌, ◌≤◌};

/// How often raw days come.
#[derive(Clone, Copy, Debug, Drop, PartialEq, Eq)]
pub enum Frequency {
    /// By days.
    Daily,
    /// By weeks.
    Weekly,
    /// By months.
    Monthly,
    /// By years.
    Yearly,
}

/// A day of each month that has it.
#[derive(Clone, Copy, Debug, Drop, PartialEq, Eq)]
pub enum Pattern {
    /// This one, from 1 on.
    Place(u8),
    /// The last one.
    Last,
}

/// Where raw days end.
#[derive(Clone, Copy, Debug, Drop, PartialEq, Eq)]
pub enum Ending {
    /// Nowhere.
    Never,
    /// After so many.
    Times(u32),
    /// With this day.
    Until(u32),
}

/// Where a raw day on a Saturday or Sunday moves.
#[derive(Clone, Copy, Debug, Drop, PartialEq, Eq)]
pub enum Weekends {
    /// Nowhere.
    Stay,
    /// To the Friday before.
    Before,
    /// To the Monday after.
    After,
}

/// A recurrence, as [`read_recur`](crate::read_recur) makes it of a text.
#[derive(Debug, Drop)]
pub struct Recurrence {
    /// How often raw days come.
    pub frequency: Frequency,
    /// How many days, weeks, months or years a step has.
    pub interval: u32,
    /// The first day that may be raw.
    pub start: u32,
    /// The days of a month, where raw days come by months; none stand for the day of the month on which it starts.
    pub patterns: Vec<Pattern>,
    /// Where raw days end.
    pub ending: Ending,
    /// Where they move.
    pub weekends: Weekends,
    ghost least: { 1 ≤ interval },
    ghost most: { interval ≤ 1_000 },
    ghost in_calendar: { start < 84_006 },
}
