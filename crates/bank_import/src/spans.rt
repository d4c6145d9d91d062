//! Spans of sixteen days: days that are at most seven apart lie in the same one, or in two that follow one another.
ghost use Rattle.std.specs.Prelude.{◌≡◌, ◌≤◌};
ghost use Rattle.bank_import.specs.Spans.{counted, span, first_span, last_span};

/// A day's number, where days before 1970 count as its first.
fn counted(day: i32) -> u32
    ensures value { result ≡ counted day }
    ensures few { result ≤ 2_147_483_647 }
{
    if day < 0 { 0 } else { day as u32 }
}

/// The span of a day.
pub(crate) fn span(day: i32) -> u32
    ensures { result ≡ span day }
{
    counted(day) / 16
}

/// The first span that has a day at most seven from this one.
pub(crate) fn first_span(day: i32) -> u32
    ensures { result ≡ first_span day }
{
    counted(day).saturating_sub(7) / 16
}

/// The last span that has a day at most seven from this one.
pub(crate) fn last_span(day: i32) -> u32
    ensures { result ≡ last_span day }
{
    (counted(day) + 7) / 16
}
