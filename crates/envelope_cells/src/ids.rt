//! Months as numbers.
ghost use Rattle.std.specs.Prelude.{◌≡◌, ℕ, ◌<◌, ◌≤◌, IsTrue};
ghost use Rattle.book_rows.specs.Months.{is_month};
ghost use Rattle.envelope_cells.specs.Ids.{month_number, month_at};

use book_rows::is_month;

/// The month YYYYMM, counted from January 1970, which has number 0.
pub fn month_number(month: u32) -> u32
    requires { IsTrue (is_month month) }
    ensures number { result ≡ month_number month }
    ensures below { result < 2760 }
{
    (month / 100 - 1970) * 12 + (month % 100 - 1)
}

/// The month YYYYMM of a number.
pub fn month_at(number: u32) -> u32
    requires { number < 2760 }
    ensures { result ≡ month_at number }
{
    (1970 + number / 12) * 100 + (number % 12 + 1)
}

/// The number of a month that isn't after the one that is asked for. Each month before it is before
/// the month `first` too.
pub(crate) fn first_of(first: u32, number: u32) -> u32
    requires { number < 2760 }
    ensures within { result ≤ number }
    ensures below { (k : ℕ) → k < result → month_at k < first }
{
    if !is_month(first) {
        return 0;
    }
    let at = month_number(first);
    if at < number { at } else { number }
}
