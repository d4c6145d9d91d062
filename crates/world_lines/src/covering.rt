//! Which months are covered before a line asks for their cells.
ghost use Rattle.std.specs.Prelude.{◌≡◌, IfSome, false, true};
ghost use Rattle.book_rows.specs.Months.{is_month};

use book_rows::is_month;
use command_lines::Command;
use device_core::Device;
use envelope_cells::{month_at, month_number};

/// How far a month may be from one that is covered, to be covered too.
const FARTHEST: u32 = 12;

/// How many months there are, from January 1970.
const MONTHS: u32 = 2760;

/// Whether the month with a number is covered, if there is one.
fn covers(device: &Device, number: u32) -> bool
    requires { device.now.spent ≡ false }
{
    number < MONTHS && device.is_covered(month_at(number))
}

/// Whether a month YYYYMM is near to one that is covered.
fn is_near(device: &Device, month: u32) -> bool
    requires live { device.now.spent ≡ false }
    requires month { is_month month ≡ true }
{
    let number = month_number(month);
    for away in 1..FARTHEST + 1 {
        if covers(device, number + away) {
            return true;
        }
        if number >= away && covers(device, number - away) {
            return true;
        }
    }
    false
}

/// The month YYYYMM of whose cells a line asks, if it asks for some.
fn asked_month(command: &Command) -> Option<u32> {
    match command {
        Command::Cell { month, .. } | Command::Sheet { month } => Some(*month),
        _ => None,
    }
}

/// The month YYYYMM that a device is to cover before it answers a line, so that what is computed for the answer is kept: the one of whose cells
/// the line asks, where that is a month that isn't covered, and is at most twelve months from one that is.
///
/// A line is answered the same without. A month that is farther off isn't covered, since all months between it and the covered ones would be,
/// and each later edit would pay for them; in a book without rows no month is, and nothing is to be computed.
pub fn month_to_cover(device: &Device, command: &Command) -> Option<u32>
    requires { device.now.spent ≡ false }
    ensures { IfSome result (λ month. is_month month ≡ true) }
{
    let month = asked_month(command)?;
    if is_month(month) && !device.is_covered(month) && is_near(device, month) {
        Some(month)
    } else {
        None
    }
}
