//! Writing the texts of timestamps and of moments.
ghost use Rattle.std.specs.Prelude.{◌≡◌, ◌*◌, ◌<◌, Ok};
ghost use Rattle.hybrid_clock.specs.Calendar.{day_of};
ghost use Rattle.hybrid_clock.specs.Stamp as spec;
ghost use Rattle.hybrid_clock.specs.Stamp.{stamp_text, head_text, IsStamp, window};
ghost use Rattle.hybrid_clock.specs.Clock.{stands_at};
ghost use Rattle.hybrid_clock.specs.Moments as moments;
ghost use Rattle.hybrid_clock.specs.Reading.{read_stamp};

use crate::stamp::Stamp;
use jiff_core::civil::Date;

impl Stamp {
    /// Writes the 46 characters of its text, as `2024-01-05T10:00:00.000Z-0000-00000000000000aa`.
    pub fn write_text(&self, out: &mut [u8; 46])
        requires { IsStamp self.now }
        ensures text { out.new ≡ stamp_text self.now }
        ensures reads_back { read_stamp out.new ≡ Ok self.now }
    {
        fill(out, self.millis, self.counter, &self.node.bytes());
    }
}

/// The text of a moment, by its milliseconds since the start of 1970: that of a timestamp of this
/// time with the counter 0 and a node of `0` alone, which no device has. So it is less than the
/// text of each timestamp of its time or a later one, and greater than those of earlier ones.
pub fn moment_text(millis: u64) -> [u8; 46]
    requires { millis < 60_000 * window }
    ensures { result ≡ moments.moment_text millis }
{
    let mut text = [b'0'; 46];
    fill(&mut text, millis, 0, &[b'0'; 16]);
    text
}

/// Fills in the text of a time, a counter and a node.
#[tactic(auto, unfolding(crate::specs::Stamp::stamp_text))]
fn fill(out: &mut [u8; 46], millis: u64, counter: u16, node: &[u8; 16])
    requires { millis < 60_000 * window }
    ensures { out.new ≡ stamp_text (stands_at node.now millis counter) }
{
    let day = day_of_number((millis / 86_400_000) as u32);
    let head = head(day.0, day.1, day.2, (millis % 86_400_000) as u32, counter);
    out[..30].copy_from_slice(&head);
    out[30..].copy_from_slice(node);
}

/// The year, month and day of a day counted from 1 January 1970.
fn day_of_number(number: u32) -> (u16, u8, u8)
    requires { number < 29_894 }
    ensures value { record { year = result.0; month = result.1; day = result.2 } ≡ day_of number }
    ensures year { result.0 < 10000 }
    ensures month { result.1 < 13 }
    ensures day { result.2 < 32 }
{
    let date = Date::from_days_since_min(number + 4_371_587);
    (date.year as u16, date.month, date.day)
}

/// The text before the node.
#[tactic(auto, unfolding(crate::specs::Stamp::head_text))]
fn head(year: u16, month: u8, day: u8, millis: u32, counter: u16) -> [u8; 30]
    requires year { year < 10000 }
    requires month { month < 100 }
    requires day { day < 100 }
    requires millis { millis < 86_400_000 }
    ensures { result ≡ head_text year month day millis counter }
{
    [
        b'0' + (year / 1000) as u8,
        b'0' + (year / 100 % 10) as u8,
        b'0' + (year / 10 % 10) as u8,
        b'0' + (year % 10) as u8,
        b'-',
        b'0' + month / 10,
        b'0' + month % 10,
        b'-',
        b'0' + day / 10,
        b'0' + day % 10,
        b'T',
        b'0' + (millis / 3_600_000 / 10) as u8,
        b'0' + (millis / 3_600_000 % 10) as u8,
        b':',
        b'0' + (millis / 60_000 % 60 / 10) as u8,
        b'0' + (millis / 60_000 % 60 % 10) as u8,
        b':',
        b'0' + (millis / 1000 % 60 / 10) as u8,
        b'0' + (millis / 1000 % 60 % 10) as u8,
        b'.',
        b'0' + (millis % 1000 / 100) as u8,
        b'0' + (millis % 1000 / 10 % 10) as u8,
        b'0' + (millis % 1000 % 10) as u8,
        b'Z',
        b'-',
        hex_digit(counter / 4096),
        hex_digit(counter / 256 % 16),
        hex_digit(counter / 16 % 16),
        hex_digit(counter % 16),
        b'-',
    ]
}

/// The upper-case hexadecimal digit of a number below sixteen.
fn hex_digit(n: u16) -> u8
    requires { n < 16 }
    ensures { result ≡ spec.hex_digit n }
{
    if n < 10 {
        b'0' + n as u8
    } else {
        b'A' + (n as u8 - 10)
    }
}
