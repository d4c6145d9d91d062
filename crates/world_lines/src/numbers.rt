//! Numbers in their plain digits.
ghost use Rattle.std.specs.Prelude.{◌≡◌, ◌^◌};
ghost use Rattle.command_lines.specs.Forms.{flag_of};
ghost use Rattle.world_lines.specs.Numbers.{number_of};

use itoa::Buffer;

/// The number of 32 bits whose decimal text this is.
pub(crate) fn number_in(text: &str) -> Option<u32>
    ensures { result ≡ number_of (2 ^ 32) text.now }
{
    let Ok(number) = text.parse::<u32>() else {
        return None;
    };
    let mut buffer = Buffer::new();
    if buffer.format(number) == text {
        Some(number)
    } else {
        None
    }
}

/// The number of 64 bits whose decimal text this is.
pub(crate) fn long_number_in(text: &str) -> Option<u64>
    ensures { result ≡ number_of (2 ^ 64) text.now }
{
    let Ok(number) = text.parse::<u64>() else {
        return None;
    };
    let mut buffer = Buffer::new();
    if buffer.format(number) == text {
        Some(number)
    } else {
        None
    }
}

/// The flag that `0` or `1` writes.
pub(crate) fn flag_in(text: &str) -> Option<bool>
    ensures { result ≡ flag_of text.now }
{
    if text == "1" {
        return Some(true);
    }
    if text == "0" {
        return Some(false);
    }
    None
}
