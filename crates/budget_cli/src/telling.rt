//! What the program says on standard error: how it is used, and what failed.
ghost use Rattle.std.specs.Prelude.{◌≡◌, ◌&&◌, nat_le};
ghost use Rattle.std.specs.Option.{is_some};

/// How the program is used.
pub const USAGE: &str = "\
usage: budget_cli MODE [--OPTION VALUE]..

modes:
  merge     joins the message lines of standard input, and writes the latest message of each field
  device    answers the lines of standard input, as a device of the household
  serve     answers the requests of devices at an address
  generate  tells of a household's book that it generates
  world     answers the lines of standard input, as devices and a server of their own

options, each at most once, in any order:
  --node NAME      a device's own: 1 to 16 letters and digits, not all of them 0
  --store PATH     a device or a server keeps what it keeps in this file; else in memory
  --token NAME     by which a server knows a device (local)
  --file NAME      the file of a household's books (home)
  --group NAME     the group of that file (home)
  --listen ADDRESS where a server listens (127.0.0.1:5006)
  --peer ADDRESS   where the server of a device is (127.0.0.1:5006)
  --count NUMBER   how many connections a server takes before it ends, or transactions are generated (1000)

docs/FORMATS.md has the lines of a device, every refusal and what to do then, and the statuses.

built with rattle-kit-13f
";

/// What ended a run with this status, where something failed.
pub fn failure(status: u8) -> Option<&'static str>
    ensures { is_some result ≡ (nat_le 3 status && nat_le status 9) }
{
    match status {
        3 => Some("a record of the store is no message"),
        4 => Some("the input could not be read"),
        5 => Some("the output could not be written"),
        6 => Some("the store failed"),
        7 => Some("memory ran out"),
        8 => Some("no connection could be let in"),
        9 => Some("the input has more than 1,073,741,824 bytes"),
        _ => None,
    }
}
