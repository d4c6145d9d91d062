//! Which group the server has.
ghost use Rattle.std.specs.Prelude.{◌≡◌, IfOk};
ghost use Rattle.peer_link.specs.Meeting.{peer};

use device_sync::Target;
use field_values::{NoMemory, Txt};
use std::alloc::Global;

/// The token of the server.
pub(crate) const TOKEN: &str = "local";

/// The file that it has.
pub(crate) const FILE: &str = "home";

/// The group of the file.
pub(crate) const GROUP: &str = "home";

/// What a device says of itself to the server behind a link of this crate.
pub fn peer_target(alloc: Global) -> Result<Target, NoMemory>
    ensures { IfOk result (λ target. target ≡ peer) }
{
    Ok(Target {
        token: Txt::from_text(alloc, TOKEN)?,
        file: Txt::from_text(alloc, FILE)?,
        group: Txt::from_text(alloc, GROUP)?,
    })
}
