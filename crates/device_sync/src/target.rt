//! Whom a device talks to.
ghost use Rattle.std.specs.Prelude.{◌≡◌, IfOk};

use field_values::{NoMemory, Txt};

/// What a device says of itself to a server.
#[derive(Debug, Drop)]
pub struct Target {
    /// By which the server knows that the device may sync.
    pub token: Txt,
    /// The file that it syncs.
    pub file: Txt,
    /// The group of the file on the server.
    pub group: Txt,
}

impl Target {
    /// An equal target.
    pub fn copy(&self) -> Result<Target, NoMemory>
        ensures { IfOk result (λ target. target ≡ self.now) }
    {
        Ok(Target {
            token: self.token.copy()?,
            file: self.file.copy()?,
            group: self.group.copy()?,
        })
    }
}
