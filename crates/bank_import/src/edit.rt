//! The import of a statement.
ghost use Rattle.std.specs.Prelude.{◌≡◌, IfOk};

use field_values::{NoMemory, Txt};

/// The import of a bank's statement into an account.
#[derive(Debug, PartialEq, Eq, Drop)]
pub struct ImportEdit {
    /// The id of the account.
    pub account: Txt,
    /// The statement: a CSV text with a header.
    pub statement: Txt,
}

impl ImportEdit {
    /// An equal edit.
    pub fn copy(&self) -> Result<ImportEdit, NoMemory>
        ensures { IfOk result (λ edit. edit ≡ self.now) }
    {
        Ok(ImportEdit {
            account: self.account.copy()?,
            statement: self.statement.copy()?,
        })
    }
}
