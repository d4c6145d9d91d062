//! A conversation with a server.
ghost use Rattle.std.specs.Prelude.{◌≡◌, ℕ, List, [], ◌∷◌, IfOk, OnOk, OnErr, IsSome};
ghost use Rattle.std.specs.declared.option.Option.{Option};
ghost use Rattle.budget_ports.specs.Faults.{count_after};
ghost use Rattle.budget_ports.specs.Exchanges.{Exchange, Adds, Gets, IsOpen, begun};
ghost use Rattle.budget_ports.specs.Keeper.{has_failed};

use crate::keeper::PortFault;

/// A conversation with a server: bytes are sent, and bytes come back for them.
///
/// A link that tells has known exchanges. One that does not tell promises its counts alone.
pub trait Link {
    /// The exchanges, the last one last, where the link tells.
    ghost exchanges: { Self → Option (List Exchange) };

    /// How often a call has answered `Failed`: such a call counts once, and any other not.
    ghost faults: { Self → ℕ };

    /// Sends bytes, and so begins an exchange. After an `Err` there are no more exchanges than before.
    fn send(&mut self, bytes: &[u8]) -> Result<(), PortFault>
        ensures ok { OnOk result (Adds (exchanges self.old) (exchanges self.new) (begun bytes.now ∷ [])) }
        ensures err { OnErr result (Adds (exchanges self.old) (exchanges self.new) []) }
        ensures told { IsSome (exchanges self.new) → IsSome (exchanges self.old) }
        ensures count { faults self.new ≡ count_after (has_failed result) (faults self.old) };

    /// The bytes that came back for those that were sent last. After an `Err` none have.
    fn receive(&mut self) -> Result<Vec<u8>, PortFault>
        requires { IsOpen (exchanges self.old) }
        ensures ok { IfOk result (λ got. Gets (exchanges self.old) (exchanges self.new) got.items) }
        ensures err { OnErr result (Adds (exchanges self.old) (exchanges self.new) []) }
        ensures told { IsSome (exchanges self.new) → IsSome (exchanges self.old) }
        ensures count { faults self.new ≡ count_after (has_failed result) (faults self.old) };
}
