//! Where connections come from.
ghost use Rattle.std.specs.Prelude.{◌≡◌, ◌⊎◌, ◌<◌, ℕ, Bool, false, List, length, take, IfOk, OnOk, OnErr, IsSome, IsTrue};
ghost use Rattle.std.specs.declared.option.Option.{Option};
ghost use Rattle.std.specs.Io.{ReadsAtMost, WritesAtMost};
ghost use Rattle.std.specs.Io.KnownBytes.{ReadConsumes};
ghost use Rattle.std.specs.Result.{is_err};
ghost use Rattle.budget_ports.specs.Faults.{count_after};
ghost use Rattle.budget_ports.specs.Connections.{Stays, LetsIn, Opens, Begins, Writes};

use crate::stream::Failed;

/// Where connections come from, of which one is open at a time: bytes come in by it, and bytes go out.
///
/// A door that tells has known bytes for each connection. One that does not tell promises its counts alone.
pub trait Door {
    /// The bytes of each connection that waits, the next one first, where the door tells.
    ghost waiting: { Self → Option (List (List ℕ)) };

    /// The bytes that are left of the connection that was let in last, where the door tells.
    ghost left: { Self → Option (List ℕ) };

    /// What was written to each connection that was let in, the last one last, where the door tells.
    ghost outs: { Self → Option (List (List ℕ)) };

    /// Whether a connection is open: bytes come and go by none but an open one.
    ghost is_open: { Self → Bool };

    /// How often a call has failed: a call that fails counts once, and any other not.
    ghost faults: { Self → ℕ };

    /// Lets the next connection in. Past the last one that is a connection without bytes.
    fn accept(&mut self) -> Result<(), Failed>
        ensures next { OnOk result (LetsIn (waiting self.old) (waiting self.new)) }
        ensures opens { OnOk result (Opens (waiting self.old) (left self.new)) }
        ensures begins { OnOk result (Begins (outs self.old) (outs self.new)) }
        ensures err { OnErr result (Stays (waiting self.old) (waiting self.new) × Stays (left self.old) (left self.new) × Stays (outs self.old) (outs self.new)) }
        ensures told { (IsSome (waiting self.new) → IsSome (waiting self.old)) × (IsSome (left self.new) → IsSome (waiting self.old) ⊎ IsSome (left self.old)) × (IsSome (outs self.new) → IsSome (outs self.old)) }
        ensures count { faults self.new ≡ count_after (is_err result) (faults self.old) };

    /// Moves bytes from the front of what is left of the connection to the front of the buffer, and
    /// answers how many.
    ///
    /// `Ok(0)` says that nothing is left. A read that fails takes no bytes.
    fn read(&mut self, buffer: &mut [u8]) -> Result<usize, Failed>
        requires { 0 < length buffer.old }
        ensures bound { ReadsAtMost result buffer.new }
        ensures bytes { ReadConsumes (left self.old) (left self.new) result buffer.new }
        ensures others { Stays (waiting self.old) (waiting self.new) × Stays (outs self.old) (outs self.new) }
        ensures open { OnOk result (IsTrue (is_open self.old)) × (IsTrue (is_open self.new) → IsTrue (is_open self.old)) }
        ensures told { (IsSome (waiting self.new) → IsSome (waiting self.old)) × (IsSome (left self.new) → IsSome (left self.old)) × (IsSome (outs self.new) → IsSome (outs self.old)) }
        ensures count { faults self.new ≡ count_after (is_err result) (faults self.old) };

    /// Writes bytes from the front to the connection, and answers how many: at least one where there is one.
    ///
    /// Where it fails no byte was written.
    fn write(&mut self, bytes: &[u8]) -> Result<usize, Failed>
        ensures bound { WritesAtMost result bytes.now }
        ensures some { IfOk result (λ n. 0 < length bytes.now → 0 < n) }
        ensures bytes { IfOk result (λ n. Writes (outs self.old) (outs self.new) (take n bytes.now)) }
        ensures err { OnErr result (Stays (outs self.old) (outs self.new)) }
        ensures others { Stays (waiting self.old) (waiting self.new) × Stays (left self.old) (left self.new) }
        ensures open { OnOk result (IsTrue (is_open self.old)) × (IsTrue (is_open self.new) → IsTrue (is_open self.old)) }
        ensures told { (IsSome (waiting self.new) → IsSome (waiting self.old)) × (IsSome (left self.new) → IsSome (left self.old)) × (IsSome (outs self.new) → IsSome (outs self.old)) }
        ensures count { faults self.new ≡ count_after (is_err result) (faults self.old) };

    /// Ends the connection. None is open then, and what came and what was written stays the same, whatever it answers.
    fn close(&mut self) -> Result<(), Failed>
        ensures shut { is_open self.new ≡ false }
        ensures same { Stays (waiting self.old) (waiting self.new) × Stays (left self.old) (left self.new) × Stays (outs self.old) (outs self.new) }
        ensures told { (IsSome (waiting self.new) → IsSome (waiting self.old)) × (IsSome (left self.new) → IsSome (left self.old)) × (IsSome (outs self.new) → IsSome (outs self.old)) }
        ensures count { faults self.new ≡ count_after (is_err result) (faults self.old) };
}
