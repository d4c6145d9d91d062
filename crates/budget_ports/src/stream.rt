//! Where bytes come from, and where they go.
ghost use Rattle.std.specs.Prelude.{◌≡◌, ◌<◌, ℕ, List, length, IfOk, IsSome};
ghost use Rattle.std.specs.declared.option.Option.{Option};
ghost use Rattle.std.specs.Io.{ReadsAtMost, WritesAtMost};
ghost use Rattle.std.specs.Io.KnownBytes.{ReadConsumes, WriteAppends, Keeps};
ghost use Rattle.std.specs.Result.{is_err};
ghost use Rattle.budget_ports.specs.Faults.{count_after};

/// A call failed, and what the object holds is as it was before the call, but that no connection is open
/// after a `close`.
#[derive(Clone, Copy, Debug, PartialEq, Eq)]
pub struct Failed;

/// Where bytes come from.
///
/// A source that tells has known bytes left. One that does not tell promises its counts alone.
pub trait Source {
    /// The bytes that are left, where the source tells.
    ghost left: { Self → Option (List ℕ) };

    /// How often a call has failed: a call that fails counts once, and any other not.
    ghost faults: { Self → ℕ };

    /// Moves bytes from the front of what is left to the front of the buffer, and answers how many.
    ///
    /// `Ok(0)` says that nothing is left. A read that fails takes no bytes.
    fn read(&mut self, buffer: &mut [u8]) -> Result<usize, Failed>
        requires { 0 < length buffer.old }
        ensures bound { ReadsAtMost result buffer.new }
        ensures bytes { ReadConsumes (left self.old) (left self.new) result buffer.new }
        ensures told { IsSome (left self.new) → IsSome (left self.old) }
        ensures count { faults self.new ≡ count_after (is_err result) (faults self.old) };
}

/// Where bytes go.
///
/// A sink that tells has known bytes. One that does not tell promises its counts alone.
pub trait Sink {
    /// The bytes that were taken, where the sink tells.
    ghost taken: { Self → Option (List ℕ) };

    /// How often a call has failed: a call that fails counts once, and any other not.
    ghost faults: { Self → ℕ };

    /// Takes bytes from the front, and answers how many: at least one where there is one.
    ///
    /// Where it fails no byte was taken.
    fn write(&mut self, bytes: &[u8]) -> Result<usize, Failed>
        ensures bound { WritesAtMost result bytes.now }
        ensures some { IfOk result (λ n. 0 < length bytes.now → 0 < n) }
        ensures bytes { WriteAppends (taken self.old) (taken self.new) result bytes.now }
        ensures told { IsSome (taken self.new) → IsSome (taken self.old) }
        ensures count { faults self.new ≡ count_after (is_err result) (faults self.old) };

    /// Hands on what was taken. The bytes stay the same, whatever it answers.
    fn flush(&mut self) -> Result<(), Failed>
        ensures bytes { Keeps (taken self.old) (taken self.new) }
        ensures told { IsSome (taken self.new) → IsSome (taken self.old) }
        ensures count { faults self.new ≡ count_after (is_err result) (faults self.old) };
}
