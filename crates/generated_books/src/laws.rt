//! Facts about the generated messages, which a proof can call for.
ghost use Rattle.std.specs.Prelude.{◌≡◌, ℕ};
ghost use Rattle.generated_books.specs.Generated.{generated};
ghost use Rattle.generated_books.specs.Numbers.{AreGenerated, IsWorkedOut, count_of, messages_at};

/// A law: of so many transactions there are 15 messages, and four of each; they rise by timestamp, and they are valid, where there
/// are at most 100,000 transactions.
pub fn generated_are_messages()
    ensures { (n : ℕ) → AreGenerated n }
{}

/// A law: a generated message is a function of its number, however many there are.
pub fn generated_are_numbered()
    ensures { (n : ℕ) → generated n ≡ messages_at 0 (count_of n) }
{}

/// A law: the first transaction is the one that was worked out by hand.
pub fn transactions_are_worked_out()
    ensures { IsWorkedOut }
{}
