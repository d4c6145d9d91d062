//! What the counts of failures are, and which replies a script gives.
ghost use Rattle.budget_ports.specs.Laws.{CountsRise, RepliesRepeat};

/// A call that fails leaves a count of failures one higher, up to the last value of 64 bits, at which it
/// stands still; any other call leaves it as it was.
pub fn risen()
    ensures { CountsRise }
{}

/// A script gives its replies in their order, and then the last of them again and again.
pub fn repeated()
    ensures { RepliesRepeat }
{}
