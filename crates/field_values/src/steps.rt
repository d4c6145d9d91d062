//! A counter of steps that takes no bytes.
ghost use Rattle.std.specs.Prelude.{◌≡◌, ◌+◌, ◌≤◌};

use std::marker::Model;
use std::sync::ledger::{Blank, Book, Ledger, Share};

/// How many steps were taken. A contract sees the count, which begins at 0 and which only [`Steps::tick`] changes. At run time
/// there is nothing: no byte and no instruction.
///
/// What counts takes `steps: &mut Steps<G>` under `G: Ledger`. A caller that has no counter makes one by a function of its own
/// over `G` and a `Blank`, which it calls with `Brand` and `Blank::new(1)`.
#[derive(Drop)]
pub struct Steps<G: Ledger> {
    book: Book<G>,
    share: Share<G>,
}

impl<G: Ledger> Model for Steps<G> {
    ghost use Rattle.std.specs.Prelude.{ℕ, ◌<◌};

    ghost Value = { ℕ };

    ghost view = { λ s. s.book.total };

    ghost invariant = { λ s. 0 < s.share.parts };
}

impl<G: Ledger> Steps<G> {
    /// A counter at 0, over a ledger that is still blank.
    pub fn new(blank: Blank) -> Steps<G>
        requires name { blank.name ≡ G.name }
        requires parts { blank.parts ≡ G.parts }
        requires some { 1 ≤ G.parts }
        ensures { result ≡ 0 }
    {
        let (book, share) = blank.open::<G>();
        Steps { book, share }
    }

    /// Counts one step.
    pub fn tick(&mut self)
        ensures { self.new ≡ self.old + 1 }
    {
        self.book.add(&mut self.share, 1);
    }
}
