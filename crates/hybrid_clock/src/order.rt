//! The order of timestamps: by time, then by counter, then by node.
ghost use Rattle.std.specs.Ordering.{as_partial_cmp};
ghost use Rattle.std.proofs.Common.{rules};
ghost use Rattle.std.specs.Cmp.Rules.{comparing};
ghost use Rattle.std.specs.Cmp.{partial_order_from_own_ties};
ghost use Rattle.hybrid_clock.specs.Order.{stamp_cmp};

use crate::stamp::Stamp;
use std::cmp::Ordering;

impl Ord for Stamp {
    ghost cmp = { stamp_cmp };

    ghost total = { Prim.search (comparing, rules) };

    ghost matches_partial_cmp = { Prim.search (comparing, rules) };

    ghost matches_eq = { Prim.search (comparing, rules) };

    fn cmp(&self, other: &Stamp) -> Ordering {
        if self.millis != other.millis {
            return self.millis.cmp(&other.millis);
        }
        self.counter
            .cmp(&other.counter)
            .then_with(|| self.node.cmp(&other.node))
    }
}

impl PartialOrd for Stamp {
    ghost partial_cmp = { as_partial_cmp stamp_cmp };

    ghost laws = { partial_order_from_own_ties (Prim.search (comparing, rules)) (Prim.search (comparing, rules)) };

    fn partial_cmp(&self, other: &Stamp) -> Option<Ordering> {
        Some(self.cmp(other))
    }
}
