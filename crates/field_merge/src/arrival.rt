//! A message that came, as it is sorted.
ghost use Rattle.std.specs.Prelude.{◌≡◌};
ghost use Rattle.std.specs.Ordering.{as_partial_cmp, is_eq};
ghost use Rattle.std.proofs.Common.{rules};
ghost use Rattle.std.specs.Cmp.Rules.{comparing};
ghost use Rattle.std.specs.Cmp.{eq_by_cmp_equiv, partial_equiv_from_equiv, partial_order_from_own_ties, partial_order_from_total};
ghost use Rattle.field_values.specs.Names.{names_eq, AreNames};
ghost use Rattle.field_values.specs.Value.{IsValue};
ghost use Rattle.hybrid_clock.specs.Stamp.{IsStamp};
ghost use Rattle.field_merge.specs.Messages.{IsMessage};
ghost use Rattle.field_merge.specs.Latest.{latest_first, latest_first_total};

use crate::message::Message;
use crate::short::{Names, ShortNames};
use field_values::{Field, Value};
use hybrid_clock::Stamp;
use std::cmp::Ordering;
use std::marker::Model;

/// A valid message whose names stand in place where they are short. Messages are ordered by field, and those of one field from the
/// latest on. A contract sees the message.
#[derive(Debug, Drop)]
pub(crate) struct Arrival {
    names: Names,
    stamp: Stamp,
    value: Value,
}

impl Model for Arrival {
    ghost use Rattle.field_merge.specs.declared.message.Message.{Message};
    ghost use Rattle.field_merge.specs.Messages.{IsMessage};

    ghost Value = { Message };

    ghost view = { λ a. record { stamp = a.stamp; field = a.names; value = a.value } };

    ghost invariant = { λ a. IsMessage (record { stamp = a.stamp; field = a.names; value = a.value }) };
}

impl Arrival {
    pub(crate) fn new(message: Message) -> Arrival
        requires { IsMessage message }
        ensures { result ≡ message }
    {
        let Message {
            stamp,
            field,
            value,
        } = message;
        Arrival {
            names: Names::of(field),
            stamp,
            value,
        }
    }

    /// A message of short names.
    pub(crate) fn of(stamp: Stamp, names: ShortNames, value: Value) -> Arrival
        requires stamp { IsStamp stamp }
        requires names { AreNames names }
        requires value { IsValue value }
        ensures { result ≡ record { stamp = stamp; field = names; value = value } }
    {
        Arrival {
            names: Names::short(names),
            stamp,
            value,
        }
    }

    /// When it was written.
    pub(crate) fn stamp(&self) -> Stamp
        ensures value { result ≡ self.now.stamp }
        ensures valid { IsStamp result }
    {
        self.stamp
    }

    /// The names of its field.
    pub(crate) fn names(&self) -> &Names
        ensures { result.now ≡ self.now.field }
    {
        &self.names
    }

    /// What it writes.
    pub(crate) fn value(&self) -> &Value
        ensures value { result.now ≡ self.now.value }
        ensures valid { IsValue result.now }
    {
        &self.value
    }

    /// Puts another message of the field in its place.
    pub(crate) fn renew(&mut self, stamp: Stamp, value: Value)
        requires stamp { IsStamp stamp }
        requires value { IsValue value }
        ensures { self.new ≡ record { stamp = stamp; field = self.old.field; value = value } }
    {
        self.stamp = stamp;
        self.value = value;
    }

    /// Whether two messages are of one field.
    pub(crate) fn is_of_field_of(&self, other: &Arrival) -> bool
        ensures { result ≡ names_eq self.now.field other.now.field }
    {
        self.names.cmp(&other.names).is_eq()
    }
}

impl PartialEq for Arrival {
    ghost eq = { λ m n. is_eq (latest_first m n) };

    ghost laws = { partial_equiv_from_equiv (eq_by_cmp_equiv latest_first_total) };

    fn eq(&self, other: &Arrival) -> bool {
        self.cmp(other).is_eq()
    }
}

impl Eq for Arrival {
    ghost laws = { eq_by_cmp_equiv latest_first_total };
}

impl Ord for Arrival {
    ghost cmp = { latest_first };

    ghost total = { latest_first_total };

    ghost matches_partial_cmp = { Prim.search (comparing, rules) };

    ghost matches_eq = { Prim.search (comparing, rules) };

    fn cmp(&self, other: &Arrival) -> Ordering {
        self.names
            .cmp(&other.names)
            .then_with(|| other.stamp.cmp(&self.stamp))
    }
}

impl PartialOrd for Arrival {
    ghost partial_cmp = { as_partial_cmp latest_first };

    ghost laws = { partial_order_from_own_ties (partial_order_from_total latest_first_total) (Prim.search (comparing, rules)) };

    fn partial_cmp(&self, other: &Arrival) -> Option<Ordering> {
        Some(self.cmp(other))
    }
}
