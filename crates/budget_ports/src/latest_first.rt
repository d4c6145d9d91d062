//! Records of which that with the greatest key comes first.
ghost use Rattle.std.specs.Prelude.{◌≡◌, ◌≤◌, length, IfOk};
ghost use Rattle.std.specs.Ordering.{as_partial_cmp, is_eq};
ghost use Rattle.std.proofs.Common.{rules};
ghost use Rattle.std.specs.Cmp.Rules.{comparing};
ghost use Rattle.std.specs.Cmp.{eq_by_cmp_equiv, partial_equiv_from_equiv, partial_order_from_own_ties, partial_order_from_total};
ghost use Rattle.budget_ports.specs.Latest.{latest_first, latest_first_total};

use crate::keeper::Record;
use field_values::{NoMemory, Txt};
use std::alloc::Global;
use std::cmp::Ordering;
use std::marker::Model;

/// A record as one text, its key and behind it its body, ordered by the key alone and the other way round, for a set that is searched
/// from its first element on. A contract sees the key, the body, and for how many bytes there is room.
#[derive(Debug, Drop)]
pub(crate) struct LatestFirst {
    text: String,
    key_len: usize,
}

impl Model for LatestFirst {
    ghost use Rattle.std.specs.Prelude.{IsCharBoundary, string_bytes, take, drop};
    ghost use Rattle.std.specs.String.{string_capacity};
    ghost use Rattle.budget_ports.specs.Latest.{Roomy};

    ghost Value = { Roomy };

    ghost view = { λ k. (take k.key_len (string_bytes k.text), (drop k.key_len (string_bytes k.text), string_capacity k.text)) };

    ghost invariant = { λ k. IsCharBoundary (string_bytes k.text) k.key_len };
}

impl LatestFirst {
    /// A copy of a key and a body.
    pub(crate) fn of(alloc: Global, key: &str, body: &str) -> Result<LatestFirst, NoMemory>
        ensures key { IfOk result (λ k. k.0 ≡ key.now) }
        ensures body { IfOk result (λ k. k.1.0 ≡ body.now) }
    {
        let mut text = String::with_capacity(alloc, key.len() + body.len())?;
        text.push_str(key)?;
        text.push_str(body)?;
        Ok(LatestFirst {
            text,
            key_len: key.len(),
        })
    }

    /// Room for a key of so many bytes.
    pub(crate) fn with_room(alloc: Global, room: usize) -> Result<LatestFirst, NoMemory>
        ensures { IfOk result (λ k. room ≤ k.1.1) }
    {
        let text = String::with_capacity(alloc, room)?;
        Ok(LatestFirst { text, key_len: 0 })
    }

    /// Puts a key for which there is room, without a body, in the place of what was there. It takes no memory.
    pub(crate) fn put(&mut self, key: &Txt)
        requires { length key.now ≤ self.old.1.1 }
        ensures key { self.new.0 ≡ key.now }
        ensures room { self.old.1.1 ≤ self.new.1.1 }
    {
        self.text.clear();
        let _ = self.text.push_str(key.as_str());
        self.key_len = key.as_str().len();
    }

    /// The key.
    fn key(&self) -> &str
        ensures { result.now ≡ self.now.0 }
    {
        self.text.as_str().split_at(self.key_len).0
    }

    /// A copy of the record.
    pub(crate) fn record(&self, alloc: Global) -> Result<Record, NoMemory>
        ensures { IfOk result (λ r. r ≡ record { key = self.now.0; body = self.now.1.0 }) }
    {
        let (key, body) = self.text.as_str().split_at(self.key_len);
        Ok(Record {
            key: Txt::from_text(alloc, key)?,
            body: Txt::from_text(alloc, body)?,
        })
    }
}

impl PartialEq for LatestFirst {
    ghost eq = { λ a b. is_eq (latest_first a b) };

    ghost laws = { partial_equiv_from_equiv (eq_by_cmp_equiv latest_first_total) };

    fn eq(&self, other: &LatestFirst) -> bool {
        self.cmp(other).is_eq()
    }
}

impl Eq for LatestFirst {
    ghost laws = { eq_by_cmp_equiv latest_first_total };
}

impl Ord for LatestFirst {
    ghost cmp = { latest_first };

    ghost total = { latest_first_total };

    ghost matches_partial_cmp = { Prim.search (comparing, rules) };

    ghost matches_eq = { Prim.search (comparing, rules) };

    fn cmp(&self, other: &LatestFirst) -> Ordering {
        other.key().cmp(self.key())
    }
}

impl PartialOrd for LatestFirst {
    ghost partial_cmp = { as_partial_cmp latest_first };

    ghost laws = { partial_order_from_own_ties (partial_order_from_total latest_first_total) (Prim.search (comparing, rules)) };

    fn partial_cmp(&self, other: &LatestFirst) -> Option<Ordering> {
        Some(self.cmp(other))
    }
}
