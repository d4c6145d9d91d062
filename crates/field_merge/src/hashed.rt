//! A field as the key of a map whose order nobody asks for.
ghost use Rattle.std.specs.Prelude.{◌≡◌, ◌∷◌, [], IfOk};
ghost use Rattle.std.specs.Ordering.{as_partial_cmp, is_eq};
ghost use Rattle.std.proofs.Common.{rules};
ghost use Rattle.std.specs.Cmp.Rules.{comparing};
ghost use Rattle.std.specs.Cmp.{eq_by_cmp_equiv, partial_equiv_from_equiv, partial_order_from_own_ties, partial_order_from_total};
ghost use Rattle.field_merge.specs.Hashed.{names_hash, hashed_cmp, hashed_total};

use field_values::{Field, NoMemory};
use std::cmp::Ordering;
use std::hash::{FoldHasher, Hasher};
use std::marker::Model;

/// A field behind a number that is made of its names, by which fields are ordered first: mostly without a look at the names, and in a
/// sixth of the room of a `FieldKey`. Fields whose numbers are the same, as somebody may choose them, are ordered by their names.
#[derive(Debug, Drop)]
pub(crate) struct HashedField {
    hash: u64,
    field: Field,
}

impl Model for HashedField {
    ghost use Rattle.std.specs.Prelude.{◌≡◌};
    ghost use Rattle.field_values.specs.Names.{FieldNames};
    ghost use Rattle.field_merge.specs.Hashed.{names_hash};

    ghost Value = { FieldNames };

    ghost view = { λ k. k.field };

    ghost invariant = { λ k. k.hash ≡ names_hash k.field };
}

fn hash_of(field: &Field) -> u64
    ensures { result ≡ names_hash field.now }
{
    let mut hasher = FoldHasher::default();
    hasher.write(field.dataset().as_bytes());
    hasher.write(field.row().as_bytes());
    hasher.write(field.column().as_bytes());
    hasher.finish()
}

impl HashedField {
    /// The key of a field, whose names it shares.
    pub(crate) fn of(field: &Field) -> Result<HashedField, NoMemory>
        ensures { IfOk result (λ k. k ≡ field.now) }
    {
        Ok(HashedField {
            hash: hash_of(field),
            field: field.copy()?,
        })
    }

    /// The field.
    pub(crate) fn field(&self) -> &Field
        ensures { result.now ≡ self.now }
    {
        &self.field
    }
}

impl PartialEq for HashedField {
    ghost eq = { λ f g. is_eq (hashed_cmp f g) };

    ghost laws = { partial_equiv_from_equiv (eq_by_cmp_equiv hashed_total) };

    fn eq(&self, other: &HashedField) -> bool {
        self.cmp(other).is_eq()
    }
}

impl Eq for HashedField {
    ghost laws = { eq_by_cmp_equiv hashed_total };
}

impl Ord for HashedField {
    ghost cmp = { hashed_cmp };

    ghost total = { hashed_total };

    ghost matches_partial_cmp = { Prim.search (comparing, rules) };

    ghost matches_eq = { Prim.search (comparing, rules) };

    fn cmp(&self, other: &HashedField) -> Ordering {
        if self.hash != other.hash {
            return self.hash.cmp(&other.hash);
        }
        self.field.cmp(&other.field)
    }
}

impl PartialOrd for HashedField {
    ghost partial_cmp = { as_partial_cmp hashed_cmp };

    ghost laws = { partial_order_from_own_ties (partial_order_from_total hashed_total) (Prim.search (comparing, rules)) };

    fn partial_cmp(&self, other: &HashedField) -> Option<Ordering> {
        Some(self.cmp(other))
    }
}
