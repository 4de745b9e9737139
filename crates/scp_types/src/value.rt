//! What a network agrees on.

ghost use Rattle.std.specs.Prelude.{◌≡◌, ◌<◌, ◌≤◌, length, IfOk, IfSome, IsSome, IsTrue, ◌↔◌};

use std::alloc::{AllocError, Global};
use std::cmp::Ordering;
use std::marker::Model;
use std::sync::Arc;

/// The most bytes that a value has.
pub const MAX_VALUE_LENGTH: usize = 256;

/// One to 256 opaque bytes, ordered by bytes. Copies share them.
///
/// For example, a single byte of 0 is a value; no bytes are none, nor are 257 of them.
#[derive(Debug, Drop)]
pub struct Value {
    bytes: Arc<Vec<u8>, Global>,
}

impl Model for Value {
    ghost use Rattle.std.specs.Prelude.{ℕ, List, ◌<◌, ◌≤◌, length};
    ghost use Rattle.std.specs.Arc.{arc_value};

    ghost Value = { List ℕ };

    ghost view = { λ a. (arc_value a.bytes).items };

    ghost invariant = { λ a. (0 < length (arc_value a.bytes).items) × (length (arc_value a.bytes).items ≤ 256) };
}

impl Value {
    /// The bytes as a value, or `None` if they are not one to 256. An error says that it is out of memory.
    pub fn new(alloc: Global, bytes: &[u8]) -> Result<Option<Value>, AllocError>
        ensures some { IfOk result (λ o. IfSome o (λ v. v ≡ bytes.now)) }
        ensures exactly { IfOk result (λ o. IsSome o ↔ (0 < length bytes.now) × (length bytes.now ≤ 256)) }
    {
        if bytes.is_empty() || bytes.len() > MAX_VALUE_LENGTH {
            return Ok(None);
        }
        Ok(Some(Value::of(alloc, bytes)?))
    }

    /// Bytes that are known to be a value: one to 256 of them. An error says that it is out of memory.
    pub fn of(alloc: Global, bytes: &[u8]) -> Result<Value, AllocError>
        requires some_bytes { 0 < length bytes.now }
        requires limit { length bytes.now ≤ 256 }
        ensures { IfOk result (λ v. v ≡ bytes.now) }
    {
        let kept = Vec::from_slice(alloc, bytes)?;
        Ok(Value {
            bytes: Arc::new(alloc, kept)?,
        })
    }

    /// A copy, which shares the bytes. It takes no memory; an error says that they have too many owners.
    pub fn try_copy(&self) -> Result<Value, AllocError>
        ensures { IfOk result (λ v. v ≡ self.now) }
    {
        Ok(Value {
            bytes: Arc::try_clone(&self.bytes)?,
        })
    }

    /// The bytes, which are one to 256.
    pub fn as_bytes(&self) -> &[u8]
        ensures value { result.now ≡ self.now }
        ensures some_bytes { 0 < length self.now }
        ensures limit { length self.now ≤ 256 }
    {
        self.bytes.as_slice()
    }

    /// Whether the two are one value.
    pub fn is_same(&self, other: &Value) -> bool
        ensures { IsTrue result ↔ self.now ≡ other.now }
    {
        self.as_bytes() == other.as_bytes()
    }
}

impl PartialEq for Value {
    ghost use Rattle.std.proofs.lemmas.Cmp.{nat_list_eq_equiv};
    ghost use Rattle.std.specs.Cmp.{partial_equiv_from_equiv};
    ghost use Rattle.std.specs.Prelude.{nat_eq};
    ghost use lib.Pointwise.{pointwise};

    ghost eq = { pointwise nat_eq };

    ghost laws = { partial_equiv_from_equiv nat_list_eq_equiv };

    fn eq(&self, other: &Value) -> bool {
        self.as_bytes() == other.as_bytes()
    }
}

impl Eq for Value {
    ghost use Rattle.std.proofs.lemmas.Cmp.{nat_list_eq_equiv};

    ghost laws = { nat_list_eq_equiv };
}

impl Ord for Value {
    ghost use Rattle.std.proofs.Common.{rules};
    ghost use Rattle.std.specs.Cmp.Rules.{comparing};
    ghost use Rattle.std.proofs.lemmas.Cmp.{nat_list_cmp_total};
    ghost use Rattle.std.specs.Cmp.Lexicographic.{slice_cmp};
    ghost use Rattle.std.specs.Ordering.{nat_cmp};

    ghost cmp = { slice_cmp nat_cmp };

    ghost total = { nat_list_cmp_total };

    ghost matches_partial_cmp = { Prim.search (comparing, rules) };

    ghost matches_eq = { Prim.search (comparing, rules) };

    fn cmp(&self, other: &Value) -> Ordering {
        // Values that meet are mostly one value, which is told sooner than an order.
        if self.is_same(other) {
            return Ordering::Equal;
        }
        self.as_bytes().cmp(&other.as_bytes())
    }
}

impl PartialOrd for Value {
    ghost use Rattle.std.proofs.Common.{rules};
    ghost use Rattle.std.specs.Cmp.Rules.{comparing};
    ghost use Rattle.std.specs.Cmp.{partial_order_from_own_ties};
    ghost use Rattle.std.specs.Cmp.Lexicographic.{slice_cmp};
    ghost use Rattle.std.specs.Ordering.{nat_cmp, as_partial_cmp};

    ghost partial_cmp = { as_partial_cmp (slice_cmp nat_cmp) };

    ghost laws = { partial_order_from_own_ties (Prim.search (comparing, rules)) (Prim.search (comparing, rules)) };

    fn partial_cmp(&self, other: &Value) -> Option<Ordering> {
        Some(self.cmp(other))
    }
}
