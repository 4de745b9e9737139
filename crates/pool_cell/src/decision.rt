//! What a node decided.

ghost use Rattle.std.specs.Prelude.{◌≡◌, ◌↔◌, IfOk, IsTrue};

use scp_types::{NodeId, Value};
use std::alloc::AllocError;

/// A node externalized a value for a slot.
#[derive(Debug, Drop)]
pub struct Decision {
    pub slot: u64,
    pub node: NodeId,
    pub value: Value,
}

impl Decision {
    /// A copy of the decision. It takes no memory; an error says that its value has too many owners.
    pub fn try_copy(&self) -> Result<Decision, AllocError>
        ensures { IfOk result (λ d. d ≡ self.now) }
    {
        Ok(Decision {
            slot: self.slot,
            node: self.node,
            value: self.value.try_copy()?,
        })
    }

    /// Whether slot, node and value are the same.
    pub fn is_same(&self, other: &Decision) -> bool
        ensures { IsTrue result ↔ self.now ≡ other.now }
    {
        self.slot == other.slot
            && self.node.is_same(&other.node)
            && self.value.is_same(&other.value)
    }
}

pub(crate) fn are_same(decisions: &[Decision], others: &[Decision]) -> bool
    ensures { IsTrue result ↔ decisions.now ≡ others.now }
{
    match decisions {
        [] => others.is_empty(),
        [first, rest @ ..] => match others {
            [] => false,
            [other, others @ ..] => first.is_same(other) && are_same(rest, others),
        },
    }
}
