//! Who a node is.

ghost use Rattle.std.specs.Prelude.{◌≡◌, IfOk};

use crate::Own;
use scp_types::{Nested, NodeId};
use std::alloc::AllocError;

/// Who a node is, at which slot, and the slices that are configured at the moment.
#[derive(Drop)]
pub struct Configured {
    pub name: NodeId,
    pub slot: u64,
    pub slices: Nested,
}

impl Configured {
    /// Its name and its slices.
    pub fn own(&self) -> Own<'_>
        ensures { (result.name.now ≡ self.now.name) × (result.slices.now ≡ self.now.slices) }
    {
        Own {
            name: &self.name,
            slices: &self.slices,
        }
    }

    /// A copy, which shares the slices. An error says that they have too many owners.
    pub fn try_copy(&self) -> Result<Configured, AllocError>
        ensures { IfOk result (λ c. c ≡ self.now) }
    {
        Ok(Configured {
            name: self.name,
            slot: self.slot,
            slices: self.slices.try_copy()?,
        })
    }
}
