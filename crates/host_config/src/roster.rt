//! Names of a network for which events and bytes are reserved.

ghost use Rattle.std.specs.Prelude.{◌≡◌, ◌≤◌, IfErr, IfOk, IfSome, Some, None, is_some, length};
ghost use Rattle.std.specs.List.Sorted.{IsPermutation};
ghost use Rattle.scp_types.specs.Trees.{all_differ};
ghost use Rattle.scp_spec.specs.Sets.{among, IsAscending};
ghost use Rattle.host_config.specs.Budgets.{AreShares};
ghost use Rattle.host_config.specs.Faults.{first_fault, roster_tests};
ghost use Rattle.host_config.specs.Rosters.{IsRosterOf};

use crate::error::ConfigError;
use crate::shares::Shares;
use scp_slices::is_among;
use scp_types::{NodeId, is_ascending};
use std::alloc::{AllocError, Global};
use std::marker::Model;

/// The most names of a roster (this host's profile).
pub const MAX_ROSTER: usize = 1024;

/// The names of a network for which shares are reserved: at most 1,024, ascending (this host's profile).
///
/// For example, names that are given as C, A and B stand as A, B, C; and C, A and C are no roster.
#[derive(Drop)]
pub struct Roster {
    names: Vec<NodeId>,
    shares: Shares,
}

/// What a roster is made of: its names, and what is reserved for them.
#[derive(Drop)]
pub struct Reservation {
    /// The names, in any order.
    pub names: Vec<NodeId>,
    /// What is reserved for each of them.
    pub shares: Shares,
}

impl Model for Roster {
    ghost use Rattle.scp_spec.specs.Rosters.{Roster as Meant};
    ghost use Rattle.host_config.specs.Rosters.{AreReserved};

    ghost Value = { Meant };

    ghost view = { λ r. record { names = r.names.items; shares = r.shares } };

    ghost invariant = { λ r. AreReserved r.names.items r.shares };
}

impl Roster {
    /// A roster of names in any order, or the first fault that applies. It takes no memory.
    pub(crate) fn new(names: Vec<NodeId>, shares: Shares) -> Result<Roster, ConfigError>
        ensures roster { IfOk result (IsRosterOf names.items shares) }
        ensures faultless { IfOk result (λ _. first_fault (roster_tests names.items shares) ≡ None) }
        ensures fault { IfErr result (λ e. first_fault (roster_tests names.items shares) ≡ Some e) }
    {
        let Some(names) = in_order(names) else {
            return Err(ConfigError::RosterTwice);
        };
        if names.len() > MAX_ROSTER {
            return Err(ConfigError::RosterTooLong);
        }
        if shares.is_too_large() {
            return Err(ConfigError::ShareTooLarge);
        }
        Ok(Roster { names, shares })
    }

    /// The shares that are reserved, each at most 2^40.
    pub fn shares(&self) -> &Shares
        ensures value { result.now ≡ self.now.shares }
        ensures limits { AreShares result.now.own result.now.pair result.now.bytes result.now.opens }
    {
        &self.shares
    }

    /// The names, ascending, at most 1,024.
    pub fn names(&self) -> &[NodeId]
        ensures value { result.now ≡ self.now.names }
        ensures ascending { IsAscending result.now }
        ensures few { length result.now ≤ 1024 }
    {
        &self.names
    }

    /// Whether the name is on it, by a binary search.
    pub fn has(&self, name: &NodeId) -> bool
        ensures { result ≡ among self.now.names name.now }
    {
        is_among(&self.names, name)
    }

    /// A copy. An error says that it is out of memory.
    pub fn try_copy(&self, alloc: Global) -> Result<Roster, AllocError>
        ensures { IfOk result (λ r. r ≡ self.now) }
    {
        Ok(Roster {
            names: Vec::from_slice(alloc, &self.names)?,
            shares: self.shares,
        })
    }
}

/// The names in ascending order; `None` if one stands twice.
fn in_order(names: Vec<NodeId>) -> Option<Vec<NodeId>>
    ensures names { IfSome result (λ v. IsPermutation names.items v.items) }
    ensures ascending { IfSome result (λ v. IsAscending v.items) }
    ensures exactly { is_some result ≡ all_differ names.items }
{
    let mut names = names;
    // In place, so that being out of memory never hides a fault.
    names.sort_unstable();
    if is_ascending(&names) {
        Some(names)
    } else {
        None
    }
}
