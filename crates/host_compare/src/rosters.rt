//! Whether two networks reserve the same, and for whom.

ghost use Rattle.std.specs.Prelude.{◌≡◌, ◌↔◌, ℕ, IsTrue, MatchOption, Some};
ghost use Rattle.host_closure.specs.Announcing.{member_names};
ghost use Rattle.scp_spec.specs.Sets.{among, within};
ghost use Rattle.scp_spec.specs.Submissions.{SameReserves, SameRoster};
ghost use Rattle.host_closure.specs.Least.{AreAll, IsLeast};
ghost use Rattle.host_compare.specs.Listing.{IsOff, IsOnRoster};

use host_closure::{ClosureList, least_failing};
use host_config::{NetConfig, Roster, Shares};
use scp_types::NodeId;

/// Whether both networks have a roster, of the same names and with equal shares, and equal budgets of open
/// slots.
pub(crate) fn has_same_reserves(one: &NetConfig, other: &NetConfig) -> bool
    ensures { IsTrue result ↔ SameReserves (Some one.now) (Some other.now) }
{
    let Some(roster) = one.roster() else {
        return false;
    };
    let Some(counterpart) = other.roster() else {
        return false;
    };
    is_same_roster(roster, counterpart) && one.budgets().slots() == other.budgets().slots()
}

fn is_same_roster(one: &Roster, other: &Roster) -> bool
    ensures { IsTrue result ↔ SameRoster (Some one.now) (Some other.now) }
{
    has_same_names(one, other) && is_same_share(one.shares(), other.shares())
}

/// Whether each has the names of the other.
fn has_same_names(one: &Roster, other: &Roster) -> bool
    ensures { IsTrue result ↔ ((u : ℕ) → among one.now.names u ≡ among other.now.names u) }
{
    if !is_within(one.names(), other) {
        return false;
    }
    is_within(other.names(), one)
}

fn is_within(names: &[NodeId], roster: &Roster) -> bool
    ensures { result ≡ within names.now (among roster.now.names) }
{
    match names {
        [] => true,
        [first, rest @ ..] => roster.has(first) && is_within(rest, roster),
    }
}

fn is_same_share(one: &Shares, other: &Shares) -> bool
    ensures { IsTrue result ↔ one.now ≡ other.now }
{
    one.own() == other.own()
        && one.pair() == other.pair()
        && one.bytes() == other.bytes()
        && one.opens() == other.opens()
}

/// The least member that is not on the roster.
pub(crate) fn least_outside(members: &ClosureList, roster: &Roster) -> Option<NodeId>
    ensures { MatchOption result (AreAll (IsOnRoster roster.now.names) (member_names members.now)) (IsLeast (IsOff roster.now.names) (IsOnRoster roster.now.names) (member_names members.now)) }
{
    least_failing(members, |name| roster.has(name))
}
