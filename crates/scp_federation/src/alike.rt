//! The general form of federated voting and the one that rules use.

ghost use Rattle.scp_federation.specs.Alike.{AcceptedAlike, ConfirmedAlike};

/// The general form answers what the form that rules use answers. [`crate::accepts`] and [`crate::confirms`] say what
/// federated voting says for slices and voters of any kind. Let the slices be nested: those of a table's rows and the
/// node's own. Let voters pass by these rows, and the node by its position. Then they answer what
/// [`scp_voting::is_accepted`] and [`scp_voting::is_confirmed`] compute.
pub fn general_voting_is_seen_voting()
    ensures accepted { AcceptedAlike }
    ensures confirmed { ConfirmedAlike }
{}
