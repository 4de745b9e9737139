//! What a comparison of two submissions answers.

use crate::reply::Replies;
use scp_types::NodeId;

/// What a comparison of two submissions to a network answers, for the closure of a node in the first. It is the first
/// of these that applies (this host's profile).
#[derive(Drop)]
pub enum Crowd {
    /// The networks host this node unlike. It is the node that was asked for, if the first does not host it; else the
    /// least member that only one hosts, or that they host with other slices.
    CastDiffers(NodeId),
    /// A network has no roster, or they differ in its names, in its shares or in their budgets of open slots.
    RosterDiffers,
    /// The least member that is not on the roster.
    OutsideRoster(NodeId),
    /// The number of submitted steps that concern the members and agree before the first difference.
    InputsDiffer(usize),
    /// All of this is the same. These are the replies to these steps, the same in both.
    Same(Replies),
}
