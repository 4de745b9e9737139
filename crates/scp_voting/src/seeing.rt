//! What the rules take as accepted and confirmed, in the words of federated voting.

ghost use Rattle.scp_voting.specs.Seeing.{AcceptedByRows, ConfirmedByRows};

/// What a node accepts and confirms by what it sees of its table is what federated voting says over the
/// rows of that table: by existence of quorums, of whatever nodes, and of blocking sets. The node itself
/// counts by its position, every other node by its row; the node's slices are the configured ones (the
/// Stellar Consensus Protocol draft, of federated voting; Mazières 2015).
pub fn seen_voting_is_by_rows()
    ensures accepted { AcceptedByRows }
    ensures confirmed { ConfirmedByRows }
{}
