//! Laws of quorums and blocking sets.

ghost use Rattle.scp_spec.specs.Satisfaction.{BlockingIsCounted};
ghost use Rattle.scp_spec.specs.Quorums.{QuorumsAreFound, LocalCutsAreQuorums, NestedCutsAreQuorums};

/// A set blocks slices if no set apart from it satisfies them. It does so exactly if counting down the tree finds fewer
/// members left than the threshold (Mazières 2015, of v-blocking sets).
pub fn blocking_is_counted()
    ensures { BlockingIsCounted }
{}

/// A quorum that contains a node exists exactly when one is found among the sets of the nodes that
/// have slices (Mazières 2015, of quorums).
pub fn quorums_are_found()
    ensures { QuorumsAreFound }
{}

/// A quorum, cut to a set that contains the names of its members' slices, is a quorum or empty. It holds for slices of
/// any kind that answer alike of two sets that agree on the names in the slices.
pub fn quorum_cut<Q>()
    ensures { LocalCutsAreQuorums Q }
{}

/// What [`quorum_cut`] says, of nested slices.
pub fn nested_quorum_cut()
    ensures { NestedCutsAreQuorums }
{}
