//! Laws of closures, and of the reach of a node.

ghost use Rattle.scp_spec.specs.Closures.{ClosuresAreDerived, ClosuresAreLeast};
ghost use Rattle.scp_spec.specs.Reach.{ReachFollowsChains, ReachHoldsNames, ReachIsLeast, StaysWithFirstRows, StaysWithSameSlices, StaysWithStrangers};

/// The closure of a name contains it, keeps each rule, and lies in every set that does both.
pub fn closures_are_least()
    ensures { ClosuresAreLeast }
{}

/// A name is in a closure exactly if it is derived: it is the first name, or a rule gives it whose sources are all
/// derived.
pub fn closures_are_derived()
    ensures { ClosuresAreDerived }
{}

/// The reach of a node contains it, the names of its configured slices, and the names in any row
/// whose sender is reached; and it lies in every set that does (this host's profile).
pub fn reach_is_least()
    ensures { ReachIsLeast }
{}

/// A node is reached exactly if a chain leads to it. Each next node of a chain is named in the slices of the one
/// before, by the configuration or by a row.
pub fn reach_follows_chains()
    ensures { ReachFollowsChains }
{}

/// The reach holds all names of its members' slices, by the configuration and by the rows of either
/// kind. So a quorum test may be cut to it.
pub fn reach_holds_names()
    ensures { ReachHoldsNames }
{}

/// The reach of a node stays as it is if a row comes in the place of one with the same slices. So it does if the sender
/// of the row is not reached. And so it does if a sender's first row of a kind comes that names only reached nodes.
pub fn reach_stays()
    ensures slices { StaysWithSameSlices }
    ensures strangers { StaysWithStrangers }
    ensures first_rows { StaysWithFirstRows }
{}
