//! Nodes that events lead to, and what they send.

ghost use Rattle.scp_spec.specs.LastSent.{LastIsSent};
ghost use Rattle.scp_spec.specs.Limits.{NodesAreCalm, SendsWellFormed, TimersAreCounted};
ghost use Rattle.scp_spec.specs.Reslices.{ReslicesChangeVotes, SameSlicesAreQuiet, SlicesFollowEvents, SlicesFollowRuns};
ghost use Rattle.scp_spec.specs.Strangers.{HeldIsClosed, LeadersAreNear, OutsidersAddRows, OutsidersAreQuiet, StrangersAddRows};

/// Each nomination and each ballot statement that a node sends is well formed, whatever events led to it and whatever
/// rows it has. Nor have more of its ballot timers fired than the counter of its ballot says, so their number fits
/// where a counter does. And one more pass would change nothing, so a node's votes are at rest between events.
#[tactic(auto, using(crate::proofs::Nodes::Lawful::nodes_are_calm, crate::proofs::Nodes::Lawful::timers_are_counted, crate::proofs::Nodes::Lawful::sends_well_formed))]
pub fn nodes_send_well_formed()
    ensures calm { NodesAreCalm }
    ensures timers { TimersAreCounted }
    ensures sends { SendsWellFormed }
{}

/// A node takes an envelope whose sender it does not reach, and which is no leader of its. Then its table has the row,
/// nothing else of it changes, and it gives nothing out. Leaders stay when slices change. So a set that is to be closed
/// for the node has the names of all slices that it has had.
pub fn strangers_add_rows()
    ensures leaders { LeadersAreNear }
    ensures held { HeldIsClosed }
    ensures outsiders { OutsidersAddRows }
    ensures quiet { OutsidersAreQuiet }
    ensures strangers { StrangersAddRows }
{}

/// A node has the slices that were given to it last. In a run these are what the run gave it last since the slot was
/// opened. Apart from them, new slices change only its votes, and those that it has already change nothing.
#[tactic(auto, using(crate::proofs::Networks::SlicesOfRuns::slices_follow_runs, crate::proofs::Nodes::Reslices::slices_follow_events, crate::proofs::Nodes::Reslices::reslices_change_votes, crate::proofs::Nodes::Reslices::same_slices_are_quiet))]
pub fn slices_follow_events()
    ensures slices { SlicesFollowEvents }
    ensures runs { SlicesFollowRuns }
    ensures rest { ReslicesChangeVotes }
    ensures same { SameSlicesAreQuiet }
{}

/// In a run, what a hosted node emitted last of each kind since its slot was opened is what it would send now. It
/// emitted none of a kind if it would send none. So a statement differs from the last one emitted exactly if it differs
/// from the one that would have been sent before.
#[tactic(auto, using(crate::proofs::Sending::LastSent::last_is_sent))]
pub fn last_emitted_is_sent()
    ensures { LastIsSent }
{}
