//! The limit of passes: no event meets it.

ghost use Rattle.scp_spec.specs.Limits.{NeverLimited, WithinFour, RunsComeOfEvents};
ghost use Rattle.scp_spec.specs.Stirring.{BallotRowsStirBallots, NominationRestsAfterAPass, NominationRowsStirNomination};

/// Four passes are enough for each event of a node that events lead to, and the last of them changes nothing. So no
/// event is undone by the limit of 64 passes. And each node in a network's run is one that events lead to.
#[tactic(auto, using(crate::proofs::Passes::Settling::never_limited, crate::proofs::Passes::Settling::within_four, crate::proofs::Networks::Instances::runs_come_of_events))]
pub fn four_passes_are_enough()
    ensures limit { NeverLimited }
    ensures four { WithinFour }
    ensures runs { RunsComeOfEvents }
{}

/// In the passes after an event of a node that events lead to, nomination changes nothing after the first. After a
/// ballot row by which the node reaches no other nodes it changes nothing at all; and after such a nomination row
/// balloting changes nothing if nomination confirms no value.
pub fn rows_stir_their_kind()
    ensures later { NominationRestsAfterAPass }
    ensures ballots { BallotRowsStirBallots }
    ensures nominations { NominationRowsStirNomination }
{}
