//! Rosters with reserved shares: what networks count, and what rosters leave as it is. Nobody crowds out the members of
//! a closure that the roster holds.

ghost use Rattle.scp_spec.specs.Counts.{AppliedWhereRoom, RefusedWhereMet, RunsAreCounted, StaysInRoom, StepsAreCounted};
ghost use Rattle.scp_spec.specs.Crowds.{CrowdsAreUnique, CrowdsExist};
ghost use Rattle.scp_spec.specs.Submissions.{LengthsFollow, MembersAreNeverCrowdedOut, MembersOfRunsAreNeverCrowdedOut};
ghost use Rattle.scp_spec.specs.WithoutRoster.{StaysWithout, StepsWithout};

/// Take two host histories, in which a network has the same roster, equal shares and equal budgets of open slots. Take
/// the closure of one of its nodes in the first. It lies in the roster, and has the same hosted members with the same
/// slices in both. The submitted steps that concern it are the same in order. Then so are their replies, refusals
/// included, and what each hosted member gives out. It holds for every decoder of envelopes, and so for this host's;
/// and for two single networks, whatever is submitted to each of them.
pub fn members_are_never_crowded_out()
    ensures histories { MembersAreNeverCrowdedOut }
    ensures runs { MembersOfRunsAreNeverCrowdedOut }
{}

/// Submitted steps are compared with the lengths of deliveries. If all spellings of an envelope have one length, as for
/// this host's decoder, lengths need no comparison. Steps that are the same but for these are then the same.
#[tactic(auto, using(crate::proofs::Crowds::Lengths::lengths_follow))]
pub fn lengths_follow_from_envelopes()
    ensures { LengthsFollow }
{}

/// What a comparison of two submissions answers is determined: every two submissions have an answer,
/// and no two answers are right.
#[tactic(auto, using(crate::proofs::Verdicts::OfCrowds::crowds_are_unique, crate::proofs::Verdicts::OfCrowds::crowds_exist))]
pub fn crowds_are_determined()
    ensures unique { CrowdsAreUnique }
    ensures there { CrowdsExist }
{}

/// A network without a roster steps by rules that know of none, in which each applied event draws on
/// the budgets; it never has a roster, nor anything drawn on shares.
#[tactic(auto, using(crate::proofs::Crowds::WithoutRoster::steps_without, crate::proofs::Crowds::WithoutRoster::stays_without))]
pub fn without_roster_nothing_changes()
    ensures steps { StepsWithout }
    ensures stays { StaysWithout }
{}

/// What a network counts follows from its journal: on its budgets, and on openings and closings, what drew on them over
/// its life; on a share, what drew on it since its slot was opened. A refusal for lack of room says that what the step
/// draws on is used up, and what is applied found room; so no more is ever drawn than there is.
#[tactic(auto, using(crate::proofs::Networks::Counts::runs_are_counted, crate::proofs::Networks::Drawn::steps_are_counted, crate::proofs::Networks::Refusals::refused_where_met, crate::proofs::Networks::Refusals::applied_where_room))]
pub fn room_is_counted()
    ensures runs { RunsAreCounted }
    ensures steps { StepsAreCounted }
    ensures refused { RefusedWhereMet }
    ensures applied { AppliedWhereRoom }
    ensures stays { StaysInRoom }
{}
