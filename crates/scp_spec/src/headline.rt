//! Isolation of hosted validators, and the claims that it is made of.

ghost use Rattle.scp_spec.specs.Agreeing.{NewNetworksAgree, OtherStepsLeave, RunsStayClosedIn, StaysClosedIn, StepsAgree};
ghost use Rattle.scp_spec.specs.Claims.{Agree, CalmNodesAreQuiet, PrefixOfReach, PrefixOfRun, PrefixOfWholeRun};
ghost use Rattle.scp_spec.specs.Isolation.{Isolation, SameClosures};
ghost use Rattle.scp_spec.specs.Runs.{JournalsAreRuns, RunsAreJournals};
ghost use Rattle.scp_spec.specs.Verdicts.{IsolatedRuns, VerdictsAreUnique, VerdictsExist};

/// This holds for any two host histories, whatever networks, strangers and interleavings they have. It is about a
/// network, a slot, and the validators that one of its nodes reaches through its own and announced slices. Both must
/// host these alike, with the same slices, and the applied steps that concern them must be the same in order. Then that
/// node and each hosted validator that it reaches emit the same statements in both. They arm the same timers and
/// externalize the same value. It holds for every decoder of envelopes, and so for this host's.
#[tactic(auto, using(crate::proofs::Runs::Hosts::isolation))]
pub fn isolation()
    ensures { Isolation }
{}

/// An envelope from outside a set that is closed for a calm node makes it give nothing out. The node's inputs, its
/// votes and the rows of senders in the set stay.
pub fn calm_nodes_are_quiet()
    ensures { CalmNodesAreQuiet }
{}

/// The closure of each beginning of a run lies in that of the whole run. Whom a node reaches lies in each set that is
/// closed for it.
#[tactic(auto, using(crate::proofs::Runs::Claims::prefix_of_run, crate::proofs::Runs::Claims::prefix_of_reach))]
pub fn prefix()
    ensures run { PrefixOfRun }
    ensures reach { PrefixOfReach }
{}

/// Two nodes are one in state and agree on the rows of members of a set that is closed for both. After an event that
/// names only members they still do, and both give out the same.
pub fn agree()
    ensures { Agree }
{}

/// The journal of any events is a run. Each of its entries is an event that is not refused after the entries before it,
/// with what that event gives out. And a run is the journal of its own events.
#[tactic(auto, using(crate::proofs::Networks::Journals::journals_are_runs, crate::proofs::Networks::Journals::runs_are_journals))]
pub fn journals_are_runs()
    ensures journals { JournalsAreRuns }
    ensures runs { RunsAreJournals }
{}

/// Isolation of two runs of one network, each of its own configuration; and a verdict on two runs is
/// determined: every two runs have one, and no two verdicts are right.
#[tactic(auto, using(crate::proofs::Verdicts::IsolatedRuns::isolated_runs, crate::proofs::Verdicts::Determined::verdicts_are_unique, crate::proofs::Verdicts::Found::verdicts_exist))]
pub fn verdicts_are_determined()
    ensures isolated { IsolatedRuns }
    ensures unique { VerdictsAreUnique }
    ensures there { VerdictsExist }
{}

/// Two worlds host the members of the first one's closure alike, and no name twice. The applied steps that concern them
/// are the same in order. Then the closure is the same set of names in both. It holds for any entries, so for two runs
/// and for a network in two histories.
#[tactic(auto, using(crate::proofs::Runs::SameClosures::same_closures))]
pub fn closures_are_the_same()
    ensures { SameClosures }
{}

/// After each beginning of a run the closure of the whole run is closed for each hosted member at the slot. It has all
/// that the member reaches by its table.
pub fn members_stay_within_closures()
    ensures { PrefixOfWholeRun }
{}

/// Two networks agree on a set of names at a slot, which is closed for both, and a step of each is applied. If what is
/// kept of the steps for the set is the same, they still agree. Each member then gives out the same in both. That holds
/// also if a member hears a member, though each network hands over what its own node emitted. A step of which nothing
/// is kept leaves the agreement, and members give nothing out. The set stays closed for each network. New networks with
/// the same members agree, and the closure of a run is closed after each beginning of it.
pub fn networks_agree()
    ensures new { NewNetworksAgree }
    ensures runs { RunsStayClosedIn }
    ensures steps { StepsAgree }
    ensures others { OtherStepsLeave }
    ensures closed { StaysClosedIn }
{}
