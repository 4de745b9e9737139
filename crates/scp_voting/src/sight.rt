//! What a node sees of its table: all that the rules read of it.
//!
//! An error of a function here says that it is out of memory, or that a value has too many owners.

ghost use Rattle.std.specs.Prelude.{◌≡◌, ◌↔◌, IfOk, IsTrue, flat_map};
ghost use Rattle.scp_types.specs.declared.kind.Kind.{Kind};
ghost use Rattle.scp_spec.specs.Candidates.{as_set, values_by};
ghost use Rattle.scp_spec.specs.Views.{Seen, accepted, confirmed};
ghost use Rattle.scp_voting.specs.Mentions.{mentioned_in};
ghost use Rattle.scp_voting.specs.Questions.{accepts, asks, backs, kind_asked, kind_of_claim};
ghost use Rattle.scp_voting.specs.Searching.{next_counter, next_under};
ghost use Rattle.scp_voting.specs.Seeing.{AcceptsClaim, ConfirmsClaim, Standpoint, seen_from};

use crate::claim::Claim;
use crate::mention::Mention;
use crate::position::Position;
use crate::question::Question;
use scp_types::{LentBallot, Values};
use std::alloc::{AllocError, Global};

/// What a node sees of its table at one moment: the rows of the others that it reaches, the rows of its
/// leaders, and the two tests of federated voting (the Stellar Consensus Protocol draft, of federated
/// voting).
///
/// The rules of nomination and balloting know the table only by this. `seen` is what their contracts speak of, and
/// `standpoint` whose table it is.
pub trait Sight {
    ghost seen: { Self → Seen };

    ghost standpoint: { Self → Standpoint };

    /// Whether some quorum that contains the node all passes, by the rows of the kind that is asked; `own_passes`
    /// says whether the node's own position does (Mazières 2015, of quorums).
    fn quorum(
        &self,
        alloc: Global,
        own_passes: bool,
        question: &Question<'_>,
    ) -> Result<bool, AllocError>
        ensures { IfOk result (λ b. b ≡ (seen self.now).quorum (kind_asked question.now) own_passes (asks question.now)) };

    /// Whether those who pass block the node's slices, by the rows of the kind that is asked (Mazières 2015, of
    /// v-blocking sets).
    fn blocking(
        &self,
        alloc: Global,
        own_passes: bool,
        question: &Question<'_>,
    ) -> Result<bool, AllocError>
        ensures { IfOk result (λ b. b ≡ (seen self.now).blocking (kind_asked question.now) own_passes (asks question.now)) };

    /// The values that the nomination rows of the others that are reached vote for or accept, ascending, in a
    /// list of the caller's own.
    fn nominated_values(&self, alloc: Global) -> Result<Values, AllocError>
        ensures { IfOk result (λ v. v ≡ as_set (flat_map values_by ((seen self.now).rows Kind.Nomination))) };

    /// The values that the nomination rows of the leaders vote for or accept, ascending, gathered anew at
    /// each call.
    fn led_values(&self, alloc: Global) -> Result<Values, AllocError>
        ensures { IfOk result (λ v. v ≡ as_set (flat_map values_by (seen self.now).led)) };

    /// The greatest ballot of which the ballot rows of the others that are reached speak in this way. Only those count
    /// that have a counter from 1 on and, if there is a bound, are below it. `None` if there is no such ballot.
    fn next_mentioned<'a>(
        &'a self,
        mention: Mention,
        bound: &Option<LentBallot>,
    ) -> Option<LentBallot<'a>>
        ensures { result ≡ next_under bound.now (mentioned_in mention ((seen self.now).rows Kind.Ballot)) };

    /// The least counter above this one that a ballot row of the others that are reached has. `None` if there is no
    /// such counter; an EXTERNALIZE has none.
    fn next_counter(&self, above: u32) -> Option<u32>
        ensures { result ≡ next_counter above ((seen self.now).rows Kind.Ballot) };

    /// What is seen is what a node with that name, those slices and those leaders sees of that table.
    ghost tied: { (s : Self) → seen s ≡ seen_from (standpoint s) };
}

/// Whether a node in this position accepts the claim: some quorum that contains it all votes for or accepts it, or
/// those who accept it block the node's slices (the Stellar Consensus Protocol draft, of federated voting; Mazières
/// 2015, of accepting). The quorum is one of whatever nodes, by the rows of the node's table; the node itself counts
/// by its position, every other node by its row.
pub fn is_accepted<S: Sight, P: Position>(
    alloc: Global,
    sight: &S,
    position: &P,
    claim: &Claim,
) -> Result<bool, AllocError>
    ensures computed { IfOk result (λ b. b ≡ accepted (S.seen sight.now) (kind_of_claim claim.now) (P.position position.now) (backs claim.now) (accepts claim.now)) }
    ensures exists { IfOk result (λ b. IsTrue b ↔ AcceptsClaim (S.standpoint sight.now) (P.position position.now) claim.now) }
{
    let backs = Question::Backs(claim);
    if sight.quorum(alloc, position.passes(&backs), &backs)? {
        return Ok(true);
    }
    let accepts = Question::Accepts(claim);
    sight.blocking(alloc, position.passes(&accepts), &accepts)
}

/// Whether a node in this position confirms the claim: some quorum that contains it all accepts it, by the rows of
/// the node's table (the Stellar Consensus Protocol draft, of federated voting; Mazières 2015, of confirming).
pub fn is_confirmed<S: Sight, P: Position>(
    alloc: Global,
    sight: &S,
    position: &P,
    claim: &Claim,
) -> Result<bool, AllocError>
    ensures computed { IfOk result (λ b. b ≡ confirmed (S.seen sight.now) (kind_of_claim claim.now) (P.position position.now) (accepts claim.now)) }
    ensures exists { IfOk result (λ b. IsTrue b ↔ ConfirmsClaim (S.standpoint sight.now) (P.position position.now) claim.now) }
{
    let accepts = Question::Accepts(claim);
    sight.quorum(alloc, position.passes(&accepts), &accepts)
}
