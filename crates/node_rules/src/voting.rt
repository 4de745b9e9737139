//! Federated voting on nominating one value.
//!
//! An error of a function here says that it is out of memory, or that a value has too many owners.

ghost use Rattle.std.specs.Prelude.{◌≡◌, IfOk, not, ◌&&◌};
ghost use Rattle.scp_types.specs.declared.statement.Statement.TheVariants.{Nominate};
ghost use Rattle.scp_types.specs.Votes.{has_value};
ghost use Rattle.scp_spec.specs.Nominating.{is_value_accepted, is_value_confirmed};
ghost use Rattle.scp_spec.specs.States.{nomination_position};
ghost use Rattle.scp_voting.specs.Questions.{accepts, backs};

use crate::choosing::ValueTest;
use scp_types::{Value, Votes};
use scp_voting::{Claim, Position, Question, Sight, is_accepted, is_confirmed};
use std::alloc::{AllocError, Global};

/// The node's own position in nomination: what it votes for and what it accepts.
#[derive(Drop)]
pub struct NominationPosition<'a> {
    pub votes: &'a Votes,
}

impl<'a> Position for NominationPosition<'a> {
    ghost position = { λ p. nomination_position p.votes.now };

    #[tactic(auto, unfolding(scp_spec::specs::States::nomination_position))]
    fn passes(&self, question: &Question<'_>) -> bool {
        match question {
            Question::Backs(claim) => is_backed_by(self.votes, claim),
            Question::Accepts(claim) => is_accepted_by(self.votes, claim),
            Question::HasCounter(_) => false,
        }
    }
}

/// Whether the position in nomination votes for or accepts the claim.
fn is_backed_by(votes: &Votes, claim: &Claim) -> bool
    ensures { result ≡ backs claim.now (Nominate votes.now.voted votes.now.accepts) }
{
    match claim {
        Claim::Prepare(_) | Claim::Commit { .. } => false,
        Claim::Nominate(value) => votes.voted.has(value) || votes.accepts.has(value),
    }
}

/// Whether the position in nomination accepts the claim.
fn is_accepted_by(votes: &Votes, claim: &Claim) -> bool
    ensures { result ≡ accepts claim.now (Nominate votes.now.voted votes.now.accepts) }
{
    match claim {
        Claim::Prepare(_) | Claim::Commit { .. } => false,
        Claim::Nominate(value) => votes.accepts.has(value),
    }
}

/// Whether nominating a value is accepted, and was not before.
#[derive(Drop)]
pub struct NewlyAccepted<'a, S> {
    pub sight: &'a S,
    pub votes: &'a Votes,
}

impl<'a, S: Sight> ValueTest for NewlyAccepted<'a, S> {
    ghost passes = { λ t x. not (has_value t.votes.now.accepts x) && is_value_accepted (S.seen t.sight.now) t.votes.now x };

    fn test(&self, alloc: Global, value: &Value) -> Result<bool, AllocError> {
        if self.votes.accepts.has(value) {
            return Ok(false);
        }
        is_value_accepted(alloc, self.sight, self.votes, value)
    }
}

/// Whether nominating a value is confirmed.
#[derive(Drop)]
pub struct NewlyConfirmed<'a, S> {
    pub sight: &'a S,
    pub votes: &'a Votes,
}

impl<'a, S: Sight> ValueTest for NewlyConfirmed<'a, S> {
    ghost passes = { λ t x. is_value_confirmed (S.seen t.sight.now) t.votes.now x };

    fn test(&self, alloc: Global, value: &Value) -> Result<bool, AllocError> {
        is_value_confirmed(alloc, self.sight, self.votes, value)
    }
}

/// Whether nominating the value is accepted: some quorum that contains the node all votes for or accepts it,
/// or those who accept it block (the Stellar Consensus Protocol draft, of federated voting).
pub fn is_value_accepted<S: Sight>(
    alloc: Global,
    sight: &S,
    votes: &Votes,
    value: &Value,
) -> Result<bool, AllocError>
    ensures { IfOk result (λ b. b ≡ is_value_accepted (S.seen sight.now) votes.now value.now) }
{
    let claim = Claim::Nominate(value.try_copy()?);
    is_accepted(alloc, sight, &NominationPosition { votes }, &claim)
}

/// Whether nominating the value is confirmed: some quorum that contains the node all accepts it (the Stellar
/// Consensus Protocol draft, of federated voting).
pub fn is_value_confirmed<S: Sight>(
    alloc: Global,
    sight: &S,
    votes: &Votes,
    value: &Value,
) -> Result<bool, AllocError>
    ensures { IfOk result (λ b. b ≡ is_value_confirmed (S.seen sight.now) votes.now value.now) }
{
    let claim = Claim::Nominate(value.try_copy()?);
    is_confirmed(alloc, sight, &NominationPosition { votes }, &claim)
}
