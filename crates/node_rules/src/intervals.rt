//! Whether commit is accepted or confirmed, on intervals and at single counters.
//!
//! An error of a function here says that it is out of memory, or that a value has too many owners.

ghost use Rattle.std.specs.Prelude.{◌≡◌, ◌&&◌, IfOk, nat_lt, not};
ghost use Rattle.scp_types.specs.Votes.{same_value};
ghost use Rattle.scp_voting.specs.declared.claim.Claim.TheVariants.{Commit, Prepare};
ghost use Rattle.scp_spec.specs.Balloting.{is_aborted};
ghost use Rattle.node_rules.specs.Stages.{has_come_to};
ghost use Rattle.node_rules.specs.declared.checks.Stage.TheVariants.{Accepted, Confirmed};

use crate::checks::{Stage, has_come_to};
use crate::prepared::is_aborted;
use crate::search::Check;
use scp_types::{LentBallot, Statement, Value, Votes};
use scp_voting::{Claim, Sight};
use std::alloc::{AllocError, Global};

/// The claim of commit of the ballot's value on the whole interval from its counter to the high end, both included.
fn commit_up_to(low: &LentBallot, high: u32) -> Result<Claim, AllocError>
    ensures { IfOk result (λ c. c ≡ Commit low.now.value low.now.counter high) }
{
    Ok(Claim::Commit {
        value: low.value().try_copy()?,
        low: low.counter(),
        high,
    })
}

/// Whether commit of the candidate's value has come to this stage from its counter up to the high end.
#[derive(Drop)]
pub(crate) struct CommitUpTo<'a, S> {
    pub stage: Stage,
    pub sight: &'a S,
    pub own: &'a Option<Statement>,
    pub high: u32,
}

impl<'a, S: Sight> Check for CommitUpTo<'a, S> {
    ghost holds = { λ s t. has_come_to s.stage (S.seen s.sight.now) s.own.now (Commit t.value t.counter s.high) };

    fn check(&self, alloc: Global, candidate: &LentBallot) -> Result<bool, AllocError> {
        let commit = commit_up_to(candidate, self.high)?;
        has_come_to(alloc, self.stage, self.sight, self.own, commit)
    }
}

/// Whether the candidate is accepted as committed, confirmed as prepared and not aborted, so that the
/// interval may end there when the phase becomes [`scp_types::Phase::Committing`].
#[derive(Drop)]
pub(crate) struct EntersCommit<'a, S> {
    pub sight: &'a S,
    pub own: &'a Option<Statement>,
    pub votes: &'a Votes,
}

impl<'a, S: Sight> Check for EntersCommit<'a, S> {
    ghost holds = { λ s t. has_come_to Accepted (S.seen s.sight.now) s.own.now (Commit t.value t.counter t.counter) && has_come_to Confirmed (S.seen s.sight.now) s.own.now (Prepare t) && not (is_aborted s.votes.now t) };

    fn check(&self, alloc: Global, candidate: &LentBallot) -> Result<bool, AllocError> {
        if is_aborted(self.votes, candidate) {
            return Ok(false);
        }
        let commit = commit_up_to(candidate, candidate.counter())?;
        if !has_come_to(alloc, Stage::Accepted, self.sight, self.own, commit)? {
            return Ok(false);
        }
        let prepare = Claim::Prepare(candidate.try_copy()?);
        has_come_to(alloc, Stage::Confirmed, self.sight, self.own, prepare)
    }
}

/// Whether the candidate is of the ballot's value, above the interval, and accepted as committed, so that
/// the interval may end there.
#[derive(Drop)]
pub(crate) struct WidensCommit<'a, S> {
    pub sight: &'a S,
    pub own: &'a Option<Statement>,
    pub value: &'a Value,
    pub high: u32,
}

impl<'a, S: Sight> Check for WidensCommit<'a, S> {
    ghost holds = { λ s t. same_value t.value s.value.now && nat_lt s.high t.counter && has_come_to Accepted (S.seen s.sight.now) s.own.now (Commit t.value t.counter t.counter) };

    fn check(&self, alloc: Global, candidate: &LentBallot) -> Result<bool, AllocError> {
        let end = candidate.counter();
        if *candidate.value() == *self.value && self.high < end {
            let commit = commit_up_to(candidate, end)?;
            has_come_to(alloc, Stage::Accepted, self.sight, self.own, commit)
        } else {
            Ok(false)
        }
    }
}

/// Whether the candidate is of the ballot's value and confirmed as committed.
#[derive(Drop)]
pub(crate) struct CommitConfirmed<'a, S> {
    pub sight: &'a S,
    pub own: &'a Option<Statement>,
    pub value: &'a Value,
}

impl<'a, S: Sight> Check for CommitConfirmed<'a, S> {
    ghost holds = { λ s t. same_value t.value s.value.now && has_come_to Confirmed (S.seen s.sight.now) s.own.now (Commit t.value t.counter t.counter) };

    fn check(&self, alloc: Global, candidate: &LentBallot) -> Result<bool, AllocError> {
        if *candidate.value() == *self.value {
            let commit = commit_up_to(candidate, candidate.counter())?;
            has_come_to(alloc, Stage::Confirmed, self.sight, self.own, commit)
        } else {
            Ok(false)
        }
    }
}
