//! Whether claims are accepted or confirmed, by the node's own position and what it sees, and prepare of a ballot
//! among them.
//!
//! An error of a function here says that it is out of memory, or that a value has too many owners.

ghost use Rattle.std.specs.Prelude.{◌≡◌, ◌&&◌, IfOk};
ghost use Rattle.scp_voting.specs.declared.claim.Claim.TheVariants.{Prepare};
ghost use Rattle.scp_spec.specs.Balloting.{may_be_prepared};
ghost use Rattle.node_rules.specs.Stages.{has_come_to};

use crate::search::Check;
use scp_types::{LentBallot, Phase, Statement, Value};
use scp_voting::{Claim, Sight, is_accepted, is_confirmed};
use std::alloc::{AllocError, Global};

/// How far a claim has come by federated voting.
#[derive(Clone, Copy)]
pub(crate) enum Stage {
    /// The node accepts it.
    Accepted,
    /// The node confirms it.
    Confirmed,
}

/// Whether a claim has come to this stage, by a node in this position.
#[inline(always)]
pub(crate) fn has_come_to<S: Sight>(
    alloc: Global,
    stage: Stage,
    sight: &S,
    own: &Option<Statement>,
    claim: Claim,
) -> Result<bool, AllocError>
    ensures { IfOk result (λ b. b ≡ has_come_to stage (S.seen sight.now) own.now claim) }
{
    match stage {
        Stage::Accepted => is_accepted(alloc, sight, own, &claim),
        Stage::Confirmed => is_confirmed(alloc, sight, own, &claim),
    }
}

/// Whether prepare of a ballot has come to this stage.
#[derive(Drop)]
pub(crate) struct PrepareAt<'a, S> {
    pub stage: Stage,
    pub sight: &'a S,
    pub own: &'a Option<Statement>,
}

impl<'a, S: Sight> Check for PrepareAt<'a, S> {
    ghost holds = { λ s t. has_come_to s.stage (S.seen s.sight.now) s.own.now (Prepare t) };

    fn check(&self, alloc: Global, candidate: &LentBallot) -> Result<bool, AllocError> {
        let claim = Claim::Prepare(candidate.try_copy()?);
        has_come_to(alloc, self.stage, self.sight, self.own, claim)
    }
}

/// Whether prepare of a ballot has come to this stage that may be the highest accepted one: in
/// [`Phase::Committing`] it must have the node's ballot's value.
#[derive(Drop)]
pub(crate) struct MayBePrepared<'a, S> {
    pub prepare: PrepareAt<'a, S>,
    pub phase: Phase,
    pub value: &'a Value,
}

impl<'a, S: Sight> Check for MayBePrepared<'a, S> {
    ghost holds = { λ s t. may_be_prepared s.phase s.value.now t && has_come_to s.prepare.stage (S.seen s.prepare.sight.now) s.prepare.own.now (Prepare t) };

    fn check(&self, alloc: Global, candidate: &LentBallot) -> Result<bool, AllocError> {
        if may_be_prepared(self.phase, self.value, candidate) {
            self.prepare.check(alloc, candidate)
        } else {
            Ok(false)
        }
    }
}

fn may_be_prepared(phase: Phase, value: &Value, ballot: &LentBallot) -> bool
    ensures { result ≡ may_be_prepared phase value.now ballot.now }
{
    match phase {
        Phase::Committing => *ballot.value() == *value,
        Phase::Preparing | Phase::Externalized => true,
    }
}
