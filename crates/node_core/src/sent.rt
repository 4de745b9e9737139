//! What a node sends, and whether it is the same as before.

ghost use Rattle.std.specs.Prelude.{◌≡◌, ◌↔◌, IfOk, IsTrue};
ghost use Rattle.scp_spec.specs.States.{sent_nomination};
ghost use Rattle.node_core.specs.NodeParts.{sent_by};
ghost use Rattle.scp_types.specs.Statements.{IsWellFormed};

use node_view::Configured;
use scp_types::{Envelope, Statement, Votes};
use std::alloc::{AllocError, Global};

/// The nomination that is sent, if one of its sets is not empty. An error says that it is out of memory.
#[tactic(auto, unfolding(scp_spec::specs::States::sent_nomination))]
pub(crate) fn sent_nomination(alloc: Global, votes: &Votes) -> Result<Option<Statement>, AllocError>
    ensures { IfOk result (λ s. s ≡ sent_nomination votes.now) }
{
    if votes.voted.as_slice().len() > 0 || votes.accepts.as_slice().len() > 0 {
        Ok(Some(Statement::Nominate {
            voted: votes.voted.to_values(alloc)?,
            accepted: votes.accepts.to_values(alloc)?,
        }))
    } else {
        Ok(None)
    }
}

/// Whether both send the same nomination, or none.
pub(crate) fn nominates_same(one: &Votes, other: &Votes) -> bool
    ensures { IsTrue result ↔ (one.now.voted ≡ other.now.voted) × (one.now.accepts ≡ other.now.accepts) }
{
    one.voted.is_same(&other.voted) && one.accepts.is_same(&other.accepts)
}

/// Whether both are the same statement, or neither is there.
pub(crate) fn is_same_sent(one: &Option<Statement>, other: &Option<Statement>) -> bool
    ensures { IsTrue result ↔ one.now ≡ other.now }
{
    match one {
        None => other.is_none(),
        Some(one) => match other {
            None => false,
            Some(other) => one.is_same(other),
        },
    }
}

/// The statement as the node sends it. An error says that its slices have too many owners.
pub(crate) fn envelope_of(
    configured: &Configured,
    statement: Statement,
) -> Result<Envelope, AllocError>
    requires { IsWellFormed statement }
    ensures { IfOk result (λ e. e ≡ sent_by configured.now statement) }
{
    match configured.slices.try_copy() {
        Ok(slices) => Ok(Envelope::of(configured.name, configured.slot, slices, statement)),
        Err(error) => {
            drop(statement);
            Err(error)
        }
    }
}
