//! What passes make of a node that an event changed.

ghost use Rattle.std.specs.Prelude.{◌≡◌, ℕ, IsTrue, OnOk, Some, is_some, unwrap_or};
ghost use Rattle.scp_spec.specs.Nodes.{settle, most_passes};
ghost use Rattle.scp_spec.specs.Passes.{pass};
ghost use Rattle.scp_spec.specs.Views.{Seen};
ghost use Rattle.node_core.specs.Stirrings.{Stirs};
ghost use Rattle.scp_types.specs.declared.state.Inputs.{Inputs};
ghost use Rattle.scp_types.specs.declared.state.Phase.TheVariants.{Externalized};

use crate::passing::PassContext;
use crate::settling::settle_from;
use crate::stirring::Stirred;
use node_view::Configured;
use scp_types::{Inputs, Votes};
use scp_voting::Sight;
use std::alloc::{AllocError, Global};

/// What a node has at one moment besides its rows.
#[derive(Clone, Copy)]
pub(crate) struct State<'a> {
    /// What only events set.
    pub inputs: &'a Inputs,
    /// What its rules made of that.
    pub votes: &'a Votes,
}

/// Where passes start after an event's own change.
#[derive(Clone, Copy)]
pub(crate) struct Start<'a> {
    /// The inputs as they are now.
    pub inputs: &'a Inputs,
    /// The votes, before any pass.
    pub votes: &'a Votes,
    /// The rules that the event stirs.
    pub stirred: Stirred,
}

/// A law: once a value is externalized the votes are at rest, whatever the node sees, since no rule changes them.
#[tactic(auto, using(crate::proofs::Settles::over_settles))]
pub(crate) fn rests(start: &Start<'_>)
    requires { start.now.votes.now.phase ≡ Externalized }
    ensures { (own : ℕ) (seen : Seen) (inputs : Inputs) → settle most_passes (pass own seen inputs) start.now.votes.now ≡ Some start.now.votes.now }
{
    let _phase = start.votes.phase;
}

/// Sets the votes after passes from this start on, by what the node sees; none if they stay. An error says that it is
/// out of memory.
pub(crate) fn settled_votes<'a, S: Sight>(
    alloc: Global,
    configured: &'a Configured,
    sight: &'a S,
    start: &'a Start<'a>,
    settled: &mut Option<Votes>,
) -> Result<(), AllocError>
    requires stirs { Stirs start.now.stirred configured.now.name (S.seen sight.now) start.now.inputs.now start.now.votes.now }
    requires settles { IsTrue (is_some (settle most_passes (pass configured.now.name (S.seen sight.now) start.now.inputs.now) start.now.votes.now)) }
    ensures { OnOk result (settle most_passes (pass configured.now.name (S.seen sight.now) start.now.inputs.now) start.now.votes.now ≡ Some (unwrap_or settled.new start.now.votes.now)) }
{
    let context = PassContext {
        own: &configured.name,
        sight,
        inputs: start.inputs,
    };
    settle_from(alloc, &context, start.votes, start.stirred, settled)
}

/// The votes that settled, or those before if they stayed.
pub(crate) fn votes_or<'a>(settled: &'a Option<Votes>, before: &'a Votes) -> &'a Votes
    ensures { result.now ≡ unwrap_or settled.now before.now }
{
    match settled {
        None => before,
        Some(votes) => votes,
    }
}

#[inline(always)]
pub(crate) fn set_settled(votes: &mut Votes, settled: Option<Votes>)
    ensures { votes.new ≡ unwrap_or settled votes.old }
{
    if let Some(settled) = settled {
        *votes = settled;
    }
}
