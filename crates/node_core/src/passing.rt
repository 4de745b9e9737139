//! One pass of the rules, or a part of one.
//!
//! An error of a function here says that it is out of memory.

ghost use Rattle.std.specs.Prelude.{◌≡◌, OnOk};
ghost use Rattle.node_rules.specs.Drafted.{after};
ghost use Rattle.scp_spec.specs.Passes.{balloting, counting, unless_over, voting};
ghost use Rattle.scp_spec.specs.States.{position};
ghost use Rattle.node_core.specs.Stirrings.{part_of_pass};

use crate::stirring::Stirred;
use node_rules::{
    Draft, accept_commit, accept_prepared, arm, confirm_commit, confirm_prepared, nominate,
    own_position, raise, start,
};
use scp_types::{Inputs, NodeId, Phase, Statement};
use scp_voting::Sight;
use std::alloc::{AllocError, Global};

/// What the rules of a pass read besides the votes.
#[derive(Drop)]
pub(crate) struct PassContext<'a, S> {
    /// The node's own name.
    pub own: &'a NodeId,
    /// What it sees of its table.
    pub sight: &'a S,
    /// What only events set.
    pub inputs: &'a Inputs,
}

/// The part of a pass that is these rules, in their order, each with what the one before it made. In
/// [`Phase::Externalized`] nothing changes (the Stellar Consensus Protocol draft; the order is this host's profile).
#[tactic(auto, unfolding(scp_spec::specs::Passes::pass, scp_spec::specs::Passes::pass_rules, scp_spec::specs::Passes::balloted_in, scp_spec::specs::Passes::nominated_in))]
pub(crate) fn apply_part<S: Sight>(
    alloc: Global,
    context: &PassContext<'_, S>,
    rules: Stirred,
    draft: &mut Draft<'_>,
) -> Result<(), AllocError>
    ensures { OnOk result (draft.new ≡ after (part_of_pass rules context.now.own.now (S.seen context.now.sight.now) context.now.inputs.now) draft.old) }
{
    match draft.votes().phase {
        Phase::Externalized => Ok(()),
        Phase::Preparing | Phase::Committing => match rules {
            Stirred::All => {
                nominate(alloc, context.own, context.sight, context.inputs, draft)?;
                balloting(alloc, context.sight, context.inputs, draft)
            }
            Stirred::Ballots => balloting(alloc, context.sight, context.inputs, draft),
            Stirred::Nominations => nominate(
                alloc,
                context.own,
                context.sight,
                context.inputs,
                draft,
            ),
        },
    }
}

/// The rules of balloting, in order: the first ballot; then what is prepared and what is committed, each accepted and
/// then confirmed. Unless a value is externalized by then, counters follow, first raised and then armed.
fn balloting<S: Sight>(
    alloc: Global,
    sight: &S,
    inputs: &Inputs,
    draft: &mut Draft<'_>,
) -> Result<(), AllocError>
    ensures { OnOk result (draft.new ≡ after (balloting (S.seen sight.now) inputs.now) draft.old) }
{
    start(alloc, sight, draft)?;
    let mut own = own_position(draft.votes())?;
    let voted = vote_and_count(alloc, sight, inputs, &mut own, draft);
    drop(own);
    voted
}

/// The rules that follow the first ballot, in order. `own` is the node's own position, which is found anew only if a
/// rule changes it.
#[tactic(auto, unfolding(scp_spec::specs::Passes::voting, scp_spec::specs::Passes::counting))]
fn vote_and_count<S: Sight>(
    alloc: Global,
    sight: &S,
    inputs: &Inputs,
    own: &mut Option<Statement>,
    draft: &mut Draft<'_>,
) -> Result<(), AllocError>
    requires { own.old ≡ position draft.old.now }
    ensures { OnOk result (draft.new ≡ after (λ w. unless_over (counting (S.seen sight.now) inputs.now) (voting (S.seen sight.now) w)) draft.old) }
{
    accept_prepared(alloc, sight, own, draft)?;
    confirm_prepared(alloc, sight, own, draft)?;
    accept_commit(alloc, sight, own, draft)?;
    confirm_commit(alloc, sight, own, draft)?;
    match draft.votes().phase {
        Phase::Externalized => Ok(()),
        Phase::Preparing | Phase::Committing => {
            raise(alloc, sight, inputs, own, draft)?;
            arm(alloc, sight, own, draft)
        }
    }
}
