//! Passes, until one changes nothing.
//!
//! An error of a function here says that it is out of memory.

ghost use Rattle.std.specs.Prelude.{◌≡◌, ◌-◌, IfOk, IsTrue, OnOk, Some, is_some, unwrap_or};
ghost use Rattle.scp_spec.specs.Nodes.{settle, most_passes};
ghost use Rattle.scp_spec.specs.Passes.{balloted_in, nominated_in, pass};
ghost use Rattle.scp_spec.specs.Stirring.{settle_after, settle_nominations};
ghost use Rattle.node_core.specs.Differences.{IsDifference, some_if};
ghost use Rattle.node_core.specs.Stirrings.{Stirs, part_of_pass};

use crate::answering::set_settled;
use crate::passing::{PassContext, apply_part};
use crate::stirring::Stirred;
use node_rules::Draft;
use scp_types::Votes;
use scp_voting::Sight;
use std::alloc::{AllocError, Global};

/// How many passes are tried after an event at most, `most_passes` of the definitions; none needs more than four.
const MOST_PASSES: u32 = 64;

/// Sets the votes after passes until one changes nothing, if the event before stirs only these rules. None are set if the
/// first pass changes nothing, as after most events: then votes are not even copied. Else they are copied once for each
/// pass that changes some. After an error what is set means nothing.
pub(crate) fn settle_from<S: Sight>(
    alloc: Global,
    context: &PassContext<'_, S>,
    votes: &Votes,
    stirred: Stirred,
    settled: &mut Option<Votes>,
) -> Result<(), AllocError>
    requires stirs { Stirs stirred context.now.own.now (S.seen context.now.sight.now) context.now.inputs.now votes.now }
    requires settles { IsTrue (is_some (settle most_passes (pass context.now.own.now (S.seen context.now.sight.now) context.now.inputs.now) votes.now)) }
    ensures { OnOk result (settle most_passes (pass context.now.own.now (S.seen context.now.sight.now) context.now.inputs.now) votes.now ≡ Some (unwrap_or settled.new votes.now)) }
{
    change_by(alloc, context, votes, stirred, settled)?;
    let Some(next) = settled else {
        return Ok(());
    };
    let has_settled = settle_next(alloc, context, votes, next, stirred)?;
    if !has_settled {
        unreachable!()
    }
    Ok(())
}

/// Does the passes that are left, if the first one, of these rules, made other votes. Whether they end: they do not if
/// each of 64 changes something, which no event of a node makes (the limit is this host's profile).
fn settle_next<S: Sight>(
    alloc: Global,
    context: &PassContext<'_, S>,
    before: &Votes,
    votes: &mut Votes,
    stirred: Stirred,
) -> Result<bool, AllocError>
    requires stirs { Stirs stirred context.now.own.now (S.seen context.now.sight.now) context.now.inputs.now before.now }
    requires next { IsDifference before.now (part_of_pass stirred context.now.own.now (S.seen context.now.sight.now) context.now.inputs.now before.now) (Some votes.old) }
    ensures { IfOk result (λ b. some_if b votes.new ≡ settle most_passes (pass context.now.own.now (S.seen context.now.sight.now) context.now.inputs.now) before.now) }
{
    match stirred {
        Stirred::All => settle_on(alloc, context, votes),
        Stirred::Ballots => settle_on(alloc, context, votes),
        Stirred::Nominations => settle_nominated(alloc, context, before, votes),
    }
}

/// Does the passes that are left after a first one of which only nomination is done. If it confirmed no value, nothing
/// is left to do; else balloting is. Whether they end.
fn settle_nominated<S: Sight>(
    alloc: Global,
    context: &PassContext<'_, S>,
    before: &Votes,
    votes: &mut Votes,
) -> Result<bool, AllocError>
    requires { votes.old ≡ nominated_in context.now.own.now (S.seen context.now.sight.now) context.now.inputs.now before.now }
    ensures { IfOk result (λ b. some_if b votes.new ≡ settle_nominations context.now.own.now (S.seen context.now.sight.now) context.now.inputs.now before.now) }
{
    if votes.confirms.is_same(&before.confirms) {
        return Ok(true);
    }
    ballot_from(alloc, context, votes)?;
    settle_after(alloc, context, before, votes)
}

fn ballot_from<S: Sight>(
    alloc: Global,
    context: &PassContext<'_, S>,
    votes: &mut Votes,
) -> Result<(), AllocError>
    ensures { OnOk result (votes.new ≡ balloted_in (S.seen context.now.sight.now) context.now.inputs.now votes.old) }
{
    let mut next = None;
    change_by(alloc, context, votes, Stirred::Ballots, &mut next)?;
    set_settled(votes, next);
    Ok(())
}

/// Does the passes that follow a whole first one; in these nomination changes nothing. Whether they end.
fn settle_after<S: Sight>(
    alloc: Global,
    context: &PassContext<'_, S>,
    before: &Votes,
    votes: &mut Votes,
) -> Result<bool, AllocError>
    ensures { IfOk result (λ b. some_if b votes.new ≡ settle_after (S.seen context.now.sight.now) context.now.inputs.now before.now votes.old) }
{
    if votes.is_same(before) {
        return Ok(true);
    }
    settle_on(alloc, context, votes)
}

/// Does the passes that are left once a first one changed something; in these nomination changes nothing. Whether they
/// end.
fn settle_on<S: Sight>(
    alloc: Global,
    context: &PassContext<'_, S>,
    votes: &mut Votes,
) -> Result<bool, AllocError>
    ensures { IfOk result (λ b. some_if b votes.new ≡ settle (most_passes - 1) (balloted_in (S.seen context.now.sight.now) context.now.inputs.now) votes.old) }
{
    for number in 1..MOST_PASSES {
        let mut next = None;
        change_by(alloc, context, votes, Stirred::Ballots, &mut next)?;
        match next {
            None => return Ok(true),
            Some(next) => set_settled(votes, Some(next)),
        }
    }
    Ok(false)
}

/// Sets what the part of a pass with these rules makes of votes; none if they stay the same. After an error what is set
/// means nothing.
#[inline(always)]
fn change_by<S: Sight>(
    alloc: Global,
    context: &PassContext<'_, S>,
    votes: &Votes,
    rules: Stirred,
    changed: &mut Option<Votes>,
) -> Result<(), AllocError>
    ensures { OnOk result (IsDifference votes.now (part_of_pass rules context.now.own.now (S.seen context.now.sight.now) context.now.inputs.now votes.now) changed.new) }
{
    let mut draft = Draft::of(votes);
    match apply_part(alloc, context, rules, &mut draft) {
        Ok(()) => {
            *changed = draft.into_changed();
            forget_same(changed, votes);
            Ok(())
        }
        Err(error) => {
            drop(draft);
            Err(error)
        }
    }
}

/// Votes that rules set are let go of if they are the same as before after all.
fn forget_same(changed: &mut Option<Votes>, before: &Votes)
    ensures { IsDifference before.now (unwrap_or changed.old before.now) changed.new }
{
    let Some(votes) = &*changed else {
        return;
    };
    if votes.is_same(before) {
        *changed = None;
    }
}
