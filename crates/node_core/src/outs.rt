//! What a node gives out after an event.
//!
//! An error of a function here says that it is out of memory, or that a value or slices have too many owners.

ghost use Rattle.std.specs.Prelude.{◌≡◌, ◌++◌, [], List, Option, IfOk, IfSome, OnOk, not, ◌&&◌, if◌then◌else◌};
ghost use Rattle.scp_spec.specs.Nodes.{externalization, is_externalized, outs, when};
ghost use Rattle.scp_spec.specs.States.{sent_nomination, sent_vote};
ghost use Rattle.node_core.specs.NodeParts.{emitted_by, node_from_parts, SendWellFormed};
ghost use Rattle.scp_types.specs.Statements.{IsWellFormed, Sent};
ghost use Rattle.scp_types.specs.declared.statement.Statement.{Statement};

use crate::answering::State;
use crate::sent::{envelope_of, is_same_sent, nominates_same, sent_nomination};
use node_rules::{counter_of, sent_vote};
use node_view::Configured;
use scp_types::{Out, Phase, Statement, Votes, statement_of};
use std::alloc::{AllocError, Global};

/// What is given out if an event led from one state to another, in this order (this host's profile). First come the
/// timer of a new round and the ballot timer that was armed. Then come the nomination and the ballot statement, each if
/// it is not what would have been sent before. Last comes the value that is externalized now.
#[tactic(auto, unfolding(scp_spec::specs::Nodes::outs))]
pub(crate) fn outs(
    alloc: Global,
    configured: &Configured,
    old: &State<'_>,
    new: &State<'_>,
) -> Result<Vec<Out>, AllocError>
    requires { SendWellFormed new.now.votes.now }
    ensures { IfOk result (λ v. (before after : List Sent) → v.items ≡ outs (node_from_parts configured.now old.now.inputs.now old.now.votes.now before) (node_from_parts configured.now new.now.inputs.now new.now.votes.now after)) }
{
    let mut given_out = Vec::new(alloc);
    let round = new.inputs.round;
    let is_round = round != old.inputs.round && new.votes.confirmed_prepared.is_none();
    push_when(&mut given_out, is_round, Out::ArmNomination(round))?;
    let armed = new.votes.armed;
    let is_armed = armed != old.votes.armed
        && armed == counter_of(&new.votes.ballot)
        && !is_externalized(new.votes.phase);
    push_when(&mut given_out, is_armed, Out::ArmBallot(armed))?;
    push_nomination(alloc, &mut given_out, configured, old.votes, new.votes)?;
    push_vote(&mut given_out, configured, old.votes, new.votes)?;
    push_decided(&mut given_out, old.votes, new.votes)?;
    Ok(given_out)
}

#[inline(always)]
fn push_when(given_out: &mut Vec<Out>, holds: bool, out: Out) -> Result<(), AllocError>
    ensures { OnOk result (given_out.new.items ≡ given_out.old.items ++ when holds out) }
{
    if holds {
        given_out.push(out)?;
    }
    Ok(())
}

/// Adds the nomination, if it is not what would have been sent before.
fn push_nomination(
    alloc: Global,
    given_out: &mut Vec<Out>,
    configured: &Configured,
    old: &Votes,
    new: &Votes,
) -> Result<(), AllocError>
    requires { IfSome (sent_nomination new.now) IsWellFormed }
    ensures { OnOk result (given_out.new.items ≡ given_out.old.items ++ emitted_by configured.now (sent_nomination old.now) (sent_nomination new.now)) }
{
    if nominates_same(old, new) {
        return Ok(());
    }
    let after = sent_nomination(alloc, new)?;
    push_new(given_out, configured, after)
}

/// Adds the ballot statement, if it is not what would have been sent before.
fn push_vote(
    given_out: &mut Vec<Out>,
    configured: &Configured,
    old: &Votes,
    new: &Votes,
) -> Result<(), AllocError>
    requires { IfSome (sent_vote new.now) IsWellFormed }
    ensures { OnOk result (given_out.new.items ≡ given_out.old.items ++ emitted_by configured.now (sent_vote old.now) (sent_vote new.now)) }
{
    let before = statement_of(&sent_vote(old))?;
    let pushed = push_changed(given_out, configured, &before, new);
    drop(before);
    pushed
}

/// Adds the ballot statement, if it is not this one.
fn push_changed(
    given_out: &mut Vec<Out>,
    configured: &Configured,
    before: &Option<Statement>,
    new: &Votes,
) -> Result<(), AllocError>
    requires { IfSome (sent_vote new.now) IsWellFormed }
    ensures { OnOk result (given_out.new.items ≡ given_out.old.items ++ emitted_by configured.now before.now (sent_vote new.now)) }
{
    let after = statement_of(&sent_vote(new))?;
    if is_same_sent(before, &after) {
        drop(after);
        return Ok(());
    }
    push_new(given_out, configured, after)
}

/// Adds what is sent now, which is not what would have been sent before.
fn push_new(
    given_out: &mut Vec<Out>,
    configured: &Configured,
    after: Option<Statement>,
) -> Result<(), AllocError>
    requires { IfSome after IsWellFormed }
    ensures { (before : Option Statement) → (before ≡ after → ⊥) → OnOk result (given_out.new.items ≡ given_out.old.items ++ emitted_by configured.now before after) }
{
    match after {
        None => Ok(()),
        Some(statement) => {
            let envelope = envelope_of(configured, statement)?;
            given_out.push(Out::Emit(envelope))?;
            Ok(())
        }
    }
}

/// Adds the value of the ballot, if the phase has become [`Phase::Externalized`].
fn push_decided(given_out: &mut Vec<Out>, old: &Votes, new: &Votes) -> Result<(), AllocError>
    ensures { OnOk result (given_out.new.items ≡ given_out.old.items ++ (if is_externalized new.now.phase && not (is_externalized old.now.phase) then externalization new.now.ballot else [])) }
{
    if !is_externalized(new.phase) || is_externalized(old.phase) {
        return Ok(());
    }
    match &new.ballot {
        None => Ok(()),
        Some(ballot) => {
            given_out.push(Out::Externalized(ballot.value.try_copy()?))?;
            Ok(())
        }
    }
}

pub(crate) fn is_externalized(phase: Phase) -> bool
    ensures { result ≡ is_externalized phase }
{
    match phase {
        Phase::Preparing | Phase::Committing => false,
        Phase::Externalized => true,
    }
}
