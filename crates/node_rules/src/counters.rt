//! How the ballot's counter rises, and for which counter the ballot timer is armed.

ghost use Rattle.std.specs.Prelude.{◌≡◌, ◌+◌, ◌-◌, ◌++◌, IfOk, OnOk, not, option_map, option_to_list};
ghost use Rattle.scp_types.specs.declared.kind.Kind.{Kind};
ghost use Rattle.scp_spec.specs.Views.{passes};
ghost use Rattle.node_rules.specs.Drafted.{after};
ghost use Rattle.scp_spec.specs.Passes.{arm, has_counter, known_or, on_ballot, raise, ballot_at_counter, counter_after_raise, value_once_raised, value_or};
ghost use Rattle.scp_spec.specs.States.{position};
ghost use Rattle.scp_spec.specs.Candidates.{combine, greatest_value, least_from};
ghost use Rattle.scp_voting.specs.Searching.{next_counter};

use crate::positions::follow;
use crate::{Draft, cap};
use scp_types::{Ballot, Inputs, LentBallot, Phase, SharedValues, Statement, Value, Votes};
use scp_voting::{Position, Question, Sight, counter_by, lesser};
use std::alloc::{AllocError, Global};

/// Raises the ballot to the lowest counter, from its own on, at which those with greater counters do not block. The cap
/// is the greatest to which it is raised, and a counter above the cap stays. The value is chosen anew only if the
/// counter changes (after the Stellar Consensus Protocol draft; the cap is this host's profile). Without a ballot
/// nothing changes.
#[tactic(auto, unfolding(scp_spec::specs::Passes::raise))]
pub fn raise<S: Sight>(
    alloc: Global,
    sight: &S,
    inputs: &Inputs,
    own: &mut Option<Statement>,
    draft: &mut Draft<'_>,
) -> Result<(), AllocError>
    requires { own.old ≡ position draft.old.now }
    ensures draft { OnOk result (draft.new ≡ after (on_ballot (raise (S.seen sight.now) inputs.now)) draft.old) }
    ensures position { OnOk result (own.new ≡ position draft.new.now) }
{
    let votes = draft.votes();
    let Some(ballot) = &votes.ballot else {
        return Ok(());
    };
    let counter = counter_after_raise(alloc, sight, inputs, own, votes, ballot)?;
    if counter == ballot.counter {
        return Ok(());
    }
    let higher = ballot_at_counter(votes, ballot, counter).try_copy()?;
    draft.set_ballot(higher)?;
    follow(own, draft.votes())
}

/// The counter to which the ballot is raised. `ballot` is the node's.
#[tactic(auto, unfolding(scp_spec::specs::Passes::counter_after_raise))]
fn counter_after_raise<S: Sight>(
    alloc: Global,
    sight: &S,
    inputs: &Inputs,
    own: &Option<Statement>,
    votes: &Votes,
    ballot: &Ballot,
) -> Result<u32, AllocError>
    requires { own.now ≡ position votes.now }
    ensures { IfOk result (λ n. n ≡ counter_after_raise (S.seen sight.now) inputs.now ballot.now votes.now) }
{
    let most = cap(inputs.ballot_timeouts);
    let counter = counter_to_raise_to(alloc, sight, own, ballot.counter, most)?;
    Ok(counter)
}

/// The lowest counter from `from` on at which those with greater counters do not block, at most `most`, or `from` if
/// that is above `most`. Between counters that appear nobody's answer changes, so only those are tried.
fn counter_to_raise_to<S: Sight>(
    alloc: Global,
    sight: &S,
    position: &Option<Statement>,
    from: u32,
    most: u32,
) -> Result<u32, AllocError>
    ensures { IfOk result (λ n. n ≡ least_from (most - from) from (λ k. not ((S.seen sight.now).blocking Kind.Ballot (passes (has_counter (k + 1)) position.now) (has_counter (k + 1))))) }
{
    let mut number = from;
    while number < most {
        if !is_blocked_from(alloc, sight, position, number + 1)? {
            return Ok(number);
        }
        number = match next_counter(sight, position, number) {
            None => most,
            Some(next) => next.min(most),
        };
    }
    Ok(number)
}

/// Whether those with counters from `counter` on block the node's slices.
fn is_blocked_from<S: Sight>(
    alloc: Global,
    sight: &S,
    position: &Option<Statement>,
    counter: u32,
) -> Result<bool, AllocError>
    ensures { IfOk result (λ b. b ≡ (S.seen sight.now).blocking Kind.Ballot (passes (has_counter counter) position.now) (has_counter counter)) }
{
    let question = Question::HasCounter(counter);
    sight.blocking(alloc, position.passes(&question), &question)
}

/// The least counter above this one that the position or a ballot row of a reached sender has.
#[tactic(auto, unfolding(scp_voting::specs::Searching::least_above))]
fn next_counter<S: Sight>(sight: &S, position: &Option<Statement>, above: u32) -> Option<u32>
    ensures { result ≡ next_counter above (option_to_list position.now ++ (S.seen sight.now).rows Kind.Ballot) }
{
    let next = sight.next_counter(above);
    match position {
        None => next,
        Some(statement) => match counter_by(statement) {
            None => next,
            Some(counter) => {
                if above < counter {
                    lesser(counter, next)
                } else {
                    next
                }
            }
        },
    }
}

/// Arms the ballot timer for the ballot's counter if all members of some quorum that contains the node have counters of
/// at least that (after the Stellar Consensus Protocol draft). Without a ballot nothing changes, and no quorum is
/// searched for if the timer was last armed for that counter.
#[tactic(auto, unfolding(scp_spec::specs::Passes::arm))]
#[inline(always)]
pub fn arm<S: Sight>(
    alloc: Global,
    sight: &S,
    own: &Option<Statement>,
    draft: &mut Draft<'_>,
) -> Result<(), AllocError>
    requires { own.now ≡ position draft.old.now }
    ensures { OnOk result (draft.new ≡ after (on_ballot (arm (S.seen sight.now))) draft.old) }
{
    let votes = draft.votes();
    let Some(ballot) = &votes.ballot else {
        return Ok(());
    };
    let counter = ballot.counter;
    if counter == votes.armed {
        return Ok(());
    }
    if is_quorum_at(alloc, sight, own, counter)? {
        draft.set_armed(counter)
    } else {
        Ok(())
    }
}

/// Whether all members of some quorum that contains the node have counters from `least` on.
fn is_quorum_at<S: Sight>(
    alloc: Global,
    sight: &S,
    own: &Option<Statement>,
    least: u32,
) -> Result<bool, AllocError>
    ensures { IfOk result (λ b. b ≡ (S.seen sight.now).quorum Kind.Ballot (passes (has_counter least) own.now) (has_counter least)) }
{
    let question = Question::HasCounter(least);
    sight.quorum(alloc, own.passes(&question), &question)
}

/// The node's ballot at this counter. Its value is chosen anew only if that is another counter: in
/// [`scp_types::Phase::Preparing`] that of the highest confirmed ballot, else the combined confirmed value, else that of
/// the highest accepted ballot, else its own. In the other phases the value stays (after the Stellar Consensus Protocol
/// draft; the combination is this host's profile). It takes no memory.
#[tactic(auto, unfolding(scp_spec::specs::Passes::ballot_at_counter))]
pub fn ballot_at_counter<'a>(votes: &'a Votes, ballot: &'a Ballot, counter: u32) -> LentBallot<'a>
    ensures { result ≡ ballot_at_counter votes.now ballot.now counter }
{
    if counter == ballot.counter {
        LentBallot::of(ballot)
    } else {
        LentBallot::at(counter, value_once_raised(votes, &ballot.value))
    }
}

/// The value that a ballot with this one has once it is raised.
#[tactic(auto, unfolding(scp_spec::specs::Passes::value_once_raised))]
fn value_once_raised<'a>(votes: &'a Votes, value: &'a Value) -> &'a Value
    ensures { result.now ≡ value_once_raised votes.now.phase votes.now value.now }
{
    match votes.phase {
        Phase::Preparing => value_or(
            &votes.confirmed_prepared,
            known_or(combine(&votes.confirms), value_or(&votes.prepared, value)),
        ),
        Phase::Committing | Phase::Externalized => value,
    }
}

/// The value of the ballot if there is one, else `value`.
fn value_or<'a>(ballot: &'a Option<Ballot>, value: &'a Value) -> &'a Value
    ensures { result.now ≡ value_or ballot.now value.now }
{
    match ballot {
        None => value,
        Some(ballot) => &ballot.value,
    }
}

/// The known value if there is one, else `value`.
fn known_or<'a>(known: Option<&'a Value>, value: &'a Value) -> &'a Value
    ensures { result.now ≡ known_or (option_map (λ v. v.now) known.entry) value.now }
{
    match known {
        None => value,
        Some(known) => known,
    }
}

/// What a set of values is combined to: the greatest of them (this host's profile).
#[tactic(auto, unfolding(scp_spec::specs::Candidates::combine))]
pub(crate) fn combine(values: &SharedValues) -> Option<&Value>
    ensures { option_map (λ v. v.now) result ≡ combine values.now }
{
    match values.as_slice() {
        [] => None,
        [first, rest @ ..] => Some(greatest_value(first, rest)),
    }
}

#[tactic(auto, unfolding(scp_spec::specs::Candidates::greatest_value))]
fn greatest_value<'a>(value: &'a Value, others: &'a [Value]) -> &'a Value
    ensures { result.now ≡ greatest_value value.now others.now }
{
    let mut greatest = value;
    for other in others {
        if *greatest < *other {
            greatest = other;
        }
    }
    greatest
}
