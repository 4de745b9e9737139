//! What a statement adds to a search among ballots.

ghost use Rattle.std.specs.Prelude.{◌≡◌, ◌∷◌, [], option_to_list};
ghost use Rattle.scp_spec.specs.Candidates.{greatest, has_positive_counter};
ghost use Rattle.scp_voting.specs.Mentions.{mentioned_by};
ghost use Rattle.scp_voting.specs.Searching.{better_under, is_under};

use crate::mention::{Mention, StatementBallots, statement_ballots};
use scp_types::{LentBallot, Statement};

/// The greatest of the best ballot so far and of those of which the statement speaks in this way (after the Stellar
/// Consensus Protocol draft). Of these only those count that are below the bound, if there is one, and have a counter
/// from 1 on. It takes no memory.
#[tactic(auto, using(crate::proofs::Bettering::bettered_append))]
#[inline(always)]
pub fn better_mentioned<'a>(
    mention: Mention,
    best: Option<LentBallot<'a>>,
    bound: &Option<LentBallot>,
    statement: &'a Statement,
) -> Option<LentBallot<'a>>
    ensures { result ≡ better_under best.entry bound.now (mentioned_by mention statement.now) }
{
    let StatementBallots {
        first,
        second,
        third,
    } = statement_ballots(mention, statement);
    let best = better_of(best, bound, first);
    let best = better_of(best, bound, second);
    better_of(best, bound, third)
}

/// The greatest of the best ballot so far and of this one. This one counts only if there is one, if it is below the
/// bound and if its counter is from 1 on.
#[tactic(auto, using(crate::proofs::Bettering::bettered_none))]
fn better_of<'a>(
    best: Option<LentBallot<'a>>,
    bound: &Option<LentBallot>,
    ballot: Option<LentBallot<'a>>,
) -> Option<LentBallot<'a>>
    ensures { result ≡ better_under best.entry bound.now (option_to_list ballot.entry) }
{
    match ballot {
        None => best,
        Some(ballot) => better(best, bound, ballot),
    }
}

/// The greatest of the best ballot so far and of this one, if it is below the bound and its counter is from 1 on.
#[tactic(auto, unfolding(scp_spec::specs::Candidates::greatest))]
fn better<'a>(
    best: Option<LentBallot<'a>>,
    bound: &Option<LentBallot>,
    ballot: LentBallot<'a>,
) -> Option<LentBallot<'a>>
    ensures { result ≡ better_under best.entry bound.now (ballot.entry ∷ []) }
{
    if ballot.counter() == 0 || !is_under(bound, &ballot) {
        return best;
    }
    match best {
        None => Some(ballot),
        Some(old) => {
            if old.is_below(&ballot) {
                Some(ballot)
            } else {
                Some(old)
            }
        }
    }
}

/// Whether the ballot is below the bound, if there is one.
fn is_under(bound: &Option<LentBallot>, ballot: &LentBallot) -> bool
    ensures { result ≡ is_under bound.now ballot.now }
{
    match bound {
        None => true,
        Some(bound) => ballot.is_below(bound),
    }
}
