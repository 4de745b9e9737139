//! Whether some row speaks of a ballot.

ghost use Rattle.std.specs.Prelude.{◌≡◌, flat_map, option_to_list};
ghost use Rattle.scp_voting.specs.Mentions.{mentioned_by, mentioned_in};
ghost use Rattle.node_view.specs.Listing.{is_one_of};
ghost use Rattle.node_view.specs.Watching.{rows_of_others};

use crate::reached::ReachedRows;
use node_store::Places;
use scp_types::{LentBallot, NodeId, Statement};
use scp_voting::{Mention, statement_ballots};

/// Whether a row of another node than this one speaks of the ballot in this way, and its counter is from 1 on.
#[tactic(auto, using(crate::proofs::Leaving::counted_one))]
pub(crate) fn is_mentioned<S: Places>(
    mention: Mention,
    own: &NodeId,
    rows: &ReachedRows<'_, S>,
    ballot: &LentBallot,
) -> bool
    ensures { result ≡ is_one_of (mentioned_in mention (rows_of_others own.now rows.now.kind rows.now.table rows.now.nodes)) ballot.now }
{
    ballot.counter() > 0 && is_mentioned_by_one(mention, own, rows, ballot)
}

/// Whether a row of another node speaks of the ballot in this way, whatever its counter.
fn is_mentioned_by_one<S: Places>(
    mention: Mention,
    own: &NodeId,
    rows: &ReachedRows<'_, S>,
    ballot: &LentBallot,
) -> bool
    ensures { result ≡ is_one_of (flat_map (mentioned_by mention) (rows_of_others own.now rows.now.kind rows.now.table rows.now.nodes)) ballot.now }
{
    for place in 0..rows.nodes().len() {
        let Some(statement) = rows.said_by_another(own, place) else {
            continue;
        };
        if mentions(mention, statement, ballot) {
            return true;
        }
    }
    false
}

#[tactic(auto, using(crate::proofs::Leaving::one_of_append))]
#[inline(always)]
fn mentions(mention: Mention, statement: &Statement, ballot: &LentBallot) -> bool
    ensures { result ≡ is_one_of (mentioned_by mention statement.now) ballot.now }
{
    let ballots = statement_ballots(mention, statement);
    is_it(&ballots.first, ballot) || is_it(&ballots.second, ballot) || is_it(&ballots.third, ballot)
}

fn is_it(one: &Option<LentBallot>, ballot: &LentBallot) -> bool
    ensures { result ≡ is_one_of (option_to_list one.now) ballot.now }
{
    match one {
        None => false,
        Some(one) => one.counter() == ballot.counter() && one.value().is_same(ballot.value()),
    }
}
