//! Searches among the ballots and nominated values of a view's rows, which go through a list if there is one.

ghost use Rattle.std.specs.Prelude.{◌≡◌, IfOk, IfSome, flat_map, option_map, option_to_list};
ghost use Rattle.scp_voting.specs.Mentions.{mentioned_by, mentioned_in};
ghost use Rattle.scp_voting.specs.Searching.{better_under, next_under};
ghost use Rattle.node_view.specs.Knowing.{AreSearched};
ghost use Rattle.node_view.specs.Watching.{rows_of_others, values_in};

use crate::reached::ReachedRows;
use crate::reached_ballots::ReachedBallots;
use crate::reached_values::ReachedValues;
use crate::rows::values_of_others;
use node_store::Places;
use scp_types::{LentBallot, NodeId, Statement, Values};
use scp_voting::{Mention, better_mentioned};
use std::alloc::{AllocError, Global};

/// The values that the nomination rows of other nodes than this one vote for or accept, ascending: a copy of their
/// list, or else gathered from each row. An error says that it is out of memory.
pub(crate) fn nominated_values<S: Places>(
    alloc: Global,
    listed: &Option<ReachedValues>,
    own: &NodeId,
    rows: &ReachedRows<'_, S>,
) -> Result<Values, AllocError>
    requires { IfSome listed.now (λ v. v.values ≡ values_in (rows_of_others own.now rows.now.kind rows.now.table rows.now.nodes)) }
    ensures { IfOk result (λ v. v ≡ values_in (rows_of_others own.now rows.now.kind rows.now.table rows.now.nodes)) }
{
    match listed {
        Some(listed) => listed.values.try_copy(alloc),
        None => values_of_others(alloc, own, rows),
    }
}

/// The greatest ballot below the bound that the rows of other nodes than this one speak of in this way: by their list,
/// or else by each row.
pub(crate) fn next_mentioned<'a, S: Places>(
    listed: &'a Option<ReachedBallots>,
    mention: Mention,
    own: &NodeId,
    rows: &ReachedRows<'a, S>,
    bound: &Option<LentBallot>,
) -> Option<LentBallot<'a>>
    requires { IfSome listed.now (λ l. AreSearched own.now rows.now.kind rows.now.table rows.now.nodes l) }
    ensures { result ≡ next_under bound.now (mentioned_in mention (rows_of_others own.now rows.now.kind rows.now.table rows.now.nodes)) }
{
    match listed {
        Some(listed) => listed.of(mention).next(bound),
        None => mentioned_in_rows(mention, own, rows, bound),
    }
}

/// The greatest such ballot, found by going through each row.
fn mentioned_in_rows<'a, S: Places>(
    mention: Mention,
    own: &NodeId,
    rows: &ReachedRows<'a, S>,
    bound: &Option<LentBallot>,
) -> Option<LentBallot<'a>>
    ensures { result ≡ next_under bound.now (mentioned_in mention (rows_of_others own.now rows.now.kind rows.now.table rows.now.nodes)) }
{
    let mut best = None;
    for place in 0..rows.nodes().len() {
        best = mentioned_with(mention, best, bound, rows.said_by_another(own, place));
    }
    best
}

/// The greater of the best ballot so far and of the greatest below the bound that a statement speaks of in this way.
#[tactic(auto, using(crate::proofs::Searches::one_named, crate::proofs::Searches::nothing_said))]
fn mentioned_with<'a>(
    mention: Mention,
    best: Option<LentBallot<'a>>,
    bound: &Option<LentBallot>,
    said: Option<&'a Statement>,
) -> Option<LentBallot<'a>>
    ensures { result ≡ better_under best.entry bound.now (flat_map (mentioned_by mention) (option_to_list (option_map (λ s. s.now) said.entry))) }
{
    match said {
        None => best,
        Some(statement) => better_mentioned(mention, best, bound, statement),
    }
}
