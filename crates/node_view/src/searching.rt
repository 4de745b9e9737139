//! The search for a counter among the ballot statements that a node sees.

ghost use Rattle.std.specs.Prelude.{◌≡◌, option_map, option_to_list};
ghost use Rattle.scp_voting.specs.Searching.{next_counter};
ghost use Rattle.node_view.specs.Watching.{lesser_of, rows_of_others};

use crate::reached::ReachedRows;
use node_store::Places;
use scp_types::{NodeId, Statement};
use scp_voting::{counter_by, lesser};

/// The least counter above this one in the statements of other nodes than this one.
pub(crate) fn next_counter<S: Places>(
    own: &NodeId,
    rows: &ReachedRows<'_, S>,
    above: u32,
) -> Option<u32>
    ensures { result ≡ next_counter above (rows_of_others own.now rows.now.kind rows.now.table rows.now.nodes) }
{
    let mut least = None;
    for place in 0..rows.nodes().len() {
        least = lesser_counter(least, above, rows.said_by_another(own, place));
    }
    least
}

/// The lesser of `least` and the statement's counter, if that is above this one.
#[tactic(auto, unfolding(scp_voting::specs::Searching::least_above))]
fn lesser_counter(least: Option<u32>, above: u32, said: Option<&Statement>) -> Option<u32>
    ensures { result ≡ lesser_of least (next_counter above (option_to_list (option_map (λ s. s.now) said.entry))) }
{
    let Some(statement) = said else {
        return least;
    };
    let Some(counter) = counter_by(statement) else {
        return least;
    };
    if counter <= above {
        return least;
    }
    lesser(counter, least)
}
