//! What a node makes of what its listener has: passes by what is known of the reach, and outs.

ghost use Rattle.std.specs.Prelude.{◌≡◌, IfOk, IsTrue, List, OnOk, Some, box_value, unwrap_or};
ghost use Rattle.node_store.specs.Archives.{AreFiled, Keeps};
ghost use Rattle.node_view.specs.Listening.{IsKnownOf};
ghost use Rattle.scp_spec.specs.Nodes.{most_passes, outs, after_pass, settle};
ghost use Rattle.node_core.specs.Filings.{AreFiledOuts, whole_outs};
ghost use Rattle.node_core.specs.Listening.{node_of};
ghost use Rattle.node_core.specs.Stirrings.{IsStart, is_listed};
ghost use Rattle.node_core.specs.NodeParts.{node_from_parts};
ghost use Rattle.scp_types.specs.Statements.{Sent};
ghost use Rattle.node_view.specs.Knowing.{IsKnown};

use crate::answering::{Start, State, rests, settled_votes, votes_or};
use crate::filed::GivenOut;
use crate::filing::{give_out, nothing};
use crate::outs::is_externalized;
use crate::stirring::Stirred;
use node_store::{Archive, Places, Shelf};
use node_table::Rows;
use node_view::{KnownReach, Listener, Own, View};
use scp_types::{Phase, Votes};
use std::alloc::{AllocError, Global};

/// What a node with these rows gives out since the old state, once passes from this start on have settled. They set the
/// votes; none if they stay. What contracts see of the listener stays as it was. An error says that it is out of memory.
pub(crate) fn answer<S: Shelf>(
    alloc: Global,
    archive: &mut Archive<S>,
    listener: &mut Listener,
    old: &State<'_>,
    start: &Start<'_>,
    settled: &mut Option<Votes>,
) -> Result<GivenOut, AllocError>
    requires rows { AreFiled archive.old listener.old.table }
    requires start { IsStart start.now.stirred (node_of listener.old start.now.inputs.now start.now.votes.now) }
    ensures votes { OnOk result (settle most_passes (after_pass (node_of listener.old start.now.inputs.now start.now.votes.now)) start.now.votes.now ≡ Some (unwrap_or settled.new start.now.votes.now)) }
    ensures outs { IfOk result (λ a. (before after : List Sent) → a.outs.items ≡ outs (node_from_parts listener.old.configured old.now.inputs.now old.now.votes.now before) (node_from_parts listener.old.configured start.now.inputs.now (unwrap_or settled.new start.now.votes.now) after)) }
    ensures same { listener.new ≡ listener.old }
    ensures whole { IfOk result (λ a. whole_outs a.filed.items ≡ a.outs.items) }
    ensures filed { IfOk result (λ a. AreFiledOuts archive.new a.filed.items) }
    ensures kept { Keeps archive.old archive.new }
{
    votes_after(alloc, archive, listener, start, settled)?;
    let new = State {
        inputs: start.inputs,
        votes: votes_or(settled, start.votes),
    };
    give_out(alloc, archive, listener.configuration(), old, &new)
}

/// The same if only the node's rows or slices have changed. If the votes stay nothing is compared, since nothing is given
/// out.
#[inline(always)]
pub(crate) fn answer_anew<S: Shelf>(
    alloc: Global,
    archive: &mut Archive<S>,
    listener: &mut Listener,
    start: &Start<'_>,
    settled: &mut Option<Votes>,
) -> Result<GivenOut, AllocError>
    requires rows { AreFiled archive.old listener.old.table }
    requires start { IsStart start.now.stirred (node_of listener.old start.now.inputs.now start.now.votes.now) }
    ensures votes { OnOk result (settle most_passes (after_pass (node_of listener.old start.now.inputs.now start.now.votes.now)) start.now.votes.now ≡ Some (unwrap_or settled.new start.now.votes.now)) }
    ensures outs { IfOk result (λ a. (before after : List Sent) → a.outs.items ≡ outs (node_from_parts listener.old.configured start.now.inputs.now start.now.votes.now before) (node_from_parts listener.old.configured start.now.inputs.now (unwrap_or settled.new start.now.votes.now) after)) }
    ensures same { listener.new ≡ listener.old }
    ensures whole { IfOk result (λ a. whole_outs a.filed.items ≡ a.outs.items) }
    ensures filed { IfOk result (λ a. AreFiledOuts archive.new a.filed.items) }
    ensures kept { Keeps archive.old archive.new }
{
    votes_after(alloc, archive, listener, start, settled)?;
    let Some(votes) = &*settled else {
        return Ok(nothing(alloc));
    };
    let old = State {
        inputs: start.inputs,
        votes: start.votes,
    };
    let new = State {
        inputs: start.inputs,
        votes,
    };
    give_out(alloc, archive, listener.configuration(), &old, &new)
}

/// Sets the votes after passes from this start on, by the rows; none if they stay. Once a value is externalized no rule
/// reads any row, so what is known of the reach is let go then.
fn votes_after<S: Places>(
    alloc: Global,
    archive: &Archive<S>,
    listener: &mut Listener,
    start: &Start<'_>,
    settled: &mut Option<Votes>,
) -> Result<(), AllocError>
    requires rows { AreFiled archive.now listener.old.table }
    requires start { IsStart start.now.stirred (node_of listener.old start.now.inputs.now start.now.votes.now) }
    ensures votes { OnOk result (settle most_passes (after_pass (node_of listener.old start.now.inputs.now start.now.votes.now)) start.now.votes.now ≡ Some (unwrap_or settled.new start.now.votes.now)) }
    ensures same { listener.new ≡ listener.old }
{
    if let Phase::Externalized = start.votes.phase {
        rests(start);
        *settled = None;
        return Ok(());
    }
    let reach = take_reach(alloc, archive, listener, start.stirred)?;
    let found = votes_within(alloc, archive, listener, &reach, start, settled);
    if is_decided(settled) {
        drop(reach);
    } else {
        listener.keep_reach(reach);
    }
    found
}

/// Whether votes have changed, and a value is externalized by them.
fn is_decided(votes: &Option<Votes>) -> bool {
    match votes {
        None => false,
        Some(votes) => is_externalized(votes.phase),
    }
}

/// What the listener knows of its reach; what the stirred rules go through is listed there. An error says that it is
/// out of memory.
fn take_reach<S: Places>(
    alloc: Global,
    archive: &Archive<S>,
    listener: &mut Listener,
    stirred: Stirred,
) -> Result<Box<KnownReach>, AllocError>
    requires rows { AreFiled archive.now listener.old.table }
    ensures reach { IfOk result (λ k. IsKnownOf listener.old (box_value k)) }
    ensures listed { IfOk result (λ k. IsTrue (is_listed stirred (box_value k))) }
    ensures same { listener.new ≡ listener.old }
{
    let mut reach = listener.take_reach(alloc, archive)?;
    let rows = Rows::of(listener.table(), archive);
    list_for(
        alloc,
        listener.configuration().own(),
        &rows,
        &mut reach,
        stirred,
    )?;
    Ok(reach)
}

/// Lists the values of nominations if rules of nomination are stirred, and the ballots if those of balloting are. An
/// error says that it is out of memory.
fn list_for<S: Places>(
    alloc: Global,
    own: Own<'_>,
    rows: &Rows<'_, S>,
    reach: &mut KnownReach,
    stirred: Stirred,
) -> Result<(), AllocError>
    requires { IsKnown own.name.now own.slices.now rows.now reach.old }
    ensures known { IsKnown own.entry.name.now own.entry.slices.now rows.now reach.new }
    ensures listed { OnOk result (IsTrue (is_listed stirred reach.new)) }
{
    match stirred {
        Stirred::Nominations => reach.list_values(alloc, own, rows),
        Stirred::Ballots => reach.list_ballots(alloc, own, rows),
        Stirred::All => {
            reach.list_values(alloc, own, rows)?;
            reach.list_ballots(alloc, own, rows)
        }
    }
}

/// Sets the votes after passes from this start on, by the rows of the reached nodes; none if they stay. After a
/// nomination row the rules of balloting hardly ask, so ballot rows are read where they stand.
fn votes_within<S: Places>(
    alloc: Global,
    archive: &Archive<S>,
    listener: &Listener,
    reach: &KnownReach,
    start: &Start<'_>,
    settled: &mut Option<Votes>,
) -> Result<(), AllocError>
    requires rows { AreFiled archive.now listener.now.table }
    requires reach { IsKnownOf listener.now reach.now }
    requires start { IsStart start.now.stirred (node_of listener.now start.now.inputs.now start.now.votes.now) }
    ensures { OnOk result (settle most_passes (after_pass (node_of listener.now start.now.inputs.now start.now.votes.now)) start.now.votes.now ≡ Some (unwrap_or settled.new start.now.votes.now)) }
{
    let configured = listener.configuration();
    let rows = Rows::of(listener.table(), archive);
    let own = configured.own();
    let leaders = &start.inputs.leaders;
    match start.stirred {
        Stirred::Nominations => {
            let view = View::in_place(alloc, own, leaders, &rows, reach);
            let found = settled_votes(alloc, configured, &view, start, settled);
            drop(view);
            found
        }
        Stirred::All | Stirred::Ballots => {
            let view = View::of(alloc, own, leaders, &rows, reach)?;
            let found = settled_votes(alloc, configured, &view, start, settled);
            drop(view);
            found
        }
    }
}
