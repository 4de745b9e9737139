//! Which rules an event of a node may stir.

ghost use Rattle.std.specs.Prelude.{◌≡◌};
ghost use Rattle.node_store.specs.Archives.{AreFiled, IsFiled, sent_of, sents_of};
ghost use Rattle.node_table.specs.Puts.{IsFiledPut, IsPut, before_put};
ghost use Rattle.node_core.specs.Stirrings.{IsStirred, stirred_by};

use node_store::{Archive, Filed, Places};
use node_table::Put;
use node_view::Listener;
use scp_types::Kind;
use std::alloc::Global;

/// The rules that an event may stir; all others change nothing in the first pass after it.
#[derive(Clone, Copy)]
pub(crate) enum Stirred {
    /// Any rule.
    All,
    /// Only those of balloting, in later passes too.
    Ballots,
    /// Those of nomination, once, and others only if these confirm a value.
    Nominations,
}

/// Puts the envelope into the listener's table, and says which rules it stirs if the table takes it.
pub(crate) fn put_row<S: Places>(
    alloc: Global,
    archive: &Archive<S>,
    listener: &mut Listener,
    envelope: Filed,
) -> (Put, Stirred)
    requires rows { AreFiled archive.now listener.old.table }
    requires envelope { IsFiled archive.now envelope }
    ensures put { IsPut listener.old.table (sent_of envelope) result.0 listener.new.table }
    ensures back { before_put result.0 listener.new.table ≡ listener.old.table }
    ensures stirs { IsStirred result.1 listener.old.configured (sents_of listener.old.table) (sent_of envelope) (sents_of listener.new.table) }
    ensures same { listener.new.configured ≡ listener.old.configured }
    ensures filed { AreFiled archive.now listener.new.table }
    ensures known { IsFiledPut archive.now result.0 }
{
    let kind = archive.read(&envelope).body().kind();
    let (put, reach_stays) = listener.put(alloc, archive, envelope);
    if reach_stays {
        (put, stirred_by(kind))
    } else {
        (put, Stirred::All)
    }
}

/// What a row of this kind stirs if the node reaches the same nodes as before.
fn stirred_by(kind: Kind) -> Stirred
    ensures { result ≡ stirred_by kind }
{
    match kind {
        Kind::Ballot => Stirred::Ballots,
        Kind::Nomination => Stirred::Nominations,
    }
}
