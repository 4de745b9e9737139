//! The values that reached rows nominate, listed once and kept from event to event.

ghost use Rattle.std.specs.Prelude.{◌≡◌, ◌<◌, IfOk, IsTrue, List, OnOk, Option, get_or, length};
ghost use Rattle.scp_types.specs.Statements.{Sent};
ghost use Rattle.scp_types.specs.declared.kind.Kind.TheVariants.{Nomination};
ghost use Rattle.scp_spec.specs.Sets.{IsAscending};
ghost use Rattle.node_view.specs.Knowing.{AreValuesOf, IsTaken, is_heard};

use crate::alike::{Alike, follow};
use crate::reached::ReachedRows;
use crate::rows::{insert_values, values_of_others};
use node_store::Places;
use scp_types::{Envelope, NodeId, Values};
use std::alloc::{AllocError, Global};

/// The values that the nomination rows of other reached nodes vote for or accept, ascending. Rows that say the same are
/// known too, if many are reached.
///
/// A newer nomination has all values of the one before it, so the values only ever grow.
#[derive(Drop)]
pub struct ReachedValues {
    pub(crate) values: Values,
    pub(crate) alike: Option<Alike>,
}

impl ReachedValues {
    /// The values in these rows. An error says that it is out of memory.
    pub(crate) fn of_rows<S: Places>(
        alloc: Global,
        own: &NodeId,
        rows: &ReachedRows<'_, S>,
    ) -> Result<ReachedValues, AllocError>
        requires { rows.now.kind ≡ Nomination }
        ensures { IfOk result (AreValuesOf own.now rows.now.table rows.now.nodes) }
    {
        let values = values_of_others(alloc, own, rows)?;
        let alike = Alike::of_rows(alloc, own, rows)?;
        Ok(ReachedValues { values, alike })
    }

    /// Adds the values of a new row of one of these nodes. None has to go. An error says that it is out of memory, and
    /// then nothing is known of what is listed.
    pub(crate) fn add<S: Places>(
        &mut self,
        own: &NodeId,
        rows: &ReachedRows<'_, S>,
        row: &Envelope,
        place: usize,
    ) -> Result<(), AllocError>
        requires kind { rows.now.kind ≡ Nomination }
        requires ascending { IsAscending rows.now.nodes }
        requires within { place < length rows.now.nodes }
        requires sender { get_or rows.now.nodes place 0 ≡ row.now.sender }
        ensures { OnOk result ((old : List Sent) (before : Option Sent) → IsTrue (is_heard Nomination own.now rows.now.nodes row.now) → IsTaken old rows.now.table row.now before → AreValuesOf own.now old rows.now.nodes self.old → AreValuesOf own.now rows.now.table rows.now.nodes self.new) }
    {
        follow(&mut self.alike, own, rows, row, place);
        insert_values(&mut self.values, row.body())
    }
}
