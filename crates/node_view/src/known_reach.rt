//! What a node knows of the nodes that it reaches, from one event to the next.

ghost use Rattle.std.specs.Arc.{arc_slice_items};
ghost use Rattle.std.specs.Prelude.{◌≡◌, ◌==◌, ◌<◌, ℕ, List, IfOk, IfSome, IsTrue, OnErr, OnOk, Option, false, get_or, is_some, length, option_map};
ghost use Rattle.scp_types.specs.Statements.{Sent};
ghost use Rattle.scp_types.specs.Trees.{Slices};
ghost use Rattle.scp_types.specs.declared.kind.Kind.{Kind};
ghost use Rattle.scp_types.specs.declared.kind.Kind.TheVariants.{Nomination};
ghost use Rattle.node_view.specs.Knowing.{AreBallotsOf, AreValuesOf, IsKnown, IsTaken, is_heard, is_of_another};
ghost use Rattle.node_view.specs.Regions.{IsFoundAmong, IsKeptRegion, IsOfExtent, IsRegion};

use crate::changing::NewReach;
use crate::own::Own;
use crate::reached_ballots::ReachedBallots;
use crate::reached_values::ReachedValues;
use crate::region::Region;
use crate::rows::said_in;
use crate::standing::Standing;
use node_store::Places;
use node_table::Rows;
use scp_types::{Envelope, Kind, NodeId};
use std::alloc::{AllocError, Global};

/// The region of a node, and what its rows speak of. The ballots are listed once a rule of balloting asks for them, and
/// the values of nominations once a rule of nomination does. Its owner keeps all three from event to event.
#[derive(Drop)]
pub struct KnownReach {
    pub region: Region,
    pub ballots: Option<ReachedBallots>,
    pub values: Option<ReachedValues>,
    /// Whether it was asked for since it was found or changed. So rows that change the reach cost no more than
    /// questions do.
    pub is_asked: bool,
    /// Behind the place of the sender whose row came last: where the next one is looked for first.
    pub next: usize,
}

/// A row that a table took, and the row that it replaced, if there was one.
#[derive(Drop)]
pub struct Taken<'a> {
    pub row: &'a Envelope,
    pub before: Option<&'a Envelope>,
}

impl KnownReach {
    /// What is known of a node's reach by a table; no ballots and no values are listed. An error says that it is out of
    /// memory.
    pub fn of<S: Places>(
        alloc: Global,
        own: Own<'_>,
        table: &Rows<'_, S>,
    ) -> Result<KnownReach, AllocError>
        ensures { IfOk result (λ k. IsKnown own.entry.name.now own.entry.slices.now table.now k) }
    {
        let region = Region::of(alloc, own.name, own.slices, table)?;
        Ok(KnownReach {
            region,
            ballots: None,
            values: None,
            is_asked: false,
            next: 0,
        })
    }

    /// A copy, which lists ballots and values anew when a rule asks. An error says that it is out of memory.
    pub fn try_copy(&self, alloc: Global) -> Result<KnownReach, AllocError>
        ensures { IfOk result (λ k. (own : ℕ) (configured : Slices) (table : List Sent) → IsKnown own configured table self.now → IsKnown own configured table k) }
    {
        let region = self.region.try_copy(alloc)?;
        Ok(KnownReach {
            region,
            ballots: None,
            values: None,
            is_asked: false,
            next: 0,
        })
    }

    /// What is known after a new row, if the node reaches others than the nodes of the region. No ballots and no values
    /// are listed afterwards. An error says that it is out of memory, and nothing changed.
    pub fn change<S: Places>(
        &mut self,
        alloc: Global,
        own: Own<'_>,
        table: &Rows<'_, S>,
        by: NewReach<'_>,
    ) -> Result<(), AllocError>
        requires kept { IsKeptRegion own.name.now own.slices.now table.now by.sender.now self.old.region }
        requires extent { IsOfExtent own.name.now own.slices.now table.now by.sender.now (arc_slice_items self.old.region.nodes) by.extent }
        ensures known { OnOk result (IsKnown own.entry.name.now own.entry.slices.now table.now self.new) }
        ensures err { OnErr result (self.new ≡ self.old) }
    {
        self.region = self.region.after_row(alloc, own, table, by)?;
        self.ballots = None;
        self.values = None;
        self.is_asked = false;
        Ok(())
    }

    /// Lists the ballots, if they are not listed yet. An error says that it is out of memory, and nothing changed.
    pub fn list_ballots<S: Places>(
        &mut self,
        alloc: Global,
        own: Own<'_>,
        table: &Rows<'_, S>,
    ) -> Result<(), AllocError>
        requires { IsKnown own.name.now own.slices.now table.now self.old }
        ensures known { IsKnown own.entry.name.now own.entry.slices.now table.now self.new }
        ensures listed { OnOk result (IsTrue (is_some self.new.ballots)) }
        ensures values { self.new.values ≡ self.old.values }
        ensures err { OnErr result (self.new ≡ self.old) }
    {
        if self.ballots.is_some() {
            return Ok(());
        }
        let rows = self.region.rows(alloc, table, Kind::Ballot);
        let ballots = ReachedBallots::of_rows(alloc, own.name, &rows)?;
        self.ballots = Some(ballots);
        Ok(())
    }

    /// Lists the nominated values, if they are not listed yet. An error says that it is out of memory, and nothing
    /// changed.
    pub fn list_values<S: Places>(
        &mut self,
        alloc: Global,
        own: Own<'_>,
        table: &Rows<'_, S>,
    ) -> Result<(), AllocError>
        requires { IsKnown own.name.now own.slices.now table.now self.old }
        ensures known { IsKnown own.entry.name.now own.entry.slices.now table.now self.new }
        ensures listed { OnOk result (IsTrue (is_some self.new.values)) }
        ensures ballots { self.new.ballots ≡ self.old.ballots }
        ensures err { OnErr result (self.new ≡ self.old) }
    {
        if self.values.is_some() {
            return Ok(());
        }
        let rows = self.region.rows(alloc, table, Kind::Nomination);
        let values = ReachedValues::of_rows(alloc, own.name, &rows)?;
        self.values = Some(values);
        Ok(())
    }

    /// Follows a row that a table took and that leaves the reach as it is; the region is already that with the row. If
    /// it is out of memory for the row's ballots or values, none are listed any more. A row of the node itself or of a
    /// stranger changes nothing, a nomination no ballots, and a row of ballots no values.
    pub fn hear<S: Places>(
        &mut self,
        alloc: Global,
        own: Own<'_>,
        table: &Rows<'_, S>,
        taken: &Taken<'_>,
        there: Option<Standing>,
    )
        requires region { IsRegion own.name.now own.slices.now table.now self.old.region }
        requires there { IsFoundAmong (arc_slice_items self.old.region.nodes) taken.now.row.now.sender there }
        ensures region { self.new.region ≡ self.old.region }
        ensures other { is_of_another own.entry.name.now (arc_slice_items self.old.region.nodes) taken.now.row.now ≡ false → self.new ≡ self.old }
        ensures same_ballots { is_heard Kind.Ballot own.entry.name.now (arc_slice_items self.old.region.nodes) taken.now.row.now ≡ false → self.new.ballots ≡ self.old.ballots }
        ensures same_values { is_heard Nomination own.entry.name.now (arc_slice_items self.old.region.nodes) taken.now.row.now ≡ false → self.new.values ≡ self.old.values }
        ensures ballots { (old : List Sent) → IsTaken old table.now taken.now.row.now (option_map (λ r. r.now) taken.now.before) → IfSome self.old.ballots (AreBallotsOf own.entry.name.now old (arc_slice_items self.old.region.nodes)) → IfSome self.new.ballots (AreBallotsOf own.entry.name.now table.now (arc_slice_items self.old.region.nodes)) }
        ensures values { (old : List Sent) → IsTaken old table.now taken.now.row.now (option_map (λ r. r.now) taken.now.before) → IfSome self.old.values (AreValuesOf own.entry.name.now old (arc_slice_items self.old.region.nodes)) → IfSome self.new.values (AreValuesOf own.entry.name.now table.now (arc_slice_items self.old.region.nodes)) }
    {
        let Some(there) = there else {
            return;
        };
        if is_own(own.name, taken.row) {
            return;
        }
        match taken.row.body().kind() {
            Kind::Ballot => self.follow_ballots(alloc, own, table, taken, there.node),
            Kind::Nomination => self.follow_values(alloc, own, table, taken.row, there.node),
        }
    }

    /// Brings the ballots up to date with a ballot row of another reached node.
    fn follow_ballots<S: Places>(
        &mut self,
        alloc: Global,
        own: Own<'_>,
        table: &Rows<'_, S>,
        taken: &Taken<'_>,
        place: usize,
    )
        requires region { IsRegion own.name.now own.slices.now table.now self.old.region }
        requires within { place < length (arc_slice_items self.old.region.nodes) }
        requires sender { get_or (arc_slice_items self.old.region.nodes) place 0 ≡ taken.now.row.now.sender }
        requires heard { IsTrue (is_heard Kind.Ballot own.name.now (arc_slice_items self.old.region.nodes) taken.now.row.now) }
        ensures region { self.new.region ≡ self.old.region }
        ensures values { self.new.values ≡ self.old.values }
        ensures ballots { (old : List Sent) → IsTaken old table.now taken.now.row.now (option_map (λ r. r.now) taken.now.before) → IfSome self.old.ballots (AreBallotsOf own.entry.name.now old (arc_slice_items self.old.region.nodes)) → IfSome self.new.ballots (AreBallotsOf own.entry.name.now table.now (arc_slice_items self.old.region.nodes)) }
    {
        let Some(mut ballots) = self.ballots.take() else {
            return;
        };
        let rows = self.region.rows(alloc, table, Kind::Ballot);
        let before = said_in(taken.before);
        let replaced = ballots.replace(own.name, &rows, taken.row, before, place);
        if let Ok(()) = replaced {
            self.ballots = Some(ballots);
        }
    }

    /// Brings the values up to date with a nomination row of another reached node.
    fn follow_values<S: Places>(
        &mut self,
        alloc: Global,
        own: Own<'_>,
        table: &Rows<'_, S>,
        row: &Envelope,
        place: usize,
    )
        requires region { IsRegion own.name.now own.slices.now table.now self.old.region }
        requires within { place < length (arc_slice_items self.old.region.nodes) }
        requires sender { get_or (arc_slice_items self.old.region.nodes) place 0 ≡ row.now.sender }
        requires heard { IsTrue (is_heard Nomination own.name.now (arc_slice_items self.old.region.nodes) row.now) }
        ensures region { self.new.region ≡ self.old.region }
        ensures ballots { self.new.ballots ≡ self.old.ballots }
        ensures values { (old : List Sent) (before : Option Sent) → IsTaken old table.now row.now before → IfSome self.old.values (AreValuesOf own.entry.name.now old (arc_slice_items self.old.region.nodes)) → IfSome self.new.values (AreValuesOf own.entry.name.now table.now (arc_slice_items self.old.region.nodes)) }
    {
        let Some(mut values) = self.values.take() else {
            return;
        };
        let rows = self.region.rows(alloc, table, Kind::Nomination);
        let added = values.add(own.name, &rows, row, place);
        if let Ok(()) = added {
            self.values = Some(values);
        }
    }
}

fn is_own(own: &NodeId, envelope: &Envelope) -> bool
    ensures { result ≡ (own.now == envelope.now.sender) }
{
    *own == *envelope.sender()
}
