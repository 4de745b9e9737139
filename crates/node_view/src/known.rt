//! What a listener knows of the nodes that it reaches, kept from one event to the next. A row that comes leaves its
//! region, changes one entry of it, widens or moves it, or makes it unknown. If it stays known, the ballots and
//! nominated values that are listed follow the row.

ghost use Rattle.std.specs.Arc.{arc_slice_items};
ghost use Rattle.std.specs.Prelude.{◌≡◌, ℕ, IfOk, IfSome, IsTrue, List, None, Option, Some, is_some, box_value, option_map};
ghost use Rattle.node_store.specs.Archives.{AreFiled, IsFiled, sent_of, sents_of};
ghost use Rattle.node_table.specs.Puts.{IsFiledPut, IsPut, before_put};
ghost use Rattle.scp_spec.specs.Rows.{with_row};
ghost use Rattle.scp_spec.specs.Sets.{IsAscending};
ghost use Rattle.scp_spec.specs.Stirring.{ReachesSame};
ghost use Rattle.node_view.specs.declared.configured.Configured.{Configured};
ghost use Rattle.node_view.specs.Listening.{IsEffect, KnowsLists, KnowsReach, KnowsRegion, is_put, reach_in, region_of, row_before};
ghost use Rattle.node_table.specs.Places.{place_of_row};
ghost use Rattle.node_view.specs.declared.standing.Standing.{Standing};
ghost use Rattle.scp_types.specs.Statements.{Sent, kind_of};
ghost use Rattle.node_view.specs.Knowing.{IsKnown, IsTaken};
ghost use Rattle.node_view.specs.Regions.{AreToldSame, HasSlicesAt, IsFoundAmong, IsKeptRegion, IsOfExtent};

use crate::configured::Configured;
use crate::region::{ToldSame, other_kind};
use crate::shared::SharedReach;
use crate::standing::Standing;
use crate::{Change, Extent, KnownReach, NewReach, Region, RegionEntry, Taken};
use node_store::{Archive, Filed, Places};
use node_table::{Put, Rows, Table};
use scp_types::{Envelope, Kind};
use std::alloc::{AllocError, Global};

/// What a row does to the region that is known.
#[derive(Drop)]
pub(crate) enum Effect {
    /// It stays.
    Nothing,
    /// This entry is set.
    Sets(RegionEntry),
    /// The node reaches others, to this extent.
    Reach(Extent),
    /// It is not known any more.
    Forgets,
}

/// An envelope that is to be a row, and the archive in which it lies.
#[derive(Drop)]
pub(crate) struct FiledRow<'a, S: Places> {
    pub archive: &'a Archive<S>,
    pub envelope: Filed,
}

/// Takes what is known, or finds it now; nothing is known afterwards. An error says that it is out of memory.
pub(crate) fn take_known<S: Places>(
    alloc: Global,
    known: &mut Option<Box<KnownReach>>,
    configured: &Configured,
    table: &Table,
    archive: &Archive<S>,
) -> Result<Box<KnownReach>, AllocError>
    requires rows { AreFiled archive.now table.now }
    requires known { KnowsReach configured.now (sents_of table.now) (reach_in known.old) }
    ensures reach { IfOk result (λ k. IsKnown configured.now.name configured.now.slices (sents_of table.now) (box_value k)) }
    ensures forgotten { known.new ≡ None }
{
    match known.take() {
        Some(known) => Ok(known),
        None => {
            let rows = Rows::of(table, archive);
            let reach = KnownReach::of(alloc, configured.own(), &rows)?;
            on_heap(alloc, reach)
        }
    }
}

/// Puts what is known on the heap, so that a listener has no place for it before it is found. An error says that it is
/// out of memory.
fn on_heap(alloc: Global, known: KnownReach) -> Result<Box<KnownReach>, AllocError>
    ensures { IfOk result (λ b. box_value b ≡ known) }
{
    match Box::new(alloc, known) {
        Ok(known) => Ok(known),
        // Memory: what is known has no room.
        Err(_) => Err(AllocError),
    }
}

pub(crate) fn copy_of_known(
    alloc: Global,
    known: &Option<Box<KnownReach>>,
) -> Result<Option<Box<KnownReach>>, AllocError>
    ensures { IfOk result (λ copy. (c : Configured) (table : List Sent) → KnowsReach c table (reach_in known.now) → KnowsReach c table (reach_in copy)) }
{
    match known {
        None => Ok(None),
        Some(known) => {
            let copy = known.try_copy(alloc)?;
            Ok(Some(on_heap(alloc, copy)?))
        }
    }
}

/// Has forms that are known, and may be new, share memory with those of other nodes.
#[inline(always)]
pub(crate) fn share_known(known: &mut Option<Box<KnownReach>>, shared: &mut SharedReach)
    ensures { (c : Configured) (table : List Sent) → KnowsReach c table (reach_in known.old) → KnowsReach c table (reach_in known.new) }
{
    if let Some(known) = known {
        known.region.share(shared);
    }
}

/// Puts the row into the table, and says whether the node surely reaches whom it reached before. What is known follows
/// the row; if it is out of memory for that, nothing is known, and the put goes on.
pub(crate) fn put_row<S: Places>(
    alloc: Global,
    configured: &Configured,
    table: &mut Table,
    known: &mut Option<Box<KnownReach>>,
    row: FiledRow<'_, S>,
) -> (Put, bool)
    requires rows { AreFiled row.archive.now table.old }
    requires envelope { IsFiled row.archive.now row.envelope }
    requires known { KnowsReach configured.now (sents_of table.old) (reach_in known.old) }
    ensures put { IsPut table.old (sent_of row.entry.envelope) result.0 table.new }
    ensures back { before_put result.0 table.new ≡ table.old }
    ensures known { KnowsReach configured.now (sents_of table.new) (reach_in known.new) }
    ensures reach { IsTrue result.1 → ReachesSame configured.now.name configured.now.slices (sents_of table.old) (sents_of table.new) }
    ensures filed { AreFiled row.entry.archive.now table.new }
    ensures replaced { IsFiledPut row.entry.archive.now result.0 }
{
    let there = standing_of(known, &row);
    // Memory for an entry is asked for before the table changes.
    let effect = effect_of(alloc, configured, known, table, &row, &there);
    let FiledRow { archive, envelope } = row;
    let copy = archive.copy_of(&envelope);
    let put = put_there(table, archive, envelope, &there);
    if !is_put(&put) {
        return (put, false);
    }
    let heard = HeardRow {
        archive,
        envelope: &copy,
        put: &put,
    };
    match effect {
        Effect::Reach(extent) => {
            change(alloc, known, configured, table, (heard, extent));
            (put, false)
        }
        effect => {
            apply(known, effect);
            hear(alloc, known, configured, table, heard, &there);
            // A region that is known still is of the nodes that were reached before.
            (put, known.is_some())
        }
    }
}

/// Where the row's sender stands, if a region is known and the sender is reached.
fn standing_of<S: Places>(
    known: &Option<Box<KnownReach>>,
    row: &FiledRow<'_, S>,
) -> Option<Standing>
    requires ascending { IfSome (region_of (reach_in known.now)) (λ r. IsAscending (arc_slice_items r.nodes)) }
    requires envelope { IsFiled row.now.archive.now row.now.envelope }
    ensures among { IfSome (region_of (reach_in known.now)) (λ r. IsFoundAmong (arc_slice_items r.nodes) (sent_of row.now.envelope).sender result) }
    ensures row { (c : Configured) (table : List Sent) → KnowsRegion c table (region_of (reach_in known.now)) → IfSome result (λ s. place_of_row table (sent_of row.now.envelope).sender (kind_of (sent_of row.now.envelope).body) ≡ s.row) }
{
    match known {
        None => None,
        Some(known) => {
            let envelope = row.archive.read(&row.envelope);
            known.region.standing(known.next, envelope)
        }
    }
}

/// Puts the envelope into the table. If its sender's row is known to stand there, none is looked up.
fn put_there<S: Places>(
    table: &mut Table,
    archive: &Archive<S>,
    envelope: Filed,
    there: &Option<Standing>,
) -> Put
    requires rows { AreFiled archive.now table.old }
    requires envelope { IsFiled archive.now envelope }
    requires there { IfSome there.now (λ s. place_of_row (sents_of table.old) (sent_of envelope).sender (kind_of (sent_of envelope).body) ≡ s.row) }
    ensures put { IsPut table.old (sent_of envelope) result table.new }
    ensures back { before_put result table.new ≡ table.old }
    ensures filed { AreFiled archive.now table.new }
    ensures known { IsFiledPut archive.now result }
{
    let Some(there) = there else {
        return table.put(archive, envelope);
    };
    match there.row.get() {
        None => table.put(archive, envelope),
        Some(place) => table.put_at(archive, place, envelope),
    }
}

/// What the row does to the region that is known if the table takes it.
fn effect_of<S: Places>(
    alloc: Global,
    configured: &Configured,
    known: &Option<Box<KnownReach>>,
    table: &Table,
    row: &FiledRow<'_, S>,
    there: &Option<Standing>,
) -> Effect
    requires rows { AreFiled row.now.archive.now table.now }
    requires envelope { IsFiled row.now.archive.now row.now.envelope }
    requires known { KnowsReach configured.now (sents_of table.now) (reach_in known.now) }
    requires among { IfSome (region_of (reach_in known.now)) (λ r. IsFoundAmong (arc_slice_items r.nodes) (sent_of row.now.envelope).sender there.now) }
    requires row { IfSome there.now (λ s. place_of_row (sents_of table.now) (sent_of row.now.envelope).sender (kind_of (sent_of row.now.envelope).body) ≡ s.row) }
    ensures { IsEffect configured.now (sents_of table.now) (sent_of row.now.envelope) (region_of (reach_in known.now)) result }
{
    let Some(known) = known else {
        return Effect::Nothing;
    };
    let Some(there) = there else {
        return Effect::Nothing;
    };
    if let Some(place) = there.row.get() {
        if let Some(old) = table.filed_at(row.archive, place) {
            if row.archive.has_same_slices(old, &row.envelope) {
                return Effect::Nothing;
            }
        }
    }
    let kind = row.archive.read(&row.envelope).body().kind();
    let region = &known.region;
    let told = ToldSame {
        latest: has_slices_at(region, table, row, kind, region.latest),
        other: has_slices_at(region, table, row, other_kind(kind), there.node),
    };
    let rows = Rows::of(table, row.archive);
    let envelope = row.archive.read(&row.envelope);
    effect_on(alloc, configured, region, &rows, envelope, *there, told)
}

/// Whether the node at this place is another than the node itself, and numbers tell that its row of this kind has the
/// envelope's slices. It takes no memory.
fn has_slices_at<S: Places>(
    region: &Region,
    table: &Table,
    row: &FiledRow<'_, S>,
    kind: Kind,
    node: usize,
) -> bool
    requires rows { AreFiled row.now.archive.now table.now }
    requires envelope { IsFiled row.now.archive.now row.now.envelope }
    ensures { IsTrue result → (c : Configured) → KnowsRegion c (sents_of table.now) (Some region.now) → HasSlicesAt c.name c.slices (sents_of table.now) (sent_of row.now.envelope) region.now kind node }
{
    if node == region.place {
        return false;
    }
    let Some(place) = region.row_there(kind, node).get() else {
        return false;
    };
    match table.filed_at(row.archive, place) {
        None => false,
        Some(filed) => row.archive.tells_same_slices(filed, &row.envelope),
    }
}

/// What an envelope does to a region, if its sender stands there. Its slices may be any; those that are told to be the
/// same are not compared.
fn effect_on<S: Places>(
    alloc: Global,
    configured: &Configured,
    region: &Region,
    rows: &Rows<'_, S>,
    envelope: &Envelope,
    there: Standing,
    told: ToldSame,
) -> Effect
    requires ascending { IsAscending (arc_slice_items region.now.nodes) }
    requires among { IsFoundAmong (arc_slice_items region.now.nodes) envelope.now.sender (Some there) }
    requires row { place_of_row rows.now envelope.now.sender (kind_of envelope.now.body) ≡ there.row }
    requires told { AreToldSame configured.now.name configured.now.slices rows.now envelope.now region.now there.node told }
    ensures { IsEffect configured.now rows.now envelope.now (Some region.now) result }
{
    match region.change_at(alloc, configured.own(), rows, envelope, there, told) {
        Ok(Change::Sets(entry)) => Effect::Sets(entry),
        Ok(Change::Reach(extent)) => Effect::Reach(extent),
        Err(_) => Effect::Forgets,
    }
}

/// Has the region follow a row by which the reach stays; after any other one nothing is known. The ballots and values
/// that are listed stay as they are.
#[inline(always)]
fn apply(known: &mut Option<Box<KnownReach>>, effect: Effect)
    ensures known { (c : Configured) (table : List Sent) (e : Sent) → IsEffect c table e (region_of (reach_in known.old)) effect → KnowsRegion c table (region_of (reach_in known.old)) → KnowsRegion c (with_row e table) (region_of (reach_in known.new)) }
    ensures reach { IsTrue (is_some known.new) → (c : Configured) (table : List Sent) (e : Sent) → IsEffect c table e (region_of (reach_in known.old)) effect → KnowsRegion c table (region_of (reach_in known.old)) → ReachesSame c.name c.slices table (with_row e table) }
    ensures nodes { (u : ℕ) (there : Option Standing) → IfSome (region_of (reach_in known.old)) (λ r. IsFoundAmong (arc_slice_items r.nodes) u there) → IfSome (region_of (reach_in known.new)) (λ r. IsFoundAmong (arc_slice_items r.nodes) u there) }
    ensures lists { (c : Configured) (table : List Sent) → KnowsLists c table (reach_in known.old) → KnowsLists c table (reach_in known.new) }
{
    match effect {
        Effect::Nothing => {}
        Effect::Sets(entry) => {
            if let Some(known) = known {
                known.region.set_entry(entry);
            }
        }
        Effect::Reach(_) | Effect::Forgets => *known = None,
    }
}

/// A row that a table has taken, and what the put answered.
#[derive(Drop)]
struct HeardRow<'a, S: Places> {
    archive: &'a Archive<S>,
    envelope: &'a Filed,
    put: &'a Put,
}

/// Has the region follow a row by which the node reaches others, if it was asked for since the last such row. If it was
/// not, or is out of memory, nothing is known.
fn change<S: Places>(
    alloc: Global,
    known: &mut Option<Box<KnownReach>>,
    configured: &Configured,
    table: &Table,
    heard: (HeardRow<'_, S>, Extent),
)
    requires rows { AreFiled heard.0.archive.now table.now }
    requires envelope { IsFiled heard.0.archive.now heard.0.envelope.now }
    requires kept { IfSome (region_of (reach_in known.old)) (IsKeptRegion configured.now.name configured.now.slices (sents_of table.now) (sent_of heard.0.envelope.now).sender) }
    requires extent { IfSome (region_of (reach_in known.old)) (λ r. IsOfExtent configured.now.name configured.now.slices (sents_of table.now) (sent_of heard.0.envelope.now).sender (arc_slice_items r.nodes) heard.1) }
    ensures { KnowsReach configured.now (sents_of table.now) (reach_in known.new) }
{
    let Some(mut reach) = known.take() else {
        return;
    };
    if !reach.is_asked {
        return;
    }
    let (row, extent) = heard;
    let rows = Rows::of(table, row.archive);
    let sender = row.archive.read(row.envelope).sender();
    let by = NewReach { sender, extent };
    if let Ok(()) = reach.change(alloc, configured.own(), &rows, by) {
        *known = Some(reach);
    }
}

/// Has the ballots and values that are listed follow a row that the region follows already.
fn hear<S: Places>(
    alloc: Global,
    known: &mut Option<Box<KnownReach>>,
    configured: &Configured,
    table: &Table,
    heard: HeardRow<'_, S>,
    there: &Option<Standing>,
)
    requires rows { AreFiled heard.archive.now table.now }
    requires envelope { IsFiled heard.archive.now heard.envelope.now }
    requires put { IsFiledPut heard.archive.now heard.put.now }
    requires region { KnowsRegion configured.now (sents_of table.now) (region_of (reach_in known.old)) }
    requires there { IfSome (region_of (reach_in known.old)) (λ r. IsFoundAmong (arc_slice_items r.nodes) (sent_of heard.envelope.now).sender there.now) }
    ensures some { IsTrue (is_some known.new) → IsTrue (is_some known.old) }
    ensures known { (old : List Sent) → IsTaken old (sents_of table.now) (sent_of heard.entry.envelope.now) (row_before heard.entry.put.now) → KnowsLists configured.now old (reach_in known.old) → KnowsReach configured.now (sents_of table.now) (reach_in known.new) }
{
    if let Some(known) = known {
        let rows = Rows::of(table, heard.archive);
        let taken = Taken {
            row: heard.archive.read(heard.envelope),
            before: row_before(heard.archive, heard.put),
        };
        known.hear(alloc, configured.own(), &rows, &taken, *there);
        if let Some(there) = there {
            known.next = there.node.saturating_add(1);
        }
    }
}

/// The row that the put replaced, if there was one.
fn row_before<'a, S: Places>(archive: &'a Archive<S>, put: &Put) -> Option<&'a Envelope>
    requires { IsFiledPut archive.now put.now }
    ensures { option_map (λ r. r.now) result ≡ row_before put.now }
{
    match put {
        Put::Stale | Put::NoMemory | Put::Added => None,
        Put::Replaced(row) => Some(archive.read(row)),
    }
}

/// Whether the table has taken the envelope.
fn is_put(put: &Put) -> bool
    ensures { result ≡ is_put put.now }
{
    match put {
        Put::Stale | Put::NoMemory => false,
        Put::Added | Put::Replaced(_) => true,
    }
}
