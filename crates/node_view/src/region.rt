//! The nodes that a node reaches, and slices compiled against them.

ghost use Rattle.std.specs.Arc.{arc_slice_items};
ghost use Rattle.std.specs.Prelude.{◌≡◌, ◌<◌, ◌≤◌, ◌++◌, ◌∷◌, [], ℕ, List, IfOk, IfSome, IsTrue, OnOk, Some, get_or, length, set};
ghost use Rattle.scp_types.specs.Statements.{Sent, kind_of};
ghost use Rattle.scp_types.specs.Trees.{Slices};
ghost use Rattle.scp_types.specs.declared.kind.Kind.{Kind};
ghost use Rattle.scp_types.specs.declared.kind.Kind.TheVariants.{Nomination};
ghost use Rattle.scp_spec.specs.Backing.{slices_by};
ghost use Rattle.scp_spec.specs.Rows.{with_row};
ghost use Rattle.scp_spec.specs.Sets.{IsAscending, among};
ghost use Rattle.scp_bits.specs.Searching.{AreCompiled};
ghost use Rattle.node_table.specs.Places.{place_of_row};
ghost use Rattle.node_view.specs.Forms.{AreAllForms, IsFormerOf, IsFoundInEither};
ghost use Rattle.node_view.specs.Regions.{AreRowPlaces, AreToldSame, IsChange, IsCopy, IsEntry, IsFormerRegion, IsPlaced, IsRegion, forms_of, other_kind, row_places, row_places_of_kind, rows_of};

use crate::alike::FEW_NODES;
use crate::changing::Extent;
use crate::forms::{Candidates, Former, SlicesInReach, form_in};
use crate::own::Own;
use crate::reached::ReachedRows;
use crate::shared::SharedReach;
use crate::standing::Standing;
use node_reach::{drops_none, reach};
use node_store::Places;
use node_table::{RowPlace, RowPlaces, Rows};
use scp_bits::{CompiledSet, Form, compile, place_in_nodes};
use scp_types::{Envelope, Kind, Nested, NodeId};
use std::alloc::{AllocError, Global};
use std::sync::ArcSlice;

/// The nodes that a node reaches, its place among them, and what blocks it. Of each kind it has whose slices are met by
/// whom, and where in the table the rows of the nodes stand. Its owner keeps it from event to event.
///
/// Slices that are the same are mostly compiled once: their forms in one list have one number, below `numbers`. A new
/// row's slices are compared only with the node's own and with those of the row that was set last.
///
/// A newer row stands in the place of the one before, so the places change only with a first row.
#[derive(Drop)]
pub struct Region {
    pub nodes: ArcSlice<NodeId>,
    pub place: usize,
    pub blocking: CompiledSet,
    pub ballots: Vec<Option<Form>>,
    pub nominations: Vec<Option<Form>>,
    pub ballot_rows: Vec<RowPlace>,
    pub nomination_rows: Vec<RowPlace>,
    pub numbers: usize,
    pub latest: usize,
    pub unshared: Unshared,
}

/// What of a region may be new: the list of nodes, and the forms from the first of these places on to before the end. All
/// else shares memory with other regions, if any have the same.
#[derive(Clone, Copy)]
pub struct Unshared {
    nodes: bool,
    first: usize,
    end: usize,
}

const ALL: Unshared = Unshared {
    nodes: true,
    first: 0,
    end: usize::MAX,
};

const NOTHING: Unshared = Unshared {
    nodes: false,
    first: usize::MAX,
    end: 0,
};

impl Unshared {
    /// This, and the forms at a place.
    fn with_place(self, place: usize) -> Unshared {
        Unshared {
            nodes: self.nodes,
            first: self.first.min(place),
            end: self.end.max(place.saturating_add(1)),
        }
    }
}

/// All that a row changes in a region whose reach stays: the compiled slices of a reached node's row of a kind, and
/// where the row is to stand in the table. The numbers of all forms are below `numbers` afterwards.
#[derive(Drop)]
pub struct RegionEntry {
    kind: Kind,
    place: usize,
    slices: Form,
    row: RowPlace,
    numbers: usize,
}

/// Of which rows numbers tell that they have an envelope's slices. What is not told may be so too.
#[derive(Clone, Copy)]
pub(crate) struct ToldSame {
    /// The row of the envelope's kind that the node has whose row was set last.
    pub latest: bool,
    /// The row of the other kind that the sender has.
    pub other: bool,
}

/// The kind that is not this one.
pub(crate) fn other_kind(kind: Kind) -> Kind
    ensures { result ≡ other_kind kind }
{
    match kind {
        Kind::Nomination => Kind::Ballot,
        Kind::Ballot => Kind::Nomination,
    }
}

/// What a row of another reached node changes in a region.
#[derive(Drop)]
pub enum Change {
    /// Only this entry; whom the node reaches stays.
    Sets(RegionEntry),
    /// Whom the node reaches.
    Reach(Extent),
}

impl Region {
    /// The region of a node by a table. An error says that it is out of memory.
    pub fn of<'a, S: Places>(
        alloc: Global,
        own: &'a NodeId,
        slices: &'a Nested,
        table: &'a Rows<'a, S>,
    ) -> Result<Region, AllocError>
        ensures { IfOk result (λ r. IsRegion own.now slices.now table.now r) }
    {
        let nodes = reach(alloc, &*table, own, slices)?;
        let rows = row_places(alloc, &*table, &nodes)?;
        let placed = Placed { nodes, rows };
        let itself = Own { name: own, slices };
        Region::over(alloc, itself, table, placed, None)
    }

    /// The region of a node whose reached nodes are known, and where their rows stand. Forms are taken from a region of
    /// other nodes, if there is one. An error says that it is out of memory.
    pub(crate) fn over<'a, S: Places>(
        alloc: Global,
        own: Own<'a>,
        table: &'a Rows<'a, S>,
        placed: Placed,
        former: Option<FormerRegion<'a>>,
    ) -> Result<Region, AllocError>
        requires placed { IsPlaced own.name.now own.slices.now table.now placed }
        requires former { IfSome former (IsFormerRegion own.name.now own.slices.now table.now placed.nodes.items) }
        ensures { IfOk result (λ r. IsRegion own.entry.name.now own.entry.slices.now table.now r) }
    {
        let place = place_in(&placed.nodes, own.name);
        let blocking = compile(alloc, own.slices.set(), &placed.nodes, true)?;
        let forms = kind_forms(alloc, own, &*table, &placed, former)?;
        let Placed { nodes, rows } = placed;
        let numbers = nodes.len();
        Ok(Region {
            nodes: ArcSlice::from_vec(nodes)?,
            place,
            blocking,
            ballots: forms.ballots,
            nominations: forms.nominations,
            ballot_rows: rows.ballots,
            nomination_rows: rows.nominations,
            numbers,
            latest: place,
            unshared: ALL,
        })
    }

    /// A copy. An error says that it is out of memory.
    pub fn try_copy(&self, alloc: Global) -> Result<Region, AllocError>
        ensures { IfOk result (λ r. IsCopy self.now r) }
    {
        Ok(Region {
            nodes: self.nodes.clone()?,
            place: self.place,
            blocking: self.blocking.try_copy(alloc)?,
            ballots: copy_of_all(alloc, &self.ballots)?,
            nominations: copy_of_all(alloc, &self.nominations)?,
            ballot_rows: Vec::from_slice(alloc, &self.ballot_rows)?,
            nomination_rows: Vec::from_slice(alloc, &self.nomination_rows)?,
            numbers: self.numbers,
            latest: self.latest,
            unshared: NOTHING,
        })
    }

    /// Has nodes and forms that may be new share memory with those of other regions. What contracts see stays. It is not
    /// worth it for few nodes.
    #[inline(always)]
    pub(crate) fn share(&mut self, shared: &mut SharedReach)
        ensures { IsCopy self.old self.new }
    {
        let unshared = self.unshared;
        if unshared.first < unshared.end && self.nodes.len() > FEW_NODES {
            self.share_all(unshared, shared);
        }
    }

    fn share_all(&mut self, unshared: Unshared, shared: &mut SharedReach)
        ensures { IsCopy self.old self.new }
    {
        if unshared.nodes {
            shared.share_nodes(&mut self.nodes);
        }
        share_forms(&mut self.ballots, unshared, shared);
        share_forms(&mut self.nominations, unshared, shared);
        self.unshared = NOTHING;
    }

    /// What the envelope changes in the region if the table takes it. An error says that it is out of memory.
    ///
    /// It is an entry if another reached node's slices name only reached nodes, and drop no name of its row of that
    /// kind. They may drop this node and names of its own slices, which are reached anyhow. If they drop nothing else
    /// but name others, the reach is wider; in all other cases it is another reach.
    ///
    /// It costs some searches by name, however many rows there are. If the slices are neither the node's own nor those
    /// of the row that was set last, they are compiled, with a search for each name. After the last number of a form
    /// there is no such entry, and the reach is another.
    pub fn change_by<S: Places>(
        &self,
        alloc: Global,
        own: Own<'_>,
        table: &Rows<'_, S>,
        envelope: &Envelope,
    ) -> Result<Change, AllocError>
        requires { IsAscending (arc_slice_items self.now.nodes) }
        ensures { IfOk result (IsChange own.entry.name.now own.entry.slices.now table.now envelope.now self.now) }
    {
        let sender = envelope.sender();
        let Some(node) = place_in_nodes(&self.nodes, sender) else {
            return Ok(Change::Reach(Extent::Other));
        };
        let row = table.place(sender, envelope.body().kind());
        let told = ToldSame {
            latest: false,
            other: false,
        };
        self.change_at(alloc, own, table, envelope, Standing { node, row }, told)
    }

    /// What the envelope changes, as [`Region::change_by`] says, if it is known where its sender stands. Slices that are
    /// told to be the same are not compared.
    pub(crate) fn change_at<S: Places>(
        &self,
        alloc: Global,
        own: Own<'_>,
        table: &Rows<'_, S>,
        envelope: &Envelope,
        there: Standing,
        told: ToldSame,
    ) -> Result<Change, AllocError>
        requires ascending { IsAscending (arc_slice_items self.now.nodes) }
        requires within { there.node < length (arc_slice_items self.now.nodes) }
        requires sender { get_or (arc_slice_items self.now.nodes) there.node 0 ≡ envelope.now.sender }
        requires row { place_of_row table.now envelope.now.sender (kind_of envelope.now.body) ≡ there.row }
        requires told { AreToldSame own.name.now own.slices.now table.now envelope.now self.now there.node told }
        ensures { IfOk result (IsChange own.entry.name.now own.entry.slices.now table.now envelope.now self.now) }
    {
        if there.node == self.place {
            return Ok(Change::Reach(Extent::Other));
        }
        let drops_none = drops_none(alloc, own.name, own.slices, table, envelope)?;
        if !drops_none {
            return Ok(Change::Reach(Extent::Other));
        }
        let Some(numbers) = self.numbers.checked_add(1) else {
            return Ok(Change::Reach(Extent::Other));
        };
        let found = self.form_for(alloc, own, table, envelope, there.node, told)?;
        let Some(form) = found else {
            return Ok(Change::Reach(Extent::Wider));
        };
        Ok(Change::Sets(RegionEntry {
            kind: envelope.body().kind(),
            place: there.node,
            slices: form,
            row: row_place(table, there.row),
            numbers,
        }))
    }

    /// The compiled form of the envelope's slices, for the list of its kind, if they name only reached nodes. It is
    /// that of the row that was set last if that is told to have them. Else, if the sender's row of the other kind is
    /// told to, it has the set of that row's form. Else it is that of the node itself or of the row that was set last
    /// if their slices are the same, or a new one. An error says that it is out of memory.
    fn form_for<S: Places>(
        &self,
        alloc: Global,
        own: Own<'_>,
        table: &Rows<'_, S>,
        envelope: &Envelope,
        node: usize,
        told: ToldSame,
    ) -> Result<Option<Form>, AllocError>
        requires ascending { IsAscending (arc_slice_items self.now.nodes) }
        requires told { AreToldSame own.name.now own.slices.now table.now envelope.now self.now node told }
        ensures { IfOk result (λ o. IfSome o (IsFoundInEither (arc_slice_items self.now.nodes) (slices_by own.entry.name.now own.entry.slices.now table.now (kind_of envelope.now.body)) (forms_of (kind_of envelope.now.body) self.now) (slices_by own.entry.name.now own.entry.slices.now table.now (other_kind (kind_of envelope.now.body))) (forms_of (other_kind (kind_of envelope.now.body)) self.now) self.now.numbers envelope.now.slices)) }
    {
        let kind = envelope.body().kind();
        if told.latest {
            if let Some(form) = form_in(self.forms(kind), self.latest) {
                let form = form.try_copy()?;
                return Ok(Some(form));
            }
        }
        if told.other {
            if let Some(form) = form_in(self.forms(other_kind(kind)), node) {
                let form = form.with_number(self.numbers)?;
                return Ok(Some(form));
            }
        }
        let rows = ReachedRows::by_look_up(alloc, &self.nodes, table, kind);
        let reached = SlicesInReach {
            own: own.name,
            slices: own.slices,
            rows,
            former: None,
        };
        let there = Candidates {
            forms: self.forms(kind),
            places: (self.place, self.latest),
        };
        reached.form_within(alloc, envelope.slices(), there, self.numbers)
    }

    pub(crate) fn forms(&self, kind: Kind) -> &[Option<Form>]
        ensures { result.now ≡ forms_of kind self.now }
    {
        match kind {
            Kind::Nomination => &self.nominations,
            Kind::Ballot => &self.ballots,
        }
    }

    /// The rows of a kind of the reached nodes. None is gathered, and it takes no memory.
    pub(crate) fn rows<'a, S: Places>(
        &'a self,
        alloc: Global,
        table: &'a Rows<'a, S>,
        kind: Kind,
    ) -> ReachedRows<'a, S>
        requires { rows_of kind self.now ≡ row_places table.now kind (arc_slice_items self.now.nodes) }
        ensures { result ≡ record { nodes = (arc_slice_items self.now.nodes); table = table.now; kind = kind } }
    {
        let places = match kind {
            Kind::Nomination => &self.nomination_rows,
            Kind::Ballot => &self.ballot_rows,
        };
        ReachedRows::in_place(alloc, &self.nodes, places, table, kind)
    }

    /// Sets what [`Region::change_by`] found. The region is then that of the table with the row; its nodes stay the
    /// same. It takes no memory.
    pub fn set_entry(&mut self, entry: RegionEntry)
        ensures nodes { arc_slice_items self.new.nodes ≡ arc_slice_items self.old.nodes }
        ensures region { (own : ℕ) (configured : Slices) (table : List Sent) (e : Sent) → IsEntry own configured table e self.old entry → IsRegion own configured table self.old → IsRegion own configured (with_row e table) self.new }
    {
        self.unshared = self.unshared.with_place(entry.place);
        self.numbers = entry.numbers;
        self.latest = entry.place;
        match entry.kind {
            Kind::Ballot => {
                set_at(&mut self.ballots, entry.place, entry.slices);
                set_row(&mut self.ballot_rows, entry.place, entry.row);
            }
            Kind::Nomination => {
                set_at(&mut self.nominations, entry.place, entry.slices);
                set_row(&mut self.nomination_rows, entry.place, entry.row);
            }
        }
    }
}

/// Where an envelope stands once the table takes it: in the place of its sender's row of that kind, or behind all
/// others.
fn row_place<S: Places>(table: &Rows<'_, S>, there: RowPlace) -> RowPlace
    ensures { (e : Sent) → place_of_row table.now e.sender (kind_of e.body) ≡ there → place_of_row (with_row e table.now) e.sender (kind_of e.body) ≡ result }
{
    match there.get() {
        None => table.end(),
        Some(_) => there,
    }
}

fn set_at(entries: &mut [Option<Form>], place: usize, slices: Form)
    ensures { place < length entries.old → entries.new ≡ set entries.old place (Some slices) }
{
    if place < entries.len() {
        entries[place] = Some(slices);
    }
}

fn set_row(rows: &mut [RowPlace], place: usize, row: RowPlace)
    ensures { place < length rows.old → rows.new ≡ set rows.old place row }
{
    if place < rows.len() {
        rows[place] = row;
    }
}

/// Has forms that may be new share memory with those of other regions.
fn share_forms(forms: &mut [Option<Form>], unshared: Unshared, shared: &mut SharedReach)
    ensures { forms.new ≡ forms.old }
{
    for place in unshared.first..unshared.end.min(forms.len()) {
        if let Some(form) = &mut forms[place] {
            shared.share_form(place, form);
        }
    }
}

/// A copy of compiled slices, each in its place. An error says that it is out of memory, or that a form has too many
/// owners.
fn copy_of_all(alloc: Global, forms: &[Option<Form>]) -> Result<Vec<Option<Form>>, AllocError>
    ensures { IfOk result (λ v. v.items ≡ forms.now) }
{
    let mut copies = Vec::with_capacity(alloc, forms.len())?;
    for form in forms {
        copies.push(copy_of(form)?)?;
    }
    Ok(copies)
}

/// A copy of compiled slices, if there are any. An error says that they have too many owners.
fn copy_of(form: &Option<Form>) -> Result<Option<Form>, AllocError>
    ensures { IfOk result (λ o. o ≡ form.now) }
{
    match form {
        None => Ok(None),
        Some(form) => Ok(Some(form.try_copy()?)),
    }
}

/// The place of a node that is listed.
fn place_in(nodes: &[NodeId], node: &NodeId) -> usize
    requires ascending { IsAscending nodes.now }
    requires listed { IsTrue (among nodes.now node.now) }
    ensures within { result < length nodes.now }
    ensures is { get_or nodes.now result 0 ≡ node.now }
{
    let Some(place) = place_in_nodes(nodes, node) else {
        unreachable!()
    };
    place
}

/// The slices that nodes have, compiled, in the order of the nodes, kind by kind.
#[derive(Drop)]
struct KindForms {
    ballots: Vec<Option<Form>>,
    nominations: Vec<Option<Form>>,
}

/// The slices that the nodes have by their rows, compiled, kind by kind. An error says that it is out of memory.
fn kind_forms<'a, S: Places>(
    alloc: Global,
    own: Own<'a>,
    table: &'a Rows<'a, S>,
    placed: &'a Placed,
    former: Option<FormerRegion<'a>>,
) -> Result<KindForms, AllocError>
    requires ascending { IsAscending placed.now.nodes.items }
    requires rows { AreRowPlaces table.now placed.now.nodes.items placed.now.rows }
    requires former { IfSome former (IsFormerRegion own.name.now own.slices.now table.now placed.now.nodes.items) }
    ensures ballots { IfOk result (λ f. AreAllForms placed.now.nodes.items (slices_by own.entry.name.now own.entry.slices.now table.now Kind.Ballot) f.ballots.items) }
    ensures nominations { IfOk result (λ f. AreAllForms placed.now.nodes.items (slices_by own.entry.name.now own.entry.slices.now table.now Nomination) f.nominations.items) }
{
    let rows = placed.rows_of(alloc, table, Kind::Ballot);
    let ballots = forms_by(alloc, own, rows, forms_of(&former, Kind::Ballot))?;
    let rows = placed.rows_of(alloc, table, Kind::Nomination);
    let nominations = forms_by(alloc, own, rows, forms_of(&former, Kind::Nomination))?;
    Ok(KindForms {
        ballots,
        nominations,
    })
}

/// The compiled slices by rows of one kind, in the order of the nodes; the node's own are the configured ones. An error
/// says that it is out of memory.
fn forms_by<'a, S: Places>(
    alloc: Global,
    own: Own<'a>,
    rows: ReachedRows<'a, S>,
    former: Option<Former<'a>>,
) -> Result<Vec<Option<Form>>, AllocError>
    requires ascending { IsAscending rows.nodes }
    requires former { IfSome former (IsFormerOf rows.nodes (slices_by own.name.now own.slices.now rows.table rows.kind)) }
    ensures { IfOk result (λ v. AreAllForms rows.entry.nodes (slices_by own.entry.name.now own.entry.slices.now rows.entry.table rows.entry.kind) v.items) }
{
    let reached = SlicesInReach {
        own: own.name,
        slices: own.slices,
        rows,
        former,
    };
    reached.forms(alloc)
}

/// Nodes, and where their rows stand in the table, in the order of the nodes, kind by kind.
#[derive(Drop)]
pub(crate) struct Placed {
    pub nodes: Vec<NodeId>,
    pub rows: KindPlaces,
}

impl Placed {
    /// The rows of a kind of these nodes. None is gathered, and it takes no memory.
    fn rows_of<'a, S: Places>(
        &'a self,
        alloc: Global,
        table: &'a Rows<'a, S>,
        kind: Kind,
    ) -> ReachedRows<'a, S>
        requires { row_places_of_kind kind self.now.rows ≡ row_places table.now kind self.now.nodes.items }
        ensures { result ≡ record { nodes = self.now.nodes.items; table = table.now; kind = kind } }
    {
        ReachedRows::in_place(alloc, &self.nodes, self.rows.of(kind), table, kind)
    }
}

/// A region of other nodes, and where its nodes stand among all. Only the sender's rows may have changed since.
#[derive(Clone, Copy)]
pub(crate) struct FormerRegion<'a> {
    pub region: &'a Region,
    pub places: &'a [usize],
    pub sender: &'a NodeId,
}

/// The forms of a kind in it, if there is one.
fn forms_of<'a>(former: &Option<FormerRegion<'a>>, kind: Kind) -> Option<Former<'a>>
    ensures { (own : ℕ) (configured : Slices) (table : List Sent) (nodes : List ℕ) → IfSome former.now (IsFormerRegion own configured table nodes) → IfSome result (IsFormerOf nodes (slices_by own configured table kind)) }
{
    match former {
        None => None,
        Some(former) => Some(Former {
            nodes: &former.region.nodes,
            forms: former.region.forms(kind),
            places: former.places,
            sender: former.sender,
        }),
    }
}

/// Where the rows of nodes stand in the table, in the order of the nodes, kind by kind.
#[derive(Drop)]
pub(crate) struct KindPlaces {
    pub ballots: Vec<RowPlace>,
    pub nominations: Vec<RowPlace>,
}

impl KindPlaces {
    /// The places of no node yet, with room for `count` nodes. An error says that it is out of memory.
    pub(crate) fn with_capacity(alloc: Global, count: usize) -> Result<KindPlaces, AllocError>
        ensures ballots { IfOk result (λ p. p.ballots.items ≡ []) }
        ensures nominations { IfOk result (λ p. p.nominations.items ≡ []) }
    {
        let ballots = Vec::with_capacity(alloc, count)?;
        let nominations = Vec::with_capacity(alloc, count)?;
        Ok(KindPlaces {
            ballots,
            nominations,
        })
    }

    /// Adds the places of the next node. An error says that it is out of memory.
    pub(crate) fn push(&mut self, places: RowPlaces) -> Result<(), AllocError>
        ensures ballots { OnOk result (self.new.ballots.items ≡ self.old.ballots.items ++ places.ballot ∷ []) }
        ensures nominations { OnOk result (self.new.nominations.items ≡ self.old.nominations.items ++ places.nomination ∷ []) }
    {
        self.ballots.push(places.ballot)?;
        self.nominations.push(places.nomination)?;
        Ok(())
    }

    fn of(&self, kind: Kind) -> &[RowPlace]
        ensures { result.now ≡ row_places_of_kind kind self.now }
    {
        match kind {
            Kind::Nomination => &self.nominations,
            Kind::Ballot => &self.ballots,
        }
    }
}

/// Where the rows of the nodes stand in the table; each node is looked up once. An error says that it is out of memory.
fn row_places<S: Places>(
    alloc: Global,
    table: &Rows<'_, S>,
    nodes: &[NodeId],
) -> Result<KindPlaces, AllocError>
    ensures { IfOk result (AreRowPlaces table.now nodes.now) }
{
    let mut found = KindPlaces::with_capacity(alloc, nodes.len())?;
    for node in nodes {
        found.push(table.places(node))?;
    }
    Ok(found)
}
