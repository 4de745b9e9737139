//! A search for the nodes that a node reaches, of whom most are known from an earlier one.
//!
//! An error of a function here says that it is out of memory.

ghost use Rattle.std.specs.Prelude.{◌≡◌, ◌<◌, ◌||◌, ℕ, IfOk, MatchOption, OnOk, false, get_or, length, option_map};
ghost use Rattle.scp_types.specs.declared.kind.Kind.{Kind};
ghost use Rattle.scp_types.specs.declared.kind.Kind.TheVariants.{Nomination};
ghost use Rattle.scp_spec.specs.Sets.{AreApart, IsAscending, among};
ghost use Rattle.node_reach.specs.Searching.{AreKnown, AreRowsOf, Finds, IsOver, IsSearch, IsTakenWith, found_in, pending_in, with_marks};
ghost use Rattle.node_reach.specs.Sweeps.{just, names_in_row};
ghost use Rattle.node_reach.specs.Widening.{in_either};

use crate::sweep::Sweep;
use node_store::Places;
use node_table::{RowPlace, Rows, SenderRows};
use scp_bits::place_near;
use scp_slices::SliceFamily;
use scp_types::{Envelope, NodeId};
use std::alloc::{AllocError, Global};

/// Nodes that may be reached, ascending, and where their rows of both kinds stand in the table. The rows of one node,
/// the sender, may stand elsewhere since.
#[derive(Clone, Copy)]
pub struct KnownNodes<'a> {
    pub nodes: &'a [NodeId],
    pub ballots: &'a [RowPlace],
    pub nominations: &'a [RowPlace],
    pub sender: &'a NodeId,
}

/// What was found: known nodes by their places, which are marked, and others by their names. Those whose rows were not
/// looked at yet are pending.
///
/// A name is looked for behind the known node that was found last, before it is searched for.
#[derive(Drop)]
pub(crate) struct Search<'a> {
    known: KnownNodes<'a>,
    next: usize,
    marks: Vec<bool>,
    places: Vec<usize>,
    others: Sweep,
}

impl<'a> Search<'a> {
    /// A search that has found nothing.
    pub fn new(alloc: Global, known: KnownNodes<'a>) -> Result<Search<'a>, AllocError>
        requires { IsAscending known.nodes.now }
        ensures search { IfOk result IsSearch }
        ensures known { IfOk result (λ s. s.known ≡ known.entry) }
        ensures found { IfOk result (λ s. (u : ℕ) → found_in s u ≡ false) }
        ensures pending { IfOk result (λ s. (u : ℕ) → pending_in s u ≡ false) }
    {
        Ok(Search {
            known,
            next: 0,
            marks: vec![in alloc; false; known.nodes.len()]?,
            places: Vec::new(alloc),
            others: Sweep::new(alloc),
        })
    }

    /// Finds a node, which is pending unless it was found before.
    pub fn note(&mut self, node: &NodeId) -> Result<(), AllocError>
        requires { IsSearch self.old }
        ensures { OnOk result (Finds self.old self.new (just node.now)) }
    {
        match place_near(self.known.nodes, self.next, node) {
            Some(place) => {
                self.next = place + 1;
                self.mark(place)
            }
            None => self.others.note(node),
        }
    }

    /// Finds the known node at a place.
    fn mark(&mut self, place: usize) -> Result<(), AllocError>
        requires search { IsSearch self.old }
        requires within { place < length self.old.known.nodes.now }
        ensures { OnOk result (Finds self.old self.new (just (get_or self.old.known.nodes.now place 0))) }
    {
        if self.marks[place] {
            return Ok(());
        }
        self.places.push(place)?;
        self.marks[place] = true;
        Ok(())
    }

    /// Finds each of the nodes.
    pub fn note_all(&mut self, nodes: &[NodeId]) -> Result<(), AllocError>
        requires { IsSearch self.old }
        ensures { OnOk result (Finds self.old self.new (among nodes.now)) }
    {
        for node in nodes {
            self.note(node)?;
        }
        Ok(())
    }

    /// Finds the names in the rows of a node.
    pub fn note_rows(&mut self, alloc: Global, rows: &SenderRows<'_>) -> Result<(), AllocError>
        requires { IsSearch self.old }
        ensures { OnOk result (Finds self.old self.new (λ u. names_in_row (option_map (λ r. r.now) rows.now.ballot) u || names_in_row (option_map (λ r. r.now) rows.now.nomination) u)) }
    {
        self.note_row(alloc, rows.nomination)?;
        self.note_row(alloc, rows.ballot)
    }

    fn note_row(&mut self, alloc: Global, row: Option<&Envelope>) -> Result<(), AllocError>
        requires { IsSearch self.old }
        ensures { OnOk result (Finds self.old self.new (names_in_row (option_map (λ r. r.now) row.entry))) }
    {
        match row {
            None => Ok(()),
            Some(row) => self.note_all(&row.slices().names(alloc)?),
        }
    }

    /// Takes a pending node, if there is one, and answers its rows.
    pub fn take<'t, S: Places>(&mut self, table: &Rows<'t, S>) -> Option<SenderRows<'t>>
        requires known { AreKnown table.now self.old.known }
        requires search { IsSearch self.old }
        ensures { MatchOption result (IsOver self.old self.new) (IsTakenWith table.now self.old self.new) }
    {
        if let Some(place) = self.places.pop() {
            return Some(self.rows_at(table, place));
        }
        match self.others.take() {
            None => None,
            Some(node) => Some(table.rows_of(&node)),
        }
    }

    /// The rows of the known node at a place.
    fn rows_at<'t, S: Places>(&self, table: &Rows<'t, S>, place: usize) -> SenderRows<'t>
        requires known { AreKnown table.now self.now.known }
        requires within { place < length self.now.known.nodes.now }
        ensures { AreRowsOf table.now (get_or self.now.known.nodes.now place 0) result }
    {
        let node = &self.known.nodes[place];
        if *node == *self.known.sender {
            return table.rows_of(node);
        }
        match (
            self.known.ballots.get(place),
            self.known.nominations.get(place),
        ) {
            (Some(ballot), Some(nomination)) => SenderRows {
                nomination: table.row_where(*nomination),
                ballot: table.row_where(*ballot),
            },
            _ => table.rows_of(node),
        }
    }

    /// All that was found, ascending.
    pub fn nodes(&self, alloc: Global) -> Result<Vec<NodeId>, AllocError>
        requires { IsSearch self.now }
        ensures ascending { IfOk result (λ v. IsAscending v.items) }
        ensures all { IfOk result (λ v. (u : ℕ) → among v.items u ≡ found_in self.now u) }
    {
        let nodes = marked_nodes(alloc, self.known.nodes, &self.marks)?;
        let others = self.others.nodes(alloc)?;
        let all = join(nodes, &others)?;
        Ok(all)
    }
}

/// The nodes at the places that have a mark.
fn marked_nodes(alloc: Global, nodes: &[NodeId], marks: &[bool]) -> Result<Vec<NodeId>, AllocError>
    requires { length marks.now ≡ length nodes.now }
    ensures { IfOk result (λ v. v.items ≡ with_marks nodes.now marks.now) }
{
    let mut picked = Vec::with_capacity(alloc, nodes.len())?;
    for place in 0..nodes.len() {
        if marks[place] {
            picked.push(nodes[place])?;
        }
    }
    Ok(picked)
}

/// Two ascending lists without a common node, as one.
pub(crate) fn join(nodes: Vec<NodeId>, others: &[NodeId]) -> Result<Vec<NodeId>, AllocError>
    requires nodes { IsAscending nodes.items }
    requires others { IsAscending others.now }
    requires apart { AreApart (among others.now) (among nodes.items) }
    ensures ascending { IfOk result (λ v. IsAscending v.items) }
    ensures all { IfOk result (λ v. (u : ℕ) → among v.items u ≡ in_either nodes.items others.now u) }
{
    let mut all = nodes;
    if others.is_empty() {
        return Ok(all);
    }
    all.extend_from_slice(others)?;
    // Two runs in order are merged in one pass.
    all.sort()?;
    Ok(all)
}
