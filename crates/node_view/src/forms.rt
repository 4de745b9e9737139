//! Slices that are the same are compiled once.

ghost use Rattle.std.specs.Prelude.{◌≡◌, ◌<◌, ◌++◌, ◌∷◌, [], ℕ, IfOk, IfSome, IsTrue, Some, false, get_or, length, option_map, None};
ghost use Rattle.scp_spec.specs.Backing.{slices_by};
ghost use Rattle.scp_spec.specs.Satisfaction.{names};
ghost use Rattle.scp_spec.specs.Sets.{IsAscending, among, within};
ghost use Rattle.scp_bits.specs.Met.{IsCompiled};
ghost use Rattle.node_view.specs.Forms.{AreAllForms, ArePart, IsFormOf, IsFormerOf, IsFound, IsFoundWithin, IsTwin};

use crate::reached::ReachedRows;
use node_store::Places;
use scp_bits::{Form, place_in_nodes};
use scp_types::{Nested, NodeId};
use std::alloc::{AllocError, Global};

/// The forms that are there, and two places at which the same slices are looked for.
#[derive(Clone, Copy)]
pub(crate) struct Candidates<'a> {
    pub forms: &'a [Option<Form>],
    pub places: (usize, usize),
}

/// The forms of one kind in a region of other nodes, and where its nodes stand among all. Only the sender's rows may
/// have changed since.
#[derive(Clone, Copy)]
pub(crate) struct Former<'a> {
    pub nodes: &'a [NodeId],
    pub forms: &'a [Option<Form>],
    pub places: &'a [usize],
    pub sender: &'a NodeId,
}

impl<'a> Former<'a> {
    /// The form of a node in that region, if it has one and its rows are still the same.
    fn kept_form(&self, node: &NodeId) -> Option<&'a Form>
        requires { IsAscending self.now.nodes.now }
        ensures { IfSome result (λ f. IsFormOf self.now node.now f.now) }
    {
        if *node == *self.sender {
            return None;
        }
        match place_in_nodes(self.nodes, node) {
            None => None,
            Some(place) => form_in(self.forms, place),
        }
    }
}

/// A node's name and slices, the nodes that it reaches, and their rows of one kind; and the forms of a region of other
/// nodes, if there is one.
#[derive(Drop)]
pub(crate) struct SlicesInReach<'a, S: Places> {
    pub own: &'a NodeId,
    pub slices: &'a Nested,
    pub rows: ReachedRows<'a, S>,
    pub former: Option<Former<'a>>,
}

impl<'a, S: Places> SlicesInReach<'a, S> {
    /// The slices of all nodes, compiled, in the order of the nodes. An error says that it is out of memory.
    #[tactic(auto, using(crate::proofs::FormLaws::part_empty, crate::proofs::FormLaws::part_whole))]
    pub(crate) fn forms(&self, alloc: Global) -> Result<Vec<Option<Form>>, AllocError>
        requires ascending { IsAscending self.now.rows.nodes }
        requires former { IfSome self.now.former (IsFormerOf self.now.rows.nodes (slices_by self.now.own.now self.now.slices.now self.now.rows.table self.now.rows.kind)) }
        ensures { IfOk result (λ v. AreAllForms self.now.rows.nodes (slices_by self.now.own.now self.now.slices.now self.now.rows.table self.now.rows.kind) v.items) }
    {
        let mut forms = Vec::with_capacity(alloc, self.rows.nodes().len())?;
        let mut latest = 0;
        let mut before = 0;
        for place in 0..self.rows.nodes().len() {
            let form = self.form_at(alloc, &forms, place, (latest, before))?;
            if is_new(&form, place) {
                before = latest;
                latest = place;
            }
            forms.push(form)?;
        }
        Ok(forms)
    }

    /// The form of the node at a place, once those of the nodes before it are there. It is that of a candidate with the
    /// same slices, or else a new one, whose number is the place. An error says that it is out of memory.
    fn form_at(
        &self,
        alloc: Global,
        forms: &[Option<Form>],
        place: usize,
        candidates: (usize, usize),
    ) -> Result<Option<Form>, AllocError>
        requires ascending { IsAscending self.now.rows.nodes }
        requires former { IfSome self.now.former (IsFormerOf self.now.rows.nodes (slices_by self.now.own.now self.now.slices.now self.now.rows.table self.now.rows.kind)) }
        requires inside { place < length self.now.rows.nodes }
        requires before { length forms.now ≡ place }
        requires part { ArePart self.now.rows.nodes (slices_by self.now.own.now self.now.slices.now self.now.rows.table self.now.rows.kind) forms.now }
        ensures { IfOk result (λ o. ArePart self.now.rows.nodes (slices_by self.now.own.now self.now.slices.now self.now.rows.table self.now.rows.kind) (forms.now ++ o ∷ [])) }
    {
        match self.slices_at(place) {
            None => Ok(None),
            Some(slices) => {
                let there = Candidates {
                    forms,
                    places: candidates,
                };
                let form = self.form_of(alloc, slices, there, place)?;
                Ok(Some(form))
            }
        }
    }

    /// A form of these slices, which are those of the node at the place `number`. It is that of a candidate with the
    /// same slices, or else a new one of this number. An error says that it is out of memory.
    fn form_of(
        &self,
        alloc: Global,
        slices: &Nested,
        there: Candidates<'_>,
        number: usize,
    ) -> Result<Form, AllocError>
        requires ascending { IsAscending self.now.rows.nodes }
        requires former { IfSome self.now.former (IsFormerOf self.now.rows.nodes (slices_by self.now.own.now self.now.slices.now self.now.rows.table self.now.rows.kind)) }
        requires inside { number < length self.now.rows.nodes }
        requires its { slices_by self.now.own.now self.now.slices.now self.now.rows.table self.now.rows.kind (get_or self.now.rows.nodes number 0) ≡ Some slices.now }
        ensures { IfOk result (IsFound self.now.rows.nodes (slices_by self.now.own.now self.now.slices.now self.now.rows.table self.now.rows.kind) there.entry.forms.now number slices.now) }
    {
        match self.twin_among(slices, there) {
            Some(form) => form.try_copy(),
            None => self.new_form_at(alloc, slices, number),
        }
    }

    /// A new form of the slices of the node at a place; its number is the place. It is taken from the former region
    /// with its places moved, or else compiled. An error says that it is out of memory.
    fn new_form_at(&self, alloc: Global, slices: &Nested, place: usize) -> Result<Form, AllocError>
        requires ascending { IsAscending self.now.rows.nodes }
        requires former { IfSome self.now.former (IsFormerOf self.now.rows.nodes (slices_by self.now.own.now self.now.slices.now self.now.rows.table self.now.rows.kind)) }
        requires inside { place < length self.now.rows.nodes }
        requires its { slices_by self.now.own.now self.now.slices.now self.now.rows.table self.now.rows.kind (get_or self.now.rows.nodes place 0) ≡ Some slices.now }
        ensures { IfOk result (λ f. (f.number ≡ place) × IsCompiled false self.now.rows.nodes slices.now f.set) }
    {
        let nodes = self.rows.nodes();
        let Some(former) = &self.former else {
            return Form::compile(alloc, place, slices.set(), nodes);
        };
        match former.kept_form(&nodes[place]) {
            None => Form::compile(alloc, place, slices.set(), nodes),
            Some(form) => form.relocate(alloc, place, former.places),
        }
    }

    /// A form of the slices, if they name only these nodes, which are a reach: that of a candidate with the same
    /// slices, or else a new one. Slices that a reached node has name only reached nodes, so names are searched for
    /// only in others. An error says that it is out of memory.
    pub(crate) fn form_within(
        &self,
        alloc: Global,
        slices: &Nested,
        there: Candidates<'_>,
        number: usize,
    ) -> Result<Option<Form>, AllocError>
        requires { IsAscending self.now.rows.nodes }
        ensures { IfOk result (λ o. IfSome o (IsFoundWithin self.now.rows.nodes (slices_by self.now.own.now self.now.slices.now self.now.rows.table self.now.rows.kind) there.entry.forms.now number slices.now)) }
    {
        match self.twin_among(slices, there) {
            Some(form) => {
                let form = form.try_copy()?;
                Ok(Some(form))
            }
            None => Form::compile_within(alloc, number, slices.set(), self.rows.nodes()),
        }
    }

    /// The form of a candidate with these slices, if there is one. It takes no memory.
    fn twin_among<'b>(&self, slices: &Nested, there: Candidates<'b>) -> Option<&'b Form>
        ensures { IfSome result (λ f. IsTwin self.now.rows.nodes (slices_by self.now.own.now self.now.slices.now self.now.rows.table self.now.rows.kind) there.entry.forms.now slices.now f.now) }
    {
        match self.twin(slices, there.forms, there.places.0) {
            Some(form) => Some(form),
            None => self.twin(slices, there.forms, there.places.1),
        }
    }

    /// The form at a place, if the node there has these slices. It takes no memory.
    fn twin<'b>(&self, slices: &Nested, forms: &'b [Option<Form>], place: usize) -> Option<&'b Form>
        ensures { IfSome result (λ f. IsTwin self.now.rows.nodes (slices_by self.now.own.now self.now.slices.now self.now.rows.table self.now.rows.kind) forms.now slices.now f.now) }
    {
        if place >= self.rows.nodes().len() {
            return None;
        }
        match self.slices_at(place) {
            None => None,
            Some(there) => {
                if there.is_same(slices) {
                    form_in(forms, place)
                } else {
                    None
                }
            }
        }
    }

    /// The slices of the node at a place, if it has any: its own, or those of the row. It takes no memory.
    fn slices_at(&self, place: usize) -> Option<&'a Nested>
        requires { place < length self.now.rows.nodes }
        ensures { option_map (λ q. q.now) result ≡ slices_by self.now.own.now self.now.slices.now self.now.rows.table self.now.rows.kind (get_or self.now.rows.nodes place 0) }
    {
        let node = &self.rows.nodes()[place];
        if *self.own == *node {
            return Some(self.slices);
        }
        match self.rows.row_at(place) {
            None => None,
            Some(row) => Some(row.slices()),
        }
    }
}

pub(crate) fn form_in(forms: &[Option<Form>], place: usize) -> Option<&Form>
    ensures { IfSome result (λ f. (place < length forms.now) × (get_or forms.now place None ≡ Some f.now)) }
{
    match forms.get(place) {
        None => None,
        Some(form) => form.as_ref(),
    }
}

fn is_new(form: &Option<Form>, number: usize) -> bool {
    match form {
        None => false,
        Some(form) => form.number() == number,
    }
}
