//! What several nodes know alike of whom they reach.

ghost use Rattle.std.specs.Prelude.{◌≡◌, IsTrue};
ghost use Rattle.std.specs.Arc.{arc_slice_items};

use scp_bits::Form;
use scp_types::NodeId;
use std::alloc::Global;
use std::sync::ArcSlice;

/// Forms of this many places are kept at most, the first ones. Those of others are not shared.
const MOST_PLACES: usize = 256;

/// The reached nodes and the forms that a node at a slot was last seen with, place by place. Others that have the same
/// share their memory. Contracts see nothing of it.
#[derive(Drop)]
pub struct SharedReach {
    nodes: Option<ArcSlice<NodeId>>,
    forms: Vec<Option<Form>>,
}

impl SharedReach {
    /// Nothing yet. It takes no memory.
    pub fn new(alloc: Global) -> SharedReach {
        SharedReach {
            nodes: None,
            forms: Vec::new(alloc),
        }
    }

    /// Has a list of reached nodes be the one that is kept, if that is of the same nodes; else it is kept itself.
    pub(crate) fn share_nodes(&mut self, nodes: &mut ArcSlice<NodeId>)
        ensures { arc_slice_items nodes.new ≡ arc_slice_items nodes.old }
    {
        if let Some(kept) = &self.nodes {
            if are_same(kept, nodes) {
                if let Ok(copy) = kept.clone() {
                    *nodes = copy;
                }
                return;
            }
        }
        self.nodes = nodes.clone().ok();
    }

    /// Has the form at a place share the set of the one that is kept of it, if they are of the same places; else it is
    /// kept itself, if there is memory for that.
    pub(crate) fn share_form(&mut self, place: usize, form: &mut Form)
        ensures { form.new ≡ form.old }
    {
        if place >= MOST_PLACES {
            return;
        }
        if let Some(Some(kept)) = self.forms.get(place) {
            if form.share(kept) {
                return;
            }
        }
        self.keep(place, form);
    }

    fn keep(&mut self, place: usize, form: &Form) {
        // Memory: what has no room is not kept, and then not shared.
        for _ in self.forms.len()..=place {
            if self.forms.push(None).is_err() {
                return;
            }
        }
        if place < self.forms.len() {
            self.forms[place] = form.try_copy().ok();
        }
    }
}

fn are_same(nodes: &[NodeId], others: &[NodeId]) -> bool
    ensures { IsTrue result → nodes.now ≡ others.now }
{
    *nodes == *others
}
