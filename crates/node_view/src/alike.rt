//! The places of reached nodes whose rows say the same.

ghost use Rattle.std.specs.Prelude.{◌≡◌, ◌≢◌, ◌<◌, ◌/◌, [], ℕ, IfOk, IfSome, IsTrue, List, Option, Some, get_or, is_some, length};
ghost use Rattle.scp_types.specs.declared.statement.Statement.{Statement};
ghost use Rattle.scp_types.specs.Statements.{Sent};
ghost use Rattle.scp_bits.specs.Places.{bit_of};
ghost use Rattle.scp_spec.specs.Rows.{with_row};
ghost use Rattle.scp_spec.specs.Sets.{IsAscending};
ghost use Rattle.node_view.specs.Grouping.{AreGrouped, AreGroups, HasLeft, IsOutside, said_at};
ghost use Rattle.node_view.specs.Knowing.{is_heard};

use crate::reached::ReachedRows;
use crate::words::{FEW_WORDS, first_place, put_place, take_place};
use node_store::Places;
use scp_types::{Envelope, NodeId, Statement};
use std::alloc::{AllocError, Global};

/// Among at most this many nodes each row is asked, and a quorum is searched for at once. To find out before which rows
/// say the same, or whether there may be a quorum, would cost more.
pub(crate) const FEW_NODES: usize = 8;

/// At most this many groups are told apart.
const MOST_GROUPS: usize = 16;

/// The reached nodes but the node itself, in groups whose rows of one kind say the same. Those whose rows differ from
/// the groups' are in the rest. So a question is put to one row of each group, if the rest is empty.
///
/// For example, if A, C and D say the same and B says something else, one group is A, C and D, and another is B.
#[derive(Drop)]
pub struct Alike {
    pub(crate) groups: Vec<[u64; FEW_WORDS]>,
    pub(crate) rest: [u64; FEW_WORDS],
}

impl Alike {
    /// The groups of these rows; nothing among so few nodes that each is asked, or so many that a set has no room for
    /// them. Room for one group is made here. An error says that it is out of memory.
    pub(crate) fn of_rows<S: Places>(
        alloc: Global,
        own: &NodeId,
        rows: &ReachedRows<'_, S>,
    ) -> Result<Option<Alike>, AllocError>
        ensures { IfOk result (λ o. IfSome o (AreGrouped own.now rows.now)) }
    {
        let count = rows.nodes().len();
        if count <= FEW_NODES || count > 64 * FEW_WORDS {
            return Ok(None);
        }
        let mut alike = Alike {
            groups: Vec::with_capacity(alloc, 1)?,
            rest: [0u64; FEW_WORDS],
        };
        for place in 0..count {
            if let Some(statement) = rows.said_by_another(own, place) {
                alike.join(own, rows, place, statement);
            }
        }
        Ok(Some(alike))
    }

    /// Takes a place out of its group, or out of the rest.
    fn leave(&mut self, place: usize)
        ensures { HasLeft place self.old self.new }
    {
        for group in self.groups.iter_mut() {
            take_place(group, place);
        }
        take_place(&mut self.rest, place);
    }

    /// Puts a place that is in no group to those that say the same, or else into a group of its own, or into the rest.
    fn join<S: Places>(
        &mut self,
        own: &NodeId,
        rows: &ReachedRows<'_, S>,
        place: usize,
        statement: &Statement,
    )
        ensures groups { place / 64 < 8 → said_at own.now rows.now place ≡ Some statement.now → AreGroups (said_at own.now rows.now) self.old.groups.items → AreGroups (said_at own.now rows.now) self.new.groups.items }
        ensures outside { place / 64 < 8 → (i : ℕ) → IsOutside self.new i → (place ≢ i) × IsOutside self.old i }
    {
        match self.group_for(own, rows, statement) {
            Some(index) => put_place(&mut self.groups[index], place),
            None => self.begin(place),
        }
    }

    /// A group that says this, or else an empty one.
    fn group_for<S: Places>(
        &self,
        own: &NodeId,
        rows: &ReachedRows<'_, S>,
        statement: &Statement,
    ) -> Option<usize>
        ensures { IfSome result (λ j. (j < length self.now.groups.items) × (AreGroups (said_at own.now rows.now) self.now.groups.items → (i : ℕ) → bit_of (get_or self.now.groups.items j []) i ≡ 1 → said_at own.now rows.now i ≡ Some statement.now)) }
    {
        let mut empty = None;
        for index in 0..self.groups.len() {
            match first_place(&self.groups[index]) {
                None => empty = Some(index),
                Some(first) => {
                    if says(own, rows, first, statement) {
                        return Some(index);
                    }
                }
            }
        }
        empty
    }

    /// Puts a place into a new group, or into the rest if there are as many groups as can be or it is out of memory.
    fn begin(&mut self, place: usize)
        ensures groups { place / 64 < 8 → (said : ℕ → Option Statement) → IsTrue (is_some (said place)) → AreGroups said self.old.groups.items → AreGroups said self.new.groups.items }
        ensures outside { place / 64 < 8 → (i : ℕ) → IsOutside self.new i → (place ≢ i) × IsOutside self.old i }
    {
        if self.groups.len() < MOST_GROUPS {
            let mut group = [0u64; FEW_WORDS];
            put_place(&mut group, place);
            if let Ok(()) = self.groups.push(group) {
                return;
            }
        }
        put_place(&mut self.rest, place);
    }
}

/// Has the groups follow a new row of the node at this place, if they are known. Out of memory for a group, its node is
/// in the rest.
pub(crate) fn follow<S: Places>(
    alike: &mut Option<Alike>,
    own: &NodeId,
    rows: &ReachedRows<'_, S>,
    row: &Envelope,
    place: usize,
)
    requires ascending { IsAscending rows.now.nodes }
    requires within { place < length rows.now.nodes }
    requires sender { get_or rows.now.nodes place 0 ≡ row.now.sender }
    ensures { (old : List Sent) → rows.now.table ≡ with_row row.now old → IsTrue (is_heard rows.now.kind own.now rows.now.nodes row.now) → IfSome alike.old (AreGrouped own.now (record { nodes = rows.now.nodes; table = old; kind = rows.now.kind })) → IfSome alike.new (AreGrouped own.now rows.now) }
{
    let Some(alike) = alike else {
        return;
    };
    alike.leave(place);
    alike.join(own, rows, place, row.body());
}

/// Whether this is said at a place.
fn says<S: Places>(
    own: &NodeId,
    rows: &ReachedRows<'_, S>,
    place: usize,
    statement: &Statement,
) -> bool
    ensures { IsTrue result → said_at own.now rows.now place ≡ Some statement.now }
{
    if place >= rows.nodes().len() {
        return false;
    }
    match rows.said_by_another(own, place) {
        None => false,
        Some(said) => said.is_same(statement),
    }
}
