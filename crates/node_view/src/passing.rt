//! Who passes a question, by the rows of one kind.

ghost use Rattle.std.specs.Prelude.{◌≡◌, ◌<◌, ℕ, IfSome, List, get_or, length};
ghost use Rattle.scp_bits.specs.Asking.{ArePassing};
ghost use Rattle.scp_bits.specs.Met.{one_where};
ghost use Rattle.scp_bits.specs.Places.{bit_of};
ghost use Rattle.scp_bits.specs.Searching.{met_at};
ghost use Rattle.scp_spec.specs.Sets.{IsAscending};
ghost use Rattle.scp_voting.specs.Questions.{asks};
ghost use Rattle.node_view.specs.Grouping.{AreAllGrouped, IsGroup, said_at};
ghost use Rattle.node_view.specs.Watching.{passes_at, passes_within};
ghost use Rattle.node_view.specs.Words.{IsEmptySet};

use crate::reached::ReachedRows;
use crate::words::{FEW_WORDS, first_place, join_places};
use node_store::Places;
use scp_bits::{Form, Passing, add_place};
use scp_voting::Question;

/// The reached nodes, each to be asked whether it passes a question. The node itself passes if its position does,
/// another node if its row does.
#[derive(Drop)]
pub(crate) struct Supporters<'a, S: Places> {
    pub rows: &'a ReachedRows<'a, S>,
    pub own_place: usize,
    pub own_passes: bool,
    pub question: &'a Question<'a>,
    ghost ascending: { IsAscending rows.now.nodes },
    ghost listed: { own_place < length rows.now.nodes },
}

impl<'a, S: Places> Passing for Supporters<'a, S> {
    ghost passing = { λ s. passes_within s.rows.now s.own_place s.own_passes (asks s.question.now) };

    fn passes(&self, place: usize) -> bool {
        place < self.rows.nodes().len() && self.passes_at(place)
    }
}

impl<'a, S: Places> Supporters<'a, S> {
    fn passes_at(&self, place: usize) -> bool
        requires { place < length self.now.rows.now.nodes }
        ensures { result ≡ passes_at self.now.rows.now self.now.own_place self.now.own_passes (asks self.now.question.now) place }
    {
        if place == self.own_place {
            return self.own_passes;
        }
        match self.rows.row_at(place) {
            Some(row) => self.question.asks(row.body()),
            None => false,
        }
    }

    /// Whether those who pass meet compiled slices. If there are none, nobody does.
    pub(crate) fn meet(&self, form: &Option<Form>) -> bool
        ensures { (ws : List ℕ) → ArePassing (passes_within self.now.rows.now self.now.own_place self.now.own_passes (asks self.now.question.now)) ws → result ≡ met_at form.now ws }
    {
        match form {
            None => false,
            Some(form) => form.is_met_by(self),
        }
    }

    /// Adds to the empty set the places of those who pass: by these groups, if they are known, or else each is asked.
    #[inline(always)]
    pub(crate) fn add_to(&self, places: &mut [u64], groups: Option<&[[u64; FEW_WORDS]]>)
        requires groups { IfSome groups (λ gs. AreAllGrouped (get_or self.now.rows.now.nodes self.now.own_place 0) self.now.rows.now gs.now) }
        requires empty { IsEmptySet (length self.now.rows.now.nodes) places.old }
        ensures { (i : ℕ) → i < length self.now.rows.now.nodes → bit_of places.new i ≡ one_where (passes_at self.now.rows.now self.now.own_place self.now.own_passes (asks self.now.question.now) i) }
    {
        match groups {
            None => self.add_each(places),
            Some(groups) => self.add_groups(places, groups),
        }
    }

    fn add_each(&self, places: &mut [u64])
        requires { IsEmptySet (length self.now.rows.now.nodes) places.old }
        ensures { (i : ℕ) → i < length self.now.rows.now.nodes → bit_of places.new i ≡ one_where (passes_at self.now.rows.now self.now.own_place self.now.own_passes (asks self.now.question.now) i) }
    {
        for place in 0..self.rows.nodes().len() {
            if self.passes_at(place) {
                add_place(places, place);
            }
        }
    }

    /// Adds to the empty set the places of those who pass. Of each group one row is asked.
    pub(crate) fn add_groups(&self, places: &mut [u64], groups: &[[u64; FEW_WORDS]])
        requires groups { AreAllGrouped (get_or self.now.rows.now.nodes self.now.own_place 0) self.now.rows.now groups.now }
        requires empty { IsEmptySet (length self.now.rows.now.nodes) places.old }
        ensures { (i : ℕ) → i < length self.now.rows.now.nodes → bit_of places.new i ≡ one_where (passes_at self.now.rows.now self.now.own_place self.now.own_passes (asks self.now.question.now) i) }
    {
        for group in groups {
            if self.group_passes(group) {
                join_places(places, group);
            }
        }
        if self.own_passes {
            add_place(places, self.own_place);
        }
    }

    /// Whether the nodes of a group pass, by one of their rows.
    fn group_passes(&self, group: &[u64; FEW_WORDS]) -> bool
        requires { IsGroup (said_at (get_or self.now.rows.now.nodes self.now.own_place 0) self.now.rows.now) group.now }
        ensures { (i : ℕ) → bit_of group.now i ≡ 1 → result ≡ passes_at self.now.rows.now self.now.own_place self.now.own_passes (asks self.now.question.now) i }
    {
        match first_place(group) {
            None => false,
            Some(place) => self.passes_at(place),
        }
    }
}
