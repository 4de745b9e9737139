//! A node's view of its table.

ghost use Rattle.std.specs.Arc.{arc_slice_items};
ghost use Rattle.std.proofs.Props.{props};
ghost use Rattle.std.specs.Coded.{codes};
ghost use Rattle.std.specs.Prelude.{◌≡◌, ℕ, IfOk, IfSome, false, length, refl, true, IsFalse};
ghost use Rattle.scp_bits.specs.Places.{compiled_code};
ghost use Rattle.scp_types.specs.declared.kind.Kind.{Kind};
ghost use Rattle.scp_spec.specs.Rows.{has_single_rows};
ghost use Rattle.scp_spec.specs.Views.{seen};
ghost use Rattle.scp_spec.specs.Backing.{slices_by};
ghost use Rattle.scp_bits.specs.Searching.{AreCompiled};
ghost use Rattle.scp_voting.specs.Questions.{asks, kind_asked};
ghost use Rattle.node_view.specs.Knowing.{AreSearched, IsKnown};
ghost use Rattle.node_view.specs.Regions.{IsRegion};
ghost use Rattle.node_view.specs.Grouping.{AreAllGrouped, AreGrouped};
ghost use Rattle.node_view.specs.Watching.{RowsOfNodes, rows_of_others, values_in};
ghost use Rattle.node_view.specs.Words.{IsEmptySet};

use crate::alike::{Alike, FEW_NODES};
use crate::known_reach::KnownReach;
use crate::own::Own;
use crate::passing::Supporters;
use crate::reached::ReachedRows;
use crate::reached_ballots::ReachedBallots;
use crate::reached_values::ReachedValues;
use crate::region::Region;
use crate::rows::values_of;
use crate::searching::next_counter;
use crate::unlisted::{next_mentioned, nominated_values};
use crate::words::{FEW_WORDS, first_place};
use node_store::Places;
use node_table::Rows;
use scp_bits::{Form, in_quorum, is_met, is_met_by, no_places};
use scp_types::{Kind, Leaders, LentBallot, Nested, NodeId, Values};
use scp_voting::{Mention, Question, Sight};
use std::alloc::{AllocError, Global};

/// What a node with these slices and leaders sees of a table: the rows of the other nodes that it reaches, and the
/// nomination rows of its leaders, reached or not (the Stellar Consensus Protocol draft, of federated voting). That
/// rows of strangers are left out is this host's profile.
///
/// Rows of strangers are not looked at: the region keeps the places of each reached node's rows, and both tests find a
/// row by the node's place in the reach. If it is known which rows say the same, a test asks one of them. Else it asks
/// the names of the node's slices one by one, until its answer is known, and if many are reached, [`View::of`] reads
/// their ballots once. Nominations are read where they stand, since only rules of nomination ask for them, and rows of
/// leaders are looked up.
///
/// The rules ask for the next ballot below a bound again and again. So a search goes through the ballots in order, if
/// their owner has listed them, and else through the rows. Nominated values are copied from their list, if there is
/// one, or gathered when a rule asks for them. What is known of the reach is its owner's, who keeps it from event to
/// event.
#[derive(Drop)]
pub struct View<'a, S: Places> {
    own: &'a NodeId,
    slices: &'a Nested,
    leaders: &'a Leaders,
    table: &'a Rows<'a, S>,
    region: &'a Region,
    ballots: ReachedRows<'a, S>,
    nominations: ReachedRows<'a, S>,
    listed: &'a Option<ReachedBallots>,
    values: &'a Option<ReachedValues>,
    ghost known: { IsRegion own.now slices.now table.now region.now } by { Prim.hlevel (props, codes, compiled_code) },
    ghost single: { has_single_rows table.now ≡ true },
    ghost ballots_kept: { ballots ≡ record { nodes = (arc_slice_items region.now.nodes); table = table.now; kind = Kind.Ballot } },
    ghost nominations_kept: { nominations ≡ record { nodes = (arc_slice_items region.now.nodes); table = table.now; kind = Kind.Nomination } },
    ghost ballots_listed: { IfSome listed.now (λ l. AreSearched own.now ballots.kind ballots.table ballots.nodes l) } by { Prim.hlevel (props, codes) },
    ghost values_listed: { IfSome values.now (λ v. v.values ≡ values_in (rows_of_others own.now nominations.kind nominations.table nominations.nodes)) } by { Prim.hlevel (props, codes) },
    ghost ballots_alike: { IfSome listed.now (λ l. IfSome l.alike (AreGrouped own.now ballots)) } by { Prim.hlevel (props, codes) },
    ghost values_alike: { IfSome values.now (λ v. IfSome v.alike (AreGrouped own.now nominations)) } by { Prim.hlevel (props, codes) },
}

impl<'a, S: Places> View<'a, S> {
    /// What the node sees of the table now, by what is known of its reach. If many are reached, their ballot rows are
    /// gathered, unless it is known which say the same. An error says that it is out of memory.
    pub fn of(
        alloc: Global,
        own: Own<'a>,
        leaders: &'a Leaders,
        table: &'a Rows<'a, S>,
        known: &'a KnownReach,
    ) -> Result<View<'a, S>, AllocError>
        requires { IsKnown own.name.now own.slices.now table.now known.now }
        ensures { IfOk result (λ v. ⟦<View<'a, S> as Sight>⟧.seen v ≡ seen own.entry.name.now own.entry.slices.now leaders.now table.now) }
    {
        if ballots_alike(&known.ballots).is_some() {
            return Ok(View::in_place(alloc, own, leaders, table, known));
        }
        let region = &known.region;
        let places = &region.ballot_rows;
        let ballots = ReachedRows::gather(alloc, &region.nodes, places, table, Kind::Ballot)?;
        Ok(View::by_ballot_rows(alloc, own, leaders, known, ballots))
    }

    /// What the node sees of the table now, if the rules of balloting hardly ask: ballot rows are read where they
    /// stand. It takes no memory.
    pub fn in_place(
        alloc: Global,
        own: Own<'a>,
        leaders: &'a Leaders,
        table: &'a Rows<'a, S>,
        known: &'a KnownReach,
    ) -> View<'a, S>
        requires { IsKnown own.name.now own.slices.now table.now known.now }
        ensures { ⟦<View<'a, S> as Sight>⟧.seen result ≡ seen own.entry.name.now own.entry.slices.now leaders.now table.now }
    {
        let ballots = known.region.rows(alloc, table, Kind::Ballot);
        View::by_ballot_rows(alloc, own, leaders, known, ballots)
    }

    fn by_ballot_rows(
        alloc: Global,
        own: Own<'a>,
        leaders: &'a Leaders,
        known: &'a KnownReach,
        ballots: ReachedRows<'a, S>,
    ) -> View<'a, S>
        requires known { IsKnown own.name.now own.slices.now ballots.table known.now }
        requires ballots { ballots ≡ record { nodes = (arc_slice_items known.now.region.nodes); table = ballots.table; kind = Kind.Ballot } }
        ensures { ⟦<View<'a, S> as Sight>⟧.seen result ≡ seen own.entry.name.now own.entry.slices.now leaders.now ballots.entry.table }
    {
        let table = ballots.table();
        table.are_single();
        let region = &known.region;
        let nominations = region.rows(alloc, table, Kind::Nomination);
        View {
            own: own.name,
            slices: own.slices,
            leaders,
            table,
            region,
            ballots,
            nominations,
            listed: &known.ballots,
            values: &known.values,
        }
    }

    /// The rows that a question asks.
    fn rows_for(&self, question: &Question<'_>) -> &ReachedRows<'a, S>
        ensures { result.now ≡ record { nodes = (arc_slice_items self.now.region.now.nodes); table = self.now.table.now; kind = kind_asked question.now } }
    {
        match question.kind() {
            Kind::Nomination => &self.nominations,
            Kind::Ballot => &self.ballots,
        }
    }

    /// The compiled slices by the rows that a question asks.
    fn forms_for(&self, question: &Question<'_>) -> &[Option<Form>]
        ensures { AreCompiled (arc_slice_items self.now.region.now.nodes) (slices_by self.now.own.now self.now.slices.now self.now.table.now (kind_asked question.now)) result.now }
    {
        match question.kind() {
            Kind::Nomination => &self.region.nominations,
            Kind::Ballot => &self.region.ballots,
        }
    }

    /// Which of the rows that a question asks say the same, if that is known.
    #[inline(always)]
    fn groups_for(&self, question: &Question<'_>) -> Option<&[[u64; FEW_WORDS]]>
        ensures { IfSome result (λ gs. AreAllGrouped self.now.own.now (record { nodes = (arc_slice_items self.now.region.now.nodes); table = self.now.table.now; kind = kind_asked question.now }) gs.now) }
    {
        match question.kind() {
            Kind::Nomination => values_alike(self.values),
            Kind::Ballot => ballots_alike(self.listed),
        }
    }

    /// Whether some quorum that contains the node passes. `places` is the empty set of the reached nodes.
    #[inline(always)]
    fn has_quorum(&self, places: &mut [u64], own_passes: bool, question: &Question<'_>) -> bool
        requires { IsEmptySet (length (arc_slice_items self.now.region.now.nodes)) places.old }
        ensures { result ≡ (seen self.now.own.now self.now.slices.now self.now.leaders.now self.now.table.now).quorum (kind_asked question.now) own_passes (asks question.now) }
    {
        let supporters = Supporters {
            rows: self.rows_for(question),
            own_place: self.region.place,
            own_passes,
            question,
        };
        supporters.add_to(places, self.groups_for(question));
        in_quorum(places, self.region.place, self.forms_for(question))
    }

    /// Whether there may be a quorum that contains the node and passes. There is none if those who pass do not satisfy
    /// the node's slices. Mostly that is so, and it is known after a few of them. It is not asked among few nodes, nor
    /// if it is known which rows say the same.
    fn may_have_quorum(&self, own_passes: bool, question: &Question<'_>) -> bool
        ensures { IsFalse result → (seen self.now.own.now self.now.slices.now self.now.leaders.now self.now.table.now).quorum (kind_asked question.now) own_passes (asks question.now) ≡ false }
    {
        if self.region.nodes.len() <= FEW_NODES || self.groups_for(question).is_some() {
            return true;
        }
        let forms = self.forms_for(question);
        let supporters = Supporters {
            rows: self.rows_for(question),
            own_place: self.region.place,
            own_passes,
            question,
        };
        supporters.meet(&forms[self.region.place])
    }

    /// Whether those who pass block the node's slices.
    fn is_blocked(&self, own_passes: bool, question: &Question<'_>) -> bool
        ensures { result ≡ (seen self.now.own.now self.now.slices.now self.now.leaders.now self.now.table.now).blocking (kind_asked question.now) own_passes (asks question.now) }
    {
        let supporters = Supporters {
            rows: self.rows_for(question),
            own_place: self.region.place,
            own_passes,
            question,
        };
        let Some(groups) = self.groups_for(question) else {
            return is_met_by(&self.region.blocking, &supporters);
        };
        let mut places = [0u64; FEW_WORDS];
        supporters.add_groups(&mut places, groups);
        is_met(&self.region.blocking, &places)
    }
}

impl<'a, S: Places> Sight for View<'a, S> {
    ghost seen = { λ v. seen v.own.now v.slices.now v.leaders.now v.table.now };

    ghost standpoint = { λ v. record { own = v.own.now; configured = v.slices.now; leaders = v.leaders.now; table = v.table.now } };

    fn quorum(
        &self,
        alloc: Global,
        own_passes: bool,
        question: &Question<'_>,
    ) -> Result<bool, AllocError> {
        if !own_passes {
            return Ok(false);
        }
        if !self.may_have_quorum(own_passes, question) {
            return Ok(false);
        }
        let count = self.region.nodes.len();
        if count <= 64 * FEW_WORDS {
            let mut places = [0u64; FEW_WORDS];
            return Ok(self.has_quorum(&mut places, own_passes, question));
        }
        let mut places = no_places(alloc, count)?;
        Ok(self.has_quorum(&mut places, own_passes, question))
    }

    fn blocking(
        &self,
        _alloc: Global,
        own_passes: bool,
        question: &Question<'_>,
    ) -> Result<bool, AllocError> {
        Ok(self.is_blocked(own_passes, question))
    }

    fn nominated_values(&self, alloc: Global) -> Result<Values, AllocError> {
        let values = nominated_values(alloc, self.values, self.own, &self.nominations)?;
        Ok(values)
    }

    fn led_values(&self, alloc: Global) -> Result<Values, AllocError> {
        let values = values_of(alloc, self.leaders.as_slice(), self.table, Kind::Nomination)?;
        Ok(values)
    }

    fn next_mentioned<'b>(
        &'b self,
        mention: Mention,
        bound: &Option<LentBallot>,
    ) -> Option<LentBallot<'b>> {
        next_mentioned(self.listed, mention, self.own, &self.ballots, bound)
    }

    fn next_counter(&self, above: u32) -> Option<u32> {
        next_counter(self.own, &self.ballots, above)
    }

    ghost tied = { λ s. refl };
}

/// Which ballot rows say the same, if that is known.
fn ballots_alike(listed: &Option<ReachedBallots>) -> Option<&[[u64; FEW_WORDS]]>
    ensures { (own : ℕ) (rows : RowsOfNodes) → IfSome listed.now (λ l. IfSome l.alike (AreGrouped own rows)) → IfSome result (λ gs. AreAllGrouped own rows gs.now) }
{
    match listed {
        None => None,
        Some(listed) => if_all_grouped(&listed.alike),
    }
}

/// Which nomination rows say the same, if that is known.
fn values_alike(listed: &Option<ReachedValues>) -> Option<&[[u64; FEW_WORDS]]>
    ensures { (own : ℕ) (rows : RowsOfNodes) → IfSome listed.now (λ l. IfSome l.alike (AreGrouped own rows)) → IfSome result (λ gs. AreAllGrouped own rows gs.now) }
{
    match listed {
        None => None,
        Some(listed) => if_all_grouped(&listed.alike),
    }
}

/// The groups, if each row of another node is in one. If some are not, many say something else: then each row is asked,
/// and only until the answer is known.
fn if_all_grouped(alike: &Option<Alike>) -> Option<&[[u64; FEW_WORDS]]>
    ensures { (own : ℕ) (rows : RowsOfNodes) → IfSome alike.now (AreGrouped own rows) → IfSome result (λ gs. AreAllGrouped own rows gs.now) }
{
    match alike {
        None => None,
        Some(alike) => {
            if first_place(&alike.rest).is_none() {
                Some(&alike.groups)
            } else {
                None
            }
        }
    }
}
