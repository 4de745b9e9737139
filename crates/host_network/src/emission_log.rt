//! What a hosted node has emitted.

ghost use Rattle.std.specs.Prelude.{◌≡◌, ◌≤◌, ◌<◌, ◌+◌, ◌++◌, ◌∷◌, [], IfOk, IfSome, List, None, OnErr, OnOk, ℕ, if◌then◌else◌, length, option_map, slice_get};
ghost use Rattle.std.specs.Vec.{vec_capacity, vec_len};
ghost use Rattle.node_store.specs.Archives.{Archived, AreFiled, IsFiled, Keeps, sent_of, sents_of};
ghost use Rattle.scp_types.specs.declared.kind.Kind.TheVariants.{Nomination, Ballot};
ghost use Rattle.scp_spec.specs.Networks.{emissions};
ghost use Rattle.scp_spec.specs.Nodes.{step};
ghost use Rattle.scp_spec.specs.Rows.{is_kind};
ghost use Rattle.host_network.specs.Answers.{IsOutcome};
ghost use Rattle.host_network.specs.Marks.{numbers_by_kind};
ghost use Rattle.node_core.specs.Filings.{AreFiledOuts, IsFiledEvent, IsFiledOut, event_of, whole_outs};
ghost use Rattle.host_network.specs.FiledSlots.{HaveRoom};
ghost use Rattle.host_network.specs.EmissionsByKind.{AreByKind, nth_of, places_of_kind};

use crate::applied::{Given, Outcome};
use node_core::{FiledEvent, FiledOut, Node};
use node_leaders::Draws;
use node_store::{Archive, Filed, Shelf};
use scp_types::Kind;
use std::alloc::{AllocError, Global};
use std::marker::Model;
use std::mem;

/// The most emissions of one event.
const MOST_EMISSIONS: usize = 2;

/// What a hosted node has emitted since its slot was opened, in order. The places of each kind are kept with it, so the
/// emission of a kind with a number is found at once, however many there are. Most events emit nothing; the room that
/// was made for the numbers of one is then kept for the next.
///
/// For example, if a nomination, a ballot and again a nomination were emitted, the places of nominations are 0 and 2,
/// and that of ballots is 1.
#[derive(Drop)]
pub(crate) struct EmissionLog {
    emitted: Vec<Filed>,
    places: PlacesByKind,
    room: Vec<u64>,
}

/// Where the nominations stand among what a node has emitted, and where its ballots.
#[derive(Drop)]
pub(crate) struct PlacesByKind {
    pub nominations: Vec<usize>,
    pub ballots: Vec<usize>,
}

impl Model for EmissionLog {
    ghost use Rattle.std.specs.Prelude.{List};
    ghost use Rattle.std.specs.Coded.{codes};
    ghost use Rattle.scp_types.specs.Trees.{members_code};
    ghost use Rattle.node_store.specs.Archives.{sents_of};
    ghost use Rattle.node_store.specs.declared.filed.Filed.{Filed};
    ghost use Rattle.host_network.specs.EmissionsByKind.{AreByKind};

    ghost Value = { List Filed };

    ghost coded = { Prim.hlevel (codes, members_code) };

    ghost view = { λ t. t.emitted.items };

    ghost invariant = { λ t. AreByKind t.places (sents_of t.emitted.items) };
}

impl EmissionLog {
    /// Nothing is emitted yet. It takes no memory.
    pub(crate) fn nothing(alloc: Global) -> EmissionLog
        ensures { result ≡ [] }
    {
        EmissionLog {
            emitted: Vec::new(alloc),
            places: PlacesByKind {
                nominations: Vec::new(alloc),
                ballots: Vec::new(alloc),
            },
            room: Vec::new(alloc),
        }
    }

    /// All of it, in order.
    pub(crate) fn emitted(&self) -> &[Filed]
        ensures { result.now ≡ self.now }
    {
        &self.emitted
    }

    /// The emission of a kind with this number, which counts from 1.
    pub(crate) fn emission(&self, kind: Kind, number: u64) -> Option<&Filed>
        ensures sent { option_map (λ f. sent_of f.now) result ≡ nth_of kind number (sents_of self.now) }
        ensures filed { (archive : Archived) → AreFiled archive self.now → IfSome result (λ f. IsFiled archive f.now) }
    {
        if number == 0 {
            return None;
        }
        match self.place(kind, (number - 1) as usize) {
            None => None,
            Some(place) => filed_at(&self.emitted, place),
        }
    }

    /// The place of the emission of a kind with this number, which counts from 0 here.
    fn place(&self, kind: Kind, number: usize) -> Option<usize>
        ensures { result ≡ slice_get (places_of_kind kind (sents_of self.now)) number }
    {
        match kind {
            Kind::Nomination => self.places.nominations.get(number).copied(),
            Kind::Ballot => self.places.ballots.get(number).copied(),
        }
    }

    /// Does one event of the node whose emissions these are, and keeps what it emits. An event has few emissions, so
    /// room for them is made before it, and nothing grows after it. An error says that it is out of memory; then
    /// nothing changed, but the archive may have more.
    pub(crate) fn advance<S: Shelf>(
        &mut self,
        archive: &mut Archive<S>,
        draws: &mut Draws,
        node: &mut Node,
        event: FiledEvent,
    ) -> Result<Outcome, AllocError>
        requires emitted { AreFiled archive.old self.old }
        requires rows { AreFiled archive.old node.old.rows }
        requires event { IsFiledEvent archive.old event }
        ensures node { OnOk result (node.new.node ≡ (step node.old.node (event_of event)).0) }
        ensures emitted { OnOk result (sents_of self.new ≡ sents_of self.old ++ emissions (step node.old.node (event_of event)).1) }
        ensures outcome { IfOk result (IsOutcome (step node.old.node (event_of event)).1 (numbers_by_kind (sents_of self.old) (emissions (step node.old.node (event_of event)).1)) None archive.new) }
        ensures node_err { OnErr result (node.new ≡ node.old) }
        ensures log_err { OnErr result (self.new ≡ self.old) }
        ensures rows { AreFiled archive.new node.new.rows }
        ensures log_filed { AreFiled archive.new self.new }
        ensures kept { Keeps archive.old archive.new }
    {
        let alloc = *self.room.allocator();
        let mut marks = mem::replace(&mut self.room, Vec::new(alloc));
        marks.clear();
        let Ok(()) = make_room(&mut self.emitted, &mut self.places, &mut marks) else {
            drop(event);
            return Err(AllocError);
        };
        match node.advance(alloc, archive, draws, event) {
            Err(error) => {
                drop(marks);
                Err(error)
            }
            Ok(given_out) => {
                log_outs(
                    archive,
                    &given_out.filed,
                    &mut self.emitted,
                    &mut self.places,
                    &mut marks,
                );
                let given = Given {
                    outs: given_out.outs,
                    marks: given_or_kept(alloc, marks, &mut self.room),
                };
                Ok(Outcome {
                    filed: given_out.filed,
                    given,
                    delivered: None,
                })
            }
        }
    }
}

#[inline(always)]
fn make_room(
    emitted: &mut Vec<Filed>,
    places: &mut PlacesByKind,
    marks: &mut Vec<u64>,
) -> Result<(), AllocError>
    ensures emitted { emitted.new.items ≡ emitted.old.items }
    ensures nominations { places.new.nominations.items ≡ places.old.nominations.items }
    ensures ballots { places.new.ballots.items ≡ places.old.ballots.items }
    ensures marks { marks.new.items ≡ marks.old.items }
    ensures room { OnOk result (HaveRoom 2 emitted.new places.new marks.new) }
{
    marks.reserve(MOST_EMISSIONS)?;
    emitted.reserve(MOST_EMISSIONS)?;
    places.nominations.reserve(MOST_EMISSIONS)?;
    places.ballots.reserve(MOST_EMISSIONS)
}

/// The numbers, if there are any; if not, their room is kept for the next event.
fn given_or_kept(alloc: Global, marks: Vec<u64>, room: &mut Vec<u64>) -> Vec<u64>
    ensures { result.items ≡ marks.items }
{
    if marks.is_empty() {
        *room = marks;
        Vec::new(alloc)
    } else {
        marks
    }
}

/// Keeps what these outs emit, for which there is room.
#[tactic(auto, unfolding(crate::specs::Marks::numbers_by_kind))]
fn log_outs<S: Shelf>(
    archive: &Archive<S>,
    outs: &[FiledOut],
    emitted: &mut Vec<Filed>,
    places: &mut PlacesByKind,
    marks: &mut Vec<u64>,
)
    requires outs { AreFiledOuts archive.now outs.now }
    requires emitted { AreFiled archive.now emitted.old.items }
    requires places { AreByKind places.old (sents_of emitted.old.items) }
    requires room { HaveRoom (length (emissions (whole_outs outs.now))) emitted.old places.old marks.old }
    ensures emitted { sents_of emitted.new.items ≡ sents_of emitted.old.items ++ emissions (whole_outs outs.now) }
    ensures places { AreByKind places.new (sents_of emitted.new.items) }
    ensures marks { marks.new.items ≡ marks.old.items ++ numbers_by_kind (sents_of emitted.old.items) (emissions (whole_outs outs.now)) }
    ensures filed { AreFiled archive.now emitted.new.items }
{
    for out in outs {
        log_out(archive, out, emitted, places, marks);
    }
}

/// Keeps what this out emits, if it does, for which there is room.
#[tactic(auto, unfolding(crate::specs::Marks::numbers_by_kind))]
fn log_out<S: Shelf>(
    archive: &Archive<S>,
    out: &FiledOut,
    emitted: &mut Vec<Filed>,
    places: &mut PlacesByKind,
    marks: &mut Vec<u64>,
)
    requires out { IsFiledOut archive.now out.now }
    requires emitted { AreFiled archive.now emitted.old.items }
    requires places { AreByKind places.old (sents_of emitted.old.items) }
    requires room { HaveRoom (length (emissions (whole_outs (out.now ∷ [])))) emitted.old places.old marks.old }
    ensures emitted { sents_of emitted.new.items ≡ sents_of emitted.old.items ++ emissions (whole_outs (out.now ∷ [])) }
    ensures places { AreByKind places.new (sents_of emitted.new.items) }
    ensures marks { marks.new.items ≡ marks.old.items ++ numbers_by_kind (sents_of emitted.old.items) (emissions (whole_outs (out.now ∷ []))) }
    ensures room { (count : ℕ) → HaveRoom (length (emissions (whole_outs (out.now ∷ []))) + count) emitted.old places.old marks.old → HaveRoom count emitted.new places.new marks.new }
    ensures filed { AreFiled archive.now emitted.new.items }
{
    match out {
        FiledOut::Emit(filed) => log_emission(archive, filed, emitted, places, marks),
        FiledOut::ArmNomination(_) | FiledOut::ArmBallot(_) | FiledOut::Externalized(_) => {}
    }
}

/// Keeps one emission, for which there is room.
fn log_emission<S: Shelf>(
    archive: &Archive<S>,
    filed: &Filed,
    emitted: &mut Vec<Filed>,
    places: &mut PlacesByKind,
    marks: &mut Vec<u64>,
)
    requires filed { IsFiled archive.now filed.now }
    requires emitted { AreFiled archive.now emitted.old.items }
    requires places { AreByKind places.old (sents_of emitted.old.items) }
    requires room { HaveRoom 1 emitted.old places.old marks.old }
    ensures emitted { emitted.new.items ≡ emitted.old.items ++ filed.now ∷ [] }
    ensures places { AreByKind places.new (sents_of emitted.new.items) }
    ensures marks { marks.new.items ≡ marks.old.items ++ numbers_by_kind (sents_of emitted.old.items) (sent_of filed.now ∷ []) }
    ensures room { (count : ℕ) → HaveRoom (1 + count) emitted.old places.old marks.old → HaveRoom count emitted.new places.new marks.new }
    ensures filed { AreFiled archive.now emitted.new.items }
{
    let kind = archive.read(filed).body().kind();
    let place = emitted.len();
    let mark = note(places, kind, place);
    emitted.push_reserved(archive.copy_of(filed));
    marks.push_reserved(mark);
}

/// Notes the place of an emission, and answers its number among those of its kind, from 1 on.
fn note(places: &mut PlacesByKind, kind: Kind, place: usize) -> u64
    requires nominations { vec_len places.old.nominations < vec_capacity places.old.nominations }
    requires ballots { vec_len places.old.ballots < vec_capacity places.old.ballots }
    ensures nominations { places.new.nominations.items ≡ places.old.nominations.items ++ (if is_kind Nomination kind then place ∷ [] else []) }
    ensures ballots { places.new.ballots.items ≡ places.old.ballots.items ++ (if is_kind Ballot kind then place ∷ [] else []) }
    ensures count { result ≡ (if is_kind Nomination kind then length places.old.nominations.items else length places.old.ballots.items) + 1 }
    ensures nomination_len { vec_len places.new.nominations ≤ vec_len places.old.nominations + 1 }
    ensures ballot_len { vec_len places.new.ballots ≤ vec_len places.old.ballots + 1 }
    ensures nomination_room { vec_capacity places.old.nominations ≤ vec_capacity places.new.nominations }
    ensures ballot_room { vec_capacity places.old.ballots ≤ vec_capacity places.new.ballots }
{
    match kind {
        Kind::Nomination => {
            places.nominations.push_reserved(place);
            places.nominations.len() as u64
        }
        Kind::Ballot => {
            places.ballots.push_reserved(place);
            places.ballots.len() as u64
        }
    }
}

fn filed_at(emitted: &[Filed], place: usize) -> Option<&Filed>
    ensures { option_map (λ f. f.now) result ≡ slice_get emitted.now place }
{
    emitted.get(place)
}
