//! The envelopes of one network, by number.

ghost use Rattle.std.specs.Prelude.{◌≡◌, ◌↔◌, ◌⊎◌, ◌<◌, ◌++◌, ◌∷◌, [], IfOk, IfSome, IsTrue, None, OnErr, Some, false, get_or, is_some, length, replicate, slice_get, slice_index_or, slice_set, true, vec_capacity, vec_len};
ghost use Rattle.node_store.specs.Archives.{IsFiled, Keeps, filed_slices_at, if_held, only_held, sent_of};

use crate::filed::Filed;
use crate::held::Held;
use crate::shelf::{Places, Shelf};
use crate::slice_numbers::{SliceNumbers, fingerprint};
use scp_types::{Envelope, Nested};
use std::alloc::{AllocError, Global};
use std::marker::Model;
use std::snapshot::Snapshot;

/// A shelf, and the places at which the envelopes of one network lie, by number.
///
/// Contracts see it as the list of these envelopes, with nothing at a number that is free. What is filed stays until
/// it is let go, and then its number may be given again.
///
/// Each place is one of this shelf: for example, of three envelopes that were filed, number 1 is the place
/// where the second lies there. Slices that are told by the same number are the same.
#[derive(Drop)]
pub struct Archive<S: Places> {
    shelf: S,
    places: Vec<Option<S::Place>>,
    free: Vec<usize>,
    recent: usize,
    told: SliceNumbers,
    alloc: Global,
}

impl<S: Places> Model for Archive<S> {
    ghost use Rattle.std.specs.Coded.{codes};
    ghost use Rattle.std.specs.Prelude.{IfSome, map, option_map};
    ghost use Rattle.std.specs.List.{All};
    ghost use Rattle.scp_types.specs.Trees.{members_code};
    ghost use Rattle.node_store.specs.Archives.{Archived, TellSlices};

    ghost Value = { Archived };

    ghost coded = { Prim.hlevel (codes, members_code) };

    ghost view = { λ a. map (option_map S.put_there) a.places.items };

    ghost invariant = { λ a. All (λ o. IfSome o (S.is_of a.shelf)) a.places.items × TellSlices (map (option_map S.put_there) a.places.items) a.told.numbers.items a.told.last };
}

impl<S: Places> Archive<S> {
    /// An archive with no envelope, whatever lies on the shelf. It takes no memory.
    pub fn new(alloc: Global, shelf: S) -> Archive<S>
        ensures { result ≡ [] }
    {
        Archive {
            shelf,
            places: Vec::new(alloc),
            free: Vec::new(alloc),
            recent: 0,
            told: SliceNumbers::new(alloc),
            alloc,
        }
    }

    /// The envelope that was filed. It takes no memory, and waits for nobody.
    pub fn read(&self, filed: &Filed) -> &Envelope
        requires { IsFiled self.now filed.now }
        ensures { result.now ≡ sent_of filed.now }
    {
        match &self.places[filed.number] {
            Some(place) => self.shelf.read(place),
            None => unreachable!(),
        }
    }

    /// The number of the envelope once more, as for another table. It takes no memory.
    pub fn copy_of(&self, filed: &Filed) -> Filed
        requires { IsFiled self.now filed.now }
        ensures { result ≡ filed.now }
    {
        Filed {
            number: filed.number,
            put: Snapshot::of(self.read(filed)),
        }
    }

    /// Whether both envelopes have the same slices. Mostly it is told by numbers, and no name is compared. It takes no
    /// memory.
    pub fn has_same_slices(&self, one: &Filed, other: &Filed) -> bool
        requires one { IsFiled self.now one.now }
        requires other { IsFiled self.now other.now }
        ensures { IsTrue result ↔ (sent_of one.now).slices ≡ (sent_of other.now).slices }
    {
        self.tells_same_slices(one, other)
            || self.read(one).slices().is_same(self.read(other).slices())
    }

    /// Whether numbers tell that both envelopes have the same slices. If they do not, these may still be the same. No
    /// name is compared, and it takes no memory.
    pub fn tells_same_slices(&self, one: &Filed, other: &Filed) -> bool
        requires one { IsFiled self.now one.now }
        requires other { IsFiled self.now other.now }
        ensures { IsTrue result → (sent_of one.now).slices ≡ (sent_of other.now).slices }
    {
        self.told.are_same(one.number, other.number)
    }

    /// The slices at this number, if an envelope with these slices lies there.
    fn same_slices_at(&self, number: usize, slices: &Nested) -> Option<&Nested>
        ensures same { IfSome result (λ n. n.now ≡ slices.now) }
        ensures there { IsTrue (is_some result) ↔ filed_slices_at self.now number ≡ Some slices.now }
    {
        match self.places.get(number) {
            Some(Some(place)) => {
                let there = self.shelf.read(place).slices();
                if there.is_same(slices) {
                    Some(there)
                } else {
                    None
                }
            }
            _ => None,
        }
    }

    /// The envelope, with slices that it shares with one that was filed, if the same slices are found there. So bytes
    /// that come one by one keep their slices once. Without memory for that, it is as it came.
    pub fn with_shared_slices(&self, envelope: Envelope) -> Envelope
        ensures { result ≡ envelope }
    {
        let candidate = self.told.candidate(fingerprint(envelope.slices().set()));
        let there = self.same_slices_at(candidate, envelope.slices());
        match there.and_then(|slices| slices.try_copy().ok()) {
            Some(slices) => with_slices(self.alloc, envelope, slices),
            None => envelope,
        }
    }

    /// Whether at least half as many envelopes were filed since others were let go as there are numbers, free ones
    /// included, and `holders` together. Holders are looked at to find out what is held. If others are let go only then,
    /// each envelope that is filed costs a few looks at a number or a holder.
    pub fn is_due(&self, holders: usize) -> bool {
        self.recent >= self.places.len().saturating_add(holders) / 2
    }

    /// Lets go of all, and of the room that it took. It takes no memory.
    pub fn let_all_go(&mut self)
        ensures { self.new ≡ [] }
    {
        self.recent = 0;
        self.places = Vec::new(self.alloc);
        self.free = Vec::new(self.alloc);
        self.told = SliceNumbers::new(self.alloc);
    }

    /// No number of the archive is held. An error says that it is out of memory.
    pub fn none_held(&self, alloc: Global) -> Result<Held, AllocError>
        ensures { IfOk result (λ h. h ≡ replicate (length self.now) false) }
    {
        Ok(Held {
            marks: vec![in alloc; false; self.places.len()]?,
        })
    }

    /// Lets go what is not held. It cannot fail: a number that is not noted as free, because it is out of memory, is
    /// found again the next time.
    pub fn let_go(&mut self, held: &Held)
        ensures { self.new ≡ only_held held.now self.old }
    {
        self.recent = 0;
        self.free.clear();
        for number in 0..self.places.len() {
            self.let_go_at(number, held);
        }
    }

    /// Lets go one envelope: nothing has its number, which may be given again. Every other number stays as it was, also
    /// that of an equal envelope.
    pub fn remove(&mut self, filed: Filed)
        requires { IsFiled self.old filed }
        ensures { self.new ≡ slice_set self.old filed.number None }
    {
        self.clear(filed.number);
    }

    /// What has this number is let go, if it is not held.
    fn let_go_at(&mut self, number: usize, held: &Held)
        requires { number < length self.old }
        ensures { self.new ≡ slice_set self.old number (if_held (get_or held.now number true) (slice_index_or self.old number None)) }
    {
        if !held.has(number) {
            self.clear(number);
        }
    }

    /// Whatever has this number is let go, and the number may be given again.
    fn clear(&mut self, number: usize)
        requires { number < length self.old }
        ensures { self.new ≡ slice_set self.old number None }
    {
        self.places[number] = None;
        let _ = self.free.push(number);
    }
}

impl<S: Shelf> Archive<S> {
    /// Files an envelope, whether or not it stands there already. An error says that it is out of memory, and the
    /// archive is as it was.
    pub fn put(&mut self, envelope: Envelope) -> Result<Filed, AllocError>
        ensures filed { IfOk result (λ f. IsFiled self.new f) }
        ensures is { IfOk result (λ f. sent_of f ≡ envelope) }
        ensures err { OnErr result (self.new ≡ self.old) }
        ensures kept { Keeps self.old self.new }
    {
        let fingerprint = fingerprint(envelope.slices().set());
        let candidate = self.told.candidate(fingerprint);
        let is_same = self.same_slices_at(candidate, envelope.slices()).is_some();
        if self.places.reserve(1).is_err() {
            drop(envelope);
            // Memory: the list of places has no room.
            return Err(AllocError);
        }
        let put = Snapshot::of(&envelope);
        // Memory: the shelf hands the envelope back.
        let place = self.shelf.put(envelope).map_err(|_| AllocError)?;
        let number = vacant(&mut self.places, &mut self.free);
        self.places[number] = Some(place);
        self.recent = self.recent.saturating_add(1);
        self.told.note(number, fingerprint, candidate, is_same);
        Ok(Filed { number, put })
    }
}

/// The envelope with these slices, which are the same. Without memory for it, it is as it came.
fn with_slices(alloc: Global, envelope: Envelope, slices: Nested) -> Envelope
    requires { slices ≡ envelope.slices }
    ensures { result ≡ envelope }
{
    match envelope.body().try_copy(alloc) {
        Err(_) => {
            drop(slices);
            envelope
        }
        Ok(body) => Envelope::of(*envelope.sender(), envelope.slot(), slices, body),
    }
}

/// A number at which nothing lies: one that is free, or the next.
fn vacant<P: Drop>(places: &mut Vec<Option<P>>, free: &mut Vec<usize>) -> usize
    requires { vec_len places.old < vec_capacity places.old }
    ensures within { result < vec_len places.new }
    ensures vacant { slice_get places.new.items result ≡ Some None }
    ensures grown { (places.new.items ≡ places.old.items) ⊎ (places.new.items ≡ places.old.items ++ None ∷ []) }
{
    match free.pop() {
        Some(number) if number < places.len() && places[number].is_none() => number,
        _ => {
            let number = places.len();
            places.push_reserved(None);
            number
        }
    }
}
