//! Compiled slices that a list keeps.

ghost use Rattle.std.specs.Prelude.{◌≡◌, ℕ, List, IfOk, IfSome, IsTrue, false};
ghost use Rattle.scp_types.specs.Trees.{Slices, names_in};
ghost use Rattle.scp_spec.specs.Satisfaction.{names};
ghost use Rattle.scp_spec.specs.Sets.{AreWithin, IsAscending, among, within};
ghost use Rattle.scp_bits.specs.Asking.{ArePassing};
ghost use Rattle.scp_bits.specs.Few.{AreMetAlike, set_in};
ghost use Rattle.scp_bits.specs.Met.{IsCompiled, has_needed};
ghost use Rattle.scp_bits.specs.Moving.{AreMoved, IsMoved};

use crate::asking::{Passing, is_met_by};
use crate::compiling::{compile, has_places};
use crate::few::FewPlaces;
use crate::moving::relocate_set;
use crate::set::{CompiledSet, is_met, is_same};
use scp_types::{NodeId, SliceSet};
use std::alloc::{AllocError, Global};
use std::marker::Model;
use std::sync::Arc;

/// The compiled form of slices, and a number. Who keeps a list of forms gives those of the same slices one number, and
/// others another; so two forms of one list are told apart by their numbers. No contract here says that numbers agree.
#[derive(Drop)]
pub struct Form {
    number: usize,
    set: Arc<FormSet, Global>,
}

/// The set of a form, which copies share. Most sets are few places, which lie in one piece.
#[derive(Drop)]
pub(crate) enum FormSet {
    Few(FewPlaces),
    Any(CompiledSet),
}

impl Model for Form {
    ghost use Rattle.scp_bits.specs.Few.{set_in};
    ghost use Rattle.scp_bits.specs.Places.{Numbered, numbered_code};
    ghost use Rattle.std.specs.Arc.{arc_value};

    ghost Value = { Numbered };

    ghost coded = { numbered_code };

    ghost view = { λ a. record { number = a.number; set = set_in (arc_value a.set) } };
}

impl Form {
    /// The form of this number, of slices that are compiled against a list of nodes, which are ascending, none twice.
    /// Names that are not among them are in no set of nodes that meets it. An error says that it is out of memory.
    pub fn compile(
        alloc: Global,
        number: usize,
        set: &SliceSet,
        nodes: &[NodeId],
    ) -> Result<Form, AllocError>
        requires { IsAscending nodes.now }
        ensures { IfOk result (λ f. (f.number ≡ number) × IsCompiled false nodes.now set.now f.set) }
    {
        match FewPlaces::compile(set, nodes) {
            Some(few) => Form::with(alloc, number, FormSet::Few(few)),
            None => Form::of(alloc, number, compile(alloc, set, nodes, false)?),
        }
    }

    /// As [`Form::compile`], if the slices name only these nodes; else there is none.
    pub fn compile_within(
        alloc: Global,
        number: usize,
        set: &SliceSet,
        nodes: &[NodeId],
    ) -> Result<Option<Form>, AllocError>
        requires { IsAscending nodes.now }
        ensures number { IfOk result (λ o. IfSome o (λ f. f.number ≡ number)) }
        ensures compiled { IfOk result (λ o. IfSome o (λ f. IsCompiled false nodes.now set.now f.set)) }
        ensures within { IfOk result (λ o. IfSome o (λ f. IsTrue (within (names_in set.now.members) (among nodes.now)))) }
    {
        if let Some(few) = FewPlaces::compile(set, nodes) {
            let form = Form::with(alloc, number, FormSet::Few(few))?;
            return Ok(Some(form));
        }
        if !has_places(set, nodes) {
            return Ok(None);
        }
        let set = compile(alloc, set, nodes, false)?;
        let form = Form::of(alloc, number, set)?;
        Ok(Some(form))
    }

    fn with(alloc: Global, number: usize, set: FormSet) -> Result<Form, AllocError>
        ensures { IfOk result (λ f. f ≡ record { number = number; set = set_in set }) }
    {
        let set = Arc::new(alloc, set)?;
        Ok(Form { number, set })
    }

    /// The form of this number, of a set with which the same places meet it. An error says that it is out of memory.
    fn of(alloc: Global, number: usize, set: CompiledSet) -> Result<Form, AllocError>
        ensures { IfOk result (λ f. (f.number ≡ number) × AreMetAlike set f.set) }
    {
        match FewPlaces::of(&set) {
            Some(few) => Form::with(alloc, number, FormSet::Few(few)),
            None => Form::with(alloc, number, FormSet::Any(set)),
        }
    }

    /// A copy, which shares the set. It takes no memory; an error says that the set has too many owners.
    pub fn try_copy(&self) -> Result<Form, AllocError>
        ensures { IfOk result (λ f. f ≡ self.now) }
    {
        self.with_number(self.number)
    }

    /// A form of this number, which shares the set. It takes no memory; an error says that the set has too many owners.
    pub fn with_number(&self, number: usize) -> Result<Form, AllocError>
        ensures { IfOk result (λ f. f ≡ record { number = number; set = self.now.set }) }
    {
        Ok(Form {
            number,
            set: Arc::try_clone(&self.set)?,
        })
    }

    /// Shares the set of another form from now on, if theirs is the same; whether it does. It takes no memory.
    pub fn share(&mut self, other: &Form) -> bool
        ensures { self.new ≡ self.old }
    {
        if !self.has_set_of(other) {
            return false;
        }
        match Arc::try_clone(&other.set) {
            Ok(set) => {
                self.set = set;
                true
            }
            Err(_) => false,
        }
    }

    /// Whether their sets are the same. It takes no memory.
    fn has_set_of(&self, other: &Form) -> bool
        ensures { IsTrue result → self.now.set ≡ other.now.set }
    {
        match (&*self.set, &*other.set) {
            (FormSet::Few(few), FormSet::Few(others)) => *few == *others,
            (FormSet::Any(set), FormSet::Any(others)) => is_same(set, others),
            _ => false,
        }
    }

    /// The form of this number with each place moved to the one that stands at it in the list. A place that is not in
    /// the list is left out.
    ///
    /// Let these be the places that the nodes have in another list, as far as they are in it. Let the slices name only
    /// nodes that are in both. Then the form becomes that of the slices against the other list: no name is searched
    /// for. An error says that it is out of memory.
    pub fn relocate(
        &self,
        alloc: Global,
        number: usize,
        places: &[usize],
    ) -> Result<Form, AllocError>
        ensures number { IfOk result (λ f. f.number ≡ number) }
        ensures compiled { IfOk result (λ f. (us vs : List ℕ) (q : Slices) → AreMoved us vs places.now → AreWithin (among (names q)) (among us) → AreWithin (among (names q)) (among vs) → IsCompiled false us q self.now.set → IsCompiled false vs q f.set) }
    {
        let set = self.moved(alloc, places)?;
        Form::of(alloc, number, set)
    }

    /// The set with its places moved. An error says that it is out of memory.
    fn moved(&self, alloc: Global, places: &[usize]) -> Result<CompiledSet, AllocError>
        ensures { IfOk result (IsMoved places.now self.now.set) }
    {
        match &*self.set {
            FormSet::Few(few) => few.relocate(alloc, places),
            FormSet::Any(set) => relocate_set(alloc, set, places),
        }
    }

    /// Its number.
    pub fn number(&self) -> usize
        ensures { result ≡ self.now.number }
    {
        self.number
    }

    /// Whether as many places and inner sets as are needed are in the set of nodes. It takes no memory.
    pub(crate) fn is_met(&self, places: &[u64]) -> bool
        ensures { result ≡ has_needed self.now.set places.now }
    {
        match &*self.set {
            FormSet::Few(few) => few.is_met(places),
            FormSet::Any(set) => is_met(set, places),
        }
    }

    /// Whether as many places and inner sets as are needed pass: the same as [`is_met_by`] of its set.
    pub fn is_met_by<P: Passing>(&self, who: &P) -> bool
        ensures { (ws : List ℕ) → ArePassing (P.passing who.now) ws → result ≡ has_needed self.now.set ws }
    {
        match &*self.set {
            FormSet::Few(few) => few.is_met_by(who),
            FormSet::Any(set) => is_met_by(set, who),
        }
    }
}
