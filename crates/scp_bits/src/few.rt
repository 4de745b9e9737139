//! Few places: a set without inner sets whose places are among the first 256, in one piece of memory.

ghost use Rattle.std.specs.Prelude.{◌≡◌, ◌+◌, ℕ, List, IfOk, IfSome, IsTrue, false, length};
ghost use Rattle.scp_types.specs.Trees.{names_in};
ghost use Rattle.scp_spec.specs.Sets.{IsAscending, among, within};
ghost use Rattle.scp_bits.specs.Asking.{ArePassing};
ghost use Rattle.scp_bits.specs.Few.{AreMetAlike, few_set, masks_from};
ghost use Rattle.scp_bits.specs.Met.{IsCompiled, has_needed};
ghost use Rattle.scp_bits.specs.Moving.{IsMoved};
ghost use Rattle.scp_bits.specs.Places.{bit_of, count_in, places_in};

use crate::asking::{Passing, Tally, after_masks};
use crate::compiling::place_near;
use crate::mask::{Mask, missing_after};
use crate::moving::relocate_masks;
use crate::set::CompiledSet;
use scp_types::{Member, NodeId, SliceSet};
use std::alloc::{AllocError, Global};

/// How many words of 64 bits hold few places.
pub(crate) const FEW_WORDS: usize = 4;

/// How many places are needed, and the places, as a set of nodes: a bit for each.
#[derive(Clone, Copy, Debug, PartialEq, Eq)]
pub(crate) struct FewPlaces {
    pub needed: usize,
    pub words: [u64; FEW_WORDS],
}

impl FewPlaces {
    /// Few places that are met as the compiled set is, if it has no inner set, no other place, and none twice.
    pub fn of(set: &CompiledSet) -> Option<FewPlaces>
        ensures { IfSome result (λ few. AreMetAlike set.now (few_set few)) }
    {
        if !set.inner().is_empty() {
            return None;
        }
        match words_of(set.masks()) {
            None => None,
            Some(words) => Some(FewPlaces {
                needed: set.needed_count(),
                words,
            }),
        }
    }

    /// Few places of slices against a list of nodes, which are ascending, none twice: places meet them exactly if the nodes
    /// at those places satisfy the slices. `None` if there is an inner set, a name without a place among the first 256, or
    /// one that stands twice. It takes no memory.
    pub fn compile(set: &SliceSet, nodes: &[NodeId]) -> Option<FewPlaces>
        requires { IsAscending nodes.now }
        ensures compiled { IfSome result (λ few. IsCompiled false nodes.now set.now (few_set few)) }
        ensures within { IfSome result (λ few. IsTrue (within (names_in set.now.members) (among nodes.now))) }
    {
        let members = set.members();
        let mut words = [0u64; FEW_WORDS];
        // Names mostly come in the order of the nodes, so each is looked for behind the last one first.
        let mut next = 0;
        for member in members {
            let Member::Node(node) = member else {
                return None;
            };
            let Some(place) = place_near(nodes, next, node) else {
                return None;
            };
            if !add_new(&mut words, place) {
                return None;
            }
            next = place + 1;
        }
        Some(FewPlaces {
            needed: set.threshold() as usize,
            words,
        })
    }

    /// Its places, word by word.
    fn masks(&self) -> [Mask; FEW_WORDS]
        ensures { result ≡ masks_from 0 self.now.words }
    {
        let [first, second, third, fourth] = self.words;
        [
            Mask {
                index: 0,
                bits: first,
            },
            Mask {
                index: 1,
                bits: second,
            },
            Mask {
                index: 2,
                bits: third,
            },
            Mask {
                index: 3,
                bits: fourth,
            },
        ]
    }

    /// How many places there are.
    fn count(&self) -> usize
        ensures { result ≡ count_in (masks_from 0 self.now.words) }
    {
        let [first, second, third, fourth] = self.words;
        first.count_ones() as usize
            + second.count_ones() as usize
            + third.count_ones() as usize
            + fourth.count_ones() as usize
    }

    /// Whether as many places as are needed are in the set of nodes. It takes no memory.
    pub fn is_met(&self, places: &[u64]) -> bool
        ensures { result ≡ has_needed (few_set self.now) places.now }
    {
        missing_after(self.needed, &self.masks(), places) == 0
    }

    /// Whether as many places as are needed pass. No more of them are asked than it takes to know. It takes no memory.
    pub fn is_met_by<P: Passing>(&self, who: &P) -> bool
        ensures { (ws : List ℕ) → ArePassing (P.passing who.now) ws → result ≡ has_needed (few_set self.now) ws }
    {
        let start = Tally {
            missing: self.needed,
            left: self.count(),
        };
        after_masks(start, &self.masks(), who).missing == 0
    }

    /// The set with its places moved, as [`crate::Form::relocate`] says. An error says that it is out of memory.
    pub fn relocate(&self, alloc: Global, places: &[usize]) -> Result<CompiledSet, AllocError>
        ensures { IfOk result (IsMoved places.now (few_set self.now)) }
    {
        let masks = relocate_masks(alloc, &self.masks(), places)?;
        Ok(CompiledSet::new(self.needed, self.count(), masks, Vec::new(alloc)))
    }
}

/// Adds a place, if there is a word for it and it is not there yet.
fn add_new(words: &mut [u64], place: usize) -> bool
    ensures places { IsTrue result → (ws : List ℕ) → places_in (masks_from 0 words.new) ws ≡ places_in (masks_from 0 words.old) ws + bit_of ws place }
    ensures length { length words.new ≡ length words.old }
{
    let index = place / 64;
    let bit = 1u64 << (place % 64);
    if index >= words.len() || words[index] & bit != 0 {
        return false;
    }
    words[index] |= bit;
    true
}

/// The places of the masks, if there is one mask a word, and no more words.
fn words_of(masks: &[Mask]) -> Option<[u64; FEW_WORDS]>
    ensures { IfSome result (λ words. (ws : List ℕ) → places_in (masks_from 0 words) ws ≡ places_in masks.now ws) }
{
    let mut words = [0u64; FEW_WORDS];
    for mask in masks {
        if mask.index >= FEW_WORDS || words[mask.index] != 0 {
            return None;
        }
        words[mask.index] = mask.bits;
    }
    Some(words)
}
