//! Places are asked one by one whether they pass, until it is known whether a compiled set is met.

ghost use Rattle.std.specs.Prelude.{◌≡◌, ℕ, List, Bool, ◌&&◌, nat_le, count_ones};
ghost use Rattle.scp_bits.specs.Asking.{ArePassing, IsAsked};
ghost use Rattle.scp_bits.specs.Met.{has_needed, one_where};
ghost use Rattle.scp_bits.specs.Places.{count_in, ones_at, places_in};

use crate::mask::Mask;
use crate::set::CompiledSet;

/// Who can be asked, place by place, whether the node there passes. `passing` is what contracts speak of.
pub trait Passing {
    ghost passing: { Self → ℕ → Bool };

    /// Whether the node at a place passes. It takes no memory.
    fn passes(&self, place: usize) -> bool
        ensures { result ≡ passing self.now place };
}

/// How a count stands: `missing` more have to pass, of at most `left` that are not asked yet.
#[derive(Clone, Copy)]
pub(crate) struct Tally {
    pub missing: usize,
    pub left: usize,
}

impl Tally {
    /// Whether what is not asked yet may decide.
    fn is_open(self) -> bool
        ensures { result ≡ (nat_le 1 self.missing && nat_le self.missing self.left) }
    {
        self.missing >= 1 && self.missing <= self.left
    }

    /// The tally once one more has been asked.
    #[tactic(auto, using(crate::proofs::Tallies::one_passes, crate::proofs::Tallies::one_fails))]
    fn after(self, passes: bool) -> Tally
        ensures { IsAsked (one_where passes) 1 self result }
    {
        let left = self.left.saturating_sub(1);
        if passes {
            let missing = self.missing.saturating_sub(1);
            Tally { missing, left }
        } else {
            let missing = self.missing;
            Tally { missing, left }
        }
    }
}

/// Whether as many places and inner sets as are needed pass: the same as whether the set of all places that pass meets
/// the compiled set. Places are asked one by one, and no more of them than it takes to know the answer. It takes no
/// memory.
pub fn is_met_by<P: Passing>(set: &CompiledSet, who: &P) -> bool
    ensures { (ws : List ℕ) → ArePassing (P.passing who.now) ws → result ≡ has_needed set.now ws }
{
    let start = Tally {
        missing: set.needed_count(),
        left: set.members(),
    };
    let mut tally = after_masks(start, set.masks(), who);
    let sets = set.inner();
    for inner in sets {
        if tally.is_open() {
            tally = tally.after(is_met_by(inner, who));
        }
    }
    tally.missing == 0
}

/// The tally once the places of masks have been asked, as far as they may decide.
pub(crate) fn after_masks<P: Passing>(start: Tally, masks: &[Mask], who: &P) -> Tally
    ensures { (ws : List ℕ) → ArePassing (P.passing who.now) ws → IsAsked (places_in masks.now ws) (count_in masks.now) start result }
{
    let mut tally = start;
    for mask in masks {
        tally = after_mask(tally, mask, who);
    }
    tally
}

/// The tally once the places of a mask have been asked, from the lowest on, as far as they may decide.
fn after_mask<P: Passing>(start: Tally, mask: &Mask, who: &P) -> Tally
    ensures { (ws : List ℕ) → ArePassing (P.passing who.now) ws → IsAsked (ones_at mask.now ws) (count_ones mask.now.bits) start result }
{
    let Some(first) = mask.index.checked_mul(64) else {
        return start;
    };
    let mut tally = start;
    let mut rest = mask.bits;
    let mut bit = 0;
    while rest != 0 && tally.is_open() {
        if rest & 1 == 1 {
            tally = tally.after(who.passes(first + bit));
        }
        rest >>= 1;
        bit += 1;
    }
    tally
}
