//! The search for a quorum over places: places are taken away until the slices of all that are left are met.

ghost use Rattle.std.specs.Prelude.{◌≡◌, ◌<◌, ◌/◌, false, ℕ, List, Option, None, IsTrue, IsFalse, ◌↔◌, ◌≢◌, ◌⊎◌, true, get_or, length};
ghost use Rattle.scp_types.specs.Trees.{Slices};
ghost use Rattle.scp_spec.specs.Sets.{IsAscending, Names, among};
ghost use Rattle.scp_spec.specs.Satisfaction.{sat};
ghost use Rattle.scp_spec.specs.Quorums.{HasQuorum};
ghost use Rattle.scp_bits.specs.Places.{bit_of};
ghost use Rattle.scp_bits.specs.Answering.{IsAnswerAt};
ghost use Rattle.scp_bits.specs.Met.{nodes_at};
ghost use Rattle.scp_bits.specs.Searching.{AllMet, AreAgreed, AreCompiled, IsLeft, live, met_at, stays_at};

use crate::answers::Answers;
use crate::form::Form;
use crate::places::{clear_place, has_place};

/// Whether some quorum within the supporters contains the node at a place (Mazières 2015, of quorums).
///
/// The supporters come as the places in `left`, of which those that are in no quorum may be taken away. The
/// compiled slices are those of the nodes, place by place. It takes no memory.
#[inline(always)]
pub fn in_quorum(left: &mut [u64], place: usize, compiled: &[Option<Form>]) -> bool
    requires { place < length compiled.now }
    ensures { (us : List ℕ) (slices_at : ℕ → Option Slices) → IsAscending us → AreCompiled us slices_at compiled.now → IsTrue result ↔ HasQuorum sat slices_at (among (nodes_at us left.old)) (get_or us place 0) }
{
    loop {
        if !stays(left, place, compiled) {
            return false;
        }
        if !sweep(left, compiled) {
            return true;
        }
    }
}

/// Takes away each place whose slices those that are left do not meet; whether there was one.
#[inline(always)]
fn sweep(left: &mut [u64], compiled: &[Option<Form>]) -> bool
    ensures kept { (us : List ℕ) (slices_at : ℕ → Option Slices) (supporters : Names) → IsAscending us → AreCompiled us slices_at compiled.now → IsLeft slices_at supporters (among (nodes_at us left.old)) → IsLeft slices_at supporters (among (nodes_at us left.new)) }
    ensures settled { IsFalse result → AreAgreed compiled.now → AllMet compiled.now left.new }
    ensures same { IsFalse result → left.new ≡ left.old }
    ensures less { IsTrue result → live (length compiled.now) left.new < live (length compiled.now) left.old }
{
    let mut answers = Answers::none();
    let mut changed = false;
    for place in 0..compiled.len() {
        if fails(left, place, compiled, &mut answers) {
            clear_place(left, place);
            changed = true;
        }
    }
    changed
}

/// Whether the place is in the set, and the set does not meet its slices: by an earlier answer, or else asked now.
fn fails(left: &[u64], place: usize, compiled: &[Option<Form>], answers: &mut Answers) -> bool
    requires { place < length compiled.now }
    ensures fails { IsTrue result → (place / 64 < length left.now) × (bit_of left.now place ≡ 1) × IsAnswerAt (get_or compiled.now place None) left.now answers.old answers.new false }
    ensures holds { IsFalse result → ((bit_of left.now place ≢ 1) × (answers.new ≡ answers.old)) ⊎ IsAnswerAt (get_or compiled.now place None) left.now answers.old answers.new true }
{
    if !has_place(left, place) {
        return false;
    }
    let met = answers.is_met_at(&compiled[place], left);
    !met
}

/// Whether the place is in the set, and the set meets its slices.
fn stays(left: &[u64], place: usize, compiled: &[Option<Form>]) -> bool
    requires { place < length compiled.now }
    ensures { result ≡ stays_at compiled.now left.now place }
{
    has_place(left, place) && is_met_at(left, place, compiled)
}

/// Whether the set meets the slices at a place. If there are none, it does not.
fn is_met_at(left: &[u64], place: usize, compiled: &[Option<Form>]) -> bool
    requires { place < length compiled.now }
    ensures { result ≡ met_at (get_or compiled.now place None) left.now }
{
    match &compiled[place] {
        None => false,
        Some(form) => form.is_met(left),
    }
}
