//! Numbers by which slices are told to be the same.

ghost use Rattle.std.specs.Prelude.{◌≡◌, ◌≢◌, ◌⊎◌, ◌≤◌, ℕ, [], IsTrue, get_or, length};
ghost use Rattle.std.specs.List.Sorted.{IsSearchInRange};
ghost use Rattle.node_store.specs.Archives.{IsNumberFor, IsSameNumber};

use scp_types::{Member, SliceSet};
use std::alloc::Global;

/// So many fingerprints are noted at most.
const MOST_NOTED: usize = 1024;

/// Slices of a fingerprint were filed at this number of the archive.
#[derive(Clone, Copy)]
struct Noted {
    fingerprint: u64,
    number: usize,
}

/// For each number of an archive, the number of the slices of what lies there. Where both are equal and not 0, the
/// slices are the same. It is 0 where none is told, as behind the end of the list.
#[derive(Drop)]
pub(crate) struct SliceNumbers {
    numbers: Vec<usize>,
    /// Fingerprints, ascending, each with the number of the archive that was noted last with it.
    noted: Vec<Noted>,
    /// The greatest number of slices that was given.
    last: usize,
}

impl SliceNumbers {
    /// No number is told.
    pub(crate) fn new(alloc: Global) -> SliceNumbers
        ensures { result.numbers.items ≡ [] }
    {
        SliceNumbers {
            numbers: Vec::new(alloc),
            noted: Vec::new(alloc),
            last: 0,
        }
    }

    /// Whether the same number other than 0 is told of both.
    pub(crate) fn are_same(&self, one: usize, other: usize) -> bool
        ensures { IsTrue result → IsSameNumber self.now.numbers.items one other }
    {
        let told = self.told(one);
        told != 0 && told == self.told(other)
    }

    /// A number of the archive at which there may be slices of this fingerprint.
    pub(crate) fn candidate(&self, fingerprint: u64) -> usize {
        match self.find(fingerprint) {
            Ok(at) => self.noted[at].number,
            Err(_) => 0,
        }
    }

    /// Notes slices of this fingerprint, filed at this number. They may be the same as those at another number. If it
    /// is out of memory, none is told.
    pub(crate) fn note(&mut self, number: usize, fingerprint: u64, other: usize, is_same: bool)
        ensures others { (k : ℕ) → k ≢ number → get_or self.new.numbers.items k 0 ≡ get_or self.old.numbers.items k 0 }
        ensures number { IsNumberFor self.old.numbers.items self.old.last other is_same (get_or self.new.numbers.items number 0) }
        ensures within { get_or self.new.numbers.items number 0 ≤ self.new.last }
        ensures last { self.old.last ≤ self.new.last }
    {
        let told = self.number_for(other, is_same);
        if self.last < told {
            self.last = told;
        }
        tell(&mut self.numbers, number, told);
        self.note_place(fingerprint, number);
    }

    /// Notes that slices of this fingerprint were filed at this number. Where no more are noted, or there is no room,
    /// all that was noted before is forgotten.
    fn note_place(&mut self, fingerprint: u64, number: usize)
        ensures numbers { self.new.numbers ≡ self.old.numbers }
        ensures last { self.new.last ≡ self.old.last }
    {
        match self.find(fingerprint) {
            Ok(at) => self.noted[at].number = number,
            Err(at) => {
                let noted = Noted {
                    fingerprint,
                    number,
                };
                if self.noted.len() >= MOST_NOTED || self.noted.insert(at, noted).is_err() {
                    self.noted.clear();
                }
            }
        }
    }

    /// Where a fingerprint stands among those that are noted, or where it would.
    fn find(&self, fingerprint: u64) -> Result<usize, usize>
        ensures { IsSearchInRange result (length self.now.noted.items) }
    {
        self.noted
            .binary_search_by_key(&fingerprint, |noted| noted.fingerprint)
    }

    /// A number for slices: that of what lies at the other number, if they are the same and it is told, or a new one.
    fn number_for(&self, other: usize, is_same: bool) -> usize
        ensures { IsNumberFor self.now.numbers.items self.now.last other is_same result }
    {
        let known = self.told(other);
        if is_same && known != 0 {
            return known;
        }
        self.last.checked_add(1).unwrap_or(0)
    }

    /// The number that is told, or 0.
    fn told(&self, number: usize) -> usize
        ensures { result ≡ get_or self.now.numbers.items number 0 }
    {
        self.numbers.get(number).copied().unwrap_or(0)
    }
}

/// Has this be told at a number, or 0 if there is no room.
fn tell(numbers: &mut Vec<usize>, number: usize, told: usize)
    ensures others { (k : ℕ) → k ≢ number → get_or numbers.new.items k 0 ≡ get_or numbers.old.items k 0 }
    ensures number { (get_or numbers.new.items number 0 ≡ told) ⊎ (get_or numbers.new.items number 0 ≡ 0) }
{
    if number < numbers.len() {
        numbers[number] = told;
    } else if number == numbers.len() {
        let _ = numbers.push(told);
    }
}

/// A number that is mostly another for other slices.
pub(crate) fn fingerprint(set: &SliceSet) -> u64 {
    let mut mixed = set.threshold() as u64;
    for member in set.members() {
        mixed = mixed.wrapping_mul(31).wrapping_add(word_of(member));
    }
    mixed
}

/// A name in one word, or how many members an inner set has.
fn word_of(member: &Member) -> u64 {
    match member {
        Member::Set(inner) => inner.members().len() as u64,
        Member::Node(node) => {
            let (first, second, third, fourth) = node.words();
            first ^ second ^ third ^ fourth
        }
    }
}
