//! The hashes of one round, and what they decide.

ghost use Rattle.std.specs.Prelude.{◌≡◌, Some, take};
ghost use Rattle.std.specs.Int.{w64, from_be_bytes};
ghost use Rattle.scp_spec.specs.Leaders.{hash, is_near};
ghost use Rattle.node_leaders.specs.Purposes.{tag_of};

use scp_slices::Weight;
use scp_types::NodeId;
use sha2::{Digest, Sha256};

/// What a hash is for.
#[derive(Clone, Copy)]
pub(crate) enum Purpose {
    /// It decides whether a node is a neighbour.
    Neighbour,
    /// It orders the neighbours.
    Priority,
}

impl Purpose {
    /// The byte by which the hash of a purpose differs from those of the other.
    fn tag(self) -> u8
        ensures { result ≡ tag_of self }
    {
        match self {
            Purpose::Neighbour => 1,
            Purpose::Priority => 2,
        }
    }
}

/// A round of nomination at a slot.
#[derive(Clone, Copy)]
pub struct Draw {
    pub slot: u64,
    pub round: u32,
}

impl Draw {
    /// The first eight bytes of the digest of slot, tag, round and name, all numbers big-endian.
    pub(crate) fn hash(self, purpose: Purpose, node: &NodeId) -> u64
        ensures { result ≡ hash self.slot (tag_of purpose) self.round node.now }
    {
        let (first, second, third, fourth) = node.words();
        let mut hasher = Sha256::new();
        hasher.update(self.slot.to_be_bytes());
        hasher.update([purpose.tag()]);
        hasher.update(self.round.to_be_bytes());
        hasher.update(first.to_be_bytes());
        hasher.update(second.to_be_bytes());
        hasher.update(third.to_be_bytes());
        hasher.update(fourth.to_be_bytes());
        first_word(&hasher.finalize())
    }
}

/// The first eight bytes of a digest as a big-endian number.
fn first_word(digest: &[u8; 32]) -> u64
    ensures { result ≡ from_be_bytes w64 (take 8 digest.now) }
{
    u64::from_be_bytes([
        digest[0], digest[1], digest[2], digest[3], digest[4], digest[5], digest[6], digest[7],
    ])
}

/// Whether a hash lies below a share of all hashes of 64 bits.
pub(crate) fn is_below(hash: u64, weight: Weight) -> bool
    ensures { result ≡ is_near (Some weight) hash }
{
    let scaled_hash = hash as u128 * weight.denominator() as u128;
    scaled_hash < weight.numerator() as u128 * (1 << 64)
}
