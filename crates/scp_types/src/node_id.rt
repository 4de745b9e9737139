//! The name of a node.

ghost use Rattle.std.specs.Prelude.{◌≡◌, ◌+◌, ◌*◌, ◌^◌, ◌↔◌, IsTrue};
ghost use Rattle.scp_types.specs.Trees.{IsName};

use std::marker::Model;

/// Thirty-two opaque bytes, ordered by bytes (this host's profile).
///
/// Contracts see a name as the number that its bytes spell, the first byte counting most. The order
/// of the numbers is the order of the bytes.
///
/// The lower half is below 2^128: for example, 31 bytes of 0, then one of 65 are the number 65, with the halves 0 and
/// 65.
#[derive(Clone, Copy, Debug, PartialEq, Eq, Hash, PartialOrd, Ord)]
pub struct NodeId {
    high: u128,
    low: u128,
}

impl Model for NodeId {
    ghost use Rattle.std.specs.Prelude.{ℕ, ◌+◌, ◌*◌, ◌^◌, ◌/◌, ◌%◌, ◌<◌};

    ghost Value = { ℕ };

    ghost view = { λ a. a.high * 2 ^ 128 + a.low };

    ghost invariant = { λ a. a.low < 2 ^ 128 };

    ghost inverse = { λ n. record { high = n / 2 ^ 128; low = n % 2 ^ 128 } };
}

impl NodeId {
    /// The name whose bytes are those of four big-endian words, the first one first.
    pub fn from_words(first: u64, second: u64, third: u64, fourth: u64) -> NodeId
        ensures { result ≡ first * 2 ^ 192 + second * 2 ^ 128 + third * 2 ^ 64 + fourth }
    {
        NodeId {
            high: (first as u128) * (1 << 64) + second as u128,
            low: (third as u128) * (1 << 64) + fourth as u128,
        }
    }

    /// The four big-endian words of the bytes, the first one first.
    pub fn words(&self) -> (u64, u64, u64, u64)
        ensures value { result.0 * 2 ^ 192 + result.1 * 2 ^ 128 + result.2 * 2 ^ 64 + result.3 ≡ self.now }
        ensures width { IsName self.now }
    {
        let word: u128 = 1 << 64;
        (
            (self.high / word) as u64,
            (self.high % word) as u64,
            (self.low / word) as u64,
            (self.low % word) as u64,
        )
    }

    /// Whether both are the same name.
    pub fn is_same(&self, other: &NodeId) -> bool
        ensures { IsTrue result ↔ self.now ≡ other.now }
    {
        *self == *other
    }
}
