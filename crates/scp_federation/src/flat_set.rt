//! One set of flat slices.

ghost use Rattle.std.specs.Prelude.{◌≡◌};

use std::marker::Model;

/// The number of a name in the table, or of a set in the list.
#[derive(Clone, Copy, Debug)]
pub(crate) enum FlatMember {
    /// The node whose name has this number.
    Name(usize),
    /// An inner set.
    Inner(usize),
}

/// A threshold over members that are numbers.
#[derive(Drop)]
pub(crate) struct FlatSet {
    threshold: u8,
    members: Vec<FlatMember>,
}

impl Model for FlatSet {
    ghost use Rattle.scp_federation.specs.Numbers.{Level, level_code};

    ghost Value = { Level };

    ghost coded = { level_code };

    ghost view = { λ a. record { threshold = a.threshold; members = a.members.items } };
}

impl FlatSet {
    /// A threshold over members.
    pub fn new(threshold: u8, members: Vec<FlatMember>) -> FlatSet
        ensures { result ≡ record { threshold = threshold; members = members.items } }
    {
        FlatSet { threshold, members }
    }

    /// How many members have to agree.
    pub fn threshold(&self) -> u8
        ensures { result ≡ self.now.threshold }
    {
        self.threshold
    }

    /// The members, in their order.
    pub fn members(&self) -> &[FlatMember]
        ensures { result.now ≡ self.now.members }
    {
        &self.members
    }
}
