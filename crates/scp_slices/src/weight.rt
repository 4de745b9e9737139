//! The weight of a node in slices.

ghost use Rattle.std.specs.Prelude.{◌≡◌, ◌≤◌, ◌^◌};
ghost use Rattle.scp_spec.specs.Weights.{Fraction};
ghost use Rattle.scp_slices.specs.Weighing.{whole, part_of};

use std::marker::Model;

/// A fraction as two whole numbers, not shortened: the part of the slices that a node stands in (the
/// Stellar Consensus Protocol draft, of the weight by which leaders are chosen).
///
/// The product over ten levels of at most 64 members fits; this host's trees have nine.
#[derive(Clone, Copy, Debug, PartialEq, Eq)]
pub struct Weight {
    numerator: u64,
    denominator: u64,
}

impl Model for Weight {
    ghost use Rattle.scp_spec.specs.Weights.{Fraction};

    ghost Value = { Fraction };

    ghost view = { λ a. record { numerator = a.numerator; denominator = a.denominator } };

    ghost inverse = { λ f. record { numerator = f.numerator; denominator = f.denominator } };
}

impl Weight {
    /// All of it: 1/1.
    pub fn one() -> Weight
        ensures { result ≡ whole }
    {
        Weight {
            numerator: 1,
            denominator: 1,
        }
    }

    /// `threshold` of `count` parts of this weight. Neither number may be above 2^56.
    pub fn part(self, threshold: u8, count: u8) -> Weight
        requires numerator { self.numerator ≤ 2 ^ 56 }
        requires denominator { self.denominator ≤ 2 ^ 56 }
        ensures { result ≡ part_of threshold count self }
    {
        Weight {
            numerator: threshold as u64 * self.numerator,
            denominator: count as u64 * self.denominator,
        }
    }

    /// The upper number: the product of the thresholds.
    pub fn numerator(&self) -> u64
        ensures { result ≡ self.now.numerator }
    {
        self.numerator
    }

    /// The lower number: the product of the counts of members.
    pub fn denominator(&self) -> u64
        ensures { result ≡ self.now.denominator }
    {
        self.denominator
    }
}
