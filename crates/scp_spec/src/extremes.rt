//! The greatest and the least of candidates, whatever the order in which they are sought.

ghost use Rattle.scp_spec.specs.Extremes.{GreatestIsExact, GreatestIsUnique, LeastFromIsExact, LowestIsExact};

/// The greatest ballot is one of the candidates, or what was there, with none above it; and there is only one. The
/// lowest counter is that of a candidate that passes, or what was there, with no lower one that passes. The least
/// number from one on passes, or is the end of the search, and none before it passes.
#[tactic(auto, using(crate::proofs::Ballots::Greatest::greatest_is_exact, crate::proofs::Ballots::Greatest::greatest_is_alone, crate::proofs::Ballots::LeastCounters::lowest_is_exact, crate::proofs::Ballots::LeastCounters::least_from_is_exact))]
pub fn extremes_are_exact()
    ensures greatest { GreatestIsExact }
    ensures alone { GreatestIsUnique }
    ensures lowest { LowestIsExact }
    ensures least { LeastFromIsExact }
{}
