//! Sets of values, and what they are combined to.

ghost use Rattle.scp_spec.specs.ValueSets.{CombinedToGreatest, MoreAreAdded, SetsAreAlone, SetsAreExact};

/// A list's values as a set are ascending and exactly the values of the list. No other ascending list has these values.
/// A set with more values has its own and those. Values are combined to the one of them that is not below any, and to
/// nothing only if there are none.
#[tactic(auto, using(crate::proofs::Nominating::Combined::sets_are_exact, crate::proofs::Nominating::Combined::sets_are_alone, crate::proofs::Nominating::Combined::more_are_added, crate::proofs::Nominating::Combined::combined_to_greatest))]
pub fn value_sets_are_exact()
    ensures set { SetsAreExact }
    ensures alone { SetsAreAlone }
    ensures more { MoreAreAdded }
    ensures combined { CombinedToGreatest }
{}
