//! The least counter of an interval.

ghost use Rattle.std.specs.Prelude.{◌≡◌, IfOk};
ghost use Rattle.scp_spec.specs.States.{ballot_with};
ghost use Rattle.scp_spec.specs.Candidates.{lowest};

use crate::search::{Candidates, Check};
use scp_types::{Ballot, LentBallot};
use scp_voting::Mention;
use std::alloc::{AllocError, Global};

/// The least counter among this ballot's and those of the candidates of its value that pass. It tries them from this
/// ballot down to the last, since one may pass below one that fails. An error says that it is out of memory, or that a
/// value has too many owners.
pub(crate) fn lowest_of<'a, C: Candidates, T: Check>(
    alloc: Global,
    mention: Mention,
    candidates: &'a C,
    test: &T,
    end: &'a Ballot,
) -> Result<u32, AllocError>
    ensures { IfOk result (λ n. n ≡ lowest (λ k. T.holds test.now (ballot_with k end.now.value)) end.now.value end.now.counter (C.listed candidates.now mention)) }
{
    let mut least = end.counter;
    let mut bound = LentBallot::of(end);
    while let Some(next) = candidates.next(mention, &Some(bound.reborrow())) {
        if *next.value() == end.value && test.check(alloc, &next)? {
            least = next.counter();
        }
        bound = next;
    }
    Ok(least)
}
