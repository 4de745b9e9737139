//! The greatest of some candidates that passes a test: they are tried from the greatest down.
//!
//! An error of a function here says that it is out of memory, or that a value has too many owners.

ghost use Rattle.std.specs.Option.{option_or};
ghost use Rattle.std.specs.Prelude.{◌≡◌, Bool, IfOk, List, None, filter};
ghost use Rattle.scp_types.specs.declared.ballot.Ballot.{Ballot};
ghost use Rattle.scp_spec.specs.States.{above};
ghost use Rattle.scp_spec.specs.Candidates.{greatest};
ghost use Rattle.scp_voting.specs.declared.mention.Mention.{Mention};
ghost use Rattle.scp_voting.specs.Searching.{next_under};

use scp_types::{Ballot, LentBallot};
use scp_voting::Mention;
use std::alloc::{AllocError, Global};

/// Ballots among which a rule chooses, by how statements speak of them; `listed` is what contracts speak of, in no
/// order.
pub(crate) trait Candidates {
    ghost listed: { Self → Mention → List Ballot };

    /// The greatest candidate below the bound, if there is one. It takes no memory.
    fn next<'b>(&'b self, mention: Mention, bound: &Option<LentBallot>) -> Option<LentBallot<'b>>
        ensures { result ≡ next_under bound.now (listed self.now mention) };
}

/// A test of candidates; `holds` is what contracts speak of.
pub(crate) trait Check {
    ghost holds: { Self → Ballot → Bool };

    /// Whether the candidate passes.
    fn check(&self, alloc: Global, candidate: &LentBallot) -> Result<bool, AllocError>
        ensures { IfOk result (λ b. b ≡ holds self.now candidate.now) };
}

/// The greatest of the candidates that pass.
#[tactic(auto, using(crate::proofs::SearchLaws::found_alone))]
pub(crate) fn greatest_of<C: Candidates, T: Check>(
    alloc: Global,
    mention: Mention,
    candidates: &C,
    test: &T,
) -> Result<Option<Ballot>, AllocError>
    ensures { IfOk result (λ r. r ≡ greatest None (filter (T.holds test.now) (C.listed candidates.now mention))) }
{
    greatest_above(alloc, mention, candidates, test, &None)
}

/// The greatest of the candidates that pass and are above the ballot that is there, if one is; `None` if there is no
/// such candidate. None is tried that is not above that ballot, nor any below the first that passes.
pub(crate) fn greatest_above<C: Candidates, T: Check>(
    alloc: Global,
    mention: Mention,
    candidates: &C,
    test: &T,
    there: &Option<Ballot>,
) -> Result<Option<Ballot>, AllocError>
    ensures { IfOk result (λ r. option_or r there.now ≡ greatest there.now (filter (T.holds test.now) (C.listed candidates.now mention))) }
{
    let mut bound = None;
    loop {
        let Some(next) = candidates.next(mention, &bound) else {
            return Ok(None);
        };
        if !is_above(there, &next) {
            return Ok(None);
        }
        if test.check(alloc, &next)? {
            let found = next.try_copy()?;
            return Ok(Some(found));
        }
        bound = Some(next);
    }
}

/// Whether the ballot is above the one that is there, if one is.
fn is_above(there: &Option<Ballot>, ballot: &LentBallot) -> bool
    ensures { result ≡ above there.now ballot.now }
{
    match there {
        None => true,
        Some(there) => LentBallot::of(there).is_below(ballot),
    }
}
