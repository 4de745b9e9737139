//! Many comparisons of the same two worlds, in threads.

ghost use Rattle.std.specs.Prelude.{IfOk};
ghost use Rattle.scp_spec.specs.Hosts.{History};
ghost use Rattle.host_world.specs.Worlds.{AreJournalsOf, log_at};
ghost use Rattle.host_compare.specs.Meanings.{IsVerdictOn};
ghost use Rattle.host_compare.specs.Questions.{AreAllIsolated, AreVerdictsBetween, AreVerdictsOn};

use crate::comparing::{are_isolated_at, compare};
use crate::verdict::Verdict;
use host_world::World;
use node_store::Shelf;
use rayon::prelude::*;
use scp_types::Subject;
use std::alloc::{AllocError, Global};
use std::thread::Threads;

/// Answers many questions about the same two worlds, one for each subject, with the verdicts of
/// [`compare`](crate::compare) in the order of the subjects. A subject may stand there more than once, and is then
/// answered as often (this host's profile).
///
/// The questions are shared among threads, in at most two pieces for each processor and at most 64 in all, each of one
/// question or more. The threads have ended when the call returns. Each question reads only the two journals of its own
/// network, as `compare` does. All of them share the worlds, which stay as they are.
///
/// The following holds whatever is answered, even out of memory. Each question is isolated as by `compare`. Let both
/// worlds host the same members of its closure with the same slices, and let the steps that concern the members be the
/// same in order. Then each hosted member gave out the same in both. If the journals of the worlds are those of two
/// histories of hosts, the verdicts are those on the histories.
///
/// An error says that it is out of memory, for one of the questions or for the list of verdicts; then no question has
/// an answer.
#[tactic(auto, using(crate::proofs::ManyLaws::verdicts_of_histories))]
pub fn compare_all<S: Shelf + Sync, T: Shelf + Sync>(
    rt: &(impl Threads + Sync),
    alloc: Global,
    one: &World<S>,
    other: &World<T>,
    subjects: &[Subject],
) -> Result<Vec<Verdict>, AllocError>
where
    S::Place: Sync,
    T::Place: Sync,
    ensures verdicts { IfOk result (λ all. AreVerdictsOn one.now other.now subjects.now all.items) }
    ensures isolated { AreAllIsolated one.now other.now subjects.now }
    ensures histories { (h k : History) → AreJournalsOf h one.now → AreJournalsOf k other.now → IfOk result (λ all. AreVerdictsBetween h k subjects.now all.items) }
{
    are_all_isolated(one, other, subjects);
    let verdicts = verdicts_of(rt, alloc, one, other, subjects)?;
    Ok(verdicts)
}

fn verdicts_of<S: Shelf + Sync, T: Shelf + Sync>(
    rt: &(impl Threads + Sync),
    alloc: Global,
    one: &World<S>,
    other: &World<T>,
    subjects: &[Subject],
) -> Result<Vec<Verdict>, AllocError>
where
    S::Place: Sync,
    T::Place: Sync,
    ensures { IfOk result (λ all. AreVerdictsOn one.now other.now subjects.now all.items) }
{
    subjects
        .par_iter()
        .with_min_len(1)
        .map(
            |subject: &Subject| -> Result<Verdict, AllocError>
                ensures { IfOk result (λ r. IsVerdictOn (log_at one.entry.now subject.now.net) (log_at other.entry.now subject.now.net) subject.now.slot subject.now.node r) }
            { compare(alloc, one, other, subject) },
        )
        .collect::<Result<Vec<Verdict>, AllocError>>(rt, alloc)?
}

/// A law: each question is isolated.
fn are_all_isolated<S: Shelf, T: Shelf>(one: &World<S>, other: &World<T>, subjects: &[Subject])
    ensures { AreAllIsolated one.now other.now subjects.now }
{
    for subject in subjects {
        are_isolated_at(one, other, subject);
    }
}
