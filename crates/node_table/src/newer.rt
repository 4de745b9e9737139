//! Which statement is newer than another (after the Stellar Consensus Protocol draft).

ghost use Rattle.std.specs.Prelude.{◌≡◌};
ghost use Rattle.scp_spec.specs.Newer.{has_all, is_above, is_newer, widens};
ghost use Rattle.scp_types.specs.declared.statement.Statement.{Statement};

use scp_types::{Ballot, Statement, Values};

/// Whether the first statement is newer than the second, so that it replaces it as its sender's row.
///
/// A NOMINATE is newer if both its sets contain the old ones and one is larger. A ballot statement is newer by phase
/// (PREPARE, COMMIT, EXTERNALIZE), then by its fields in message order, in which no prepared ballot counts as below
/// any. Nothing is newer than an EXTERNALIZE, no statement is newer than itself, and none is newer than one of the
/// other kind. It takes no memory.
pub fn is_newer(new: &Statement, old: &Statement) -> bool
    ensures { result ≡ is_newer new.now old.now }
{
    match old {
        Statement::Nominate { voted, accepted } => widens(new, voted, accepted),
        Statement::Prepare {
            ballot,
            prepared,
            aborted_counter,
            high_counter,
            commit_counter,
        } => {
            let counters = (*aborted_counter, *high_counter, *commit_counter);
            is_above_prepare(new, ballot, prepared, counters)
        }
        Statement::Commit {
            ballot,
            prepared_counter,
            high_counter,
            commit_counter,
        } => {
            let counters = (*prepared_counter, *high_counter, *commit_counter);
            is_above_commit(new, ballot, counters)
        }
        Statement::Externalize { .. } => false,
    }
}

/// Whether it comes after a PREPARE of these fields, whose counters are in message order.
fn is_above_prepare(
    new: &Statement,
    old_ballot: &Ballot,
    old_prepared: &Option<Ballot>,
    old_counters: (u32, u32, u32),
) -> bool
    ensures { result ≡ is_above new.now (Statement.Prepare old_ballot.now old_prepared.now old_counters.0 old_counters.1 old_counters.2) }
{
    match new {
        Statement::Nominate { .. } => false,
        Statement::Prepare {
            ballot,
            prepared,
            aborted_counter,
            high_counter,
            commit_counter,
        } => {
            let counters = (*aborted_counter, *high_counter, *commit_counter);
            (ballot, prepared, counters) > (old_ballot, old_prepared, old_counters)
        }
        Statement::Commit { .. } | Statement::Externalize { .. } => true,
    }
}

/// Whether it comes after a COMMIT of these fields, whose counters are in message order.
fn is_above_commit(new: &Statement, old_ballot: &Ballot, old_counters: (u32, u32, u32)) -> bool
    ensures { result ≡ is_above new.now (Statement.Commit old_ballot.now old_counters.0 old_counters.1 old_counters.2) }
{
    match new {
        Statement::Nominate { .. } | Statement::Prepare { .. } => false,
        Statement::Commit {
            ballot,
            prepared_counter,
            high_counter,
            commit_counter,
        } => {
            let counters = (*prepared_counter, *high_counter, *commit_counter);
            (ballot, counters) > (old_ballot, old_counters)
        }
        Statement::Externalize { .. } => true,
    }
}

/// Whether it is a nomination that has all of these values, and one more.
fn widens(new: &Statement, old_voted: &Values, old_accepted: &Values) -> bool
    ensures { result ≡ widens new.now old_voted.now old_accepted.now }
{
    match new {
        Statement::Nominate { voted, accepted } => {
            has_all(voted, old_voted)
                && has_all(accepted, old_accepted)
                && !(has_all(old_voted, voted) && has_all(old_accepted, accepted))
        }
        _ => false,
    }
}

/// Whether each of these values is among those.
fn has_all(those: &Values, these: &Values) -> bool
    ensures { result ≡ has_all those.now these.now }
{
    these.as_slice().iter().all(|value| those.has(value))
}
