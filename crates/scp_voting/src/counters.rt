//! The counters of ballot statements.

ghost use Rattle.std.specs.Prelude.{◌≡◌};
ghost use Rattle.scp_voting.specs.Searching.{counter_by, lesser};

use scp_types::Statement;

/// The counter of a ballot statement; that of an EXTERNALIZE counts as infinite, and a nomination has
/// none: both answer `None` (the Stellar Consensus Protocol draft). It takes no memory.
pub fn counter_by(statement: &Statement) -> Option<u32>
    ensures { result ≡ counter_by statement.now }
{
    match statement {
        Statement::Nominate { .. } | Statement::Externalize { .. } => None,
        Statement::Prepare { ballot, .. } | Statement::Commit { ballot, .. } => {
            Some(ballot.counter)
        }
    }
}

/// The lesser of a counter and of another, if there is another. It takes no memory.
pub fn lesser(counter: u32, other: Option<u32>) -> Option<u32>
    ensures { result ≡ lesser counter other }
{
    match other {
        None => Some(counter),
        Some(other) => Some(counter.min(other)),
    }
}
