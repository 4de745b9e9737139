//! What a node has externalized.

ghost use Rattle.std.specs.Prelude.{◌≡◌, option_map};
ghost use Rattle.host_journal.specs.Externalized.{externalized_by};

use scp_types::{Phase, Value, Votes};

/// What a node with these votes has externalized: the value of its ballot, once the phase says so.
pub(crate) fn externalized_by(votes: &Votes) -> Option<&Value>
    ensures { option_map (λ v. v.now) result ≡ externalized_by votes.now.phase votes.now.ballot }
{
    match votes.phase {
        Phase::Preparing | Phase::Committing => None,
        Phase::Externalized => match &votes.ballot {
            None => None,
            Some(ballot) => Some(&ballot.value),
        },
    }
}
