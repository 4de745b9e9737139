//! Claims on which nodes vote.

ghost use Rattle.std.specs.Prelude.{◌≡◌};
ghost use Rattle.scp_voting.specs.Questions.{accepts, backs, kind_of_claim};

use scp_types::{Ballot, Kind, Statement, Value};

/// What nodes vote for, accept and confirm, each by its statements (after the Stellar Consensus Protocol
/// draft).
#[derive(Debug, Drop)]
pub enum Claim {
    /// This ballot is prepared.
    Prepare(Ballot),
    /// The value is committed at each counter from `low` to `high`; `low` is at most `high`.
    Commit { value: Value, low: u32, high: u32 },
    /// This value is nominated.
    Nominate(Value),
}

impl Claim {
    /// The kind of the statements that speak of it: nominations are a kind of their own. It takes no memory.
    pub fn kind(&self) -> Kind
        ensures { result ≡ kind_of_claim self.now }
    {
        match self {
            Claim::Prepare(_) | Claim::Commit { .. } => Kind::Ballot,
            Claim::Nominate(_) => Kind::Nomination,
        }
    }

    /// Whether a statement votes for or accepts it. It takes no memory.
    #[inline(always)]
    pub fn is_backed_by(&self, statement: &Statement) -> bool
        ensures { result ≡ backs self.now statement.now }
    {
        match self {
            Claim::Prepare(ballot) => statement.votes_or_accepts_prepare(ballot),
            Claim::Commit { value, low, high } => {
                statement.votes_or_accepts_ends(value, *low, *high)
            }
            Claim::Nominate(value) => statement.votes_or_accepts_nominate(value),
        }
    }

    /// Whether a statement accepts it. It takes no memory.
    pub fn is_accepted_by(&self, statement: &Statement) -> bool
        ensures { result ≡ accepts self.now statement.now }
    {
        match self {
            Claim::Prepare(ballot) => statement.accepts_prepare(ballot),
            Claim::Commit { value, low, high } => statement.accepts_ends(value, *low, *high),
            Claim::Nominate(value) => statement.accepts_nominate(value),
        }
    }
}
