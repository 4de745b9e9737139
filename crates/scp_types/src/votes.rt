//! What a statement votes for and what it accepts (after the Stellar Consensus Protocol draft,
//! sections on nomination and balloting; the intervals of commit as a whole are this host's profile).

ghost use Rattle.std.specs.Prelude.{◌≡◌, ◌≤◌, ◌↔◌, IsTrue};
ghost use Rattle.scp_types.specs.Votes.{implies_prepare, accepts_prepare, votes_or_accepts_prepare, AcceptsCommit, VotesOrAcceptsCommit, accepts_ends, votes_or_accepts_ends, has_value, accepts_nominate, votes_or_accepts_nominate};

use crate::ballot::Ballot;
use crate::statement::Statement;
use crate::value::Value;
use crate::values::Values;

impl Ballot {
    /// Whether prepare of this ballot implies prepare of the other: the same value, and no greater
    /// counter.
    pub fn implies_prepare(&self, other: &Ballot) -> bool
        ensures { result ≡ implies_prepare self.now other.now }
    {
        self.value == other.value && other.counter <= self.counter
    }
}

impl Values {
    /// Whether the value is one of them.
    pub fn has(&self, value: &Value) -> bool
        ensures { result ≡ has_value self.now value.now }
    {
        self.as_slice().iter().any(|other| *other == *value)
    }
}

impl Statement {
    /// Whether it accepts that the ballot is prepared: that all lower ballots of other values are
    /// aborted.
    pub fn accepts_prepare(&self, ballot: &Ballot) -> bool
        ensures { result ≡ accepts_prepare self.now ballot.now }
    {
        match self {
            Statement::Nominate { .. } => false,
            Statement::Prepare {
                prepared,
                aborted_counter,
                ..
            } => {
                let implied = match prepared {
                    None => false,
                    Some(prepared) => prepared.implies_prepare(ballot),
                };
                implied || ballot.counter < *aborted_counter
            }
            Statement::Commit {
                ballot: own,
                prepared_counter,
                ..
            } => own.value == ballot.value && ballot.counter <= *prepared_counter,
            Statement::Externalize { commit, .. } => commit.value == ballot.value,
        }
    }

    /// Whether it votes for or accepts that the ballot is prepared.
    pub fn votes_or_accepts_prepare(&self, ballot: &Ballot) -> bool
        ensures { result ≡ votes_or_accepts_prepare self.now ballot.now }
    {
        let votes = match self {
            Statement::Nominate { .. } => false,
            Statement::Prepare { ballot: own, .. } => own.implies_prepare(ballot),
            Statement::Commit { ballot: own, .. } => own.value == ballot.value,
            Statement::Externalize { .. } => false,
        };
        votes || self.accepts_prepare(ballot)
    }

    /// Whether it accepts commit of the value, by the two ends of an interval: if `low <= high`, whether it accepts it
    /// at each counter from `low` to `high`. If `low` is greater, the answer means nothing.
    #[tactic(auto, using(crate::proofs::VoteLaws::accepts_whole, crate::proofs::VoteLaws::accepts_both))]
    pub fn accepts_ends(&self, value: &Value, low: u32, high: u32) -> bool
        ensures value { result ≡ accepts_ends self.now value.now low high }
        ensures whole { low ≤ high → (IsTrue result ↔ AcceptsCommit self.now value.now low high) }
    {
        match self {
            Statement::Nominate { .. } => false,
            Statement::Prepare { .. } => false,
            Statement::Commit {
                ballot,
                high_counter,
                commit_counter,
                ..
            } => ballot.value == *value && *commit_counter <= low && high <= *high_counter,
            Statement::Externalize { commit, .. } => {
                commit.value == *value && commit.counter <= low
            }
        }
    }

    /// Whether it votes for or accepts commit of the value, by the two ends of an interval: if `low <= high`, whether
    /// it does so at each counter from `low` to `high`. If `low` is greater, the answer means nothing.
    #[tactic(auto, using(crate::proofs::VoteLaws::votes_whole, crate::proofs::VoteLaws::votes_both))]
    pub fn votes_or_accepts_ends(&self, value: &Value, low: u32, high: u32) -> bool
        ensures value { result ≡ votes_or_accepts_ends self.now value.now low high }
        ensures whole { low ≤ high → (IsTrue result ↔ VotesOrAcceptsCommit self.now value.now low high) }
    {
        match self {
            Statement::Nominate { .. } => false,
            Statement::Prepare {
                ballot,
                high_counter,
                commit_counter,
                ..
            } => {
                *commit_counter != 0
                    && ballot.value == *value
                    && *commit_counter <= low
                    && high <= *high_counter
            }
            Statement::Commit {
                ballot,
                commit_counter,
                ..
            } => ballot.value == *value && *commit_counter <= low,
            Statement::Externalize { commit, .. } => {
                commit.value == *value && commit.counter <= low
            }
        }
    }

    /// Whether it accepts the value as nominated.
    pub fn accepts_nominate(&self, value: &Value) -> bool
        ensures { result ≡ accepts_nominate self.now value.now }
    {
        match self {
            Statement::Nominate { accepted, .. } => accepted.has(value),
            _ => false,
        }
    }

    /// Whether it votes to nominate the value or accepts it as nominated.
    pub fn votes_or_accepts_nominate(&self, value: &Value) -> bool
        ensures { result ≡ votes_or_accepts_nominate self.now value.now }
    {
        match self {
            Statement::Nominate { voted, accepted } => voted.has(value) || accepted.has(value),
            _ => false,
        }
    }
}
