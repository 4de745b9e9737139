//! How a statement speaks of ballots, and of which.

ghost use Rattle.std.specs.Prelude.{◌≡◌, ◌∷◌, []};
ghost use Rattle.scp_spec.specs.States.{ballot_with};
ghost use Rattle.scp_voting.specs.Mentions.{ballots_of, mentioned_by};

use scp_types::{Ballot, LentBallot, Statement};

/// A way in which a statement speaks of a ballot (after the Stellar Consensus Protocol draft).
#[derive(Clone, Copy)]
pub enum Mention {
    /// It names the ballot.
    Named,
    /// It speaks of commit at the ballot's counter.
    Committed,
}

/// The ballots of which one statement speaks in one way, three at most.
#[derive(Drop)]
pub struct StatementBallots<'a> {
    /// The first of them, if there is any.
    pub first: Option<LentBallot<'a>>,
    /// The second one, if there is one.
    pub second: Option<LentBallot<'a>>,
    /// The third one, if there is one.
    pub third: Option<LentBallot<'a>>,
}

/// The ballots of which the statement speaks in this way (after the Stellar Consensus Protocol draft), in the order of
/// the definitions. It takes no memory.
#[tactic(auto, using(crate::proofs::Mentioning::none_nominated, crate::proofs::Mentioning::both_externalized))]
pub fn statement_ballots<'a>(mention: Mention, statement: &'a Statement) -> StatementBallots<'a>
    ensures { ballots_of result ≡ mentioned_by mention statement.now }
{
    match statement {
        Statement::Nominate { .. } => StatementBallots {
            first: None,
            second: None,
            third: None,
        },
        Statement::Prepare {
            ballot,
            prepared,
            high_counter,
            commit_counter,
            ..
        } => match mention {
            Mention::Named => StatementBallots {
                first: Some(LentBallot::of(ballot)),
                second: lend(prepared),
                third: None,
            },
            Mention::Committed => ends(ballot, *commit_counter, *high_counter),
        },
        Statement::Commit {
            ballot,
            prepared_counter,
            high_counter,
            commit_counter,
        } => match mention {
            Mention::Named => StatementBallots {
                first: Some(LentBallot::of(ballot)),
                second: Some(LentBallot::at(*prepared_counter, &ballot.value)),
                third: Some(LentBallot::at(*high_counter, &ballot.value)),
            },
            Mention::Committed => ends(ballot, *commit_counter, *high_counter),
        },
        Statement::Externalize {
            commit,
            high_counter,
        } => ends(commit, commit.counter, *high_counter),
    }
}

/// The two ballots at these counters, with the ballot's value.
fn ends<'a>(ballot: &'a Ballot, low: u32, high: u32) -> StatementBallots<'a>
    ensures { ballots_of result ≡ ballot_with low ballot.now.value ∷ ballot_with high ballot.now.value ∷ [] }
{
    StatementBallots {
        first: Some(LentBallot::at(low, &ballot.value)),
        second: Some(LentBallot::at(high, &ballot.value)),
        third: None,
    }
}

/// This ballot, if there is one.
fn lend<'a>(ballot: &'a Option<Ballot>) -> Option<LentBallot<'a>>
    ensures { result ≡ ballot.now }
{
    match ballot {
        None => None,
        Some(ballot) => Some(LentBallot::of(ballot)),
    }
}
