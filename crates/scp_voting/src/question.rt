//! What is asked of statements in federated voting.

ghost use Rattle.std.specs.Prelude.{◌≡◌};
ghost use Rattle.scp_voting.specs.Questions.{asks, kind_asked};
ghost use Rattle.scp_spec.specs.Passes.{has_counter};

use crate::claim::Claim;
use scp_types::{Kind, Statement};

/// What is asked of each node's statement: whether it votes for or accepts a claim, or how far its
/// ballot is (after the Stellar Consensus Protocol draft).
#[derive(Drop)]
pub enum Question<'a> {
    /// Whether it votes for or accepts this claim.
    Backs(&'a Claim),
    /// Whether it accepts this claim.
    Accepts(&'a Claim),
    /// Whether its ballot counter is at least this one; an EXTERNALIZE counts as infinite.
    HasCounter(u32),
}

impl<'a> Question<'a> {
    /// The kind of the statements that are asked: those that speak of the claim, or those that have a ballot
    /// counter. It takes no memory.
    pub fn kind(&self) -> Kind
        ensures { result ≡ kind_asked self.now }
    {
        match self {
            Question::Backs(claim) | Question::Accepts(claim) => claim.kind(),
            Question::HasCounter(_) => Kind::Ballot,
        }
    }

    /// Whether a statement says what is asked. It takes no memory.
    pub fn asks(&self, statement: &Statement) -> bool
        ensures { result ≡ asks self.now statement.now }
    {
        match self {
            Question::Backs(claim) => claim.is_backed_by(statement),
            Question::Accepts(claim) => claim.is_accepted_by(statement),
            Question::HasCounter(counter) => has_counter(statement, *counter),
        }
    }
}

/// Whether a statement's ballot counter is at least this one. An EXTERNALIZE counts as infinite, and a nomination has
/// none.
fn has_counter(statement: &Statement, counter: u32) -> bool
    ensures { result ≡ has_counter counter statement.now }
{
    match statement {
        Statement::Nominate { .. } => false,
        Statement::Prepare { ballot, .. } => counter <= ballot.counter,
        Statement::Commit { ballot, .. } => counter <= ballot.counter,
        Statement::Externalize { .. } => true,
    }
}
