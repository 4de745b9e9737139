//! What nodes say about a slot.

ghost use Rattle.std.specs.Prelude.{◌≡◌, ◌↔◌, IsTrue, IfOk};
ghost use Rattle.scp_types.specs.Statements.{IsWellFormed, HasWidths, is_up_to, is_well_formed, kind_of};

use crate::ballot::{Ballot, copy_of, is_same};
use crate::kind::Kind;
use crate::values::Values;
use std::alloc::{AllocError, Global};

/// A statement about one slot, with the fields of the Stellar Consensus Protocol draft.
#[derive(Debug, Drop)]
pub enum Statement {
    /// Which values the sender votes to nominate, and which it accepts as nominated.
    Nominate {
        voted: Values,
        accepted: Values,
    },
    /// The ballot that the sender votes to prepare, the highest that it accepts as prepared, and the counter below
    /// which it accepts all ballots as aborted. Then the counter of its highest confirmed ballot, and the least counter
    /// for which it votes to commit; both are 0 if there is none.
    Prepare {
        ballot: Ballot,
        prepared: Option<Ballot>,
        aborted_counter: u32,
        high_counter: u32,
        commit_counter: u32,
    },
    /// The ballot, the counter up to which the sender accepts its value as prepared, and the
    /// interval of counters for which it accepts commit.
    Commit {
        ballot: Ballot,
        prepared_counter: u32,
        high_counter: u32,
        commit_counter: u32,
    },
    /// The least ballot that the sender confirms as committed, and the greatest such counter.
    Externalize {
        commit: Ballot,
        high_counter: u32,
    },
}

impl Statement {
    /// Which kind it is.
    pub fn kind(&self) -> Kind
        ensures { result ≡ kind_of self.now }
    {
        match self {
            Statement::Nominate { .. } => Kind::Nomination,
            _ => Kind::Ballot,
        }
    }

    /// A copy, which shares the bytes of each value. An error says that it is out of memory, or that a value has too
    /// many owners.
    pub fn try_copy(&self, alloc: Global) -> Result<Statement, AllocError>
        ensures { IfOk result (λ s. s ≡ self.now) }
    {
        Ok(match self {
            Statement::Nominate { voted, accepted } => Statement::Nominate {
                voted: voted.try_copy(alloc)?,
                accepted: accepted.try_copy(alloc)?,
            },
            Statement::Prepare {
                ballot,
                prepared,
                aborted_counter,
                high_counter,
                commit_counter,
            } => Statement::Prepare {
                ballot: ballot.try_copy()?,
                prepared: copy_of(prepared)?,
                aborted_counter: *aborted_counter,
                high_counter: *high_counter,
                commit_counter: *commit_counter,
            },
            Statement::Commit {
                ballot,
                prepared_counter,
                high_counter,
                commit_counter,
            } => Statement::Commit {
                ballot: ballot.try_copy()?,
                prepared_counter: *prepared_counter,
                high_counter: *high_counter,
                commit_counter: *commit_counter,
            },
            Statement::Externalize {
                commit,
                high_counter,
            } => Statement::Externalize {
                commit: commit.try_copy()?,
                high_counter: *high_counter,
            },
        })
    }

    /// Whether both say the same.
    pub fn is_same(&self, other: &Statement) -> bool
        ensures { IsTrue result ↔ self.now ≡ other.now }
    {
        match self {
            Statement::Nominate { voted, accepted } => matches!(
                other,
                Statement::Nominate { voted: votes, accepted: accepts }
                    if voted.is_same(votes) && accepted.is_same(accepts)
            ),
            Statement::Prepare {
                ballot,
                prepared,
                aborted_counter,
                high_counter,
                commit_counter,
            } => matches!(
                other,
                Statement::Prepare { ballot: b, prepared: p, aborted_counter: a, high_counter: h, commit_counter: c }
                    if ballot.is_same(b) && is_same(prepared, p) && *aborted_counter == *a
                        && *high_counter == *h && *commit_counter == *c
            ),
            Statement::Commit {
                ballot,
                prepared_counter,
                high_counter,
                commit_counter,
            } => matches!(
                other,
                Statement::Commit { ballot: b, prepared_counter: p, high_counter: h, commit_counter: c }
                    if ballot.is_same(b) && *prepared_counter == *p
                        && *high_counter == *h && *commit_counter == *c
            ),
            Statement::Externalize {
                commit,
                high_counter,
            } => matches!(
                other,
                Statement::Externalize { commit: c, high_counter: h }
                    if commit.is_same(c) && *high_counter == *h
            ),
        }
    }

    /// Whether the statement keeps the rules of its kind.
    #[tactic(auto, using(crate::proofs::StatementRules::keeps_rules, crate::proofs::StatementRules::passes_test))]
    pub fn is_well_formed(&self) -> bool
        ensures test { result ≡ is_well_formed self.now }
        ensures rules { IsTrue result ↔ IsWellFormed self.now }
    {
        match self {
            Statement::Nominate { voted, accepted } => {
                voted.is_nomination_set()
                    && accepted.is_nomination_set()
                    && voted.as_slice().len() + accepted.as_slice().len() > 0
            }
            Statement::Prepare {
                ballot,
                prepared,
                aborted_counter,
                high_counter,
                commit_counter,
            } => {
                ballot.counter >= 1
                    && is_up_to(prepared, ballot)
                    && *aborted_counter <= ballot.counter
                    && commit_counter <= high_counter
                    && *high_counter <= ballot.counter
            }
            Statement::Commit {
                ballot,
                prepared_counter: _,
                high_counter,
                commit_counter,
            } => {
                *commit_counter >= 1
                    && commit_counter <= high_counter
                    && *high_counter <= ballot.counter
            }
            Statement::Externalize {
                commit,
                high_counter,
            } => commit.counter >= 1 && commit.counter <= *high_counter,
        }
    }
}

/// Reads each field, so that a proof knows that it fits where it is kept.
pub(crate) fn read_widths(statement: &Statement)
    ensures { HasWidths statement.now }
{
    match statement {
        Statement::Nominate { voted, accepted } => {
            let _voted = voted.as_slice();
            let _accepted = accepted.as_slice();
        }
        Statement::Prepare {
            ballot,
            prepared,
            aborted_counter,
            high_counter,
            commit_counter,
        } => {
            let _aborted = *aborted_counter;
            let _high = *high_counter;
            let _commit = *commit_counter;
            ballot.read_widths();
            if let Some(prepared) = prepared {
                prepared.read_widths();
            }
        }
        Statement::Commit {
            ballot,
            prepared_counter,
            high_counter,
            commit_counter,
        } => {
            let _prepared = *prepared_counter;
            let _high = *high_counter;
            let _commit = *commit_counter;
            ballot.read_widths();
        }
        Statement::Externalize {
            commit,
            high_counter,
        } => {
            let _high = *high_counter;
            commit.read_widths();
        }
    }
}

/// Whether the prepared ballot, if there is one, is not above the other one.
fn is_up_to(prepared: &Option<Ballot>, ballot: &Ballot) -> bool
    ensures { result ≡ is_up_to prepared.now ballot.now }
{
    match prepared {
        None => true,
        Some(prepared) => prepared <= ballot,
    }
}
