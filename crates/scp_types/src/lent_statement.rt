//! A ballot statement whose values are borrowed.

ghost use Rattle.std.specs.Prelude.{◌≡◌, IfOk};
ghost use Rattle.scp_types.specs.declared.statement.Statement.TheVariants.{Prepare, Commit, Externalize};

use crate::lent::LentBallot;
use crate::statement::Statement;
use std::alloc::AllocError;
use std::marker::Model;

/// A ballot statement whose values stand elsewhere. Contracts see the statement.
#[derive(Drop)]
pub struct LentStatement<'a> {
    said: Said<'a>,
}

/// The fields of a ballot statement.
#[derive(Drop)]
pub(crate) enum Said<'a> {
    /// Those of a PREPARE.
    Preparing {
        ballot: LentBallot<'a>,
        prepared: Option<LentBallot<'a>>,
        aborted_counter: u32,
        high_counter: u32,
        commit_counter: u32,
    },
    /// Those of a COMMIT.
    Committing {
        ballot: LentBallot<'a>,
        prepared_counter: u32,
        high_counter: u32,
        commit_counter: u32,
    },
    /// Those of an EXTERNALIZE.
    Externalized {
        commit: LentBallot<'a>,
        high_counter: u32,
    },
}

impl<'a> Model for LentStatement<'a> {
    ghost use Rattle.scp_types.specs.declared.statement.Statement.{Statement};
    ghost use Rattle.scp_types.specs.LentStatements.{statement_of_said};

    ghost Value = { Statement };

    ghost view = { λ s. statement_of_said s.said };
}

impl<'a> LentStatement<'a> {
    /// The PREPARE of these fields, whose counters are in message order: the aborted, the high and the
    /// commit counter.
    pub fn prepare(
        ballot: LentBallot<'a>,
        prepared: Option<LentBallot<'a>>,
        counters: (u32, u32, u32),
    ) -> LentStatement<'a>
        ensures { result ≡ Prepare ballot.entry prepared.entry counters.0 counters.1 counters.2 }
    {
        LentStatement {
            said: Said::Preparing {
                ballot,
                prepared,
                aborted_counter: counters.0,
                high_counter: counters.1,
                commit_counter: counters.2,
            },
        }
    }

    /// The COMMIT of these fields, whose counters are in message order: the prepared, the high and the
    /// commit counter.
    pub fn commit(ballot: LentBallot<'a>, counters: (u32, u32, u32)) -> LentStatement<'a>
        ensures { result ≡ Commit ballot.entry counters.0 counters.1 counters.2 }
    {
        LentStatement {
            said: Said::Committing {
                ballot,
                prepared_counter: counters.0,
                high_counter: counters.1,
                commit_counter: counters.2,
            },
        }
    }

    /// The EXTERNALIZE of these fields.
    pub fn externalize(commit: LentBallot<'a>, high_counter: u32) -> LentStatement<'a>
        ensures { result ≡ Externalize commit.entry high_counter }
    {
        LentStatement {
            said: Said::Externalized {
                commit,
                high_counter,
            },
        }
    }

    /// A statement of its own. It takes no memory; an error says that a value has too many owners.
    pub fn try_copy(&self) -> Result<Statement, AllocError>
        ensures { IfOk result (λ s. s ≡ self.now) }
    {
        Ok(match &self.said {
            Said::Preparing {
                ballot,
                prepared,
                aborted_counter,
                high_counter,
                commit_counter,
            } => Statement::Prepare {
                ballot: ballot.try_copy()?,
                prepared: match prepared {
                    None => None,
                    Some(prepared) => Some(prepared.try_copy()?),
                },
                aborted_counter: *aborted_counter,
                high_counter: *high_counter,
                commit_counter: *commit_counter,
            },
            Said::Committing {
                ballot,
                prepared_counter,
                high_counter,
                commit_counter,
            } => Statement::Commit {
                ballot: ballot.try_copy()?,
                prepared_counter: *prepared_counter,
                high_counter: *high_counter,
                commit_counter: *commit_counter,
            },
            Said::Externalized {
                commit,
                high_counter,
            } => Statement::Externalize {
                commit: commit.try_copy()?,
                high_counter: *high_counter,
            },
        })
    }
}

/// A statement of its own, if there is one. It takes no memory; an error says that a value has too many owners.
pub fn statement_of(lent: &Option<LentStatement>) -> Result<Option<Statement>, AllocError>
    ensures { IfOk result (λ o. o ≡ lent.now) }
{
    match lent {
        None => Ok(None),
        Some(lent) => Ok(Some(lent.try_copy()?)),
    }
}
