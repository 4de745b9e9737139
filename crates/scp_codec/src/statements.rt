//! Statements that are read from the front.
//!
//! An error of a function here is the first fault from left to right, or says that it is out of memory.

ghost use Rattle.std.specs.Prelude.{◌≡◌};
ghost use Rattle.scp_codec.specs.Kinds.{kind_number};
ghost use Rattle.scp_codec.specs.Spelling.{kind};
ghost use Rattle.scp_codec.specs.Reading.{Gives, Says, kind_at, values_at, nominated_at, nominate_at, prepare_at, commit_at, externalize_at, body_at};

use crate::error::{CodecError, Fault};
use crate::reader::Reader;
use scp_types::{MAX_NOMINATED, Statement, Values};
use std::alloc::Global;

/// The four kinds of statements, each with the byte that stands for it.
#[derive(Clone, Copy)]
pub enum StatementKind {
    /// NOMINATE, the byte 1.
    Nominate,
    /// PREPARE, the byte 2.
    Prepare,
    /// COMMIT, the byte 3.
    Commit,
    /// EXTERNALIZE, the byte 4.
    Externalize,
}

impl StatementKind {
    /// The byte that stands for the kind, 1 to 4.
    pub fn byte(self) -> u8
        ensures { result ≡ kind_number self }
    {
        match self {
            StatementKind::Nominate => 1,
            StatementKind::Prepare => 2,
            StatementKind::Commit => 3,
            StatementKind::Externalize => 4,
        }
    }

    /// The kind of a statement.
    pub fn of(statement: &Statement) -> StatementKind
        ensures { kind_number result ≡ kind statement.now }
    {
        match statement {
            Statement::Nominate { .. } => StatementKind::Nominate,
            Statement::Prepare { .. } => StatementKind::Prepare,
            Statement::Commit { .. } => StatementKind::Commit,
            Statement::Externalize { .. } => StatementKind::Externalize,
        }
    }
}

/// A kind, by the byte that stands for it.
#[tactic(auto, unfolding(crate::specs::Reading::kind_at))]
pub fn read_kind(reader: &mut Reader) -> Result<StatementKind, Fault>
    ensures { Says (λ x. (kind_number x, reader.new)) result (kind_at reader.old) }
{
    match reader.byte()? {
        1 => Ok(StatementKind::Nominate),
        2 => Ok(StatementKind::Prepare),
        3 => Ok(StatementKind::Commit),
        4 => Ok(StatementKind::Externalize),
        _ => Err(Fault::Kind),
    }
}

/// A statement of the kind, whether or not it keeps the rules of its kind.
#[tactic(auto, unfolding(crate::specs::Reading::body_at))]
pub fn read_statement(
    alloc: Global,
    reader: &mut Reader,
    kind: StatementKind,
) -> Result<Statement, CodecError>
    ensures { Gives (λ x. (x, reader.new)) result (body_at (kind_number kind) reader.old) }
{
    match kind {
        StatementKind::Nominate => read_nominate(alloc, reader),
        StatementKind::Prepare => read_prepare(alloc, reader),
        StatementKind::Commit => read_commit(alloc, reader),
        StatementKind::Externalize => read_externalize(alloc, reader),
    }
}

/// A NOMINATE: the set of values that are voted for, and the set of those that are accepted.
#[tactic(auto, unfolding(crate::specs::Reading::nominate_at))]
fn read_nominate(alloc: Global, reader: &mut Reader) -> Result<Statement, CodecError>
    ensures { Gives (λ x. (x, reader.new)) result (nominate_at reader.old) }
{
    let voted = read_nominated(alloc, reader)?;
    let accepted = read_nominated(alloc, reader)?;
    Ok(Statement::Nominate { voted, accepted })
}

/// One set of a nomination: a count, and as many values.
#[tactic(auto, unfolding(crate::specs::Reading::nominated_at))]
fn read_nominated(alloc: Global, reader: &mut Reader) -> Result<Values, CodecError>
    ensures { Gives (λ x. (x, reader.new)) result (nominated_at reader.old) }
{
    let count = reader.byte()?;
    if count as usize > MAX_NOMINATED {
        return Err(CodecError::Fault(Fault::Limit));
    }
    read_values(alloc, reader, count)
}

fn read_values(alloc: Global, reader: &mut Reader, count: u8) -> Result<Values, CodecError>
    ensures { Gives (λ x. (x, reader.new)) result (values_at count reader.old) }
{
    let mut values = Values::empty(alloc);
    for _ in 0..count {
        let value = reader.value(alloc)?;
        values.push(value)?;
    }
    Ok(values)
}

/// A PREPARE: a ballot, the prepared one if there is one, and three counters.
#[tactic(auto, unfolding(crate::specs::Reading::prepare_at))]
fn read_prepare(alloc: Global, reader: &mut Reader) -> Result<Statement, CodecError>
    ensures { Gives (λ x. (x, reader.new)) result (prepare_at reader.old) }
{
    let ballot = reader.ballot(alloc)?;
    let prepared = reader.optional_ballot(alloc)?;
    let aborted_counter = reader.u32()?;
    let high_counter = reader.u32()?;
    let commit_counter = reader.u32()?;
    Ok(Statement::Prepare {
        ballot,
        prepared,
        aborted_counter,
        high_counter,
        commit_counter,
    })
}

/// A COMMIT: a ballot and three counters.
#[tactic(auto, unfolding(crate::specs::Reading::commit_at))]
fn read_commit(alloc: Global, reader: &mut Reader) -> Result<Statement, CodecError>
    ensures { Gives (λ x. (x, reader.new)) result (commit_at reader.old) }
{
    let ballot = reader.ballot(alloc)?;
    let prepared_counter = reader.u32()?;
    let high_counter = reader.u32()?;
    let commit_counter = reader.u32()?;
    Ok(Statement::Commit {
        ballot,
        prepared_counter,
        high_counter,
        commit_counter,
    })
}

/// An EXTERNALIZE: a ballot and a counter.
#[tactic(auto, unfolding(crate::specs::Reading::externalize_at))]
fn read_externalize(alloc: Global, reader: &mut Reader) -> Result<Statement, CodecError>
    ensures { Gives (λ x. (x, reader.new)) result (externalize_at reader.old) }
{
    let commit = reader.ballot(alloc)?;
    let high_counter = reader.u32()?;
    Ok(Statement::Externalize {
        commit,
        high_counter,
    })
}
