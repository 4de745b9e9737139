//! Statements.

ghost use Rattle.std.specs.Prelude.{◌≡◌, ◌++◌, IfOk, OnOk, option_map, string_bytes};
ghost use Rattle.std.specs.List.{flat_map};
ghost use Rattle.line_script.specs.Printed.{behind_comma, behind_plus, fields_of_statement, kind_text, text_of_optional, text_of_statement, text_of_values};
ghost use Rattle.line_script.specs.Statements.{StatementsReadBack, commit_in, inside_brackets, externalize_in, nomination_in, prepare_in, three_counters as counters_in, word_optional, word_statement, word_values};

use crate::number::counter_of;
use crate::splitting::{split_once, split_twice};
use crate::value::{ballot_of, push_ballot, push_value, value_of};
use scp_types::{Ballot, Statement, Value, Values};
use std::alloc::{AllocError, Global};

/// The statement that a word spells. `None` for any other word.
///
/// The forms are `nom(VOTED|ACCEPTED)`, each a list of values joined by `+` or nothing; `prep(BALLOT,PREPARED,a,h,c)`,
/// with a ballot or `-` as PREPARED; `comm(BALLOT,prepared,h,c)`; and `ext(COMMIT,h)`. Whether the statement keeps the
/// rules of its kind is not looked at here.
pub fn statement_of(alloc: Global, word: &[u8]) -> Result<Option<Statement>, AllocError>
    ensures { IfOk result (λ o. o ≡ word_statement word.now) }
{
    if let Some(fields) = fields_behind(word, b"nom(") {
        return nomination_of(alloc, fields);
    }
    if let Some(fields) = fields_behind(word, b"prep(") {
        return prepare_of(alloc, fields);
    }
    if let Some(fields) = fields_behind(word, b"comm(") {
        return commit_of(alloc, fields);
    }
    if let Some(fields) = fields_behind(word, b"ext(") {
        return externalize_of(alloc, fields);
    }
    Ok(None)
}

/// What stands between `head` and a closing bracket at the end.
fn fields_behind<'a>(word: &'a [u8], head: &[u8]) -> Option<&'a [u8]>
    ensures { option_map (λ r. r.now) result ≡ inside_brackets head.now word.now }
{
    word.strip_prefix(head)?.strip_suffix(b")")
}

fn nomination_of(alloc: Global, fields: &[u8]) -> Result<Option<Statement>, AllocError>
    ensures { IfOk result (λ o. o ≡ nomination_in fields.now) }
{
    let Some((voted, accepted)) = split_once(fields, b'|') else {
        return Ok(None);
    };
    let Some(voted) = values_of(alloc, voted)? else {
        return Ok(None);
    };
    let Some(accepted) = values_of(alloc, accepted)? else {
        return Ok(None);
    };
    Ok(Some(Statement::Nominate { voted, accepted }))
}

/// The values of a list joined by `+`.
fn values_of(alloc: Global, list: &[u8]) -> Result<Option<Values>, AllocError>
    ensures { IfOk result (λ o. o ≡ word_values list.now) }
{
    let mut values = Values::empty(alloc);
    if list.is_empty() {
        return Ok(Some(values));
    }
    for word in list.split(|byte| *byte == b'+') {
        match value_of(alloc, word)? {
            Some(value) => values.push(value)?,
            None => return Ok(None),
        }
    }
    Ok(Some(values))
}

fn prepare_of(alloc: Global, fields: &[u8]) -> Result<Option<Statement>, AllocError>
    ensures { IfOk result (λ o. o ≡ prepare_in fields.now) }
{
    let Some((ballot, prepared, counters)) = split_twice(fields, b',') else {
        return Ok(None);
    };
    let Some((aborted_counter, high_counter, commit_counter)) = three_counters(counters) else {
        return Ok(None);
    };
    let Some(ballot) = ballot_of(alloc, ballot)? else {
        return Ok(None);
    };
    let Some(prepared) = optional_of(alloc, prepared)? else {
        return Ok(None);
    };
    Ok(Some(Statement::Prepare {
        ballot,
        prepared,
        aborted_counter,
        high_counter,
        commit_counter,
    }))
}

/// A ballot, or `-` for none.
fn optional_of(alloc: Global, word: &[u8]) -> Result<Option<Option<Ballot>>, AllocError>
    ensures { IfOk result (λ o. o ≡ word_optional word.now) }
{
    if word == b"-".as_slice() {
        return Ok(Some(None));
    }
    Ok(ballot_of(alloc, word)?.map(Some))
}

fn commit_of(alloc: Global, fields: &[u8]) -> Result<Option<Statement>, AllocError>
    ensures { IfOk result (λ o. o ≡ commit_in fields.now) }
{
    let Some((ballot, counters)) = split_once(fields, b',') else {
        return Ok(None);
    };
    let Some((prepared_counter, high_counter, commit_counter)) = three_counters(counters) else {
        return Ok(None);
    };
    let Some(ballot) = ballot_of(alloc, ballot)? else {
        return Ok(None);
    };
    Ok(Some(Statement::Commit {
        ballot,
        prepared_counter,
        high_counter,
        commit_counter,
    }))
}

/// Three counters with a comma between each and the next.
fn three_counters(text: &[u8]) -> Option<(u32, u32, u32)>
    ensures { result ≡ counters_in text.now }
{
    let (first, second, third) = split_twice(text, b',')?;
    Some((counter_of(first)?, counter_of(second)?, counter_of(third)?))
}

fn externalize_of(alloc: Global, fields: &[u8]) -> Result<Option<Statement>, AllocError>
    ensures { IfOk result (λ o. o ≡ externalize_in fields.now) }
{
    let Some((commit, high)) = split_once(fields, b',') else {
        return Ok(None);
    };
    let Some(high_counter) = counter_of(high) else {
        return Ok(None);
    };
    let Some(commit) = ballot_of(alloc, commit)? else {
        return Ok(None);
    };
    Ok(Some(Statement::Externalize {
        commit,
        high_counter,
    }))
}

/// Adds the statement. If it is out of memory, a part may have been added.
pub fn push_statement(text: &mut String, statement: &Statement) -> Result<(), AllocError>
    ensures { OnOk result (string_bytes text.new ≡ string_bytes text.old ++ text_of_statement statement.now) }
{
    push_kind(text, statement)?;
    push_fields(text, statement)?;
    text.push(')')
}

/// Adds the word of a statement's kind, with the bracket behind it.
fn push_kind(text: &mut String, statement: &Statement) -> Result<(), AllocError>
    ensures { OnOk result (string_bytes text.new ≡ string_bytes text.old ++ kind_text statement.now) }
{
    match statement {
        Statement::Nominate { .. } => text.push_str("nom("),
        Statement::Prepare { .. } => text.push_str("prep("),
        Statement::Commit { .. } => text.push_str("comm("),
        Statement::Externalize { .. } => text.push_str("ext("),
    }
}

fn push_fields(text: &mut String, statement: &Statement) -> Result<(), AllocError>
    ensures { OnOk result (string_bytes text.new ≡ string_bytes text.old ++ fields_of_statement statement.now) }
{
    match statement {
        Statement::Nominate { voted, accepted } => {
            push_values(text, voted)?;
            text.push('|')?;
            push_values(text, accepted)
        }
        Statement::Prepare {
            ballot,
            prepared,
            aborted_counter,
            high_counter,
            commit_counter,
        } => {
            push_ballot(text, ballot)?;
            text.push(',')?;
            push_optional(text, prepared)?;
            push_counters(text, *aborted_counter, *high_counter, *commit_counter)
        }
        Statement::Commit {
            ballot,
            prepared_counter,
            high_counter,
            commit_counter,
        } => {
            push_ballot(text, ballot)?;
            push_counters(text, *prepared_counter, *high_counter, *commit_counter)
        }
        Statement::Externalize {
            commit,
            high_counter,
        } => {
            push_ballot(text, commit)?;
            push_counter(text, *high_counter)
        }
    }
}

/// Adds three counters, each behind a comma.
fn push_counters(text: &mut String, first: u32, second: u32, third: u32) -> Result<(), AllocError>
    ensures { OnOk result (string_bytes text.new ≡ string_bytes text.old ++ (behind_comma first ++ (behind_comma second ++ behind_comma third))) }
{
    push_counter(text, first)?;
    push_counter(text, second)?;
    push_counter(text, third)
}

/// Adds a counter behind a comma.
fn push_counter(text: &mut String, counter: u32) -> Result<(), AllocError>
    ensures { OnOk result (string_bytes text.new ≡ string_bytes text.old ++ behind_comma counter) }
{
    write!(text, ",{counter}")
}

/// Adds the values, with a `+` between each and the next.
fn push_values(text: &mut String, values: &Values) -> Result<(), AllocError>
    ensures { OnOk result (string_bytes text.new ≡ string_bytes text.old ++ text_of_values values.now) }
{
    match values.as_slice() {
        [] => Ok(()),
        [first, rest @ ..] => {
            push_value(text, first)?;
            push_more_values(text, rest)
        }
    }
}

/// Adds the values, each behind a `+`.
fn push_more_values(text: &mut String, values: &[Value]) -> Result<(), AllocError>
    ensures { OnOk result (string_bytes text.new ≡ string_bytes text.old ++ flat_map behind_plus values.now) }
{
    for value in values {
        text.push('+')?;
        push_value(text, value)?;
    }
    Ok(())
}

/// Adds a ballot, or `-` if there is none.
fn push_optional(text: &mut String, ballot: &Option<Ballot>) -> Result<(), AllocError>
    ensures { OnOk result (string_bytes text.new ≡ string_bytes text.old ++ text_of_optional ballot.now) }
{
    match ballot {
        None => text.push('-'),
        Some(ballot) => push_ballot(text, ballot),
    }
}

/// A law: a statement is read back from the word that it is printed as.
pub fn statements_read_back()
    ensures { StatementsReadBack }
{}
