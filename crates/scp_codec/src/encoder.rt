//! Envelopes that are written as bytes.

ghost use Rattle.std.specs.Prelude.{◌≡◌, ◌≤◌, ◌++◌, length, OnOk, IfOk};
ghost use Rattle.scp_types.specs.Trees.{HasThreshold, HaveThresholds};
ghost use Rattle.scp_types.specs.Nominations.{most_nominated};
ghost use Rattle.scp_types.specs.Statements.{IsWellFormed};
ghost use Rattle.std.specs.Int.{w16, w32, w64, to_be_bytes};
ghost use Rattle.scp_codec.specs.Spelling.{name, value, ballot, optional, nominated_values, slices, body, Spells};

use crate::decoder::MAX_BYTES;
use crate::statements::StatementKind;
use crate::versions::version_of;
use byteorder::{BigEndian, ByteOrder};
use scp_types::{Ballot, Envelope, Member, NodeId, SliceSet, Statement, Value, Values};
use std::alloc::{AllocError, Global};

/// A member of slices that is a node: a byte and its name.
const BYTES_OF_MEMBER: usize = 33;

/// All but the members: the 44 bytes before them, and a statement with short values.
const BYTES_OF_OTHERS: usize = 112;

/// The one spelling of an envelope, in the format of this host's profile: at most `MAX_BYTES` bytes,
/// which `decode` answers with the same envelope.
///
/// # Errors
///
/// `AllocError` if it is out of memory, and only then.
pub fn encode(alloc: Global, envelope: &Envelope) -> Result<Vec<u8>, AllocError>
    ensures { IfOk result (λ v. Spells v.items envelope.now) }
{
    let mut out = Vec::with_capacity(alloc, likely_bytes(envelope))?;
    out.push(version_of(envelope.slices()))?;
    out.push(StatementKind::of(envelope.body()).byte())?;
    put_name(&mut out, envelope.sender())?;
    put_u64(&mut out, envelope.slot())?;
    put_set(&mut out, envelope.slices().set())?;
    put_statement(&mut out, envelope.body())?;
    Ok(out)
}

/// How many bytes an envelope has that names each member of its slices, and short values.
fn likely_bytes(envelope: &Envelope) -> usize {
    let members = envelope.slices().set().members();
    members
        .len()
        .saturating_mul(BYTES_OF_MEMBER)
        .saturating_add(BYTES_OF_OTHERS)
        .min(MAX_BYTES)
}

/// Adds the name of a node: its 32 bytes.
fn put_name(out: &mut Vec<u8>, node: &NodeId) -> Result<(), AllocError>
    ensures { OnOk result (out.new.items ≡ out.old.items ++ name node.now) }
{
    let (first, second, third, fourth) = node.words();
    put_u64(out, first)?;
    put_u64(out, second)?;
    put_u64(out, third)?;
    put_u64(out, fourth)?;
    Ok(())
}

/// Adds a set of slices: its threshold, the number of its members, and each member behind a byte that says whether it
/// is a node or again a set.
fn put_set(out: &mut Vec<u8>, set: &SliceSet) -> Result<(), AllocError>
    requires outer { HasThreshold set.now.threshold set.now.members }
    requires inner { HaveThresholds set.now.members }
    ensures { OnOk result (out.new.items ≡ out.old.items ++ slices set.now) }
{
    let members = set.members();
    out.push(set.threshold())?;
    out.push(members.len() as u8)?;
    for member in members {
        match member {
            Member::Node(node) => {
                out.push(0)?;
                put_name(out, node)?;
            }
            Member::Set(inner) => {
                out.push(1)?;
                put_set(out, inner)?;
            }
        }
    }
    Ok(())
}

/// Adds the fields of a statement, whose kind stands further in front.
fn put_statement(out: &mut Vec<u8>, statement: &Statement) -> Result<(), AllocError>
    requires { IsWellFormed statement.now }
    ensures { OnOk result (out.new.items ≡ out.old.items ++ body statement.now) }
{
    match statement {
        Statement::Nominate { voted, accepted } => {
            put_nominated(out, voted)?;
            put_nominated(out, accepted)
        }
        Statement::Prepare {
            ballot,
            prepared,
            aborted_counter,
            high_counter,
            commit_counter,
        } => {
            put_ballot(out, ballot)?;
            put_optional(out, prepared)?;
            put_counter(out, *aborted_counter)?;
            put_counter(out, *high_counter)?;
            put_counter(out, *commit_counter)
        }
        Statement::Commit {
            ballot,
            prepared_counter,
            high_counter,
            commit_counter,
        } => {
            put_ballot(out, ballot)?;
            put_counter(out, *prepared_counter)?;
            put_counter(out, *high_counter)?;
            put_counter(out, *commit_counter)
        }
        Statement::Externalize {
            commit,
            high_counter,
        } => {
            put_ballot(out, commit)?;
            put_counter(out, *high_counter)
        }
    }
}

/// Adds one set of a nomination: a count, and as many values.
fn put_nominated(out: &mut Vec<u8>, values: &Values) -> Result<(), AllocError>
    requires { length values.now ≤ most_nominated }
    ensures { OnOk result (out.new.items ≡ out.old.items ++ nominated_values values.now) }
{
    let items = values.as_slice();
    out.push(items.len() as u8)?;
    for item in items {
        put_value(out, item)?;
    }
    Ok(())
}

/// Adds a 0 for no ballot, or a 1 and the ballot.
fn put_optional(out: &mut Vec<u8>, prepared: &Option<Ballot>) -> Result<(), AllocError>
    ensures { OnOk result (out.new.items ≡ out.old.items ++ optional prepared.now) }
{
    match prepared {
        None => {
            out.push(0)?;
            Ok(())
        }
        Some(prepared) => {
            out.push(1)?;
            put_ballot(out, prepared)
        }
    }
}

/// Adds a ballot: its counter in four bytes, and its value.
fn put_ballot(out: &mut Vec<u8>, item: &Ballot) -> Result<(), AllocError>
    ensures { OnOk result (out.new.items ≡ out.old.items ++ ballot item.now) }
{
    put_counter(out, item.counter)?;
    put_value(out, &item.value)
}

/// Adds a value: its length in two bytes, and its bytes.
fn put_value(out: &mut Vec<u8>, item: &Value) -> Result<(), AllocError>
    ensures { OnOk result (out.new.items ≡ out.old.items ++ value item.now) }
{
    let bytes = item.as_bytes();
    put_length(out, bytes.len() as u16)?;
    out.extend_from_slice(bytes)
}

/// Adds a length of 16 bits, the first byte counting most.
fn put_length(out: &mut Vec<u8>, length: u16) -> Result<(), AllocError>
    ensures { OnOk result (out.new.items ≡ out.old.items ++ to_be_bytes w16 length) }
{
    let mut bytes = [0; 2];
    BigEndian::write_u16(&mut bytes, length);
    out.extend_from_slice(&bytes)
}

/// Adds a counter of 32 bits, the first byte counting most.
fn put_counter(out: &mut Vec<u8>, counter: u32) -> Result<(), AllocError>
    ensures { OnOk result (out.new.items ≡ out.old.items ++ to_be_bytes w32 counter) }
{
    let mut bytes = [0; 4];
    BigEndian::write_u32(&mut bytes, counter);
    out.extend_from_slice(&bytes)
}

/// Adds a number of 64 bits, the first byte counting most.
fn put_u64(out: &mut Vec<u8>, number: u64) -> Result<(), AllocError>
    ensures { OnOk result (out.new.items ≡ out.old.items ++ to_be_bytes w64 number) }
{
    let mut bytes = [0; 8];
    BigEndian::write_u64(&mut bytes, number);
    out.extend_from_slice(&bytes)
}
