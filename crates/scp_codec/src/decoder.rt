//! Envelopes that are read from bytes.

ghost use Rattle.std.specs.Prelude.{◌≡◌, ◌<◌, ◌≤◌, ℕ, List, length, IfOk, IfErr, Ok, Err, Some, None};
ghost use Rattle.scp_codec.specs.Reading.{Gives, Says, IsBytes, version_at, parts_at, envelope_at, decoding};
ghost use Rattle.scp_codec.specs.Spelling.{most_bytes, Spells, HasOneSpelling};
ghost use Rattle.scp_codec.specs.Answers.{Refuses};
ghost use Rattle.scp_codec.specs.Kinds.{kind_number};
ghost use Rattle.scp_codec.specs.Grammar.{IsFault, HasOneAnswer};
ghost use Rattle.scp_codec.specs.declared.error.CodecError.TheVariants as errors;
ghost use Rattle.scp_codec.specs.declared.error.Fault.{Fault};
ghost use Rattle.scp_codec.specs.declared.error.Fault.TheVariants.{Version, Kind, Limit, BadStatement};
ghost use Rattle.scp_codec.specs.Faults.{statement_fault, HasOtherVersion, HasOtherKind};
ghost use Rattle.scp_types.specs.Statements.{Sent, IsEnvelope};

use crate::encoder::encode;
use crate::error::{CodecError, Fault};
use crate::reader::Reader;
use crate::statements::{StatementKind, read_kind, read_statement};
use crate::trees::read_slices;
use crate::versions::{FIRST_VERSION, SECOND_VERSION};
use scp_types::{Envelope, Nested, NodeId, Statement};
use std::alloc::Global;

/// The most bytes that are read as an envelope (this host's profile). Every envelope's spelling is
/// shorter.
pub const MAX_BYTES: usize = 65536;

/// The envelope that the bytes spell, all of the bytes.
///
/// The format is that of this host's profile: version 1 or 2, the kind of statement, the sender, the slot, the slices
/// and the fields of the statement, all numbers big-endian. An envelope comes back only if it keeps every rule of
/// slices and statements. A name costs a binary search among the names before it, of which at most 256 are read, and a
/// move of those that are greater.
///
/// # Errors
///
/// `CodecError::Fault` with the first fault from left to right, a length above `MAX_BYTES` before all;
/// `CodecError::NoMemory` if it is out of memory. The length, the version and the kind are judged before memory is
/// asked for.
pub fn decode(alloc: Global, bytes: &[u8]) -> Result<Envelope, CodecError>
    // The envelope that is answered is the one that the bytes spell.
    ensures found { IfOk result (Spells bytes.now) }
    // The envelope that they spell is answered, unless it is out of memory.
    ensures only { (e : Sent) → Spells bytes.now e → Gives (λ v. v) result (Ok e) }
    // A refusal names a fault that the text has.
    ensures fault { IfErr result (Refuses bytes.now) }
    // A text that has a fault is refused by it, unless it is out of memory: so no text has two.
    ensures named { (f : Fault) → IsFault bytes.now f → Gives (λ v. v) result (Err f) }
    // A text that is too long is refused so whatever memory there is.
    ensures too_long { most_bytes < length bytes.now → result ≡ Err (errors.Fault Limit) }
    // So is one whose first byte is neither 1 nor 2.
    ensures version { length bytes.now ≤ most_bytes → HasOtherVersion bytes.now → result ≡ Err (errors.Fault Version) }
    // So is one whose second byte is not 1 to 4.
    ensures kind { length bytes.now ≤ most_bytes → HasOtherKind bytes.now → result ≡ Err (errors.Fault Kind) }
{
    read_text(alloc, bytes)
}

/// The envelope that the spelling of `envelope` is decoded to: the same one, since it is the one that
/// the bytes spell.
///
/// # Errors
///
/// `CodecError::NoMemory`, and nothing else.
pub fn round_trip(alloc: Global, envelope: &Envelope) -> Result<Envelope, CodecError>
    ensures same { IfOk result (λ e. e ≡ envelope.now) }
    ensures memory { IfErr result (λ e. e ≡ errors.NoMemory) }
{
    let bytes = encode(alloc, envelope)?;
    decode(alloc, &bytes)
}

/// Each envelope has exactly one spelling, of at most `MAX_BYTES` bytes, and it is the spelling of no
/// other envelope: with what `decode` promises, an envelope's spelling decodes to it.
pub fn one_spelling()
    ensures { (e : Sent) → IsEnvelope e → HasOneSpelling e }
{}

/// Each text is either the spelling of exactly one envelope or has exactly one fault. So the faults leave no choice of
/// an answer, and only being out of memory can keep `decode` from it.
pub fn one_answer()
    ensures { (text : List ℕ) → IsBytes text → HasOneAnswer text }
{}

/// The envelope that the text spells, all of it and nothing more.
#[tactic(auto, unfolding(crate::specs::Reading::decoding))]
fn read_text(alloc: Global, bytes: &[u8]) -> Result<Envelope, CodecError>
    ensures read { Gives (λ e. e) result (decoding bytes.now) }
    ensures too_long { most_bytes < length bytes.now → result ≡ Err (errors.Fault Limit) }
    ensures version { length bytes.now ≤ most_bytes → HasOtherVersion bytes.now → result ≡ Err (errors.Fault Version) }
    ensures kind { length bytes.now ≤ most_bytes → HasOtherKind bytes.now → result ≡ Err (errors.Fault Kind) }
{
    if bytes.len() > MAX_BYTES {
        return Err(CodecError::Fault(Fault::Limit));
    }
    let mut reader = Reader::new(bytes);
    let envelope = read_envelope(alloc, &mut reader)?;
    if !reader.is_empty() {
        drop(envelope);
        return Err(CodecError::Fault(Fault::TrailingBytes));
    }
    Ok(envelope)
}

/// An envelope, from its version on.
#[tactic(auto, unfolding(crate::specs::Reading::envelope_at), using(crate::proofs::EnvelopeLaws::other_version, crate::proofs::EnvelopeLaws::other_kind, crate::proofs::EnvelopeLaws::no_version_fault))]
fn read_envelope(alloc: Global, reader: &mut Reader) -> Result<Envelope, CodecError>
    ensures read { Gives (λ x. (x, reader.new)) result (envelope_at reader.old) }
    ensures version { HasOtherVersion reader.old → result ≡ Err (errors.Fault Version) }
    ensures kind { HasOtherKind reader.old → result ≡ Err (errors.Fault Kind) }
{
    let version = read_version(reader)?;
    let kind = read_kind(reader)?;
    read_parts(alloc, reader, version, kind)
}

/// The envelope whose version and kind have been read.
#[tactic(auto, unfolding(crate::specs::Reading::parts_at, crate::specs::Reading::statement_at))]
fn read_parts(
    alloc: Global,
    reader: &mut Reader,
    version: u8,
    kind: StatementKind,
) -> Result<Envelope, CodecError>
    ensures { Gives (λ e. ((e.sender, (e.slot, (e.slices, e.body))), reader.new)) result (parts_at version (kind_number kind) reader.old) }
{
    let sender = reader.name()?;
    let slot = reader.u64()?;
    let slices = read_slices(alloc, reader, version)?;
    let body = read_statement(alloc, reader, kind)?;
    Ok(envelope_of(sender, slot, slices, body)?)
}

/// The envelope of these parts, if its statement keeps the rules of its kind.
#[tactic(auto, using(crate::proofs::BodyLaws::well_formed_stands, crate::proofs::BodyLaws::ill_formed_falls))]
fn envelope_of(
    sender: NodeId,
    slot: u64,
    slices: Nested,
    body: Statement,
) -> Result<Envelope, Fault>
    ensures ok { IfOk result (λ e. (statement_fault body ≡ None) × (e ≡ record { sender = sender; slot = slot; slices = slices; body = body })) }
    ensures err { IfErr result (λ e. (statement_fault body ≡ Some BadStatement) × (e ≡ BadStatement)) }
{
    Envelope::new(sender, slot, slices, body).ok_or(Fault::BadStatement)
}

/// The version of the format, one of the two that are read.
#[tactic(auto, unfolding(crate::specs::Reading::version_at))]
fn read_version(reader: &mut Reader) -> Result<u8, Fault>
    ensures { Says (λ x. (x, reader.new)) result (version_at reader.old) }
{
    let version = reader.byte()?;
    if version != FIRST_VERSION && version != SECOND_VERSION {
        return Err(Fault::Version);
    }
    Ok(version)
}
