//! What bytes say, as a network reads them.

ghost use Rattle.std.specs.Prelude.{◌≡◌, IfErr, IfOk, length};
ghost use Rattle.host_network.specs.Decoding.{ReadingsAreExact, reading, said_by};
ghost use Rattle.host_network.specs.Standing.{MayTakeMemory};
ghost use Rattle.scp_spec.specs.Submissions.{HasOneLength};

use scp_codec::{CodecError, decode};
use scp_types::Envelope;
use std::alloc::{AllocError, Global};

/// What bytes say.
#[derive(Drop)]
pub enum Reading {
    /// An envelope.
    Says(Envelope),
    /// They are no envelope, with the number of their fault.
    Faulty(u8),
}

/// What the bytes say. An error says that it is out of memory. Bytes that are too many, or have a fault in the version
/// or in the kind, never come to it.
pub fn read(alloc: Global, bytes: &[u8]) -> Result<Reading, AllocError>
    ensures said { IfOk result (λ r. said_by r ≡ reading bytes.now) }
    ensures memory { IfErr result (λ _. MayTakeMemory (length bytes.now) (reading bytes.now)) }
{
    match decode(alloc, bytes) {
        Ok(envelope) => Ok(Reading::Says(envelope)),
        Err(error) => match error {
            CodecError::NoMemory => Err(AllocError),
            CodecError::Fault(fault) => Ok(Reading::Faulty(fault.number())),
        },
    }
}

/// A law: bytes are read as an envelope exactly if they are its spelling, and as a number of a fault exactly if they
/// have that fault. So what a network reads is what the grammar of envelopes says, without a choice.
pub fn readings_are_exact()
    ensures { ReadingsAreExact }
{}

/// A law: all bytes that are read as one envelope have one length. So an envelope that was delivered tells the length
/// of its delivery, and to compare envelopes is to compare lengths too.
#[tactic(auto, using(crate::proofs::Readings::has_one_length))]
pub fn envelopes_have_one_length()
    ensures { HasOneLength reading }
{}
