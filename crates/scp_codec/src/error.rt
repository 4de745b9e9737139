//! Why bytes are no envelope.

ghost use Rattle.std.specs.Prelude.{◌≡◌};
ghost use Rattle.scp_codec.specs.Answers.{fault_number, error_number};
ghost use Rattle.scp_codec.specs.declared.error.CodecError.TheVariants.{NoMemory};

use std::alloc::{AllocError, AllocFailed};
use thiserror::Error;

/// What is wrong with bytes that are no envelope: the first fault from left to right. The faults and
/// their numbers are those of this host's profile.
#[derive(Clone, Copy, Debug, PartialEq, Eq, Error)]
pub enum Fault {
    /// The bytes end inside a field.
    #[error("the bytes end inside an envelope")]
    Truncated,
    /// An envelope is there, and bytes follow it.
    #[error("there are bytes after the envelope")]
    TrailingBytes,
    /// The first byte is neither 1 nor 2.
    #[error("the version is neither 1 nor 2")]
    Version,
    /// The second byte is not 1 to 4.
    #[error("the kind of statement is not 1 to 4")]
    Kind,
    /// There are more than 65,536 bytes. Or a set has more than 64 members, or the slices have more than 256 names.
    /// Or a value has no byte or more than 256, or a set of a nomination has more than 16 values.
    #[error("something is longer than its limit")]
    Limit,
    /// A threshold is 0 or above the count of members, or a member is neither a name nor a set. Or an inner set stands
    /// deeper than the version has levels, or a name stands twice.
    #[error("the slices break a rule")]
    BadSlices,
    /// The statement breaks a rule of its kind, or the byte before the prepared ballot of a PREPARE is neither 0 nor 1.
    #[error("the statement breaks a rule of its kind")]
    BadStatement,
    /// The version is 2, and the slices have no more levels of inner sets than version 1 spells.
    #[error("the slices are spelled in version 1")]
    SpareVersion,
}

impl Fault {
    /// The number by which the fault is known, 1 to 7 or 9.
    pub fn number(&self) -> u8
        ensures { result ≡ fault_number self.now }
    {
        match self {
            Fault::Truncated => 1,
            Fault::TrailingBytes => 2,
            Fault::Version => 3,
            Fault::Kind => 4,
            Fault::Limit => 5,
            Fault::BadSlices => 6,
            Fault::BadStatement => 7,
            Fault::SpareVersion => 9,
        }
    }
}

/// Why bytes were not decoded.
#[derive(Clone, Copy, Debug, PartialEq, Eq, Error)]
pub enum CodecError {
    /// The bytes are no envelope.
    #[error("{0}")]
    Fault(Fault),
    /// It is out of memory. It says nothing of the bytes.
    #[error("memory is wanting")]
    NoMemory,
}

impl CodecError {
    /// The number by which the error is known: that of the fault, or 8 if it is out of memory.
    pub fn number(&self) -> u8
        ensures { result ≡ error_number self.now }
    {
        match self {
            CodecError::Fault(fault) => fault.number(),
            CodecError::NoMemory => 8,
        }
    }
}

impl From<Fault> for CodecError {
    ghost use Rattle.scp_codec.specs.declared.error.CodecError.TheVariants as errors;

    ghost from_gives = { λ fault e. e ≡ errors.Fault fault };

    fn from(fault: Fault) -> CodecError {
        CodecError::Fault(fault)
    }
}

impl From<AllocError> for CodecError {
    ghost from_gives = { λ _ e. e ≡ NoMemory };

    fn from(_error: AllocError) -> CodecError {
        CodecError::NoMemory
    }
}

impl<T: Drop> From<AllocFailed<T>> for CodecError {
    ghost from_gives = { λ _ e. e ≡ NoMemory };

    fn from(_error: AllocFailed<T>) -> CodecError {
        CodecError::NoMemory
    }
}
