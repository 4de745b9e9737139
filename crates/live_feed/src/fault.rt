//! What ends a live host early.

ghost use Rattle.std.specs.Prelude.{◌≡◌};
ghost use Rattle.live_feed.specs.declared.fault.Fault.TheVariants.{NoMemory};
ghost use Rattle.live_feed.specs.Faults.{fault_of_read};

use line_script::ReadError;
use std::alloc::AllocError;

/// What ends a live host early.
#[derive(Clone, Copy, Debug, PartialEq, Eq)]
pub enum Fault {
    /// The input could not be read.
    CannotRead,
    /// No number below 2^64 is left for a line.
    TooLong,
    /// It was out of memory.
    NoMemory,
    /// A line could not be written to the journal. The lines before it stand there.
    NotAppended,
    /// What was written could not be brought to the disk.
    NotSynced,
    /// What lines were answered could not be written.
    CannotWrite,
}

impl From<AllocError> for Fault {
    ghost from_gives = { λ _ fault. fault ≡ NoMemory };

    fn from(_error: AllocError) -> Fault {
        Fault::NoMemory
    }
}

impl From<ReadError> for Fault {
    ghost from_gives = { λ error fault. fault ≡ fault_of_read error };

    fn from(error: ReadError) -> Fault {
        match error {
            ReadError::CannotRead => Fault::CannotRead,
            ReadError::TooLong => Fault::TooLong,
            ReadError::NoMemory => Fault::NoMemory,
        }
    }
}
