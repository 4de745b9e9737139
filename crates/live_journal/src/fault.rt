//! What is wrong with a journal.

ghost use Rattle.std.specs.Prelude.{◌≡◌};
ghost use Rattle.live_journal.specs.Faults.{fault_of_stop};

use line_script::Stop;

/// Why a live host does not start from a journal.
#[derive(Clone, Copy, Debug, PartialEq, Eq)]
pub enum JournalFault {
    /// The file cannot be opened, made, locked or read, it is no regular file, or it has more than 2^64 - 1 lines or
    /// bytes.
    CannotRead,
    /// Another process has the file.
    InUse,
    /// The line with this number is no line of a journal. The file is as it was.
    BadLine(usize),
    /// The file or its name cannot be brought to the disk, or the file not cut to its end.
    CannotWrite,
    /// What lines were answered cannot be written.
    CannotTell,
    /// It was out of memory.
    NoMemory,
}

impl From<Stop> for JournalFault {
    ghost from_gives = { λ stop fault. fault ≡ fault_of_stop stop };

    fn from(stop: Stop) -> JournalFault {
        match stop {
            Stop::CannotRead | Stop::TooLong => JournalFault::CannotRead,
            Stop::BadLine(number) => JournalFault::BadLine(number),
            Stop::NoMemory => JournalFault::NoMemory,
            Stop::CannotWrite => JournalFault::CannotTell,
        }
    }
}
