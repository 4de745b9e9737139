//! Opening the file of a journal.

ghost use Rattle.std.specs.Prelude.{◌≢◌, IfErr};

use crate::fault::JournalFault;
use std::fs::{File, Files, OpenOptions, TryLockError};
use std::path::Path;

/// Opens the file of this name, or makes it, for reading and for writing behind its end, and locks it. Then it brings
/// the file and its name to the disk, since whoever made the file may have been stopped before that.
///
/// It is refused if it cannot be opened, made or locked, or is no regular file ([`JournalFault::CannotRead`]). It is
/// also refused if another process has it ([`JournalFault::InUse`]), or if it or its name cannot be brought to the disk
/// ([`JournalFault::CannotWrite`]).
pub fn open_journal<R: Files<File = File>>(rt: &R, name: &str) -> Result<File, JournalFault>
    ensures { IfErr result (λ why. (n : _) → why ≢ JournalFault.BadLine n) }
{
    let file = open_file(rt, name)?;
    match file.metadata() {
        Ok(metadata) if metadata.is_file() => {}
        _ => return Err(JournalFault::CannotRead),
    }
    match file.try_lock() {
        Ok(()) => {}
        Err(TryLockError::WouldBlock) => return Err(JournalFault::InUse),
        Err(TryLockError::Error(_)) => return Err(JournalFault::CannotRead),
    }
    if file.sync_all().is_ok() && sync_folder(rt, name) {
        Ok(file)
    } else {
        Err(JournalFault::CannotWrite)
    }
}

/// Opens or makes the file of this name. If a standard stream is closed the system gives its number to the file, which
/// would then get what is meant for the stream. A copy has another number.
fn open_file<R: Files<File = File>>(rt: &R, name: &str) -> Result<File, JournalFault>
    ensures { IfErr result (λ why. (n : _) → why ≢ JournalFault.BadLine n) }
{
    let opened = OpenOptions::new()
        .read(true)
        .append(true)
        .create(true)
        .open(rt, name);
    match opened {
        Ok(file) => match file.try_clone() {
            Ok(copy) => Ok(copy),
            Err(_) => Err(JournalFault::CannotRead),
        },
        Err(_) => Err(JournalFault::CannotRead),
    }
}

/// Brings the name of a file to the disk, and answers whether it is there.
fn sync_folder<R: Files<File = File>>(rt: &R, name: &str) -> bool {
    let folder = match Path::new(name).parent() {
        Some(folder) => folder.as_str(),
        None => "",
    };
    let folder = if folder.is_empty() { "." } else { folder };
    match File::open(rt, folder) {
        Ok(folder) => folder.sync_all().is_ok(),
        Err(_) => false,
    }
}
