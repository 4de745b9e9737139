//! Writing a line behind what a journal has.

use std::fs::File;
use std::io::Write;

/// Writes a line and its line feed behind what a journal has, and answers whether they stand there. If not, a beginning
/// of them may.
pub fn append_line(file: &mut File, line: &[u8]) -> bool {
    file.write_all(line).is_ok() && file.write_all(b"\n").is_ok()
}
