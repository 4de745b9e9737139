//! A reader, a writer and a runner of lines that fail when they are told to.

use line_script::{LineError, LineRunner};
use std::alloc::Global;
use std::io;
use std::io::{ErrorKind, Read, Write};

/// Gives its bytes a few at a time, and fails at one of its calls.
#[derive(Drop)]
pub struct FakeReader<'a> {
    bytes: &'a [u8],
    at_most: usize,
    calls: u32,
    fails_at: u32,
}

impl<'a> FakeReader<'a> {
    /// Gives at most `at_most` bytes a call, and fails at call number `fails_at`, or never at 0.
    pub fn new(bytes: &'a [u8], at_most: usize, fails_at: u32) -> FakeReader<'a> {
        FakeReader {
            bytes,
            at_most,
            calls: 0,
            fails_at,
        }
    }
}

impl Read for FakeReader<'_> {
    fn read(&mut self, buf: &mut [u8]) -> io::Result<usize> {
        self.calls = self.calls.saturating_add(1);
        if self.calls == self.fails_at {
            return Err(io::Error::from(ErrorKind::Other));
        }
        let count = buf.len().min(self.at_most).min(self.bytes.len());
        buf[..count].copy_from_slice(&self.bytes[..count]);
        self.bytes = &self.bytes[count..];
        Ok(count)
    }
}

/// Keeps what is written, takes it a few bytes at a time, and fails at one of its calls.
#[derive(Drop)]
pub struct FakeWriter {
    /// What was written.
    pub written: Vec<u8>,
    /// How many calls of `write` and `flush` there were.
    pub calls: u32,
    /// Whether there was a call after the one that failed.
    pub called_after_failure: bool,
    at_most: usize,
    fails_at: u32,
}

impl FakeWriter {
    /// Takes at most `at_most` bytes a call, and fails at call number `fails_at`, or never at 0.
    pub fn new(alloc: Global, at_most: usize, fails_at: u32) -> FakeWriter {
        FakeWriter {
            written: Vec::new(alloc),
            calls: 0,
            called_after_failure: false,
            at_most,
            fails_at,
        }
    }

    /// Counts a call, and fails if it is the one that is to fail.
    fn count_call(&mut self) -> io::Result<()> {
        self.calls = self.calls.saturating_add(1);
        if self.fails_at != 0 && self.calls > self.fails_at {
            self.called_after_failure = true;
        }
        if self.calls == self.fails_at {
            return Err(io::Error::from(ErrorKind::Other));
        }
        Ok(())
    }
}

impl Write for FakeWriter {
    fn write(&mut self, buf: &[u8]) -> io::Result<usize> {
        self.count_call()?;
        let count = buf.len().min(self.at_most);
        self.written.extend_from_slice(&buf[..count])?;
        Ok(count)
    }

    fn flush(&mut self) -> io::Result<()> {
        self.count_call()
    }
}

/// Prints the last field of a line, but nothing if that is `quiet`. It calls no line bad.
#[derive(Drop)]
pub struct LastField {}

impl LineRunner for LastField {
    ghost tells = { λ s fields printed t. Unit {0} };

    ghost refuses = { λ s fields. ⊥ };

    ghost untold = { λ s t fields printed bad told. bad };

    fn line(&mut self, alloc: Global, fields: &[&[u8]]) -> Result<Option<String>, LineError> {
        let Some(last) = fields.last() else {
            return Ok(None);
        };
        match *last {
            b"quiet" => Ok(None),
            text => Ok(Some(String::from_utf8_lossy(alloc, text)?)),
        }
    }
}
