//! Fields that are read from the front.
//!
//! An error of a function here is the first fault from left to right, or says that it is out of memory.

ghost use Rattle.std.specs.Prelude.{◌≡◌, ◌==◌, length, IfOk};
ghost use Rattle.std.specs.Int.{w16, w32, w64};
ghost use Rattle.scp_codec.specs.Reading.{Gives, Says, IsBytes, byte_at, number_at, bytes_at, name_at, value_at, ballot_at, optional_at};

use crate::error::{CodecError, Fault};
use scp_types::{Ballot, MAX_VALUE_LENGTH, NodeId, Value};
use std::alloc::Global;
use std::marker::Model;

/// Bytes that are read from the front, seen by contracts as those that are left.
///
/// What is read has left the reader. After an error it stands anywhere in the bytes, and is of no more use.
///
/// Each number that is left is a byte: for example, once one byte of 1, 2 and 255 is read, 2 and 255 are left; 256
/// is never left.
#[derive(Drop)]
pub struct Reader<'a> {
    rest: &'a [u8],
}

impl<'a> Model for Reader<'a> {
    ghost use Rattle.std.specs.Prelude.{List, ℕ};

    ghost Value = { List ℕ };

    ghost view = { λ a. a.rest.now };

    ghost use Rattle.scp_codec.specs.Steps.{IsBytes};

    ghost invariant = { λ a. IsBytes a.rest.now };
}

impl<'a> Reader<'a> {
    /// A reader of all of the bytes.
    pub fn new(bytes: &'a [u8]) -> Reader<'a>
        ensures { result ≡ bytes.now }
    {
        Reader { rest: bytes }
    }

    /// Whether nothing is left.
    pub fn is_empty(&self) -> bool
        ensures { result ≡ (length self.now == 0) }
    {
        self.rest.is_empty()
    }

    /// One byte.
    pub fn byte(&mut self) -> Result<u8, Fault>
        ensures read { Says (λ x. (x, self.new)) result (byte_at self.old) }
        ensures bytes { IsBytes self.old }
    {
        match self.rest {
            [] => Err(Fault::Truncated),
            [first, rest @ ..] => {
                self.rest = rest;
                Ok(*first)
            }
        }
    }

    /// The next `count` bytes.
    pub fn bytes(&mut self, count: usize) -> Result<&'a [u8], Fault>
        ensures read { Says (λ x. (x.now, self.new)) result (bytes_at count self.old) }
        ensures count { IfOk result (λ x. length x.now ≡ count) }
    {
        if self.rest.len() < count {
            return Err(Fault::Truncated);
        }
        let (front, rest) = self.rest.split_at(count);
        self.rest = rest;
        Ok(front)
    }

    /// A number of 16 bits.
    pub fn u16(&mut self) -> Result<u16, Fault>
        ensures { Says (λ x. (x, self.new)) result (number_at w16 self.old) }
    {
        let front = self.bytes(2)?;
        Ok(u16::from_be_bytes([front[0], front[1]]))
    }

    /// A number of 32 bits.
    pub fn u32(&mut self) -> Result<u32, Fault>
        ensures { Says (λ x. (x, self.new)) result (number_at w32 self.old) }
    {
        let front = self.bytes(4)?;
        Ok(u32::from_be_bytes([front[0], front[1], front[2], front[3]]))
    }

    /// A number of 64 bits.
    pub fn u64(&mut self) -> Result<u64, Fault>
        ensures { Says (λ x. (x, self.new)) result (number_at w64 self.old) }
    {
        let front = self.bytes(8)?;
        Ok(u64::from_be_bytes([
            front[0], front[1], front[2], front[3], front[4], front[5], front[6], front[7],
        ]))
    }

    /// The name of a node: four words of 64 bits.
    #[tactic(auto, unfolding(crate::specs::Reading::name_at))]
    pub fn name(&mut self) -> Result<NodeId, Fault>
        ensures { Says (λ x. (x, self.new)) result (name_at self.old) }
    {
        let first = self.u64()?;
        let second = self.u64()?;
        let third = self.u64()?;
        let fourth = self.u64()?;
        Ok(NodeId::from_words(first, second, third, fourth))
    }

    /// A value: its length in two bytes, and its bytes.
    #[tactic(auto, unfolding(crate::specs::Reading::value_at))]
    pub fn value(&mut self, alloc: Global) -> Result<Value, CodecError>
        ensures { Gives (λ x. (x, self.new)) result (value_at self.old) }
    {
        let length = self.u16()? as usize;
        if length == 0 || length > MAX_VALUE_LENGTH {
            return Err(CodecError::Fault(Fault::Limit));
        }
        let bytes = self.bytes(length)?;
        Ok(Value::of(alloc, bytes)?)
    }

    /// A ballot: its counter in four bytes, and its value.
    #[tactic(auto, unfolding(crate::specs::Reading::ballot_at))]
    pub fn ballot(&mut self, alloc: Global) -> Result<Ballot, CodecError>
        ensures { Gives (λ x. (x, self.new)) result (ballot_at self.old) }
    {
        let counter = self.u32()?;
        let value = self.value(alloc)?;
        Ok(Ballot { counter, value })
    }

    /// A 0 for no ballot, or a 1 and a ballot.
    #[tactic(auto, unfolding(crate::specs::Reading::optional_at))]
    pub fn optional_ballot(&mut self, alloc: Global) -> Result<Option<Ballot>, CodecError>
        ensures { Gives (λ x. (x, self.new)) result (optional_at self.old) }
    {
        match self.byte()? {
            0 => Ok(None),
            1 => Ok(Some(self.ballot(alloc)?)),
            _ => Err(CodecError::Fault(Fault::BadStatement)),
        }
    }
}
