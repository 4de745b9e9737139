//! Names of nodes.

ghost use Rattle.std.specs.Prelude.{◌≡◌, ◌≤◌, ◌++◌, ◌-◌, ◌+◌, OnOk, length, take, drop, string_bytes, option_map, replicate};
ghost use Rattle.std.specs.Int.{w64, from_be_bytes};
ghost use Rattle.line_script.specs.Names.{bytes_of_name, name_of_bytes, short, text_of_bytes, text_of_name, digits_bytes, name_with_zeros, word_bytes, word_name, NamesReadBack};

use crate::hexadecimal::{is_lower_hex, push_hex, push_plain};
use crate::splitting::is_plain;
use scp_types::NodeId;
use std::alloc::AllocError;

/// The name that a word spells. One to 32 ASCII letters or digits stand for those bytes with zero bytes after them, and
/// 64 lower-case hexadecimal digits for any 32 bytes. `None` for any other word.
pub fn name_of(word: &[u8]) -> Option<NodeId>
    ensures { result ≡ word_name word.now }
{
    let bytes = bytes_of_word(word)?;
    Some(name_in(&bytes))
}

/// The bytes of the name that a word spells.
fn bytes_of_word(word: &[u8]) -> Option<[u8; 32]>
    ensures { result ≡ word_bytes word.now }
{
    if word.len() == 64 {
        return bytes_of_digits(word);
    }
    if word.is_empty() || word.len() > 32 || !is_plain(word) {
        return None;
    }
    Some(with_zeros(word))
}

/// The bytes that 64 lower-case hexadecimal digits spell.
fn bytes_of_digits(digits: &[u8]) -> Option<[u8; 32]>
    requires { length digits.now ≡ 64 }
    ensures { result ≡ digits_bytes digits.now }
{
    if !is_lower_hex(digits) {
        return None;
    }
    let mut bytes = [0u8; 32];
    match hex::decode_to_slice(digits, &mut bytes) {
        Ok(()) => Some(bytes),
        Err(_) => None,
    }
}

/// The bytes, and zero bytes after them.
fn with_zeros(front: &[u8]) -> [u8; 32]
    requires { length front.now ≤ 32 }
    ensures { result ≡ name_with_zeros front.now }
{
    let mut bytes = [0u8; 32];
    bytes[..front.len()].copy_from_slice(front);
    bytes
}

#[tactic(auto, unfolding(crate::specs::Names::name_of_bytes))]
fn name_in(bytes: &[u8; 32]) -> NodeId
    ensures { result ≡ name_of_bytes bytes.now }
{
    let first = word_at(bytes, 0);
    let second = word_at(bytes, 8);
    let third = word_at(bytes, 16);
    let fourth = word_at(bytes, 24);
    NodeId::from_words(first, second, third, fourth)
}

/// The number of the eight bytes from a place on.
fn word_at(bytes: &[u8; 32], from: usize) -> u64
    requires { from ≤ 24 }
    ensures { result ≡ from_be_bytes w64 (take 8 (drop from bytes.now)) }
{
    let mut word = [0u8; 8];
    word.copy_from_slice(&bytes[from..from + 8]);
    u64::from_be_bytes(word)
}

/// Adds the name: in the short form if it has one, else in hexadecimal. If it is out of memory, a part may have been
/// added.
pub fn push_name(text: &mut String, name: &NodeId) -> Result<(), AllocError>
    ensures { OnOk result (string_bytes text.new ≡ string_bytes text.old ++ text_of_name name.now) }
{
    push_bytes(text, &bytes_in(name))
}

/// Adds the bytes of a name: those before the last zero bytes if there are any and these are letters and digits, else
/// all of them in hexadecimal.
fn push_bytes(text: &mut String, bytes: &[u8; 32]) -> Result<(), AllocError>
    ensures { OnOk result (string_bytes text.new ≡ string_bytes text.old ++ text_of_bytes bytes.now) }
{
    let front = without_zeros(bytes);
    if !front.is_empty() && is_plain(front) {
        push_plain(text, front)
    } else {
        push_hex(text, bytes)
    }
}

/// The bytes before the zero bytes at the end.
#[tactic(auto, using(crate::proofs::NameLaws::short_front, crate::proofs::NameLaws::short_all))]
fn without_zeros(bytes: &[u8]) -> &[u8]
    ensures { result.now ≡ short bytes.now }
{
    let mut front = bytes;
    while let [rest @ .., 0] = front {
        front = rest;
    }
    front
}

fn bytes_in(name: &NodeId) -> [u8; 32]
    ensures { result ≡ bytes_of_name name.now }
{
    let (first, second, third, fourth) = name.words();
    let mut bytes = [0u8; 32];
    bytes[..8].copy_from_slice(&first.to_be_bytes());
    bytes[8..16].copy_from_slice(&second.to_be_bytes());
    bytes[16..24].copy_from_slice(&third.to_be_bytes());
    bytes[24..].copy_from_slice(&fourth.to_be_bytes());
    bytes
}

/// A law: a name is read back from the word that it is printed as.
#[tactic(auto, using(crate::proofs::NamesRead::names_read_back))]
pub fn names_read_back()
    ensures { NamesReadBack }
{}
