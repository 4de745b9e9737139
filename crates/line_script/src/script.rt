//! The lines of a script, and the fields of a line.
//!
//! A script is ASCII. Lines end with one line feed, which the last may lack; fields are separated
//! by one space; empty lines and comments, which begin with `#`, are skipped.

ghost use Rattle.std.specs.Prelude.{◌≡◌, ◌==◌, ◌<◌, ◌∷◌, ◌↔◌, map, length, position, Ok, Err, None, IfOk, IfSome};
ghost use Rattle.std.specs.List.{list_all, slice_split};
ghost use Rattle.line_script.specs.Script.{lines_of, AreFields, IsSkipped, IsBad};
ghost use Rattle.line_script.specs.Script.{is_ascii as ascii_test, is_no_record as no_record_test, is_field as field_test};

use crate::input::LONGEST_SCRIPT;
use std::alloc::{AllocError, Global};
use std::marker::Model;
use thiserror::Error;

/// One line of a script.
#[derive(Clone, Copy)]
pub struct Line<'a> {
    /// Its number, counted from 1 over all lines.
    pub number: usize,
    /// Its bytes, without the line feed that ends it.
    pub bytes: &'a [u8],
}

/// The lines of a script that are left, in order.
///
/// Numbers of lines do not overflow: with three bytes left from line 5 on, there is none past line 7.
#[derive(Drop)]
pub struct Lines<'a> {
    rest: &'a [u8],
    number: usize,
}

impl<'a> Model for Lines<'a> {
    ghost use Rattle.std.specs.Prelude.{◌+◌, ◌<◌, ◌^◌, ℕ, length};
    ghost use Rattle.line_script.specs.Script.{Bytes};

    ghost Value = { ℕ × Bytes };

    ghost view = { λ lines. (lines.number, lines.rest.now) };

    ghost invariant = { λ lines. lines.number + length lines.rest.now < 2 ^ 64 };
}

impl<'a> Lines<'a> {
    ghost use Rattle.std.specs.Prelude.{◌≡◌, ◌≤◌, List, length};
    ghost use Rattle.std.specs.List.{enumerate_from};
    ghost use Rattle.line_script.specs.Script.{AreLines, Bytes, numbered_lines};

    /// The lines of `text`, numbered from 1.
    pub fn new(text: &'a [u8]) -> Lines<'a>
        requires { length text.now ≤ LONGEST_SCRIPT }
        ensures { (lines : List Bytes) × AreLines text.entry.now lines
            × (numbered_lines result ≡ enumerate_from 1 lines) }
    {
        Lines {
            rest: text,
            number: 1,
        }
    }
}

impl<'a> Iterator for Lines<'a> {
    ghost use Rattle.std.specs.Iterator.{YieldsFirstBy, item_count};
    ghost use Rattle.line_script.specs.Script.{numbered_lines};

    type Item = Line<'a>;

    ghost next_gives = { YieldsFirstBy (λ line. (line.number, line.bytes.now)) numbered_lines };

    ghost remaining = { item_count numbered_lines };

    fn next(&mut self) -> Option<Line<'a>> {
        if self.rest.is_empty() {
            return None;
        }
        let number = self.number;
        let (bytes, rest) = first_line(self.rest);
        self.rest = rest;
        self.number = number + 1;
        Some(Line { number, bytes })
    }
}

/// The first line of a text, and what follows the line feed that ends it.
#[tactic(auto, using(crate::proofs::ScriptLemmas::line_before_feed, crate::proofs::ScriptLemmas::line_without_feed))]
pub(crate) fn first_line(text: &[u8]) -> (&[u8], &[u8])
    requires { 0 < length text.now }
    ensures cut { lines_of text.now ≡ result.0.now ∷ lines_of result.1.now }
    ensures shorter { length result.1.now < length text.now }
{
    match feed_in(text) {
        Some(end) => (&text[..end], &text[end + 1..]),
        None => (text, &[]),
    }
}

/// The place of the first line feed.
fn feed_in(text: &[u8]) -> Option<usize>
    ensures { result ≡ position (λ byte. byte == 10) text.now }
{
    text.iter().position(|byte| *byte == b'\n')
}

/// Why a line is not run.
#[derive(Clone, Copy, Debug, PartialEq, Eq, Error)]
pub enum LineError {
    /// The line is none that is described.
    #[error("bad line")]
    Bad,
    /// There was no memory to run it, or to say what it prints. Nothing is run after it.
    #[error("no memory")]
    NoMemory,
}

impl From<AllocError> for LineError {
    ghost use Rattle.std.specs.Prelude.{◌≡◌};
    ghost use Rattle.line_script.specs.declared.script.LineError.TheVariants.{NoMemory};

    ghost from_gives = { λ _ error. error ≡ NoMemory };

    fn from(_error: AllocError) -> LineError {
        LineError::NoMemory
    }
}

/// The fields of a line, or `None` if it is skipped: it is empty or a comment.
#[tactic(auto, using(crate::proofs::ScriptLemmas::not_ascii_is_bad, crate::proofs::ScriptLemmas::no_fields_is_bad, crate::proofs::ScriptLemmas::split_are_fields))]
pub fn fields_of<'a>(alloc: Global, line: &'a [u8]) -> Result<Option<Vec<&'a [u8]>>, LineError>
    ensures skipped { (result ≡ Ok None) ↔ IsSkipped line.now }
    ensures fields { IfOk result (λ found. IfSome found (λ fields.
        AreFields line.now (map (λ field. field.now) fields.items))) }
    ensures bad { result ≡ Err LineError.Bad → IsBad line.now }
{
    if is_no_record(line) {
        return if is_ascii(line) {
            Ok(None)
        } else {
            Err(LineError::Bad)
        };
    }
    match cut_at_spaces(alloc, line) {
        Ok(fields) if are_fields(fields.as_slice()) => Ok(Some(fields)),
        Ok(_) => Err(LineError::Bad),
        Err(_) => Err(LineError::NoMemory),
    }
}

fn is_ascii(line: &[u8]) -> bool
    ensures { result ≡ ascii_test line.now }
{
    line.iter().all(|byte| *byte < 128)
}

/// The line is empty or begins with `#`.
fn is_no_record(line: &[u8]) -> bool
    ensures { result ≡ no_record_test line.now }
{
    matches!(line, [] | [b'#', ..])
}

fn cut_at_spaces<'a>(alloc: Global, line: &'a [u8]) -> Result<Vec<&'a [u8]>, AllocError>
    ensures { IfOk result (λ parts.
        map (λ part. part.now) parts.items ≡ slice_split (λ byte. byte == 32) line.now) }
{
    line.split(|byte| *byte == b' ').collect(alloc)
}

fn are_fields(parts: &[&[u8]]) -> bool
    ensures { result ≡ list_all field_test (map (λ part. part.now) parts.now) }
{
    parts.iter().all(|part| is_field(part))
}

/// Whether there are bytes, and each is a printable character other than the space.
fn is_field(bytes: &[u8]) -> bool
    ensures { result ≡ field_test bytes.now }
{
    match bytes {
        [] => false,
        _ => bytes.iter().all(|byte| byte.is_ascii_graphic()),
    }
}
