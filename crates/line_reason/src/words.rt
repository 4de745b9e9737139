//! The words of a line against those of its form.

use crate::lines::cut_word;
use crate::texts::{Fault, fault_at, fault_of};
use host_config::{MAX_BUDGET, MAX_OPEN_SLOTS, MAX_ROSTER};
use line_script::{
    ballot_of, bytes_of, counter_of, digits_of, name_of, number_of, slices_of, statement_of,
    value_of,
};
use scp_types::{Statement, is_ascending};
use std::alloc::{AllocError, Global};

/// The fault of the first word that is wrong, missing or one too many in a line of this form.
pub(crate) fn fault_of_words(
    alloc: Global,
    form: &str,
    words: &[&[u8]],
) -> Result<Option<Fault>, AllocError> {
    let mut rest = form.as_bytes();
    let mut before: &[u8] = &[];
    for (place, word) in words.iter().enumerate() {
        if rest.is_empty() {
            return Ok(Some(fault_of(alloc, place, "no word stands here", &[], form)?));
        }
        let (wanted, more) = cut_word(rest);
        if is_fixed(wanted) && *word != wanted {
            return Ok(Some(fault_of(alloc, place, "@ stands here", wanted, form)?));
        }
        if !is_right(alloc, before, wanted, word)? {
            return Ok(Some(fault_at(alloc, place, rule_of(before, wanted))?));
        }
        if let Some(text) = broken_by(alloc, wanted, word)? {
            return Ok(Some(fault_at(alloc, place, text)?));
        }
        before = wanted;
        rest = more;
    }
    if rest.is_empty() {
        return Ok(None);
    }
    Ok(Some(fault_of(alloc, words.len(), "a word is missing", &[], form)?))
}

/// Whether a word of a form stands in its lines as it is.
fn is_fixed(wanted: &[u8]) -> bool {
    matches!(wanted, [b'a'..=b'z' | b'*', ..])
}

/// Whether `word` may stand where a form has `wanted` behind `before`.
fn is_right(alloc: Global, before: &[u8], wanted: &[u8], word: &[u8]) -> Result<bool, AllocError> {
    match wanted {
        b"N" | b"R" | b"C" => Ok(counter_of(word).is_some()),
        b"I" | b"SLOT" | b"K" => Ok(number_of(word).is_some()),
        b"NAME" | b"FROM" | b"NODE" => Ok(name_of(word).is_some()),
        b"KIND" => Ok(matches!(word, b"nom" | b"bal")),
        b"E" | b"B" | b"S" | b"O" | b"P" => Ok(is_share(before, number_of(word))),
        b"VALUE" => is_proposal(alloc, word),
        b"HEX" => Ok(bytes_of(alloc, word)?.is_some()),
        b"SLICES" => Ok(slices_of(alloc, word)?.is_some()),
        b"BALLOT" => Ok(ballot_of(alloc, word)?.is_some()),
        b"STATEMENT" => Ok(statement_of(alloc, word)?.is_some()),
        b"NAME,NAME,.." => is_roster(alloc, word),
        _ => Ok(true),
    }
}

/// What may stand where a form has `wanted` behind `before`.
fn rule_of(before: &[u8], wanted: &[u8]) -> &'static str {
    match wanted {
        b"N" => "a network is a number below 2^32, without zeros in front",
        b"R" => "a round is a number below 2^32, without zeros in front",
        b"C" => "a counter is a number below 2^32, without zeros in front",
        b"K" => "an emission has a number below 2^64, without zeros in front",
        b"NAME" | b"FROM" | b"NODE" => {
            "a name is 1 to 32 letters or digits, or 64 lower-case hexadecimal digits"
        }
        b"KIND" => "nom or bal stands here",
        b"S" if before == b"slots".as_slice() =>
            "open slots are a number from 1 to 64, without zeros in front",
        b"E" | b"B" | b"S" | b"O" | b"P" => {
            "a budget or a share is a number up to 2^40, without zeros in front"
        }
        b"VALUE" => {
            "a value is 1 to 256 letters or digits, or # and the hexadecimal digits of as many bytes"
        }
        b"HEX" => "bytes are lower-case hexadecimal digits, two for each byte, or - for none",
        b"SLICES" => {
            "slices are K[MEMBER,..]: 1 to 64 members, K from 1 to their count, at most 8 levels inside, 256 names, \
             none twice"
        }
        b"BALLOT" => "a ballot is C:V, a counter below 2^32 and a value",
        b"STATEMENT" => {
            "a statement is nom(VOTED|ACCEPTED), prep(BALLOT,PREPARED,a,h,c), comm(BALLOT,p,h,c) or ext(COMMIT,h)"
        }
        b"NAME,NAME,.." => "a roster has 1 to 1,024 names, a comma between two, and none twice",
        _ => "a slot is a number below 2^64, without zeros in front",
    }
}

/// Whether there is a number, and a budget or a share behind `before` may be that.
fn is_share(before: &[u8], number: Option<u64>) -> bool {
    match number {
        None => false,
        Some(number) if before == b"slots".as_slice() => 0 < number && number <= MAX_OPEN_SLOTS,
        Some(number) => number <= MAX_BUDGET,
    }
}

fn is_proposal(alloc: Global, word: &[u8]) -> Result<bool, AllocError> {
    match word {
        [b'#', digits @ ..] => Ok(digits_of(alloc, digits)?.is_some()),
        _ => Ok(value_of(alloc, word)?.is_some()),
    }
}

fn is_roster(alloc: Global, word: &[u8]) -> Result<bool, AllocError> {
    let mut names = Vec::new(alloc);
    for name in word.split(|byte| *byte == b',') {
        match name_of(name) {
            Some(name) => names.push(name)?,
            None => return Ok(false),
        }
    }
    names.sort_unstable();
    Ok(names.len() <= MAX_ROSTER && is_ascending(&names))
}

/// The rules of statements that a word breaks, if the form has a statement there and the word is one.
fn broken_by(
    alloc: Global,
    wanted: &[u8],
    word: &[u8],
) -> Result<Option<&'static str>, AllocError> {
    if wanted != b"STATEMENT".as_slice() {
        return Ok(None);
    }
    match statement_of(alloc, word)? {
        Some(statement) if !statement.is_well_formed() => Ok(Some(rules_of(&statement))),
        _ => Ok(None),
    }
}

fn rules_of(statement: &Statement) -> &'static str {
    match statement {
        Statement::Nominate { .. } => {
            "a nomination has a value, and at most 16 in each list, which ascends by their bytes"
        }
        Statement::Prepare { .. } => {
            "in prep(BALLOT,PREPARED,a,h,c) BALLOT's counter is 1 or more, PREPARED at most BALLOT, a and h at most its \
             counter, and c at most h"
        }
        Statement::Commit { .. } => {
            "in comm(BALLOT,p,h,c) c is 1 or more and at most h, and h at most BALLOT's counter"
        }
        Statement::Externalize { .. } => {
            "in ext(COMMIT,h) COMMIT's counter is 1 or more and at most h"
        }
    }
}
