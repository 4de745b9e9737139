//! Slices.

ghost use Rattle.std.specs.Prelude.{◌≡◌, ◌++◌, ◌==◌, IfOk, OnOk, option_map, string_bytes};
ghost use Rattle.line_script.specs.Fronts.{inner_front, member_front, members_in, set_front, threshold_front};
ghost use Rattle.line_script.specs.Printed.{comma, text_of_slices};
ghost use Rattle.line_script.specs.Slices.{AreSlices, SlicesReadBack, SlicesSpelledOnce};

use crate::name::{name_of, push_name};
use crate::number::threshold_of;
use crate::splitting::plain_front;
use scp_types::{MAX_INNER_LEVELS, MAX_MEMBERS, Member, Nested, SliceSet};
use std::alloc::{AllocError, Global};

/// The slices that a word spells, as `2[B,1[C,D],2[E,F]]`: a threshold, and in brackets the members,
/// each a name or again slices. `None` for any other word, and for slices that break a rule.
pub fn slices_of(alloc: Global, word: &[u8]) -> Result<Option<Nested>, AllocError>
    ensures { IfOk result (λ o. AreSlices word.now o) }
{
    let Some((set, rest)) = set_at(alloc, MAX_INNER_LEVELS, word)? else {
        return Ok(None);
    };
    if !rest.is_empty() {
        return Ok(None);
    }
    Nested::new(alloc, set)
}

/// The set at the front of a text, with at most `levels` levels of inner sets, and the rest.
#[cycle(reading)]
fn set_at(
    alloc: Global,
    levels: usize,
    text: &[u8],
) -> Result<Option<(SliceSet, &[u8])>, AllocError>
    ensures { IfOk result (λ o. option_map (λ r. (r.0, r.1.now)) o ≡ set_front (inner_front levels) text.now) }
{
    let Some((threshold, rest)) = threshold_at(text) else {
        return Ok(None);
    };
    match members_at(alloc, levels, rest)? {
        Some((members, rest)) => Ok(Some((SliceSet::new(threshold, members), rest))),
        None => Ok(None),
    }
}

/// The threshold at the front of a text, and what stands behind its bracket.
fn threshold_at(text: &[u8]) -> Option<(u8, &[u8])>
    ensures { option_map (λ r. (r.0, r.1.now)) result ≡ threshold_front text.now }
{
    let (digits, rest) = plain_front(text);
    let threshold = threshold_of(digits)?;
    match rest {
        [b'[', rest @ ..] => Some((threshold, rest)),
        _ => None,
    }
}

/// The members at the front of a text, up to the closing bracket, and the rest.
#[cycle(reading)]
#[tactic(auto, using(crate::proofs::FrontLaws::read_all, crate::proofs::FrontLaws::read_more, crate::proofs::FrontLaws::read_last, crate::proofs::FrontLaws::read_none, crate::proofs::FrontLaws::read_wrong, crate::proofs::FrontLaws::full))]
fn members_at(
    alloc: Global,
    levels: usize,
    text: &[u8],
) -> Result<Option<(Vec<Member>, &[u8])>, AllocError>
    ensures { IfOk result (λ o. option_map (λ r. (r.0.items, r.1.now)) o ≡ members_in (inner_front levels) text.now) }
{
    let mut rest = text;
    let mut members = Vec::with_capacity(alloc, likely_members(text))?;
    while members.len() < MAX_MEMBERS {
        let Some((member, after)) = member_at(alloc, levels, rest)? else {
            return Ok(None);
        };
        members.push(member)?;
        match after {
            [b',', more @ ..] => rest = more,
            [b']', more @ ..] => {
                // They are kept as long as a node or an envelope has them, and mostly are few.
                members.shrink_to_fit();
                return Ok(Some((members, more)));
            }
            _ => return Ok(None),
        }
    }
    Ok(None)
}

/// How many members a text likely has at its front: one more than there are commas before the first closing bracket, and
/// at most as many as a set may have. So room for them is made once.
fn likely_members(text: &[u8]) -> usize {
    let mut count = 1usize;
    for byte in text {
        match *byte {
            b',' => count = count.saturating_add(1),
            b']' => return count,
            _ => {}
        }
        if count >= MAX_MEMBERS {
            return MAX_MEMBERS;
        }
    }
    count
}

/// The member at the front of a text, and the rest.
#[cycle(reading)]
fn member_at(
    alloc: Global,
    levels: usize,
    text: &[u8],
) -> Result<Option<(Member, &[u8])>, AllocError>
    ensures { IfOk result (λ o. option_map (λ r. (r.0, r.1.now)) o ≡ member_front (inner_front levels) text.now) }
{
    let (word, rest) = plain_front(text);
    match rest {
        [b'[', ..] => match inner_at(alloc, levels, text)? {
            Some((set, rest)) => Ok(Some((Member::Set(set), rest))),
            None => Ok(None),
        },
        _ => match name_of(word) {
            Some(name) => Ok(Some((Member::Node(name), rest))),
            None => Ok(None),
        },
    }
}

/// The inner set at the front of a text, and the rest. It and the sets in it may have `levels` levels.
#[cycle(reading)]
fn inner_at(
    alloc: Global,
    levels: usize,
    text: &[u8],
) -> Result<Option<(SliceSet, &[u8])>, AllocError>
    ensures { IfOk result (λ o. option_map (λ r. (r.0, r.1.now)) o ≡ inner_front levels text.now) }
{
    match levels {
        0 => Ok(None),
        _ => set_at(alloc, levels - 1, text),
    }
}

/// Adds the slices. If it is out of memory, a part may have been added.
pub fn push_slices(text: &mut String, slices: &Nested) -> Result<(), AllocError>
    ensures { OnOk result (string_bytes text.new ≡ string_bytes text.old ++ text_of_slices slices.now) }
{
    push_set(text, slices.set())
}

/// Adds a set: its threshold, and its members in brackets.
#[tactic(auto, using(crate::proofs::SliceLaws::node_pushed, crate::proofs::SliceLaws::set_pushed, crate::proofs::SliceLaws::set_ended))]
fn push_set(text: &mut String, set: &SliceSet) -> Result<(), AllocError>
    ensures { OnOk result (string_bytes text.new ≡ string_bytes text.old ++ text_of_slices set.now) }
{
    let threshold = set.threshold();
    write!(text, "{threshold}[")?;
    let members = set.members();
    let mut first = true;
    for member in members {
        push_comma(text, first)?;
        first = false;
        match member {
            Member::Node(name) => push_name(text, name)?,
            Member::Set(inner) => push_set(text, inner)?,
        }
    }
    text.push(']')
}

/// Adds a comma, but not before the first member.
fn push_comma(text: &mut String, first: bool) -> Result<(), AllocError>
    ensures { OnOk result (string_bytes text.new ≡ string_bytes text.old ++ comma first) }
{
    match first {
        true => Ok(()),
        false => text.push(','),
    }
}

/// A law: slices are read back from the word that they are printed as.
pub fn slices_read_back()
    ensures { SlicesReadBack }
{}

/// A law: no word spells two slices that keep the rules.
pub fn slices_spelled_once()
    ensures { SlicesSpelledOnce }
{}
