//! Slices that are read from the front, with the names so far.
//!
//! An error of a function here is the first fault from left to right, or says that it is out of memory.

ghost use Rattle.std.specs.Prelude.{◌≡◌, ◌≤◌, [], ◌∷◌, ◌++◌, IfOk};
ghost use Rattle.scp_codec.specs.Reading.{Gives, Says, IsBytes, header_at, new_name_at, member_at, member_list_at, set_with, inner_at, nested_at, slices_at};
ghost use Rattle.scp_codec.specs.Parts.{part_of_member, part_names};
ghost use Rattle.scp_types.specs.Shape.{members_of};
ghost use Rattle.scp_types.specs.Trees.{most_levels, names_in};

use crate::error::{CodecError, Fault};
use crate::reader::Reader;
use crate::seen::SeenNames;
use crate::versions::{levels_in, version_of};
use scp_types::{MAX_MEMBERS, MAX_NAMES, Member, Nested, NodeId, SliceSet};
use std::alloc::Global;

/// The slices of an envelope of this version, which have to need it.
#[tactic(auto, unfolding(crate::specs::Reading::slices_at))]
pub fn read_slices(alloc: Global, reader: &mut Reader, version: u8) -> Result<Nested, CodecError>
    ensures { Gives (λ x. (x, reader.new)) result (slices_at version reader.old) }
{
    let slices = read_nested(alloc, reader, levels_in(version))?;
    if version != version_of(&slices) {
        return Err(CodecError::Fault(Fault::SpareVersion));
    }
    Ok(slices)
}

/// Slices with at most `levels` levels of inner sets.
#[tactic(auto, unfolding(crate::specs::Reading::nested_at))]
fn read_nested(alloc: Global, reader: &mut Reader, levels: usize) -> Result<Nested, CodecError>
    requires { levels ≤ most_levels }
    ensures { Gives (λ x. (x, reader.new)) result (nested_at levels reader.old) }
{
    let mut seen = SeenNames::new(alloc);
    let set = read_set(alloc, reader, levels, &mut seen)?;
    Ok(Nested::of(alloc, set)?)
}

/// A threshold, a count and as many members, with at most `levels` levels of inner sets.
#[cycle(tree)]
#[tactic(auto, unfolding(crate::specs::Reading::set_with))]
fn read_set(
    alloc: Global,
    reader: &mut Reader,
    levels: usize,
    seen: &mut SeenNames,
) -> Result<SliceSet, CodecError>
    ensures read { Gives (λ x. (x, reader.new)) result (set_with (inner_at levels) seen.old reader.old) }
    ensures names { IfOk result (λ x. seen.new ≡ seen.old ++ names_in x.members) }
    // What a reader holds are bytes, which `read_slices` has to know to show the rules of slices.
    ensures bytes { IsBytes reader.old }
{
    let (threshold, count) = read_header(reader)?;
    let members = read_members(alloc, reader, levels, count, seen)?;
    Ok(SliceSet::new(threshold, members))
}

/// A threshold and a count of members that a set may have.
#[tactic(auto, unfolding(crate::specs::Reading::header_at))]
fn read_header(reader: &mut Reader) -> Result<(u8, u8), Fault>
    ensures read { Says (λ x. ((x.0, x.1), reader.new)) result (header_at reader.old) }
    ensures bytes { IsBytes reader.old }
{
    let threshold = reader.byte()?;
    let count = reader.byte()?;
    if threshold == 0 || threshold > count {
        return Err(Fault::BadSlices);
    }
    if count as usize > MAX_MEMBERS {
        return Err(Fault::Limit);
    }
    Ok((threshold, count))
}

#[cycle(tree)]
fn read_members(
    alloc: Global,
    reader: &mut Reader,
    levels: usize,
    count: u8,
    seen: &mut SeenNames,
) -> Result<Vec<Member>, CodecError>
    ensures read { Gives (λ x. (members_of x.items, reader.new)) result (member_list_at (inner_at levels) count seen.old reader.old) }
    ensures names { IfOk result (λ x. seen.new ≡ seen.old ++ names_in (members_of x.items)) }
{
    let mut members = Vec::with_capacity(alloc, count as usize)?;
    seen.reserve(count as usize)?;
    for _ in 0..count {
        let member = read_member(alloc, reader, levels, seen)?;
        members.push(member)?;
    }
    Ok(members)
}

/// A name or an inner set, if a level is left for one.
#[cycle(tree)]
#[tactic(auto, unfolding(crate::specs::Reading::member_at, crate::specs::Reading::inner_at))]
fn read_member(
    alloc: Global,
    reader: &mut Reader,
    levels: usize,
    seen: &mut SeenNames,
) -> Result<Member, CodecError>
    ensures read { Gives (λ x. (part_of_member x, reader.new)) result (member_at (inner_at levels) seen.old reader.old) }
    ensures names { IfOk result (λ x. seen.new ≡ seen.old ++ part_names (part_of_member x)) }
{
    match reader.byte()? {
        0 => Ok(Member::Node(read_new_name(reader, seen)?)),
        1 => {
            if levels == 0 {
                return Err(CodecError::Fault(Fault::BadSlices));
            }
            Ok(Member::Set(read_set(alloc, reader, levels - 1, seen)?))
        }
        _ => Err(CodecError::Fault(Fault::BadSlices)),
    }
}

/// A name that may join those seen, and joins them.
#[tactic(auto, unfolding(crate::specs::Reading::new_name_at))]
fn read_new_name(reader: &mut Reader, seen: &mut SeenNames) -> Result<NodeId, CodecError>
    ensures read { Gives (λ x. (x, reader.new)) result (new_name_at seen.old reader.old) }
    ensures names { IfOk result (λ x. seen.new ≡ seen.old ++ x ∷ []) }
{
    let name = reader.name()?;
    if seen.len() == MAX_NAMES {
        return Err(CodecError::Fault(Fault::Limit));
    }
    if !seen.add(name)? {
        return Err(CodecError::Fault(Fault::BadSlices));
    }
    Ok(name)
}
