//! Reports as lines of text.

ghost use Rattle.std.specs.Prelude.{◌≡◌, ◌++◌, OnOk, slice_get, string_bytes};
ghost use Rattle.std.specs.List.{flat_map};
ghost use Rattle.line_report.specs.Texts.{line_at, line_of_blockers, line_of_named_member, lines_from, name_behind_space, text_of_namer, text_of_report};

use crate::report::{Blockers, ClosureReport};
use host_closure::ClosureList;
use line_script::push_name;
use scp_types::NodeId;
use std::alloc::AllocError;
use std::fmt::Write;

/// Adds one line for each member: its place, its name, and the place of the member that named it first, or `-` for the
/// first one. Then, for each hosted member, ascending, comes a line of the word `blocks`, its name, and the members
/// that block its slices by themselves, ascending. Fields are separated by one space. An error says that it is out of
/// memory; then a part may have been added.
pub fn push_text(text: &mut String, report: &ClosureReport) -> Result<(), AllocError>
    ensures { OnOk result (string_bytes text.new ≡ string_bytes text.old ++ text_of_report report.now) }
{
    push_members(text, report.members())?;
    push_hosted(text, report.blockers())?;
    Ok(())
}

fn push_members(text: &mut String, members: &ClosureList) -> Result<(), AllocError>
    ensures { OnOk result (string_bytes text.new ≡ string_bytes text.old ++ lines_from 0 members.now) }
{
    for place in 0..members.len() {
        push_at(text, members, place)?;
    }
    Ok(())
}

/// Adds the line of the member at a place, if there is one.
fn push_at(text: &mut String, members: &ClosureList, place: usize) -> Result<(), AllocError>
    ensures { OnOk result (string_bytes text.new ≡ string_bytes text.old ++ line_at place (slice_get members.now place)) }
{
    match members.member(place) {
        None => Ok(()),
        Some((name, namer)) => push_member(text, place, &name, namer),
    }
}

fn push_member(
    text: &mut String,
    place: usize,
    name: &NodeId,
    namer: usize,
) -> Result<(), AllocError>
    ensures { OnOk result (string_bytes text.new ≡ string_bytes text.old ++ line_of_named_member (place, (name.now, namer))) }
{
    write!(text, "{place} ")?;
    push_name(text, name)?;
    push_namer(text, place, namer)?;
    Ok(())
}

/// Adds who named a member, and ends the line.
fn push_namer(text: &mut String, place: usize, namer: usize) -> Result<(), AllocError>
    ensures { OnOk result (string_bytes text.new ≡ string_bytes text.old ++ text_of_namer place namer) }
{
    if place == 0 {
        text.push_str(" -\n")?;
    } else {
        write!(text, " {namer}\n")?;
    }
    Ok(())
}

fn push_hosted(text: &mut String, hosted: &[Blockers]) -> Result<(), AllocError>
    ensures { OnOk result (string_bytes text.new ≡ string_bytes text.old ++ flat_map line_of_blockers hosted.now) }
{
    for blockers in hosted {
        push_blockers(text, blockers)?;
    }
    Ok(())
}

fn push_blockers(text: &mut String, blockers: &Blockers) -> Result<(), AllocError>
    ensures { OnOk result (string_bytes text.new ≡ string_bytes text.old ++ line_of_blockers blockers.now) }
{
    text.push_str("blocks ")?;
    push_name(text, blockers.node())?;
    push_names(text, blockers.names())?;
    text.push('\n')?;
    Ok(())
}

/// Adds names, each behind a space.
fn push_names(text: &mut String, names: &[NodeId]) -> Result<(), AllocError>
    ensures { OnOk result (string_bytes text.new ≡ string_bytes text.old ++ flat_map name_behind_space names.now) }
{
    for name in names {
        text.push(' ')?;
        push_name(text, name)?;
    }
    Ok(())
}
