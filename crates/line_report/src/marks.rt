//! What members are drawn as.

use crate::report::ClosureReport;
use host_closure::ClosureList;
use scp_types::NodeId;
use std::alloc::{AllocError, Global};
use std::fmt::Write;

/// How high a member is drawn, in pixels.
pub const HEIGHT: u64 = 22;

/// What is shown of a member besides its name.
#[derive(Clone, Copy)]
pub struct Mark {
    /// It is hosted.
    pub hosted: bool,
    /// It blocks a hosted member by itself.
    pub blocking: bool,
}

impl Mark {
    /// Neither.
    pub const NONE: Mark = Mark {
        hosted: false,
        blocking: false,
    };

    /// Hosted, and no more.
    pub const HOSTED: Mark = Mark {
        hosted: true,
        blocking: false,
    };

    /// Blocking, and no more.
    pub const BLOCKING: Mark = Mark {
        hosted: false,
        blocking: true,
    };

    /// The classes by which the style knows it.
    fn class(self) -> &'static str {
        match (self.hosted, self.blocking) {
            (false, false) => "plain",
            (true, false) => "hosted",
            (false, true) => "blocking",
            (true, true) => "hosted blocking",
        }
    }
}

/// Who is hosted, and who blocks a hosted member by itself, by the places of the members. An error says that it is out
/// of memory.
pub fn marks_of(alloc: Global, report: &ClosureReport) -> Result<Vec<Mark>, AllocError> {
    let members = report.members();
    let mut marks: Vec<Mark> = Vec::new(alloc);
    for _ in 0..members.len() {
        marks.push(Mark::NONE)?;
    }
    for blockers in report.blockers() {
        mark_hosted(members, &mut marks, blockers.node());
        for name in blockers.names() {
            mark_blocking(members, &mut marks, name);
        }
    }
    Ok(marks)
}

fn mark_hosted(members: &ClosureList, marks: &mut [Mark], name: &NodeId) {
    if let Some(place) = members.place(name) {
        if let Some(mark) = marks.get_mut(place) {
            mark.hosted = true;
        }
    }
}

fn mark_blocking(members: &ClosureList, marks: &mut [Mark], name: &NodeId) {
    if let Some(place) = members.place(name) {
        if let Some(mark) = marks.get_mut(place) {
            mark.blocking = true;
        }
    }
}

/// Adds the shape of a member round the origin, `width` pixels wide. An error says that it is out of memory.
pub fn push_shape(text: &mut String, width: u64, mark: Mark) -> Result<(), AllocError> {
    let class = mark.class();
    let left = width / 2;
    let top = HEIGHT / 2;
    write!(
        text,
        "<rect class=\"{class}\" x=\"-{left}\" y=\"-{top}\" width=\"{width}\" height=\"{HEIGHT}\" rx=\"{top}\"/>"
    )?;
    Ok(())
}
