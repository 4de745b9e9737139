//! Reports as pictures in SVG.

use crate::circle::{TURN, point};
use crate::frame::Frame;
use crate::layout::Layout;
use crate::marks::{HEIGHT, Mark, marks_of, push_shape};
use crate::report::ClosureReport;
use host_closure::ClosureList;
use line_script::push_name;
use std::alloc::{AllocError, Global};
use std::fmt::Write;

/// How many letters and digits of a name are drawn at most.
const LONGEST_LABEL: usize = 12;

/// How long arrows are at least, in pixels.
const ARROW: u64 = 60;

/// How wide a picture is at least, in pixels, so that the legend has room.
const LEAST_WIDTH: i64 = 560;

/// How high the legend is, in pixels.
const LEGEND: i64 = 64;

/// What members, arrows and words look like, and the head of an arrow.
const STYLE: &str = "<style>
text{font:12px monospace;text-anchor:middle}
rect{fill:#fff;stroke:#333}
.hosted{fill:#b9d8f3}
.blocking{stroke-width:4}
path.named{fill:none;stroke:#888;marker-end:url(#head)}
.legend text{text-anchor:start}
</style>
<marker id=\"head\" viewBox=\"0 0 8 8\" refX=\"8\" refY=\"4\" markerWidth=\"8\" markerHeight=\"8\" orient=\"auto\" markerUnits=\"userSpaceOnUse\"><path d=\"M0 0L8 4L0 8z\" fill=\"#888\"/></marker>
";

/// A report as it is drawn.
#[derive(Drop)]
struct Picture<'a> {
    report: &'a ClosureReport,
    marks: Vec<Mark>,
    layout: Layout,
    width: u64,
    frame: Frame,
}

/// Adds a picture that a browser shows. The members of the closure stand in rings by their distance from the first,
/// with an arrow from each to those that it named first. Hosted members are filled, and who blocks a hosted member by
/// itself has a thick edge. The picture grows with the members of its widest ring, and names stay as large as they are.
/// Of a long name the front is drawn, and the whole name stands in its title.
///
/// It takes time in proportion to the members and to those who block one, with a look-up for each. An error says that
/// it is out of memory; then a part may have been added.
pub fn push_svg(
    alloc: Global,
    text: &mut String,
    report: &ClosureReport,
) -> Result<(), AllocError> {
    let picture = picture_of(alloc, report)?;
    picture.push_head(text)?;
    picture.push_arrows(text)?;
    picture.push_members(alloc, text)?;
    picture.push_legend(alloc, text)?;
    text.push_str("</svg>\n")?;
    Ok(())
}

fn picture_of(alloc: Global, report: &ClosureReport) -> Result<Picture<'_>, AllocError> {
    let members = report.members();
    let width = width_of(alloc, members)?;
    let apart = HEIGHT.saturating_add(4);
    let layout = Layout::of(alloc, members, width.saturating_add(ARROW), apart)?;
    let margin = (width.min(1 << 32) / 2 + ARROW / 2) as i64;
    let frame = Frame::of(&layout, members.len(), margin, LEAST_WIDTH);
    let marks = marks_of(alloc, report)?;
    Ok(Picture {
        report,
        marks,
        layout,
        width,
        frame,
    })
}

/// How wide members are drawn, so that the longest label has room; not less than they are high.
fn width_of(alloc: Global, members: &ClosureList) -> Result<u64, AllocError> {
    let mut name = String::new(alloc);
    let mut longest: usize = 0;
    for place in 0..members.len() {
        if let Some(node) = members.name(place) {
            name.clear();
            push_name(&mut name, &node)?;
            longest = longest.max(name.len().min(LONGEST_LABEL));
        }
    }
    let width = (longest as u64).saturating_mul(8).saturating_add(10);
    Ok(width.max(HEIGHT))
}

/// Adds a name, or the front of a long one.
fn push_label(text: &mut String, name: &str) -> Result<(), AllocError> {
    if name.len() <= LONGEST_LABEL {
        text.push_str(name)?;
        return Ok(());
    }
    for letter in name.chars().take(LONGEST_LABEL - 2) {
        text.push(letter)?;
    }
    text.push_str("..")?;
    Ok(())
}

impl Picture<'_> {
    /// Adds the beginning of the picture: its size, its styles, and the ground that it is drawn on.
    fn push_head(&self, text: &mut String) -> Result<(), AllocError> {
        let left = self.frame.left;
        let top = self.frame.top;
        let width = self.frame.width();
        let height = self.frame.height().saturating_add(LEGEND);
        write!(
            text,
            "<svg xmlns=\"http://www.w3.org/2000/svg\" width=\"{width}\" height=\"{height}\" viewBox=\"{left} {top} {width} {height}\">\n"
        )?;
        text.push_str(STYLE)?;
        write!(
            text,
            "<rect x=\"{left}\" y=\"{top}\" width=\"{width}\" height=\"{height}\" style=\"stroke:none\"/>\n"
        )?;
        Ok(())
    }

    /// Adds the arrow to each member but the first.
    fn push_arrows(&self, text: &mut String) -> Result<(), AllocError> {
        let members = self.report.members();
        for place in 1..members.len() {
            if let Some((_, namer)) = members.member(place) {
                self.push_arrow(text, namer, place)?;
            }
        }
        Ok(())
    }

    /// Adds a bent arrow, from the outer end of a member to the inner end of one that it named first. Arrows of the
    /// first member are straight and begin in its middle, and its shape covers their ends.
    fn push_arrow(&self, text: &mut String, namer: usize, place: usize) -> Result<(), AllocError> {
        let angle = self.layout.angle(place);
        let radius = self.layout.radius(place);
        let inner = radius.saturating_sub(self.width / 2 + 2);
        let (from, outer) = if namer == 0 {
            (angle, 0)
        } else {
            let radius = self.layout.radius(namer);
            (
                self.layout.angle(namer),
                radius.saturating_add(self.width / 2),
            )
        };
        let middle = outer.saturating_add(inner) / 2;
        let (x1, y1) = point(outer, from);
        let (x2, y2) = point(middle, from);
        let (x3, y3) = point(middle, angle);
        let (x4, y4) = point(inner, angle);
        write!(
            text,
            "<path class=\"named\" d=\"M{x1} {y1}C{x2} {y2} {x3} {y3} {x4} {y4}\"/>\n"
        )?;
        Ok(())
    }

    fn push_members(&self, alloc: Global, text: &mut String) -> Result<(), AllocError> {
        let members = self.report.members();
        let mut name = String::new(alloc);
        for place in 0..members.len() {
            if let Some(node) = members.name(place) {
                name.clear();
                push_name(&mut name, &node)?;
                self.push_member(text, place, name.as_str())?;
            }
        }
        Ok(())
    }

    /// Adds a member: its whole name as a title, its shape, and its label.
    fn push_member(&self, text: &mut String, place: usize, name: &str) -> Result<(), AllocError> {
        let (x, y) = point(self.layout.radius(place), self.layout.angle(place));
        let turn = self.turn(place);
        let mark = self.marks.get(place).copied().unwrap_or(Mark::NONE);
        write!(
            text,
            "<g transform=\"translate({x} {y})rotate({turn})\"><title>"
        )?;
        text.push_str(name)?;
        text.push_str("</title>")?;
        push_shape(text, self.width, mark)?;
        text.push_str("<text y=\"4\">")?;
        push_label(text, name)?;
        text.push_str("</text></g>\n")?;
        Ok(())
    }

    /// By how many degrees a member is turned: along its arrow, and never upside down. The first one is not turned, and
    /// no member is if all labels are short.
    fn turn(&self, place: usize) -> u64 {
        let degrees = self.layout.angle(place) / (TURN / 360);
        if place == 0 || self.width == HEIGHT {
            0
        } else if degrees > 90 && degrees < 270 {
            degrees + 180
        } else {
            degrees
        }
    }

    /// Adds whose closure it is, and what the marks mean, below the members.
    fn push_legend(&self, alloc: Global, text: &mut String) -> Result<(), AllocError> {
        let left = self.frame.left.saturating_add(16);
        let top = self.frame.bottom;
        write!(
            text,
            "<g class=\"legend\" transform=\"translate({left} {top})\"><text y=\"10\">closure of "
        )?;
        self.push_counts(alloc, text)?;
        text.push_str("</text>\n<g transform=\"translate(11 38)\">")?;
        push_shape(text, HEIGHT, Mark::HOSTED)?;
        text.push_str("<text x=\"18\" y=\"4\">hosted</text></g>\n")?;
        text.push_str("<g transform=\"translate(105 38)\">")?;
        push_shape(text, HEIGHT, Mark::BLOCKING)?;
        text.push_str("<text x=\"18\" y=\"4\">blocks a hosted member by itself</text></g>\n")?;
        text.push_str("<path class=\"named\" d=\"M375 38H425\"/>")?;
        text.push_str("<text x=\"433\" y=\"42\">named first</text></g>\n")?;
        Ok(())
    }

    /// Adds whose closure it is, and how many members it has.
    fn push_counts(&self, alloc: Global, text: &mut String) -> Result<(), AllocError> {
        let members = self.report.members();
        if let Some(node) = members.name(0) {
            let mut name = String::new(alloc);
            push_name(&mut name, &node)?;
            push_label(text, name.as_str())?;
        }
        let count = members.len();
        let hosted = self.report.blockers().len();
        write!(text, ": {count} members, {hosted} hosted")?;
        Ok(())
    }
}
