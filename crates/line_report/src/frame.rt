//! The part of the plane that a picture shows.

use crate::circle::point;
use crate::layout::Layout;

/// A rectangle, in pixels; downwards counts up.
#[derive(Clone, Copy)]
pub struct Frame {
    /// Its left edge.
    pub left: i64,
    /// Its upper edge.
    pub top: i64,
    /// Its right edge.
    pub right: i64,
    /// Its lower edge.
    pub bottom: i64,
}

impl Frame {
    /// The frame of a layout of this many members, with a margin round them. The side margins are larger if it would
    /// else be narrower than `least_width`.
    pub fn of(layout: &Layout, members: usize, margin: i64, least_width: i64) -> Frame {
        let mut frame = Frame {
            left: 0,
            top: 0,
            right: 0,
            bottom: 0,
        };
        for place in 0..members {
            let (x, y) = point(layout.radius(place), layout.angle(place));
            frame = frame.with_point(x, y);
        }
        let missing = least_width.saturating_sub(frame.width()) / 2;
        frame.with_margins(margin.max(missing), margin)
    }

    /// The least frame that holds this one and a point.
    fn with_point(self, x: i64, y: i64) -> Frame {
        Frame {
            left: self.left.min(x),
            top: self.top.min(y),
            right: self.right.max(x),
            bottom: self.bottom.max(y),
        }
    }

    /// This frame with margins on either side, and above and below.
    fn with_margins(self, side: i64, height: i64) -> Frame {
        Frame {
            left: self.left.saturating_sub(side),
            top: self.top.saturating_sub(height),
            right: self.right.saturating_add(side),
            bottom: self.bottom.saturating_add(height),
        }
    }

    /// How wide it is.
    pub fn width(self) -> i64 {
        self.right.saturating_sub(self.left)
    }

    /// How high it is.
    pub fn height(self) -> i64 {
        self.bottom.saturating_sub(self.top)
    }
}
