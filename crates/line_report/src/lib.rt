//! What a closure looks like: who is in it, who named whom first, and which single members block whose slices.
//!
//! A [`ClosureReport`] is plain data. Writers show it as lines of text, as a graph in the language DOT and as a picture
//! in SVG. [`NoNetwork`] stands for a network that nobody declared.
#![tactic(auto)]

mod circle;
mod dot;
mod frame;
mod hosted;
mod layout;
mod marks;
mod no_network;
mod order;
mod report;
mod svg;
mod text;

pub use dot::push_dot;
pub use no_network::NoNetwork;
pub use report::{Blockers, ClosureReport, report_of};
pub use svg::push_svg;
pub use text::push_text;
