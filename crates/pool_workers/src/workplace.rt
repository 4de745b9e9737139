//! What workers work with.

use crate::gate::Gate;
use crate::shared::Shared;
use node_store::Shelf;
use std::sync::Wait;

/// What workers work with: that by which they wait, what all of them share, and the gate that sees each
/// application begin and end.
#[derive(Drop)]
pub(crate) struct Workplace<'a, S: Shelf, H: Wait + Drop, R: Wait, G: Gate> {
    pub rt: &'a R,
    pub shared: &'a Shared<S, H>,
    pub gate: &'a G,
}
