//! What an applied event leaves.

use node_core::FiledOut;
use node_store::Filed;
use scp_types::Out;

/// What an applied event gave out, whole, and the numbers, from 1 on, by which a Hear names its emissions.
#[derive(Drop)]
pub struct Given {
    pub outs: Vec<Out>,
    pub marks: Vec<u64>,
}

/// What an applied event leaves: what it gave out, filed and whole, and the envelope that was delivered, if it was a
/// delivery.
#[derive(Drop)]
pub struct Outcome {
    pub filed: Vec<FiledOut>,
    pub given: Given,
    pub delivered: Option<Filed>,
}
