//! An envelope that was filed.

use scp_types::Envelope;
use std::snapshot::Snapshot;

/// An envelope that was filed: its number in an archive, eight bytes. In contracts it is known with the
/// envelope.
#[derive(Drop)]
pub struct Filed {
    pub(crate) number: usize,
    pub(crate) put: Snapshot<Envelope>,
}
