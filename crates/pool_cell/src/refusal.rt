//! Why a cell refuses an event.

use scp_types::Refusal;

/// Why a cell refuses an event (this host's profile). A refused event changes nothing.
#[derive(Clone, Copy, Debug, PartialEq, Eq)]
pub enum CellRefusal {
    /// The cell was stopped. It comes before all others.
    Closed,
    /// The network refuses the event, or it is out of memory.
    Network(Refusal),
}
