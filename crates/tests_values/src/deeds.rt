//! What a desk in memory has done.

/// One thing that was done for the lines of a live host.
#[derive(Drop)]
pub enum Deed {
    /// These bytes stand behind what the journal had.
    Wrote(Vec<u8>),
    /// All that the journal has is on the disk.
    Synced,
    /// These bytes were told.
    Told(Vec<u8>),
}
