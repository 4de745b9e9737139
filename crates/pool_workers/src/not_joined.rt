//! Why a network does not join a host.

/// Why a network does not join a host.
#[derive(Clone, Copy, Debug, PartialEq, Eq)]
pub enum NotJoined {
    /// A network of its number is there.
    NumberThere,
    /// None of its number is, and there are as many networks as a host may have.
    TooManyNetworks,
    /// There is room by number, but it is out of memory.
    NoMemory,
}
