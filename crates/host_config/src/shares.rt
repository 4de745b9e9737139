//! What a roster's names have reserved.

ghost use Rattle.std.specs.Prelude.{◌≡◌};
ghost use Rattle.host_config.specs.Faults.{is_too_large};

use std::marker::Model;

/// The most that a share can be: 2^40 events or delivered bytes.
pub const MAX_SHARE: u64 = 1 << 40;

/// What is reserved (this host's profile). At each slot that is opened, a hosted node on the roster has its own events,
/// and from each other name on it events and delivered bytes. The network has, once, the events of all openings and
/// closings.
///
/// When they are made they are any numbers. A roster is tested for shares above [`MAX_SHARE`], so those of each
/// [`Roster`](crate::Roster) are at most that.
#[derive(Clone, Copy, Debug)]
pub struct Shares {
    /// The events of a node's own at a slot.
    pub own: u64,
    /// The events from a name to a node at a slot.
    pub pair: u64,
    /// The delivered bytes from a name to a node at a slot.
    pub bytes: u64,
    /// The openings and closings over the life of the network.
    pub opens: u64,
}

impl Model for Shares {
    ghost use Rattle.scp_spec.specs.Rosters.{Shares as Meant};

    ghost Value = { Meant };

    ghost view = { λ s. record { own = s.own; pair = s.pair; bytes = s.bytes; opens = s.opens } };

    ghost inverse = { λ v. record { own = v.own; pair = v.pair; bytes = v.bytes; opens = v.opens } };
}

impl Shares {
    /// The events of a node's own at a slot.
    pub fn own(&self) -> u64
        ensures { result ≡ self.now.own }
    {
        self.own
    }

    /// The events from a name to a node at a slot.
    pub fn pair(&self) -> u64
        ensures { result ≡ self.now.pair }
    {
        self.pair
    }

    /// The delivered bytes from a name to a node at a slot.
    pub fn bytes(&self) -> u64
        ensures { result ≡ self.now.bytes }
    {
        self.bytes
    }

    /// The openings and closings over the life of the network.
    pub fn opens(&self) -> u64
        ensures { result ≡ self.now.opens }
    {
        self.opens
    }

    /// Whether some share is above [`MAX_SHARE`].
    pub(crate) fn is_too_large(&self) -> bool
        ensures { result ≡ is_too_large self.now }
    {
        self.own > MAX_SHARE
            || self.pair > MAX_SHARE
            || self.bytes > MAX_SHARE
            || self.opens > MAX_SHARE
    }
}
