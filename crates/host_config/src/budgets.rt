//! What a network may use up.

ghost use Rattle.std.specs.Prelude.{◌≡◌, ◌≤◌, ◌^◌, ◌↔◌, IfSome, IsSome};
ghost use Rattle.host_config.specs.Budgets.{AreBudgets};

use std::marker::Model;

/// The largest budget of journal events and of delivered bytes: 2^40.
pub const MAX_BUDGET: u64 = 1 << 40;

/// The most slots that a network can have open.
pub const MAX_OPEN_SLOTS: u64 = 64;

/// The limits of a network (this host's profile): how many events its journal may have, how many bytes may be delivered
/// to it, and how many slots it may have open.
///
/// Events and bytes are at most 2^40, slots 1 to 64. For example, no events, no bytes and one slot are budgets; 65
/// slots are too many.
#[derive(Clone, Copy, Debug)]
pub struct Budgets {
    events: u64,
    bytes: u64,
    slots: u64,
}

impl Model for Budgets {
    ghost use Rattle.scp_spec.specs.Networks.{Budgets as Meant};
    ghost use Rattle.host_config.specs.Budgets.{AreBudgets};

    ghost Value = { Meant };

    ghost view = { λ b. record { events = b.events; bytes = b.bytes; slots = b.slots } };

    ghost invariant = { λ b. AreBudgets b.events b.bytes b.slots };

    ghost inverse = { λ v. record { events = v.events; bytes = v.bytes; slots = v.slots } };
}

impl Budgets {
    /// Budgets of up to 2^40 events, up to 2^40 bytes, and 1 to 64 open slots; `None` outside of that.
    pub fn new(events: u64, bytes: u64, slots: u64) -> Option<Budgets>
        ensures exactly { IsSome result ↔ AreBudgets events bytes slots }
        ensures some { IfSome result (λ b. b ≡ record { events = events; bytes = bytes; slots = slots }) }
    {
        if events > MAX_BUDGET || bytes > MAX_BUDGET || slots == 0 || slots > MAX_OPEN_SLOTS {
            return None;
        }
        Some(Budgets {
            events,
            bytes,
            slots,
        })
    }

    /// The most journal events, at most 2^40.
    pub fn events(&self) -> u64
        ensures value { result ≡ self.now.events }
        ensures limit { result ≤ 2 ^ 40 }
    {
        self.events
    }

    /// The most delivered bytes, at most 2^40.
    pub fn bytes(&self) -> u64
        ensures value { result ≡ self.now.bytes }
        ensures limit { result ≤ 2 ^ 40 }
    {
        self.bytes
    }

    /// The most open slots, 1 to 64.
    pub fn slots(&self) -> u64
        ensures value { result ≡ self.now.slots }
        ensures limit { result ≤ 64 }
    {
        self.slots
    }
}
