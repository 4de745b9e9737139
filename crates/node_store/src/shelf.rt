//! What a store of envelopes is.

ghost use Rattle.std.specs.Prelude.{◌≡◌, IfErr, IfOk};

use scp_types::Envelope;

/// A store of envelopes, each at its place. A place is known, in contracts, with the envelope that was put there.
pub trait Places {
    ghost use Rattle.scp_types.specs.Statements.{Sent};

    /// Where an envelope lies.
    type Place: Drop;

    /// The place is of this store.
    ghost is_of: { Self → Self.Place → Type 0 };

    /// What was put there.
    ghost put_there: { Self.Place → Sent };

    /// The envelope at a place of this store. It takes no memory, and waits for nobody.
    fn read<'a>(&'a self, place: &'a Self::Place) -> &'a Envelope
        requires { is_of self.now place.now }
        ensures { result.now ≡ put_there place.now };
}

/// A store that takes envelopes. What was put there stays as long as its place does.
pub trait Shelf: Places {
    /// Puts an envelope at a place of its own; all other places stay. If it is out of memory, the envelope comes back.
    fn put(&mut self, envelope: Envelope) -> Result<Self::Place, Envelope>
        ensures put { IfOk result (λ p. Self.is_of self.new p × (Self.put_there p ≡ envelope)) }
        ensures kept { (p : Self.Place) → Self.is_of self.old p → Self.is_of self.new p }
        ensures err { IfErr result (λ e. e ≡ envelope) };
}
