//! What a client of a domain adds to the rule of its table.
ghost use Rattle.std.specs.Prelude.{ℕ, List};
ghost use Rattle.plain_state.specs.State.{Plain};
ghost use Rattle.plain_protocol.specs.Laws.{Starts, KeptByCalm, KeptByForeign, KeptByLeave};

use plain_state::PayloadKind;

/// A view for each seat, and a law over the plain state and all views.
pub trait Protocol {
    /// What a seat knows, beside what the plain state says.
    type View;

    /// Which payloads the client makes.
    type Kind: PayloadKind;

    /// The view with which a seat begins, by the seat's number.
    ghost first: { Self → ℕ → Self.View };

    /// What holds of the plain state and the views of all seats, before and after every step.
    ghost law: { Self → Plain → List Self.View → Type 0 };

    /// Seat 0's view after a seat has left, from the views of the two.
    ghost joined: { Self → Self.View → Self.View → Self.View };

    /// The view of a seat that has left.
    ghost gone: { Self.View };

    /// The cells that no other protocol over the same state may change.
    ghost owns_cell: { Self → ℕ → Type 0 };

    /// The weak cells that no other may change.
    ghost owns_weak_cell: { Self → ℕ → Type 0 };

    /// The payloads of which no other may make an object, nor change its fields.
    ghost owns_payload: { Self → List ℕ → Type 0 };

    /// Whether no other may draw a ticket.
    ghost owns_tickets: { Self → Type 0 };

    /// The law holds at the start.
    ghost start: { (it : Self) → Starts (law it) (first it) };

    /// Calm steps keep it, with all views as they were.
    ghost calm: { (it : Self) → KeptByCalm (law it) };

    /// It is kept where a seat leaves.
    ghost leave: { (it : Self) → KeptByLeave (law it) (joined it) gone };

    /// Steps that leave alone what the protocol owns keep it, with all views as they were.
    ghost foreign: { (it : Self)
        → KeptByForeign (law it) (record {
          cell = owns_cell it;
          weak_cell = owns_weak_cell it;
          payload = owns_payload it;
          tickets = owns_tickets it;
        }) };
}
