//! Protocols that have another one as a part.
ghost use Rattle.std.specs.Prelude.{ℕ, List};
ghost use Rattle.plain_protocol.specs.plain_state.declared.act.PlainAct.{PlainAct};
ghost use Rattle.plain_protocol.specs.Owns.{OwnPart};
ghost use Rattle.protocol_pairs.specs.Shares.{owned_of};
ghost use Rattle.protocol_pairs.specs.Parts.{HasPart, KeepsRest, Reads, PutsBack, PutsOver, Frees, FitsWhole};

use plain_protocol::Protocol;

/// A protocol that has `Q` as a part of it, or is `Q`. `S` says which part of it that is, and is inferred at a call.
pub trait Part<Q: Protocol, S>: Protocol {
    /// The part.
    ghost part: { Self → Q };

    /// What a view has of the part.
    ghost seen: { Self.View → Q.View };

    /// The view with another view of the part in it.
    ghost with_seen: { Self.View → Q.View → Self.View };

    /// The rest doesn't mind the step, by what the seat itself has before it.
    ghost free: { Self → OwnPart → PlainAct → Type 0 };

    /// The rest doesn't mind that the seat, whose view is the first, gets the second as its view of the part.
    ghost suits: { Self → Self.View → Q.View → Type 0 };

    /// The law says what the part's law says.
    ghost has: { (it : Self) → HasPart (Self.law it) (Q.law (part it)) seen };

    /// A free step that keeps the part's law keeps the whole law.
    ghost keeps_rest: { (it : Self)
        → KeepsRest (Self.law it) (Q.law (part it)) seen Self.gone with_seen (free it) (suits it) };

    /// What was put into a view as its part is read there.
    ghost reads: { Reads seen with_seen };

    /// A view with its own part put into it is as it was.
    ghost puts_back: { PutsBack seen with_seen };

    /// Of two views that were put into one as its part, the later one stays.
    ghost puts_over: { PutsOver with_seen };

    /// A step that writes nothing but what the part owns is free.
    ghost frees: { (it : Self)
        → Frees (owned_of (Q.owns_cell (part it)) (Q.owns_weak_cell (part it))
        (Q.owns_payload (part it)) (Q.owns_tickets (part it))) (free it) };

    /// The part's own payloads fit the whole, and weigh there what they weigh in the part.
    ghost fits: { (it : Self)
        → FitsWhole (Q.owns_payload (part it)) Q.Kind.fits Self.Kind.fits Q.Kind.weight
        Self.Kind.weight };
}

/// A protocol as a part of itself.
#[derive(Clone, Copy, Debug, Drop)]
pub struct Whole;

/// The left part of a pair.
#[derive(Clone, Copy, Debug, Drop)]
pub struct Left;

/// The right part of a pair.
#[derive(Clone, Copy, Debug, Drop)]
pub struct Right;
