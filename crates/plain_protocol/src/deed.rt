//! What a client does with its view at a step.
ghost use Rattle.std.specs.Prelude.{◌≡◌, ℕ};
ghost use Rattle.plain_state.specs.declared.act.PlainAct.{PlainAct};
ghost use Rattle.plain_state.specs.State.{Plain};
ghost use Rattle.plain_protocol.specs.Acts.{IsCalm};
ghost use Rattle.plain_protocol.specs.Owns.{OwnPart};
ghost use Rattle.plain_protocol.specs.Laws.{Keeps};
ghost use Rattle.plain_protocol.specs.Views.{still_keeps};

use crate::protocol::Protocol;

/// What becomes of a seat's view at a step that the seat makes.
pub trait Deed<P: Protocol>: Copy {
    /// The seat may make the step with this deed, by what it has of the state and by its view.
    ghost ready: { Self → P → OwnPart → P.View → PlainAct → Type 0 };

    /// The view after the step, by what the seat itself has before it and after it, and by the number that it found.
    ghost next: { Self → P → OwnPart → OwnPart → P.View → PlainAct → ℕ → P.View };

    /// What the deed tells of the step: the states and the views before and after it.
    ghost allows: { Self → P → Plain → Plain → ℕ → P.View → P.View → Type 0 };

    /// A step that the deed is ready for keeps the protocol's law, and the deed allows it.
    ghost keeps: { (it : Self) (of : P)
        → Keeps (P.law of) P.gone (ready it of) (next it of) (allows it of) };
}

/// The deed that leaves the view as it is, at a calm step.
#[derive(Clone, Copy, Debug, Drop)]
pub struct Still;

impl<P: Protocol> Deed<P> for Still {
    ghost ready = { λ it of own v act. IsCalm act };

    ghost next = { λ it of own after v act found. v };

    ghost allows = { λ it of p q n v w. w ≡ v };

    ghost keeps = { λ it of. still_keeps (P.law of) P.gone (P.calm of) };
}
