//! What a seat learns of the law.
ghost use Rattle.std.specs.Prelude.{◌≡◌};
ghost use Rattle.plain_protocol.specs.Acts.{IsCalm};
ghost use Rattle.law_lesson.specs.Lessons.{HoldsOf};
ghost use Rattle.law_lesson.specs.Learns.{learn_keeps};

use plain_protocol::{Deed, Protocol};

/// The deed that leaves the view as it is, at a calm step, and tells that the law held before it.
#[derive(Clone, Copy, Debug, Drop)]
pub struct LearnLaw;

impl<P: Protocol> Deed<P> for LearnLaw {
    ghost ready = { λ it of own v act. IsCalm act };

    ghost next = { λ it of own after v act found. v };

    ghost allows = { λ it of p q n v w. (w ≡ v) × HoldsOf (P.law of) P.gone p n v };

    ghost keeps = { λ it of. learn_keeps (P.law of) P.gone (P.calm of) };
}
