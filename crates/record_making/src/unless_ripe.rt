//! A deed of a store into a field, where the seat's own view can't tell that the slot isn't one that it is to destroy.
ghost use Rattle.record_making.specs.UnlessRipe.{TellsNothing, is_clear, ready_unless, next_unless, unless_keeps};

use atomic_shared::{Deed, Protocol};

/// A deed, at a store into a field. A store into a field of a slot that the seat is to destroy would be a calm step,
/// and leave the view as it is; a seat that owns the slot strongly never is to destroy it.
#[derive(Clone, Copy, Debug, Drop)]
pub struct UnlessRipe<D> {
    pub deed: D,
}

impl<P: Protocol, D: Deed<P>> Deed<P> for UnlessRipe<D> {
    ghost ready = { λ it of. ready_unless (D.ready it.deed of) };

    ghost next = { λ it of. next_unless (D.next it.deed of) };

    ghost allows = { λ it of. TellsNothing };

    ghost keeps = { λ it of. unless_keeps (P.law of) P.gone (D.ready it.deed of)
        (D.next it.deed of) (D.allows it.deed of) (P.calm of) (D.keeps it.deed of) };
}
