//! The deed of a look that does something only where it finds null.
ghost use Rattle.protected_loads.specs.Looks.{where_null_keeps};
ghost use Rattle.protected_loads.specs.Nulls.{AllowsWhereNull, next_where_null, ready_to_look};

use control_word::{Deed, EventPlace, Protocol};

/// A deed, at the look that begins a load. Where the place is null that look is the load's only event, and the deed
/// holds at it; else the deed waits for the check, and the look leaves the view as it is.
#[derive(Clone, Copy, Debug, Drop)]
pub struct WhereNull<D> {
    pub deed: D,
    pub place: EventPlace,
}

impl<P: Protocol, D: Deed<P>> Deed<P> for WhereNull<D> {
    ghost ready = { λ it of. ready_to_look it.place (D.ready it.deed of) };

    ghost next = { λ it of. next_where_null it.place (D.next it.deed of) };

    ghost allows = { λ it of. AllowsWhereNull it.place (D.allows it.deed of) };

    ghost keeps = { λ it of. where_null_keeps (P.law of) P.gone (D.ready it.deed of)
        (D.next it.deed of) (D.allows it.deed of) it.place (P.calm of) (D.keeps it.deed of) };
}
