//! Where a seat looks first for a free slot: at those that it gave back itself, and then where its last search ended.
//! These are hints. Another seat may have claimed a slot meanwhile, so whether it is free is told by a claim alone.
ghost use Rattle.std.specs.Prelude.{◌≡◌, ◌<◌, IfSome};
ghost use Rattle.acquire_retire.specs.Calls.{IsOf};

use crate::domain::Domain;
use crate::seat::Seat;
use core_promises::SlotId;
use domain_rule::Protocol;

/// Remembers a slot that was given back, if there is room.
pub(crate) fn remember(freed: &mut Vec<SlotId>, slot: SlotId) {
    if freed.len() < freed.capacity() {
        freed.push_reserved(slot);
    }
}

impl<P: Protocol> Domain<P> {
    /// The slot that the seat gave back last, of at most 64 that it remembers; it is forgotten then.
    pub fn take_freed(&self, seat: &mut Seat<P>) -> Option<SlotId>
        requires { IsOf self.now seat.old }
        ensures same { seat.new ≡ seat.old }
        ensures there { IfSome result (λ s. s.0 < self.now.shape.slots) }
    {
        let slot = seat.freed.pop()?;
        if slot.0 < self.shape.slots {
            Some(slot)
        } else {
            None
        }
    }

    /// The slot at which the seat's next search begins: where its last one ended, and at first apart from the other
    /// seats.
    pub fn search_start(&self, seat: &Seat<P>) -> SlotId
        requires { IsOf self.now seat.now }
        ensures { result.0 < self.now.shape.slots }
    {
        SlotId(seat.searched % self.shape.slots)
    }

    /// Remembers where a search ended.
    pub fn end_search(&self, seat: &mut Seat<P>, at: SlotId)
        requires { IsOf self.now seat.old }
        ensures { seat.new ≡ seat.old }
    {
        seat.searched = at.0;
    }
}
