//! Where a seat looks first for a free slot: at those that it gave back itself, and then where its last search ended.
//! These are hints. Another seat may have claimed a slot meanwhile, so whether it is free is told by a claim alone.
ghost use Rattle.std.specs.Prelude.{◌≡◌, ◌<◌, IfSome};
ghost use Rattle.epoch_domain.specs.Calls.{IsOf};

use crate::domain::EpochDomain;
use crate::seat::EpochSeat;
use epoch_parts::SlotId;
use epoch_rule::Protocol;

impl<P: Protocol> EpochDomain<P> {
    /// The slot that the seat gave back last, of at most 64 that it remembers; it is forgotten then.
    pub fn take_freed(&self, seat: &mut EpochSeat<P>) -> Option<SlotId>
        requires { IsOf self.now seat.old }
        ensures same { seat.new ≡ seat.old }
        ensures there { IfSome result (λ s. s.0 < self.now.shape.slots) }
    {
        seat.hints.take_freed(self.shape.slots)
    }

    /// The slot at which the seat's next search begins: where its last one ended, and at first apart from the other
    /// seats.
    pub fn search_start(&self, seat: &EpochSeat<P>) -> SlotId
        requires { IsOf self.now seat.now }
        ensures { result.0 < self.now.shape.slots }
    {
        seat.hints.search_start(self.shape.slots)
    }

    /// Remembers where a search ended.
    pub fn end_search(&self, seat: &mut EpochSeat<P>, at: SlotId)
        requires { IsOf self.now seat.old }
        ensures { seat.new ≡ seat.old }
    {
        seat.hints.end_search(at);
    }
}
