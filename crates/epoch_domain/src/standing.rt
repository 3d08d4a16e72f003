//! What a domain and its seats tell of themselves, without a step.
ghost use Rattle.std.specs.Prelude.{◌≡◌, ◌≤◌, ◌↔◌, ◌+◌, ◌-◌, ◌^◌, [], IfSome, IsNone, IsTrue, OnOk, length, min, slice_index_or};
ghost use Rattle.epoch_rule.specs.epoch_core.declared.view.EpochPhase.TheVariants as phase;
ghost use Rattle.epoch_rule.specs.Views.{IsAlone, KnowsAll};
ghost use Rattle.epoch_domain.specs.Calls.{IsOf};

use crate::domain::EpochDomain;
use crate::seat::EpochSeat;
use epoch_parts::{EpochPhase, EpochShape, OutOfMemory, SlotId};
use epoch_rule::Protocol;

impl<P: Protocol> EpochDomain<P> {
    /// Whether the seat is seat 0, and every other one has left. It knows the whole core then.
    pub fn alone(&self, seat: &EpochSeat<P>) -> bool
        requires { IsOf self.now seat.now }
        ensures alone { IsTrue result ↔ IsAlone seat.now.view }
        ensures knows { KnowsAll seat.now.view }
    {
        seat.number == 0 && seat.left == self.shape.seats - 1
    }

    /// How many adds the seat has used of its quota.
    pub fn adds(&self, seat: &EpochSeat<P>) -> u64
        requires { IsOf self.now seat.now }
        ensures { result ≡ seat.now.view.core.adds }
    {
        seat.adds
    }

    /// How many makes the seat has used of its quota.
    pub fn makes(&self, seat: &EpochSeat<P>) -> u64
        requires { IsOf self.now seat.now }
        ensures { result ≡ seat.now.view.core.makes }
    {
        seat.makes
    }

    /// How many adds the seat has left of its quota.
    pub fn adds_left(&self, seat: &EpochSeat<P>) -> u64
        requires { IsOf self.now seat.now }
        ensures { result + seat.now.view.core.adds ≡ seat.now.view.core.quota.adds }
    {
        seat.quota.adds - seat.adds
    }

    /// How many makes the seat has left of its quota.
    pub fn makes_left(&self, seat: &EpochSeat<P>) -> u64
        requires { IsOf self.now seat.now }
        ensures { result + seat.now.view.core.makes ≡ seat.now.view.core.quota.makes }
    {
        seat.quota.makes - seat.makes
    }

    /// The sizes of the domain.
    pub fn shape(&self) -> EpochShape
        ensures { result ≡ self.now.shape }
    {
        self.shape
    }

    /// How many references the seat has yet to give up, and objects to destroy, together, where they are fewer than
    /// 2^64. It takes a step, and one more at seat 0 for each seat that left.
    pub fn waiting(&self, seat: &EpochSeat<P>) -> u64
        requires { IsOf self.now seat.now }
        ensures { result ≡ min (length seat.now.view.core.pending + length seat.now.view.core.dying)
            (2 ^ 64 - 1) }
    {
        seat.pending.len().saturating_add(seat.ended.len())
    }

    /// The slot that the seat ended first and hasn't destroyed yet. None exactly where there is none.
    pub fn first_ended(&self, seat: &EpochSeat<P>) -> Option<SlotId>
        requires { IsOf self.now seat.now }
        ensures none { IsNone result ↔ (seat.now.view.core.dying ≡ []) }
        ensures first { IfSome result
            (λ slot. slot ≡ slice_index_or seat.now.view.core.dying 0 slot) }
    {
        seat.ended.first()
    }

    /// Whether the seat is in the middle of nothing.
    pub fn is_idle(&self, seat: &EpochSeat<P>) -> bool
        requires { IsOf self.now seat.now }
        ensures { IsTrue result ↔ (seat.now.view.core.phase ≡ phase.Idle) }
    {
        matches!(seat.phase, EpochPhase::Idle)
    }

    /// The epoch that the seat's last flush knew in the end, 0 before the first one.
    pub fn known(&self, seat: &EpochSeat<P>) -> u64
        requires { IsOf self.now seat.now }
        ensures { result ≡ seat.now.view.core.known }
    {
        seat.known
    }

    /// Room for so many pending entries more. All else is as it was, also where there is no memory; the room may be
    /// another one then.
    pub fn reserve(&self, seat: &mut EpochSeat<P>, more: usize) -> Result<(), OutOfMemory>
        requires { IsOf self.now seat.old }
        ensures same { (seat.new.table ≡ seat.old.table) × (seat.new.view ≡ seat.old.view) }
        ensures room { OnOk result (more ≤ seat.new.room) }
    {
        seat.pending.reserve(more)
    }
}
