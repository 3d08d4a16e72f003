//! What a domain and its seats tell of themselves, without a step.
ghost use Rattle.std.specs.Prelude.{◌<◌, ◌≡◌, ◌≤◌, ◌↔◌, ◌+◌, false, [], IfSome, IsNone, IsTrue, length, slice_index_or};
ghost use Rattle.plain_state.specs.declared.slot.SlotId.{SlotId};
ghost use Rattle.plain_state.specs.Lists.{times};
ghost use Rattle.core_promises.specs.core_events.Views.{allowed_makes};
ghost use Rattle.domain_rule.specs.Views.{IsAlone, KnowsAll};
ghost use Rattle.acquire_retire.specs.Calls.{IsOf};
ghost use Rattle.acquire_retire.specs.Notes.{least_free};
ghost use Rattle.acquire_retire.specs.Seats.{HasBatch};

use crate::domain::Domain;
use crate::seat::Seat;
use core_promises::{Shape, SlotId};
use domain_rule::Protocol;

impl<P: Protocol> Domain<P> {
    /// Whether the seat is seat 0, and every other one has left. It knows the whole core then.
    pub fn alone(&self, seat: &Seat<P>) -> bool
        requires { IsOf self.now seat.now }
        ensures alone { IsTrue result ↔ IsAlone seat.now.view }
        ensures knows { KnowsAll seat.now.view }
    {
        seat.number == 0 && seat.left == self.shape.seats - 1
    }

    /// How many adds the seat has used of its quota.
    pub fn adds(&self, seat: &Seat<P>) -> u64
        requires { IsOf self.now seat.now }
        ensures { result ≡ seat.now.view.core.adds }
    {
        seat.adds
    }

    /// How many makes the seat has used of its quota.
    pub fn makes(&self, seat: &Seat<P>) -> u64
        requires { IsOf self.now seat.now }
        ensures { result ≡ seat.now.view.core.makes }
    {
        seat.makes
    }

    /// How many adds the seat has left of its quota.
    pub fn adds_left(&self, seat: &Seat<P>) -> u64
        requires { IsOf self.now seat.now }
        ensures { result + seat.now.view.core.adds ≡ seat.now.view.core.quota.adds }
    {
        seat.quota.adds - seat.adds
    }

    /// How many makes the seat has left of its quota and of what its own tickets grant.
    pub fn makes_left(&self, seat: &Seat<P>) -> u64
        requires seat { IsOf self.now seat.now }
        requires here { seat.now.view.core.left ≡ false }
        ensures { result + seat.now.view.core.makes ≡ allowed_makes seat.now.view.core }
    {
        seat.quota.makes + seat.granted - seat.makes
    }

    /// How many entries the seat has retired and neither paid for nor found to be owed. Every seat has room for one of
    /// each announcement word, and a batch.
    pub fn deferred(&self, seat: &Seat<P>) -> u32
        requires { IsOf self.now seat.now }
        ensures count { result ≡ length seat.now.view.core.retired }
        ensures room { HasBatch seat.now.view.core }
    {
        seat.batch.len()
    }

    /// A slot that the seat has ended and not yet destroyed: the first ripe one, or else the first of the others.
    pub fn next_dying(&self, seat: &Seat<P>) -> Option<SlotId>
        requires { IsOf self.now seat.now }
        ensures none { IsNone result ↔ (seat.now.view.core.dying ≡ []) }
        ensures dying { IfSome result (λ s. 0 < times s seat.now.view.core.dying) }
    {
        match seat.dying.first_ripe() {
            Some(slot) => Some(slot),
            None => seat.dying.first_waiting(),
        }
    }

    /// The slot that comes first of those that the seat may destroy once it has left their fields null. Each of them is
    /// one that the seat has ended.
    pub fn next_ripe(&self, seat: &Seat<P>) -> Option<SlotId>
        requires { IsOf self.now seat.now }
        ensures none { IsNone result ↔ (seat.now.view.core.ripe ≡ []) }
        ensures first { IfSome result (λ s. s ≡ slice_index_or seat.now.view.core.ripe 0 s) }
        ensures dying { (s : SlotId)
            → times s seat.now.view.core.ripe ≤ times s seat.now.view.core.dying }
    {
        seat.dying.first_ripe()
    }

    /// The sizes of the domain.
    pub fn shape(&self) -> Shape
        ensures { result ≡ self.now.shape }
    {
        self.shape
    }

    /// The least of the announcement words 1 to 3 that stands for nothing.
    pub fn free_note(&self, seat: &Seat<P>) -> Option<u32>
        requires { IsOf self.now seat.now }
        ensures { result ≡ least_free seat.now.view.core }
    {
        if seat.announced[1].is_none() {
            Some(1)
        } else if seat.announced[2].is_none() {
            Some(2)
        } else if seat.announced[3].is_none() {
            Some(3)
        } else {
            None
        }
    }
}
