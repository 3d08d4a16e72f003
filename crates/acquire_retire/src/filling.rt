//! Calls on a slot that a seat claims, fills and makes live, and on the payload of an object. Each is one atomic
//! step.
ghost use Rattle.std.specs.Prelude.{◌≡◌};
ghost use Rattle.plain_state.specs.declared.slot.SlotId.{SlotId};
ghost use Rattle.core_promises.specs.core_events.declared.act.Act.TheVariants as act;
ghost use Rattle.core_promises.specs.core_events.declared.view.Phase.TheVariants as phase;
ghost use Rattle.core_promises.specs.core_events.Steps.{May};
ghost use Rattle.domain_rule.specs.Views.{object_in};
ghost use Rattle.acquire_retire.specs.Calls.{IsOf, IsReady, IsSameView, Steps, same_view};

use crate::domain::Domain;
use crate::seat::Seat;
use core_promises::{Act, Kind, Outcome, Phase, SlotId};
use domain_rule::{Deed, Protocol, Still};
use dying_slots::{bit_alone, has_bit};
use std::marker::Brand;

impl<P: Protocol> Domain<P> {
    /// Claims a slot: `Claimed` where its bit was set, and the seat is to arm it then, else `Taken`, with the word
    /// that has the slot's bit and those of its neighbours.
    pub fn claim(&self, seat: &mut Seat<P>, slot: SlotId) -> Outcome
        requires seat { IsOf self.now seat.old }
        requires may { May self.now.shape (act.Claim slot) seat.old.view.core }
        ensures { Steps P.Kind.fits self.now same_view IsSameView (act.Claim slot)
            seat.old seat.new result }
    {
        let word = self.bits_word(slot);
        let mask = !bit_alone(slot);
        let found = self.fetch_and_as::<Still, Brand>(
            &mut seat.seat,
            Act::Claim(slot),
            Still,
            word,
            mask,
        );
        if has_bit(found, slot) {
            seat.makes += 1;
            seat.phase = Phase::Bare(slot);
            return Outcome::Claimed;
        }
        Outcome::Taken(found)
    }

    /// Gives the slot that the seat has claimed its own weak reference, and the seat fills it then.
    pub fn arm(&self, seat: &mut Seat<P>) -> Outcome
        requires seat { IsOf self.now seat.old }
        requires may { May self.now.shape act.Arm seat.old.view.core }
        ensures { Steps P.Kind.fits self.now same_view IsSameView act.Arm
            seat.old seat.new result }
    {
        let Phase::Bare(slot) = seat.phase else {
            unreachable!()
        };
        let word = self.counter_word(Kind::Weak, slot);
        // Before the step, since the first fill would wait for a write that comes after it.
        seat.phase = Phase::Blank(slot);
        self.store_as::<Still, Brand>(&mut seat.seat, Act::Arm, Still, word, 1);
        Outcome::Plain
    }

    /// Writes a payload word of the slot that the seat has claimed and armed.
    pub fn fill(&self, seat: &mut Seat<P>, index: u32, word: u64) -> Outcome
        requires seat { IsOf self.now seat.old }
        requires may { May self.now.shape (act.Fill index word) seat.old.view.core }
        ensures { Steps P.Kind.fits self.now same_view IsSameView (act.Fill index word) seat.old
            seat.new result }
    {
        let Phase::Blank(slot) = seat.phase else {
            unreachable!()
        };
        self.fill_in(seat, slot, index, word)
    }

    /// The same of the slot that the seat fills, named by the caller, so that where the word stands needn't be read.
    pub fn fill_in(&self, seat: &mut Seat<P>, slot: SlotId, index: u32, word: u64) -> Outcome
        requires seat { IsOf self.now seat.old }
        requires may { May self.now.shape (act.Fill index word) seat.old.view.core }
        requires blank { seat.old.view.core.phase ≡ phase.Blank slot }
        ensures { Steps P.Kind.fits self.now same_view IsSameView (act.Fill index word) seat.old
            seat.new result }
    {
        let at = self.payload_word(slot, index);
        self.store_as::<Still, Brand>(&mut seat.seat, Act::Fill(index, word), Still, at, word);
        Outcome::Plain
    }

    /// Makes the slot that the seat has filled live, with one strong reference, which is the seat's. What the seat
    /// has filled it with fits the protocol's kind of payload.
    pub fn start<D: Deed<P>>(&self, seat: &mut Seat<P>, deed: D) -> Outcome
        requires seat { IsOf self.now seat.old }
        requires may { May self.now.shape act.Start seat.old.view.core }
        requires fits { (slot : SlotId) → seat.old.view.core.phase ≡ phase.Blank slot
            → P.Kind.fits (object_in seat.old.view slot).payload }
        requires deed { IsReady (D.ready deed self.now.protocol) self.now.shape act.Start
            seat.old.view }
        ensures { Steps P.Kind.fits self.now (D.next deed self.now.protocol)
            (D.allows deed self.now.protocol) act.Start seat.old seat.new result }
    {
        let Phase::Blank(slot) = seat.phase else {
            unreachable!()
        };
        let word = self.slot_word(slot);
        self.store_as::<D, Brand>(&mut seat.seat, Act::Start, deed, word, 1);
        seat.adds += 1;
        seat.phase = Phase::Idle;
        Outcome::Plain
    }

    /// Reads a payload word of a slot that the seat holds or has ended.
    pub fn see(&self, seat: &mut Seat<P>, slot: SlotId, index: u32) -> Outcome
        requires seat { IsOf self.now seat.old }
        requires may { May self.now.shape (act.See slot index) seat.old.view.core }
        ensures { Steps P.Kind.fits self.now same_view IsSameView (act.See slot index) seat.old
            seat.new result }
    {
        let at = self.payload_word(slot, index);
        let found = self.load_as::<Still, Brand>(&mut seat.seat, Act::See(slot, index), Still, at);
        Outcome::Word(found)
    }
}
