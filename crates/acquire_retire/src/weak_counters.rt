//! Calls on the weak words of slots, and the one that gives a slot back. Each is one atomic step.
ghost use Rattle.std.specs.Prelude.{◌≡◌};
ghost use Rattle.core_promises.specs.core_events.declared.act.Act.TheVariants as act;
ghost use Rattle.core_promises.specs.core_events.Steps.{May};
ghost use Rattle.domain_rule.specs.Views.{HasCleared};
ghost use Rattle.acquire_retire.specs.Calls.{IsOf, IsSameView, Steps, same_view};

use crate::domain::Domain;
use crate::hints::remember;
use crate::seat::Seat;
use core_promises::{Act, Kind, Outcome, Phase, SlotId};
use domain_rule::{Protocol, Still};
use dying_slots::{bit_alone, given_up};
use std::marker::Brand;

impl<P: Protocol> Domain<P> {
    /// Counts one more weak reference to a slot that the seat holds.
    pub fn wadd(&self, seat: &mut Seat<P>, slot: SlotId) -> Outcome
        requires seat { IsOf self.now seat.old }
        requires may { May self.now.shape (act.Wadd slot) seat.old.view.core }
        ensures { Steps P.Kind.fits self.now same_view IsSameView (act.Wadd slot)
            seat.old seat.new result }
    {
        let word = self.counter_word(Kind::Weak, slot);
        self.fetch_add_as::<Still, Brand>(&mut seat.seat, Act::Wadd(slot), Still, word, 1);
        seat.adds += 1;
        Outcome::Plain
    }

    /// Gives up a weak reference that the seat owns: `Last` where it was the last one, and the seat is to give the
    /// slot back then.
    pub fn wdrop(&self, seat: &mut Seat<P>, slot: SlotId) -> Outcome
        requires seat { IsOf self.now seat.old }
        requires may { May self.now.shape (act.Wdrop slot) seat.old.view.core }
        ensures { Steps P.Kind.fits self.now same_view IsSameView (act.Wdrop slot)
            seat.old seat.new result }
    {
        let word = self.counter_word(Kind::Weak, slot);
        let found = self.fetch_sub_as::<Still, Brand>(
            &mut seat.seat,
            Act::Wdrop(slot),
            Still,
            word,
        );
        let (phase, outcome) = given_up(Kind::Weak, slot, found);
        seat.phase = phase;
        outcome
    }

    /// Reads the weak word of a slot that the seat holds.
    pub fn wcount(&self, seat: &mut Seat<P>, slot: SlotId) -> Outcome
        requires seat { IsOf self.now seat.old }
        requires may { May self.now.shape (act.Wcount slot) seat.old.view.core }
        ensures { Steps P.Kind.fits self.now same_view IsSameView (act.Wcount slot)
            seat.old seat.new result }
    {
        let word = self.counter_word(Kind::Weak, slot);
        let found = self.load_as::<Still, Brand>(&mut seat.seat, Act::Wcount(slot), Still, word);
        Outcome::Word(found)
    }

    /// Gives up the own weak reference of a ripe slot, all of whose fields the seat itself has left null: `Last` where
    /// it was the last one, and the seat is to give the slot back then.
    pub fn destroy(&self, seat: &mut Seat<P>, slot: SlotId) -> Outcome
        requires seat { IsOf self.now seat.old }
        requires may { May self.now.shape (act.Destroy slot) seat.old.view.core }
        requires cleared { HasCleared seat.old.view slot }
        ensures { Steps P.Kind.fits self.now same_view IsSameView (act.Destroy slot)
            seat.old seat.new result }
    {
        let _sizes = &self.shape;
        let word = self.counter_word(Kind::Weak, slot);
        let found = self.fetch_sub_as::<Still, Brand>(
            &mut seat.seat,
            Act::Destroy(slot),
            Still,
            word,
        );
        seat.dying.take(slot);
        let (phase, outcome) = given_up(Kind::Weak, slot, found);
        seat.phase = phase;
        outcome
    }

    /// Gives back the slot whose weak word the seat took to 0: it sets the slot's bit, and the slot is free to be
    /// claimed then. The seat remembers it, to look there first.
    pub fn free(&self, seat: &mut Seat<P>) -> Outcome
        requires seat { IsOf self.now seat.old }
        requires may { May self.now.shape act.Free seat.old.view.core }
        ensures { Steps P.Kind.fits self.now same_view IsSameView act.Free
            seat.old seat.new result }
    {
        let Phase::Give(slot) = seat.phase else {
            unreachable!()
        };
        let word = self.bits_word(slot);
        let bit = bit_alone(slot);
        self.fetch_add_as::<Still, Brand>(&mut seat.seat, Act::Free, Still, word, bit);
        seat.phase = Phase::Idle;
        remember(&mut seat.freed, slot);
        Outcome::Plain
    }
}
