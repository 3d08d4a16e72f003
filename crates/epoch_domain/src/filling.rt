//! Calls on a slot that a seat has claimed, and on the payload of an object. Each is one atomic step.
ghost use Rattle.std.specs.Prelude.{◌≡◌};
ghost use Rattle.epoch_rule.specs.epoch_core.declared.act.EpochAct.TheVariants as act;
ghost use Rattle.epoch_rule.specs.epoch_core.declared.view.EpochPhase.TheVariants as phase;
ghost use Rattle.epoch_rule.specs.epoch_core.Steps.{May};
ghost use Rattle.epoch_rule.specs.Views.{object_in};
ghost use Rattle.epoch_domain.specs.Calls.{IsOf, IsReady, IsSameView, Steps, same_view};

use crate::domain::EpochDomain;
use crate::seat::EpochSeat;
use epoch_parts::{EpochAct, EpochOutcome, EpochPhase, SlotId};
use epoch_rule::{Deed, Protocol, Still};
use std::marker::Brand;

impl<P: Protocol> EpochDomain<P> {
    /// Writes a payload word of the slot that the seat has claimed, which the caller names, so that where the word
    /// stands needn't be read.
    pub fn fill(&self, seat: &mut EpochSeat<P>, slot: SlotId, index: u32, word: u64) -> EpochOutcome
        requires seat { IsOf self.now seat.old }
        requires may { May self.now.shape (act.Fill index word) seat.old.view.core }
        requires blank { seat.old.view.core.phase ≡ phase.Blank slot }
        ensures { Steps P.Kind.fits self.now same_view IsSameView (act.Fill index word) seat.old
            seat.new result }
    {
        let at = self.payload_word(slot, index);
        self.store_as::<Still, Brand>(&mut seat.seat, EpochAct::Fill(index, word), Still, at, word);
        EpochOutcome::Plain
    }

    /// Makes the slot that the seat has filled live, with one reference, which is the seat's. What the seat has filled
    /// it with fits the protocol's kind of payload.
    pub fn start<D: Deed<P>>(&self, seat: &mut EpochSeat<P>, deed: D) -> EpochOutcome
        requires seat { IsOf self.now seat.old }
        requires may { May self.now.shape act.Start seat.old.view.core }
        requires fits { (slot : SlotId) → seat.old.view.core.phase ≡ phase.Blank slot
            → P.Kind.fits (object_in seat.old.view slot).payload }
        requires deed { IsReady (D.ready deed self.now.protocol) act.Start seat.old.view }
        ensures { Steps P.Kind.fits self.now (D.next deed self.now.protocol)
            (D.allows deed self.now.protocol) act.Start seat.old seat.new result }
    {
        let EpochPhase::Blank(slot) = seat.phase else {
            unreachable!()
        };
        let word = self.slot_word(slot);
        self.store_as::<D, Brand>(&mut seat.seat, EpochAct::Start, deed, word, 1);
        seat.adds += 1;
        seat.phase = EpochPhase::Idle;
        EpochOutcome::Plain
    }

    /// Reads a payload word of a slot that the seat owns, its region has seen, or it has ended.
    pub fn see(&self, seat: &mut EpochSeat<P>, slot: SlotId, index: u32) -> EpochOutcome
        requires seat { IsOf self.now seat.old }
        requires may { May self.now.shape (act.See slot index) seat.old.view.core }
        ensures { Steps P.Kind.fits self.now same_view IsSameView (act.See slot index) seat.old
            seat.new result }
    {
        let at = self.payload_word(slot, index);
        let found = self.load_as::<Still, Brand>(
            &mut seat.seat,
            EpochAct::See(slot, index),
            Still,
            at,
        );
        EpochOutcome::Word(found)
    }
}
