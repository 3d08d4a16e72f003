//! Calls on the count words of slots. Each is one atomic step.
ghost use Rattle.std.specs.Prelude.{◌≡◌, All, IfSome, IsNone};
ghost use Rattle.epoch_rule.specs.epoch_core.declared.act.EpochAct.TheVariants as act;
ghost use Rattle.epoch_rule.specs.epoch_core.Steps.{IsDue, May};
ghost use Rattle.epoch_rule.specs.epoch_core.Views.{IsIdle};
ghost use Rattle.epoch_rule.specs.Views.{HasCleared};
ghost use Rattle.epoch_domain.specs.Calls.{IsOf, IsSameView, Steps, same_view};

use crate::domain::EpochDomain;
use crate::seat::EpochSeat;
use epoch_parts::{Dated, EpochAct, EpochOutcome, EpochPhase, SlotId};
use epoch_rule::{Protocol, Still};
use std::marker::Brand;

/// The count word of a free slot.
const FREE: u64 = 1 << 63;

impl<P: Protocol> EpochDomain<P> {
    /// Claims a slot: `Claimed` where it was free, and the seat is to fill it then, else `Taken`, with its count word.
    pub fn claim(&self, seat: &mut EpochSeat<P>, slot: SlotId) -> EpochOutcome
        requires seat { IsOf self.now seat.old }
        requires may { May self.now.shape (act.Claim slot) seat.old.view.core }
        ensures { Steps P.Kind.fits self.now same_view IsSameView (act.Claim slot)
            seat.old seat.new result }
    {
        let word = self.slot_word(slot);
        let found = self.compare_exchange_as::<Still, Brand>(
            &mut seat.seat,
            EpochAct::Claim(slot),
            Still,
            word,
            FREE,
            0,
        );
        if found == FREE {
            seat.makes += 1;
            seat.phase = EpochPhase::Blank(slot);
            return EpochOutcome::Claimed;
        }
        EpochOutcome::Taken(found)
    }

    /// Counts one more reference to a slot that the seat owns or its region has seen.
    pub fn add(&self, seat: &mut EpochSeat<P>, slot: SlotId) -> EpochOutcome
        requires seat { IsOf self.now seat.old }
        requires may { May self.now.shape (act.Add slot) seat.old.view.core }
        ensures { Steps P.Kind.fits self.now same_view IsSameView (act.Add slot)
            seat.old seat.new result }
    {
        let word = self.slot_word(slot);
        self.fetch_add_as::<Still, Brand>(&mut seat.seat, EpochAct::Add(slot), Still, word, 1);
        seat.adds += 1;
        EpochOutcome::Plain
    }

    /// Gives up a reference that the seat owns: `Ended` where it was the last one, and the seat is to destroy the
    /// object then, else `Left`.
    pub fn drop(&self, seat: &mut EpochSeat<P>, slot: SlotId) -> EpochOutcome
        requires seat { IsOf self.now seat.old }
        requires may { May self.now.shape (act.Drop slot) seat.old.view.core }
        ensures { Steps P.Kind.fits self.now same_view IsSameView (act.Drop slot)
            seat.old seat.new result }
    {
        let _sizes = &self.shape;
        let word = self.slot_word(slot);
        let found = self.fetch_sub_as::<Still, Brand>(
            &mut seat.seat,
            EpochAct::Drop(slot),
            Still,
            word,
        );
        if found == 1 {
            seat.ended.push(slot);
            return EpochOutcome::Ended;
        }
        EpochOutcome::Left
    }

    /// Gives up the reference of the first entry that is due, as a drop does, and answers which entry that was. None
    /// exactly where none is due; nothing has changed then.
    pub fn pay(&self, seat: &mut EpochSeat<P>) -> Option<(Dated, EpochOutcome)>
        requires seat { IsOf self.now seat.old }
        requires idle { IsIdle seat.old.view.core }
        ensures paid { IfSome result (λ r. Steps P.Kind.fits self.now same_view IsSameView
            (act.Pay r.0) seat.old seat.new r.1) }
        ensures none { IsNone result
            → All (λ x. IsDue x seat.old.view.core → ⊥) seat.old.view.core.pending }
        ensures same { IsNone result → seat.new ≡ seat.old }
    {
        let _sizes = &self.shape;
        let entry = seat.pending.take_due(seat.known)?;
        let word = self.slot_word(entry.slot);
        let found = self.fetch_sub_as::<Still, Brand>(
            &mut seat.seat,
            EpochAct::Pay(entry),
            Still,
            word,
        );
        if found == 1 {
            seat.ended.push(entry.slot);
            return Some((entry, EpochOutcome::Ended));
        }
        Some((entry, EpochOutcome::Left))
    }

    /// Gives back a slot that the seat has ended, whose fields it has left null: its object is destroyed.
    pub fn free(&self, seat: &mut EpochSeat<P>, slot: SlotId) -> EpochOutcome
        requires seat { IsOf self.now seat.old }
        requires may { May self.now.shape (act.Free slot) seat.old.view.core }
        requires cleared { HasCleared seat.old.view slot }
        ensures { Steps P.Kind.fits self.now same_view IsSameView (act.Free slot)
            seat.old seat.new result }
    {
        let word = self.slot_word(slot);
        self.store_as::<Still, Brand>(&mut seat.seat, EpochAct::Free(slot), Still, word, FREE);
        seat.ended.take(slot);
        seat.hints.remember(slot);
        EpochOutcome::Plain
    }
}
