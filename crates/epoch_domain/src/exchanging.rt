//! Calls that read a place or change it, and the one that dates what was taken out. Each is one atomic step.
ghost use Rattle.std.specs.Prelude.{◌≡◌, ◌<◌};
ghost use Rattle.epoch_rule.specs.epoch_core.declared.act.EpochAct.TheVariants as act;
ghost use Rattle.epoch_rule.specs.epoch_core.Steps.{May};
ghost use Rattle.epoch_domain.specs.Calls.{IsOf, IsReady, IsSameView, Steps, same_view};
ghost use Rattle.epoch_domain.specs.Exchanging.{phase_taking};

use crate::domain::EpochDomain;
use crate::places::EPOCH;
use crate::seat::EpochSeat;
use epoch_parts::{
    Dated, EpochAct, EpochOutcome, EpochPhase, EventPlace, SlotId, found_in, held_as,
};
use epoch_rule::{Deed, Protocol, Still};
use std::marker::Brand;

/// What a seat is in the middle of once it took this content out of a place.
fn took(content: Option<SlotId>) -> EpochPhase
    ensures { result ≡ phase_taking content }
{
    match content {
        Some(slot) => EpochPhase::Undated(slot),
        None => EpochPhase::Idle,
    }
}

impl<P: Protocol> EpochDomain<P> {
    /// Reads a place in a region. A slot that it finds is one that the region has seen.
    pub fn look<D: Deed<P>>(
        &self,
        seat: &mut EpochSeat<P>,
        place: EventPlace,
        deed: D,
    ) -> EpochOutcome
        requires seat { IsOf self.now seat.old }
        requires may { May self.now.shape (act.Look place) seat.old.view.core }
        requires deed { IsReady (D.ready deed self.now.protocol) (act.Look place) seat.old.view }
        ensures { Steps P.Kind.fits self.now (D.next deed self.now.protocol)
            (D.allows deed self.now.protocol) (act.Look place) seat.old seat.new result }
    {
        let _sizes = &self.shape;
        let at = self.place_word(place);
        let found = self.load_as::<D, Brand>(&mut seat.seat, EpochAct::Look(place), deed, at);
        EpochOutcome::Found(found_in(found))
    }

    /// Puts null, or a reference that the seat gives, into a place, and takes out what the place held.
    pub fn swap<D: Deed<P>>(
        &self,
        seat: &mut EpochSeat<P>,
        place: EventPlace,
        new: Option<SlotId>,
        deed: D,
    ) -> EpochOutcome
        requires seat { IsOf self.now seat.old }
        requires may { May self.now.shape (act.Swap place new) seat.old.view.core }
        requires deed { IsReady (D.ready deed self.now.protocol) (act.Swap place new) seat.old.view }
        ensures { Steps P.Kind.fits self.now (D.next deed self.now.protocol)
            (D.allows deed self.now.protocol) (act.Swap place new) seat.old seat.new result }
    {
        let _sizes = &self.shape;
        let at = self.place_word(place);
        let word = held_as(new);
        let found = self.swap_as::<D, Brand>(
            &mut seat.seat,
            EpochAct::Swap(place, new),
            deed,
            at,
            word,
        );
        let old = found_in(found);
        seat.phase = took(old);
        EpochOutcome::Found(old)
    }

    /// The same where the place holds what is expected: `Done`, else `LostTo` what it holds, and nothing has changed.
    pub fn cas<D: Deed<P>>(
        &self,
        seat: &mut EpochSeat<P>,
        place: EventPlace,
        old: Option<SlotId>,
        new: Option<SlotId>,
        deed: D,
    ) -> EpochOutcome
        requires seat { IsOf self.now seat.old }
        requires may { May self.now.shape (act.Cas place old new) seat.old.view.core }
        requires deed { IsReady (D.ready deed self.now.protocol) (act.Cas place old new)
            seat.old.view }
        ensures { Steps P.Kind.fits self.now (D.next deed self.now.protocol)
            (D.allows deed self.now.protocol) (act.Cas place old new) seat.old seat.new result }
    {
        let _sizes = &self.shape;
        let at = self.place_word(place);
        let expected = held_as(old);
        let word = held_as(new);
        let found = self.compare_exchange_as::<D, Brand>(
            &mut seat.seat,
            EpochAct::Cas(place, old, new),
            deed,
            at,
            expected,
            word,
        );
        let held = found_in(found);
        if found != expected {
            return EpochOutcome::LostTo(held);
        }
        seat.phase = took(held);
        EpochOutcome::Done
    }

    /// A field of a slot that the seat has ended becomes null, and the seat takes out what it held.
    pub fn clear(&self, seat: &mut EpochSeat<P>, slot: SlotId, field: u32) -> EpochOutcome
        requires seat { IsOf self.now seat.old }
        requires may { May self.now.shape (act.Clear slot field) seat.old.view.core }
        ensures { Steps P.Kind.fits self.now same_view IsSameView (act.Clear slot field)
            seat.old seat.new result }
    {
        let _sizes = &self.shape;
        let at = self.field_word(slot, field);
        let found = self.swap_as::<Still, Brand>(
            &mut seat.seat,
            EpochAct::Clear(slot, field),
            Still,
            at,
            0,
        );
        let old = found_in(found);
        seat.phase = took(old);
        EpochOutcome::Found(old)
    }

    /// Reads the epoch, which dates what an exchange has just taken out of a place: from then on it is a pending entry.
    pub fn date(&self, seat: &mut EpochSeat<P>) -> EpochOutcome
        requires seat { IsOf self.now seat.old }
        requires may { May self.now.shape act.Date seat.old.view.core }
        requires room { 0 < seat.old.room }
        ensures { Steps P.Kind.fits self.now same_view IsSameView act.Date seat.old seat.new
            result }
    {
        let _sizes = &self.shape;
        let EpochPhase::Undated(slot) = seat.phase else {
            unreachable!()
        };
        let date = self.load_as::<Still, Brand>(&mut seat.seat, EpochAct::Date, Still, EPOCH);
        seat.pending.push(Dated { slot, date });
        seat.phase = EpochPhase::Idle;
        EpochOutcome::Epoch(date)
    }
}
