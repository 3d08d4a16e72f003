//! Calls that change a place. What it held is retired. Each is one atomic step.
ghost use Rattle.std.specs.Prelude.{◌≡◌};
ghost use Rattle.core_promises.specs.core_events.declared.act.Act.TheVariants as act;
ghost use Rattle.core_promises.specs.core_events.Steps.{May};
ghost use Rattle.acquire_retire.specs.Calls.{IsOf, IsReady, Steps};

use crate::domain::Domain;
use crate::seat::Seat;
use crate::splitting::retire;
use core_promises::{Act, EventPlace, Outcome, SlotId};
use domain_rule::{Deed, Protocol};
use dying_slots::{found_in, held_as, kind_of};
use std::marker::Brand;

impl<P: Protocol> Domain<P> {
    /// Puts null, or a reference that the seat gives, into a place, and retires what the place held. A field of a slot
    /// that the seat has ended takes null alone.
    pub fn swap<D: Deed<P>>(
        &self,
        seat: &mut Seat<P>,
        place: EventPlace,
        new: Option<SlotId>,
        deed: D,
    ) -> Outcome
        requires seat { IsOf self.now seat.old }
        requires may { May self.now.shape (act.Swap place new) seat.old.view.core }
        requires deed { IsReady (D.ready deed self.now.protocol) self.now.shape
            (act.Swap place new) seat.old.view }
        ensures { Steps P.Kind.fits self.now (D.next deed self.now.protocol)
            (D.allows deed self.now.protocol) (act.Swap place new) seat.old seat.new result }
    {
        let _sizes = &self.shape;
        let at = self.place_word(place);
        let word = held_as(new);
        let found = self.swap_as::<D, Brand>(&mut seat.seat, Act::Swap(place, new), deed, at, word);
        let old = found_in(found);
        retire(&mut seat.batch, kind_of(place), old);
        Outcome::Found(old)
    }

    /// The same where the place holds what is expected: `Done`, else `LostTo` what it holds, and nothing has changed.
    pub fn cas<D: Deed<P>>(
        &self,
        seat: &mut Seat<P>,
        place: EventPlace,
        old: Option<SlotId>,
        new: Option<SlotId>,
        deed: D,
    ) -> Outcome
        requires seat { IsOf self.now seat.old }
        requires may { May self.now.shape (act.Cas place old new) seat.old.view.core }
        requires deed { IsReady (D.ready deed self.now.protocol) self.now.shape
            (act.Cas place old new) seat.old.view }
        ensures { Steps P.Kind.fits self.now (D.next deed self.now.protocol)
            (D.allows deed self.now.protocol) (act.Cas place old new) seat.old seat.new result }
    {
        let _sizes = &self.shape;
        let at = self.place_word(place);
        let expected = held_as(old);
        let word = held_as(new);
        let found = self.compare_exchange_as::<D, Brand>(
            &mut seat.seat,
            Act::Cas(place, old, new),
            deed,
            at,
            expected,
            word,
        );
        let held = found_in(found);
        if found != expected {
            return Outcome::LostTo(held);
        }
        retire(&mut seat.batch, kind_of(place), held);
        Outcome::Done
    }
}
