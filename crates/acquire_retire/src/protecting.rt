//! Calls that protect what a seat reads from a place. Each is one atomic step.
ghost use Rattle.std.specs.Prelude.{◌≡◌};
ghost use Rattle.core_promises.specs.core_events.declared.act.Act.TheVariants as act;
ghost use Rattle.core_promises.specs.core_events.Steps.{May};
ghost use Rattle.acquire_retire.specs.Calls.{IsOf, IsReady, IsSameView, Steps, same_view};

use crate::domain::Domain;
use crate::seat::Seat;
use core_promises::{Act, EventPlace, Kind, Outcome, SlotId, announced_as};
use domain_rule::{Deed, Protocol, Still};
use dying_slots::{found_in, held_as, note_index};
use plain_state::value;
use std::marker::Brand;

impl<P: Protocol> Domain<P> {
    /// Announces a reference, by one of the seat's four announcement words.
    pub fn announce(&self, seat: &mut Seat<P>, note: u32, kind: Kind, slot: SlotId) -> Outcome
        requires seat { IsOf self.now seat.old }
        requires may { May self.now.shape (act.Announce note kind slot) seat.old.view.core }
        ensures { Steps P.Kind.fits self.now same_view IsSameView (act.Announce note kind slot)
            seat.old seat.new result }
    {
        let at = note_index(seat.number, note);
        let code = announced_as(kind, slot);
        // Before the step, so that the seat writes nothing of its own between it and the next locked step, which would
        // wait for that.
        seat.announced[note as usize] = Some(slot);
        self.store_as::<Still, Brand>(
            &mut seat.seat,
            Act::Announce(note, kind, slot),
            Still,
            at,
            code,
        );
        Outcome::Plain
    }

    /// Takes an announcement back, and ends the snapshot that it protected.
    pub fn release(&self, seat: &mut Seat<P>, note: u32) -> Outcome
        requires seat { IsOf self.now seat.old }
        requires may { May self.now.shape (act.Release note) seat.old.view.core }
        ensures { Steps P.Kind.fits self.now same_view IsSameView (act.Release note)
            seat.old seat.new result }
    {
        let at = note_index(seat.number, note);
        self.store_as::<Still, Brand>(&mut seat.seat, Act::Release(note), Still, at, 0);
        seat.announced[note as usize] = None;
        Outcome::Plain
    }

    /// Reads a place.
    pub fn look<D: Deed<P>>(&self, seat: &mut Seat<P>, place: EventPlace, deed: D) -> Outcome
        requires seat { IsOf self.now seat.old }
        requires may { May self.now.shape (act.Look place) seat.old.view.core }
        requires deed { IsReady (D.ready deed self.now.protocol) self.now.shape (act.Look place)
            seat.old.view }
        ensures { Steps P.Kind.fits self.now (D.next deed self.now.protocol)
            (D.allows deed self.now.protocol) (act.Look place) seat.old seat.new result }
    {
        let _sizes = &self.shape;
        let at = self.place_word(place);
        let found = self.load_as::<D, Brand>(&mut seat.seat, Act::Look(place), deed, at);
        Outcome::Found(found_in(found))
    }

    /// Reads a place again after an announcement: `Valid` where it holds the slot that was announced, and the seat is
    /// under a snapshot of it then, else `Moved`.
    pub fn check<D: Deed<P>>(
        &self,
        seat: &mut Seat<P>,
        note: u32,
        place: EventPlace,
        deed: D,
    ) -> Outcome
        requires seat { IsOf self.now seat.old }
        requires may { May self.now.shape (act.Check note place) seat.old.view.core }
        requires deed { IsReady (D.ready deed self.now.protocol) self.now.shape
            (act.Check note place) seat.old.view }
        ensures { Steps P.Kind.fits self.now (D.next deed self.now.protocol)
            (D.allows deed self.now.protocol) (act.Check note place) seat.old seat.new result }
    {
        let _sizes = &self.shape;
        let at = self.place_word(place);
        let found = self.load_as::<D, Brand>(&mut seat.seat, Act::Check(note, place), deed, at);
        if found == held_as(seat.announced[note as usize]) {
            return Outcome::Valid;
        }
        Outcome::Moved(found_in(found))
    }

    /// Reads the strong word of the slot that was announced for disposal: `Alive` where it counts references, and the
    /// seat is under a weak snapshot of the slot then, else `Zeroed`.
    pub fn alive<D: Deed<P>>(&self, seat: &mut Seat<P>, note: u32, deed: D) -> Outcome
        requires seat { IsOf self.now seat.old }
        requires may { May self.now.shape (act.Alive note) seat.old.view.core }
        requires deed { IsReady (D.ready deed self.now.protocol) self.now.shape (act.Alive note)
            seat.old.view }
        ensures { Steps P.Kind.fits self.now (D.next deed self.now.protocol)
            (D.allows deed self.now.protocol) (act.Alive note) seat.old seat.new result }
    {
        let Some(slot) = seat.announced[note as usize] else {
            unreachable!()
        };
        let word = self.slot_word(slot);
        let found = self.load_as::<D, Brand>(&mut seat.seat, Act::Alive(note), deed, word);
        if value(found) > 0 {
            return Outcome::Alive;
        }
        Outcome::Zeroed
    }
}
