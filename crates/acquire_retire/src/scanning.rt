//! The scan that reads all announcement words. Each word is one atomic step.
ghost use Rattle.std.specs.Prelude.{◌≡◌, ◌+◌, true, false, length};
ghost use Rattle.core_promises.specs.core_events.declared.act.Act.TheVariants as act;
ghost use Rattle.core_promises.specs.core_events.Steps.{May, is_last};
ghost use Rattle.acquire_retire.specs.Calls.{IsOf, IsSameView, Steps, same_view};

use crate::domain::Domain;
use crate::seat::Seat;
use crate::splitting::split;
use core_promises::{Act, Outcome, Phase};
use domain_rule::{Protocol, Still};
use plain_state::WORDS_OF_SEAT;
use std::marker::Brand;

impl<P: Protocol> Domain<P> {
    /// Reads the next announcement word of the domain. The last one splits the retired entries: of equal ones as many
    /// stay as were announced, and the others become owed; and the dying slots that no word announces for disposal
    /// become ripe.
    pub fn scan(&self, seat: &mut Seat<P>) -> Outcome
        requires seat { IsOf self.now seat.old }
        requires may { May self.now.shape act.Scan seat.old.view.core }
        ensures { Steps P.Kind.fits self.now same_view IsSameView act.Scan
            seat.old seat.new result }
    {
        let place = seat.read + 1;
        if place == WORDS_OF_SEAT * self.shape.seats {
            self.read_last(seat)
        } else {
            self.read_next(seat, place)
        }
    }

    /// Reads the announcement word at this place, which is the seat's next one and not the last.
    // A collect makes this call for each announcement word but one. The place comes from its loop, so that no word
    // waits for what the seat wrote at the one before.
    #[inline(always)]
    pub(crate) fn read_next(&self, seat: &mut Seat<P>, place: u32) -> Outcome
        requires seat { IsOf self.now seat.old }
        requires may { May self.now.shape act.Scan seat.old.view.core }
        requires place { place ≡ length seat.old.view.core.seen + 1 }
        requires more { is_last self.now.shape seat.old.view.core ≡ false }
        ensures { Steps P.Kind.fits self.now same_view IsSameView act.Scan
            seat.old seat.new result }
    {
        let found = self.load_as::<Still, Brand>(&mut seat.seat, Act::Scan, Still, place as usize);
        seat.seen.note(found);
        seat.read = place;
        seat.phase = Phase::Scan;
        Outcome::Word(found)
    }

    /// Reads the last announcement word, which ends the scan.
    pub(crate) fn read_last(&self, seat: &mut Seat<P>) -> Outcome
        requires seat { IsOf self.now seat.old }
        requires may { May self.now.shape act.Scan seat.old.view.core }
        requires last { is_last self.now.shape seat.old.view.core ≡ true }
        ensures { Steps P.Kind.fits self.now same_view IsSameView act.Scan
            seat.old seat.new result }
    {
        let _sizes = &self.shape;
        let place = 1 + seat.read as usize;
        let found = self.load_as::<Still, Brand>(&mut seat.seat, Act::Scan, Still, place);
        seat.seen.note(found);
        let (stay, go) = split(&mut seat.batch, &seat.seen);
        seat.dying.ripen(&seat.seen);
        seat.seen.clear();
        seat.read = 0;
        seat.phase = Phase::Idle;
        Outcome::Split(found, stay, go)
    }
}
