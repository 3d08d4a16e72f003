//! A collect: a seat reads all announcement words, and gives up what it had retired and nobody announces any more.
ghost use Rattle.std.specs.Prelude.{◌≡◌, ◌≢◌, [], ◌∷◌, length};
ghost use Rattle.core_promises.specs.core_events.Steps.{IsIdle};
ghost use Rattle.acquire_retire.specs.Calls.{IsOf};
ghost use Rattle.acquire_retire.specs.Collecting.{Collects, Pays, PaysFor, ReadsAllButOne, Splits};

use crate::domain::Domain;
use crate::payment::{Payment, Work};
use crate::seat::Seat;
use core_promises::Outcome;
use domain_rule::Protocol;
use plain_state::WORDS_OF_SEAT;

impl<P: Protocol> Domain<P> {
    /// Ejects what is no longer announced: reads the announcement words of all seats once, keeps of equal retired
    /// references as many as were announced, and gives up the others. Where one was the last strong reference it ends
    /// the object, unless somebody was quicker, and where one was the last weak one it gives the slot back.
    ///
    /// That is a step for each announcement word, and at most three for each reference given up. Other seats may step
    /// between any two of them.
    pub fn collect(&self, seat: &mut Seat<P>) -> Work
        requires seat { IsOf self.now seat.old }
        requires idle { IsIdle seat.old.view.core }
        requires owes_nothing { seat.old.view.core.owed ≡ [] }
        ensures { Collects P.Kind.fits self.now seat.old seat.new result }
    {
        let scanned = WORDS_OF_SEAT * self.shape.seats;
        let ejected = self.scan_all(seat);
        let ended = self.pay_all(seat, ejected);
        Work {
            scanned,
            ejected,
            ended,
        }
    }

    /// Reads the announcement words that the seat's scan has yet to read, but for the last.
    fn read_on(&self, seat: &mut Seat<P>)
        requires seat { IsOf self.now seat.old }
        requires idle { IsIdle seat.old.view.core }
        requires owes_nothing { seat.old.view.core.owed ≡ [] }
        ensures { ReadsAllButOne P.Kind.fits self.now seat.old seat.new }
    {
        for place in seat.read + 1..WORDS_OF_SEAT * self.shape.seats {
            self.read_next(seat, place);
        }
    }

    /// A whole scan. Answers how many retired entries became owed.
    fn scan_all(&self, seat: &mut Seat<P>) -> u32
        requires seat { IsOf self.now seat.old }
        requires idle { IsIdle seat.old.view.core }
        requires owes_nothing { seat.old.view.core.owed ≡ [] }
        ensures { Splits P.Kind.fits self.now seat.old seat.new result }
    {
        self.read_on(seat);
        match self.read_last(seat) {
            Outcome::Split(_, _, go) => go,
            _ => 0,
        }
    }

    /// Pays for all that is owed. Answers how many objects that ended.
    fn pay_all(&self, seat: &mut Seat<P>, owed: u32) -> u32
        requires seat { IsOf self.now seat.old }
        requires idle { IsIdle seat.old.view.core }
        requires owed { owed ≡ length seat.old.view.core.owed }
        ensures { PaysFor P.Kind.fits self.now seat.old seat.new owed result }
    {
        let mut ended = 0;
        for _entry in 0..owed {
            if self.pay_next(seat).has_ended() {
                ended += 1;
            }
        }
        ended
    }

    /// Pays for the first entry that is owed.
    fn pay_next(&self, seat: &mut Seat<P>) -> Payment
        requires seat { IsOf self.now seat.old }
        requires idle { IsIdle seat.old.view.core }
        requires owes { seat.old.view.core.owed ≢ [] }
        ensures { Pays P.Kind.fits self.now (result ∷ []) seat.old seat.new }
    {
        match self.pay(seat) {
            Outcome::Zeroed => match self.finish(seat) {
                Outcome::Ended => Payment::Ended,
                Outcome::Help => match self.take(seat) {
                    Outcome::Ended => Payment::Helped,
                    _ => Payment::NoHelp,
                },
                _ => Payment::Lost,
            },
            Outcome::Last => {
                self.free(seat);
                Payment::Freed
            }
            _ => Payment::Left,
        }
    }
}
