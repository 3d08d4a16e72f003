//! Calls on the strong words of slots. Each is one atomic step.
ghost use Rattle.std.specs.Prelude.{◌≡◌, nat_lt, if◌then◌else◌};
ghost use Rattle.core_promises.specs.core_events.declared.act.Act.TheVariants as act;
ghost use Rattle.core_promises.specs.core_events.declared.outcome.Outcome.TheVariants as outcome;
ghost use Rattle.core_promises.specs.core_events.Steps.{May};
ghost use Rattle.plain_state.specs.counter_word.Words.{ZERO};
ghost use Rattle.acquire_retire.specs.Calls.{IsOf, IsReady, IsSameView, Steps, same_view};

use crate::domain::Domain;
use crate::seat::Seat;
use core_promises::{Act, Kind, Outcome, Phase, SlotId};
use domain_rule::{Deed, Protocol, Still};
use dying_slots::given_up;
use plain_state::{HELP, ZERO, has_help, value};
use std::marker::Brand;

/// Whether an add counted, by the word that it found.
fn added(word: u64) -> Outcome
    ensures { result ≡ (if nat_lt word ZERO then outcome.Up else outcome.Dead) }
{
    if word < ZERO {
        Outcome::Up
    } else {
        Outcome::Dead
    }
}

impl<P: Protocol> Domain<P> {
    /// Counts one more strong reference to a slot that the seat holds: `Up`, or `Dead` where the zero flag stood.
    pub fn add<D: Deed<P>>(&self, seat: &mut Seat<P>, slot: SlotId, deed: D) -> Outcome
        requires seat { IsOf self.now seat.old }
        requires may { May self.now.shape (act.Add slot) seat.old.view.core }
        requires deed { IsReady (D.ready deed self.now.protocol) self.now.shape (act.Add slot)
            seat.old.view }
        ensures { Steps P.Kind.fits self.now (D.next deed self.now.protocol)
            (D.allows deed self.now.protocol) (act.Add slot) seat.old seat.new result }
    {
        let word = self.slot_word(slot);
        let found = self.fetch_add_as::<D, Brand>(&mut seat.seat, Act::Add(slot), deed, word, 1);
        seat.adds += 1;
        added(found)
    }

    /// Gives up a strong reference that the seat owns: `Zeroed` where it was the last one, and the seat is to finish
    /// then.
    pub fn drop(&self, seat: &mut Seat<P>, slot: SlotId) -> Outcome
        requires seat { IsOf self.now seat.old }
        requires may { May self.now.shape (act.Drop slot) seat.old.view.core }
        ensures { Steps P.Kind.fits self.now same_view IsSameView (act.Drop slot)
            seat.old seat.new result }
    {
        let word = self.slot_word(slot);
        let found = self.fetch_sub_as::<Still, Brand>(&mut seat.seat, Act::Drop(slot), Still, word);
        // The phase is idle already, and a write that is spared here is one that no later step waits for.
        if found != 1 {
            return Outcome::Left;
        }
        seat.phase = Phase::Finish(slot);
        Outcome::Zeroed
    }

    /// Gives up the reference of the first entry that is owed, as a drop does: `Zeroed` where it was the last strong
    /// one, and `Last` where it was the last weak one, and the seat is to give the slot back then.
    pub fn pay(&self, seat: &mut Seat<P>) -> Outcome
        requires seat { IsOf self.now seat.old }
        requires may { May self.now.shape act.Pay seat.old.view.core }
        ensures { Steps P.Kind.fits self.now same_view IsSameView act.Pay seat.old seat.new result }
    {
        let Some((kind, slot)) = seat.batch.next_owed() else {
            return Outcome::Left;
        };
        let word = self.counter_word(kind, slot);
        let found = self.fetch_sub_as::<Still, Brand>(&mut seat.seat, Act::Pay, Still, word);
        let (phase, outcome) = given_up(kind, slot, found);
        seat.phase = phase;
        outcome
    }

    /// Ends the object whose count the seat took to 0: `Ended`, or `Help` where the help flag stood, or `Lost` where
    /// somebody was quicker.
    pub fn finish(&self, seat: &mut Seat<P>) -> Outcome
        requires seat { IsOf self.now seat.old }
        requires may { May self.now.shape act.Finish seat.old.view.core }
        ensures { Steps P.Kind.fits self.now same_view IsSameView act.Finish
            seat.old seat.new result }
    {
        let _sizes = &self.shape;
        let Phase::Finish(slot) = seat.phase else {
            unreachable!()
        };
        let word = self.slot_word(slot);
        let found = self.compare_exchange_as::<Still, Brand>(
            &mut seat.seat,
            Act::Finish,
            Still,
            word,
            0,
            ZERO,
        );
        if found == 0 {
            seat.dying.end(slot);
            seat.phase = Phase::Idle;
            return Outcome::Ended;
        }
        if has_help(found) {
            seat.phase = Phase::Help(slot);
            return Outcome::Help;
        }
        seat.phase = Phase::Idle;
        Outcome::Lost
    }

    /// Takes the help flag: `Ended` where it stood, and then the object's end is the seat's, else `NoHelp`.
    pub fn take(&self, seat: &mut Seat<P>) -> Outcome
        requires seat { IsOf self.now seat.old }
        requires may { May self.now.shape act.Take seat.old.view.core }
        ensures { Steps P.Kind.fits self.now same_view IsSameView act.Take
            seat.old seat.new result }
    {
        let _sizes = &self.shape;
        let Phase::Help(slot) = seat.phase else {
            unreachable!()
        };
        let word = self.slot_word(slot);
        let found = self.fetch_and_as::<Still, Brand>(
            &mut seat.seat,
            Act::Take,
            Still,
            word,
            !HELP,
        );
        seat.phase = Phase::Idle;
        if has_help(found) {
            seat.dying.end(slot);
            return Outcome::Ended;
        }
        Outcome::NoHelp
    }

    /// Reads the strong count of a slot that the seat holds: `Again` where the word was 0, and the seat is to mark it
    /// then.
    pub fn count<D: Deed<P>>(&self, seat: &mut Seat<P>, slot: SlotId, deed: D) -> Outcome
        requires seat { IsOf self.now seat.old }
        requires may { May self.now.shape (act.Count slot) seat.old.view.core }
        requires deed { IsReady (D.ready deed self.now.protocol) self.now.shape (act.Count slot)
            seat.old.view }
        ensures { Steps P.Kind.fits self.now (D.next deed self.now.protocol)
            (D.allows deed self.now.protocol) (act.Count slot) seat.old seat.new result }
    {
        let word = self.slot_word(slot);
        let found = self.load_as::<D, Brand>(&mut seat.seat, Act::Count(slot), deed, word);
        if found == 0 {
            seat.phase = Phase::Zero(slot);
            return Outcome::Again;
        }
        Outcome::Number(value(found))
    }

    /// Sets both flags of the strong word that the seat read as 0, where it still is 0, and tells the count.
    pub fn mark<D: Deed<P>>(&self, seat: &mut Seat<P>, deed: D) -> Outcome
        requires seat { IsOf self.now seat.old }
        requires may { May self.now.shape act.Mark seat.old.view.core }
        requires deed { IsReady (D.ready deed self.now.protocol) self.now.shape act.Mark
            seat.old.view }
        ensures { Steps P.Kind.fits self.now (D.next deed self.now.protocol)
            (D.allows deed self.now.protocol) act.Mark seat.old seat.new result }
    {
        let Phase::Zero(slot) = seat.phase else {
            unreachable!()
        };
        let word = self.slot_word(slot);
        let found = self.compare_exchange_as::<D, Brand>(
            &mut seat.seat,
            Act::Mark,
            deed,
            word,
            0,
            ZERO + HELP,
        );
        seat.phase = Phase::Idle;
        Outcome::Number(value(found))
    }
}
