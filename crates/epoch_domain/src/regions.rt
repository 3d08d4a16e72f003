//! Calls that open and close a region, and those of a flush on the epoch and the region words. Each is one atomic step.
ghost use Rattle.std.specs.Prelude.{◌≡◌, ◌<◌, ◌+◌, ◌^◌};
ghost use Rattle.epoch_rule.specs.epoch_core.declared.act.EpochAct.TheVariants as act;
ghost use Rattle.epoch_rule.specs.epoch_core.Steps.{May};
ghost use Rattle.epoch_rule.specs.epoch_core.Views.{epoch_of};
ghost use Rattle.epoch_domain.specs.Calls.{IsOf, IsSameView, Steps, same_view};
ghost use Rattle.epoch_domain.specs.Entering.{Opens};

use crate::domain::EpochDomain;
use crate::places::{EPOCH, region_word};
use crate::seat::EpochSeat;
use epoch_parts::{EpochAct, EpochOutcome, EpochPhase, Sweep};
use epoch_rule::{Protocol, Still};
use std::marker::Brand;

/// No epoch is later.
const LAST_EPOCH: u64 = 1 << 62;

impl<P: Protocol> EpochDomain<P> {
    /// Opens a region, by two steps: it reads the epoch, and stores it and one in the seat's region word. Between them
    /// the seat stores nothing else, since each store would be waited for by the second step.
    pub fn open_region(&self, seat: &mut EpochSeat<P>)
        requires seat { IsOf self.now seat.old }
        requires may { May self.now.shape act.Enter seat.old.view.core }
        ensures { Opens P.Kind.fits self.now seat.old seat.new }
    {
        let epoch = self.load_as::<Still, Brand>(&mut seat.seat, EpochAct::Enter, Still, EPOCH);
        let word = region_word(seat.number);
        self.store_as::<Still, Brand>(&mut seat.seat, EpochAct::Open, Still, word, epoch + 1);
    }

    /// Stores 0 in the seat's region word: the region is closed.
    pub fn exit(&self, seat: &mut EpochSeat<P>) -> EpochOutcome
        requires seat { IsOf self.now seat.old }
        requires may { May self.now.shape act.Exit seat.old.view.core }
        ensures { Steps P.Kind.fits self.now same_view IsSameView act.Exit seat.old seat.new
            result }
    {
        let word = region_word(seat.number);
        self.store_as::<Still, Brand>(&mut seat.seat, EpochAct::Exit, Still, word, 0);
        EpochOutcome::Plain
    }

    /// Reads the epoch, to begin a flush.
    pub fn begin_flush(&self, seat: &mut EpochSeat<P>) -> EpochOutcome
        requires seat { IsOf self.now seat.old }
        requires may { May self.now.shape act.Flush seat.old.view.core }
        ensures { Steps P.Kind.fits self.now same_view IsSameView act.Flush seat.old seat.new
            result }
    {
        let found = self.load_as::<Still, Brand>(&mut seat.seat, EpochAct::Flush, Still, EPOCH);
        seat.phase = EpochPhase::Scan(Sweep {
            epoch: found,
            passed: 0,
            fit: true,
        });
        EpochOutcome::Epoch(found)
    }

    /// Reads the next region word. After the last one the flush ends with the epoch that it read, where it can't
    /// advance it: where some region was neither closed nor opened at that epoch, or no epoch is later.
    pub fn scan(&self, seat: &mut EpochSeat<P>) -> EpochOutcome
        requires seat { IsOf self.now seat.old }
        requires may { May self.now.shape act.Scan seat.old.view.core }
        ensures { Steps P.Kind.fits self.now same_view IsSameView act.Scan seat.old seat.new
            result }
    {
        let _sizes = &self.shape;
        let EpochPhase::Scan(sweep) = seat.phase else {
            unreachable!()
        };
        let word = region_word(sweep.passed);
        let found = self.load_as::<Still, Brand>(&mut seat.seat, EpochAct::Scan, Still, word);
        let fit = sweep.fit && (found == 0 || found - 1 == sweep.epoch);
        let passed = sweep.passed + 1;
        if passed == self.shape.seats && !(fit && sweep.epoch < LAST_EPOCH) {
            seat.known = sweep.epoch;
            seat.phase = EpochPhase::Idle;
        } else {
            seat.phase = EpochPhase::Scan(Sweep {
                epoch: sweep.epoch,
                passed,
                fit,
            });
        }
        EpochOutcome::Word(found)
    }

    /// Makes the epoch one later, unless it has changed since the flush read it: `Done`, else `Epoch` with the one that
    /// it found. The flush ends with the one that stands then.
    pub fn advance(&self, seat: &mut EpochSeat<P>) -> EpochOutcome
        requires seat { IsOf self.now seat.old }
        requires may { May self.now.shape act.Advance seat.old.view.core }
        requires small { epoch_of seat.old.view.core.phase + 1 < 2 ^ 64 }
        ensures { Steps P.Kind.fits self.now same_view IsSameView act.Advance seat.old seat.new
            result }
    {
        let EpochPhase::Scan(sweep) = seat.phase else {
            unreachable!()
        };
        let found = self.compare_exchange_as::<Still, Brand>(
            &mut seat.seat,
            EpochAct::Advance,
            Still,
            EPOCH,
            sweep.epoch,
            sweep.epoch + 1,
        );
        seat.phase = EpochPhase::Idle;
        if found == sweep.epoch {
            seat.known = sweep.epoch + 1;
            return EpochOutcome::Done;
        }
        seat.known = found;
        EpochOutcome::Epoch(found)
    }
}
