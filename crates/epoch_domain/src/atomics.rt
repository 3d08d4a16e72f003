//! The kinds of atomic step, each as one event of the table of events.
ghost use Rattle.std.specs.Prelude.{ℕ, ◌==◌, ◌+◌, ◌%◌, ◌^◌};
ghost use prog.Atomic.{either};
ghost use Rattle.epoch_rule.specs.epoch_core.core_events.Steps.{minus_one};
ghost use Rattle.epoch_domain.specs.Calls.{CanStep, IsAimed, Stepped};

use crate::aim::{Aim, Reads, Writes};
use crate::domain::EpochDomain;
use epoch_parts::EpochAct;
use epoch_rule::{Deed, EpochSeatView, Protocol};

// Each asks that the act is of this kind, so that the table's atomic operation makes of the word what the act does.
impl<P: Protocol> EpochDomain<P> {
    /// An act that reads its word.
    pub(crate) fn load_as<D: Deed<P>, B: Aim<P, D>>(
        &self,
        seat: &mut atomic_table::Seat<(), EpochSeatView<P::View>>,
        act: EpochAct,
        deed: D,
        word: usize,
    ) -> u64
        requires aim { IsAimed B.aim self.now deed act seat.old.me.0.core word
            (λ w. w) }
        requires can { CanStep self.now (D.ready deed self.now.protocol) P.Kind.fits act seat.old }
        ensures { Stepped P.Kind.fits self.now (D.next deed self.now.protocol)
            (D.allows deed self.now.protocol) act seat.old result seat.new }
    {
        self.table.shared.load::<Reads<P, D, B>>(seat, word)
    }

    /// An act that writes its word, whatever stood there.
    pub(crate) fn store_as<D: Deed<P>, B: Aim<P, D>>(
        &self,
        seat: &mut atomic_table::Seat<(), EpochSeatView<P::View>>,
        act: EpochAct,
        deed: D,
        word: usize,
        new: u64,
    )
        requires aim { IsAimed B.aim self.now deed act seat.old.me.0.core word
            (λ w. new) }
        requires can { CanStep self.now (D.ready deed self.now.protocol) P.Kind.fits act seat.old }
        ensures { (w : ℕ) × Stepped P.Kind.fits self.now (D.next deed self.now.protocol)
            (D.allows deed self.now.protocol) act seat.old w seat.new }
    {
        self.table.shared.store::<Writes<P, D, B>>(seat, word, new);
    }

    /// An act that writes its word and reads what stood there.
    pub(crate) fn swap_as<D: Deed<P>, B: Aim<P, D>>(
        &self,
        seat: &mut atomic_table::Seat<(), EpochSeatView<P::View>>,
        act: EpochAct,
        deed: D,
        word: usize,
        new: u64,
    ) -> u64
        requires aim { IsAimed B.aim self.now deed act seat.old.me.0.core word
            (λ w. new) }
        requires can { CanStep self.now (D.ready deed self.now.protocol) P.Kind.fits act seat.old }
        ensures { Stepped P.Kind.fits self.now (D.next deed self.now.protocol)
            (D.allows deed self.now.protocol) act seat.old result seat.new }
    {
        self.table.shared.swap::<Reads<P, D, B>>(seat, word, new)
    }

    /// An act that writes its word where it finds the old one.
    pub(crate) fn compare_exchange_as<D: Deed<P>, B: Aim<P, D>>(
        &self,
        seat: &mut atomic_table::Seat<(), EpochSeatView<P::View>>,
        act: EpochAct,
        deed: D,
        word: usize,
        old: u64,
        new: u64,
    ) -> u64
        requires aim { IsAimed B.aim self.now deed act seat.old.me.0.core word
            (λ w. either (w == old) new w) }
        requires can { CanStep self.now (D.ready deed self.now.protocol) P.Kind.fits act seat.old }
        ensures { Stepped P.Kind.fits self.now (D.next deed self.now.protocol)
            (D.allows deed self.now.protocol) act seat.old result seat.new }
    {
        self.table
            .shared
            .compare_exchange::<Reads<P, D, B>>(seat, word, old, new)
    }

    /// An act that adds an amount.
    pub(crate) fn fetch_add_as<D: Deed<P>, B: Aim<P, D>>(
        &self,
        seat: &mut atomic_table::Seat<(), EpochSeatView<P::View>>,
        act: EpochAct,
        deed: D,
        word: usize,
        amount: u64,
    ) -> u64
        requires aim { IsAimed B.aim self.now deed act seat.old.me.0.core word
            (λ w. (w + amount) % 2 ^ 64) }
        requires can { CanStep self.now (D.ready deed self.now.protocol) P.Kind.fits act seat.old }
        ensures { Stepped P.Kind.fits self.now (D.next deed self.now.protocol)
            (D.allows deed self.now.protocol) act seat.old result seat.new }
    {
        self.table
            .shared
            .fetch_add::<Reads<P, D, B>>(seat, word, amount)
    }

    /// An act that subtracts 1.
    pub(crate) fn fetch_sub_as<D: Deed<P>, B: Aim<P, D>>(
        &self,
        seat: &mut atomic_table::Seat<(), EpochSeatView<P::View>>,
        act: EpochAct,
        deed: D,
        word: usize,
    ) -> u64
        requires aim { IsAimed B.aim self.now deed act seat.old.me.0.core word
            (λ w. minus_one w) }
        requires can { CanStep self.now (D.ready deed self.now.protocol) P.Kind.fits act seat.old }
        ensures { Stepped P.Kind.fits self.now (D.next deed self.now.protocol)
            (D.allows deed self.now.protocol) act seat.old result seat.new }
    {
        self.table.shared.fetch_sub::<Reads<P, D, B>>(seat, word, 1)
    }
}
