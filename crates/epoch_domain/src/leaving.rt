//! How a seat leaves.
ghost use Rattle.std.specs.Prelude.{◌≡◌, [], Some};
ghost use Rattle.epoch_rule.specs.epoch_core.Steps.{CanLeave};
ghost use Rattle.epoch_rule.specs.Opening.{gone_view, joined_view};
ghost use Rattle.epoch_domain.specs.Calls.{IsOf};
ghost use Rattle.epoch_domain.specs.Leavings.{HasJoined, MayJoin, TookOver, joined_in};

use crate::domain::EpochDomain;
use crate::seat::{EpochSeat, EpochSeatOf};
use crate::site::Site;
use atomic_table::Join;
use epoch_rule::{EpochSeatView, Protocol};
use std::marker::{Brand, PhantomData};

/// Seat 0 takes over what a seat has.
pub(crate) struct TakesOver<P, B> {
    marker: PhantomData<(P, B)>,
}

impl<P: Protocol, B: Site<P>> Join<EpochSeatView<P::View>> for TakesOver<P, B> {
    ghost both = { joined_in P.joined B.site };

    ghost spent = { gone_view P.gone };
}

impl<P: Protocol> EpochDomain<P> {
    fn join_as<B: Site<P>>(
        &self,
        root: &mut atomic_table::Seat<(), EpochSeatView<P::View>>,
        seat: atomic_table::Seat<(), EpochSeatView<P::View>>,
    )
        requires site { B.site ≡ Some self.now }
        requires may { MayJoin self.now root.old seat }
        ensures table { root.new.table_id ≡ root.old.table_id }
        ensures me { root.new.me
            ≡ (joined_view (P.joined self.now.protocol) root.old.me.0 seat.me.0, root.old.me.1) }
    {
        self.table.shared.join_seat::<TakesOver<P, B>>(root, seat);
    }

    /// Seat 0 takes over what a seat has, and then learns that what its view says is so, and the whole core, if it is
    /// alone now: a join tells nothing, and a load does.
    fn join(
        &self,
        root: &mut atomic_table::Seat<(), EpochSeatView<P::View>>,
        seat: atomic_table::Seat<(), EpochSeatView<P::View>>,
    )
        requires { MayJoin self.now root.old seat }
        ensures { HasJoined self.now P.Kind.fits (P.joined self.now.protocol)
            root.old seat root.new }
    {
        self.join_as::<Brand>(root, seat);
        let _base = self.read(root, 0);
    }

    /// The seat leaves, and seat 0 takes over what it has. Both are in the middle of nothing and outside a region. It
    /// takes no memory, and as many steps as the seat has ended slots that it hasn't destroyed.
    pub fn leave(&self, root: &mut EpochSeat<P>, seat: EpochSeat<P>)
        requires seats { IsOf self.now root.old × IsOf self.now seat }
        requires root { root.old.view.core.seat ≡ 0 }
        requires may { CanLeave root.old.view.core × CanLeave seat.view.core }
        ensures { TookOver self.now P.Kind.fits (P.joined self.now.protocol)
            root.old seat root.new }
    {
        let EpochSeatOf {
            seat,
            pending,
            mut ended,
            ..
        } = seat;
        self.join(&mut root.seat, seat);
        root.pending.absorb(pending);
        root.ended.absorb(&mut ended);
        root.left += 1;
    }
}
