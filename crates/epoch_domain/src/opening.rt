//! How a domain is opened, with all its seats.
ghost use Rattle.std.specs.Prelude.{◌≡◌, ◌+◌, ◌-◌, ◌<◌, ◌≤◌, Some, IfOk, OnOk, map};
ghost use Rattle.epoch_rule.specs.epoch_core.core_events.Words.{each_from};
ghost use Rattle.epoch_rule.specs.epoch_core.Runs.{AreQuotas, IsShape};
ghost use Rattle.epoch_rule.specs.epoch_core.Views.{first_view};
ghost use Rattle.epoch_rule.specs.Opening.{opened_more};
ghost use Rattle.epoch_domain.specs.Openings.{AreOpened, IsFirst, IsNew, begun_seat, newcomer, without_room};
ghost use Rattle.epoch_domain.specs.Seats.{IsSeated};

use crate::domain::EpochDomain;
use crate::seat::{EpochSeat, EpochSeatOf};
use crate::site::Site;
use atomic_table::{Split, Table};
use epoch_parts::{Ended, EpochPhase, EpochShape, OutOfMemory, Pending, Quota, first_words};
use epoch_rule::{EpochCharter, EpochSeatView, Protocol};
use slot_hints::Hints;
use std::alloc::Global;
use std::marker::{Brand, PhantomData};

/// Seat 0 opens one more seat.
pub(crate) struct Opens<P, B> {
    marker: PhantomData<(P, B)>,
}

impl<P: Protocol, B: Site<P>> Split<EpochSeatView<P::View>> for Opens<P, B> {
    ghost left = { opened_more };

    ghost right = { newcomer P.first B.site };
}

/// A seat that has done nothing, with room for all slots that it may end, and for so many lists of pending entries. Its
/// first search begins apart from those of the other seats.
fn new_seat<W>(
    alloc: Global,
    seat: atomic_table::Seat<(), EpochSeatView<W>>,
    shape: &EpochShape,
    number: u32,
    quota: Quota,
    lists: u32,
) -> Result<EpochSeatOf<W>, OutOfMemory>
    requires seated { IsSeated seat.me }
    requires new { seat.me.0.core ≡ first_view shape.now number quota }
    requires lists { 0 < lists }
    requires root { number ≡ 0 → shape.now.seats ≤ lists }
    ensures { IfOk result (λ s. without_room s
        ≡ record { table = seat.table_id; view = seat.me.0; room = 0 }) }
{
    let pending = Pending::with_room(alloc, lists)?;
    let ended = Ended::with_room(alloc, shape.slots)?;
    let hints = Hints::new(alloc, (shape.slots / 32).wrapping_mul(number))?;
    Ok(EpochSeatOf {
        seat,
        number,
        quota,
        adds: 0,
        makes: 0,
        phase: EpochPhase::Idle,
        pending,
        ended,
        known: 0,
        left: 0,
        hints,
    })
}

impl<P: Protocol> EpochDomain<P> {
    /// The domain in which nothing has happened, and the bare seat 0.
    fn begin(
        alloc: Global,
        shape: EpochShape,
        quotas: &[Quota],
        protocol: P,
    ) -> Result<
        (
            EpochDomain<P>,
            atomic_table::Seat<(), EpochSeatView<P::View>>,
        ),
        OutOfMemory,
    >
    where
        P: Drop,
        requires shape { IsShape shape }
        requires quotas { AreQuotas shape quotas.now }
        ensures domain { IfOk result (λ r. r.0 ≡ record {
          table = r.0.table;
          protocol = protocol;
          shape = shape;
          quotas = quotas.now;
        }) }
        ensures root { IfOk result (λ r. IsFirst (P.first protocol) r.0 1 r.1) }
    {
        let words = first_words(alloc, &shape)?;
        let first_slot = 8 + 8 * shape.seats as usize + shape.cells as usize;
        let charter = EpochCharter {
            protocol,
            shape,
            quotas: quotas.to_vec(alloc)?,
        };
        let (table, root) = Table::of_words(alloc, words.as_slice(), &charter)?;
        Ok((
            EpochDomain {
                table,
                shape,
                first_slot,
            },
            root,
        ))
    }

    fn open_another_as<B: Site<P>>(
        &self,
        root: &mut atomic_table::Seat<(), EpochSeatView<P::View>>,
    ) -> atomic_table::Seat<(), EpochSeatView<P::View>>
        requires site { B.site ≡ Some self.now }
        requires root { IsFirst (P.first self.now.protocol) self.now root.old.me.0.opened root.old }
        requires more { root.old.me.0.opened < self.now.shape.seats }
        ensures root { IsFirst (P.first self.now.protocol) self.now
            (root.old.me.0.opened + 1) root.new }
        ensures seat { IsNew (P.first self.now.protocol) self.now root.old.me.0.opened result }
    {
        self.table.shared.split_seat::<Opens<P, B>>(root)
    }

    /// One more bare seat.
    fn open_another(
        &self,
        root: &mut atomic_table::Seat<(), EpochSeatView<P::View>>,
    ) -> atomic_table::Seat<(), EpochSeatView<P::View>>
        requires root { IsFirst (P.first self.now.protocol) self.now root.old.me.0.opened root.old }
        requires more { root.old.me.0.opened < self.now.shape.seats }
        ensures root { IsFirst (P.first self.now.protocol) self.now
            (root.old.me.0.opened + 1) root.new }
        ensures seat { IsNew (P.first self.now.protocol) self.now root.old.me.0.opened result }
    {
        self.open_another_as::<Brand>(root)
    }

    /// The seats beside seat 0, in order, in a list with room for one more.
    fn open_others(
        &self,
        alloc: Global,
        root: &mut atomic_table::Seat<(), EpochSeatView<P::View>>,
        quotas: &[Quota],
    ) -> Result<Vec<EpochSeat<P>>, OutOfMemory>
        requires root { IsFirst (P.first self.now.protocol) self.now 1 root.old }
        requires quotas { quotas.now ≡ self.now.quotas }
        ensures root { OnOk result
            (IsFirst (P.first self.now.protocol) self.now self.now.shape.seats root.new) }
        ensures others { IfOk result (λ others. map without_room others.items ≡ each_from 1
            (self.now.shape.seats - 1) (begun_seat (P.first self.now.protocol) self.now)) }
    {
        let mut others = Vec::with_capacity(alloc, self.shape.seats as usize)?;
        for number in 1..self.shape.seats {
            let seat = self.open_another(root);
            let quota = quotas[number as usize];
            others.push_reserved(new_seat(alloc, seat, &self.shape, number, quota, 1)?);
        }
        Ok(others)
    }

    /// All seats, in order.
    fn open_seats(
        &self,
        alloc: Global,
        mut root: atomic_table::Seat<(), EpochSeatView<P::View>>,
        quotas: &[Quota],
    ) -> Result<Vec<EpochSeat<P>>, OutOfMemory>
        requires root { IsFirst (P.first self.now.protocol) self.now 1 root }
        requires quotas { quotas.now ≡ self.now.quotas }
        ensures { IfOk result (λ seats.
            AreOpened (P.first self.now.protocol) self.now seats.items) }
    {
        let mut seats = self.open_others(alloc, &mut root, quotas)?;
        let first = new_seat(alloc, root, &self.shape, 0, quotas[0], self.shape.seats)?;
        seats.insert(0, first)?;
        Ok(seats)
    }
}

/// A domain in which nothing has happened, and its seats in order, one for each quota. It takes all the memory that the
/// domain ever needs, but that for pending entries: a seat has room for those that it has reserved room for.
pub fn open_domain<P: Protocol + Drop>(
    alloc: Global,
    shape: EpochShape,
    quotas: &[Quota],
    protocol: P,
) -> Result<(EpochDomain<P>, Vec<EpochSeat<P>>), OutOfMemory>
    requires shape { IsShape shape }
    requires quotas { AreQuotas shape quotas.now }
    ensures domain { IfOk result (λ r. r.0 ≡ record {
      table = r.0.table;
      protocol = protocol;
      shape = shape;
      quotas = quotas.now;
    }) }
    ensures seats { IfOk result (λ r. AreOpened (P.first protocol) r.0 r.1.items) }
{
    let (domain, root) = EpochDomain::begin(alloc, shape, quotas, protocol)?;
    let seats = domain.open_seats(alloc, root, quotas)?;
    Ok((domain, seats))
}
