//! How a domain is opened, with all its seats.
ghost use Rattle.std.specs.Prelude.{ℕ, ◌≡◌, ◌↔◌, ◌+◌, ◌-◌, ◌*◌, ◌^◌, ◌<◌, ◌≤◌, List, [], Option, Some, None, Err, IfOk, OnOk, sum};
ghost use Rattle.core_promises.specs.core_events.declared.shape.ShapeField.{ShapeField};
ghost use Rattle.core_promises.specs.core_events.Runs.{AreTerms, IsShape};
ghost use Rattle.core_promises.specs.core_events.Words.{each_from};
ghost use Rattle.core_promises.specs.core_events.Views.{first_view, room_of};
ghost use Rattle.dying_slots.specs.core_functions.Fields.{IsFirstBad};
ghost use Rattle.domain_rule.specs.Opening.{opened_more};
ghost use Rattle.acquire_retire.specs.declared.errors.OpenError.TheVariants.{BadShape};
ghost use Rattle.acquire_retire.specs.Openings.{IsFirst, IsNew, begun_seat, newcomer, opened_seats};
ghost use Rattle.acquire_retire.specs.Seats.{IsSeated};

use crate::domain::Domain;
use crate::errors::OpenError;
use crate::seat::{Seat, SeatOf};
use crate::site::Site;
use atomic_table::{Split, Table};
use core_promises::{Phase, Quota, Shape, SlotId};
use domain_rule::{Charter, Protocol, SeatView};
use dying_slots::{Batch, Dying, OutOfMemory, Seen, first_bad, first_words, slot_index};
use plain_state::WORDS_OF_SEAT;
use std::alloc::Global;
use std::marker::{Brand, PhantomData};

/// How many of the slots that it gave back a seat remembers.
const MOST_FREED: usize = 64;

/// Seat 0 opens one more seat.
pub(crate) struct Opens<P, B> {
    marker: PhantomData<(P, B)>,
}

impl<P: Protocol, B: Site<P>> Split<SeatView<P::View>> for Opens<P, B> {
    ghost left = { opened_more };

    ghost right = { newcomer P.first B.site };
}

/// A seat that has done nothing, with room for all that it may have to store.
fn new_seat<W>(
    alloc: Global,
    seat: atomic_table::Seat<(), SeatView<W>>,
    shape: &Shape,
    number: u32,
    quota: Quota,
    room: u32,
) -> Result<SeatOf<W>, OutOfMemory>
    requires seated { IsSeated seat.me }
    requires new { (grants : List ℕ)
        × (seat.me.0.core ≡ first_view shape.now number quota grants) }
    requires room { room_of shape.now ≤ room }
    requires root { number ≡ 0 → shape.now.seats * room_of shape.now ≤ room }
    ensures { IfOk result (λ s. s ≡ record { table = seat.table_id; view = seat.me.0 }) }
{
    let batch = Batch::with_room(alloc, room)?;
    let seen = Seen::with_room(alloc, WORDS_OF_SEAT * shape.seats)?;
    let dying = Dying::with_room(alloc, shape.slots)?;
    let freed = Vec::with_capacity(alloc, MOST_FREED)?;
    Ok(SeatOf {
        seat,
        number,
        quota,
        adds: 0,
        makes: 0,
        granted: 0,
        phase: Phase::Idle,
        announced: [None; 4],
        batch,
        seen,
        read: 0,
        dying,
        left: 0,
        freed,
        searched: (shape.slots / 32).wrapping_mul(number),
    })
}

impl<P: Protocol> Domain<P> {
    /// The domain in which nothing has happened, and the bare seat 0.
    fn begin(
        alloc: Global,
        shape: Shape,
        quotas: &[Quota],
        grants: &[u64],
        protocol: P,
    ) -> Result<(Domain<P>, atomic_table::Seat<(), SeatView<P::View>>), OutOfMemory>
    where
        P: Drop,
        requires shape { IsShape shape }
        requires terms { AreTerms shape (record { quotas = quotas.now; grants = grants.now }) }
        ensures domain { IfOk result (λ r. r.0 ≡ record {
          table = r.0.table;
          protocol = protocol;
          shape = shape;
          terms = record { quotas = quotas.now; grants = grants.now };
        }) }
        ensures root { IfOk result (λ r. IsFirst (P.first protocol) r.0 1 r.1) }
    {
        let words = first_words(alloc, &shape)?;
        let first_slot = slot_index(&shape, SlotId(0));
        let charter = Charter {
            protocol,
            shape,
            quotas: quotas.to_vec(alloc)?,
            grants: grants.to_vec(alloc)?,
        };
        let (table, root) = Table::of_words(alloc, words.as_slice(), &charter)?;
        let grants = charter.grants;
        Ok((
            Domain {
                table,
                shape,
                first_slot,
                grants,
            },
            root,
        ))
    }

    fn open_another_as<B: Site<P>>(
        &self,
        root: &mut atomic_table::Seat<(), SeatView<P::View>>,
    ) -> atomic_table::Seat<(), SeatView<P::View>>
        requires site { B.site ≡ Some self.now }
        requires root { IsFirst (P.first self.now.protocol) self.now root.old.me.0.opened root.old }
        requires more { root.old.me.0.opened < self.now.shape.seats }
        ensures root { IsFirst (P.first self.now.protocol) self.now
            (root.old.me.0.opened + 1) root.new }
        ensures seat { IsNew (P.first self.now.protocol) self.now root.old.me.0.opened result }
    {
        self.table.shared.split_seat::<Opens<P, B>>(root)
    }

    /// One more bare seat.
    fn open_another(
        &self,
        root: &mut atomic_table::Seat<(), SeatView<P::View>>,
    ) -> atomic_table::Seat<(), SeatView<P::View>>
        requires root { IsFirst (P.first self.now.protocol) self.now root.old.me.0.opened root.old }
        requires more { root.old.me.0.opened < self.now.shape.seats }
        ensures root { IsFirst (P.first self.now.protocol) self.now
            (root.old.me.0.opened + 1) root.new }
        ensures seat { IsNew (P.first self.now.protocol) self.now root.old.me.0.opened result }
    {
        self.open_another_as::<Brand>(root)
    }

    /// The seats beside seat 0, in order, in a list with room for one more.
    fn open_others(
        &self,
        alloc: Global,
        root: &mut atomic_table::Seat<(), SeatView<P::View>>,
        quotas: &[Quota],
    ) -> Result<Vec<Seat<P>>, OutOfMemory>
        requires root { IsFirst (P.first self.now.protocol) self.now 1 root.old }
        requires quotas { quotas.now ≡ self.now.terms.quotas }
        ensures root { OnOk result
            (IsFirst (P.first self.now.protocol) self.now self.now.shape.seats root.new) }
        ensures others { IfOk result (λ others. others.items ≡ each_from 1
            (self.now.shape.seats - 1) (begun_seat (P.first self.now.protocol) self.now)) }
    {
        let room = WORDS_OF_SEAT * self.shape.seats + self.shape.batch;
        let mut others = Vec::with_capacity(alloc, self.shape.seats as usize)?;
        for number in 1..self.shape.seats {
            let seat = self.open_another(root);
            let quota = quotas[number as usize];
            others.push_reserved(new_seat(alloc, seat, &self.shape, number, quota, room)?);
        }
        Ok(others)
    }

    /// All seats, in order.
    fn open_seats(
        &self,
        alloc: Global,
        mut root: atomic_table::Seat<(), SeatView<P::View>>,
        quotas: &[Quota],
    ) -> Result<Vec<Seat<P>>, OutOfMemory>
        requires root { IsFirst (P.first self.now.protocol) self.now 1 root }
        requires quotas { quotas.now ≡ self.now.terms.quotas }
        ensures { IfOk result (λ seats. seats.items
            ≡ opened_seats (P.first self.now.protocol) self.now) }
    {
        let mut seats = self.open_others(alloc, &mut root, quotas)?;
        let room = self.shape.seats * (WORDS_OF_SEAT * self.shape.seats + self.shape.batch);
        let first = new_seat(alloc, root, &self.shape, 0, quotas[0], room)?;
        seats.insert(0, first)?;
        Ok(seats)
    }
}

/// A domain in which nothing has happened, and its seats in order, one for each quota. Who draws a ticket may make as
/// many more objects as the grant of its number says.
///
/// `BadShape` names the first field, in the order of `ShapeField`, that is out of its range; the grants are among the
/// quotas. It takes all the memory that the domain ever needs.
pub fn open_granted<P: Protocol + Drop>(
    alloc: Global,
    shape: Shape,
    quotas: &[Quota],
    grants: &[u64],
    protocol: P,
) -> Result<(Domain<P>, Vec<Seat<P>>), OpenError>
    ensures domain { IfOk result (λ r. r.0 ≡ record {
      table = r.0.table;
      protocol = protocol;
      shape = shape;
      terms = record { quotas = quotas.now; grants = grants.now };
    }) }
    ensures seats { IfOk result (λ r. r.1.items ≡ opened_seats (P.first protocol) r.0) }
    ensures ranges { OnOk result (IsShape shape
        × AreTerms shape (record { quotas = quotas.now; grants = grants.now })) }
    ensures bad { (f : ShapeField) → (result ≡ Err (BadShape f))
        ↔ IsFirstBad shape (record { quotas = quotas.now; grants = grants.now }) f }
{
    if let Some(field) = first_bad(&shape, quotas, grants) {
        return Err(OpenError::BadShape(field));
    }
    let (domain, root) = Domain::begin(alloc, shape, quotas, grants, protocol)?;
    let seats = domain.open_seats(alloc, root, quotas)?;
    Ok((domain, seats))
}

/// The same, where no ticket grants anything.
pub fn open_domain<P: Protocol + Drop>(
    alloc: Global,
    shape: Shape,
    quotas: &[Quota],
    protocol: P,
) -> Result<(Domain<P>, Vec<Seat<P>>), OpenError>
    ensures domain { IfOk result (λ r. r.0 ≡ record {
      table = r.0.table;
      protocol = protocol;
      shape = shape;
      terms = record { quotas = quotas.now; grants = [] };
    }) }
    ensures seats { IfOk result (λ r. r.1.items ≡ opened_seats (P.first protocol) r.0) }
    ensures ranges { OnOk result (IsShape shape
        × AreTerms shape (record { quotas = quotas.now; grants = [] })) }
    ensures bad { (f : ShapeField) → (result ≡ Err (BadShape f))
        ↔ IsFirstBad shape (record { quotas = quotas.now; grants = [] }) f }
{
    open_granted(alloc, shape, quotas, &[], protocol)
}
