//! A seat of a domain under epochs, with which one thread at a time steps.
use epoch_parts::{Ended, EpochPhase, Pending, Quota};
use epoch_rule::{EpochSeatView, Protocol};
use slot_hints::Hints;
use std::marker::Model;

/// What one thread at a time steps with. W is what the client of the domain keeps with it.
#[derive(Drop)]
pub struct EpochSeatOf<W> {
    pub(crate) seat: atomic_table::Seat<(), EpochSeatView<W>>,
    pub(crate) number: u32,
    pub(crate) quota: Quota,
    pub(crate) adds: u64,
    pub(crate) makes: u64,
    pub(crate) phase: EpochPhase,
    pub(crate) pending: Pending,
    pub(crate) ended: Ended,
    /// The epoch that its last flush knew in the end.
    pub(crate) known: u64,
    /// At seat 0: how many seats have left.
    pub(crate) left: u32,
    pub(crate) hints: Hints,
}

// A clause sees which table it steps on, what it knows, and for how many pending entries more it has room.
impl<W> Model for EpochSeatOf<W> {
    ghost use Rattle.epoch_parts.specs.Pending.{entries, spare};
    ghost use Rattle.epoch_domain.specs.Seats.{IsSeat, SeatState};

    ghost Value = { SeatState W };

    ghost view = { λ s. record {
      table = s.seat.table_id;
      view = s.seat.me.0;
      room = spare s.pending.queues;
    } };

    ghost invariant = { λ s. IsSeat s.seat.me (record {
      number = s.number;
      quota = s.quota;
      adds = s.adds;
      makes = s.makes;
      phase = s.phase;
      pending = entries s.pending.queues;
      ended = s.ended.slots;
      known = s.known;
      left = s.left;
    }) s.pending s.ended.room };
}

/// A seat of a domain under epochs, under the protocol P.
pub type EpochSeat<P> = EpochSeatOf<<P as Protocol>::View>;
