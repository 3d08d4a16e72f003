//! A seat of a domain, with which one thread at a time steps.
use core_promises::{Phase, Quota, SlotId};
use domain_rule::{Protocol, SeatView};
use dying_slots::{Batch, Dying, Seen};
use std::marker::Model;

/// What one thread at a time steps with. W is what the client of the domain keeps with it.
#[derive(Drop)]
pub struct SeatOf<W> {
    pub(crate) seat: atomic_table::Seat<(), SeatView<W>>,
    pub(crate) number: u32,
    pub(crate) quota: Quota,
    pub(crate) adds: u64,
    pub(crate) makes: u64,
    /// How many makes its own tickets grant.
    pub(crate) granted: u64,
    pub(crate) phase: Phase,
    /// The slot that each of its announcement words announces.
    pub(crate) announced: [Option<SlotId>; 4],
    pub(crate) batch: Batch,
    pub(crate) seen: Seen,
    /// How many words its scan has read.
    pub(crate) read: u32,
    pub(crate) dying: Dying,
    /// At seat 0: how many seats have left.
    pub(crate) left: u32,
    /// Slots that it gave back itself, which may be free still, the latest last.
    pub(crate) freed: Vec<SlotId>,
    /// The slot at which its last search for a free one ended.
    pub(crate) searched: u32,
}

// A clause sees which table it steps on, and what it knows.
impl<W> Model for SeatOf<W> {
    ghost use Rattle.acquire_retire.specs.Seats.{SeatState, IsSeat};

    ghost Value = { SeatState W };

    ghost view = { λ s. record { table = s.seat.table_id; view = s.seat.me.0 } };

    ghost invariant = { λ s. IsSeat s.seat.me (record {
      number = s.number;
      quota = s.quota;
      adds = s.adds;
      makes = s.makes;
      granted = s.granted;
      phase = s.phase;
      announced = s.announced;
      retired = s.batch.retired;
      owed = s.batch.owed;
      seen = s.seen.rows;
      read = s.read;
      waiting = s.dying.waiting;
      ripe = s.dying.ripe;
      left = s.left;
    }) s.batch.room s.seen.room s.dying.room };
}

/// A seat of a domain under the protocol P.
pub type Seat<P> = SeatOf<<P as Protocol>::View>;
