//! The counter, and the seats that threads step with.
use crate::rule::Lawful;
use crate::view::Knows;
use atomic_table::{Seat, Table};
use std::alloc::Global;
use std::marker::Model;

/// A counter of what its seats hold. Threads share it behind a `&`.
#[derive(Drop)]
pub struct Sticky {
    pub(crate) table: Table<(), Knows, u32, Lawful, Global>,
}

// A clause sees which counter it is.
impl Model for Sticky {
    ghost use Rattle.std.specs.Prelude.{◌≡◌};
    ghost use Rattle.atomic_table.specs.Seated.{TableId, table_id_coded};

    ghost Value = { TableId };

    ghost coded = { table_id_coded };

    ghost view = { λ s. s.table.shared.table_id };

    ghost invariant = { λ s. s.table.shared.table_id.words ≡ 1 };
}

/// What one thread at a time steps with. A seat that is dropped keeps the counts that it holds, so
/// that its counter never ends.
#[derive(Drop)]
pub struct StickySeat {
    pub(crate) seat: Seat<(), Knows>,
    pub(crate) adds: u64,
    pub(crate) quota: u64,
}

// A clause sees its counter, its quota, its number, the history up to its last step, and its view.
impl Model for StickySeat {
    ghost use Rattle.sticky_count.specs.Seats.{SeatState, IsAtRest};

    ghost Value = { SeatState };

    ghost view = { λ s. record {
      counter = s.seat.table_id;
      quota = s.quota;
      seat = s.seat.me.0.seat;
      seats = s.seat.me.0.seats;
      past = s.seat.me.0.past;
      view = s.seat.me.0.view;
    } };

    ghost invariant = { λ s. IsAtRest s.seat.me.0 s.adds s.quota };
}
