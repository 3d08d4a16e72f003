//! What a seat has, but for its trail.
ghost use Rattle.std.specs.Prelude.{◌≡◌, ◌<◌, ◌^◌, IfOk};
ghost use Rattle.core_functions.specs.core_events.Views.{room_of, first_view};

use core_functions::{Kind, Move, Note, OutOfMemory, Phase, Quota, Shape, SlotId, room_for};
use std::alloc::Global;
use std::collections::VecDeque;
use std::marker::Model;

/// What is kept of a seat that has left, by its number.
#[derive(Drop)]
pub struct PastSeat {
    pub(crate) seat: u32,
    pub(crate) trail: Vec<Move>,
    pub(crate) tickets: Vec<u64>,
}

impl Model for PastSeat {
    ghost use Rattle.core_functions.specs.core_events.declared.view.LeftSeat.{LeftSeat};

    ghost Value = { LeftSeat };

    ghost view = { λ a. record {
      seat = a.seat;
      trail = a.trail.items;
      tickets = a.tickets.items;
    } };
}

/// What a seat has, as a view with an empty trail: the trail itself lies beside it, so that a move
/// can take memory for its entry first.
#[derive(Drop)]
pub(crate) struct Holdings {
    pub(crate) seat: u32,
    pub(crate) shape: Shape,
    pub(crate) quota: Quota,
    pub(crate) grants: Vec<u64>,
    pub(crate) room: u32,
    pub(crate) owned: Vec<SlotId>,
    pub(crate) weaks: Vec<SlotId>,
    pub(crate) notes: [Note; 4],
    pub(crate) retired: Vec<(Kind, SlotId)>,
    pub(crate) owed: VecDeque<(Kind, SlotId)>,
    pub(crate) dying: Vec<SlotId>,
    pub(crate) ripe: Vec<SlotId>,
    pub(crate) phase: Phase,
    pub(crate) seen: Vec<u64>,
    pub(crate) adds: u64,
    pub(crate) makes: u64,
    pub(crate) tickets: Vec<u64>,
    pub(crate) left: bool,
    pub(crate) made: Vec<SlotId>,
    pub(crate) left_seats: Vec<PastSeat>,
    pub(crate) alloc: Global,
}

impl Model for Holdings {
    ghost use Rattle.std.specs.Prelude.{◌<◌, ◌^◌, []};
    ghost use Rattle.core_functions.specs.core_events.declared.view.CoreView.{CoreView};

    ghost Value = { CoreView };

    ghost view = { λ a. record {
      seat = a.seat;
      shape = a.shape;
      quota = a.quota;
      grants = a.grants.items;
      room = a.room;
      owned = a.owned.items;
      weaks = a.weaks.items;
      notes = a.notes;
      retired = a.retired.items;
      owed = a.owed.items;
      dying = a.dying.items;
      ripe = a.ripe.items;
      phase = a.phase;
      seen = a.seen.items;
      adds = a.adds;
      makes = a.makes;
      tickets = a.tickets.items;
      left = a.left;
      trail = [];
      made = a.made.items;
      left_seats = a.left_seats.items;
    } };

    // the ranges of their types
    ghost invariant = { λ a.
        (a.room < 2 ^ 32) × (a.quota.makes < 2 ^ 64) × (a.quota.adds < 2 ^ 64) };
}

impl Holdings {
    /// A seat that has done nothing.
    pub(crate) fn first(
        alloc: Global,
        shape: Shape,
        seat: u32,
        quota: Quota,
        grants: &[u64],
    ) -> Result<Holdings, OutOfMemory>
        requires { room_of shape < 2 ^ 32 }
        ensures { IfOk result (λ has. has ≡ first_view shape seat quota grants.now) }
    {
        let mut own_grants = Vec::new(alloc);
        own_grants.extend_from_slice(grants)?;
        Ok(Holdings {
            seat,
            shape,
            quota,
            grants: own_grants,
            room: room_for(&shape),
            owned: Vec::new(alloc),
            weaks: Vec::new(alloc),
            notes: [Note::Idle; 4],
            retired: Vec::new(alloc),
            owed: VecDeque::new(alloc),
            dying: Vec::new(alloc),
            ripe: Vec::new(alloc),
            phase: Phase::Idle,
            seen: Vec::new(alloc),
            adds: 0,
            makes: 0,
            tickets: Vec::new(alloc),
            left: false,
            made: Vec::new(alloc),
            left_seats: Vec::new(alloc),
            alloc,
        })
    }
}
