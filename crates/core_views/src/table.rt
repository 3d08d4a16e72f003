//! The table of events: when a seat may make an act, which word the act is on, what it does.
ghost use Rattle.std.specs.Prelude.{◌≡◌, ◌↔◌, ◌<◌, ◌^◌, IsTrue, IfOk, OnErr};
ghost use Rattle.core_functions.specs.core_events.Views.{room_of, first_view};
ghost use Rattle.core_functions.specs.core_events.Steps.{May, CanLeave, answer, moved, place};
ghost use Rattle.core_views.specs.Fits.{IsFit, IsWordFor};

use crate::holdings::Holdings;
use crate::seat::OwnView;
use core_functions::{
    Act, Kind, Move, OutOfMemory, Outcome, Quota, Shape, bits_index, is_arming, is_filling,
    is_finishing, is_giving, is_helping, is_marking, kind_of, note_index, payload_index,
    place_index, slot_index, ticket_index,
};
use std::alloc::Global;

impl OwnView {
    /// A seat that has done nothing. It takes memory for its grants alone.
    pub fn first(
        alloc: Global,
        shape: Shape,
        seat: u32,
        quota: Quota,
        grants: &[u64],
    ) -> Result<OwnView, OutOfMemory>
        requires { room_of shape < 2 ^ 32 }
        ensures { IfOk result (λ view. view ≡ first_view shape seat quota grants.now) }
    {
        let holdings = Holdings::first(alloc, shape, seat, quota, grants)?;
        Ok(OwnView {
            holdings,
            trail: Vec::new(alloc),
        })
    }

    /// Whether the seat may make the act, as far as what it has tells. It looks through those of
    /// its lists that the act's condition names.
    pub fn may(&self, shape: &Shape, act: &Act) -> bool
        ensures { IsTrue result ↔ May shape.now act.now self.now }
    {
        let has = &self.holdings;
        match *act {
            Act::Add(slot) | Act::Wadd(slot) => has.is_idle() && has.has_add() && has.holds(slot),
            Act::Drop(slot) => has.is_idle() && has.can_give(Kind::Strong, Some(slot)),
            Act::Pay => has.is_idle() && !has.owes_nothing(),
            Act::Finish => is_finishing(has.phase),
            Act::Take => is_helping(has.phase),
            Act::Count(slot) | Act::Wcount(slot) => has.is_idle() && has.holds(slot),
            Act::Mark => is_marking(has.phase),
            Act::Announce(at, _, slot) => {
                has.is_idle() && has.has_idle_note(at) && slot.0 < shape.slots
            }
            Act::Release(at) => has.is_idle() && has.has_busy_note(at),
            Act::Look(place) => has.is_idle() && has.is_readable(shape, place),
            Act::Check(at, place) => {
                has.is_idle()
                    && has.has_announced(at, kind_of(place))
                    && has.is_readable(shape, place)
            }
            Act::Alive(at) => has.can_revive(shape, at),
            Act::Scan => has.can_scan(shape),
            Act::Swap(place, new) => has.can_put(shape, place, new),
            Act::Cas(place, old, new) => has.can_try(shape, place, old, new),
            Act::Claim(slot) => has.can_claim(shape, slot),
            Act::Arm => is_arming(has.phase),
            Act::Fill(at, word) => has.can_fill(shape, at, word),
            Act::Start => is_filling(has.phase),
            Act::See(slot, at) => has.can_see(slot) && at < 16,
            Act::Free => is_giving(has.phase),
            Act::Ticket => has.is_idle() && has.has_add(),
            Act::Wdrop(slot) => has.is_idle() && has.can_give(Kind::Weak, Some(slot)),
            Act::Destroy(slot) => has.is_idle() && has.has_ripe(slot),
            Act::Leave(other) => has.can_let_leave(shape, other),
        }
    }

    /// Which word the act is on: its place among all words, from 0. Where the seat owes nothing, a
    /// payment has none, and the answer is 0.
    pub fn place(&self, shape: &Shape, act: &Act) -> usize
        ensures { result ≡ place shape.now act.now self.now }
    {
        let has = &self.holdings;
        match *act {
            Act::Add(slot) | Act::Drop(slot) | Act::Count(slot) => slot_index(shape, slot),
            Act::Pay => has.owed_index(shape),
            Act::Finish
            | Act::Take
            | Act::Mark
            | Act::Arm
            | Act::Fill(_, _)
            | Act::Start
            | Act::Free => has.phase_index(shape, act),
            Act::Announce(at, _, _) | Act::Release(at) => note_index(has.seat, at),
            Act::Look(at) | Act::Check(_, at) | Act::Swap(at, _) | Act::Cas(at, _, _) => {
                place_index(shape, at)
            }
            Act::Alive(at) => has.noted_index(shape, at),
            Act::Scan => 1 + has.seen.len(),
            Act::Claim(slot) => bits_index(shape, slot),
            Act::Wadd(slot) | Act::Wdrop(slot) | Act::Destroy(slot) | Act::Wcount(slot) =>
                slot_index(shape, slot) + 1,
            Act::See(slot, at) => payload_index(shape, slot, at),
            Act::Ticket => ticket_index(shape),
            Act::Leave(_) => 0,
        }
    }

    /// Makes the act, which finds `word`, and answers what the act answers. What the seat has, and
    /// its trail, are then as the table of events says. A leave is of two seats: `take_over` makes
    /// it, and here it would only be noted.
    ///
    /// It looks through the lists that lose an entry, if one does. The last word of a scan compares
    /// each retired entry with the words that announce something, and each dying slot with those
    /// that are ripe too. A list that grows takes memory,
    /// and so do the parts of a split. After an error nothing has changed.
    pub fn moves(&mut self, shape: &Shape, act: &Act, word: u64) -> Result<Outcome, OutOfMemory>
        requires may { May shape.now act.now self.old }
        requires fit { IsFit self.old }
        requires content { IsWordFor shape.now act.now word }
        ensures told { IfOk result (λ o. o ≡ answer shape.now act.now word self.old) }
        ensures ok { IfOk result (λ _. self.new ≡ moved shape.now act.now word self.old) }
        ensures err { OnErr result (self.new ≡ self.old) }
    {
        self.trail.reserve(1)?;
        let outcome = self.holdings.change(shape, act, word)?;
        self.trail.push_reserved(Move { act: *act, outcome });
        Ok(outcome)
    }

    /// Whether the seat has nothing that only itself could give up.
    pub fn can_leave(&self) -> bool
        ensures { IsTrue result ↔ CanLeave self.now }
    {
        self.holdings.can_leave()
    }
}
