//! The counter that threads share.
//!
//! The word counts what the seats hold, below two flags. An increment adds 1 in one step, and
//! counts where the zero flag wasn't there. A decrement subtracts 1. The caller that took the last
//! count (`decrement`, below) has not ended the counter yet, since another seat may add before its
//! next step: it comes to finish, by a compare-exchange of 0 to the zero flag, and ends the counter
//! where that finds 0. Here are the ways that this goes when others step in between.
//!
//! - Another seat adds, and the word isn't 0: the finisher has lost, and the counter lives on.
//! - That seat gives its count up again, so two callers are to finish. The first to do so ends the
//!   counter, and the *late finisher* finds the zero flag and has lost.
//! - A reader (`read`, below) loads 0. If it answered 0 and left the word, an increment could still
//!   succeed, and a count that was seen at 0 would live on. So it *helps*: it sets the zero flag
//!   itself, with the help flag beside it, by a compare-exchange of 0 to both. From that step on
//!   the count is over, and who ends it is still open. Each finisher then finds the help flag and
//!   takes it by one `fetch_and` that clears it, and the one whose step found the flag ends the
//!   counter.
//!
//! The counter is the sticky counter of Anderson, Blelloch and Wei, "Turning Manual Concurrent
//! Memory Reclamation into Automatic Reference Counting", PLDI 2022. That the help flag is taken by
//! `fetch_and` is this project's own choice. Where a word is used again for a later life, a late
//! finisher may come to take the help flag when the word counts that life already: the `fetch_and`
//! clears one bit and leaves the count, where a store of the zero flag would wipe it.
ghost use Rattle.std.specs.Prelude.{List, ◌≡◌, ℕ, ◌+◌, ◌-◌, ◌<◌, ◌≤◌, ◌↔◌, Bool, true, false, OnErr, IfOk, IsErr, if◌then◌else◌};
ghost use Rattle.sticky_count.specs.declared.view.Move.{Move};
ghost use Rattle.sticky_count.specs.Running.{most_adds};
ghost use Rattle.sticky_count.specs.Calls.{Increments, Decrements, Reads};
ghost use Rattle.sticky_count.specs.Seats.{SeatState, Made, opened_seats};
ghost use Rattle.sticky_count.specs.Ending.{HasEndedIt, IsOver};

use crate::outcome::Spent;
use crate::rule::{Adds, Finishes, Loads, Marks, SplitsOff, Subtracts, Takes};
use crate::seat::{Sticky, StickySeat};
use atomic_table::Table;
use counter_word::{Fin, HELP, Sub, ZERO, add, finish, sub, take_help, value};
use out_of_memory::OutOfMemory;
use std::alloc::Global;
use std::mem;

impl Sticky {
    /// A counter at 1, which seat 0 holds, and its seats in order. Each seat may add `adds` times.
    ///
    /// Takes all the memory that the counter ever needs; a refusal of it is the only error.
    pub fn open_sticky(
        alloc: Global,
        seats: u32,
        adds: u64,
    ) -> Result<(Sticky, Vec<StickySeat>), OutOfMemory>
        requires seats { (1 ≤ seats) × (seats ≤ 32) }
        requires adds { adds ≤ most_adds }
        ensures { IfOk result (λ r. r.1.items ≡ opened_seats r.0 seats adds) }
    {
        let mut list = Vec::with_capacity(alloc, seats as usize)?;
        let (table, mut last) = Table::of_words(alloc, &[1], &seats)?;
        for _opened in 1..seats {
            let next = table.shared.split_seat::<SplitsOff>(&mut last);
            list.push_reserved(StickySeat {
                seat: mem::replace(&mut last, next),
                adds: 0,
                quota: adds,
            });
        }
        list.push_reserved(StickySeat {
            seat: last,
            adds: 0,
            quota: adds,
        });
        Ok((Sticky { table }, list))
    }

    /// Counts one more for the seat, in one atomic step. False exactly where the zero flag stood at
    /// that step: the counter has ended, or no count is left and a reader has said so.
    ///
    /// An add is used in either case. `Spent` comes exactly where the seat has used its quota, and
    /// changes nothing.
    pub fn increment(&self, seat: &mut StickySeat) -> Result<bool, Spent>
        requires { seat.old.counter ≡ self.now }
        ensures spent { IsErr result ↔ (seat.old.view.adds ≡ seat.old.quota) }
        ensures err { OnErr result (seat.new ≡ seat.old) }

        // It made one step.
        ensures made { IfOk result (λ b. (ms : List Move)
            × Increments ms b × Made ms seat.old seat.new) }
        ensures held { IfOk result (λ b.
            seat.new.view.held ≡ seat.old.view.held + (if b then 1 else 0)) }
        ensures adds { IfOk result (λ _. seat.new.view.adds ≡ seat.old.view.adds + 1) }

        // Where it counted nothing, the zero flag stands from then on.
        ensures over { IfOk result (λ b. b ≡ false → IsOver seat.new) }

        // Who holds a count can count on.
        ensures counts { IfOk result (λ b. 0 < seat.old.view.held → b ≡ true) }
    {
        if seat.adds == seat.quota {
            return Err(Spent);
        }
        let found = self.table.shared.fetch_add::<Adds>(&mut seat.seat, 0, 1);
        seat.adds += 1;
        let (_, counted) = add(found);
        Ok(counted)
    }

    /// Counts one less, in one to three atomic steps. True exactly where a step of this call ended
    /// the counter: over all seats, and whatever the interleaving, that is so at most once.
    pub fn decrement(&self, seat: &mut StickySeat) -> bool
        requires fits { seat.old.counter ≡ self.now }
        requires holds { 0 < seat.old.view.held }
        ensures made { (ms : List Move) × Decrements ms result × Made ms seat.old seat.new }
        ensures held { seat.new.view.held + 1 ≡ seat.old.view.held }
        ensures adds { seat.new.view.adds ≡ seat.old.view.adds }
        ensures ended { seat.new.view.ended ≡ seat.old.view.ended + (if result then 1 else 0) }
        ensures once { seat.new.view.ended ≤ 1 }

        // No event of any seat had ended it before, and none does later.
        ensures ended_it { result ≡ true → HasEndedIt seat.new }

        // Who still holds a count has not ended the counter.
        ensures counts { 1 < seat.old.view.held → result ≡ false }
    {
        let shared = &self.table.shared;
        match sub(shared.fetch_sub::<Subtracts>(&mut seat.seat, 0, 1)).1 {
            Sub::Done => return false,
            Sub::Finish => {}
        }
        match finish(shared.compare_exchange::<Finishes>(&mut seat.seat, 0, 0, ZERO)).1 {
            Fin::Ended => true,
            Fin::Lost => false,
            Fin::Help => take_help(shared.fetch_and::<Takes>(&mut seat.seat, 0, !HELP)).1,
        }
    }

    /// The value at the last step of this call, which makes one or two atomic steps. Where it is 0
    /// the zero flag stands from then on, so that no later increment succeeds.
    pub fn read(&self, seat: &mut StickySeat) -> u64
        requires { seat.old.counter ≡ self.now }
        ensures made { (ms : List Move) × Reads ms result × Made ms seat.old seat.new }
        ensures held { seat.new.view.held ≡ seat.old.view.held }
        ensures adds { seat.new.view.adds ≡ seat.old.view.adds }
        ensures ended { seat.new.view.ended ≡ seat.old.view.ended }

        // Where nothing is counted, the zero flag stands from then on.
        ensures over { result ≡ 0 → IsOver seat.new }

        // The counts of the seat itself are in the value.
        ensures counts { seat.old.view.held ≤ result }
    {
        let shared = &self.table.shared;
        let found = shared.load::<Loads>(&mut seat.seat, 0);
        if found != 0 {
            return value(found);
        }
        value(shared.compare_exchange::<Marks>(&mut seat.seat, 0, 0, ZERO + HELP))
    }
}
