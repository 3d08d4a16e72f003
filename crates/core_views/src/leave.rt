//! A seat leaves, and the first one takes over what it had.
ghost use Rattle.std.specs.Prelude.{◌≡◌, ◌+◌, ◌<◌, ◌≤◌, ◌^◌, ◌++◌, [], OnOk, OnErr, vec_len, vec_capacity};
ghost use Rattle.core_functions.specs.core_events.declared.act.Act.TheVariants as act;
ghost use Rattle.core_functions.specs.core_events.declared.outcome.Outcome.TheVariants as outcome;
ghost use Rattle.core_functions.specs.core_events.Views.{room_of};
ghost use Rattle.core_functions.specs.core_events.Steps.{noted};
ghost use Rattle.core_functions.specs.core_events.Runs.{taken_over, left_behind};

use crate::holdings::{Holdings, PastSeat};
use crate::seat::OwnView;
use core_functions::{Act, Move, OutOfMemory, Outcome, move_all, room_for};
use std::mem;

impl Holdings {
    /// Takes over what the leaver has, and keeps its trail and its tickets.
    fn absorb(&mut self, leaver: &mut Holdings, trail: &mut Vec<Move>) -> Result<(), OutOfMemory>
        requires { self.old.room + room_of self.old.shape < 2 ^ 32 }
        ensures ok { OnOk result (self.new
            ≡ taken_over self.old (record leaver.old { trail = trail.old.items })) }
        ensures left { OnOk result (leaver.new ≡ left_behind leaver.old) }
        ensures trail { OnOk result (trail.new.items ≡ []) }
        ensures err { OnErr result (self.new ≡ self.old) }
        ensures leaver_err { OnErr result (leaver.new ≡ leaver.old) }
        ensures trail_err { OnErr result (trail.new.items ≡ trail.old.items) }
    {
        self.owned.reserve(leaver.owned.len())?;
        self.weaks.reserve(leaver.weaks.len())?;
        self.retired.reserve(leaver.retired.len())?;
        self.dying.reserve(leaver.dying.len())?;
        self.ripe.reserve(leaver.ripe.len())?;
        self.made.reserve(leaver.made.len())?;
        self.left_seats.reserve(1)?;
        move_all(&mut leaver.owned, &mut self.owned);
        move_all(&mut leaver.weaks, &mut self.weaks);
        move_all(&mut leaver.retired, &mut self.retired);
        move_all(&mut leaver.dying, &mut self.dying);
        move_all(&mut leaver.ripe, &mut self.ripe);
        move_all(&mut leaver.made, &mut self.made);
        self.left_seats.push_reserved(PastSeat {
            seat: leaver.seat,
            trail: mem::replace(trail, Vec::new(self.alloc)),
            tickets: mem::replace(&mut leaver.tickets, Vec::new(self.alloc)),
        });
        self.room += room_for(&self.shape);
        leaver.left = true;
        Ok(())
    }
}

impl OwnView {
    /// Takes over all that the seat has which leaves, and notes that. Each list of the leaver comes
    /// behind the root's own. After an error neither has changed.
    pub fn take_over(&mut self, leaver: &mut OwnView) -> Result<(), OutOfMemory>
        requires { self.old.room + room_of self.old.shape < 2 ^ 32 }
        ensures ok { OnOk result (self.new ≡ noted (act.Leave leaver.old.seat) outcome.Plain
            (taken_over self.old leaver.old)) }
        ensures left { OnOk result (leaver.new ≡ left_behind leaver.old) }
        ensures err { OnErr result (self.new ≡ self.old) }
        ensures leaver_err { OnErr result (leaver.new ≡ leaver.old) }
    {
        self.trail.reserve(1)?;
        let seat = leaver.holdings.seat;
        self.holdings
            .absorb(&mut leaver.holdings, &mut leaver.trail)?;
        self.trail.push_reserved(Move {
            act: Act::Leave(seat),
            outcome: Outcome::Plain,
        });
        Ok(())
    }
}
