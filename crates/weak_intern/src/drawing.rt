//! Tickets, which give a seat interns.
ghost use Rattle.std.specs.Prelude.{ℕ, ◌≡◌, ◌↔◌, IfOk, IsErr, OnErr};
ghost use Rattle.atomic_weak.specs.plain_state.declared.act.PlainAct.TheVariants as plain;
ghost use Rattle.atomic_weak.specs.plain_protocol.Owns.{OwnPart};
ghost use Rattle.atomic_weak.specs.core_events.declared.outcome.Outcome.TheVariants as outcome;
ghost use Rattle.atomic_weak.specs.core_events.Steps.{HasRoom};
ghost use Rattle.atomic_weak.specs.control_word.Resting.{IsAtRest, IsSpent};
ghost use Rattle.record_making.specs.directory_calls.Directories.{area_of};
ghost use Rattle.weak_intern.specs.Drawing.{Draws};

use atomic_weak::{Domain, Outcome, Seat, Spent};
use record_making::{DirectoryLaw, DrawTicket, HasDirectory, InPart};

/// Draws the next ticket, and answers its number: from then on the seat has the interns that the
/// directory gives with it. `Spent` exactly where the seat has no add left, and then nothing has
/// changed. One step.
pub fn draw<S, P: HasDirectory<S>>(domain: &Domain<P>, seat: &mut Seat<P>) -> Result<u64, Spent>
    requires rest { IsAtRest domain.now seat.old }
    requires free { (own : OwnPart) → P.free domain.now.protocol own plain.Ticket }
    ensures spent { IsErr result ↔ IsSpent seat.old.view.core }
    ensures refused { OnErr result (seat.new ≡ seat.old) }
    ensures draws { IfOk result (λ ticket. Draws P.seen P.with_seen
        (area_of (P.part domain.now.protocol)) ticket seat.old seat.new) }
    ensures room { HasRoom seat.old.view.core → HasRoom seat.new.view.core }
    ensures rest { IsAtRest domain.now seat.new }
{
    if domain.adds_left(seat) == 0 {
        return Err(Spent);
    }
    let deed = InPart::<DirectoryLaw, S, DrawTicket>::new(DrawTicket);
    Ok(number_of(domain.ticket(seat, deed)))
}

/// The number that a step answered.
fn number_of(answer: Outcome) -> u64
    ensures { (number : ℕ) → answer ≡ outcome.Number number → result ≡ number }
{
    match answer {
        Outcome::Number(number) => number,
        _ => 0,
    }
}
