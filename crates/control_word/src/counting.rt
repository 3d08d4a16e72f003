//! How many references there are to a slot, as a seat that holds it reads it.
ghost use Rattle.std.specs.Prelude.{ℕ, ◌≡◌};
ghost use Rattle.acquire_retire.specs.core_events.declared.outcome.Outcome.TheVariants as outcome;
ghost use Rattle.acquire_retire.specs.core_events.Views.{Holds};
ghost use Rattle.acquire_retire.specs.core_events.Steps.{HasRoom};
ghost use Rattle.control_word.specs.Calls.{CountsStrong, CountsWeak, IsReadyToCount};
ghost use Rattle.control_word.specs.Moves.{KnowsStill};
ghost use Rattle.control_word.specs.Resting.{IsAtRest};

use acquire_retire::{Deed, Domain, Outcome, Protocol, Seat, SlotId};

/// The number that a step answered.
fn number(answer: Outcome) -> u64
    ensures { (n : ℕ) → answer ≡ outcome.Number n → result ≡ n }
{
    match answer {
        Outcome::Number(number) => number,
        _ => 0,
    }
}

/// The strong references to a slot that the seat holds, at the last step of this call. Where the first step reads a
/// word 0, a second one marks the object as ended, unless a reference has been added in between. At most two steps.
pub fn strong_count<P: Protocol, D: Deed<P>>(
    domain: &Domain<P>,
    seat: &mut Seat<P>,
    slot: SlotId,
    deed: D,
) -> u64
    requires rest { IsAtRest domain.now seat.old }
    requires holds { Holds seat.old.view.core slot }
    requires deed { IsReadyToCount P.Kind.fits domain.now (D.next deed domain.now.protocol)
        (D.allows deed domain.now.protocol) slot (D.ready deed domain.now.protocol) seat.old }
    ensures counted { CountsStrong P.Kind.fits domain.now (D.next deed domain.now.protocol)
        (D.allows deed domain.now.protocol) slot result seat.old seat.new }
    ensures notes { seat.new.view.core.notes ≡ seat.old.view.core.notes }
    ensures objects { KnowsStill seat.old.view.core seat.old seat.new }
    ensures room { HasRoom seat.old.view.core → HasRoom seat.new.view.core }
    ensures rest { IsAtRest domain.now seat.new }
{
    let answer = domain.count(seat, slot, deed);
    if let Outcome::Again = answer {
        return number(domain.mark(seat, deed));
    }
    number(answer)
}

/// The weak references to a slot that the seat holds, its own among them while its object isn't destroyed: the weak
/// word at the step of this call. One step.
pub fn weak_count<P: Protocol>(domain: &Domain<P>, seat: &mut Seat<P>, slot: SlotId) -> u64
    requires rest { IsAtRest domain.now seat.old }
    requires holds { Holds seat.old.view.core slot }
    ensures counted { CountsWeak P.Kind.fits domain.now slot result seat.old seat.new }
    ensures client { seat.new.view.client ≡ seat.old.view.client }
    ensures notes { seat.new.view.core.notes ≡ seat.old.view.core.notes }
    ensures objects { KnowsStill seat.old.view.core seat.old seat.new }
    ensures room { HasRoom seat.old.view.core → HasRoom seat.new.view.core }
    ensures rest { IsAtRest domain.now seat.new }
{
    match domain.wcount(seat, slot) {
        Outcome::Word(count) => count,
        _ => 0,
    }
}
