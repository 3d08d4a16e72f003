//! Calls that change a place, and scan where that is due.
ghost use Rattle.std.specs.Prelude.{◌≡◌, IfErr, IfOk, Option};
ghost use Rattle.control_word.specs.plain_state.Places.{place_kind};
ghost use Rattle.control_word.specs.core_events.declared.act.Act.TheVariants as act;
ghost use Rattle.control_word.specs.core_events.declared.outcome.Outcome.TheVariants as outcome;
ghost use Rattle.control_word.specs.core_events.Steps.{HasRoom, May, without_given};
ghost use Rattle.control_word.specs.acquire_retire.Calls.{IsReady};
ghost use Rattle.control_word.specs.Moves.{KnowsStill};
ghost use Rattle.control_word.specs.Resting.{IsAtRest};
ghost use Rattle.retiring_stores.specs.Exchanging.{Loses, Replaces, Swaps};
ghost use Rattle.retiring_stores.specs.Scanning.{IsBelow};

use crate::scanning::scan_where_due;
use control_word::{Deed, Domain, EventPlace, Outcome, Protocol, Seat, SlotId};

/// Puts null, or a reference that the seat gives, into a place, and answers what the place held: that is retired. One
/// step with the deed, and a collect where the seat's retired entries are then so many that one is due.
pub fn exchange<P: Protocol, D: Deed<P>>(
    domain: &Domain<P>,
    seat: &mut Seat<P>,
    place: EventPlace,
    new: Option<SlotId>,
    deed: D,
) -> Option<SlotId>
    requires rest { IsAtRest domain.now seat.old }
    requires may { May domain.now.shape (act.Swap place new) seat.old.view.core }
    requires deed { IsReady (D.ready deed domain.now.protocol) domain.now.shape
        (act.Swap place new) seat.old.view }
    ensures exchanged { Swaps P.Kind.fits domain.now (D.next deed domain.now.protocol)
        (D.allows deed domain.now.protocol) place new result seat.old seat.new }
    ensures below { IsBelow domain.now seat.new }
    ensures room { HasRoom seat.new.view.core }
    ensures notes { seat.new.view.core.notes ≡ seat.old.view.core.notes }
    ensures objects { KnowsStill (without_given (place_kind place) new seat.old.view.core)
        seat.old seat.new }
    ensures rest { IsAtRest domain.now seat.new }
{
    let held = held_before(domain.swap(seat, place, new, deed));
    scan_where_due(domain, seat);
    held
}

/// The slot that a step answered.
fn held_before(answer: Outcome) -> Option<SlotId>
    ensures { (held : Option SlotId) → answer ≡ outcome.Found held → result ≡ held }
{
    match answer {
        Outcome::Found(held) => held,
        _ => None,
    }
}

/// The same where the place holds what is expected. Else the answer is what it holds, and nothing has changed but the
/// trail, and the client's view by the deed.
pub fn compare_exchange<P: Protocol, D: Deed<P>>(
    domain: &Domain<P>,
    seat: &mut Seat<P>,
    place: EventPlace,
    expected: Option<SlotId>,
    new: Option<SlotId>,
    deed: D,
) -> Result<(), Option<SlotId>>
    requires rest { IsAtRest domain.now seat.old }
    requires may { May domain.now.shape (act.Cas place expected new) seat.old.view.core }
    requires deed { IsReady (D.ready deed domain.now.protocol) domain.now.shape
        (act.Cas place expected new) seat.old.view }
    ensures replaced { IfOk result (λ done. Replaces P.Kind.fits domain.now
        (D.next deed domain.now.protocol) (D.allows deed domain.now.protocol) place new expected
        seat.old seat.new × IsBelow domain.now seat.new) }
    ensures lost { IfErr result (λ found. Loses P.Kind.fits domain.now
        (D.next deed domain.now.protocol) (D.allows deed domain.now.protocol) place new expected
        found seat.old seat.new) }
    ensures room { HasRoom seat.new.view.core }
    ensures notes { seat.new.view.core.notes ≡ seat.old.view.core.notes }
    ensures objects { KnowsStill (without_given (place_kind place) new seat.old.view.core)
        seat.old seat.new }
    ensures rest { IsAtRest domain.now seat.new }
{
    if let Outcome::LostTo(found) = domain.cas(seat, place, expected, new, deed) {
        return Err(found);
    }
    scan_where_due(domain, seat);
    Ok(())
}
