//! Whether a head that a seat sees still lives.
ghost use Rattle.std.specs.Prelude.{◌≡◌, ◌<◌, ◌↔◌, Err, IfOk};
ghost use Rattle.atomic_weak.specs.plain_state.Lists.{times};
ghost use Rattle.atomic_weak.specs.core_events.declared.act.Act.TheVariants as act;
ghost use Rattle.atomic_weak.specs.core_events.Steps.{HasRoom};
ghost use Rattle.atomic_weak.specs.core_events.Views.{Holds};
ghost use Rattle.atomic_weak.specs.acquire_retire.Calls.{IsReady};
ghost use Rattle.atomic_weak.specs.control_word.Calls.{FindsEnded, GainsStrong};
ghost use Rattle.atomic_weak.specs.control_word.Moves.{KnowsStill};
ghost use Rattle.atomic_weak.specs.control_word.Resting.{IsAtRest, IsSpent};
ghost use Rattle.atomic_weak.specs.control_word.declared.upgrading.UpgradeError.TheVariants as no_raise;
ghost use Rattle.atomic_weak.specs.domain_rule.Views.{object_in};
ghost use Rattle.record_making.specs.directory_law.Views.{In, note};
ghost use Rattle.record_making.specs.directory_calls.Directories.{CanCount, area_of};
ghost use Rattle.record_making.specs.directory_calls.Learning.{LearnsIn};
ghost use Rattle.record_making.specs.directory_calls.Steps.{AtStep, Leaves, handle_by, with_found};
ghost use Rattle.text_reading.specs.Reading.{HasBegun};
ghost use Rattle.weak_intern.specs.Seeing.{BeginsText, HasSeenIn};
ghost use Rattle.weak_intern.specs.Sighting.{IsSighted, Raises, added, let_go_of, seat_without};
ghost use Rattle.weak_intern.specs.Walking.{raised_by};

use crate::seeing::{Sighted, let_go};
use atomic_weak::{Deed, Domain, Outcome, Protocol, Seat, SlotId, Strong, UpgradeError};
use record_making::{DirectoryLaw, HasDirectory, InPart, UpgradeHead};

/// A strong reference to a head that the seat saw in a cell, which is let go; an intern of the seat
/// is used with it if that is asked. `Spent` comes first, exactly where the seat has no add left.
/// `Ended` where there was no strong reference to it; its add is used all the same. Two steps, or
/// one where it is refused with `Spent`.
pub fn raise<S, P: HasDirectory<S>>(
    domain: &Domain<P>,
    seat: &mut Seat<P>,
    sighted: Sighted,
    intern: bool,
) -> Result<Strong, UpgradeError>
    requires rest { IsAtRest domain.now seat.old }
    requires room { HasRoom seat.old.view.core }
    requires sighted { IsSighted sighted seat.old.view.core }
    requires saw { HasSeenIn P.seen sighted.slot seat.old }
    requires quota { CanCount intern (P.seen seat.old.view.client) }
    ensures spent { (result ≡ Err no_raise.Spent) ↔ IsSpent seat.old.view.core }
    ensures same { IfOk result (λ strong. strong.slot ≡ sighted.slot) }
    ensures live { IfOk result (λ strong. AtStep domain.now (BeginsText
        (area_of (P.part domain.now.protocol)) sighted.slot seat.new) seat.old seat.new) }
    ensures begins { IfOk result (λ strong. HasBegun P.seen sighted.slot seat.new) }
    ensures known { IfOk result (λ strong. object_in seat.new.view sighted.slot
        ≡ object_in seat.old.view sighted.slot) }
    ensures ended { result ≡ Err no_raise.Ended → In
        (note sighted.slot (object_in seat.old.view sighted.slot).life)
        (P.seen seat.new.view.client).ended }
    ensures raises { Raises sighted (added result) seat.old.view.core seat.new.view.core }
    ensures leaves { Leaves (with_found (handle_by result) seat.old.view.core.owned)
        seat.old.view.core.weaks (seat_without sighted seat.old) seat.new }
    ensures learns { LearnsIn P.seen P.with_seen (raised_by intern result)
        seat.old.view.client seat.new.view.client }
    ensures objects { KnowsStill (let_go_of sighted seat.old.view.core) seat.old seat.new }
    ensures room { HasRoom seat.new.view.core }
    ensures rest { IsAtRest domain.now seat.new }
{
    let deed = InPart::<DirectoryLaw, S, UpgradeHead>::new(UpgradeHead { intern });
    let raised = upgrade(domain, seat, sighted.slot, deed);
    let_go(domain, seat, sighted);
    raised
}

/// A strong reference to the object in a slot that the seat holds. `Spent` comes first, exactly
/// where the seat has no add left, and then nothing has changed. `Ended` exactly where the step
/// found the zero flag; its add is used all the same. One step, and one add.
fn upgrade<P: Protocol, D: Deed<P>>(
    domain: &Domain<P>,
    seat: &mut Seat<P>,
    slot: SlotId,
    deed: D,
) -> Result<Strong, UpgradeError>
    requires rest { IsAtRest domain.now seat.old }
    requires holds { Holds seat.old.view.core slot }
    requires deed { IsReady (D.ready deed domain.now.protocol) domain.now.shape (act.Add slot)
        seat.old.view }
    ensures spent { (result ≡ Err no_raise.Spent) ↔ IsSpent seat.old.view.core }
    ensures refused { result ≡ Err no_raise.Spent → seat.new ≡ seat.old }
    ensures upgraded { IfOk result (λ strong. (strong.slot ≡ slot)
        × GainsStrong P.Kind.fits domain.now (D.next deed domain.now.protocol)
        (D.allows deed domain.now.protocol) slot seat.old seat.new) }
    ensures ended { result ≡ Err no_raise.Ended
        → FindsEnded P.Kind.fits domain.now (D.next deed domain.now.protocol)
        (D.allows deed domain.now.protocol) slot seat.old seat.new }
    ensures notes { seat.new.view.core.notes ≡ seat.old.view.core.notes }
    ensures objects { KnowsStill seat.old.view.core seat.old seat.new }
    ensures room { HasRoom seat.old.view.core → HasRoom seat.new.view.core }
    ensures rest { IsAtRest domain.now seat.new }
{
    if domain.adds_left(seat) == 0 {
        return Err(UpgradeError::Spent);
    }
    if let Outcome::Up = domain.add(seat, slot, deed) {
        return Ok(Strong::of(slot));
    }
    Err(UpgradeError::Ended)
}
