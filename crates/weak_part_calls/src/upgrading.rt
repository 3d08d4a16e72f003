//! A strong reference of a weak one, with a deed of the part.
ghost use Rattle.std.specs.Prelude.{◌≡◌, ◌<◌, ◌↔◌, Err, IfOk};
ghost use Rattle.control_word.specs.plain_state.Lists.{times};
ghost use Rattle.control_word.specs.core_events.declared.act.Act.TheVariants as act;
ghost use Rattle.control_word.specs.core_events.Steps.{HasRoom};
ghost use Rattle.control_word.specs.acquire_retire.Calls.{IsReady};
ghost use Rattle.control_word.specs.declared.upgrading.UpgradeError.TheVariants as refused;
ghost use Rattle.control_word.specs.Calls.{FindsEnded, GainsStrong};
ghost use Rattle.control_word.specs.Moves.{KnowsStill};
ghost use Rattle.control_word.specs.Resting.{IsAtRest, IsSpent};
ghost use Rattle.part_calls.specs.Parts.{AcceptsAll, HasBeside, as_part, seen_by, view_seen};

use control_word::{Deed, Domain, Protocol, Seat, Strong, UpgradeError, Weak};
use part_calls::{InPart, Part};

/// A strong reference to the object of a weak one that the seat owns, which stays. `Spent` comes first, exactly where
/// the seat has used all adds of its quota, and then nothing has changed. `Ended` comes exactly where the step found
/// the zero flag, so there was no strong reference then; its add is used all the same. The step is made with the deed
/// of the part. One step, and one add.
pub fn upgrade<Q: Protocol, S, P: Part<Q, S>, D: Deed<Q>>(
    domain: &Domain<P>,
    seat: &mut Seat<P>,
    weak: &Weak,
    deed: D,
) -> Result<Strong, UpgradeError>
    requires rest { IsAtRest domain.now seat.old }
    requires owned { 0 < times weak.now.slot seat.old.view.core.weaks }
    requires deed { IsReady (D.ready deed (P.part domain.now.protocol)) domain.now.shape
        (act.Add weak.now.slot) (view_seen P.seen seat.old.view) }
    requires accepted { AcceptsAll (P.suits domain.now.protocol)
        (D.next deed (P.part domain.now.protocol)) P.seen seat.old.view.client }
    ensures spent { (result ≡ Err refused.Spent) ↔ IsSpent seat.old.view.core }
    ensures refused { result ≡ Err refused.Spent → seat.new ≡ seat.old }
    ensures upgraded { IfOk result (λ strong. (strong.slot ≡ weak.now.slot)
        × GainsStrong P.Kind.fits (as_part P.part domain.now)
        (D.next deed (P.part domain.now.protocol)) (D.allows deed (P.part domain.now.protocol))
        weak.now.slot (seen_by P.seen seat.old) (seen_by P.seen seat.new)) }
    ensures owned { IfOk result (λ strong. 0 < times strong.slot seat.new.view.core.owned) }
    ensures ended { result ≡ Err refused.Ended
        → FindsEnded P.Kind.fits (as_part P.part domain.now)
        (D.next deed (P.part domain.now.protocol)) (D.allows deed (P.part domain.now.protocol))
        weak.now.slot (seen_by P.seen seat.old) (seen_by P.seen seat.new) }
    ensures beside { HasBeside P.with_seen Q.gone seat.old seat.new }
    ensures notes { seat.new.view.core.notes ≡ seat.old.view.core.notes }
    ensures objects { KnowsStill seat.old.view.core seat.old seat.new }
    ensures room { HasRoom seat.old.view.core → HasRoom seat.new.view.core }
    ensures rest { IsAtRest domain.now seat.new }
{
    control_word::upgrade(domain, seat, weak, InPart::<Q, S, D>::new(deed))
}
