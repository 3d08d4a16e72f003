//! A strong reference of a weak one.
ghost use Rattle.std.specs.Prelude.{◌≡◌, ◌<◌, ◌↔◌, Err, IfOk};
ghost use Rattle.counted_handles.specs.plain_state.Lists.{times};
ghost use Rattle.acquire_retire.specs.core_events.declared.act.Act.TheVariants as act;
ghost use Rattle.acquire_retire.specs.core_events.Steps.{HasRoom};
ghost use Rattle.acquire_retire.specs.Calls.{IsReady};
ghost use Rattle.control_word.specs.declared.upgrading.UpgradeError.TheVariants as refused;
ghost use Rattle.control_word.specs.Calls.{FindsEnded, GainsStrong};
ghost use Rattle.control_word.specs.Moves.{KnowsStill};
ghost use Rattle.control_word.specs.Resting.{IsAtRest, IsSpent};

use acquire_retire::{Deed, Domain, Outcome, Protocol, Seat};
use counted_handles::{Strong, Weak};

/// Why an upgrade gave no reference.
#[derive(Clone, Copy, PartialEq, Eq, Debug, Drop)]
pub enum UpgradeError {
    /// The object has ended: the zero flag stood in its strong word, and no strong reference was left.
    Ended,
    /// The seat has no add left of its quota.
    Spent,
}

/// A strong reference to the object of a weak one that the seat owns, which stays. `Spent` comes first, exactly where
/// the seat has used all adds of its quota, and then nothing has changed. `Ended` comes exactly where the step found
/// the zero flag, so there was no strong reference then; its add is used all the same. One step, and one add.
pub fn upgrade<P: Protocol, D: Deed<P>>(
    domain: &Domain<P>,
    seat: &mut Seat<P>,
    weak: &Weak,
    deed: D,
) -> Result<Strong, UpgradeError>
    requires rest { IsAtRest domain.now seat.old }
    requires owned { 0 < times weak.now.slot seat.old.view.core.weaks }
    requires deed { IsReady (D.ready deed domain.now.protocol) domain.now.shape
        (act.Add weak.now.slot) seat.old.view }
    ensures spent { (result ≡ Err refused.Spent) ↔ IsSpent seat.old.view.core }
    ensures refused { result ≡ Err refused.Spent → seat.new ≡ seat.old }
    ensures upgraded { IfOk result (λ strong. (strong.slot ≡ weak.now.slot)
        × GainsStrong P.Kind.fits domain.now (D.next deed domain.now.protocol)
        (D.allows deed domain.now.protocol) weak.now.slot seat.old seat.new) }
    ensures owned { IfOk result (λ strong. 0 < times strong.slot seat.new.view.core.owned) }
    ensures ended { result ≡ Err refused.Ended
        → FindsEnded P.Kind.fits domain.now (D.next deed domain.now.protocol)
        (D.allows deed domain.now.protocol) weak.now.slot seat.old seat.new }
    ensures notes { seat.new.view.core.notes ≡ seat.old.view.core.notes }
    ensures objects { KnowsStill seat.old.view.core seat.old seat.new }
    ensures room { HasRoom seat.old.view.core → HasRoom seat.new.view.core }
    ensures rest { IsAtRest domain.now seat.new }
{
    if domain.adds_left(seat) == 0 {
        return Err(UpgradeError::Spent);
    }
    let slot = weak.slot();
    if let Outcome::Up = domain.add(seat, slot, deed) {
        return Ok(Strong::of(slot));
    }
    Err(UpgradeError::Ended)
}
