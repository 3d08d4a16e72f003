//! A value is recalled, as long as its object lives.
ghost use Rattle.std.specs.Prelude.{ℕ, ◌≡◌, ◌≤◌, ◌+◌, ◌<◌, ◌++◌, ◌∷◌, ◌↔◌, [], Err, IfOk, OnErr};
ghost use Rattle.cdrc.specs.core_events.Steps.{HasRoom};
ghost use Rattle.cdrc.specs.core_events.Words.{slot_in};
ghost use Rattle.cdrc.specs.counted_handles.declared.refusal.LoadError.TheVariants as refused;
ghost use Rattle.cdrc.specs.control_word.Moves.{KnowsStill};
ghost use Rattle.cdrc.specs.control_word.Resting.{IsAtRest, IsSpent};
ghost use Rattle.example_cache.specs.Calls.{Finds, FoundEnded, GivesWeak, HasEnded, Moves, OwnsWith, Raises, Recalls, answered, strong_named, weak_named};
ghost use Rattle.example_cache.specs.declared.recalling.RecallError.TheVariants as no_recall;
ghost use Rattle.cdrc.specs.control_word.declared.upgrading.UpgradeError.TheVariants as no_raise;
ghost use Rattle.cdrc.specs.domain_rule.Views.{object_in};
ghost use Rattle.cdrc.specs.plain_state.Lists.{times};

use crate::deeds::RecallValue;
use crate::law::CacheLaw;
use cdrc::{
    Domain, LoadError, PayloadKind, Seat, Still, Strong, UpgradeError, Weak, WeakPlace, drop_weak,
    try_load_weak, upgrade,
};

/// Why no value was recalled.
#[derive(Clone, Copy, PartialEq, Eq, Debug, Drop)]
pub enum RecallError {
    /// The object that the cell held has ended: there was no strong reference to it. The value is to be made anew.
    Ended,
    /// The cell changed while the call looked: it held the word `seen`, and then another one, `now`. A word is 0 for
    /// null, else the slot's number and one.
    Moved { seen: u64, now: u64 },
    /// The seat has no add left of its quota.
    Spent,
}

/// A strong reference to the object that the cell holds, by a load and one add. `None` where nothing was remembered.
/// `Ended` where the object has ended, `Moved` where the cell changed meanwhile, and `Spent` where the seat has used
/// all adds of its quota, of which a recall takes two. At most eight steps.
pub fn recall<K: PayloadKind>(
    domain: &Domain<CacheLaw<K>>,
    seat: &mut Seat<CacheLaw<K>>,
    cell: u32,
) -> Result<Option<Strong>, RecallError>
    requires rest { IsAtRest domain.now seat.old }
    requires room { HasRoom seat.old.view.core }
    requires cell { cell ≡ domain.now.protocol.cell }
    requires there { cell < domain.now.shape.weak_cells }
    ensures recalled { IfOk result (λ found. Recalls K.fits domain.now
        domain.now.protocol.cell (strong_named found) seat.old seat.new) }
    ensures ended { result ≡ Err no_recall.Ended → FoundEnded K.fits domain.now
        domain.now.protocol.cell seat.old seat.new }
    ensures moved { (seen now : ℕ) → result ≡ Err (no_recall.Moved seen now)
        → Moves K.fits domain.now domain.now.protocol.cell (slot_in seen) (slot_in now)
        seat.old seat.new }
    ensures spent { result ≡ Err no_recall.Spent
        → seat.old.view.core.quota.adds ≤ seat.old.view.core.adds + 1 }
    ensures remembered { seat.new.view.client.remembered ≡ seat.old.view.client.remembered }
    ensures owns { OwnsWith (answered result) seat.old seat.new }
    ensures notes { seat.new.view.core.notes ≡ seat.old.view.core.notes }
    ensures objects { KnowsStill seat.old.view.core seat.old seat.new }
    ensures room { HasRoom seat.new.view.core }
    ensures rest { IsAtRest domain.now seat.new }
{
    let found = match find(domain, seat, cell) {
        Ok(found) => found,
        Err(error) => return Err(refusal(error)),
    };
    let Some(weak) = found else {
        return Ok(None);
    };
    match raise(domain, seat, weak) {
        Ok(strong) => Ok(Some(strong)),
        Err(UpgradeError::Ended) => Err(RecallError::Ended),
        Err(UpgradeError::Spent) => Err(RecallError::Spent),
    }
}

/// A strong reference in place of a weak one.
fn raise<K: PayloadKind>(
    domain: &Domain<CacheLaw<K>>,
    seat: &mut Seat<CacheLaw<K>>,
    weak: Weak,
) -> Result<Strong, UpgradeError>
    requires rest { IsAtRest domain.now seat.old }
    requires room { HasRoom seat.old.view.core }
    requires owned { 0 < times weak.slot seat.old.view.core.weaks }
    ensures raised { IfOk result (λ strong. (strong.slot ≡ weak.slot)
        × Raises K.fits domain.now weak.slot seat.old seat.new) }
    ensures owned { IfOk result (λ strong. 0 < times strong.slot seat.new.view.core.owned) }
    ensures known { IfOk result (λ strong. object_in seat.new.view strong.slot
        ≡ object_in seat.old.view weak.slot) }
    ensures ended { result ≡ Err no_raise.Ended
        → HasEnded K.fits domain.now weak.slot seat.old seat.new }
    ensures spent { result ≡ Err no_raise.Spent → IsSpent seat.old.view.core }
    ensures client { seat.new.view.client ≡ seat.old.view.client }
    ensures gains { IfOk result (λ strong. seat.new.view.core.owned
        ≡ seat.old.view.core.owned ++ strong.slot ∷ []) }
    ensures still { OnErr result (seat.new.view.core.owned ≡ seat.old.view.core.owned) }
    ensures gives { GivesWeak weak.slot seat.old seat.new }
    ensures notes { seat.new.view.core.notes ≡ seat.old.view.core.notes }
    ensures room { HasRoom seat.new.view.core }
    ensures rest { IsAtRest domain.now seat.new }
{
    let raised = upgrade(domain, seat, &weak, Still);
    drop_weak(domain, seat, weak);
    raised
}

/// The same refusal, of a recall.
fn refusal(error: LoadError) -> RecallError
    ensures ended { result ≡ no_recall.Ended → ⊥ }
    ensures moved { (seen now : ℕ) → result ≡ no_recall.Moved seen now
        → error ≡ refused.Moved seen now }
    ensures spent { result ≡ no_recall.Spent → error ≡ refused.Spent }
{
    match error {
        LoadError::Moved { seen, now } => RecallError::Moved { seen, now },
        LoadError::Spent => RecallError::Spent,
    }
}

/// A weak reference to what the cell holds.
fn find<K: PayloadKind>(
    domain: &Domain<CacheLaw<K>>,
    seat: &mut Seat<CacheLaw<K>>,
    cell: u32,
) -> Result<Option<Weak>, LoadError>
    requires rest { IsAtRest domain.now seat.old }
    requires room { HasRoom seat.old.view.core }
    requires cell { cell ≡ domain.now.protocol.cell }
    requires there { cell < domain.now.shape.weak_cells }
    ensures found { IfOk result (λ found. Finds K.fits domain.now
        domain.now.protocol.cell (weak_named found) seat.old seat.new) }
    ensures moved { (seen now : ℕ) → result ≡ Err (refused.Moved seen now)
        → Moves K.fits domain.now domain.now.protocol.cell (slot_in seen) (slot_in now)
        seat.old seat.new }
    ensures spent { (result ≡ Err refused.Spent) ↔ IsSpent seat.old.view.core }
    ensures refused { result ≡ Err refused.Spent → seat.new ≡ seat.old }
    ensures notes { seat.new.view.core.notes ≡ seat.old.view.core.notes }
    ensures remembered { seat.new.view.client.remembered ≡ seat.old.view.client.remembered }
    ensures objects { KnowsStill seat.old.view.core seat.old seat.new }
    ensures room { HasRoom seat.new.view.core }
    ensures rest { IsAtRest domain.now seat.new }
{
    try_load_weak(domain, seat, WeakPlace::Cell(cell), RecallValue)
}
