//! The node before the one that the tail cell held, by its weak field. Where there is none, or it has ended, no link is
//! missing.
ghost use Rattle.std.specs.Prelude.{◌≡◌, ◌<◌, ◌≤◌, ◌+◌, true, IfErr, IfOk, IfSome, None};
ghost use Rattle.weak_part_calls.specs.plain_state.Lists.{times};
ghost use Rattle.weak_part_calls.specs.core_events.Steps.{HasRoom};
ghost use Rattle.weak_part_calls.specs.core_events.Views.{without};
ghost use Rattle.weak_part_calls.specs.control_word.Resting.{IsAtRest, IsSpent};
ghost use Rattle.weak_part_calls.specs.counted_handles.declared.refusal.LoadError.TheVariants as unloaded;
ghost use Rattle.weak_part_calls.specs.atomic_shared.Places.{named};
ghost use Rattle.weak_part_calls.specs.atomic_weak.Places.{named as weakly_named};
ghost use Rattle.weak_part_calls.specs.part_calls.Parts.{HasBeside, as_part, seen_by};
ghost use Rattle.linked_queue.specs.queue_law.declared.view.Form.TheVariants.{Double};
ghost use Rattle.linked_queue.specs.queue_law.Views.{first_view};
ghost use Rattle.linked_queue.specs.Leaving.{found_by, with_found};
ghost use Rattle.linked_queue.specs.Pushes.{IsWhyUnlinked, SeesTail};
ghost use Rattle.linked_queue.specs.Queues.{IsAttached, beside_eyes};
ghost use Rattle.linked_queue.specs.Seeing.{IsWhyUnread};
ghost use Rattle.double_link_queue.specs.Leaving.{LeavesBoth};
ghost use Rattle.double_link_queue.specs.Pushes.{SeesBack, SeesBefore, weakly_found_by};
ghost use Rattle.double_link_queue.specs.Steps.{CountsBefore, FindsBefore, LoadsBack, MissesBack, UpgradesBack};

use linked_queue::{FindEnded, HasQueue, LearnBefore, QueueLaw};
use weak_part_calls::{
    Domain, LoadError, Seat, SlotId, Strong, UpgradeError, Weak, WeakPlace, drop_weak,
    try_load_weak, upgrade,
};

/// A reference to the node before, if it lives.
pub(crate) fn find_before<S, P: HasQueue<S>>(
    domain: &Domain<P>,
    seat: &mut Seat<P>,
    last: SlotId,
) -> Result<Option<Strong>, LoadError>
    requires rest { IsAtRest domain.now seat.old }
    requires room { HasRoom seat.old.view.core }
    requires queue { (P.part domain.now.protocol).form ≡ Double }
    requires attached { IsAttached (P.seen seat.old.view.client) }
    requires tail { SeesTail last (seen_by P.seen seat.old) }
    ensures none { IfOk result (λ found. named found ≡ None
        → (P.seen seat.new.view.client).eyes.helped ≡ true) }
    ensures sees { IfOk result (λ found. IfSome found (λ before.
        SeesBefore last before.slot (seen_by P.seen seat.new))) }
    ensures tail { SeesTail last (seen_by P.seen seat.new) }
    ensures adds { seat.new.view.core.adds ≤ seat.old.view.core.adds + 2 }
    ensures beside { beside_eyes (P.seen seat.new.view.client)
        ≡ beside_eyes (P.seen seat.old.view.client) }
    ensures makes { seat.new.view.core.makes ≡ seat.old.view.core.makes }
    ensures leaves { LeavesBoth (with_found (found_by result) seat.old.view.core.owned)
        seat.old.view.core.weaks (seen_by P.seen seat.old) (seen_by P.seen seat.new) }
    ensures events { IfOk result (λ found. FindsBefore P.Kind.fits (as_part P.part domain.now)
        last (named found) (seen_by P.seen seat.old) (seen_by P.seen seat.new)) }
    ensures why { IfErr result (λ error. IsWhyUnlinked (λ seen now.
        MissesBack P.Kind.fits (as_part P.part domain.now) last seen now
        (seen_by P.seen seat.old) (seen_by P.seen seat.new)) 1
        error (seen_by P.seen seat.old)) }
    ensures spent { IfErr result (λ error. error ≡ unloaded.Spent → IsSpent seat.new.view.core) }
    ensures beside_part { HasBeside P.with_seen first_view seat.old seat.new }
    ensures room { HasRoom seat.new.view.core }
    ensures rest { IsAtRest domain.now seat.new }
{
    match load_back(domain, seat, last) {
        Ok(Some(back)) => upgrade_back(domain, seat, last, back),
        Ok(None) => Ok(None),
        Err(error) => Err(error),
    }
}

/// A weak reference to the node before.
fn load_back<S, P: HasQueue<S>>(
    domain: &Domain<P>,
    seat: &mut Seat<P>,
    last: SlotId,
) -> Result<Option<Weak>, LoadError>
    requires rest { IsAtRest domain.now seat.old }
    requires room { HasRoom seat.old.view.core }
    requires queue { (P.part domain.now.protocol).form ≡ Double }
    requires tail { SeesTail last (seen_by P.seen seat.old) }
    ensures none { IfOk result (λ found. weakly_named found ≡ None
        → (P.seen seat.new.view.client).eyes.helped ≡ true) }
    ensures sees { IfOk result (λ found. IfSome found (λ back.
        SeesBack last back.slot (seen_by P.seen seat.new))) }
    ensures tail { SeesTail last (seen_by P.seen seat.new) }
    ensures adds { seat.new.view.core.adds ≤ seat.old.view.core.adds + 1 }
    ensures beside { beside_eyes (P.seen seat.new.view.client)
        ≡ beside_eyes (P.seen seat.old.view.client) }
    ensures makes { seat.new.view.core.makes ≡ seat.old.view.core.makes }
    ensures leaves { LeavesBoth seat.old.view.core.owned
        (with_found (weakly_found_by result) seat.old.view.core.weaks)
        (seen_by P.seen seat.old) (seen_by P.seen seat.new) }
    ensures events { IfOk result (λ found. LoadsBack P.Kind.fits (as_part P.part domain.now)
        last (weakly_named found) (seen_by P.seen seat.old) (seen_by P.seen seat.new)) }
    ensures why { IfErr result (λ error. IsWhyUnread (λ seen now.
        MissesBack P.Kind.fits (as_part P.part domain.now) last seen now
        (seen_by P.seen seat.old) (seen_by P.seen seat.new)) error
        (seen_by P.seen seat.old)) }
    ensures spent { IfErr result (λ error. error ≡ unloaded.Spent → IsSpent seat.new.view.core) }
    ensures beside_part { HasBeside P.with_seen first_view seat.old seat.new }
    ensures room { HasRoom seat.new.view.core }
    ensures rest { IsAtRest domain.now seat.new }
{
    try_load_weak::<QueueLaw, S, P, _>(domain, seat, WeakPlace::Field(last), LearnBefore)
}

/// A strong reference in place of the weak one, if the node lives.
fn upgrade_back<S, P: HasQueue<S>>(
    domain: &Domain<P>,
    seat: &mut Seat<P>,
    last: SlotId,
    back: Weak,
) -> Result<Option<Strong>, LoadError>
    requires rest { IsAtRest domain.now seat.old }
    requires room { HasRoom seat.old.view.core }
    requires queue { (P.part domain.now.protocol).form ≡ Double }
    requires attached { IsAttached (P.seen seat.old.view.client) }
    requires back { SeesBack last back.slot (seen_by P.seen seat.old) }
    ensures none { IfOk result (λ found. named found ≡ None
        → (P.seen seat.new.view.client).eyes.helped ≡ true) }
    ensures sees { IfOk result (λ found. IfSome found (λ before.
        SeesBefore last before.slot (seen_by P.seen seat.new))) }
    ensures tail { SeesTail last (seen_by P.seen seat.new) }
    ensures adds { seat.new.view.core.adds ≤ seat.old.view.core.adds + 1 }
    ensures beside { beside_eyes (P.seen seat.new.view.client)
        ≡ beside_eyes (P.seen seat.old.view.client) }
    ensures makes { seat.new.view.core.makes ≡ seat.old.view.core.makes }
    ensures leaves { LeavesBoth (with_found (found_by result) seat.old.view.core.owned)
        (without back.slot seat.old.view.core.weaks) (seen_by P.seen seat.old)
        (seen_by P.seen seat.new) }
    ensures events { IfOk result (λ found. UpgradesBack P.Kind.fits (as_part P.part domain.now)
        back.slot (named found) (seen_by P.seen seat.old) (seen_by P.seen seat.new)) }
    ensures why { IfErr result (λ error. IsWhyUnlinked (λ seen now. ⊥) 0 error
        (seen_by P.seen seat.old)) }
    ensures spent { IfErr result (λ error. error ≡ unloaded.Spent → IsSpent seat.new.view.core) }
    ensures beside_part { HasBeside P.with_seen first_view seat.old seat.new }
    ensures room { HasRoom seat.new.view.core }
    ensures rest { IsAtRest domain.now seat.new }
{
    let found = count_before(domain, seat, last, &back);
    drop_weak::<QueueLaw, S, P>(domain, seat, back);
    found
}

/// A strong reference beside the weak one, if the node lives.
fn count_before<S, P: HasQueue<S>>(
    domain: &Domain<P>,
    seat: &mut Seat<P>,
    last: SlotId,
    back: &Weak,
) -> Result<Option<Strong>, LoadError>
    requires rest { IsAtRest domain.now seat.old }
    requires room { HasRoom seat.old.view.core }
    requires queue { (P.part domain.now.protocol).form ≡ Double }
    requires attached { IsAttached (P.seen seat.old.view.client) }
    requires back { SeesBack last back.now.slot (seen_by P.seen seat.old) }
    ensures none { IfOk result (λ found. named found ≡ None
        → (P.seen seat.new.view.client).eyes.helped ≡ true) }
    ensures sees { IfOk result (λ found. IfSome found (λ before.
        SeesBefore last before.slot (seen_by P.seen seat.new))) }
    ensures back { SeesBack last back.now.slot (seen_by P.seen seat.new) }
    ensures adds { seat.new.view.core.adds ≤ seat.old.view.core.adds + 1 }
    ensures beside { beside_eyes (P.seen seat.new.view.client)
        ≡ beside_eyes (P.seen seat.old.view.client) }
    ensures makes { seat.new.view.core.makes ≡ seat.old.view.core.makes }
    ensures leaves { LeavesBoth (with_found (found_by result) seat.old.view.core.owned)
        seat.old.view.core.weaks (seen_by P.seen seat.old) (seen_by P.seen seat.new) }
    ensures events { IfOk result (λ found. CountsBefore P.Kind.fits (as_part P.part domain.now)
        back.now.slot (named found) (seen_by P.seen seat.old) (seen_by P.seen seat.new)) }
    ensures why { IfErr result (λ error. IsWhyUnlinked (λ seen now. ⊥) 0 error
        (seen_by P.seen seat.old)) }
    ensures spent { IfErr result (λ error. error ≡ unloaded.Spent → IsSpent seat.new.view.core) }
    ensures beside_part { HasBeside P.with_seen first_view seat.old seat.new }
    ensures room { HasRoom seat.new.view.core }
    ensures rest { IsAtRest domain.now seat.new }
{
    match upgrade::<QueueLaw, S, P, _>(domain, seat, back, FindEnded) {
        Ok(before) => Ok(Some(before)),
        Err(UpgradeError::Ended) => Ok(None),
        Err(UpgradeError::Spent) => Err(LoadError::Spent),
    }
}
