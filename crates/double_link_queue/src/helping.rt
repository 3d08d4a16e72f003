//! The link behind the node before the last one: an earlier push that is still in flight may have left it null. It is
//! set by whoever comes first.
ghost use Rattle.std.specs.Prelude.{◌≡◌, ◌<◌, ◌≤◌, ◌+◌, true, false, IfErr, IfOk, OnErr};
ghost use Rattle.weak_part_calls.specs.plain_state.Lists.{times};
ghost use Rattle.weak_part_calls.specs.core_events.Steps.{HasRoom};
ghost use Rattle.weak_part_calls.specs.core_events.Views.{without};
ghost use Rattle.weak_part_calls.specs.control_word.Resting.{IsAtRest, IsSpent};
ghost use Rattle.weak_part_calls.specs.counted_handles.declared.refusal.LoadError.TheVariants as unloaded;
ghost use Rattle.weak_part_calls.specs.part_calls.Parts.{HasBeside, as_part, seen_by};
ghost use Rattle.linked_queue.specs.queue_law.declared.view.Form.TheVariants.{Double};
ghost use Rattle.linked_queue.specs.queue_law.Pushes.{helped_view};
ghost use Rattle.linked_queue.specs.queue_law.Views.{first_view};
ghost use Rattle.linked_queue.specs.Leaving.{Leaves};
ghost use Rattle.linked_queue.specs.Pushes.{IsWhyUnlinked, SeesTail};
ghost use Rattle.linked_queue.specs.Queues.{IsAttached, beside_eyes};
ghost use Rattle.double_link_queue.specs.Leaving.{LeavesBoth};
ghost use Rattle.double_link_queue.specs.Pushes.{NotesHelp, SeesBefore, SeesNodeBefore};
ghost use Rattle.double_link_queue.specs.Steps.{Helps, HelpsAt, LooksBefore, MissesBack, SetsLink};

use crate::deeds::SeeSet;
use crate::looking_back::find_before;
use linked_queue::{HasQueue, HelpLink, QueueLaw};
use weak_part_calls::{
    Domain, EventPlace, LoadError, Outcome, Place, Seat, SlotId, Spent, Strong, copy_strong,
    drop_strong, look, try_replace,
};

/// Sees to it that the link behind the node before isn't missing.
pub(crate) fn help<S, P: HasQueue<S>>(
    domain: &Domain<P>,
    seat: &mut Seat<P>,
    last: &Strong,
) -> Result<(), LoadError>
    requires rest { IsAtRest domain.now seat.old }
    requires room { HasRoom seat.old.view.core }
    requires queue { (P.part domain.now.protocol).form ≡ Double }
    requires attached { IsAttached (P.seen seat.old.view.client) }
    requires tail { SeesTail last.now.slot (seen_by P.seen seat.old) }
    ensures helped { IfOk result (λ done. (P.seen seat.new.view.client).eyes.helped ≡ true) }
    ensures tail { SeesTail last.now.slot (seen_by P.seen seat.new) }
    ensures adds { seat.new.view.core.adds ≤ seat.old.view.core.adds + 3 }
    ensures beside { beside_eyes (P.seen seat.new.view.client)
        ≡ beside_eyes (P.seen seat.old.view.client) }
    ensures makes { seat.new.view.core.makes ≡ seat.old.view.core.makes }
    ensures leaves { LeavesBoth seat.old.view.core.owned seat.old.view.core.weaks
        (seen_by P.seen seat.old) (seen_by P.seen seat.new) }
    ensures events { IfOk result (λ done. Helps P.Kind.fits (as_part P.part domain.now)
        last.now.slot (seen_by P.seen seat.old) (seen_by P.seen seat.new)) }
    ensures why { IfErr result (λ error. IsWhyUnlinked (λ seen now.
        MissesBack P.Kind.fits (as_part P.part domain.now) last.now.slot seen now
        (seen_by P.seen seat.old) (seen_by P.seen seat.new)) 2
        error (seen_by P.seen seat.old)) }
    ensures spent { IfErr result (λ error. error ≡ unloaded.Spent → IsSpent seat.new.view.core) }
    ensures beside_part { HasBeside P.with_seen first_view seat.old seat.new }
    ensures room { HasRoom seat.new.view.core }
    ensures rest { IsAtRest domain.now seat.new }
{
    let before = match find_before(domain, seat, last.slot()) {
        Ok(Some(before)) => before,
        Ok(None) => return Ok(()),
        Err(error) => return Err(error),
    };
    let helped = help_at(domain, seat, last, before.slot());
    drop_strong::<QueueLaw, S, P>(domain, seat, before);
    match helped {
        Ok(()) => Ok(()),
        Err(Spent) => Err(LoadError::Spent),
    }
}

/// The same, of the node before, which the seat holds.
fn help_at<S, P: HasQueue<S>>(
    domain: &Domain<P>,
    seat: &mut Seat<P>,
    last: &Strong,
    before: SlotId,
) -> Result<(), Spent>
    requires rest { IsAtRest domain.now seat.old }
    requires room { HasRoom seat.old.view.core }
    requires queue { (P.part domain.now.protocol).form ≡ Double }
    requires before { SeesBefore last.now.slot before (seen_by P.seen seat.old) }
    ensures events { IfOk result (λ done. HelpsAt P.Kind.fits (as_part P.part domain.now)
        last.now.slot before (seen_by P.seen seat.old) (seen_by P.seen seat.new)) }
    ensures helped { IfOk result (λ done. (P.seen seat.new.view.client).eyes.helped ≡ true) }
    ensures tail { SeesTail last.now.slot (seen_by P.seen seat.new) }
    ensures adds { seat.new.view.core.adds ≤ seat.old.view.core.adds + 1 }
    ensures notes { NotesHelp (P.seen seat.old.view.client) (P.seen seat.new.view.client) }
    ensures makes { seat.new.view.core.makes ≡ seat.old.view.core.makes }
    ensures leaves { Leaves seat.old.view.core.owned (seen_by P.seen seat.old)
        (seen_by P.seen seat.new) }
    ensures spent { IfErr result (λ spent. IsSpent seat.old.view.core) }
    ensures now_spent { OnErr result (IsSpent seat.new.view.core) }
    ensures beside_part { HasBeside P.with_seen first_view seat.old seat.new }
    ensures room { HasRoom seat.new.view.core }
    ensures rest { IsAtRest domain.now seat.new }
{
    if is_set(domain, seat, last.slot(), before) {
        return Ok(());
    }
    let given = copy_strong::<QueueLaw, S, P>(domain, seat, last)?;
    set_link(domain, seat, before, given);
    Ok(())
}

/// Whether field 0 of the node before is set.
fn is_set<S, P: HasQueue<S>>(
    domain: &Domain<P>,
    seat: &mut Seat<P>,
    last: SlotId,
    before: SlotId,
) -> bool
    requires rest { IsAtRest domain.now seat.old }
    requires room { HasRoom seat.old.view.core }
    requires queue { (P.part domain.now.protocol).form ≡ Double }
    requires before { SeesBefore last before (seen_by P.seen seat.old) }
    ensures events { LooksBefore P.Kind.fits (as_part P.part domain.now) before
        (seen_by P.seen seat.old) (seen_by P.seen seat.new) }
    ensures set { result ≡ true → (P.seen seat.new.view.client).eyes.helped ≡ true }
    ensures before { SeesNodeBefore last before (seen_by P.seen seat.new) }
    ensures adds { seat.new.view.core.adds ≡ seat.old.view.core.adds }
    ensures spent { seat.new.view.core.quota.adds ≡ seat.old.view.core.quota.adds }
    ensures notes { NotesHelp (P.seen seat.old.view.client) (P.seen seat.new.view.client) }
    ensures makes { seat.new.view.core.makes ≡ seat.old.view.core.makes }
    ensures leaves { Leaves seat.old.view.core.owned (seen_by P.seen seat.old)
        (seen_by P.seen seat.new) }
    ensures beside_part { HasBeside P.with_seen first_view seat.old seat.new }
    ensures room { HasRoom seat.new.view.core }
    ensures rest { IsAtRest domain.now seat.new }
{
    match look::<QueueLaw, S, P, _>(domain, seat, EventPlace::Field(before, 0), SeeSet) {
        Outcome::Found(found) => found.is_some(),
        _ => false,
    }
}

/// Field 0 of the node before gets the last node, unless it is set already.
fn set_link<S, P: HasQueue<S>>(domain: &Domain<P>, seat: &mut Seat<P>, before: SlotId, last: Strong)
    requires rest { IsAtRest domain.now seat.old }
    requires room { HasRoom seat.old.view.core }
    requires queue { (P.part domain.now.protocol).form ≡ Double }
    requires before { SeesNodeBefore last.slot before (seen_by P.seen seat.old) }
    ensures events { SetsLink P.Kind.fits (as_part P.part domain.now) last.slot before
        (seen_by P.seen seat.old) (seen_by P.seen seat.new) }
    ensures client { (P.seen seat.new.view.client) ≡ helped_view (P.seen seat.old.view.client) }
    ensures adds { seat.new.view.core.adds ≡ seat.old.view.core.adds }
    ensures makes { seat.new.view.core.makes ≡ seat.old.view.core.makes }
    ensures leaves { Leaves (without last.slot seat.old.view.core.owned) (seen_by P.seen seat.old)
        (seen_by P.seen seat.new) }
    ensures beside_part { HasBeside P.with_seen first_view seat.old seat.new }
    ensures room { HasRoom seat.new.view.core }
    ensures rest { IsAtRest domain.now seat.new }
{
    if let Err(lost) = try_replace::<QueueLaw, S, P, _>(
        domain,
        seat,
        Place::Field(before, 0),
        None,
        Some(last),
        HelpLink,
    ) {
        let back = lost.back;
        let Some(last) = back else { unreachable!() };
        drop_strong::<QueueLaw, S, P>(domain, seat, last);
    }
}
