//! References of a seat that is alone: one more, and one fewer.
ghost use Rattle.std.specs.Prelude.{◌≡◌, ◌↔◌, [], IfOk, IsErr, OnErr, OnOk, Err};
ghost use Rattle.protected_loads.specs.plain_state.declared.act.PlainAct.TheVariants as act;
ghost use Rattle.protected_loads.specs.plain_state.Steps.{Does};
ghost use Rattle.plain_settling.specs.plain_store.Calls.{Gains, WeaklyGains};
ghost use Rattle.plain_settling.specs.plain_store.Heaps.{Owns, OwnsWeakly};
ghost use Rattle.protected_loads.specs.control_word.Resting.{IsSpent};
ghost use Rattle.protected_loads.specs.control_word.declared.upgrading.UpgradeError.TheVariants as refused;
ghost use Rattle.lone_heap.specs.Lone.{IsReady, ThenTidies, known_plain};
ghost use Rattle.lone_heap.specs.Trails.{Shows, found_ended, upgraded};

use protected_loads::{
    AnyStep, Domain, NoLaw, PayloadKind, Protocol, Seat, Spent, UpgradeError, Weak, copy_strong,
    copy_weak, drop_strong, drop_weak, upgrade, weaken,
};
use snapshot_ptr::Strong;

/// One more owned reference to the object of one that the seat owns. `Spent` exactly where the seat has used all adds
/// of its quota, and then nothing has changed. One step.
pub fn copy<P: Protocol>(
    domain: &Domain<P>,
    seat: &mut Seat<P>,
    handle: &Strong,
) -> Result<Strong, Spent>
    requires ready { IsReady domain.now seat.old }
    requires owned { Owns (known_plain domain.now seat.old) handle.now.slot }
    ensures spent { IsErr result ↔ IsSpent seat.old.view.core }
    ensures refused { OnErr result (seat.new ≡ seat.old) }
    ensures gains { IfOk result (λ more. Gains (known_plain domain.now seat.old)
        handle.now.slot more.slot (known_plain domain.now seat.new)) }
    ensures trail { Shows [] seat.old.view.core seat.new.view.core }
    ensures notes { seat.new.view.core.notes ≡ seat.old.view.core.notes }
    ensures ready { IsReady domain.now seat.new }
{
    copy_strong(domain, seat, handle)
}

/// One weak reference to the slot of a reference that the seat owns. `Spent` exactly where the seat has used all adds
/// of its quota, and then nothing has changed. One step.
pub fn weaken_lone<P: Protocol>(
    domain: &Domain<P>,
    seat: &mut Seat<P>,
    handle: &Strong,
) -> Result<Weak, Spent>
    requires ready { IsReady domain.now seat.old }
    requires owned { Owns (known_plain domain.now seat.old) handle.now.slot }
    ensures spent { IsErr result ↔ IsSpent seat.old.view.core }
    ensures refused { OnErr result (seat.new ≡ seat.old) }
    ensures gains { IfOk result (λ more. WeaklyGains (known_plain domain.now seat.old)
        handle.now.slot more.slot (known_plain domain.now seat.new)) }
    ensures trail { Shows [] seat.old.view.core seat.new.view.core }
    ensures notes { seat.new.view.core.notes ≡ seat.old.view.core.notes }
    ensures ready { IsReady domain.now seat.new }
{
    weaken(domain, seat, handle)
}

/// One weak reference more to the slot of one that the seat owns. `Spent` exactly where the seat has used all adds of
/// its quota, and then nothing has changed. One step.
pub fn copy_weakly<P: Protocol>(
    domain: &Domain<P>,
    seat: &mut Seat<P>,
    weak: &Weak,
) -> Result<Weak, Spent>
    requires ready { IsReady domain.now seat.old }
    requires owned { OwnsWeakly (known_plain domain.now seat.old) weak.now.slot }
    ensures spent { IsErr result ↔ IsSpent seat.old.view.core }
    ensures refused { OnErr result (seat.new ≡ seat.old) }
    ensures gains { IfOk result (λ more. WeaklyGains (known_plain domain.now seat.old)
        weak.now.slot more.slot (known_plain domain.now seat.new)) }
    ensures trail { Shows [] seat.old.view.core seat.new.view.core }
    ensures notes { seat.new.view.core.notes ≡ seat.old.view.core.notes }
    ensures ready { IsReady domain.now seat.new }
{
    copy_weak(domain, seat, weak)
}

/// An owned reference to the object of a weak one. `Ended` exactly where its zero mark stands; an add is used then
/// too. `Spent` exactly where the seat has used all adds of its quota, and then nothing has changed. One step.
pub fn upgrade_lone<K: PayloadKind>(
    domain: &Domain<NoLaw<K>>,
    seat: &mut Seat<NoLaw<K>>,
    weak: &Weak,
) -> Result<Strong, UpgradeError>
    requires ready { IsReady domain.now seat.old }
    requires owned { OwnsWeakly (known_plain domain.now seat.old) weak.now.slot }
    ensures spent { (result ≡ Err refused.Spent) ↔ IsSpent seat.old.view.core }
    ensures refused { result ≡ Err refused.Spent → seat.new ≡ seat.old }
    ensures up { IfOk result (λ more. Gains (known_plain domain.now seat.old)
        weak.now.slot more.slot (known_plain domain.now seat.new)) }
    ensures ended { result ≡ Err refused.Ended → Does (known_plain domain.now seat.old) 0
        (act.Add weak.now.slot) 1 (known_plain domain.now seat.new) }
    ensures shows_up { OnOk result
        (Shows (upgraded weak.now.slot) seat.old.view.core seat.new.view.core) }
    ensures shows_ended { result ≡ Err refused.Ended
        → Shows (found_ended weak.now.slot) seat.old.view.core seat.new.view.core }
    ensures notes { seat.new.view.core.notes ≡ seat.old.view.core.notes }
    ensures ready { IsReady domain.now seat.new }
{
    upgrade(domain, seat, weak, AnyStep)
}

/// One owned reference fewer, at once. Where it was the last one the object ends. At most three steps.
pub fn give<P: Protocol>(domain: &Domain<P>, seat: &mut Seat<P>, handle: Strong)
    requires ready { IsReady domain.now seat.old }
    requires owned { Owns (known_plain domain.now seat.old) handle.slot }
    ensures gives { ThenTidies (Does (known_plain domain.now seat.old) 0 (act.Drop handle.slot) 0)
        (known_plain domain.now seat.new) }
    ensures trail { Shows [] seat.old.view.core seat.new.view.core }
    ensures notes { seat.new.view.core.notes ≡ seat.old.view.core.notes }
    ensures ready { IsReady domain.now seat.new }
{
    drop_strong(domain, seat, handle);
}

/// One weak reference fewer, at once. Where it was the last one the slot is given again. At most two steps.
pub fn give_weak<P: Protocol>(domain: &Domain<P>, seat: &mut Seat<P>, weak: Weak)
    requires ready { IsReady domain.now seat.old }
    requires owned { OwnsWeakly (known_plain domain.now seat.old) weak.slot }
    ensures gives { ThenTidies
        (Does (known_plain domain.now seat.old) 0 (act.WeakDrop weak.slot) 0)
        (known_plain domain.now seat.new) }
    ensures trail { Shows [] seat.old.view.core seat.new.view.core }
    ensures notes { seat.new.view.core.notes ≡ seat.old.view.core.notes }
    ensures ready { IsReady domain.now seat.new }
{
    drop_weak(domain, seat, weak);
}
