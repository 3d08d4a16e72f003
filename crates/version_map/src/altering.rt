//! A version is changed, and the new one published.
ghost use Rattle.std.specs.Prelude.{◌≡◌, ◌≤◌, ◌<◌, ◌+◌, ◌*◌, IfErr, IfOk, false};
ghost use Rattle.version_making.specs.map_law.plain_state.Lists.{times};
ghost use Rattle.version_making.specs.map_law.plain_state.declared.slot.SlotId.{SlotId};
ghost use Rattle.version_making.specs.slot_store.core_events.Steps.{IsContent};
ghost use Rattle.version_making.specs.atomic_shared.Places.{named};
ghost use Rattle.version_making.specs.Building.{height_by};
ghost use Rattle.version_making.specs.Keeping.{IsReadyFor, Keeps, OwnsBoth, none, of_both, of_handle};
ghost use Rattle.version_making.specs.Standing.{IsTree};
ghost use Rattle.version_changes.specs.Changing.{IsChanged, IsRefusal};
ghost use Rattle.version_changes.specs.Keeping.{of_changed};
ghost use Rattle.version_updates.specs.Looking.{IsMoved, IsStill};
ghost use Rattle.version_updates.specs.Publishing.{but_for};
ghost use Rattle.version_updates.specs.Roots.{IsLowRoot};
ghost use Rattle.version_map.specs.declared.outcome.UpdateError.TheVariants as error;
ghost use Rattle.version_map.specs.Updating.{HasAltered, IsDone, IsStopped, SeesAnother, takes_nothing};

use crate::handles::copy_root;
use crate::outcome::UpdateError;
use version_changes::{Change, ChangeError, Changed, change_below};
use version_making::{Domain, MakeError, MapLaw, Seat, Strong, give_up, height_at};
use version_updates::{Lost, Update, publish, still_root};

/// Changes one key of the version of a root, which it takes over, and publishes the new version. Nothing is published
/// where a key is to be taken that isn't there. `Again` where the root cell shows another root than this one.
pub(crate) fn change_version(
    domain: &Domain<MapLaw>,
    seat: &mut Seat<MapLaw>,
    cell: u32,
    root: Option<Strong>,
    key: u64,
    change: Change,
) -> Result<Option<u64>, UpdateError>
    requires ready { IsReadyFor domain.now seat.old × (seat.old.view.client.cleared ≡ false) }
    requires cell { (cell ≡ domain.now.protocol.cell) × (cell < domain.now.shape.cells) }
    requires owned { (x : SlotId) → of_handle root x ≤ times x seat.old.view.core.owned }
    requires low { IsLowRoot domain.now.shape root seat.old }
    ensures done { IfOk result (λ answer. IsDone domain.now cell key change answer
        seat.old seat.new) }
    ensures stopped { IfErr result (λ error. IsStopped domain.now cell (named root) error
        seat.old seat.new) }
    ensures keeps { Keeps (height_by root seat.old * 3 + 1) (height_by root seat.old * 15 + 2)
        (of_handle root) none seat.old (but_for seat.old.view.client seat.new) }
    ensures open { seat.new.view.client.cleared ≡ false }
    ensures ready { IsReadyFor domain.now seat.new }
{
    match change_copy(domain, seat, &root, key, change) {
        Ok(Changed { tree, answer }) => {
            let update = Update {
                key,
                change,
                answer,
            };
            match publish_change(domain, seat, cell, root, tree, update) {
                Ok(answer) => Ok(answer),
                Err(lost) => Err(again(lost)),
            }
        }
        Err(ChangeError::TooLong) => match leave_version(domain, seat, cell, root, None) {
            Ok(()) => unreachable!(),
            Err(lost) => Err(again(lost)),
        },
        Err(ChangeError::Refused(why)) => {
            give_up(domain, seat, root);
            Err(UpdateError::Refused(why))
        }
    }
}

/// The words of both roots.
fn again(lost: Lost) -> UpdateError
    ensures { result ≡ error.Again lost.seen lost.now }
{
    UpdateError::Again {
        seen: lost.seen,
        now: lost.now,
    }
}

/// Changes one key of a copy of a version, as `change_below` does, and keeps the version. One more add than that.
fn change_copy(
    domain: &Domain<MapLaw>,
    seat: &mut Seat<MapLaw>,
    root: &Option<Strong>,
    key: u64,
    change: Change,
) -> Result<Changed, ChangeError>
    requires ready { IsReadyFor domain.now seat.old }
    requires owned { (x : SlotId) → of_handle root.now x ≤ times x seat.old.view.core.owned }
    requires tree { IsTree root.now seat.old }
    ensures changed { IfOk result (λ changed. IsChanged root.now changed.tree key change
        changed.answer seat.old seat.new) }
    ensures keeps { Keeps (height_by root.now seat.old * 3 + 1)
        (height_by root.now seat.old * 15 + 2) none (of_changed result) seat.old seat.new }
    ensures why { IfErr result (λ why. IsRefusal domain.now why root.now
        (height_by root.now seat.old) seat.old seat.new) }
    ensures ready { IsReadyFor domain.now seat.new }
{
    let levels = height_at(domain, seat, root);
    match copy_root(domain, seat, root) {
        Ok(copy) => change_below(domain, seat, copy, key, change, levels),
        Err(_spent) => Err(ChangeError::Refused(MakeError::AddsSpent)),
    }
}

/// Publishes a new version in the place of the one of a root, or leaves both where the update changes nothing. Takes
/// both roots over.
fn publish_change(
    domain: &Domain<MapLaw>,
    seat: &mut Seat<MapLaw>,
    cell: u32,
    root: Option<Strong>,
    tree: Option<Strong>,
    update: Update,
) -> Result<Option<u64>, Lost>
    requires ready { IsReadyFor domain.now seat.old × (seat.old.view.client.cleared ≡ false) }
    requires cell { (cell ≡ domain.now.protocol.cell) × (cell < domain.now.shape.cells) }
    requires owned { OwnsBoth root tree seat.old × IsContent domain.now.shape (named root) }
    requires altered { HasAltered root tree update seat.old }
    ensures done { IfOk result (λ answer. IsDone domain.now cell update.key update.change answer
        seat.old seat.new) }
    ensures another { IfErr result (λ lost. SeesAnother cell (named root) lost
        seat.old seat.new) }
    ensures keeps { Keeps 0 0 (of_both root tree) none seat.old
        (but_for seat.old.view.client seat.new) }
    ensures open { seat.new.view.client.cleared ≡ false }
    ensures ready { IsReadyFor domain.now seat.new }
{
    if changes_nothing(&update) {
        leave_version(domain, seat, cell, root, tree)?;
        return Ok(None);
    }
    publish(domain, seat, cell, root, tree, update)?;
    Ok(update.answer)
}

/// Whether a key is to be taken that isn't there.
fn changes_nothing(update: &Update) -> bool
    ensures { result ≡ takes_nothing update.now.change update.now.answer }
{
    match (update.change, update.answer) {
        (Change::Take, None) => true,
        _ => false,
    }
}

/// Gives up a version and one that was made of it, and tells whether the map was the first one still, at a look.
fn leave_version(
    domain: &Domain<MapLaw>,
    seat: &mut Seat<MapLaw>,
    cell: u32,
    root: Option<Strong>,
    tree: Option<Strong>,
) -> Result<(), Lost>
    requires ready { IsReadyFor domain.now seat.old }
    requires cell { (cell ≡ domain.now.protocol.cell) × (cell < domain.now.shape.cells) }
    requires owned { OwnsBoth root tree seat.old }
    ensures still { IfOk result (λ done. IsStill domain.now cell root seat.old seat.new) }
    ensures moved { IfErr result (λ lost. IsMoved domain.now cell root lost seat.old seat.new) }
    ensures keeps { Keeps 0 0 (of_both root tree) none seat.old seat.new }
    ensures ready { IsReadyFor domain.now seat.new }
{
    give_up(domain, seat, tree);
    let looked = still_root(domain, seat, cell, &root);
    give_up(domain, seat, root);
    looked
}
