//! What the walk of a text meets in one cell.
ghost use Rattle.std.specs.Prelude.{ℕ, ◌≡◌, ◌≢◌, ◌+◌, ◌<◌, ◌≤◌, IfOk, IsErr, None, Ok, length};
ghost use Rattle.atomic_weak.specs.core_events.Steps.{HasRoom};
ghost use Rattle.atomic_weak.specs.control_word.Resting.{IsAtRest, IsSpent};
ghost use Rattle.atomic_weak.specs.domain_rule.Views.{object_in};
ghost use Rattle.record_making.specs.directory_calls.Directories.{CanCount, IsOver, area_of};
ghost use Rattle.record_making.specs.directory_calls.Learning.{LearnsIn};
ghost use Rattle.record_making.specs.Texts.{text_of};
ghost use Rattle.weak_intern.specs.Seeing.{HasSeenIn};
ghost use Rattle.weak_intern.specs.declared.looking.Sight.TheVariants as sight;
ghost use Rattle.weak_intern.specs.Sighting.{IsSighted, Sights, let_go_of, seat_without};
ghost use Rattle.text_reading.specs.Reading.{HasTwoFree};
ghost use Rattle.weak_intern.specs.Sought.{HasPieces, IsSought};
ghost use Rattle.record_making.specs.directory_calls.Steps.{Leaves, with_found};
ghost use Rattle.weak_intern.specs.Walking.{EndsBy, LooksBy, Meets, MeetsIn, RaisesBy, met_by, taken_by};

use crate::comparing::is_payload;
use crate::confirming::confirm;
use crate::raising::raise;
use crate::seeing::{Sighted, let_go, see};
use crate::sought::Sought;
use atomic_weak::{Domain, Seat, Spent, Strong, UpgradeError};
use record_making::{Directory, HasDirectory};
use std::sync::Wait;

/// What a walk meets in one cell.
#[derive(Debug, Drop)]
pub enum Sight {
    /// The cell was null.
    Null,
    /// A cell that the walk passes: it has another text, or a record that has ended.
    Other,
    /// The live record of the text.
    Record(Strong),
}

/// Looks at a cell for a text. Where it meets the live record, an intern of the seat is used if
/// that is asked. A head is compared under an announcement, and one add is made where its payload is
/// that of the text. At most four steps for each try to load, and 18 more, or some 720 where the
/// head is that of a long text.
pub(crate) fn look<R: Wait, S, P: HasDirectory<S>>(
    rt: &R,
    domain: &Domain<P>,
    seat: &mut Seat<P>,
    directory: &Directory,
    cell: u32,
    sought: &Sought<'_>,
    intern: bool,
) -> Result<Sight, Spent>
    requires rest { IsAtRest domain.now seat.old }
    requires room { HasRoom seat.old.view.core }
    requires over { IsOver domain.now (P.part domain.now.protocol) directory.now }
    requires inside { cell < directory.now.cells }
    requires quota { CanCount intern (P.seen seat.old.view.client) }
    requires sought { IsSought sought.now.text.now sought.now.head sought.now.hash }
    requires free { HasTwoFree seat.old.view.core }
    requires pieces { HasPieces P.Kind.fits }
    ensures meets { IfOk result (λ sight. Meets P.seen domain.now
        (area_of (P.part domain.now.protocol)) cell (text_of sought.now.text.now) sight
        seat.old seat.new) }
    ensures null { result ≡ Ok sight.Null → (j : ℕ)
        × Sights ((P.part domain.now.protocol).first + cell) j None
        seat.old.view.core seat.new.view.core }
    ensures spent { IsErr result → IsSpent seat.new.view.core }
    ensures looks { length sought.now.text.now ≤ 120
        → LooksBy ((P.part domain.now.protocol).first + cell) sought.now.head result
        seat.old.view.core seat.new.view.core }
    ensures leaves { Leaves (with_found (met_by result) seat.old.view.core.owned)
        seat.old.view.core.weaks seat.old seat.new }
    ensures learns { LearnsIn P.seen P.with_seen (taken_by intern result)
        seat.old.view.client seat.new.view.client }
    ensures makes { seat.new.view.core.makes ≡ seat.old.view.core.makes }
    ensures adds { seat.new.view.core.adds ≤ seat.old.view.core.adds + 1 }
    ensures room { HasRoom seat.new.view.core }
    ensures rest { IsAtRest domain.now seat.new }
{
    match see::<R, S, P>(rt, domain, seat, directory, cell) {
        Some(sighted) => meet::<S, P>(domain, seat, sighted, sought, intern),
        None => Ok(Sight::Null),
    }
}

/// What a seat meets in a head that it saw in a cell. The head is let go.
fn meet<S, P: HasDirectory<S>>(
    domain: &Domain<P>,
    seat: &mut Seat<P>,
    sighted: Sighted,
    sought: &Sought<'_>,
    intern: bool,
) -> Result<Sight, Spent>
    requires rest { IsAtRest domain.now seat.old }
    requires room { HasRoom seat.old.view.core }
    requires sighted { IsSighted sighted seat.old.view.core }
    requires saw { HasSeenIn P.seen sighted.slot seat.old }
    requires quota { CanCount intern (P.seen seat.old.view.client) }
    requires sought { IsSought sought.now.text.now sought.now.head sought.now.hash }
    requires free { HasTwoFree (let_go_of sighted seat.old.view.core) }
    requires pieces { HasPieces P.Kind.fits }
    ensures meets { IfOk result (λ sight. MeetsIn P.seen domain.now
        (area_of (P.part domain.now.protocol)) sighted.slot (text_of sought.now.text.now) sight
        seat.old seat.new) }
    ensures head { IfOk result (λ found. found ≢ sight.Null) }
    ensures spent { IsErr result → IsSpent seat.new.view.core }
    ensures ends { length sought.now.text.now ≤ 120
        → EndsBy sighted sought.now.head result seat.old.view.core seat.new.view.core }
    ensures leaves { Leaves (with_found (met_by result) seat.old.view.core.owned)
        seat.old.view.core.weaks (seat_without sighted seat.old) seat.new }
    ensures learns { LearnsIn P.seen P.with_seen (taken_by intern result)
        seat.old.view.client seat.new.view.client }
    ensures makes { seat.new.view.core.makes ≡ seat.old.view.core.makes }
    ensures adds { seat.new.view.core.adds ≤ seat.old.view.core.adds + 1 }
    ensures room { HasRoom seat.new.view.core }
    ensures rest { IsAtRest domain.now seat.new }
{
    if !is_payload(domain, seat, sighted.slot, &sought.head) {
        let_go(domain, seat, sighted);
        return Ok(Sight::Other);
    }
    if sought.text.len() <= 120 {
        return meet_short::<S, P>(domain, seat, sighted, sought, intern);
    }
    meet_long::<S, P>(domain, seat, sighted, sought, intern)
}

/// The same where the head has the payload that is sought, and this is the whole text.
fn meet_short<S, P: HasDirectory<S>>(
    domain: &Domain<P>,
    seat: &mut Seat<P>,
    sighted: Sighted,
    sought: &Sought<'_>,
    intern: bool,
) -> Result<Sight, Spent>
    requires rest { IsAtRest domain.now seat.old }
    requires room { HasRoom seat.old.view.core }
    requires sighted { IsSighted sighted seat.old.view.core }
    requires saw { HasSeenIn P.seen sighted.slot seat.old }
    requires quota { CanCount intern (P.seen seat.old.view.client) }
    requires sought { IsSought sought.now.text.now sought.now.head sought.now.hash }
    requires head { (object_in seat.old.view sighted.slot).payload ≡ sought.now.head }
    requires short { length sought.now.text.now ≤ 120 }
    ensures meets { IfOk result (λ sight. MeetsIn P.seen domain.now
        (area_of (P.part domain.now.protocol)) sighted.slot (text_of sought.now.text.now) sight
        seat.old seat.new) }
    ensures head { IfOk result (λ found. found ≢ sight.Null) }
    ensures spent { IsErr result → IsSpent seat.new.view.core }
    ensures raises { RaisesBy sighted result seat.old.view.core seat.new.view.core }
    ensures leaves { Leaves (with_found (met_by result) seat.old.view.core.owned)
        seat.old.view.core.weaks (seat_without sighted seat.old) seat.new }
    ensures learns { LearnsIn P.seen P.with_seen (taken_by intern result)
        seat.old.view.client seat.new.view.client }
    ensures makes { seat.new.view.core.makes ≡ seat.old.view.core.makes }
    ensures adds { seat.new.view.core.adds ≤ seat.old.view.core.adds + 1 }
    ensures room { HasRoom seat.new.view.core }
    ensures rest { IsAtRest domain.now seat.new }
{
    match raise::<S, P>(domain, seat, sighted, intern) {
        Ok(strong) => Ok(Sight::Record(strong)),
        Err(UpgradeError::Ended) => Ok(Sight::Other),
        Err(UpgradeError::Spent) => Err(Spent),
    }
}

/// The same where the head has the payload that is sought, and parts may follow it: the whole text
/// is read under a strong reference. At most 700 steps.
fn meet_long<S, P: HasDirectory<S>>(
    domain: &Domain<P>,
    seat: &mut Seat<P>,
    sighted: Sighted,
    sought: &Sought<'_>,
    intern: bool,
) -> Result<Sight, Spent>
    requires rest { IsAtRest domain.now seat.old }
    requires room { HasRoom seat.old.view.core }
    requires sighted { IsSighted sighted seat.old.view.core }
    requires saw { HasSeenIn P.seen sighted.slot seat.old }
    requires quota { CanCount intern (P.seen seat.old.view.client) }
    requires sought { IsSought sought.now.text.now sought.now.head sought.now.hash }
    requires head { (object_in seat.old.view sighted.slot).payload ≡ sought.now.head }
    requires free { HasTwoFree (let_go_of sighted seat.old.view.core) }
    requires pieces { HasPieces P.Kind.fits }
    ensures meets { IfOk result (λ sight. MeetsIn P.seen domain.now
        (area_of (P.part domain.now.protocol)) sighted.slot (text_of sought.now.text.now) sight
        seat.old seat.new) }
    ensures head { IfOk result (λ found. found ≢ sight.Null) }
    ensures spent { IsErr result → IsSpent seat.new.view.core }
    ensures leaves { Leaves (with_found (met_by result) seat.old.view.core.owned)
        seat.old.view.core.weaks (seat_without sighted seat.old) seat.new }
    ensures learns { LearnsIn P.seen P.with_seen (taken_by intern result)
        seat.old.view.client seat.new.view.client }
    ensures makes { seat.new.view.core.makes ≡ seat.old.view.core.makes }
    ensures adds { seat.new.view.core.adds ≤ seat.old.view.core.adds + 1 }
    ensures room { HasRoom seat.new.view.core }
    ensures rest { IsAtRest domain.now seat.new }
{
    match raise::<S, P>(domain, seat, sighted, false) {
        Ok(strong) => Ok(confirm::<S, P>(domain, seat, strong, sought, intern)),
        Err(UpgradeError::Ended) => Ok(Sight::Other),
        Err(UpgradeError::Spent) => Err(Spent),
    }
}
