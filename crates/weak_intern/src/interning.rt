//! The record of a text, which is made where the text has none.
ghost use Rattle.std.specs.Prelude.{true, ◌≡◌, ◌≢◌, ◌+◌, ◌*◌, ◌<◌, ◌≤◌, Err, IfOk, IsErr, length};
ghost use Rattle.std.specs.Int.{div_ceil};
ghost use Rattle.atomic_weak.specs.plain_state.Lists.{times};
ghost use Rattle.atomic_weak.specs.core_events.Steps.{HasRoom};
ghost use Rattle.atomic_weak.specs.control_word.Resting.{IsAtRest, IsSpent};
ghost use Rattle.record_making.specs.slot_store.declared.making.MakeError.TheVariants as refused;
ghost use Rattle.record_making.specs.directory_calls.Directories.{CanCount, HasNoRecord, IsOver, area_of};
ghost use Rattle.weak_intern.specs.Interning.{GrowsIn, HasPassed, Interns, Places, interned_by, named_or, placed_by};
ghost use Rattle.weak_intern.specs.Races.{IsWhyShort};
ghost use Rattle.record_making.specs.Making.{HasNotedLast, MissesWithin, candidate_in};
ghost use Rattle.record_making.specs.Texts.{text_of};
ghost use Rattle.record_making.specs.slot_store.Calls.{HasNoMake};
ghost use Rattle.weak_intern.specs.Knowing.{Knows, KnowsRecord};
ghost use Rattle.text_reading.specs.Reading.{HasTwoFree};
ghost use Rattle.weak_intern.specs.Sought.{HasPieces, IsSought};
ghost use Rattle.record_making.specs.directory_calls.Steps.{AtStep, Leaves, handle_by, with_found};
ghost use Rattle.weak_intern.specs.Walking.{found_by};

use crate::binding::bind;
use crate::looking::{Sight, look};
use crate::sought::Sought;
use crate::walking::{Walk, come_around, seek};
use atomic_weak::{Domain, Seat, Spent, Strong, drop_strong};
use record_making::{Directory, HasDirectory, MakeError, cell_on, hash_of, head_of, make_record};
use std::sync::Wait;

/// A strong reference to the live record of a text of 1 to 4,096 bytes, which it makes where the
/// text has none. It uses one intern of the seat, and none where it is refused. `MakesSpent` and
/// `Full` come only where the text had no live record at a step of the call; `AddsSpent` where the
/// seat has no add left: then at its entry it had at most two for each cell and one for each 120
/// bytes, or it lost a race for a cell. It makes a record at most once: one make for each 120 bytes.
pub fn intern<R: Wait, S, P: HasDirectory<S>>(
    rt: &R,
    domain: &Domain<P>,
    seat: &mut Seat<P>,
    directory: &Directory,
    text: &[u8],
) -> Result<Strong, MakeError>
    requires rest { IsAtRest domain.now seat.old }
    requires room { HasRoom seat.old.view.core }
    requires over { IsOver domain.now (P.part domain.now.protocol) directory.now }
    requires quota { CanCount true (P.seen seat.old.view.client) }
    requires text { (1 ≤ length text.now) × (length text.now ≤ 4096) }
    requires free { HasTwoFree seat.old.view.core }
    requires pieces { HasPieces P.Kind.fits }
    ensures interns { IfOk result (λ strong. Interns domain.now
        (area_of (P.part domain.now.protocol)) text.now strong.slot seat.old seat.new) }
    ensures knows { IfOk result (λ strong. KnowsRecord P.seen text.now strong.slot seat.new) }
    ensures owned { IfOk result (λ strong. 0 < times strong.slot seat.new.view.core.owned) }
    ensures none { IsErr result → result ≢ Err refused.AddsSpent → AtStep domain.now
        (λ p. HasNoRecord (area_of (P.part domain.now.protocol)) p text.now) seat.old seat.new }
    ensures adds { result ≡ Err refused.AddsSpent → IsSpent seat.new.view.core }
    ensures short { result ≡ Err refused.AddsSpent
        → IsWhyShort (2 * directory.now.cells + div_ceil (length text.now) 120)
        seat.old.view.core seat.new.view.core }
    ensures no_make { result ≡ Err refused.MakesSpent → HasNoMake seat.new.view.core }
    ensures full { result ≡ Err refused.Full
        → MissesWithin P.Kind.fits domain.now seat.old seat.new }
    ensures leaves { Leaves (with_found (handle_by result) seat.old.view.core.owned)
        seat.old.view.core.weaks seat.old seat.new }
    ensures grows { GrowsIn P.seen P.with_seen (interned_by result)
        seat.old.view.client seat.new.view.client }
    ensures makes { seat.new.view.core.makes
        ≤ seat.old.view.core.makes + div_ceil (length text.now) 120 }
    ensures room { HasRoom seat.new.view.core }
    ensures rest { IsAtRest domain.now seat.new }
{
    let sought = Sought {
        text,
        head: head_of(text),
        hash: hash_of(text),
    };
    match seek::<R, S, P>(rt, domain, seat, directory, &sought, true) {
        Err(Spent) => Err(MakeError::AddsSpent),
        Ok(Walk::Record(strong)) => Ok(strong),
        Ok(Walk::Absent(passed)) => add::<R, S, P>(rt, domain, seat, directory, &sought, passed),
    }
}

/// Makes a record of a text that had none, and puts it into a cell where the text has none still.
fn add<R: Wait, S, P: HasDirectory<S>>(
    rt: &R,
    domain: &Domain<P>,
    seat: &mut Seat<P>,
    directory: &Directory,
    sought: &Sought<'_>,
    passed: u32,
) -> Result<Strong, MakeError>
    requires rest { IsAtRest domain.now seat.old }
    requires room { HasRoom seat.old.view.core }
    requires over { IsOver domain.now (P.part domain.now.protocol) directory.now }
    requires quota { CanCount true (P.seen seat.old.view.client) }
    requires sought { IsSought sought.now.text.now sought.now.head sought.now.hash }
    requires free { HasTwoFree seat.old.view.core }
    requires pieces { HasPieces P.Kind.fits }
    requires passed { HasPassed (area_of (P.part domain.now.protocol))
        (P.seen seat.old.view.client) (text_of sought.now.text.now) passed }
    ensures places { IfOk result (λ strong. Places domain.now
        (area_of (P.part domain.now.protocol)) (text_of sought.now.text.now) strong.slot
        seat.old seat.new) }
    ensures knows { IfOk result (λ strong. Knows P.seen strong.slot
        (text_of sought.now.text.now) seat.new) }
    ensures adds { result ≡ Err refused.AddsSpent → IsSpent seat.new.view.core }
    ensures short { result ≡ Err refused.AddsSpent
        → IsWhyShort (directory.now.cells + div_ceil (length sought.now.text.now) 120)
        seat.old.view.core seat.new.view.core }
    ensures no_make { result ≡ Err refused.MakesSpent → HasNoMake seat.new.view.core }
    ensures full { result ≡ Err refused.Full
        → MissesWithin P.Kind.fits domain.now seat.old seat.new }
    ensures leaves { Leaves (with_found (handle_by result) seat.old.view.core.owned)
        seat.old.view.core.weaks seat.old seat.new }
    ensures grows { GrowsIn P.seen P.with_seen (interned_by result)
        seat.old.view.client seat.new.view.client }
    ensures makes { seat.new.view.core.makes
        ≤ seat.old.view.core.makes + div_ceil (length sought.now.text.now) 120 }
    ensures room { HasRoom seat.new.view.core }
    ensures rest { IsAtRest domain.now seat.new }
{
    let candidate = make_record::<S, P>(domain, seat, sought.text)?;
    match place::<R, S, P>(rt, domain, seat, directory, sought, passed, &candidate) {
        Ok(None) => Ok(candidate),
        Ok(Some(strong)) => {
            drop_strong(domain, seat, candidate);
            Ok(strong)
        }
        Err(Spent) => {
            drop_strong(domain, seat, candidate);
            Err(MakeError::AddsSpent)
        }
    }
}

/// Puts a record into the first cell of its walk that it finds null, from the one on that comes
/// after so many others; or finds another live record of its text before that. A cell that was null
/// and isn't at the bind was another seat's, and is looked at again.
fn place<R: Wait, S, P: HasDirectory<S>>(
    rt: &R,
    domain: &Domain<P>,
    seat: &mut Seat<P>,
    directory: &Directory,
    sought: &Sought<'_>,
    from: u32,
    candidate: &Strong,
) -> Result<Option<Strong>, Spent>
    requires rest { IsAtRest domain.now seat.old }
    requires room { HasRoom seat.old.view.core }
    requires over { IsOver domain.now (P.part domain.now.protocol) directory.now }
    requires quota { CanCount true (P.seen seat.old.view.client) }
    requires sought { IsSought sought.now.text.now sought.now.head sought.now.hash }
    requires free { HasTwoFree seat.old.view.core }
    requires pieces { HasPieces P.Kind.fits }
    requires passed { HasPassed (area_of (P.part domain.now.protocol))
        (P.seen seat.old.view.client) (text_of sought.now.text.now) from }
    requires owned { 0 < times candidate.now.slot seat.old.view.core.owned }
    requires noted { HasNotedLast (candidate_in candidate.now.slot
        (text_of sought.now.text.now) seat.old)
        (P.seen seat.old.view.client) }
    ensures places { IfOk result (λ found. Places domain.now
        (area_of (P.part domain.now.protocol)) (text_of sought.now.text.now)
        (named_or candidate.now.slot found) seat.old seat.new) }
    ensures knows { IfOk result (λ found. Knows P.seen (named_or candidate.now.slot found)
        (text_of sought.now.text.now) seat.new) }
    ensures spent { IsErr result → IsSpent seat.new.view.core }
    ensures short { IsErr result
        → IsWhyShort directory.now.cells seat.old.view.core seat.new.view.core }
    ensures leaves { Leaves (with_found (found_by result) seat.old.view.core.owned)
        seat.old.view.core.weaks seat.old seat.new }
    ensures grows { GrowsIn P.seen P.with_seen (placed_by result)
        seat.old.view.client seat.new.view.client }
    ensures makes { seat.new.view.core.makes ≡ seat.old.view.core.makes }
    ensures room { HasRoom seat.new.view.core }
    ensures rest { IsAtRest domain.now seat.new }
{
    let mut passed = from;
    for _ in rt.forever() {
        if passed == directory.cells {
            come_around::<S, P>(domain, seat, directory);
            unreachable!()
        }
        let cell = cell_on(sought.hash, passed, directory.cells);
        match look::<R, S, P>(rt, domain, seat, directory, cell, sought, true)? {
            Sight::Null => {
                if bind::<S, P>(domain, seat, directory, cell, sought, candidate)? {
                    return Ok(None);
                }
            }
            Sight::Record(strong) => return Ok(Some(strong)),
            Sight::Other => passed += 1,
        }
    }
    unreachable!()
}
