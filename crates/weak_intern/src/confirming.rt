//! Whether a record whose head is that of a long text has the whole text.
ghost use Rattle.std.specs.Prelude.{true, ◌≡◌, ◌≢◌, ◌↔◌, ◌<◌};
ghost use Rattle.atomic_weak.specs.plain_state.Lists.{times};
ghost use Rattle.atomic_weak.specs.core_events.Steps.{HasRoom};
ghost use Rattle.atomic_weak.specs.core_events.Views.{without};
ghost use Rattle.atomic_weak.specs.control_word.Resting.{IsAtRest};
ghost use Rattle.atomic_weak.specs.domain_rule.Views.{object_in};
ghost use Rattle.record_making.specs.directory_law.Law.{IsBound};
ghost use Rattle.record_making.specs.directory_law.Lessons.{spent};
ghost use Rattle.record_making.specs.directory_law.Payloads.{Text};
ghost use Rattle.record_making.specs.directory_calls.Directories.{CanCount, area_of};
ghost use Rattle.record_making.specs.directory_calls.Learning.{LearnsIn};
ghost use Rattle.record_making.specs.directory_calls.Steps.{AtStep, Leaves, with_found};
ghost use Rattle.record_making.specs.Texts.{text_of};
ghost use Rattle.text_reading.specs.Reading.{HasBegun, HasRead, HasTwoFree};
ghost use Rattle.weak_intern.specs.declared.looking.Sight.TheVariants as sight;
ghost use Rattle.weak_intern.specs.Seeing.{HasSeenIn};
ghost use Rattle.weak_intern.specs.Sought.{HasPieces, IsSought};
ghost use Rattle.weak_intern.specs.Walking.{MeetsIn, met, taken};

use crate::looking::Sight;
use crate::sought::Sought;
use atomic_weak::{Domain, EventPlace, Seat, SlotId, Strong, drop_strong};
use record_making::{AnswerHead, DirectoryLaw, HasDirectory, InPart};
use text_reading::read_text;

/// What a seat meets in a record that it owns, of which it has begun to read the head, and which
/// begins as the text that is sought: the live record of that text, or a record of another one,
/// whose reference is given up. At most 700 steps.
pub(crate) fn confirm<S, P: HasDirectory<S>>(
    domain: &Domain<P>,
    seat: &mut Seat<P>,
    strong: Strong,
    sought: &Sought<'_>,
    intern: bool,
) -> Sight
    requires rest { IsAtRest domain.now seat.old }
    requires room { HasRoom seat.old.view.core }
    requires owned { 0 < times strong.slot seat.old.view.core.owned }
    requires begun { HasBegun P.seen strong.slot seat.old }
    requires head { (object_in seat.old.view strong.slot).payload ≡ sought.now.head }
    requires saw { HasSeenIn P.seen strong.slot seat.old }
    requires quota { CanCount intern (P.seen seat.old.view.client) }
    requires sought { IsSought sought.now.text.now sought.now.head sought.now.hash }
    requires free { HasTwoFree seat.old.view.core }
    requires pieces { HasPieces P.Kind.fits }
    ensures meets { MeetsIn P.seen domain.now (area_of (P.part domain.now.protocol)) strong.slot
        (text_of sought.now.text.now) result seat.old seat.new }
    ensures head { result ≢ sight.Null }
    ensures leaves { Leaves (with_found (met result)
        (without strong.slot seat.old.view.core.owned)) seat.old.view.core.weaks
        seat.old seat.new }
    ensures learns { LearnsIn P.seen P.with_seen (taken intern result)
        seat.old.view.client seat.new.view.client }
    ensures makes { seat.new.view.core.makes ≡ seat.old.view.core.makes }
    ensures adds { seat.new.view.core.adds ≡ seat.old.view.core.adds }
    ensures room { HasRoom seat.new.view.core }
    ensures rest { IsAtRest domain.now seat.new }
{
    if has_text::<S, P>(domain, seat, strong.slot(), sought) {
        answer::<S, P>(domain, seat, strong.slot(), intern);
        return Sight::Record(strong);
    }
    drop_strong(domain, seat, strong);
    Sight::Other
}

/// Whether the record has the text that is sought, which the seat has read whole then.
fn has_text<S, P: HasDirectory<S>>(
    domain: &Domain<P>,
    seat: &mut Seat<P>,
    slot: SlotId,
    sought: &Sought<'_>,
) -> bool
    requires rest { IsAtRest domain.now seat.old }
    requires room { HasRoom seat.old.view.core }
    requires owned { 0 < times slot seat.old.view.core.owned }
    requires begun { HasBegun P.seen slot seat.old }
    requires head { (object_in seat.old.view slot).payload ≡ sought.now.head }
    requires sought { IsSought sought.now.text.now sought.now.head sought.now.hash }
    requires free { HasTwoFree seat.old.view.core }
    requires pieces { HasPieces P.Kind.fits }
    ensures reads { (read : Text) × HasRead P.seen slot read seat.new
        × ((result ≡ true) ↔ (read ≡ text_of sought.now.text.now)) }
    ensures leaves { Leaves seat.old.view.core.owned seat.old.view.core.weaks seat.old seat.new }
    ensures learns { LearnsIn P.seen P.with_seen 0 seat.old.view.client seat.new.view.client }
    ensures makes { seat.new.view.core.makes ≡ seat.old.view.core.makes }
    ensures adds { seat.new.view.core.adds ≡ seat.old.view.core.adds }
    ensures room { HasRoom seat.new.view.core }
    ensures rest { IsAtRest domain.now seat.new }
{
    let mut bytes = [0u8; 4096];
    let size = read_text::<S, P>(domain, seat, slot, &mut bytes);
    &bytes[..size as usize] == sought.text
}

/// At this step the record in a slot that the seat owns, whose whole text it has read, is the live
/// record of that text. An intern of the seat is used if that is asked. One step.
fn answer<S, P: HasDirectory<S>>(domain: &Domain<P>, seat: &mut Seat<P>, slot: SlotId, intern: bool)
    requires rest { IsAtRest domain.now seat.old }
    requires room { HasRoom seat.old.view.core }
    requires owned { 0 < times slot seat.old.view.core.owned }
    requires saw { HasSeenIn P.seen slot seat.old }
    requires read { (text : Text) × HasRead P.seen slot text seat.old }
    requires quota { CanCount intern (P.seen seat.old.view.client) }
    ensures live { (text : Text) → HasRead P.seen slot text seat.old → AtStep domain.now
        (λ p. IsBound (area_of (P.part domain.now.protocol)) p text slot) seat.old seat.new }
    ensures leaves { Leaves seat.old.view.core.owned seat.old.view.core.weaks seat.old seat.new }
    ensures learns { LearnsIn P.seen P.with_seen (spent intern)
        seat.old.view.client seat.new.view.client }
    ensures makes { seat.new.view.core.makes ≡ seat.old.view.core.makes }
    ensures adds { seat.new.view.core.adds ≡ seat.old.view.core.adds }
    ensures room { HasRoom seat.new.view.core }
    ensures rest { IsAtRest domain.now seat.new }
{
    let deed = InPart::<DirectoryLaw, S, AnswerHead>::new(AnswerHead { intern });
    // A record's field 1 is read at a step that changes nothing, whatever it holds.
    domain.look(seat, EventPlace::Field(slot, 1), deed);
}
