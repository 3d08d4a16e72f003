//! From one slot of a text to the next, hand over hand.
ghost use Rattle.std.specs.Prelude.{ℕ, ◌≡◌, ◌≢◌, ◌+◌, ◌<◌, length, None, Some};
ghost use Rattle.snapshot_ptr.specs.plain_state.Limits.{words_of_seat};
ghost use Rattle.snapshot_ptr.specs.plain_state.declared.slot.Kind.TheVariants.{Strong};
ghost use Rattle.slot_store.specs.core_events.declared.view.Note.TheVariants as stands;
ghost use Rattle.slot_store.specs.core_events.Steps.{with_note};
ghost use Rattle.slot_store.specs.core_events.Views.{HoldsStrongly, note_of};
ghost use Rattle.slot_store.specs.acquire_retire.Notes.{least_free};
ghost use Rattle.slot_store.specs.control_word.Moves.{KnowsStill};
ghost use Rattle.slot_store.specs.control_word.Resting.{IsAtRest};
ghost use Rattle.directory_calls.specs.directory_law.Payloads.{IsText};
ghost use Rattle.directory_calls.specs.Learning.{LearnsIn};
ghost use Rattle.snapshot_ptr.specs.Handles.{IsHeldBy};
ghost use Rattle.text_reading.specs.Going.{ComesTo, IsReading, ReadsOn, freed, last_run, one_if};

use crate::deeds::ReadPart;
use directory_calls::{DirectoryLaw, HasDirectory, LeadOn};
use slot_store::{Domain, EventPlace, InPart, Outcome, Seat};
use snapshot_ptr::{Kind, Protocol, SlotId};

/// A slot that the seat holds strongly, and the announcement word by which it does so; none where
/// it owns a reference.
#[derive(Clone, Copy, Drop)]
pub struct Hold {
    pub slot: SlotId,
    pub word: Option<u32>,
}

/// The part that follows in the text that the seat reads last, under a snapshot in place of that of
/// the slot before. Four steps, or three where that had none.
pub(crate) fn go_on<S, P: HasDirectory<S>>(
    domain: &Domain<P>,
    seat: &mut Seat<P>,
    last: Hold,
) -> Hold
    requires rest { IsAtRest domain.now seat.old }
    requires free { least_free seat.old.view.core ≢ None }
    requires held { IsHeldBy last.word last.slot seat.old.view.core.owned
        seat.old.view.core.notes }
    requires reading { IsReading P.seen last.slot seat.old }
    requires more { ¬ (IsText (last_run P.seen seat.old).before) }
    ensures reads { ReadsOn P.seen result.slot seat.old seat.new }
    ensures word { (j : ℕ) × (result.word ≡ Some j) × (least_free seat.old.view.core ≡ Some j)
        × ComesTo (3 + one_if last.word)
        (freed last.word (with_note j (stands.Valid Strong result.slot) seat.old.view.core))
        seat.old.view.core seat.new.view.core }
    ensures learns { LearnsIn P.seen P.with_seen 0 seat.old.view.client seat.new.view.client }
    ensures objects { KnowsStill (freed last.word seat.old.view.core) seat.old seat.new }
    ensures rest { IsAtRest domain.now seat.new }
{
    let Some(word) = domain.free_note(seat) else {
        unreachable!()
    };
    let part = protect_part(domain, seat, last.slot, word);
    let_go(domain, seat, last);
    Hold {
        slot: part,
        word: Some(word),
    }
}

/// The part that field 1 of the slot holds which the seat read last, under a snapshot by this word.
/// What the look finds stays as long as that slot lives, so the check finds it too. Three steps.
fn protect_part<S, P: HasDirectory<S>>(
    domain: &Domain<P>,
    seat: &mut Seat<P>,
    slot: SlotId,
    word: u32,
) -> SlotId
    requires rest { IsAtRest domain.now seat.old }
    requires word { (0 < word) × (word < words_of_seat) }
    requires free { note_of seat.old.view.core word ≡ stands.Idle }
    requires held { HoldsStrongly seat.old.view.core slot }
    requires reading { IsReading P.seen slot seat.old }
    requires more { ¬ (IsText (last_run P.seen seat.old).before) }
    ensures reads { ReadsOn P.seen result seat.old seat.new }
    ensures four { length seat.old.view.core.notes ≡ 4 }
    ensures core { ComesTo 3 (with_note word (stands.Valid Strong result) seat.old.view.core)
        seat.old.view.core seat.new.view.core }
    ensures learns { LearnsIn P.seen P.with_seen 0 seat.old.view.client seat.new.view.client }
    ensures objects { KnowsStill seat.old.view.core seat.old seat.new }
    ensures rest { IsAtRest domain.now seat.new }
{
    let place = EventPlace::Field(slot, 1);
    let look = InPart::<DirectoryLaw, S, LeadOn>::new(LeadOn);
    let Outcome::Found(found) = domain.look(seat, place, look) else {
        unreachable!()
    };
    let Some(part) = found else { unreachable!() };
    domain.announce(seat, word, Kind::Strong, part);
    let check = InPart::<DirectoryLaw, S, ReadPart>::new(ReadPart);
    domain.check(seat, word, place, check);
    part
}

/// The announcement word by which the seat holds the slot stands for nothing again, in one step, if
/// there is one.
pub(crate) fn let_go<P: Protocol>(domain: &Domain<P>, seat: &mut Seat<P>, last: Hold)
    requires rest { IsAtRest domain.now seat.old }
    requires held { IsHeldBy last.word last.slot seat.old.view.core.owned
        seat.old.view.core.notes }
    ensures core { ComesTo (one_if last.word) (freed last.word seat.old.view.core)
        seat.old.view.core seat.new.view.core }
    ensures client { seat.new.view.client ≡ seat.old.view.client }
    ensures objects { KnowsStill (freed last.word seat.old.view.core) seat.old seat.new }
    ensures rest { IsAtRest domain.now seat.new }
{
    if let Some(word) = last.word {
        domain.release(seat, word);
    }
}
