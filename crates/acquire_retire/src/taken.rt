//! What of a domain's state isn't free, as words.
ghost use Rattle.std.specs.Prelude.{◌≡◌, ◌<◌, [], All, OnOk, length, map};
ghost use Rattle.plain_state.specs.Images.{image_at};
ghost use Rattle.plain_state.specs.State.{seat_at, stage_at};
ghost use Rattle.core_promises.specs.core_events.Steps.{IsIdle};
ghost use Rattle.domain_rule.specs.Views.{IsAlone};
ghost use Rattle.acquire_retire.specs.Calls.{IsOf};
ghost use Rattle.acquire_retire.specs.Taken.{HasWords, IsTakenImage, is_taken, taken_below, taken_slots};
ghost use Rattle.acquire_retire.specs.Wholes.{IsSame, KnowsCore, known_state};

use crate::domain::Domain;
use crate::seat::Seat;
use core_promises::{EventPlace, Kind, SlotId};
use domain_rule::{Protocol, SeatView};
use dying_slots::{OutOfMemory, has_bit, place_index};
use plain_state::{Heap, SlotImage};

impl<P: Protocol> Domain<P> {
    /// Whether a slot isn't free: its bit is clear.
    fn is_taken(&self, seat: &mut atomic_table::Seat<(), SeatView<P::View>>, slot: SlotId) -> bool
        requires knows { KnowsCore self.now P.Kind.fits seat.old }
        requires slot { slot.0 < self.now.shape.slots }
        ensures stays { IsSame seat.old seat.new }
        ensures taken { result ≡ is_taken (stage_at (known_state self.now seat.old) slot) }
    {
        let bits = self.known_word(seat, self.bits_word(slot));
        !has_bit(bits, slot)
    }

    /// The slots that aren't free, in a list's own memory where that is enough.
    fn taken_slots(
        &self,
        seat: &mut atomic_table::Seat<(), SeatView<P::View>>,
        taken: &mut Vec<SlotId>,
    ) -> Result<(), OutOfMemory>
        requires knows { KnowsCore self.now P.Kind.fits seat.old }
        ensures stays { IsSame seat.old seat.new }
        ensures taken { OnOk result (taken.new.items
            ≡ taken_below (known_state self.now seat.old) self.now.shape.slots) }
    {
        taken.clear();
        for slot in 0..self.shape.slots {
            if self.is_taken(seat, SlotId(slot)) {
                taken.push(SlotId(slot))?;
            }
        }
        Ok(())
    }

    /// The words of these slots, in a list's own memory where that is enough.
    fn images_of(
        &self,
        seat: &mut atomic_table::Seat<(), SeatView<P::View>>,
        slots: &[SlotId],
        images: &mut Vec<SlotImage>,
    ) -> Result<(), OutOfMemory>
        requires knows { KnowsCore self.now P.Kind.fits seat.old }
        requires slots { All (λ s. s.0 < self.now.shape.slots) slots.now }
        ensures stays { IsSame seat.old seat.new }
        ensures images { OnOk result
            (images.new.items ≡ map (image_at (known_state self.now seat.old)) slots.now) }
    {
        images.clear();
        for slot in slots {
            images.push(self.slot_image(seat, *slot))?;
        }
        Ok(())
    }

    /// The words of what isn't free, with the entries that the seat has deferred.
    fn taken_words(
        &self,
        seat: &mut atomic_table::Seat<(), SeatView<P::View>>,
        deferred: &[(Kind, SlotId)],
        taken: &mut Vec<SlotId>,
        heap: &mut Heap,
    ) -> Result<(), OutOfMemory>
        requires knows { KnowsCore self.now P.Kind.fits seat.old }
        requires deferred { deferred.now ≡ (seat_at (known_state self.now seat.old) 0).deferred }
        ensures stays { IsSame seat.old seat.new }
        ensures taken { OnOk result (taken.new.items ≡ taken_slots (known_state self.now seat.old)) }
        ensures words { OnOk result
            (HasWords (known_state self.now seat.old) taken.new.items heap.new) }
    {
        let first = place_index(&self.shape, EventPlace::Cell(0));
        self.known_words(seat, first, self.shape.cells, &mut heap.cells)?;
        let first = place_index(&self.shape, EventPlace::WeakCell(0));
        self.known_words(seat, first, self.shape.weak_cells, &mut heap.weak_cells)?;
        self.taken_slots(seat, taken)?;
        self.images_of(seat, taken, &mut heap.slots)?;
        heap.deferred.clear();
        heap.deferred.extend_from_slice(deferred)?;
        Ok(())
    }

    /// As `image_into`, but for the slots that are free: the words of those that aren't, in ascending order, each with
    /// its number in `taken`. Words name slots by these numbers, as the domain has them. It loads a word of bits for
    /// each slot, and each word of the cells and of these slots once, and takes memory for what isn't free alone.
    pub fn taken_image_into(
        &self,
        seat: &mut Seat<P>,
        taken: &mut Vec<SlotId>,
        heap: &mut Heap,
    ) -> Result<(), OutOfMemory>
        requires seat { IsOf self.now seat.old }
        requires alone { IsAlone seat.old.view }
        requires idle { IsIdle seat.old.view.core }
        requires owes_nothing { seat.old.view.core.owed ≡ [] }
        ensures stays { seat.new ≡ seat.old }
        ensures image { OnOk result
            (IsTakenImage P.Kind.fits seat.old.view taken.new.items heap.new) }
    {
        self.learn(&mut seat.seat);
        self.taken_words(&mut seat.seat, seat.batch.retired(), taken, heap)
    }
}
