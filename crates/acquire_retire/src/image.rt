//! The whole state of a domain, as words.
ghost use Rattle.std.specs.Prelude.{◌≡◌, ◌+◌, ◌<◌, ◌≤◌, [], false, IfOk, IsSome, OnOk};
ghost use Rattle.plain_state.specs.Limits.{words_of_payload};
ghost use Rattle.plain_state.specs.Images.{IsImage, image_at};
ghost use Rattle.plain_state.specs.State.{seat_at};
ghost use Rattle.core_promises.specs.core_events.Words.{each_from};
ghost use Rattle.core_promises.specs.core_events.Steps.{IsIdle};
ghost use Rattle.core_promises.specs.core_events.Words.{word_count};
ghost use Rattle.domain_rule.specs.Views.{IsAlone};
ghost use Rattle.acquire_retire.specs.Calls.{IsOf};
ghost use Rattle.core_promises.specs.Finds.{DeferredFit};
ghost use Rattle.acquire_retire.specs.Wholes.{IsSame, IsWholeImage, KnowsCore, known_core, known_state, known_word, strong_image};

use crate::domain::Domain;
use crate::seat::Seat;
use core_promises::{EventPlace, Kind, SlotId};
use domain_rule::{Protocol, SeatView};
use dying_slots::{OutOfMemory, place_index, slot_index};
use plain_state::{Heap, SlotImage, ZERO};
use std::alloc::Global;

/// A strong word without the numbers below its zero flag.
fn strong_image(word: u64) -> u64
    ensures { result ≡ strong_image word }
{
    if word < ZERO { word } else { ZERO }
}

impl<P: Protocol> Domain<P> {
    /// A seat that knows the whole core learns that this is so, by a load of the base word.
    pub(crate) fn learn(&self, seat: &mut atomic_table::Seat<(), SeatView<P::View>>)
        requires table { seat.old.table_id ≡ self.now.table }
        requires here { seat.old.me.0.gone ≡ false }
        requires knows { IsSome seat.old.me.0.whole }
        requires idle { IsIdle seat.old.me.0.core }
        ensures stays { IsSame seat.old seat.new }
        ensures knows { KnowsCore self.now P.Kind.fits seat.old }
    {
        let _base = self.read(seat, 0);
    }

    /// One word.
    pub(crate) fn known_word(
        &self,
        seat: &mut atomic_table::Seat<(), SeatView<P::View>>,
        word: usize,
    ) -> u64
        requires knows { KnowsCore self.now P.Kind.fits seat.old }
        requires word { word < word_count self.now.shape }
        ensures stays { IsSame seat.old seat.new }
        ensures word { result ≡ known_word seat.old word }
    {
        self.read(seat, word)
    }

    /// The words from a place on, in a list's own memory where that is enough.
    pub(crate) fn known_words(
        &self,
        seat: &mut atomic_table::Seat<(), SeatView<P::View>>,
        first: usize,
        count: u32,
        words: &mut Vec<u64>,
    ) -> Result<(), OutOfMemory>
        requires knows { KnowsCore self.now P.Kind.fits seat.old }
        requires words { first + count ≤ word_count self.now.shape }
        ensures stays { IsSame seat.old seat.new }
        ensures words { OnOk result (words.new.items
            ≡ each_from 0 count (λ i. known_word seat.old (first + i))) }
    {
        words.clear();
        words.reserve(count as usize)?;
        for i in 0..count {
            words.push_reserved(self.known_word(seat, first + i as usize));
        }
        Ok(())
    }

    /// The payload words of a slot.
    fn known_payload(
        &self,
        seat: &mut atomic_table::Seat<(), SeatView<P::View>>,
        first: usize,
    ) -> [u64; 16]
        requires knows { KnowsCore self.now P.Kind.fits seat.old }
        requires words { first + words_of_payload ≤ word_count self.now.shape }
        ensures stays { IsSame seat.old seat.new }
        ensures words { result ≡ each_from 0 16 (λ i. known_word seat.old (first + i)) }
    {
        let mut payload = [0; 16];
        for i in 0..16 {
            payload[i] = self.known_word(seat, first + i);
        }
        payload
    }

    /// The words of a slot.
    pub(crate) fn slot_image(
        &self,
        seat: &mut atomic_table::Seat<(), SeatView<P::View>>,
        slot: SlotId,
    ) -> SlotImage
        requires knows { KnowsCore self.now P.Kind.fits seat.old }
        requires slot { slot.0 < self.now.shape.slots }
        ensures stays { IsSame seat.old seat.new }
        ensures image { result ≡ image_at (known_state self.now seat.old) slot }
    {
        let at = slot_index(&self.shape, slot);
        SlotImage {
            strong: strong_image(self.known_word(seat, at)),
            weak: self.known_word(seat, at + 1),
            fields: [self.known_word(seat, at + 2), self.known_word(seat, at + 3)],
            weak_field: self.known_word(seat, at + 4),
            payload: self.known_payload(seat, at + 5),
        }
    }

    /// The words of each slot, in a list's own memory where that is enough.
    fn slot_images(
        &self,
        seat: &mut atomic_table::Seat<(), SeatView<P::View>>,
        images: &mut Vec<SlotImage>,
    ) -> Result<(), OutOfMemory>
        requires knows { KnowsCore self.now P.Kind.fits seat.old }
        ensures stays { IsSame seat.old seat.new }
        ensures images { OnOk result (images.new.items ≡ each_from 0 self.now.shape.slots
            (λ x. image_at (known_state self.now seat.old) (record { 0 = x }))) }
    {
        images.clear();
        images.reserve(self.shape.slots as usize)?;
        for slot in 0..self.shape.slots {
            images.push_reserved(self.slot_image(seat, SlotId(slot)));
        }
        Ok(())
    }

    /// All words, with the entries that the seat has deferred.
    fn heap_image(
        &self,
        seat: &mut atomic_table::Seat<(), SeatView<P::View>>,
        deferred: &[(Kind, SlotId)],
        heap: &mut Heap,
    ) -> Result<(), OutOfMemory>
        requires knows { KnowsCore self.now P.Kind.fits seat.old }
        requires deferred { deferred.now ≡ (seat_at (known_state self.now seat.old) 0).deferred }
        ensures stays { IsSame seat.old seat.new }
        ensures image { OnOk result (IsImage (known_state self.now seat.old) heap.new) }
    {
        let first = place_index(&self.shape, EventPlace::Cell(0));
        self.known_words(seat, first, self.shape.cells, &mut heap.cells)?;
        let first = place_index(&self.shape, EventPlace::WeakCell(0));
        self.known_words(seat, first, self.shape.weak_cells, &mut heap.weak_cells)?;
        self.slot_images(seat, &mut heap.slots)?;
        heap.deferred.clear();
        heap.deferred.extend_from_slice(deferred)?;
        Ok(())
    }

    /// The whole state as words, taken by a seat that is alone, in the middle of nothing, and owes nothing: the strong
    /// word of a slot is its count, or the zero flag alone where that stands. Snapshots are no obstacle. It loads each
    /// word of the cells and the slots once. What all seats have deferred then is bounded by the sizes of the domain.
    pub fn image(&self, alloc: Global, seat: &mut Seat<P>) -> Result<Heap, OutOfMemory>
        requires seat { IsOf self.now seat.old }
        requires alone { IsAlone seat.old.view }
        requires idle { IsIdle seat.old.view.core }
        requires owes_nothing { seat.old.view.core.owed ≡ [] }
        ensures stays { seat.new ≡ seat.old }
        ensures image { IfOk result (IsWholeImage P.Kind.fits seat.old.view) }
        ensures deferred { DeferredFit self.now.shape (known_core seat.old.view) }
    {
        let mut heap = empty_image(alloc);
        self.image_into(seat, &mut heap)?;
        Ok(heap)
    }

    /// The same in the memory of another image, of which nothing is left. It takes memory only for what that hasn't
    /// room for: none, where it is an image of the same domain, but for entries that the seat has deferred since. Where
    /// there is no memory, nothing is told of what is left there.
    pub fn image_into(&self, seat: &mut Seat<P>, heap: &mut Heap) -> Result<(), OutOfMemory>
        requires seat { IsOf self.now seat.old }
        requires alone { IsAlone seat.old.view }
        requires idle { IsIdle seat.old.view.core }
        requires owes_nothing { seat.old.view.core.owed ≡ [] }
        ensures stays { seat.new ≡ seat.old }
        ensures image { OnOk result (IsWholeImage P.Kind.fits seat.old.view heap.new) }
        ensures deferred { DeferredFit self.now.shape (known_core seat.old.view) }
    {
        self.learn(&mut seat.seat);
        self.heap_image(&mut seat.seat, seat.batch.retired(), heap)
    }
}

/// An image of nothing, which has no memory yet.
pub fn empty_image(alloc: Global) -> Heap
    ensures slots { result.slots.items ≡ [] }
    ensures cells { result.cells.items ≡ [] }
    ensures weak_cells { result.weak_cells.items ≡ [] }
    ensures deferred { result.deferred.items ≡ [] }
{
    Heap {
        slots: Vec::new(alloc),
        cells: Vec::new(alloc),
        weak_cells: Vec::new(alloc),
        deferred: Vec::new(alloc),
    }
}
