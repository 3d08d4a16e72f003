//! The whole state of a domain, as words.
ghost use Rattle.std.specs.Prelude.{◌≡◌, ◌+◌, ◌<◌, ◌≤◌, [], false, IfOk, IsSome, OnOk};
ghost use Rattle.epoch_parts.specs.Pending.{entries};
ghost use Rattle.epoch_parts.specs.plain_state.Limits.{words_of_payload};
ghost use Rattle.epoch_parts.specs.plain_state.Images.{IsImage, image_at};
ghost use Rattle.epoch_rule.specs.epoch_core.core_events.Words.{each_from};
ghost use Rattle.epoch_rule.specs.epoch_core.Views.{IsIdle};
ghost use Rattle.epoch_rule.specs.epoch_core.Words.{word_count};
ghost use Rattle.epoch_rule.specs.Views.{IsAlone};
ghost use Rattle.epoch_domain.specs.Calls.{IsOf};
ghost use Rattle.epoch_domain.specs.Wholes.{IsSame, IsWholeImage, KnowsCore, known_state, known_word, strong_image, weak_image};

use crate::domain::EpochDomain;
use crate::seat::EpochSeat;
use epoch_parts::{EventPlace, Heap, OutOfMemory, Pending, SlotId, SlotImage};
use epoch_rule::{EpochSeatView, Protocol};
use std::alloc::Global;

/// The count word of a free slot, and the zero flag of an image.
const FREE: u64 = 1 << 63;

/// The strong word of a slot in an image, by its count word.
fn strong_image(word: u64) -> u64
    ensures { result ≡ strong_image word }
{
    if word == 0 { FREE } else { word }
}

/// Its weak word.
fn weak_image(word: u64) -> u64
    ensures { result ≡ weak_image word }
{
    if word == FREE { 0 } else { 1 }
}

impl<P: Protocol> EpochDomain<P> {
    /// A seat that knows the whole core learns that this is so, by a load of the base word.
    fn learn(&self, seat: &mut atomic_table::Seat<(), EpochSeatView<P::View>>)
        requires table { seat.old.table_id ≡ self.now.table }
        requires here { seat.old.me.0.gone ≡ false }
        requires knows { IsSome seat.old.me.0.whole }
        ensures stays { IsSame seat.old seat.new }
        ensures knows { KnowsCore self.now P.Kind.fits seat.old }
    {
        let _base = self.read(seat, 0);
    }

    /// One word.
    fn known_word(
        &self,
        seat: &mut atomic_table::Seat<(), EpochSeatView<P::View>>,
        word: usize,
    ) -> u64
        requires knows { KnowsCore self.now P.Kind.fits seat.old }
        requires word { word < word_count self.now.shape }
        ensures stays { IsSame seat.old seat.new }
        ensures word { result ≡ known_word seat.old word }
    {
        self.read(seat, word)
    }

    /// The words of cells, in a list's own memory where that is enough.
    fn known_cells(
        &self,
        seat: &mut atomic_table::Seat<(), EpochSeatView<P::View>>,
        first: usize,
        count: u32,
        words: &mut Vec<u64>,
    ) -> Result<(), OutOfMemory>
        requires knows { KnowsCore self.now P.Kind.fits seat.old }
        requires words { first + count ≤ word_count self.now.shape }
        ensures stays { IsSame seat.old seat.new }
        ensures words { OnOk result (words.new.items
            ≡ each_from 0 count (λ i. known_word seat.old (first + i))) }
    {
        words.clear();
        words.reserve(count as usize)?;
        for i in 0..count {
            words.push_reserved(self.known_word(seat, first + i as usize));
        }
        Ok(())
    }

    /// The payload words of a slot.
    fn known_payload(
        &self,
        seat: &mut atomic_table::Seat<(), EpochSeatView<P::View>>,
        first: usize,
    ) -> [u64; 16]
        requires knows { KnowsCore self.now P.Kind.fits seat.old }
        requires words { first + words_of_payload ≤ word_count self.now.shape }
        ensures stays { IsSame seat.old seat.new }
        ensures words { result ≡ each_from 0 16 (λ i. known_word seat.old (first + i)) }
    {
        let mut payload = [0; 16];
        for i in 0..16 {
            payload[i] = self.known_word(seat, first + i);
        }
        payload
    }

    /// The words of a slot.
    fn slot_image(
        &self,
        seat: &mut atomic_table::Seat<(), EpochSeatView<P::View>>,
        slot: SlotId,
    ) -> SlotImage
        requires knows { KnowsCore self.now P.Kind.fits seat.old }
        requires slot { slot.0 < self.now.shape.slots }
        ensures stays { IsSame seat.old seat.new }
        ensures image { result ≡ image_at (known_state self.now seat.old) slot }
    {
        let _sizes = &self.shape;
        let at = self.slot_word(slot);
        let count = self.known_word(seat, at);
        SlotImage {
            strong: strong_image(count),
            weak: weak_image(count),
            fields: [self.known_word(seat, at + 1), self.known_word(seat, at + 2)],
            weak_field: 0,
            payload: self.known_payload(seat, at + 3),
        }
    }

    /// The words of each slot, in a list's own memory where that is enough.
    fn slot_images(
        &self,
        seat: &mut atomic_table::Seat<(), EpochSeatView<P::View>>,
        images: &mut Vec<SlotImage>,
    ) -> Result<(), OutOfMemory>
        requires knows { KnowsCore self.now P.Kind.fits seat.old }
        ensures stays { IsSame seat.old seat.new }
        ensures images { OnOk result (images.new.items ≡ each_from 0 self.now.shape.slots
            (λ x. image_at (known_state self.now seat.old) (record { 0 = x }))) }
    {
        images.clear();
        images.reserve(self.shape.slots as usize)?;
        for slot in 0..self.shape.slots {
            images.push_reserved(self.slot_image(seat, SlotId(slot)));
        }
        Ok(())
    }

    /// All words, with the entries that the seat has yet to give up.
    fn heap_image(
        &self,
        seat: &mut atomic_table::Seat<(), EpochSeatView<P::View>>,
        pending: &Pending,
        heap: &mut Heap,
    ) -> Result<(), OutOfMemory>
        requires knows { KnowsCore self.now P.Kind.fits seat.old }
        requires first { seat.old.me.0.core.seat ≡ 0 }
        requires idle { IsIdle seat.old.me.0.core }
        requires pending { entries pending.now.queues ≡ seat.old.me.0.core.pending }
        ensures stays { IsSame seat.old seat.new }
        ensures image { OnOk result (IsImage (known_state self.now seat.old) heap.new) }
    {
        let first = self.place_word(EventPlace::Cell(0));
        self.known_cells(seat, first, self.shape.cells, &mut heap.cells)?;
        self.slot_images(seat, &mut heap.slots)?;
        heap.weak_cells.clear();
        heap.deferred.clear();
        pending.push_deferred(&mut heap.deferred)
    }

    /// The whole state as words, taken by a seat that is alone and in the middle of nothing. The strong word of a
    /// slot is the count of its references, or the zero flag alone where its object has ended or there is none; its
    /// weak word is 1, or 0 where the slot is free. What the seat has yet to give up is deferred. An open region is
    /// no obstacle. It loads each word of the cells and the slots once.
    pub fn image(&self, alloc: Global, seat: &mut EpochSeat<P>) -> Result<Heap, OutOfMemory>
        requires seat { IsOf self.now seat.old }
        requires alone { IsAlone seat.old.view }
        requires idle { IsIdle seat.old.view.core }
        ensures stays { seat.new ≡ seat.old }
        ensures image { IfOk result (IsWholeImage P.Kind.fits seat.old.view) }
    {
        let mut heap = empty_image(alloc);
        self.image_into(seat, &mut heap)?;
        Ok(heap)
    }

    /// The same in the memory of another image, of which nothing is left. It takes memory only for what that hasn't
    /// room for. Where there is no memory, nothing is told of what is left there.
    pub fn image_into(&self, seat: &mut EpochSeat<P>, heap: &mut Heap) -> Result<(), OutOfMemory>
        requires seat { IsOf self.now seat.old }
        requires alone { IsAlone seat.old.view }
        requires idle { IsIdle seat.old.view.core }
        ensures stays { seat.new ≡ seat.old }
        ensures image { OnOk result (IsWholeImage P.Kind.fits seat.old.view heap.new) }
    {
        self.learn(&mut seat.seat);
        self.heap_image(&mut seat.seat, &seat.pending, heap)
    }
}

/// An image of nothing, which has no memory yet.
fn empty_image(alloc: Global) -> Heap
    ensures slots { result.slots.items ≡ [] }
    ensures cells { result.cells.items ≡ [] }
    ensures weak_cells { result.weak_cells.items ≡ [] }
    ensures deferred { result.deferred.items ≡ [] }
{
    Heap {
        slots: Vec::new(alloc),
        cells: Vec::new(alloc),
        weak_cells: Vec::new(alloc),
        deferred: Vec::new(alloc),
    }
}
