//! References of a plain heap: one more, one fewer, and what a slot holds.
ghost use Rattle.std.specs.Prelude.{◌≡◌, ◌<◌, IfOk, OnErr, slice_index};
ghost use Rattle.plain_protocol.specs.plain_state.Limits.{words_of_payload};
ghost use Rattle.plain_protocol.specs.plain_state.declared.act.PlainAct.TheVariants as act;
ghost use Rattle.plain_protocol.specs.plain_state.State.{seat_at, slot_at};
ghost use Rattle.plain_protocol.specs.plain_state.Places.{Holds};
ghost use Rattle.plain_protocol.specs.plain_state.Steps.{Does};
ghost use Rattle.plain_store.specs.Heaps.{Owns, OwnsWeakly};
ghost use Rattle.plain_store.specs.Calls.{Gains, WeaklyGains, Upgrades};

use crate::heap::PlainHeap;
use plain_protocol::{PayloadKind, SlotId};
use plain_store::{Hand, OutOfMemory, WeakHand};

/// Each call that gains a reference uses an add. It answers OutOfMemory where its list can't grow,
/// and where the heap's adds would pass 2^63 - 2; the heap is then as it was.
impl<W: PayloadKind> PlainHeap<W> {
    /// One more owned reference to the object. Constant but for the growth of a list.
    pub fn copy(&mut self, h: &Hand) -> Result<Hand, OutOfMemory>
        requires { Owns self.old h.now }
        ensures gains { IfOk result (λ more. Gains self.old h.now more self.new) }
        ensures err { OnErr result (self.new ≡ self.old) }
    {
        self.store.gain(h.slot())
    }

    /// One weak reference to the object's slot. Constant but for the growth of a list.
    pub fn weaken(&mut self, h: &Hand) -> Result<WeakHand, OutOfMemory>
        requires { Owns self.old h.now }
        ensures gains { IfOk result (λ more. WeaklyGains self.old h.now more self.new) }
        ensures err { OnErr result (self.new ≡ self.old) }
    {
        self.store.weak_gain(h.slot())
    }

    /// One more weak reference. Constant but for the growth of a list.
    pub fn copy_weak(&mut self, w: &WeakHand) -> Result<WeakHand, OutOfMemory>
        requires { OwnsWeakly self.old w.now }
        ensures gains { IfOk result (λ more. WeaklyGains self.old w.now more self.new) }
        ensures err { OnErr result (self.new ≡ self.old) }
    {
        self.store.weak_gain(w.slot())
    }

    /// One weak reference fewer, at once. Linear in the weak references that are owned.
    pub fn drop_weak(&mut self, w: WeakHand)
        requires { OwnsWeakly self.old w }
        ensures { Does self.old 0 (act.WeakDrop w) 0 self.new }
    {
        let slot = w.slot();
        self.store.drop_weak(slot);
        self.restless = self.restless.also(slot);
    }

    /// An owned reference to the object, or None exactly where it has ended: where its zero mark
    /// stands. The add is used then too. Constant but for the growth of a list.
    pub fn upgrade(&mut self, w: &WeakHand) -> Result<Option<Hand>, OutOfMemory>
        requires { OwnsWeakly self.old w.now }
        ensures upgrades { IfOk result (λ more. Upgrades self.old w.now more self.new) }
        ensures err { OnErr result (self.new ≡ self.old) }
    {
        self.store.upgrade(w.slot())
    }

    /// A word of the slot's payload. Constant.
    pub fn read(&self, slot: SlotId, word: u32) -> u64
        requires held { Holds (seat_at self.now 0) slot }
        requires word { word < words_of_payload }
        ensures { result ≡ slice_index (slot_at self.now slot).payload word }
    {
        self.store.word(slot, word)
    }
}
