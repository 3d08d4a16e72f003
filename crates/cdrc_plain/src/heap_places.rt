//! The places of a plain heap: put, replaced, loaded.
ghost use Rattle.std.specs.Prelude.{◌≡◌, IfOk, IfErr, OnErr};
ghost use Rattle.plain_protocol.specs.plain_state.declared.slot.Kind.TheVariants.{Strong, Weak};
ghost use Rattle.plain_protocol.specs.plain_state.State.{seat_at};
ghost use Rattle.plain_protocol.specs.plain_state.Places.{IsOpen};
ghost use Rattle.plain_store.specs.Calls.{strong_place, weak_place, MayGive, Puts, Tries, Loads, WeaklyLoads};

use crate::heap::PlainHeap;
use plain_protocol::{PayloadKind, SlotId};
use plain_store::{Back, Hand, OutOfMemory, PlainPlace, PlainWeakPlace, WeakHand};

/// The slot of a handle.
fn slot_of(h: &Option<Hand>) -> Option<SlotId>
    ensures { result ≡ h.now }
{
    match h {
        None => None,
        Some(hand) => Some(hand.slot()),
    }
}

/// The slot of a weak handle.
fn weak_slot_of(w: &Option<WeakHand>) -> Option<SlotId>
    ensures { result ≡ w.now }
{
    match w {
        None => None,
        Some(hand) => Some(hand.slot()),
    }
}

/// A place is a cell of the heap, or a field of a slot that the seat holds strongly. What is put
/// into it the seat owns, and gives up. Each call answers OutOfMemory where its list can't grow;
/// the heap is then as it was.
impl<W: PayloadKind> PlainHeap<W> {
    /// The place holds the reference, or null, and what it held is deferred. Linear in the
    /// references that are owned.
    pub fn put(&mut self, place: PlainPlace, h: Option<Hand>) -> Result<(), Back<Option<Hand>>>
        requires opened { IsOpen self.old 0 (strong_place place) }
        requires given { MayGive Strong h (seat_at self.old 0) }
        ensures puts { IfOk result (λ _. Puts self.old (strong_place place) h self.new) }
        ensures err { OnErr result (self.new ≡ self.old) }
        ensures back { IfErr result (λ e. e.back ≡ h) }
    {
        match self.store.replace(place.event(), slot_of(&h)) {
            Ok(()) => Ok(()),
            Err(OutOfMemory) => Err(Back { back: h }),
        }
    }

    /// The weak place holds the reference, or null, and what it held is deferred. Linear in the
    /// weak references that are owned.
    pub fn put_weak(
        &mut self,
        place: PlainWeakPlace,
        w: Option<WeakHand>,
    ) -> Result<(), Back<Option<WeakHand>>>
        requires opened { IsOpen self.old 0 (weak_place place) }
        requires given { MayGive Weak w (seat_at self.old 0) }
        ensures puts { IfOk result (λ _. Puts self.old (weak_place place) w self.new) }
        ensures err { OnErr result (self.new ≡ self.old) }
        ensures back { IfErr result (λ e. e.back ≡ w) }
    {
        match self.store.replace(place.event(), weak_slot_of(&w)) {
            Ok(()) => Ok(()),
            Err(OutOfMemory) => Err(Back { back: w }),
        }
    }

    /// An owned reference to what the place holds, or None exactly where it holds null. It uses an
    /// add, and answers OutOfMemory too where the heap's adds would pass 2^63 - 2. Constant but for
    /// the growth of a list.
    pub fn load(&mut self, place: PlainPlace) -> Result<Option<Hand>, OutOfMemory>
        requires { IsOpen self.old 0 (strong_place place) }
        ensures loads { IfOk result (λ h. Loads self.old (strong_place place) h self.new) }
        ensures err { OnErr result (self.new ≡ self.old) }
    {
        self.store.load(place.event())
    }

    /// A weak reference to what the weak place holds, or None exactly where it holds null. As
    /// `load` it uses an add.
    pub fn load_weak(&mut self, place: PlainWeakPlace) -> Result<Option<WeakHand>, OutOfMemory>
        requires { IsOpen self.old 0 (weak_place place) }
        ensures loads { IfOk result (λ w. WeaklyLoads self.old (weak_place place) w self.new) }
        ensures err { OnErr result (self.new ≡ self.old) }
    {
        self.store.load_weak(place.event())
    }

    /// True exactly where the place held `expected`: it then holds the reference, or null, and what
    /// it held is deferred. False changes nothing, and the reference stays owned under its slot.
    /// Linear in the references that are owned.
    pub fn replace(
        &mut self,
        place: PlainPlace,
        expected: Option<SlotId>,
        h: Option<Hand>,
    ) -> Result<bool, Back<Option<Hand>>>
        requires opened { IsOpen self.old 0 (strong_place place) }
        requires given { MayGive Strong h (seat_at self.old 0) }
        ensures tries { IfOk result (λ done.
            Tries self.old (strong_place place) expected h done self.new) }
        ensures err { OnErr result (self.new ≡ self.old) }
        ensures back { IfErr result (λ e. e.back ≡ h) }
    {
        match self.store.try_replace(place.event(), expected, slot_of(&h)) {
            Ok(done) => Ok(done),
            Err(OutOfMemory) => Err(Back { back: h }),
        }
    }
}
