//! The slow heap of one seat: every call is the plain steps of its row, and nothing else.
ghost use Rattle.std.specs.Prelude.{◌≡◌, ◌+◌, ◌<◌, ◌≤◌, ◌↔◌, IfOk, OnErr, IsTrue, length};
ghost use Rattle.plain_protocol.specs.plain_state.Limits.{most_cells, most_slots, most_weak_cells};
ghost use Rattle.plain_protocol.specs.plain_state.declared.act.PlainAct.TheVariants as act;
ghost use Rattle.plain_protocol.specs.plain_state.declared.slot.SlotId.{SlotId};
ghost use Rattle.plain_protocol.specs.plain_state.State.{Plain, empty, seat_at};
ghost use Rattle.plain_protocol.specs.plain_state.Places.{Holds};
ghost use Rattle.plain_protocol.specs.plain_state.References.{strong_refs, weak_refs};
ghost use Rattle.plain_protocol.specs.plain_state.Lawful.{Lawful};
ghost use Rattle.plain_protocol.specs.plain_state.Steps.{Does};
ghost use Rattle.plain_protocol.specs.plain_state.Fits.{AllFit};
ghost use Rattle.plain_store.specs.Heaps.{Owns, Makes, NoneFree};
ghost use Rattle.plain_store.specs.Stores.{plain_of, Kept};
ghost use Rattle.cdrc_plain.specs.Watching.{IsRestlessOnly};

use crate::restless::Restless;
use plain_protocol::{PayloadKind, SlotId};
use plain_store::{Hand, MakeRefused, OutOfMemory, Store};
use std::alloc::Global;
use std::marker::{Model, PhantomData};

/// A heap of counted objects for one thread. Contracts see it as its plain state; a call that is refused leaves that
/// state as it was. Objects end and slots are given again when it settles, for which it remembers where a drop may have
/// left a slot without references.
#[derive(Drop)]
pub struct PlainHeap<W: PayloadKind> {
    pub(crate) store: Store,
    pub(crate) restless: Restless,
    pub(crate) kind: PhantomData<W>,
}

impl<W: PayloadKind> Model for PlainHeap<W> {
    ghost Value = { Plain };

    ghost view = { λ h. plain_of h.store };

    ghost invariant = { λ h. Kept h.store × AllFit W.fits (plain_of h.store)
        × IsRestlessOnly h.restless (plain_of h.store) };
}

impl<W: PayloadKind> PlainHeap<W> {
    /// An empty heap: 1 to 4,194,304 slots, at most 65,536 strong cells and 4,194,304 weak cells. Linear in them.
    pub fn new(
        alloc: Global,
        slots: u32,
        cells: u32,
        weak_cells: u32,
    ) -> Result<PlainHeap<W>, OutOfMemory>
        requires slots { (1 ≤ slots) × (slots ≤ most_slots) }
        requires cells { cells ≤ most_cells }
        requires weak_cells { weak_cells ≤ most_weak_cells }
        ensures { IfOk result (λ h. h ≡ empty 1 slots cells weak_cells) }
    {
        let store = Store::new(alloc, slots, cells, weak_cells)?;
        Ok(PlainHeap {
            store,
            restless: Restless::Nowhere,
            kind: PhantomData,
        })
    }

    /// A new object with this payload, and a reference to it. It looks at each slot once at most.
    pub fn make(&mut self, payload: [u64; 16]) -> Result<Hand, MakeRefused>
        requires { W.fits payload }
        ensures made { IfOk result (λ h. Makes self.old h payload self.new) }
        ensures full { (result ≡ Err MakeRefused.Full) ↔ NoneFree self.old }
        ensures err { OnErr result (self.new ≡ self.old) }
    {
        self.store.make(&payload)
    }

    /// One reference fewer, at once. Linear in the references that are owned.
    pub fn drop_hand(&mut self, hand: Hand)
        requires { Owns self.old hand }
        ensures { Does self.old 0 (act.Drop hand) 0 self.new }
    {
        let slot = hand.slot();
        self.store.drop_owned(slot);
        self.restless = self.restless.also(slot);
    }

    /// Whether the seat owns a reference to the slot. Linear in the references that are owned.
    pub fn owns(&self, slot: SlotId) -> bool
        ensures { IsTrue result ↔ Owns self.now slot }
    {
        self.store.owns(slot)
    }

    /// How many slots there are, 1 to 4,194,304. Constant.
    pub fn slots(&self) -> u32
        ensures { result ≡ length self.now.slots }
    {
        self.store.slot_count()
    }

    /// The strong and the weak references to the slot: what seats own, what places hold and what is deferred.
    pub fn counts(&self, slot: SlotId) -> (u64, u64)
        requires { Holds (seat_at self.now 0) slot }
        ensures strong { result.0 ≡ strong_refs self.now slot }
        ensures weak { result.1 ≡ weak_refs self.now slot }
        ensures lawful { Lawful self.now }
    {
        self.store.counts(slot)
    }
}
