//! A heap of counted objects for one thread, which is the plain meaning of the library's calls: each call of
//! `PlainHeap` is the plain steps of its row, and what a call leaves after a refusal is the state before it.
//!
//! The rule is that of `plain_state`: what is referred to is alive, what is under a snapshot is covered by a place or a
//! deferred entry, each ended object waits in one dying list, and nothing else has fields. Objects end and slots are
//! given again when the heap settles.
//!
//! It doesn't promise that `OutOfMemory` comes only where a growth was refused, nor which slot a make takes. Strong
//! cycles are never freed.
//!
//! ```text
//! let mut heap = PlainHeap::<RecordKind>::new(alloc, 8, 1, 0)?;
//! let hand = heap.make(record_of(b"word"))?;
//! heap.drop_hand(hand);
//! let freed = heap.settle()?;   // 4, the length of the text
//! ```
#![tactic(auto)]

mod heap;
mod heap_hands;
mod heap_image;
mod heap_places;
mod heap_settle;
mod heap_snapshots;
mod restless;

pub use heap::PlainHeap;
pub use plain_protocol::{
    Announced, AnyStep, Deed, EventPlace, Heap, Kind, NoLaw, PayloadKind, PlainAct, PlainSlot,
    Protocol, RecordKind, SlotId, SlotImage, Stage, Still, ZERO, record_of, steps_keep_sound,
};
pub use plain_store::{
    Back, Full, Hand, MakeRefused, OutOfMemory, PlainPlace, PlainWeakPlace, SnapHand, WeakHand,
    counted,
};
