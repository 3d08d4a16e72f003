//! Snapshots of a plain heap.
ghost use Rattle.std.specs.Prelude.{◌≡◌, IfOk, OnErr};
ghost use Rattle.plain_protocol.specs.plain_state.Places.{IsOpen};
ghost use Rattle.plain_protocol.specs.plain_state.Steps.{Does};
ghost use Rattle.plain_store.specs.Calls.{strong_place, Snaps, HasSnapshot, ending, Gains};

use crate::heap::PlainHeap;
use plain_protocol::PayloadKind;
use plain_store::{Hand, OutOfMemory, PlainPlace, SnapHand, counted};

impl<W: PayloadKind> PlainHeap<W> {
    /// A snapshot of what the place holds, or None exactly where it holds null. It is counted, and
    /// so owns a reference as after `load`, exactly where three uncounted snapshots are held
    /// already. OutOfMemory leaves the heap as it was. Constant but for the growth of a list.
    pub fn snap(&mut self, place: PlainPlace) -> Result<Option<SnapHand>, OutOfMemory>
        requires { IsOpen self.old 0 (strong_place place) }
        ensures snaps { IfOk result (λ s. Snaps self.old (strong_place place) s self.new) }
        ensures err { OnErr result (self.new ≡ self.old) }
    {
        self.store.snap(place.event())
    }

    /// The snapshot ends: its announcement, or where it is counted its reference. Linear in the
    /// list that has it.
    pub fn unsnap(&mut self, s: SnapHand)
        requires { HasSnapshot self.old s.0 s.1 }
        ensures { Does self.old 0 (ending s.0 s.1) 0 self.new }
    {
        let slot = s.slot();
        if counted(&s) {
            self.store.drop_owned(slot);
            self.restless = self.restless.also(slot);
        } else {
            self.store.end_snapshot(slot);
        }
    }

    /// One more owned reference to the snapshot's object. It uses an add, and answers OutOfMemory
    /// as `copy` does. Constant but for the growth of a list.
    pub fn keep(&mut self, s: &SnapHand) -> Result<Hand, OutOfMemory>
        requires { HasSnapshot self.old s.now.0 s.now.1 }
        ensures gains { IfOk result (λ more. Gains self.old s.now.0 more self.new) }
        ensures err { OnErr result (self.new ≡ self.old) }
    {
        self.store.gain(s.slot())
    }
}
