//! Acts that a seed draws.
ghost use Rattle.std.specs.Prelude.{◌<◌};

use crate::acts::{Act, Spot, WeakSpot};

/// A sequence of numbers.
#[derive(Debug, Drop)]
pub(crate) struct Draws {
    state: u64,
}

impl Draws {
    pub(crate) fn new(seed: u64) -> Draws {
        Draws { state: seed }
    }

    /// A number below `bound`, which isn't 0.
    pub(crate) fn below(&mut self, bound: u32) -> u32
        requires { 0 < bound }
        ensures { result < bound }
    {
        self.state = self
            .state
            .wrapping_mul(6_364_136_223_846_793_005)
            .wrapping_add(1_442_695_040_888_963_407);
        ((self.state >> 33) as u32) % bound
    }

    /// One of two cells, or sometimes a field of the first object.
    pub(crate) fn spot(&mut self) -> Spot {
        match self.below(5) {
            0 | 1 => Spot::Cell(0),
            2 | 3 => Spot::Cell(1),
            _ => Spot::Field(0, 0),
        }
    }

    /// An act on the strong cells, or with strong references, of a domain of so many slots.
    pub(crate) fn strong_act(&mut self, slots: u32) -> Act {
        let cell = Spot::Cell(self.below(2));
        match self.below(11) {
            0 => Act::Load(self.spot()),
            1 => Act::TryLoad(self.spot()),
            2 => Act::Store(cell),
            3 => Act::Clear(cell),
            4 => Act::Look(self.spot()),
            5 => Act::LookOn(self.spot()),
            6 => Act::Replace(cell, None),
            7 => Act::Replace(cell, Some(self.below(slots.max(1)))),
            8 => Act::Copy(0),
            9 => Act::Make(1),
            _ => Act::Drop,
        }
    }

    /// The same with weak cells and weak references among them.
    pub(crate) fn weak_act(&mut self, slots: u32) -> Act {
        let cell = match self.below(3) {
            0 => WeakSpot::Field(0),
            _ => WeakSpot::Cell(self.below(2)),
        };
        match self.below(14) {
            0 => Act::LoadWeak(cell),
            1 => Act::TryLoadWeak(cell),
            2 => Act::StoreWeak(cell),
            3 => Act::ClearWeak(cell),
            4 => Act::ReplaceWeak(cell, None),
            5 => Act::Watch(cell),
            6 => Act::Outlive(cell),
            7 => Act::Weaken(0),
            8 => Act::CopyWeak(0),
            9 => Act::Upgrade(0),
            10 => Act::DropWeak,
            11 => Act::CountBy(0),
            _ => self.strong_act(slots),
        }
    }
}
