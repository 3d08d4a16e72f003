//! Acts that are drawn, for a core of three seats, a cell and a weak cell, mostly about three of its slots.
ghost use Rattle.std.specs.Prelude.{◌<◌};

use cdrc_steps::{Act, EventPlace, Kind, OwnView, Phase, SlotId};

/// The slots that most acts are about, on both sides of the end of a word of bits, and one that few are about.
const SLOTS: [SlotId; 8] = [
    SlotId(0),
    SlotId(0),
    SlotId(63),
    SlotId(63),
    SlotId(63),
    SlotId(64),
    SlotId(64),
    SlotId(69),
];

/// A small generator of acts. It remembers which slot was last found in which place.
#[derive(Drop)]
pub struct Dice {
    pub state: u64,
    pub found: (EventPlace, SlotId),
}

impl Dice {
    pub fn below(&mut self, limit: u32) -> u32
        requires { 0 < limit }
        ensures { result < limit }
    {
        self.state = self
            .state
            .wrapping_mul(6_364_136_223_846_793_005)
            .wrapping_add(1_442_695_040_888_963_407);
        ((self.state >> 33) % limit as u64) as u32
    }

    fn slot(&mut self) -> SlotId {
        SLOTS[self.below(8) as usize]
    }

    fn place(&mut self) -> EventPlace {
        match self.below(5) {
            0 | 1 => EventPlace::Cell(0),
            2 => EventPlace::Field(self.slot(), self.below(2)),
            3 => EventPlace::WeakCell(0),
            _ => EventPlace::WeakField(self.slot()),
        }
    }

    /// Something to put into the place, and no cycle of strong fields: each holds a slot behind its own.
    fn content(&mut self, place: EventPlace) -> Option<SlotId> {
        let slot = self.slot();
        match place {
            _ if self.below(3) == 0 => None,
            EventPlace::Field(SlotId(own), _) if slot.0 <= own => None,
            _ => Some(slot),
        }
    }

    /// An act of a seat in no call.
    fn idle_act(&mut self) -> Act {
        let (place, slot) = (self.place(), self.slot());
        match self.below(40) {
            0..2 => Act::Claim(slot),
            2..4 => Act::Add(slot),
            4..7 => Act::Wadd(slot),
            7 => Act::See(slot, self.below(16)),
            8 => Act::Wcount(slot),
            9..11 => Act::Swap(place, self.content(place)),
            11..13 => Act::Count(slot),
            13 => Act::Swap(place, None),
            14 => Act::Cas(place, self.content(place), self.content(place)),
            15 => Act::Look(place),
            16..18 => Act::Announce(self.below(4), Kind::Strong, self.found.1),
            18..20 => Act::Announce(self.below(4), Kind::Weak, self.found.1),
            20..22 => Act::Announce(self.below(4), Kind::Disposal, slot),
            22..25 => Act::Check(self.below(4), self.found.0),
            25..28 => Act::Alive(self.below(4)),
            28..30 => Act::Release(self.below(4)),
            30..33 => Act::Drop(slot),
            33..36 => Act::Wdrop(slot),
            36..38 => Act::Destroy(slot),
            38 if self.below(40) == 0 => Act::Ticket,
            38 if self.below(4) == 0 => Act::Scan,
            _ => Act::Pay,
        }
    }

    /// An act that a seat may perhaps make. One that is to end something mostly waits, so that others come between.
    pub fn act(&mut self, view: &OwnView) -> Act {
        let phase = view.phase();
        if self.below(12) > 0 && !matches!(phase, Phase::Idle | Phase::Scan) {
            return Act::Pay;
        }
        match phase {
            Phase::Idle => self.idle_act(),
            Phase::Finish(_) => Act::Finish,
            Phase::Help(_) => Act::Take,
            Phase::Zero(_) => Act::Mark,
            Phase::Scan => Act::Scan,
            Phase::Give(_) => Act::Free,
            Phase::Bare(_) => Act::Arm,
            Phase::Blank(_) if self.below(4) == 0 => Act::Start,
            Phase::Blank(_) => Act::Fill(self.below(16), self.below(100) as u64),
        }
    }

    /// Towards the end the seats let go of what they announce, and leave.
    pub fn last_act(&mut self, view: &OwnView) -> Act {
        match self.below(3) {
            0 => Act::Leave(self.below(3)),
            1 => Act::Release(self.below(4)),
            _ => self.act(view),
        }
    }
}
