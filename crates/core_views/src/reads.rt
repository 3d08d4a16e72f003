//! What a seat has, one part at a time.
ghost use Rattle.std.specs.Prelude.{◌≡◌};

use crate::holdings::PastSeat;
use crate::seat::OwnView;
use core_functions::{Kind, Move, Note, Phase, Quota, Shape, SlotId};
use std::collections::VecDeque;

impl OwnView {
    /// Its number among the seats, from 0.
    pub fn seat(&self) -> u32
        ensures { result ≡ self.now.seat }
    {
        self.holdings.seat
    }

    /// The sizes of its domain.
    pub fn shape(&self) -> Shape
        ensures { result ≡ self.now.shape }
    {
        self.holdings.shape
    }

    /// How many adds and makes it may use up.
    pub fn quota(&self) -> Quota
        ensures { result ≡ self.now.quota }
    {
        self.holdings.quota
    }

    /// How many makes more who draws each ticket has.
    pub fn grants(&self) -> &[u64]
        ensures { result.now ≡ self.now.grants }
    {
        &self.holdings.grants
    }

    /// How many entries it may have retired and owed together.
    pub fn room(&self) -> u32
        ensures { result ≡ self.now.room }
    {
        self.holdings.room
    }

    /// Its strong references, an entry for each.
    pub fn owned(&self) -> &[SlotId]
        ensures { result.now ≡ self.now.owned }
    {
        &self.holdings.owned
    }

    /// Its weak references, an entry for each.
    pub fn weaks(&self) -> &[SlotId]
        ensures { result.now ≡ self.now.weaks }
    {
        &self.holdings.weaks
    }

    /// What each of its four announcement words stands for.
    pub fn notes(&self) -> &[Note; 4]
        ensures { result.now ≡ self.now.notes }
    {
        &self.holdings.notes
    }

    /// The references that left a place and that it doesn't owe yet.
    pub fn retired(&self) -> &[(Kind, SlotId)]
        ensures { result.now ≡ self.now.retired }
    {
        &self.holdings.retired
    }

    /// The references that it is to give up, the next one first.
    pub fn owed(&self) -> &VecDeque<(Kind, SlotId)>
        ensures { result.now.items ≡ self.now.owed }
    {
        &self.holdings.owed
    }

    /// The slots that it has ended and not yet destroyed.
    pub fn dying(&self) -> &[SlotId]
        ensures { result.now ≡ self.now.dying }
    {
        &self.holdings.dying
    }

    /// Those of them that a whole scan found under no announcement of disposal.
    pub fn ripe(&self) -> &[SlotId]
        ensures { result.now ≡ self.now.ripe }
    {
        &self.holdings.ripe
    }

    /// What it is in the middle of.
    pub fn phase(&self) -> Phase
        ensures { result ≡ self.now.phase }
    {
        self.holdings.phase
    }

    /// The announcement words that its scan has read.
    pub fn seen(&self) -> &[u64]
        ensures { result.now ≡ self.now.seen }
    {
        &self.holdings.seen
    }

    /// How many adds it has used up.
    pub fn adds(&self) -> u64
        ensures { result ≡ self.now.adds }
    {
        self.holdings.adds
    }

    /// How many makes it has used up.
    pub fn makes(&self) -> u64
        ensures { result ≡ self.now.makes }
    {
        self.holdings.makes
    }

    /// The tickets that it drew.
    pub fn tickets(&self) -> &[u64]
        ensures { result.now ≡ self.now.tickets }
    {
        &self.holdings.tickets
    }

    /// Whether it has left.
    pub fn has_left(&self) -> bool
        ensures { result ≡ self.now.left }
    {
        self.holdings.left
    }

    /// Its events with their answers, in order.
    pub fn trail(&self) -> &[Move]
        ensures { result.now ≡ self.now.trail }
    {
        &self.trail
    }

    /// The slots that it made live, in order, and behind them those of the seats that it took over.
    pub fn made(&self) -> &[SlotId]
        ensures { result.now ≡ self.now.made }
    {
        &self.holdings.made
    }

    /// What is kept of the seats that it took over.
    pub fn left_seats(&self) -> &[PastSeat]
        ensures { result.now ≡ self.now.left_seats }
    {
        &self.holdings.left_seats
    }
}

impl PastSeat {
    /// The number of the seat that left.
    pub fn seat(&self) -> u32
        ensures { result ≡ self.now.seat }
    {
        self.seat
    }

    /// Its events with their answers, in order.
    pub fn trail(&self) -> &[Move]
        ensures { result.now ≡ self.now.trail }
    {
        &self.trail
    }

    /// The tickets that it drew.
    pub fn tickets(&self) -> &[u64]
        ensures { result.now ≡ self.now.tickets }
    {
        &self.tickets
    }
}
