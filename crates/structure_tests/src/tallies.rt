//! What a taker tells of the letters that it took.
use crate::letters::Letter;
use std::alloc::{AllocError, Global};

/// The letters of one sender: how often each was taken, the least number that may come next where they come in order,
/// and whether they did.
#[derive(Drop)]
struct SenderTally {
    times: Vec<u8>,
    next: u64,
    ordered: bool,
}

impl SenderTally {
    /// None of so many letters was taken.
    fn new(alloc: Global, letters: usize) -> Result<SenderTally, AllocError> {
        Ok(SenderTally {
            times: vec![in alloc; 0; letters]?,
            next: 0,
            ordered: true,
        })
    }

    /// One more letter was taken. One that there isn't is out of order.
    fn note(&mut self, number: u64) {
        self.ordered &= self.next <= number;
        self.next = number.saturating_add(1);
        match self.times.get_mut(number as usize) {
            Some(times) => *times = times.saturating_add(1),
            None => self.ordered = false,
        }
    }

    /// What another taker took was taken too.
    fn add(&mut self, other: &SenderTally) {
        self.ordered &= other.ordered;
        for (times, more) in self.times.iter_mut().zip(other.times.iter()) {
            *times = times.saturating_add(*more);
        }
    }
}

/// The letters of some senders that one taker took, or several.
#[derive(Drop)]
pub(crate) struct Tally {
    tallies: Vec<SenderTally>,
    strange: bool,
}

impl Tally {
    /// Nothing was taken of so many senders, who send so many letters each.
    pub(crate) fn new(alloc: Global, senders: usize, letters: usize) -> Result<Tally, AllocError> {
        let mut tallies = Vec::new(alloc);
        for _sender in 0..senders {
            tallies.push(SenderTally::new(alloc, letters)?)?;
        }
        Ok(Tally {
            tallies,
            strange: false,
        })
    }

    /// One more letter was taken.
    pub(crate) fn note(&mut self, letter: Letter) {
        match self.tallies.get_mut(letter.sender as usize) {
            Some(sender) => sender.note(letter.number),
            None => self.strange = true,
        }
    }

    /// What another taker took was taken too.
    pub(crate) fn add(&mut self, other: &Tally) {
        self.strange |= other.strange;
        for (sender, more) in self.tallies.iter_mut().zip(other.tallies.iter()) {
            sender.add(more);
        }
    }

    /// Whether each letter of each sender was taken once, and no other one.
    pub(crate) fn has_each_once(&self) -> bool {
        let once = |sender: &SenderTally| sender.times.iter().all(|times| *times == 1);
        !self.strange && self.tallies.iter().all(once)
    }

    /// Whether each taker took the letters of each sender in that sender's order.
    pub(crate) fn is_ordered(&self) -> bool {
        self.tallies.iter().all(|sender| sender.ordered)
    }
}
