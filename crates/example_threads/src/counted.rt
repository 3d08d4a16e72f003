//! What threads count.
use crate::numbers::TURNS;

/// What a thread counted: the turns that it made, and of the numbers that it found their sum, and how many no thread
/// put there. Threads put the numbers from 1 to `TURNS` there.
#[derive(Clone, Copy, PartialEq, Eq, Debug, Drop)]
pub struct Counted {
    pub done: u64,
    pub sum: u64,
    pub strange: u64,
}

impl Counted {
    /// Nothing so far.
    pub fn new() -> Counted {
        Counted {
            done: 0,
            sum: 0,
            strange: 0,
        }
    }

    /// One turn more.
    pub fn turn(&mut self) {
        self.done = self.done.saturating_add(1);
    }

    /// This number was found.
    pub fn found(&mut self, number: u64) {
        self.sum = self.sum.saturating_add(number);
        if number == 0 || number > TURNS {
            self.strange = self.strange.saturating_add(1);
        }
    }

    /// What another thread counted, too.
    pub fn add(&mut self, other: &Counted) {
        self.done = self.done.saturating_add(other.done);
        self.sum = self.sum.saturating_add(other.sum);
        self.strange = self.strange.saturating_add(other.strange);
    }
}
