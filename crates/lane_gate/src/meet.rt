//! A gate that lets two lanes meet.
//!
//! The first lane that comes before its first piece is held there until another lane has come to its second piece. So
//! two lanes overlap, or the held one goes on by itself after a number of turns. The held lane comes to its own second
//! piece only once it isn't held any more, so whoever comes to a second piece meanwhile is another one.

use crate::gate::Gate;
use crossbeam_utils::Backoff;
use crossbeam_utils::atomic::AtomicCell;
use std::sync::Wait;

/// Holds the first lane that comes, at its turn 0, until another lane has come to its turn 1, or for so many turns of
/// its loop.
#[derive(Drop)]
pub struct Meet {
    turns: u64,
    /// Whether a lane has come to its turn 0.
    holds: AtomicCell<bool>,
    /// Whether a lane has come to its turn 1.
    came: AtomicCell<bool>,
    /// Whether the held lane went on because another one came.
    met: AtomicCell<bool>,
}

impl Meet {
    /// A gate that no lane has come to. It holds a lane for at most `turns` turns.
    pub fn new(turns: u64) -> Meet {
        Meet {
            turns,
            holds: AtomicCell::new(false),
            came: AtomicCell::new(false),
            met: AtomicCell::new(false),
        }
    }

    /// Whether the held lane went on because another one came. No contract says so: it is for tests.
    pub fn met(&self) -> bool {
        self.met.load()
    }

    /// Waits until another lane has come, or for all turns.
    fn hold(&self) {
        let backoff = Backoff::new();
        for _turn in 0..self.turns {
            if self.came.load() {
                self.met.store(true);
                return;
            }
            backoff.spin();
        }
    }
}

impl Gate for Meet {
    /// Holds the first lane at its turn 0.
    fn pass<R: Wait>(&self, _rt: &R, _lane: u32, turn: u64) {
        if turn == 0 && !self.holds.swap(true) {
            self.hold();
        }
        if turn == 1 {
            self.came.store(true);
        }
    }
}
