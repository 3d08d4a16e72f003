//! Which turns a run passes at its gate, and whether its lanes meet there.

use crossbeam_utils::atomic::AtomicCell;
use run_players::{TWO, ended};
use std::sync::Wait;
use std::test::Fail;
use words_work::{Gate, Meet};

/// A gate that notes the next turn of lane 0, as long as its turns come in their order, and whether any other came.
#[derive(Drop)]
struct Noted {
    next: AtomicCell<u64>,
    strange: AtomicCell<bool>,
}

impl Gate for Noted {
    fn pass<R: Wait>(&self, _rt: &R, lane: u32, turn: u64) {
        if lane == 0 && turn < 100 && turn == self.next.load() {
            self.next.store(turn + 1);
        } else {
            self.strange.store(true);
        }
    }
}

// The gate is passed once for each piece, in every round.
#[test]
fn turns_of_one_lane(rt: HostRuntime) -> Result<(), Fail> {
    for (line, turns) in [
        ("words --lanes 1 f", 3),
        ("words --lanes 1 f g", 6),
        ("words --lanes 1 --rounds 3 f", 9),
        ("words --protect epoch --lanes 1 --rounds 2 f g", 12),
        ("script s", 0),
        ("steps t", 0),
        ("gen 0 2 10", 0),
    ] {
        let gate = Noted {
            next: AtomicCell::new(0),
            strange: AtomicCell::new(false),
        };
        let (end, _text) = ended(&rt, rt.alloc(), line, &[], 99, &[], &gate)?;
        assert!(rt; end.status == 0, "{line}");
        assert!(rt; gate.next.load() == turns && !gate.strange.load(), "{line}");
    }
    Ok(())
}

// Two lanes that wait for each other meet, since each runs in a thread of its own; one lane meets nobody and goes on.
#[test]
fn lanes_meet(rt: HostRuntime) -> Result<(), Fail> {
    for (line, turns, meets) in [
        ("words --lanes 2 f g", 1_000_000, true),
        ("words --lanes 2 --queue double f g", 1_000_000, true),
        ("words --lanes 2 --protect epoch f g", 1_000_000, true),
        ("words --lanes 1 f g", 1_000, false),
    ] {
        let gate = Meet::new(turns);
        let (end, text) = ended(&rt, rt.alloc(), line, &[], 999, &[], &gate)?;
        assert!(rt; end.status == 0, "{line}");
        assert!(rt; text.as_slice() == TWO.as_bytes(), "{line}");
        assert!(rt; gate.met() == meets, "{line}");
    }
    Ok(())
}
