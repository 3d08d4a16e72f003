//! Worked rows of the pure counter and of announcement words, and the counter that threads share.
ghost use Rattle.std.specs.Prelude.{◌≡◌, ◌<◌};

use cdrc_steps::{decode, encode};
use std::alloc::Global;
use std::test::Fail;
use std::thread;
use std::thread::Threads;
use sticky_count::{Fin, Spent, Sticky, StickySeat, Sub, add, finish, sub, take_help, value};

#[test]
fn worked_words(rt: HostRuntime) {
    assert!(rt; add(9223372036854775808) == (9223372036854775809, false));
    assert!(rt; sub(1) == (0, Sub::Finish));
    for (word, outcome) in [
        (0, (9223372036854775808, Fin::Ended)),
        (13835058055282163712, (13835058055282163712, Fin::Help)),
        (1, (1, Fin::Lost)),
    ] {
        assert!(rt; finish(word) == outcome, "{word}");
    }
    assert!(rt; take_help(13835058055282163712) == (9223372036854775808, true));
    for (word, count) in [(9223372036854775813, 0), (5, 5)] {
        assert!(rt; value(word) == count, "{word}");
    }
    for (kind, slot, word) in [(0, 0, 4), (1, 2, 13), (2, 4194303, 16777218)] {
        assert_eq!(rt; encode(kind, slot), word);
        assert_eq!(rt; decode(word), Some((kind, slot)));
    }
    for word in [0, 3, 7, 16777220] {
        assert_eq!(rt; decode(word), None, "{word}");
    }
}

#[test]
fn one_thread_counts_up_and_down(rt: HostRuntime) -> Result<(), Fail> {
    let (sticky, mut seats) = Sticky::open_sticky(rt.alloc(), 2, 3)?;
    let mut first = seats.remove(0);
    let mut second = seats.remove(0);
    assert!(rt; sticky.increment(&mut first) == Ok(true));
    assert!(rt; sticky.increment(&mut first) == Ok(true));
    assert!(rt; sticky.increment(&mut first) == Ok(true));
    assert!(rt; sticky.increment(&mut first) == Err(Spent));
    assert!(rt; sticky.read(&mut first) == 4);
    assert!(rt; !sticky.decrement(&mut first));
    assert!(rt; !sticky.decrement(&mut first));
    assert!(rt; !sticky.decrement(&mut first));
    assert!(rt; sticky.decrement(&mut first));
    assert!(rt; sticky.increment(&mut second) == Ok(false));
    assert!(rt; sticky.read(&mut second) == 0);
    Ok(())
}

/// A seat of a counter.
#[derive(Drop)]
struct Counting<'a> {
    sticky: &'a Sticky,
    seat: StickySeat,
    ghost fits: { seat.counter ≡ sticky.now },
}

impl Counting<'_> {
    /// Counts up and down, as long as that succeeds, and looks. Whether it ended the counter.
    fn turn(&mut self) -> bool {
        let ended = if self.sticky.increment(&mut self.seat) == Ok(true) {
            self.sticky.decrement(&mut self.seat)
        } else {
            false
        };
        let _count = self.sticky.read(&mut self.seat);
        ended
    }
}

/// A seat of a counter that holds a count.
#[derive(Drop)]
struct Holder<'a> {
    sticky: &'a Sticky,
    seat: StickySeat,
    ghost fits: { seat.counter ≡ sticky.now },
    ghost holds: { 0 < seat.view.held },
}

/// A seat that counts up, if it could.
fn holder_of(sticky: &Sticky, mut seat: StickySeat) -> Option<Holder<'_>>
    requires { seat.counter ≡ sticky.now }
{
    if sticky.increment(&mut seat) == Ok(true) {
        Some(Holder { sticky, seat })
    } else {
        None
    }
}

/// Gives its count up, and counts up and down. How often that ended the counter.
fn give_up(holder: Holder<'_>) -> u64 {
    let Holder { sticky, mut seat } = holder;
    let mut ends = u64::from(sticky.decrement(&mut seat));
    let mut counting = Counting { sticky, seat };
    for _turn in 0..100u32 {
        ends = ends.saturating_add(u64::from(counting.turn()));
    }
    ends
}

/// How often a counter of 32 seats was ended, of which four hold a count and give it up in threads.
fn ends_of_one<R: Threads + Sync>(rt: &R, alloc: Global) -> Result<u64, Fail> {
    let (sticky, mut seats) = Sticky::open_sticky(alloc, 32, 101)?;
    let mut holders = Vec::new(alloc);
    let first = seats.remove(0);
    for holder in [
        Some(Holder {
            sticky: &sticky,
            seat: first,
        }),
        holder_of(&sticky, seats.remove(0)),
        holder_of(&sticky, seats.remove(0)),
        holder_of(&sticky, seats.remove(0)),
    ] {
        holders.push(holder.ok_or("no count")?)?;
    }
    let mut all: u64 = 0;
    for ends in thread::map_vec(rt, holders, &|holder| give_up(holder))? {
        all = all.saturating_add(ends);
    }
    Ok(all)
}

// Whoever gives up the last count ends the counter, and nobody else does.
#[test]
fn threads_end_a_counter_once(rt: HostRuntime) -> Result<(), Fail> {
    for _counter in 0..50u32 {
        assert_eq!(rt; ends_of_one(&rt, rt.alloc())?, 1);
    }
    Ok(())
}
