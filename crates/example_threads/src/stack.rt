//! A stack that two threads push and pop.
ghost use Rattle.std.specs.Prelude.{◌≡◌, ◌<◌, ⊤, All, IfOk};
ghost use Rattle.example_stack.specs.Calls.{HasNode};
ghost use Rattle.example_threads.specs.Free.{IsFree};

use crate::counted::Counted;
use crate::domains::{end, leave_all, open};
use crate::fault::Fault;
use crate::numbers::{NumberKind, TURNS, payload_of};
use cdrc::{Audit, Deleter, Domain, LoadError, OutOfMemory, Seat, Strong, drop_strong, read};
use crossbeam_utils::Backoff;
use example_stack::{NotPushed, StackLaw, make_node, try_pop, try_push};
use std::alloc::Global;
use std::sync::Wait;
use std::thread;
use std::thread::Threads;

type Stack = StackLaw<NumberKind>;

const CELL: u32 = 0;

/// Pushes a node, however often another thread is quicker. Whether there was an add for it.
fn push<R: Wait>(rt: &R, domain: &Domain<Stack>, seat: &mut Seat<Stack>, node: Strong) -> bool
    requires free { IsFree domain.now seat.old }
    requires cell { domain.now.protocol.cell ≡ 0 }
    requires there { 0 < domain.now.shape.cells }
    requires node { HasNode (λ words. ⊤) node.slot seat.old }
    ensures { IsFree domain.now seat.new }
{
    let backoff = Backoff::new();
    let mut node = node;
    for _try in rt.forever() {
        match try_push(domain, seat, CELL, node) {
            Ok(()) => return true,
            Err(not) => {
                if let LoadError::Spent = not.error {
                    return false;
                }
                node = not.node;
            }
        }
        backoff.spin();
    }
    unreachable!()
}

/// Pops a node, however often another thread is quicker, and tells its number; `None` where the stack is empty, or no
/// add is left.
fn pop<R: Wait>(rt: &R, domain: &Domain<Stack>, seat: &mut Seat<Stack>) -> Option<u64>
    requires free { IsFree domain.now seat.old }
    requires cell { domain.now.protocol.cell ≡ 0 }
    requires there { 0 < domain.now.shape.cells }
    ensures { IsFree domain.now seat.new }
{
    let backoff = Backoff::new();
    for _try in rt.forever() {
        match try_pop(domain, seat, CELL) {
            Ok(found) => return tell(domain, seat, found?),
            Err(LoadError::Spent) => return None,
            Err(_moved) => backoff.spin(),
        }
    }
    unreachable!()
}

/// The number of a node, which is given up.
fn tell(domain: &Domain<Stack>, seat: &mut Seat<Stack>, node: Strong) -> Option<u64>
    requires free { IsFree domain.now seat.old }
    requires node { HasNode (λ words. ⊤) node.slot seat.old }
    ensures { IsFree domain.now seat.new }
{
    let number = read(domain, seat, node.slot(), 0);
    drop_strong(domain, seat, node);
    Some(number)
}

/// Pushes the numbers from 1 to `TURNS`, and counts those that were pushed.
fn push_all<R: Wait>(rt: &R, domain: &Domain<Stack>, seat: &mut Seat<Stack>, counted: &mut Counted)
    requires free { IsFree domain.now seat.old }
    requires cell { domain.now.protocol.cell ≡ 0 }
    requires there { 0 < domain.now.shape.cells }
    ensures { IsFree domain.now seat.new }
{
    for number in 1..=TURNS {
        if let Ok(node) = make_node(domain, seat, &payload_of(number)) {
            if push(rt, domain, seat, node) {
                counted.turn();
            }
        }
    }
}

/// Pops as many, and counts what it found.
fn pop_all<R: Wait>(rt: &R, domain: &Domain<Stack>, seat: &mut Seat<Stack>, counted: &mut Counted)
    requires free { IsFree domain.now seat.old }
    requires cell { domain.now.protocol.cell ≡ 0 }
    requires there { 0 < domain.now.shape.cells }
    ensures { IsFree domain.now seat.new }
{
    for _turn in 0..TURNS {
        if let Some(number) = pop(rt, domain, seat) {
            counted.found(number);
        }
    }
}

/// What one thread does. It hands its seat back.
fn work<R: Wait>(rt: &R, domain: &Domain<Stack>, mut seat: Seat<Stack>) -> (Seat<Stack>, Counted)
    requires free { IsFree domain.now seat }
    requires cell { domain.now.protocol.cell ≡ 0 }
    requires there { 0 < domain.now.shape.cells }
    ensures { IsFree domain.now result.0 }
{
    let mut counted = Counted::new();
    push_all(rt, domain, &mut seat, &mut counted);
    pop_all(rt, domain, &mut seat, &mut counted);
    (seat, counted)
}

/// Each seat in a thread of its own.
fn work_all<R: Threads + Wait + Sync>(
    rt: &R,
    domain: &Domain<Stack>,
    seats: Vec<Seat<Stack>>,
) -> Result<Vec<(Seat<Stack>, Counted)>, OutOfMemory>
    requires free { All (IsFree domain.now) seats.items }
    requires cell { domain.now.protocol.cell ≡ 0 }
    requires there { 0 < domain.now.shape.cells }
    ensures { IfOk result (λ done. All (λ d. IsFree domain.now d.0) done.items) }
{
    thread::map_vec(rt, seats, &|seat| work(rt, domain, seat)).map_err(OutOfMemory::from)
}

/// Two threads push and pop. What they counted, and what is left: nothing, since all was popped.
pub fn run<R: Threads + Wait + Sync>(rt: &R, alloc: Global) -> Result<(Counted, Audit), Fault> {
    let (domain, mut root, seats) = open(alloc, Stack::new(CELL))?;
    let done = work_all(rt, &domain, seats)?;
    let all = leave_all(&domain, &mut root, done);
    let deleter: Deleter<NumberKind, _> = Deleter::keep(|_payload: &[u64; 16]| 0);
    let left = end(alloc, domain, root, &deleter)?;
    Ok((all, left))
}
