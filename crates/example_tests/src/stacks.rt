//! A stack: in which order it pops, and its refusals.
use crate::domains::open_alone;
use cdrc::{LoadError, Quota, RecordKind, read, record_of};
use example_stack::{StackLaw, make_node, try_pop, try_push};
use std::test::Fail;

// The first word of a record is its length. Two makes are two adds, to push onto a node takes one, and to pop one takes
// one and another where a node is below; a call that might take one more asks that it be left.
#[test]
fn what_was_pushed_last_is_popped_first(rt: HostRuntime) -> Result<(), Fail> {
    let quota = Quota { makes: 2, adds: 7 };
    let law = StackLaw::<RecordKind>::new(0);
    let (domain, mut seat) = open_alone(rt.alloc(), quota, law)?;
    let first = make_node(&domain, &mut seat, &record_of(b"first")).expect(&rt, "a slot");
    assert!(rt; try_push(&domain, &mut seat, 0, first).is_ok());
    let second = make_node(&domain, &mut seat, &record_of(b"second")).expect(&rt, "a slot");
    assert!(rt; try_push(&domain, &mut seat, 0, second).is_ok());
    let Ok(Some(top)) = try_pop(&domain, &mut seat, 0) else {
        panic!(rt; "two nodes")
    };
    assert_eq!(rt; read(&domain, &mut seat, top.slot(), 0), 6);
    let Ok(Some(top)) = try_pop(&domain, &mut seat, 0) else {
        panic!(rt; "a node")
    };
    assert_eq!(rt; read(&domain, &mut seat, top.slot(), 0), 5);
    let Ok(None) = try_pop(&domain, &mut seat, 0) else {
        panic!(rt; "an empty stack")
    };
    Ok(())
}

// Both adds are used by two makes. The node that isn't pushed is handed back.
#[test]
fn a_seat_without_adds_pushes_and_pops_nothing(rt: HostRuntime) -> Result<(), Fail> {
    let quota = Quota { makes: 2, adds: 2 };
    let law = StackLaw::<RecordKind>::new(0);
    let (domain, mut seat) = open_alone(rt.alloc(), quota, law)?;
    let first = make_node(&domain, &mut seat, &record_of(b"first")).expect(&rt, "a slot");
    assert!(rt; try_push(&domain, &mut seat, 0, first).is_ok());
    let second = make_node(&domain, &mut seat, &record_of(b"second")).expect(&rt, "a slot");
    let slot = second.slot();
    let Err(refused) = try_push(&domain, &mut seat, 0, second) else {
        panic!(rt; "no add is left")
    };
    assert!(rt; refused.error == LoadError::Spent && refused.node.slot() == slot);
    let Err(LoadError::Spent) = try_pop(&domain, &mut seat, 0) else {
        panic!(rt; "no add is left")
    };
    Ok(())
}
