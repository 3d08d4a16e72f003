//! Audits, laws and walks of heaps that are built by hand. What each finds is worked out from the rules.
ghost use Rattle.std.specs.Prelude.{◌≤◌, ◌<◌, ◌^◌, All, IsTrue, slice_index};

use cdrc_scripts::{
    Deleter, Heap, Kind, PayloadKind, SlotId, SlotImage, ZERO, audit, check_walk, lawful,
};
use std::alloc::{AllocError, Global};
use std::cell::Cell;
use std::test::Fail;

/// Payloads that weigh their first word.
struct FirstWord;

impl PayloadKind for FirstWord {
    ghost fits = { λ words. slice_index words 0 ≤ 2 ^ 32 };

    ghost weight = { λ words. slice_index words 0 };

    fn weigh(payload: &[u64; 16]) -> u64 {
        payload[0]
    }

    ghost bounded = { λ words fits. fits };
}

/// A slot of a table: its strong count, the words of its fields, its weight and its rank. The word of slot n is n + 1.
type Row = (u64, [u64; 2], u64, u64);

const FREE: Row = (ZERO, [0, 0], 0, 0);

const ALONE: Row = (1, [0, 0], 1, 1);

fn heap_of(
    alloc: Global,
    rows: &[Row],
    cells: &[u64],
    deferred: &[(Kind, SlotId)],
) -> Result<Heap, AllocError> {
    let mut slots = Vec::new(alloc);
    for (strong, fields, weight, _rank) in rows {
        slots.push(SlotImage {
            strong: *strong,
            weak: 1,
            fields: *fields,
            weak_field: 0,
            payload: [*weight, 0, 0, 0, 0, 0, 0, 0, 0, 0, 0, 0, 0, 0, 0, 0],
        })?;
    }
    Ok(Heap {
        slots,
        cells: Vec::from_slice(alloc, cells)?,
        weak_cells: Vec::new(alloc),
        deferred: Vec::from_slice(alloc, deferred)?,
    })
}

fn fits(slots: &[SlotImage]) -> bool
    ensures { IsTrue result
        → All (λ x. x.strong < 2 ^ 63 → slice_index x.payload 0 ≤ 2 ^ 32) slots.now }
{
    slots.iter().all(|x| x.payload[0] <= 1 << 32)
}

const S: [SlotId; 5] = [SlotId(0), SlotId(1), SlotId(2), SlotId(3), SlotId(4)];

/// A heap by its slots, cells and deferred entries; how many objects live, how many entries are deferred, how many
/// objects cycles keep, and what all weigh; and the walk.
type Audited<'a> = (
    &'a [Row],
    &'a [u64],
    &'a [(Kind, SlotId)],
    (u64, u64, u64, u64),
    &'a [SlotId],
);

const AUDITS: [Audited<'static>; 5] = [
    // A cycle of two.
    (
        &[(1, [2, 0], 2, 1), (1, [0, 1], 1, 2)],
        &[],
        &[],
        (2, 0, 2, 3),
        &[SlotId(0), SlotId(1)],
    ),
    // A slot that holds itself, and a cell that is null.
    (&[(1, [1, 0], 1, 1)], &[0], &[], (1, 0, 1, 1), &[SlotId(0)]),
    // 4 holds 2, 2 holds 3, 3 holds 4. 3 holds 1 too, and 1 holds 0. 0 has the least rank, then 3.
    (
        &[
            (1, [0, 0], 1, 1),
            (1, [1, 0], 1, 5),
            (1, [4, 0], 1, 4),
            (1, [5, 2], 1, 2),
            (1, [0, 3], 1, 3),
        ],
        &[],
        &[],
        (5, 0, 5, 5),
        &[SlotId(3), SlotId(4), SlotId(2)],
    ),
    // Two cycles, of which the second has the least rank.
    (
        &[
            (1, [2, 0], 7, 9),
            (1, [1, 0], 1, 8),
            FREE,
            (1, [5, 0], 1, 7),
            (1, [4, 0], 1, 3),
        ],
        &[],
        &[],
        (4, 0, 4, 10),
        &[SlotId(4), SlotId(3)],
    ),
    // 0 is in a cell, 1 has an owned reference, 2 is deferred, and 3 is held by 2.
    (
        &[
            (1, [0, 0], 1, 1),
            (1, [0, 0], 2, 2),
            (1, [4, 0], 4, 3),
            (1, [0, 0], 8, 4),
            FREE,
        ],
        &[1],
        &[(Kind::Strong, SlotId(2)), (Kind::Weak, SlotId(1))],
        (4, 2, 0, 15),
        &[],
    ),
];

// An audit weighs each object that lives once.
#[test]
fn audits_of_images(rt: HostRuntime) -> Result<(), Fail> {
    let alloc = rt.alloc();
    for (rows, cells, deferred, sums, walk) in AUDITS {
        let heap = heap_of(alloc, rows, cells, deferred)?;
        let mut rank = Vec::new(alloc);
        for row in rows {
            rank.push(row.3)?;
        }
        assert!(rt; rank.len() == heap.slots.len() && heap.slots.len() <= 5);
        assert!(rt; lawful(&heap));
        assert!(rt; fits(&heap.slots));
        let calls = Cell::new(0u64);
        let weigh: Deleter<FirstWord, _> = Deleter::keep(|payload: &[u64; 16]| {
            calls.set(calls.get().wrapping_add(1));
            payload[0]
        });
        let found = audit(alloc, &heap, &weigh, &rank)?;
        assert!(rt;
            (found.live, found.deferred, found.cyclic, found.bytes) == sums,
            "{found:?}"
        );
        assert!(rt; found.walk.as_slice() == walk, "{found:?}");
        assert!(rt; calls.get() == found.live, "{found:?}");
    }
    Ok(())
}

#[test]
fn images_that_are_lawful(rt: HostRuntime) -> Result<(), Fail> {
    let strong = [(Kind::Strong, S[0])];
    let weak = [(Kind::Weak, S[0])];
    let none: [(Kind, SlotId); 0] = [];
    let to_second = (1, [2, 0], 1, 1);
    for (rows, cells, deferred, holds) in [
        // A count covers its places and its deferred entries.
        ([ALONE, FREE], [1, 0], none.as_slice(), true),
        ([ALONE, FREE], [1, 1], &none, false),
        ([ALONE, FREE], [1, 2], &none, false),
        ([ALONE, FREE], [1, 3], &none, false),
        ([ALONE, FREE], [0, 0], &strong, true),
        ([ALONE, FREE], [1, 0], &strong, false),
        ([ALONE, FREE], [1, 0], &weak, true),
        ([ALONE, FREE], [1, 0], &[(Kind::Weak, S[2])], false),
        // A slot that isn't live has no field and no reference.
        ([to_second, (2, [1, 0], 1, 2)], [0, 0], &none, true),
        ([to_second, (2, [1, 1], 1, 2)], [0, 0], &none, false),
        ([to_second, FREE], [0, 0], &none, false),
        ([ALONE, (0, [0, 0], 1, 2)], [0, 0], &none, false),
        ([ALONE, (ZERO, [1, 0], 1, 2)], [0, 0], &none, false),
    ] {
        let heap = heap_of(rt.alloc(), &rows, &cells, deferred)?;
        assert!(rt; lawful(&heap) == holds, "{rows:?} {cells:?} {deferred:?}");
    }
    Ok(())
}

#[test]
fn walks_that_go_round(rt: HostRuntime) -> Result<(), Fail> {
    let rows = [
        (1, [2, 0], 1, 1),
        (1, [3, 0], 1, 2),
        (1, [0, 1], 1, 3),
        FREE,
    ];
    let heap = heap_of(rt.alloc(), &rows, &[], &[])?;
    let (one, two, three) = (S[0], S[1], S[2]);
    for (walk, goes_round) in [
        ([one, two, three].as_slice(), true),
        (&[two, three, one], true),
        (&[], false),
        (&[one, two], false),
        (&[one, three, two], false),
        (&[S[3]], false),
        (&[S[4]], false),
    ] {
        assert!(rt; check_walk(&heap, walk) == goes_round, "{walk:?}");
    }
    Ok(())
}
