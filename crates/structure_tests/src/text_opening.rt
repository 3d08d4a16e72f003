//! A domain of one seat with a directory, for the tests, and what that seat does at the end.
ghost use Rattle.std.specs.Prelude.{◌≡◌, ◌≤◌, IfOk};
ghost use Rattle.structure_tests.specs.Texts.{HasLeft, IsReady};

use part_calls::{
    Deleter, Domain, OutOfMemory, PayloadKind, Quota, Seat, Shape, open_domain, settle,
};
use std::alloc::Global;
use std::test::Fail;
use weak_intern::{DirectoryLaw, RecordKind};

/// As much as a seat may ever have.
pub(crate) const WIDE: Quota = Quota {
    makes: 1 << 40,
    adds: 1 << 40,
};

pub(crate) const ZERO: u64 = 9_223_372_036_854_775_808;

/// A domain of one seat that may intern so many texts, with a directory of so many cells, and that seat.
pub(crate) fn open_alone(
    alloc: Global,
    cells: u32,
    interns: u64,
    slots: u32,
    quota: Quota,
) -> Result<(Domain<DirectoryLaw>, Seat<DirectoryLaw>), Fail>
    requires few { interns ≤ cells }
    ensures ready { IfOk result (λ r. IsReady r.0 r.1) }
    ensures left { IfOk result (λ r. HasLeft interns r.1) }
    ensures law { IfOk result (λ r. (r.0.protocol.first ≡ 0) × (r.0.protocol.cells ≡ cells)
        × (r.0.shape.weak_cells ≡ cells)) }
{
    let shape = Shape {
        seats: 1,
        slots,
        cells: 0,
        weak_cells: cells,
        batch: 1,
    };
    let law = DirectoryLaw::new(0, cells, vec![in alloc; interns]?);
    let (domain, mut seats) = open_domain(alloc, shape, &[quota], law)?;
    Ok((domain, seats.remove(0)))
}

/// Settles: the weight of what was destroyed, and how many objects live or entries are deferred afterwards. `None`
/// where another seat is there.
pub(crate) fn settle_texts(
    alloc: Global,
    domain: &Domain<DirectoryLaw>,
    root: &mut Seat<DirectoryLaw>,
) -> Result<Option<(u64, usize)>, OutOfMemory>
    requires { IsReady domain.now root.old }
{
    let deleter: Deleter<RecordKind, _> = Deleter::keep(|payload: &[u64; 16]| {
        <RecordKind as PayloadKind>::weigh(payload)
    });
    if !domain.alone(root) {
        return Ok(None);
    }
    let weight = settle(domain, root, &deleter);
    let heap = domain.image(alloc, root)?;
    let live = heap.slots.iter().filter(|slot| slot.strong < ZERO).count();
    Ok(Some((weight, live.saturating_add(heap.deferred.len()))))
}
