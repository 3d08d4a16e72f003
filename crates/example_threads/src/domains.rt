//! A domain for two threads, from its opening to its end.
ghost use Rattle.std.specs.Prelude.{◌≡◌, ◌<◌, All, IfOk, length, slice_index_or};
ghost use Rattle.cdrc.specs.acquire_retire.Seats.{SeatState};
ghost use Rattle.cdrc.specs.deleter.Weighing.{Weighs};
ghost use Rattle.cdrc.specs.domain_rule.Views.{IsAlone};
ghost use Rattle.example_threads.specs.Ends.{EndsWith, HasSettled};
ghost use Rattle.example_threads.specs.Free.{IsFree, IsRoot};

use crate::counted::Counted;
use crate::fault::Fault;
use cdrc::{
    Audit, AuditRoom, Deleter, Domain, OutOfMemory, Protocol, Quota, Seat, Shape, audit_by_number,
    leave, open_domain, settle,
};
use std::alloc::Global;

/// Seat 0, which waits until the threads are done, and a seat for each of the two; more slots than objects are ever
/// there at once, and a cell of each kind.
const SHAPE: Shape = Shape {
    seats: 3,
    slots: 4096,
    cells: 1,
    weak_cells: 1,
    batch: 8,
};

/// More than the threads ever use.
const WIDE: Quota = Quota {
    makes: 1 << 40,
    adds: 1 << 40,
};

/// A domain under this protocol, and its seats.
fn open_seats<P: Protocol + Drop>(
    alloc: Global,
    protocol: P,
) -> Result<(Domain<P>, Vec<Seat<P>>), Fault>
    ensures protocol { IfOk result (λ opened. opened.0.protocol ≡ protocol) }
    ensures cells { IfOk result (λ opened. opened.0.shape.cells ≡ 1) }
    ensures weak_cells { IfOk result (λ opened. opened.0.shape.weak_cells ≡ 1) }
    ensures free { IfOk result (λ opened. All (IsFree opened.0) opened.1.items) }
    ensures first { IfOk result (λ opened. (other : SeatState P.View)
        → (slice_index_or opened.1.items 0 other).view.core.seat ≡ 0) }
    ensures some { IfOk result (λ opened. 0 < length opened.1.items) }
{
    let opened = open_domain(alloc, SHAPE, &[WIDE, WIDE, WIDE], protocol)?;
    Ok(opened)
}

/// A domain under this protocol, seat 0, and a seat for each of two threads.
pub fn open<P: Protocol + Drop>(
    alloc: Global,
    protocol: P,
) -> Result<(Domain<P>, Seat<P>, Vec<Seat<P>>), Fault>
    ensures protocol { IfOk result (λ opened. opened.0.protocol ≡ protocol) }
    ensures cells { IfOk result (λ opened. opened.0.shape.cells ≡ 1) }
    ensures weak_cells { IfOk result (λ opened. opened.0.shape.weak_cells ≡ 1) }
    ensures root { IfOk result (λ opened. IsRoot opened.0 opened.1) }
    ensures others { IfOk result (λ opened. All (IsFree opened.0) opened.2.items) }
{
    let (domain, mut others) = open_seats(alloc, protocol)?;
    let root = others.remove(0);
    Ok((domain, root, others))
}

/// The seat of the last thread leaves, and what that thread counted is added.
fn leave_last<P: Protocol>(
    domain: &Domain<P>,
    root: &mut Seat<P>,
    done: &mut Vec<(Seat<P>, Counted)>,
    all: &mut Counted,
)
    requires root { IsRoot domain.now root.old }
    requires done { All (λ d. IsFree domain.now d.0) done.old.items }
    ensures root { IsRoot domain.now root.new }
    ensures done { All (λ d. IsFree domain.now d.0) done.new.items }
{
    if let Some((seat, counted)) = done.pop() {
        leave(domain, root, seat);
        all.add(&counted);
    }
}

/// The seats of all threads leave to seat 0. What the threads counted together.
pub fn leave_all<P: Protocol>(
    domain: &Domain<P>,
    root: &mut Seat<P>,
    mut done: Vec<(Seat<P>, Counted)>,
) -> Counted
    requires root { IsRoot domain.now root.old }
    requires done { All (λ d. IsFree domain.now d.0) done.items }
    ensures { IsRoot domain.now root.new }
{
    let mut all = Counted::new();
    for _seat in 0..done.len() {
        leave_last(domain, root, &mut done, &mut all);
    }
    all
}

/// A seat that is alone destroys all that may be destroyed, and tells what is left.
fn settle_and_audit<P: Protocol, F: Fn(&[u64; 16]) -> u64>(
    alloc: Global,
    domain: &Domain<P>,
    root: &mut Seat<P>,
    deleter: &Deleter<P::Kind, F>,
) -> Result<Audit, OutOfMemory>
    requires free { IsFree domain.now root.old }
    requires alone { IsAlone root.old.view }
    requires weighs { Weighs P.Kind.fits P.Kind.weight F.Fn deleter.now }
    ensures found { IfOk result (HasSettled P.Kind.fits P.Kind.weight root.old root.new) }
    ensures alone { IsAlone root.new.view }
    ensures free { IsFree domain.now root.new }
{
    settle(domain, root, deleter);
    audit_by_number(alloc, domain, root, deleter, &mut AuditRoom::empty(alloc))
}

/// Seat 0 destroys all that may be destroyed, tells what is left, and closes the domain. `Stayed` where another seat
/// hasn't left.
pub fn end<P: Protocol, F: Fn(&[u64; 16]) -> u64>(
    alloc: Global,
    domain: Domain<P>,
    root: Seat<P>,
    deleter: &Deleter<P::Kind, F>,
) -> Result<Audit, Fault>
    requires free { IsFree domain root }
    requires weighs { Weighs P.Kind.fits P.Kind.weight F.Fn deleter.now }
    ensures { IfOk result (EndsWith P.Kind.fits P.Kind.weight (P.law domain.protocol) P.gone
        domain.shape.seats root) }
{
    let mut root = root;
    if !domain.alone(&root) {
        return Err(Fault::Stayed);
    }
    let found = settle_and_audit(alloc, &domain, &mut root, deleter)?;
    domain.close(root);
    Ok(found)
}
