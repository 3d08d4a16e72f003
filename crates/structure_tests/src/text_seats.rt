//! A domain whose seats draw their interns by tickets, for the tests, and how they leave.
ghost use Rattle.std.specs.Prelude.{◌≡◌, ◌<◌, All, IfOk, length, slice_index_or};
ghost use Rattle.part_calls.specs.acquire_retire.Seats.{SeatState};
ghost use Rattle.weak_intern.specs.directory_law.declared.view.View.{View};
ghost use Rattle.structure_tests.specs.Texts.{HasGrants, IsFree};

use part_calls::{Domain, Quota, Seat, Shape, leave, open_domain};
use std::alloc::Global;
use std::test::Fail;
use weak_intern::DirectoryLaw;

/// The interns of all seats together are at most the cells.
pub(crate) const CELLS: u32 = 15_013;

const SHAPE: Shape = Shape {
    seats: 5,
    slots: 1 << 15,
    cells: 0,
    weak_cells: CELLS,
    batch: 16,
};

/// The domain, its seat 0, and its other seats.
pub(crate) struct Opened {
    pub(crate) domain: Domain<DirectoryLaw>,
    pub(crate) root: Seat<DirectoryLaw>,
    pub(crate) others: Vec<Seat<DirectoryLaw>>,
}

/// What a thread is done with: its seat, and how many of its interns were refused.
#[derive(Drop)]
pub(crate) struct Done {
    pub(crate) seat: Seat<DirectoryLaw>,
    pub(crate) refused: u32,
}

/// A domain of five seats, and these seats. Five tickets give interns: four to threads, and the last to seat 0.
fn open_all(
    alloc: Global,
    quotas: &[Quota],
) -> Result<(Domain<DirectoryLaw>, Vec<Seat<DirectoryLaw>>), Fail>
    ensures grants { IfOk result (λ opened. HasGrants opened.0) }
    ensures free { IfOk result (λ opened. All (IsFree opened.0) opened.1.items) }
    ensures first { IfOk result (λ opened. (d : SeatState View)
        → (slice_index_or opened.1.items 0 d).view.core.seat ≡ 0) }
    ensures some { IfOk result (λ opened. 0 < length opened.1.items) }
{
    let interns = vec![in alloc; 2000, 2000, 2000, 2000, 2000]?;
    let law = DirectoryLaw::granted(0, CELLS, interns);
    let opened = open_domain(alloc, SHAPE, quotas, law)?;
    Ok(opened)
}

/// The same, with seat 0 by itself.
pub(crate) fn open(alloc: Global, quotas: &[Quota]) -> Result<Opened, Fail>
    ensures grants { IfOk result (λ opened. HasGrants opened.domain) }
    ensures root { IfOk result (λ opened. IsFree opened.domain opened.root) }
    ensures first { IfOk result (λ opened. opened.root.view.core.seat ≡ 0) }
    ensures others { IfOk result (λ opened. All (IsFree opened.domain) opened.others.items) }
{
    let (domain, mut others) = open_all(alloc, quotas)?;
    let root = others.remove(0);
    Ok(Opened {
        domain,
        root,
        others,
    })
}

/// The seat of the last thread leaves. How many of its interns were refused, or none where there is none.
fn leave_last(
    domain: &Domain<DirectoryLaw>,
    root: &mut Seat<DirectoryLaw>,
    done: &mut Vec<Done>,
) -> Option<u32>
    requires root { IsFree domain.now root.old × (root.old.view.core.seat ≡ 0) }
    requires done { All (λ d. IsFree domain.now d.seat) done.old.items }
    ensures root { IsFree domain.now root.new × (root.new.view.core.seat ≡ 0) }
    ensures done { All (λ d. IsFree domain.now d.seat) done.new.items }
{
    let Done { seat, refused } = done.pop()?;
    leave(domain, root, seat);
    Some(refused)
}

/// All these seats leave, of which there are four. How many had an intern refused; `None` where there are fewer.
pub(crate) fn leave_all(
    domain: &Domain<DirectoryLaw>,
    root: &mut Seat<DirectoryLaw>,
    mut done: Vec<Done>,
) -> Option<u32>
    requires root { IsFree domain.now root.old × (root.old.view.core.seat ≡ 0) }
    requires done { All (λ d. IsFree domain.now d.seat) done.items }
    ensures { IsFree domain.now root.new }
{
    let mut refused: u32 = 0;
    for _seat in 0..4 {
        if leave_last(domain, root, &mut done)? > 0 {
            refused = refused.saturating_add(1);
        }
    }
    Some(refused)
}
