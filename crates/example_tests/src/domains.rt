//! A domain of one seat.
ghost use Rattle.std.specs.Prelude.{◌≡◌, IfOk};
ghost use Rattle.cdrc.specs.core_events.Steps.{HasRoom};
ghost use Rattle.cdrc.specs.control_word.Resting.{IsAtRest};

use cdrc::{Domain, OpenError, Protocol, Quota, Seat, Shape, open_domain};
use std::alloc::Global;

/// A domain of two slots and a cell of each kind under this protocol, and its only seat.
pub fn open_alone<P: Protocol + Drop>(
    alloc: Global,
    quota: Quota,
    protocol: P,
) -> Result<(Domain<P>, Seat<P>), OpenError>
    ensures protocol { IfOk result (λ opened. opened.0.protocol ≡ protocol) }
    ensures cells { IfOk result (λ opened. opened.0.shape.cells ≡ 1) }
    ensures weak_cells { IfOk result (λ opened. opened.0.shape.weak_cells ≡ 1) }
    ensures rest { IfOk result (λ opened. IsAtRest opened.0 opened.1) }
    ensures room { IfOk result (λ opened. HasRoom opened.1.view.core) }
{
    let shape = Shape {
        seats: 1,
        slots: 2,
        cells: 1,
        weak_cells: 1,
        batch: 1,
    };
    let (domain, mut seats) = open_domain(alloc, shape, &[quota], protocol)?;
    Ok((domain, seats.remove(0)))
}
