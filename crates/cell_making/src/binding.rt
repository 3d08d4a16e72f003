//! A head that goes into a cell.
ghost use Rattle.std.specs.Prelude.{◌≡◌, ◌<◌, IfErr, IfOk, Result, Ok, Err};
ghost use Rattle.cell_calls.specs.cell_law.Making.{binds};
ghost use Rattle.cell_calls.specs.Cells.{HasBind, IsOver};
ghost use Rattle.cell_calls.specs.Keeping.{Keeps};
ghost use Rattle.epoch_refs.specs.Walks.{IsAtRest};
ghost use Rattle.cell_making.specs.Making.{IsFew};
ghost use Rattle.cell_making.specs.Bindings.{CanBind, IsAnothers, IsBack, WinsAt, owned_after};

use crate::refusals::BindError;
use cell_calls::{BindCell, CellLaw};
use epoch_refs::{ECasError, EpochDomain, EpochSeat, Place, Strong, e_cas};
use std::alloc::Global;

/// Puts the head of a record into the null cell at which the walk of its text has come, by a seat that may put one head
/// more into a cell. Then it is the record of its text, and there was none before.
///
/// `Lost` comes exactly where the cell holds another head at that event, which the seat has seen there then; where it
/// had seen nothing there before, other seats may put heads into cells too. `OutOfMemory` comes before any event. The
/// head is given back, and still noted last. One event.
pub fn bind(
    alloc: Global,
    domain: &EpochDomain<CellLaw>,
    seat: &mut EpochSeat<CellLaw>,
    cell: u32,
    head: Strong,
) -> Result<(), BindError>
    requires rest { IsAtRest domain.now seat.old }
    requires over { IsOver domain.now }
    requires granted { HasBind seat.old }
    requires can { CanBind domain.now cell head.slot seat.old }
    ensures bound { IfOk result (λ u. seat.new.view.client
        ≡ binds cell seat.old.view.client) }
    ensures won { IfOk result (λ u. WinsAt domain.now cell head.slot seat.old seat.new) }
    ensures back { IfErr result (λ error. IsBack cell head error seat.old.view.client
        seat.new.view.client) }
    ensures lost { IfErr result (λ error. IsAnothers domain.now cell error seat.old) }
    ensures keeps { Keeps 0 0 (owned_after result head.slot seat.old.view.core.owned) seat.old
        seat.new }
    ensures event { IsFew 1 seat.old seat.new }
    ensures rest { IsAtRest domain.now seat.new }
{
    match e_cas(
        alloc,
        domain,
        seat,
        Place::Cell(cell),
        None,
        Some(head),
        BindCell,
    ) {
        Ok(()) => Ok(()),
        Err(ECasError::Lost { now: _, back }) => {
            let Some(head) = back else { unreachable!() };
            Err(BindError::Lost(head))
        }
        Err(ECasError::OutOfMemory(refused)) => {
            let Some(head) = refused.back else {
                unreachable!()
            };
            Err(BindError::OutOfMemory(head))
        }
    }
}
