//! What stands in a cell, and what stands behind it.
ghost use Rattle.std.specs.Prelude.{ℕ, ◌≡◌, ◌<◌, false, IfSome, IsNone, [], ◌∷◌};
ghost use Rattle.cell_calls.specs.Cells.{IsOver, area_of};
ghost use Rattle.cell_calls.specs.cell_law.directory_law.Cells.{on};
ghost use Rattle.cell_calls.specs.cell_law.directory_law.Payloads.{IsText, Text};
ghost use Rattle.epoch_domain.specs.epoch_core.Views.{IsInside};
ghost use Rattle.epoch_refs.specs.Walks.{IsAtRest};
ghost use Rattle.cell_finding.specs.Comparing.{GoesOnTo, IsAlong, sighted, sighted_text};
ghost use Rattle.cell_finding.specs.Finding.{ComesToNull, GoesAround, IsOnWalk};
ghost use Rattle.cell_finding.specs.Looking.{OnlyLooks};

use cell_calls::{CellLaw, LookCell, ReadPart};
use epoch_refs::{EpochDomain, EpochSeat, Place, SlotId, e_look};

/// The head that a cell holds, which the seat may read from now on. One event. Where the walk of a text has passed all
/// cells, it tells besides that no cell holds a record of that text, whatever this one holds.
pub(crate) fn head_in(
    domain: &EpochDomain<CellLaw>,
    seat: &mut EpochSeat<CellLaw>,
    cell: u32,
) -> Option<SlotId>
    requires rest { IsAtRest domain.now seat.old }
    requires inside { IsInside seat.old.view.core }
    requires over { IsOver domain.now }
    requires cell { cell < domain.now.shape.cells }
    requires open { seat.old.view.client.cleared ≡ false }
    ensures seen { IfSome result (λ head. IsAlong head head seat.new
        × ((sighted seat.new).cell ≡ cell) × ((sighted seat.new).slots ≡ head ∷ [])) }
    ensures null { IsNone result → (text : Text) (passed : ℕ)
        → cell ≡ on (area_of domain.now.protocol) text passed
        → IsOnWalk domain.now text passed seat.old
        → ComesToNull domain.now text passed seat.old seat.new }
    ensures around { (text : Text) → IsOnWalk domain.now text domain.now.shape.cells seat.old
        → GoesAround domain.now text seat.old seat.new }
    ensures looks { OnlyLooks 1 seat.old seat.new }
    ensures rest { IsAtRest domain.now seat.new }
{
    e_look(domain, seat, Place::Cell(cell), LookCell)
}

/// The part that stands behind the slot that was seen last, where the payloads so far aren't a whole text. One event.
pub(crate) fn part_behind(
    domain: &EpochDomain<CellLaw>,
    seat: &mut EpochSeat<CellLaw>,
    head: SlotId,
    last: SlotId,
) -> SlotId
    requires rest { IsAtRest domain.now seat.old }
    requires inside { IsInside seat.old.view.core }
    requires along { IsAlong head last seat.old }
    requires more { ¬ (IsText (sighted_text seat.old)) }
    ensures goes { GoesOnTo head result seat.old seat.new }
    ensures rest { IsAtRest domain.now seat.new }
{
    let Some(part) = e_look(domain, seat, Place::Field(last, 1), ReadPart) else {
        unreachable!()
    };
    part
}
