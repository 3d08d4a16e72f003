//! The cells are cleared.
ghost use Rattle.std.specs.Prelude.{◌≡◌, ◌<◌, true, OnOk};
ghost use Rattle.cell_records.specs.Clearing.{ClearsCells};
ghost use Rattle.cell_records.specs.Root.{IsRoot};
ghost use Rattle.epoch_alone.specs.Cells.{ClearsCell};

use cell_intern::{CellLaw, ClearCell, EpochDomain, EpochSeat, Place, e_store};
use epoch_alone::lone_knows;
use std::alloc::Global;
use tally_sums::OutOfMemory;

/// Puts null into each cell, so that the records stay alive by the seat's own references alone. At most two events for
/// each cell. `OutOfMemory` comes of an allocation failure; some cells may be cleared then.
pub fn clear_cells(
    alloc: Global,
    domain: &EpochDomain<CellLaw>,
    root: &mut EpochSeat<CellLaw>,
) -> Result<(), OutOfMemory>
    requires ready { IsRoot domain.now root.old }
    ensures clears { OnOk result (ClearsCells root.old root.new) }
    ensures ready { IsRoot domain.now root.new }
{
    for cell in 0..domain.shape().cells {
        clear_cell(alloc, domain, root, cell)?;
    }
    Ok(())
}

/// Puts null into one cell.
fn clear_cell(
    alloc: Global,
    domain: &EpochDomain<CellLaw>,
    root: &mut EpochSeat<CellLaw>,
    cell: u32,
) -> Result<(), OutOfMemory>
    requires ready { IsRoot domain.now root.old }
    requires cell { cell < domain.now.shape.cells }
    ensures clears { OnOk result (ClearsCell cell root.old root.new) }
    ensures client { OnOk result
        (root.new.view.client ≡ record root.old.view.client { cleared = true }) }
    ensures ready { IsRoot domain.now root.new }
{
    lone_knows(domain, root);
    match e_store(alloc, domain, root, Place::Cell(cell), None, ClearCell) {
        Ok(()) => Ok(()),
        Err(_) => Err(OutOfMemory),
    }
}
