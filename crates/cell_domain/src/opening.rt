//! How a domain is opened for lanes.
ghost use Rattle.std.specs.Prelude.{◌≤◌, IfOk};
ghost use Rattle.cell_lanes.specs.lane_work.plain_state.Limits.{most_slots};
ghost use Rattle.lane_work.specs.Sizes.{IsWithinLimits, most_lanes};
ghost use Rattle.lane_work.specs.Work.{IsWork};
ghost use Rattle.cell_domain.specs.Opened.{AreLanes, IsDomainFor, IsNewRoot};

use crate::opened::Opened;
use crate::shares::{list_grants, list_quotas};
use cell_lanes::CellLaw;
use epoch_refs::{EpochShape, OpenError, open_epoch};
use lane_work::{OutOfMemory, Work, count_pieces};
use std::alloc::Global;

/// How many cells a head has that lanes may bind: with one for each, cells of words that all differ end up full, and
/// walks along them are long.
const CELLS_FOR_EACH: u64 = 2;

/// Opens a domain for the work, with so many lanes and slots. Its cells hold the records of all words. The seat of a
/// lane may bind a head for each piece of the lane's files in all rounds, and make each slot of their records; seat 0
/// may do neither. Each seat may use 2^40 adds.
///
/// It is refused only where there is no memory, and takes all that the domain ever needs but for what waits to be given
/// up. Linear in the slots and in the pieces of all rounds.
pub fn open_cells(alloc: Global, work: &Work, lanes: u32, slots: u32) -> Result<Opened, OutOfMemory>
    requires work { IsWork work.now }
    requires within { IsWithinLimits work.now }
    requires lanes { (1 ≤ lanes) × (lanes ≤ most_lanes) }
    requires slots { (1 ≤ slots) × (slots ≤ most_slots) }
    ensures domain { IfOk result (λ opened. IsDomainFor work.now lanes slots opened.domain) }
    ensures root { IfOk result (λ opened. IsNewRoot opened.domain opened.root) }
    ensures seats { IfOk result (λ opened. AreLanes opened.domain lanes opened.seats.items) }
{
    let cells = (CELLS_FOR_EACH * (work.rounds * count_pieces(work)) + 1) as u32;
    let shape = EpochShape {
        seats: lanes + 1,
        slots,
        cells,
    };
    let grants = list_grants(alloc, work, lanes)?;
    let quotas = list_quotas(alloc, work, lanes)?;
    match open_epoch(alloc, shape, &quotas, CellLaw::over(0, cells, grants)) {
        Ok((domain, mut seats)) => {
            let root = seats.remove(0);
            Ok(Opened {
                domain,
                root,
                seats,
            })
        }
        Err(OpenError::OutOfMemory) => Err(OutOfMemory),
        Err(OpenError::BadShape(_)) => unreachable!(),
    }
}
