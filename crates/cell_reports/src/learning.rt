//! What a lane that stopped learns of the heads that its seat put into cells.
ghost use Rattle.cell_domain.specs.cell_lanes.Ready.{IsReady};
ghost use Rattle.cell_reports.specs.Parting.{LearnsHeads};

use cell_domain::{CellLaw, EpochDomain, EpochSeat};
use cell_records::{Place, e_look, enter, exit};
use law_lesson::LearnLaw;

/// Learns, by a look at cell 0 in a region of its own, that the heads that the seat put into cells have different
/// texts. Nothing changes but the seat's trail. Four events.
pub(crate) fn learn_heads(domain: &EpochDomain<CellLaw>, seat: &mut EpochSeat<CellLaw>)
    requires ready { IsReady domain.now seat.old }
    ensures learns { LearnsHeads seat.old seat.new }
    ensures ready { IsReady domain.now seat.new }
{
    enter(domain, seat);
    let _found = e_look(domain, seat, Place::Cell(0), LearnLaw);
    exit(domain, seat);
}
