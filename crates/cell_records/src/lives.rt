//! In which lives the records are that the seat owns.
ghost use Rattle.std.specs.Prelude.{◌≡◌, false};
ghost use Rattle.cell_records.specs.Lives.{KnowsLives};
ghost use Rattle.cell_records.specs.Root.{IsRoot};
ghost use Rattle.epoch_alone.specs.Lone.{StaysAll};

use cell_intern::{CellLaw, EpochDomain, EpochSeat};
use epoch_alone::learn_law;

/// Learns, as long as no cell is cleared, that the records of which the view tells are in the lives in which the seat
/// knows them, where it owns them. Four events, by which nothing changes.
pub fn learn_lives(domain: &EpochDomain<CellLaw>, root: &mut EpochSeat<CellLaw>)
    requires ready { IsRoot domain.now root.old }
    requires open { root.old.view.client.cleared ≡ false }
    ensures lives { KnowsLives root.new }
    ensures stays { StaysAll root.old root.new }
    ensures ready { IsRoot domain.now root.new }
{
    learn_law(domain, root);
}
