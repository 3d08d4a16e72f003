//! How a seat that is alone learns the law of its domain's protocol.
ghost use Rattle.std.specs.Prelude.{◌<◌};
ghost use Rattle.epoch_refs.specs.epoch_rule.Views.{IsAlone};
ghost use Rattle.epoch_refs.specs.Walks.{IsFree};
ghost use Rattle.epoch_alone.specs.Lone.{KnowsLaw, StaysAll};

use epoch_refs::{EpochDomain, EpochSeat, Place, Protocol, e_look, enter, exit};
use law_lesson::LearnLaw;

/// Learns that the law of the domain's protocol holds of the whole state, by a look at cell 0 in a region of its own.
/// The state is as it was, and so is what the seat has and knows but for its trail. Four events.
pub fn learn_law<P: Protocol>(domain: &EpochDomain<P>, seat: &mut EpochSeat<P>)
    requires free { IsFree domain.now seat.old }
    requires alone { IsAlone seat.old.view }
    requires cells { 0 < domain.now.shape.cells }
    ensures law { KnowsLaw P.Kind.fits domain.now (P.law domain.now.protocol) P.gone
        seat.new.view }
    ensures stays { StaysAll seat.old seat.new }
    ensures free { IsFree domain.now seat.new }
    ensures alone { IsAlone seat.new.view }
{
    let _alone = domain.alone(seat);
    enter(domain, seat);
    let _found = e_look(domain, seat, Place::Cell(0), LearnLaw);
    exit(domain, seat);
}
