//! The law, as a seat that is alone learns it.
ghost use Rattle.std.specs.Prelude.{◌≡◌, ◌<◌};
ghost use Rattle.domain_audit.specs.domain_rule.Views.{IsAlone, own_of};
ghost use Rattle.seat_life.specs.Free.{IsFree};
ghost use Rattle.seat_life.specs.Learning.{KnowsLaw, but_for_trail};

use domain_audit::{Domain, EventPlace, Protocol, Seat};
use law_lesson::LearnLaw;

/// Learns that the law of the domain's protocol holds of the whole state, which a seat that is alone knows, and of the
/// views of all seats, its own first. All that the seats which left had is nothing there, and each object that lives is
/// referred to. Nothing of the seat changes but its trail. One step, a look at strong cell 0.
pub fn learn_law<P: Protocol>(domain: &Domain<P>, root: &mut Seat<P>)
    requires free { IsFree domain.now root.old }
    requires alone { IsAlone root.old.view }
    requires there { 0 < domain.now.shape.cells }
    ensures law { KnowsLaw P.Kind.fits (P.law domain.now.protocol) P.gone root.new.view }
    ensures whole { (own_of root.new.view).whole ≡ (own_of root.old.view).whole }
    ensures client { root.new.view.client ≡ root.old.view.client }
    ensures core { but_for_trail root.new.view.core ≡ but_for_trail root.old.view.core }
    ensures alone { IsAlone root.new.view }
    ensures free { IsFree domain.now root.new }
{
    // The question tells that a seat which is alone knows the whole core.
    let _alone = domain.alone(root);
    domain.look(root, EventPlace::Cell(0), LearnLaw);
}
