//! What a cell holds, as a seat that is alone looks, and that the law holds of the whole state.
ghost use Rattle.std.specs.Prelude.{◌≡◌, ◌<◌, true};
ghost use Rattle.domain_audit.specs.control_word.Resting.{IsAtRest};
ghost use Rattle.domain_audit.specs.domain_rule.Views.{IsAlone};
ghost use Rattle.lane_reports.specs.Learning.{HoldsNothing, LearnsLaw};

use domain_audit::{Domain, EventPlace, Outcome, Seat};
use lane_domain::{NodeKind, RecordKind, WordsLaw};
use law_lesson::{LearnLaw, PayloadKind};
use words_rest::PairKind;

/// Whether a strong cell holds nothing. Each step can tell that the law holds, and this one changes nothing. One step.
pub(crate) fn holds_nothing(domain: &Domain<WordsLaw>, root: &mut Seat<WordsLaw>, cell: u32) -> bool
    requires rest { IsAtRest domain.now root.old }
    requires alone { IsAlone root.old.view }
    requires there { cell < domain.now.shape.cells }
    ensures nothing { result ≡ true → HoldsNothing root.new cell }
    ensures learns { LearnsLaw ⟦<PairKind<NodeKind, RecordKind> as PayloadKind>⟧.fits domain.now
        root.old root.new }
    ensures alone { IsAlone root.new.view }
    ensures rest { IsAtRest domain.now root.new }
{
    // The question tells that a seat which is alone knows the whole core.
    let _alone = domain.alone(root);
    match domain.look(root, EventPlace::Cell(cell), LearnLaw) {
        Outcome::Found(None) => true,
        _ => false,
    }
}
