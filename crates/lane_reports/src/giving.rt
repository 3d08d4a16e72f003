//! The references that are kept are given up.
ghost use Rattle.std.specs.Prelude.{◌≡◌, ◌≤◌};
ghost use Rattle.domain_audit.specs.core_events.Steps.{HasRoom};
ghost use Rattle.domain_audit.specs.control_word.Resting.{IsAtRest};
ghost use Rattle.law_lesson.specs.plain_state.declared.slot.SlotId.{SlotId};
ghost use Rattle.law_lesson.specs.plain_state.Lists.{times};
ghost use Rattle.lane_domain.specs.lane_files.Keeping.{GivesUp, slots_of};
ghost use Rattle.lane_reports.specs.Trails.{GoesOnAlone};

use domain_audit::{Domain, Seat, Strong, drop_strong};
use lane_domain::WordsLaw;

/// Gives up references that the seat owns. At most three steps for each.
pub fn give_all(domain: &Domain<WordsLaw>, root: &mut Seat<WordsLaw>, kept: Vec<Strong>)
    requires rest { IsAtRest domain.now root.old }
    requires room { HasRoom root.old.view.core }
    requires owned { (s : SlotId) → times s (slots_of kept.items)
        ≤ times s root.old.view.core.owned }
    ensures gives { GivesUp (slots_of kept.items) root.old root.new }
    ensures client { root.new.view.client ≡ root.old.view.client }
    ensures trail { GoesOnAlone root.old.view.core root.new.view.core }
    ensures room { HasRoom root.new.view.core }
    ensures rest { IsAtRest domain.now root.new }
{
    for handle in kept {
        drop_strong(domain, root, handle);
    }
}
