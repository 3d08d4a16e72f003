//! The queue is shut, and what ended is destroyed.
ghost use Rattle.std.specs.Prelude.{◌≡◌};
ghost use Rattle.domain_audit.specs.core_events.Steps.{HasRoom};
ghost use Rattle.domain_audit.specs.control_word.Resting.{IsAtRest, IsUnderNone};
ghost use Rattle.words_rest.specs.deleter.Weighing.{Weighs};
ghost use Rattle.domain_audit.specs.domain_rule.Views.{IsAlone};
ghost use Rattle.lane_domain.specs.lane_files.Ready.{IsReady};
ghost use Rattle.lane_reports.specs.Shutting.{ShutsAndSettles};

use domain_audit::{Domain, Seat, settle};
use lane_domain::{HandQueue, NodeKind, RecordKind, Shared, WordsLaw};
use law_lesson::PayloadKind;
use words_rest::{Deleter, Left, PairKind};

/// Shuts the queue, once every other seat has left, and then destroys all that may be destroyed: nothing stays retired
/// and nothing dying. What the seat owns stays. Its steps are those of the queue's `shut` and of `settle`. No make.
pub fn shut_and_settle<F: Fn(&[u64; 16]) -> u64>(
    domain: &Domain<WordsLaw>,
    root: &mut Seat<WordsLaw>,
    shared: &Shared,
    weigh: &Deleter<PairKind<NodeKind, RecordKind>, F>,
)
    requires ready { IsReady domain.now shared.now root.old }
    requires alone { IsAlone root.old.view }
    requires none { IsUnderNone root.old.view.core }
    requires laid { root.old.view.client.0.stand.laid ≡ 2 }
    requires weighs { Weighs ⟦<PairKind<NodeKind, RecordKind> as PayloadKind>⟧.fits
        ⟦<PairKind<NodeKind, RecordKind> as PayloadKind>⟧.weight F.Fn weigh.now }
    ensures shuts { ShutsAndSettles domain.now root.old root.new }
    ensures alone { IsAlone root.new.view }
    ensures none { IsUnderNone root.new.view.core }
    ensures room { HasRoom root.new.view.core }
    ensures rest { IsAtRest domain.now root.new }
{
    shared.queue.shut::<Left, WordsLaw>(domain, root);
    let _weights = settle(domain, root, weigh);
}
