//! The audits before and after seat 0 gives up what it keeps.
ghost use Rattle.std.specs.Prelude.{◌≡◌, [], IfOk, IfSome};
ghost use Rattle.domain_audit.specs.core_events.Steps.{HasRoom};
ghost use Rattle.domain_audit.specs.core_events.Views.{snapshots};
ghost use Rattle.domain_audit.specs.control_word.Resting.{IsAtRest};
ghost use Rattle.words_rest.specs.deleter.Weighing.{Weighs};
ghost use Rattle.domain_audit.specs.domain_rule.Views.{IsAlone};
ghost use Rattle.law_lesson.specs.plain_state.declared.slot.SlotId.{SlotId};
ghost use Rattle.law_lesson.specs.plain_state.Lists.{times};
ghost use Rattle.domain_audit.specs.acquire_retire.Collecting.{rest_of};
ghost use Rattle.domain_audit.specs.Audits.{numbers};
ghost use Rattle.lane_reports.specs.Audits.{IsAudited, KnowsOwned};
ghost use Rattle.words_rest.specs.Written.{line_of};
ghost use Rattle.lane_reports.specs.Reporting.{HasNothingDeferred};
ghost use Rattle.lane_reports.specs.Trails.{GoesOnAlone};

use crate::learning::holds_nothing;
use domain_audit::{Audit, AuditRoom, Domain, Seat, audit_by_number, settle};
use lane_domain::{NodeKind, RecordKind, WordsLaw};
use law_lesson::PayloadKind;
use std::alloc::Global;
use std::sync::Wait;
use tally_sums::{AuditLine, OutOfMemory};
use words_rest::{Deleter, PairKind};

/// The numbers of an audit, without the walk round a cycle.
pub(crate) fn audit_line(found: &Audit) -> AuditLine
    ensures { result ≡ line_of found.now }
{
    AuditLine {
        live: found.live,
        deferred: found.deferred,
        cyclic: found.cyclic,
        bytes: found.bytes,
    }
}

/// Audits the domain once its seat has settled. None where an object is unreached, or a cell of the queue holds
/// anything.
fn audit_settled<F: Fn(&[u64; 16]) -> u64>(
    alloc: Global,
    domain: &Domain<WordsLaw>,
    root: &mut Seat<WordsLaw>,
    weigh: &Deleter<PairKind<NodeKind, RecordKind>, F>,
    room: &mut AuditRoom,
) -> Result<Option<Audit>, OutOfMemory>
    requires rest { IsAtRest domain.now root.old }
    requires room { HasRoom root.old.view.core }
    requires alone { IsAlone root.old.view }
    requires under_none { snapshots root.old.view.core ≡ [] }
    requires weakly { (s : SlotId) → times s root.old.view.core.weaks ≡ 0 }
    requires settled { HasNothingDeferred root.old.view.core }
    requires cells { domain.now.shape.cells ≡ 2 }
    requires weighs { Weighs ⟦<PairKind<NodeKind, RecordKind> as PayloadKind>⟧.fits
        ⟦<PairKind<NodeKind, RecordKind> as PayloadKind>⟧.weight F.Fn weigh.now }
    ensures found { IfOk result (λ audit. IfSome audit
        (IsAudited ⟦<PairKind<NodeKind, RecordKind> as PayloadKind>⟧.fits
        ⟦<PairKind<NodeKind, RecordKind> as PayloadKind>⟧.weight
        (numbers domain.now.shape.slots) domain.now root.new)) }
    ensures settled { HasNothingDeferred root.new.view.core }
    ensures same { rest_of root.new.view.core ≡ rest_of root.old.view.core }
    ensures objects { KnowsOwned root.old root.new }
    ensures client { root.new.view.client ≡ root.old.view.client }
    ensures trail { GoesOnAlone root.old.view.core root.new.view.core }
    ensures alone { IsAlone root.new.view }
    ensures room { HasRoom root.new.view.core }
    ensures rest { IsAtRest domain.now root.new }
{
    let found = audit_by_number(alloc, domain, root, weigh, room)?;
    let head_is_null = holds_nothing(domain, root, 0);
    let tail_is_null = holds_nothing(domain, root, 1);
    if found.cyclic == 0 && head_is_null && tail_is_null {
        return Ok(Some(found));
    }
    Ok(None)
}

/// Settles and audits, until no object is unreached and no cell of the queue holds anything: so the call may wait. No
/// law excludes that a node is left which only its own field holds, nor that the tail cell of a queue that was shut is
/// set again; an audit that finds nothing unreached, and a look, tell that it isn't so.
pub(crate) fn audit_at_rest<R: Wait, F: Fn(&[u64; 16]) -> u64>(
    rt: &R,
    alloc: Global,
    domain: &Domain<WordsLaw>,
    root: &mut Seat<WordsLaw>,
    weigh: &Deleter<PairKind<NodeKind, RecordKind>, F>,
    room: &mut AuditRoom,
) -> Result<Audit, OutOfMemory>
    requires rest { IsAtRest domain.now root.old }
    requires room { HasRoom root.old.view.core }
    requires alone { IsAlone root.old.view }
    requires under_none { snapshots root.old.view.core ≡ [] }
    requires weakly { (s : SlotId) → times s root.old.view.core.weaks ≡ 0 }
    requires cells { domain.now.shape.cells ≡ 2 }
    requires weighs { Weighs ⟦<PairKind<NodeKind, RecordKind> as PayloadKind>⟧.fits
        ⟦<PairKind<NodeKind, RecordKind> as PayloadKind>⟧.weight F.Fn weigh.now }
    ensures found { IfOk result (IsAudited
        ⟦<PairKind<NodeKind, RecordKind> as PayloadKind>⟧.fits
        ⟦<PairKind<NodeKind, RecordKind> as PayloadKind>⟧.weight (numbers domain.now.shape.slots) domain.now root.new) }
    ensures settled { HasNothingDeferred root.new.view.core }
    ensures same { rest_of root.new.view.core ≡ rest_of root.old.view.core }
    ensures objects { KnowsOwned root.old root.new }
    ensures client { root.new.view.client ≡ root.old.view.client }
    ensures trail { GoesOnAlone root.old.view.core root.new.view.core }
    ensures alone { IsAlone root.new.view }
    ensures room { HasRoom root.new.view.core }
    ensures rest { IsAtRest domain.now root.new }
{
    for _try in rt.forever() {
        let _weights = settle(domain, root, weigh);
        if let Some(found) = audit_settled(alloc, domain, root, weigh, room)? {
            return Ok(found);
        }
    }
    unreachable!()
}
