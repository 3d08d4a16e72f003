//! What seat 0 does once all lanes ran to their end.
ghost use Rattle.std.specs.Prelude.{◌≡◌, ◌+◌, ◌≤◌, [], IfErr, IfOk, OnOk, length};
ghost use Rattle.tally_sums.specs.cdrc_text.Text.{IsReport};
ghost use Rattle.domain_audit.specs.core_events.Views.{snapshots};
ghost use Rattle.domain_audit.specs.control_word.Resting.{IsAtRest};
ghost use Rattle.words_rest.specs.deleter.Weighing.{Weighs};
ghost use Rattle.domain_audit.specs.domain_rule.Views.{IsAlone};
ghost use Rattle.lane_domain.specs.Sizes.{IsWithinLimits, texts_in};
ghost use Rattle.lane_domain.specs.lane_files.Work.{IsWork};
ghost use Rattle.lane_domain.specs.lane_files.Ready.{IsReady};
ghost use Rattle.words_rest.specs.words_law.Known.{ForgetsNothing};
ghost use Rattle.lane_reports.specs.Counting.{CountsAll};
ghost use Rattle.lane_reports.specs.Gathering.{EachDid, IsBare};
ghost use Rattle.lane_reports.specs.HolderCounts.{CountsHolders};
ghost use Rattle.lane_reports.specs.Holders.{IsRoot};
ghost use Rattle.lane_reports.specs.Reporting.{HasCounted, HasNothing, KnowsNoneLive, LeftNothing};
ghost use Rattle.lane_reports.specs.Rows.{IsWhyNoReport};

use crate::audits::{audit_at_rest, audit_line};
use crate::done::{Done, Gathered};
use crate::gathering::gather;
use crate::giving::give_all;
use crate::learning::holds_nothing;
use crate::records::find_records;
use crate::refusal::RowsError;
use crate::rows::count_rows;
use crate::shutting::shut_and_settle;
use crate::taking::take_rest;
use domain_audit::{AuditRoom, Domain, Seat, Strong};
use lane_domain::{NodeKind, RecordKind, Shared, WordsLaw, Work, count_pieces};
use law_lesson::PayloadKind;
use std::alloc::Global;
use std::sync::Wait;
use std::thread::Threads;
use tally_sums::{Tally, Totals, report};
use words_rest::{Deleter, PairKind};

/// The report of the files: a row for each word, and the closing lines. What is kept is given up.
fn write_report<R: Threads + Wait + Sync, F: Fn(&[u64; 16]) -> u64>(
    rt: &R,
    alloc: Global,
    domain: &Domain<WordsLaw>,
    root: &mut Seat<WordsLaw>,
    shared: &Shared,
    weigh: &Deleter<PairKind<NodeKind, RecordKind>, F>,
    work: &Work,
    kept: Vec<Strong>,
    tallies: &[Tally],
) -> Result<Vec<u8>, RowsError>
    requires ready { IsRoot domain.now shared.now root.old }
    requires under_none { snapshots root.old.view.core ≡ [] }
    requires counted { HasCounted work.now kept.items tallies.now root.old }
    requires work { IsWork work.now }
    requires cells { domain.now.shape.cells ≡ 2 }
    requires weighs { Weighs ⟦<PairKind<NodeKind, RecordKind> as PayloadKind>⟧.fits
        ⟦<PairKind<NodeKind, RecordKind> as PayloadKind>⟧.weight F.Fn weigh.now }
    ensures why { IfErr result (λ error. IsWhyNoReport domain.now error root.old root.new) }
    ensures report { IfOk result (λ text.
        IsReport (texts_in work.now) work.now.rounds text.items) }
    ensures holders { IfOk result (λ text. CountsHolders work.now root.new text.items) }
    ensures nothing { OnOk result (HasNothing root.new.view.core) }
    ensures live { OnOk result (KnowsNoneLive root.new) }
    ensures left { OnOk result
        (root.new.view.core.left_seats ≡ root.old.view.core.left_seats) }
    ensures queue { OnOk result (root.new.view.client.0 ≡ root.old.view.client.0) }
    ensures knows { OnOk result
        (ForgetsNothing root.old.view.client.1 root.new.view.client.1) }
    ensures alone { IsAlone root.new.view }
    ensures rest { IsAtRest domain.now root.new }
{
    let records = find_records(rt, alloc, domain, root, shared, &kept, tallies)?;
    let mut room = AuditRoom::empty(alloc);
    let held = audit_at_rest(rt, alloc, domain, root, weigh, &mut room)?;
    let rows = count_rows(alloc, domain, root, shared, records)?;
    give_all(domain, root, kept);
    let freed = audit_at_rest(rt, alloc, domain, root, weigh, &mut room)?;
    let totals = Totals {
        files: work.files.len() as u64,
        pieces: count_pieces(work),
        held: audit_line(&held),
        freed: audit_line(&freed),
    };
    Ok(report(alloc, &rows, &totals)?)
}

/// Seat 0 takes over what the lanes have, pops what is left, shuts the queue, and writes the report. It answers that,
/// and the tallies: its own, and then those of the lanes.
pub(crate) fn finish<R: Threads + Wait + Sync, F: Fn(&[u64; 16]) -> u64>(
    rt: &R,
    alloc: Global,
    domain: &Domain<WordsLaw>,
    root: &mut Seat<WordsLaw>,
    shared: &Shared,
    weigh: &Deleter<PairKind<NodeKind, RecordKind>, F>,
    work: &Work,
    done: Vec<Done>,
) -> Result<(Vec<u8>, Vec<Tally>), RowsError>
    requires ready { IsReady domain.now shared.now root.old }
    requires bare { IsBare root.old }
    requires named { root.old.view.client.0.number ≡ 0 }
    requires laid { root.old.view.client.0.stand.laid ≡ 2 }
    requires did { EachDid work.now domain.now 1 done.items }
    requires all { length done.items + 1 ≡ domain.now.shape.seats }
    requires some { 1 ≤ length done.items }
    requires work { IsWork work.now }
    requires within { IsWithinLimits work.now }
    requires cells { domain.now.shape.cells ≡ 2 }
    requires weighs { Weighs ⟦<PairKind<NodeKind, RecordKind> as PayloadKind>⟧.fits
        ⟦<PairKind<NodeKind, RecordKind> as PayloadKind>⟧.weight F.Fn weigh.now }
    ensures why { IfErr result (λ error. IsWhyNoReport domain.now error root.old root.new) }
    ensures report { IfOk result (λ r.
        IsReport (texts_in work.now) work.now.rounds r.0.items) }
    ensures counts { IfOk result (λ r. CountsAll work.now root.new r.1.items) }
    ensures holders { IfOk result (λ r. CountsHolders work.now root.new r.0.items) }
    ensures form { OnOk result
        (root.new.view.client.0.form ≡ root.old.view.client.0.form) }
    ensures queue { OnOk result (LeftNothing root.new.view.client.0) }
    ensures nothing { OnOk result (HasNothing root.new.view.core) }
    ensures live { OnOk result (KnowsNoneLive root.new) }
    ensures alone { OnOk result (IsAlone root.new.view) }
    ensures rest { OnOk result (IsAtRest domain.now root.new) }
{
    let Gathered { tallies, kept } = gather(alloc, domain, root, shared, work, done)?;
    let tallies = take_rest(rt, alloc, domain, root, shared, work, tallies)?;
    shut_and_settle(domain, root, shared, weigh);
    // A look tells that the law holds, and so that all was popped that was pushed.
    let _is_null = holds_nothing(domain, root, 0);
    let text = write_report(rt, alloc, domain, root, shared, weigh, work, kept, &tallies)?;
    Ok((text, tallies))
}
