//! What seat 0 does once all lanes ran to their end.
ghost use Rattle.std.specs.Prelude.{◌≡◌, [], false, All, IfOk, OnOk, length};
ghost use Rattle.cell_domain.specs.Opened.{IsDomainFor};
ghost use Rattle.cell_gathering.specs.Gathering.{IsBare};
ghost use Rattle.cell_gathering.specs.Ran.{EachRan};
ghost use Rattle.cell_gathering.specs.cdrc_text.Fold.{File};
ghost use Rattle.cell_gathering.specs.cdrc_text.Text.{IsReport};
ghost use Rattle.cell_records.specs.Root.{IsRoot};
ghost use Rattle.cell_records.specs.cell_rest.plain_audit.deleter.Weighing.{Weighs};
ghost use Rattle.cell_records.specs.directory_law.Bytes.{AreBytes, IsPiece, piece_weight};
ghost use Rattle.cell_records.specs.lane_work.Sizes.{IsWithinLimits, texts_in};
ghost use Rattle.cell_records.specs.lane_work.Work.{IsWork};
ghost use Rattle.cell_reports.specs.Counted.{HasCounted};
ghost use Rattle.cell_reports.specs.Last.{IsLastRoot, KnowsNoneLive, ListsWords};

use cell_domain::{CellLaw, EpochDomain, EpochSeat, OutOfMemory, Strong, Work};
use cell_gathering::{Done, Gathered, Tally, gather, words_are_bytes};
use cell_records::{
    Deleter, RecordKind, Totals, audit_at_rest, audit_line, clear_cells, count_pieces, count_rows,
    find_records, give_all, learn_lives, list_ranks, report,
};
use std::alloc::Global;
use std::sync::Wait;
use std::thread::Threads;

/// The report of the files: a row for each word, and the closing lines. The cells are cleared, and what is kept is
/// given up.
fn write_report<R: Threads + Wait + Sync, F: Fn(&[u64; 16]) -> u64>(
    rt: &R,
    alloc: Global,
    domain: &EpochDomain<CellLaw>,
    root: &mut EpochSeat<CellLaw>,
    weigh: &Deleter<RecordKind, F>,
    work: &Work,
    kept: Vec<Strong>,
    tallies: &[Tally],
) -> Result<Vec<u8>, OutOfMemory>
    requires ready { IsRoot domain.now root.old }
    requires open { root.old.view.client.cleared ≡ false }
    requires counted { HasCounted work.now kept.items tallies.now root.old }
    requires small { All (λ (words : File). All AreBytes words) (texts_in work.now) }
    requires work { IsWork work.now }
    requires within { IsWithinLimits work.now }
    requires weighs { Weighs IsPiece piece_weight F.Fn weigh.now }
    ensures report { IfOk result (λ text.
        IsReport (texts_in work.now) work.now.rounds text.items) }
    ensures nothing { OnOk result (root.new.view.core.owned ≡ []) }
    ensures live { OnOk result (KnowsNoneLive root.new) }
    ensures lists { OnOk result (ListsWords (texts_in work.now) root.new.view.client) }
    ensures ready { IsRoot domain.now root.new }
{
    let records = find_records(rt, alloc, domain, root, tallies)?;
    learn_lives(domain, root);
    let rank = list_ranks(alloc, domain.shape().slots)?;
    clear_cells(alloc, domain, root)?;
    let held = audit_at_rest(rt, alloc, domain, root, weigh, &rank)?;
    let rows = count_rows(alloc, &held.image, records)?;
    give_all(domain, root, kept);
    let freed = audit_at_rest(rt, alloc, domain, root, weigh, &rank)?;
    let totals = Totals {
        files: work.files.len() as u64,
        pieces: count_pieces(work),
        held: audit_line(&held.found),
        freed: audit_line(&freed.found),
    };
    Ok(report(alloc, &rows, &totals)?)
}

/// Seat 0 takes over what the lanes have, and writes the report.
pub(crate) fn finish<R: Threads + Wait + Sync, F: Fn(&[u64; 16]) -> u64>(
    rt: &R,
    alloc: Global,
    domain: &EpochDomain<CellLaw>,
    root: &mut EpochSeat<CellLaw>,
    weigh: &Deleter<RecordKind, F>,
    work: &Work,
    done: Vec<Done>,
) -> Result<Vec<u8>, OutOfMemory>
    requires bare { IsBare domain.now root.old }
    requires ran { EachRan domain.now work.now (length done.items) done.items }
    requires work { IsWork work.now }
    requires within { IsWithinLimits work.now }
    requires domain { IsDomainFor work.now (length done.items) domain.now.shape.slots domain.now }
    requires weighs { Weighs IsPiece piece_weight F.Fn weigh.now }
    ensures report { IfOk result (λ text.
        IsReport (texts_in work.now) work.now.rounds text.items) }
    ensures root { OnOk result (IsLastRoot work.now (length done.items) domain.now.shape.slots
        root.new) }
{
    words_are_bytes(work);
    let Gathered { tallies, kept } = gather(alloc, domain, root, work, done)?;
    let text = write_report(rt, alloc, domain, root, weigh, work, kept, &tallies)?;
    Ok(text)
}
