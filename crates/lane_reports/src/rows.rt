//! The row of each word.
ghost use Rattle.std.specs.Prelude.{◌≡◌, ◌<◌, ◌++◌, false, IfOk, Some};
ghost use Rattle.std.specs.List.{All};
ghost use Rattle.lane_domain.specs.directory_calls.Steps.{Leaves};
ghost use Rattle.law_lesson.specs.plain_state.Lists.{times};
ghost use Rattle.law_lesson.specs.plain_state.State.{Plain};
ghost use Rattle.domain_audit.specs.control_word.Calls.{counted_by};
ghost use Rattle.domain_audit.specs.domain_rule.Views.{own_of};
ghost use Rattle.lane_reports.specs.HolderCounts.{counts_of};
ghost use Rattle.lane_reports.specs.Holders.{IsCount, IsRoot};
ghost use Rattle.lane_reports.specs.Rows.{AreRowsOf, IsOwnedBy, IsRowOf, slots_in};

use crate::records::WordRecord;
use domain_audit::{Domain, Seat, SlotId, strong_count};
use lane_domain::{NodeKind, RecordKind, Shared, WordsLaw};
use law_lesson::{LearnLaw, PayloadKind};
use std::alloc::Global;
use tally_sums::{OutOfMemory, Row};
use words_rest::PairKind;

/// A row for each record: how often its word was counted, how many references it has, and the word. The seat is
/// alone and owns a reference to each. One step for each record, which counts its references, and no other.
/// `OutOfMemory` comes of an allocation failure.
pub(crate) fn count_rows<'a>(
    alloc: Global,
    domain: &Domain<WordsLaw>,
    root: &mut Seat<WordsLaw>,
    shared: &Shared,
    records: Vec<WordRecord<'a>>,
) -> Result<Vec<Row<'a>>, OutOfMemory>
    requires ready { IsRoot domain.now shared.now root.old }
    requires owned { All (IsOwnedBy root.old) records.items }
    ensures rows { IfOk result (λ rows. (p : Plain) → (own_of root.old.view).whole ≡ Some p
        → AreRowsOf p records.entry.items rows.items) }
    ensures trail { IfOk result (λ rows. root.new.view.core.trail
        ≡ root.old.view.core.trail ++ counts_of (slots_in records.entry.items) rows.items) }
    ensures whole { (own_of root.new.view).whole ≡ (own_of root.old.view).whole }
    ensures leaves { Leaves root.old.view.core.owned root.old.view.core.weaks root.old root.new }
    ensures client { root.new.view.client ≡ root.old.view.client }
    ensures ready { IsRoot domain.now shared.now root.new }
{
    let mut rows = Vec::with_capacity(alloc, records.len())?;
    for of in records {
        rows.push_reserved(count_row(domain, root, shared, of));
    }
    Ok(rows)
}

/// The row of a record.
fn count_row<'a>(
    domain: &Domain<WordsLaw>,
    root: &mut Seat<WordsLaw>,
    shared: &Shared,
    of: WordRecord<'a>,
) -> Row<'a>
    requires ready { IsRoot domain.now shared.now root.old }
    requires owned { IsOwnedBy root.old of }
    ensures row { (p : Plain) → (own_of root.old.view).whole ≡ Some p
        → IsRowOf p of.entry result }
    ensures trail { root.new.view.core.trail
        ≡ root.old.view.core.trail ++ counted_by of.entry.slot result.holders false }
    ensures whole { (own_of root.new.view).whole ≡ (own_of root.old.view).whole }
    ensures leaves { Leaves root.old.view.core.owned root.old.view.core.weaks root.old root.new }
    ensures client { root.new.view.client ≡ root.old.view.client }
    ensures ready { IsRoot domain.now shared.now root.new }
{
    let WordRecord {
        word,
        occurrences,
        slot,
    } = of;
    let holders = count_strong(domain, root, shared, slot);
    Row {
        occurrences,
        holders,
        word,
    }
}

/// The strong references to a slot of which the seat owns one, in the whole state, which the seat knows. One step.
fn count_strong(
    domain: &Domain<WordsLaw>,
    root: &mut Seat<WordsLaw>,
    shared: &Shared,
    slot: SlotId,
) -> u64
    requires ready { IsRoot domain.now shared.now root.old }
    requires owned { 0 < times slot root.old.view.core.owned }
    ensures counted { IsCount slot result root.old }
    ensures trail { root.new.view.core.trail
        ≡ root.old.view.core.trail ++ counted_by slot result false }
    ensures whole { (own_of root.new.view).whole ≡ (own_of root.old.view).whole }
    ensures leaves { Leaves root.old.view.core.owned root.old.view.core.weaks root.old root.new }
    ensures client { root.new.view.client ≡ root.old.view.client }
    ensures ready { IsRoot domain.now shared.now root.new }
{
    // The question tells that a seat which is alone knows the whole core.
    let _alone = domain.alone(root);
    strong_count(domain, root, slot, LearnLaw)
}
