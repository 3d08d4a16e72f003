//! The records of the words that were counted.
ghost use Rattle.std.specs.Prelude.{◌≡◌, ◌<◌, ◌≤◌, true, IfErr, IfOk, IfSome, IsErr, length};
ghost use Rattle.std.specs.List.{All};
ghost use Rattle.domain_audit.specs.control_word.Resting.{IsSpent};
ghost use Rattle.lane_domain.specs.directory_calls.Learning.{LearnsIn};
ghost use Rattle.lane_domain.specs.directory_calls.Steps.{Leaves};
ghost use Rattle.law_lesson.specs.plain_state.declared.slot.SlotId.{SlotId};
ghost use Rattle.law_lesson.specs.plain_state.Lists.{times};
ghost use Rattle.lane_domain.specs.lane_files.Keeping.{slots_of};
ghost use Rattle.lane_reports.specs.Holders.{AreSlotsOf, IsRoot, OwnsEach, has, texts, with_texts};
ghost use Rattle.lane_reports.specs.Kept.{lives_in};
ghost use Rattle.lane_reports.specs.Rows.{AreWords, IsRecordOf, IsWhyNoRows, sums_in};
ghost use Rattle.tally_sums.specs.Sums.{SumsUp};
ghost use Rattle.words_rest.specs.Kept.{TellsWord};

use crate::held::{is_held, mark_slots};
use crate::refusal::RowsError;
use crossbeam_utils::Backoff;
use domain_audit::{Domain, Seat, SlotId, Spent, Strong, drop_strong};
use lane_domain::{NodeKind, Shared, WordsLaw, find, pairs_have_pieces};
use std::alloc::Global;
use std::sync::Wait;
use std::thread::Threads;
use tally_sums::{OutOfMemory, Tally, counted_words};
use words_rest::Right;

/// A word, how often it was counted, and the slot of its record.
#[derive(Drop)]
pub(crate) struct WordRecord<'a> {
    pub word: &'a [u8],
    pub occurrences: u64,
    pub slot: SlotId,
}

/// The record of each word that some tally counted, with the sum of its counts, in byte order. The seat is alone, and
/// owns the references that are kept; each record is that of one of them. `Spent` comes only where the seat has no add
/// left, and `OutOfMemory` of an allocation failure. It takes a walk of the directory for each word, and tries one
/// again that comes to no such record, so the call may not return.
pub(crate) fn find_records<'a, R: Threads + Wait + Sync>(
    rt: &R,
    alloc: Global,
    domain: &Domain<WordsLaw>,
    root: &mut Seat<WordsLaw>,
    shared: &Shared,
    kept: &[Strong],
    tallies: &'a [Tally],
) -> Result<Vec<WordRecord<'a>>, RowsError>
    requires ready { IsRoot domain.now shared.now root.old }
    requires kept { (s : SlotId) → times s (slots_of kept.now)
        ≤ times s root.old.view.core.owned }
    requires words { AreWords tallies.now }
    ensures words { IfOk result (λ records. SumsUp tallies.now (sums_in records.items)) }
    ensures records { IfOk result (λ records.
        All (IsRecordOf (slots_of kept.now) root.new) records.items) }
    ensures why { IfErr result (λ error. IsWhyNoRows error root.new) }
    ensures leaves { Leaves root.old.view.core.owned root.old.view.core.weaks root.old root.new }
    ensures learns { LearnsIn texts with_texts 0 root.old.view.client root.new.view.client }
    ensures ready { IsRoot domain.now shared.now root.new }
{
    let held = mark_slots(alloc, kept)?;
    let words = counted_words(rt, alloc, tallies)?;
    let mut records = Vec::with_capacity(alloc, words.len())?;
    for (word, occurrences) in words {
        let slot = find_record(rt, domain, root, shared, held.as_slice(), word)?;
        records.push_reserved(WordRecord {
            word,
            occurrences,
            slot,
        });
    }
    Ok(records)
}

/// The slot of the live record of a word of 1 to 4,096 bytes, which is one of those in the slots `held`, of each of
/// which the seat owns a reference.
fn find_record<R: Wait>(
    rt: &R,
    domain: &Domain<WordsLaw>,
    root: &mut Seat<WordsLaw>,
    shared: &Shared,
    held: &[bool],
    word: &[u8],
) -> Result<SlotId, Spent>
    requires ready { IsRoot domain.now shared.now root.old }
    requires held { OwnsEach (has held.now) root.old }
    requires word { (1 ≤ length word.now) × (length word.now ≤ 4096) }
    ensures held { IfOk result (λ slot. has held.now slot ≡ true) }
    ensures tells { IfOk result (λ slot. TellsWord root.new.view.client.1 word.now slot
        (lives_in root.new slot)) }
    ensures spent { IsErr result → IsSpent root.new.view.core }
    ensures leaves { Leaves root.old.view.core.owned root.old.view.core.weaks root.old root.new }
    ensures learns { LearnsIn texts with_texts 0 root.old.view.client root.new.view.client }
    ensures ready { IsRoot domain.now shared.now root.new }
{
    let backoff = Backoff::new();
    for _ in rt.forever() {
        if let Some(slot) = find_held(rt, domain, root, shared, held, word)? {
            return Ok(slot);
        }
        backoff.spin();
    }
    unreachable!()
}

/// The slot of the live record of a word, where it is one of these. The reference that the walk gained is given up.
fn find_held<R: Wait>(
    rt: &R,
    domain: &Domain<WordsLaw>,
    root: &mut Seat<WordsLaw>,
    shared: &Shared,
    held: &[bool],
    word: &[u8],
) -> Result<Option<SlotId>, Spent>
    requires ready { IsRoot domain.now shared.now root.old }
    requires held { OwnsEach (has held.now) root.old }
    requires word { (1 ≤ length word.now) × (length word.now ≤ 4096) }
    ensures held { IfOk result (λ found. IfSome found (λ slot. has held.now slot ≡ true)) }
    ensures tells { IfOk result (λ found. IfSome found (λ slot.
        TellsWord root.new.view.client.1 word.now slot (lives_in root.new slot))) }
    ensures spent { IsErr result → IsSpent root.new.view.core }
    ensures leaves { Leaves root.old.view.core.owned root.old.view.core.weaks root.old root.new }
    ensures learns { LearnsIn texts with_texts 0 root.old.view.client root.new.view.client }
    ensures ready { IsRoot domain.now shared.now root.new }
{
    pairs_have_pieces::<NodeKind>();
    let Some(found) = find::<R, Right, WordsLaw>(rt, domain, root, &shared.directory, word)? else {
        return Ok(None);
    };
    let slot = found.slot();
    drop_strong(domain, root, found);
    if is_held(held, slot) {
        return Ok(Some(slot));
    }
    Ok(None)
}
