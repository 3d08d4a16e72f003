//! The records of the words that were counted.
ghost use Rattle.std.specs.Prelude.{◌≡◌, ◌≤◌, false, IfOk, length};
ghost use Rattle.std.specs.List.{All};
ghost use Rattle.cell_intern.specs.cell_calls.Keeping.{Keeps, Learns};
ghost use Rattle.cell_intern.specs.Interning.{IsInRegion};
ghost use Rattle.cell_records.specs.Records.{AreTold, AreWords, IsRecordOf, IsTold, sums_in};
ghost use Rattle.cell_records.specs.Root.{IsRoot};
ghost use Rattle.cell_rest.specs.Kept.{TellsWord};
ghost use Rattle.tally_sums.specs.Sums.{SumsUp};

use cell_intern::{CellLaw, EpochDomain, EpochSeat, SlotId, Walk, enter, exit, seek, sought_text};
use std::alloc::Global;
use std::thread::Threads;
use tally_sums::{OutOfMemory, Tally, counted_words};

/// A word, how often it was counted, and the slot of its record.
#[derive(Drop)]
pub struct WordRecord<'a> {
    pub word: &'a [u8],
    pub occurrences: u64,
    pub slot: SlotId,
}

/// The record of each word that some tally counted, with the sum of its counts, in byte order. The seat is alone, its
/// view tells each of these words, and cells aren't being cleared; so each walk comes to its record, in one region.
/// `OutOfMemory` comes of an allocation failure, and then no event was made.
pub fn find_records<'a, R: Threads + Sync>(
    rt: &R,
    alloc: Global,
    domain: &EpochDomain<CellLaw>,
    root: &mut EpochSeat<CellLaw>,
    tallies: &'a [Tally],
) -> Result<Vec<WordRecord<'a>>, OutOfMemory>
    requires ready { IsRoot domain.now root.old }
    requires open { root.old.view.client.cleared ≡ false }
    requires words { AreWords tallies.now }
    requires told { AreTold tallies.now root.old.view.client }
    ensures words { IfOk result (λ records. SumsUp tallies.now (sums_in records.items)) }
    ensures records { IfOk result (λ records.
        All (IsRecordOf root.new.view.client) records.items) }
    ensures keeps { Keeps 0 0 root.old.view.core.owned root.old root.new }
    ensures learns { Learns root.old.view.client root.new.view.client }
    ensures ready { IsRoot domain.now root.new }
{
    let words = counted_words(rt, alloc, tallies)?;
    let mut records = Vec::with_capacity(alloc, words.len())?;
    enter(domain, root);
    for (word, occurrences) in words {
        let slot = find_record(domain, root, word);
        records.push_reserved(WordRecord {
            word,
            occurrences,
            slot,
        });
    }
    exit(domain, root);
    Ok(records)
}

/// The slot of the record of a word of 1 to 4,096 bytes, which the seat's view tells. The events of a walk.
fn find_record(domain: &EpochDomain<CellLaw>, root: &mut EpochSeat<CellLaw>, word: &[u8]) -> SlotId
    requires region { IsInRegion domain.now root.old }
    requires word { (1 ≤ length word.now) × (length word.now ≤ 4096) }
    requires told { IsTold root.old.view.client word.now }
    ensures tells { TellsWord root.new.view.client word.now result }
    ensures keeps { Keeps 0 0 root.old.view.core.owned root.old root.new }
    ensures learns { Learns root.old.view.client root.new.view.client }
    ensures region { IsInRegion domain.now root.new }
{
    let sought = sought_text(word);
    match seek(domain, root, 0, &sought) {
        Walk::Record(slot) => slot,
        Walk::Null(_) => unreachable!(),
        Walk::Around => unreachable!(),
    }
}
