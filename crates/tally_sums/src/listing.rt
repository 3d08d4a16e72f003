//! The words that some tallies counted, with their counts.
ghost use Rattle.std.specs.Prelude.{◌<◌, ◌^◌, ℕ, List, [], IfOk, length, slice_index_or};
ghost use Rattle.cdrc_text.specs.Tally.{ListsWords, shown_entries};
ghost use Rattle.tally_sums.specs.Sums.{AreListed, ListsEach, SumsUp, counted_in};

use crate::adding::add_up;
use cdrc_text::{OutOfMemory, Tally};
use std::alloc::Global;
use std::thread;
use std::thread::Threads;

/// The words of all tallies, each once and with how often they counted it together, in byte order. It takes the steps
/// of a sort of each tally's words, which a thread for each tally does where one can be made, and of one more, to which
/// they come in as many sorted runs.
pub fn counted_words<'a, R: Threads + Sync>(
    rt: &R,
    alloc: Global,
    tallies: &'a [Tally],
) -> Result<Vec<(&'a [u8], u64)>, OutOfMemory>
    requires few { (w : List ℕ) → counted_in tallies.now w < 2 ^ 63 }
    ensures { IfOk result (λ words. SumsUp tallies.now (shown_entries words.items)) }
{
    let mut entries = list_entries(rt, alloc, tallies)?;
    entries.sort()?;
    add_up(alloc, entries)
}

/// The words of each tally with their counts, one tally's behind another's.
fn list_entries<'a, R: Threads + Sync>(
    rt: &R,
    alloc: Global,
    tallies: &'a [Tally],
) -> Result<Vec<(&'a [u8], u64)>, OutOfMemory>
    ensures { IfOk result (λ entries. ListsEach tallies.now (shown_entries entries.items)) }
{
    let mut entries = Vec::new(alloc);
    for list in sort_each(rt, alloc, tallies)? {
        let mut rows = list?;
        entries.append(&mut rows)?;
    }
    Ok(entries)
}

/// The words of each tally with their counts, in byte order, or that there was no memory for them.
fn sort_each<'a, R: Threads + Sync>(
    rt: &R,
    alloc: Global,
    tallies: &'a [Tally],
) -> Result<Vec<Result<Vec<(&'a [u8], u64)>, OutOfMemory>>, OutOfMemory>
    ensures { IfOk result (λ lists. AreListed tallies.now lists.items) }
{
    let sort = |at: usize| -> Result<Vec<(&[u8], u64)>, OutOfMemory>
        requires { at < length tallies.now }
        ensures { IfOk result (λ rows.
            ListsWords (slice_index_or tallies.entry.now at []) (shown_entries rows.items)) }
    { tallies[at].sorted(alloc) };
    let lists = thread::map_indices(rt, alloc, tallies.len(), &sort)?;
    Ok(lists)
}
