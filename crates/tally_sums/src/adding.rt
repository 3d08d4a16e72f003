//! The sums of equal words that stand side by side.
ghost use Rattle.std.specs.Prelude.{◌≡◌, ◌<◌, ◌^◌, ℕ, List, IfOk};
ghost use Rattle.cdrc_text.specs.Tally.{shown_entries};
ghost use Rattle.tally_sums.specs.Sums.{added_up, sum_for};

use cdrc_text::OutOfMemory;
use std::alloc::Global;

/// Equal words that stand side by side become one, with the sum of their counts.
pub(crate) fn add_up<'a>(
    alloc: Global,
    entries: Vec<(&'a [u8], u64)>,
) -> Result<Vec<(&'a [u8], u64)>, OutOfMemory>
    requires few { (w : List ℕ) → sum_for w (shown_entries entries.items) < 2 ^ 63 }
    ensures { IfOk result (λ words. shown_entries words.items
        ≡ added_up (shown_entries entries.entry.items)) }
{
    let mut words = Vec::with_capacity(alloc, entries.len())?;
    let mut left = entries.into_iter();
    let Some(mut last) = left.next() else {
        return Ok(words);
    };
    for (word, count) in left {
        if word == last.0 {
            last.1 += count;
        } else {
            words.push(last)?;
            last = (word, count);
        }
    }
    words.push(last)?;
    Ok(words)
}
