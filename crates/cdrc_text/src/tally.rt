//! A count of words.

ghost use Rattle.std.specs.Prelude.{◌≡◌, ◌^◌, ◌<◌, ℕ, List, IfOk, OnOk, OnErr};
ghost use Rattle.std.specs.List.{All};
ghost use Rattle.std.specs.Map.{values_of};
ghost use Rattle.cdrc_text.specs.Tally.{count_of, entries_of, shown_entries, total_of, CountsOneMore, ListsWords};

use out_of_memory::OutOfMemory;
use std::alloc::Global;
use std::collections::HashMap;
use std::marker::Model;

/// How often each word was counted. A clause sees the words with their counts, in an order that is left open.
#[derive(Drop)]
pub struct Tally {
    alloc: Global,
    counts: HashMap<Vec<u8>, u64>,
    total: u64,
}

impl Model for Tally {
    ghost Value = { List (List ℕ × ℕ) };

    ghost view = { λ t. entries_of t.counts.entries };

    ghost invariant = { λ t. All (λ count. 0 < count) (values_of t.counts.entries)
        × (t.total ≡ total_of (entries_of t.counts.entries)) };
}

impl Tally {
    /// Nothing is counted.
    pub fn new(alloc: Global) -> Tally
        ensures counts { (w : List ℕ) → count_of result w ≡ 0 }
        ensures total { total_of result ≡ 0 }
    {
        Tally {
            alloc,
            counts: HashMap::new(alloc),
            total: 0,
        }
    }

    /// Counts the piece once more. A refusal, for an allocation failure, comes for a new word alone and changes
    /// nothing.
    pub fn add(&mut self, piece: &[u8]) -> Result<(), OutOfMemory>
        requires { total_of self.old < 2 ^ 63 }
        ensures ok { OnOk result (CountsOneMore self.old self.new piece.now) }
        ensures err { OnErr result (self.new ≡ self.old) }
        ensures new_word { OnErr result (count_of self.old piece.now ≡ 0) }
    {
        if let Some(count) = self.counts.get_mut(piece) {
            *count += 1;
            self.total += 1;
            return Ok(());
        }
        let word = Vec::from_slice(self.alloc, piece)?;
        self.counts.insert(word, 1)?;
        self.total += 1;
        Ok(())
    }

    /// How often the piece was counted.
    pub fn get(&self, piece: &[u8]) -> u64
        ensures { result ≡ count_of self.now piece.now }
    {
        self.counts.get(piece).copied().unwrap_or(0)
    }

    /// How many pieces were counted.
    pub fn total(&self) -> u64
        ensures { result ≡ total_of self.now }
    {
        self.total
    }

    /// The words that were counted, which stay where they are, each with its count, in byte order. It takes the steps
    /// of a sort.
    pub fn sorted(&self, alloc: Global) -> Result<Vec<(&[u8], u64)>, OutOfMemory>
        ensures { IfOk result (λ rows. ListsWords self.now (shown_entries rows.items)) }
    {
        let mut rows = Vec::with_capacity(alloc, self.counts.len())?;
        for (word, count) in self.counts.iter() {
            rows.push((word.as_slice(), *count))?;
        }
        // The words lie apart, so a comparison of two misses the cache. Their first bytes are sorted beside each other,
        // and the second sort finds runs that are in order.
        rows.sort_by_cached_key(|row: &(&[u8], u64)| first_bytes(row.0))?;
        rows.sort()?;
        Ok(rows)
    }
}

/// The first eight bytes of a word, as a number with the first byte on top.
fn first_bytes(word: &[u8]) -> u64 {
    let mut first = [0; 8];
    for (at, byte) in word.iter().take(8).enumerate() {
        first[at] = *byte;
    }
    u64::from_be_bytes(first)
}
