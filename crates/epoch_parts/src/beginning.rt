//! The words of a domain under epochs at the start.
ghost use Rattle.std.specs.Prelude.{◌≡◌, ◌++◌, IfOk, OnOk};
ghost use Rattle.epoch_core.specs.Words.{all_free, first_words};
ghost use Rattle.epoch_core.specs.Runs.{IsShape};

use core_functions::OutOfMemory;
use epoch_core::EpochShape;
use std::alloc::Global;

/// How many words each slot has: its count, two fields, the payload.
const WORDS_OF_SLOT: usize = 19;

/// The words of a free slot: its count word is 2^63.
const FREE_SLOT: [u64; WORDS_OF_SLOT] = [
    1 << 63,
    0,
    0,
    0,
    0,
    0,
    0,
    0,
    0,
    0,
    0,
    0,
    0,
    0,
    0,
    0,
    0,
    0,
    0,
];

/// Joins the words of so many free slots.
fn push_slots(words: &mut Vec<u64>, slots: u32) -> Result<(), OutOfMemory>
    ensures { OnOk result (words.new.items ≡ words.old.items ++ all_free slots) }
{
    for _slot in 0..slots {
        words.extend_from_slice(&FREE_SLOT)?;
    }
    Ok(())
}

/// The words at the start, in the order of the table.
pub fn first_words(alloc: Global, shape: &EpochShape) -> Result<Vec<u64>, OutOfMemory>
    requires { IsShape shape.now }
    ensures { IfOk result (λ words. words.items ≡ first_words shape.now) }
{
    let front = 8 + 8 * shape.seats as usize + shape.cells as usize;
    let mut words = Vec::with_capacity(alloc, front + WORDS_OF_SLOT * shape.slots as usize)?;
    words.resize(front, 0)?;
    push_slots(&mut words, shape.slots)?;
    Ok(words)
}
