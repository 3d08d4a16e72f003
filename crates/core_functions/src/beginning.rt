//! The words of a domain at the start.
ghost use Rattle.std.specs.Prelude.{◌≡◌, ◌<◌, ◌++◌, IfOk, OnOk};
ghost use Rattle.core_events.specs.Words.{all_free, bitmaps, each_from, first_words, full_bits};
ghost use Rattle.core_events.specs.Runs.{IsShape};

use crate::places::announcement_words;
use core_events::{Shape, WORDS_OF_SLOT, ZERO};
use retire_batch::OutOfMemory;
use std::alloc::Global;

/// The words of a free slot: both counters, three fields and the payload.
const FREE_SLOT: [u64; WORDS_OF_SLOT] = [
    ZERO, 0, 0, 0, 0, 0, 0, 0, 0, 0, 0, 0, 0, 0, 0, 0, 0, 0, 0, 0, 0,
];

/// Joins the words of so many free slots.
fn push_slots(words: &mut Vec<u64>, slots: u32) -> Result<(), OutOfMemory>
    ensures { OnOk result (words.new.items ≡ words.old.items ++ all_free slots) }
{
    for _slot in 0..slots {
        words.extend_from_slice(&FREE_SLOT)?;
    }
    Ok(())
}

/// The bits of the slots that go into a word of bits, by its number among these words, all set.
fn full_bits(shape: &Shape, at: u32) -> u64
    requires { at < bitmaps shape.now }
    ensures { result ≡ full_bits shape.now at }
{
    let left = shape.slots - 64 * at;
    if left < 64 { (1 << left) - 1 } else { u64::MAX }
}

/// Joins the words of the bits of all slots.
fn push_bits(words: &mut Vec<u64>, shape: &Shape) -> Result<(), OutOfMemory>
    requires { IsShape shape.now }
    ensures { OnOk result (words.new.items
        ≡ words.old.items ++ each_from 0 (bitmaps shape.now) (full_bits shape.now)) }
{
    for at in 0..shape.slots.div_ceil(64) {
        words.push(full_bits(shape, at))?;
    }
    Ok(())
}

/// The words at the start, in the order of the table.
pub fn first_words(alloc: Global, shape: &Shape) -> Result<Vec<u64>, OutOfMemory>
    requires { IsShape shape.now }
    ensures { IfOk result (λ words. words.items ≡ first_words shape.now) }
{
    let front = 1 + announcement_words(shape) + shape.cells as usize + shape.weak_cells as usize;
    let slots = shape.slots as usize;
    let mut words = Vec::with_capacity(
        alloc,
        front + WORDS_OF_SLOT * slots + slots.div_ceil(64) + 1,
    )?;
    words.resize(front, 0)?;
    push_slots(&mut words, shape.slots)?;
    push_bits(&mut words, shape)?;
    words.push(0)?;
    Ok(words)
}
