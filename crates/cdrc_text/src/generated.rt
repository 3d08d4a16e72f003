//! Words that a seed draws.

ghost use Rattle.std.specs.Prelude.{◌≡◌, ◌≤◌, ◌++◌, ◌∷◌, [], IfOk, OnOk};
ghost use Rattle.cdrc_text.specs.Generated.{after_word, drawn_word, generated_text, next_draw};

use crate::lines::push_number;
use out_of_memory::OutOfMemory;
use std::alloc::Global;

const MULTIPLIER: u128 = 6_364_136_223_846_793_005;

const INCREMENT: u128 = 1_442_695_040_888_963_407;

// The most bytes of a word with what follows it, where the vocabulary has at most a million words.
const WORD_ROOM: usize = 8;

/// So many words of a vocabulary, drawn one after the other from a seed: `w0` up to, and without, `w` with the size of
/// the vocabulary. Ten words stand on a line, with one space between two of them, and every line ends with a line feed.
/// Linear in the words.
pub fn generate(
    alloc: Global,
    seed: u64,
    words: u64,
    vocabulary: u64,
) -> Result<Vec<u8>, OutOfMemory>
    requires many { words ≤ 1000000 }
    requires least { 1 ≤ vocabulary }
    requires most { vocabulary ≤ 1000000 }
    ensures { IfOk result (λ text. text.items ≡ generated_text seed words vocabulary) }
{
    let mut text = Vec::with_capacity(alloc, words as usize * WORD_ROOM)?;
    let mut drawn = seed;
    for before in 0..words {
        drawn = next_of(drawn);
        push_drawn(&mut text, drawn, vocabulary)?;
        text.push(follower(before + 1, words))?;
    }
    Ok(text)
}

// The number that the next draw gives.
fn next_of(drawn: u64) -> u64
    ensures { result ≡ next_draw drawn }
{
    ((MULTIPLIER * u128::from(drawn) + INCREMENT) % (1 << 64)) as u64
}

// Puts the word of a drawn number at the end. Its lower bits come again after few draws, so the upper ones count.
fn push_drawn(text: &mut Vec<u8>, drawn: u64, vocabulary: u64) -> Result<(), OutOfMemory>
    requires { 1 ≤ vocabulary }
    ensures { OnOk result (text.new.items ≡ text.old.items ++ drawn_word vocabulary drawn) }
{
    push_number(text, b"w", (drawn >> 33) % vocabulary)
}

// What follows the word of this place, counted from 1.
fn follower(place: u64, words: u64) -> u8
    ensures { result ∷ [] ≡ after_word words place }
{
    if place % 10 == 0 || place == words {
        b'\n'
    } else {
        b' '
    }
}
