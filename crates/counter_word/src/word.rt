//! The counter's word as a number: the zero flag, the help flag, and the count below them.
ghost use Rattle.std.specs.Prelude.{◌≡◌, ◌-◌, ◌<◌, ◌↔◌, IsTrue};
ghost use Rattle.counter_word.specs.Words.{HELP, HasZero, has_help, low, added, subbed, finished, helped, value};

use crate::outcome::{Fin, Sub};

/// The zero flag. Once it stands, the value is 0.
pub const ZERO: u64 = 1 << 63;

/// The help flag. It stands beside the zero flag where a reader set both, since it found 0 before
/// the caller that had taken the last count came to finish.
pub const HELP: u64 = 1 << 62;

fn has_zero(word: u64) -> bool
    ensures { IsTrue result ↔ HasZero word }
{
    word & ZERO != 0
}

/// Whether the help flag stands.
pub fn has_help(word: u64) -> bool
    ensures { result ≡ has_help word }
{
    word & HELP != 0
}

/// Counts one more. True exactly where the zero flag didn't stand; the word grows in either case.
pub fn add(word: u64) -> (u64, bool)
    requires { low word < HELP - 1 }
    ensures { result ≡ added word }
{
    (word + 1, !has_zero(word))
}

/// Counts one less. Who takes the last count is to finish.
pub fn sub(word: u64) -> (u64, Sub)
    requires positive { 0 < word }
    requires no_flag { word < HELP }
    ensures { result ≡ subbed word }
{
    let then = if word == 1 { Sub::Finish } else { Sub::Done };
    (word - 1, then)
}

/// Sets the zero flag where the word is still 0. Changes no other word.
pub fn finish(word: u64) -> (u64, Fin)
    ensures { result ≡ finished word }
{
    if word == 0 {
        (ZERO, Fin::Ended)
    } else if has_help(word) {
        (word, Fin::Help)
    } else {
        (word, Fin::Lost)
    }
}

/// Clears the help flag and leaves the rest of the word. True exactly where the flag stood: that
/// caller has ended the counter.
pub fn take_help(word: u64) -> (u64, bool)
    ensures { result ≡ helped word }
{
    (word & !HELP, has_help(word))
}

/// The count that the word says: 0 where the zero flag stands, else the word.
pub fn value(word: u64) -> u64
    ensures { result ≡ value word }
{
    if has_zero(word) { 0 } else { word }
}
