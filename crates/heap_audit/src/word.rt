//! The strong word of a slot.
ghost use Rattle.std.specs.Prelude.{◌<◌, ◌^◌, ◌↔◌, IsTrue};

use deleter::value;

/// Whether the word has no zero flag: then it is its own value.
pub(crate) fn is_live(word: u64) -> bool
    ensures { IsTrue result ↔ (word < 2 ^ 63) }
{
    value(word) == word
}
