//! Why the words of a line aren't read.

/// Why the words of a line aren't read.
#[derive(Clone, Copy, PartialEq, Eq, Debug, Drop)]
pub enum EventRefused {
    /// They don't spell it.
    Syntax,
    /// They spell it with a number that is too large to be held.
    Range,
}
