//! A doubly linked queue as a value.

/// A doubly linked queue of a domain, by its two strong cells. It gives no right by itself: a call asks that the
/// domain's law is that of a doubly linked queue over these cells.
#[derive(Clone, Copy, PartialEq, Eq, Debug, Drop)]
pub struct DoubleQueue {
    /// The cell that holds the dummy, the node before the first item.
    pub head: u32,
    /// The cell that holds the last node.
    pub tail: u32,
}
