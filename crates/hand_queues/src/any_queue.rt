//! A queue of either form as a value.
use double_link_queue::{DoubleQueue, LinkedQueue};

/// A queue of a domain, in one of the two forms. It gives no right by itself: a call asks that the domain's law is that
/// of a queue of this form over its cells.
#[derive(Clone, Copy, PartialEq, Eq, Debug, Drop)]
pub enum AnyQueue {
    Linked(LinkedQueue),
    Double(DoubleQueue),
}
