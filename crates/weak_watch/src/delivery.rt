//! A delivery that was received.
use weak_part_calls::Strong;

/// An event, and the observer that it is for, of which the receiver has a strong reference.
#[derive(Debug, Drop)]
pub struct Delivery {
    pub observer: Strong,
    /// The observer's id, as it stands in its payload.
    pub id: u64,
    pub event: u64,
}

/// What one try to receive came to, where it wasn't lost.
#[derive(Debug, Drop)]
pub(crate) enum Received {
    /// Nothing waited.
    Nothing,
    /// An item was taken off the queue that is no delivery with an observer, and was given up.
    Passed,
    /// A delivery was taken off the queue.
    Delivery(Delivery),
}
