//! The queue of counted objects, in both of its forms, and its protocol.
pub use hand_queues::{
    AnyQueue, DoubleQueue, Form, HandQueue, HasQueue, LinkedQueue, NodeKind, PopError, PushError,
    PushRefused, QueueLaw,
};
