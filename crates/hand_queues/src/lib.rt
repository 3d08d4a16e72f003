//! One trait for both forms of a queue: by its bound a caller pushes and pops without knowing how the nodes are linked.
//!
//! `HandQueue` has the calls of a queue that was laid, `try_attach`, `attach`, `try_push`, `push`, `try_pop`, `pop` and
//! `shut`, with the contracts that `LinkedQueue` and `DoubleQueue` have in common. `AnyQueue` is one of the two, so
//! that a program picks the form when it runs. The rule that is kept is the law of `queue_law`: each item that was
//! pushed was popped or waits, once, and pops come in the order of pushes.
//!
//! A call asks that the domain's law is that of this queue, in its form. No step is promised to come, nor that a call
//! which may wait returns.
//!
//! ```text
//! let queue = AnyQueue::lay(&domain, &mut root, Form::Double, 0, 1)?;  // over strong cells 0 and 1, by seat 0
//! queue.attach(&rt, &domain, &mut seat);                       // this seat may push and pop then
//! queue.push(&rt, &domain, &mut seat, item)?;                  // or PushRefused, with the item back
//! let Some(item) = queue.try_pop(&domain, &mut seat)? else { .. };     // nothing was linked; or Again, Spent
//! queue.shut(&domain, &mut root);                              // once every other seat has left
//! ```
#![tactic(auto)]

mod any_calls;
mod any_queue;
mod double;
mod hand_queue;
mod laying;
mod linked;
pub mod parts;

pub use any_queue::AnyQueue;
pub use double_link_queue::{
    Deleter, DoubleQueue, FindSet, Form, HasQueue, LearnItem, LearnTail, LinkedQueue, MakeError,
    NodeKind, PopError, PushError, PushRefused, QueueLaw, Spent, Strong, collect, reap,
};
pub use hand_queue::HandQueue;
