//! A doubly linked queue over a domain, in the manner of Ramalhete and Correia: seats push references to objects at one
//! end, and pop them at the other.
//!
//! A head cell holds the dummy, the node before the first item, and a tail cell holds the last node. Field 0 of a node
//! is the next node, field 1 its item, and its weak field leads back to the node before it. A push is decided by one
//! exchange of the tail cell; field 0 of the node before follows, by that push or by the help of the next one. The rule
//! that is kept is the law of `queue_law` in its doubly linked form: each item that was pushed was popped or waits,
//! once, and pops come in the order of pushes.
//!
//! The calls run on a domain whose protocol is a queue, or has one as a part: a `HasQueue`. A try to push or to pop is
//! refused where another seat has been quicker, and tells by which place that shows; `attach`, `push` and `pop` try
//! again until no other seat is, so they may wait. Seats count references to the nodes that they walk over, so no slot
//! is given again under them. A pop doesn't help, so it may find nothing linked although a push was decided already. No
//! step is promised to come, nor that a call which may wait returns.
//!
//! ```text
//! let queue = DoubleQueue::lay(&domain, &mut root, 0, 1)?;     // over strong cells 0 and 1, by seat 0
//! queue.attach(&rt, &domain, &mut seat);                       // this seat may push and pop then
//! queue.push(&rt, &domain, &mut seat, item)?;                  // or PushRefused, with the item back
//! let Some(item) = queue.try_pop(&domain, &mut seat)? else { .. };     // nothing was linked; or Again, Spent
//! let found = queue.try_pop_with(&domain, &mut seat, 0, Still)?;   // an item, with what its field 0 held before
//! queue.shut(&domain, &mut root);                              // once every other seat has left
//! ```
#![tactic(auto)]

mod attaching;
mod backing;
mod carrying;
mod chaining;
mod deeds;
mod exchanging;
mod helping;
mod laying;
mod looking_back;
pub mod parts;
mod popping;
mod pushing;
mod pushing_waits;
mod queue;
mod shutting;
mod waiting;

pub use deeds::SeeSet;
pub use linked_queue::{
    FindSet, Form, HasQueue, LearnItem, LearnTail, LinkedQueue, MakeError, NodeKind, PopError,
    PushError, PushRefused, QueueLaw,
};
pub use queue::DoubleQueue;
pub use weak_part_calls::{Deed, Deleter, Domain, Seat, Spent, Strong, collect, reap};
