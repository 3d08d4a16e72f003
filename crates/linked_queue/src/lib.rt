//! The linked queue of Michael and Scott over a domain: seats push references to objects at one end, and pop them at
//! the other.
//!
//! A head cell holds the dummy, the node before the first item, and a tail cell holds the last node, or the one before
//! it. Field 0 of a node is the next node, and field 1 its item. The rule that is kept is the law of `queue_law`: each
//! item that was pushed was popped or waits, once, and pops come in the order of pushes.
//!
//! The calls run on a domain whose protocol is a queue, or has one as a part: a `HasQueue`. A try to push or to pop is
//! refused where another seat has been quicker, and tells by which place that shows; `attach`, `push` and `pop` try
//! again until no other seat is, so they may wait. Seats count references to the nodes that they walk over, so no slot
//! is given again under them. No step is promised to come, nor that a call which may wait returns.
//!
//! ```text
//! let queue = LinkedQueue::lay(&domain, &mut root, 0, 1)?;     // over strong cells 0 and 1, by seat 0
//! queue.attach(&rt, &domain, &mut seat);                       // this seat may push and pop then
//! queue.push(&rt, &domain, &mut seat, item)?;                  // or PushRefused, with the item back
//! let Some(item) = queue.try_pop(&domain, &mut seat)? else { .. };     // nothing was linked; or Again, Spent
//! let found = queue.try_pop_with(&domain, &mut seat, 0, Still)?;   // an item, with what its field 0 held before
//! queue.shut(&domain, &mut root);                              // once every other seat has left
//! ```
#![tactic(auto)]

mod ahead;
mod attaching;
mod carrying;
mod chaining;
mod deeds;
mod finding;
mod laying;
mod linking;
mod popping;
mod pushing;
mod pushing_waits;
mod queue;
mod reading;
mod seeing;
mod shutting;
mod taking;
mod unless_ripe;
mod waiting;
mod walking;

pub use deeds::{SeeHead, SeeTail};
pub use part_calls::Spent;
pub use popping::{pop_at, pop_with_at};
pub use queue::{LinkedQueue, PopError, PushError, PushRefused};
pub use queue_protocol::{
    AttachSeat, CarryItem, ExchangeTail, FindEnded, FindSet, Form, HasQueue, HelpLink, LandPush,
    LayHead, LayTail, LearnBefore, LearnItem, LearnTail, LinkBack, MakeNode, NodeKind, QueueLaw,
    ShutHead, ShutTail,
};
pub use slot_store::{MakeError, Strong};
pub use unless_ripe::UnlessRipe;
