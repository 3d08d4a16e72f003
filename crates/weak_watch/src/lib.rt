//! A subject that knows its observers weakly, and sends a delivery to each that lives.
//!
//! Each id has a weak cell, which its seat alone sets: `subscribe` makes an observer with the id and leaves a weak
//! reference to it there. `publish` goes over the ids in ascending order, and tells each one's fate: `Absent` where its
//! cell was null, `Ended` where the observer in it had no strong reference any more, `Sent` where it lived. Then a
//! delivery with the event and the observer goes on a queue of either form, once. `receive` takes a delivery off that
//! queue, and answers it with a reference to its observer. The rule that is kept is the law of `watch_law`: a cell is
//! null or refers to an observer with its id, each delivery that is pushed is to one observer, and holds it as long as
//! it lives. The calls run over a domain whose protocol is `NewsLaw`, the observers beside a queue.
//!
//! It isn't promised that an observer lives on once a reference to it was given up, nor that a call which may wait
//! returns.
//!
//! ```text
//! let subject = Subject::over(0, 3);                           // the weak cells 0 to 2 are those of the ids 0 to 2
//! let observer = subject.subscribe(&domain, &mut seat, 2)?;    // or MakesSpent, AddsSpent, Full
//! let mut fates = [Fate::Absent; 3];
//! subject.publish(&rt, &domain, &mut seat, &queue, 7, &mut fates)?;    // or PublishRefused, with its id
//! let Some(delivery) = subject.receive(&rt, &domain, &mut seat, &queue)? else { .. };    // nothing linked; or Spent
//! ```
#![tactic(auto)]

mod addressing;
mod cells;
mod delivering;
mod delivery;
mod fates;
mod finding;
mod making;
mod opening;
mod payloads;
mod publishing;
mod publishing_to;
mod pushing;
mod reached;
mod reaching;
mod receiving;
mod sending;
mod setting;
mod subject;
mod subscribing;
mod taking;

pub use delivery::Delivery;
pub use fates::{Fate, PublishRefused};
pub use subject::Subject;
