//! The law of a queue over the plain state, in both of its forms, and the lemmas that each step of a seat keeps it.
//!
//! The law stands over a *history*: all nodes that were ever linked, in order, the first dummy first, and all pops in
//! order. Every linked node, on the chain or not, leads on to the next one while it is live in its life. In the doubly
//! linked form the last link alone may be missing, and then a push is in flight.
//!
//! The rule gives a caller: each item that was pushed was popped or waits, once (`nothing_is_lost`); pops come in the
//! order of pushes (`all_in_order`); what `shut` left (`what_was_left`); and no node reaches itself (`no_cycles`).
//!
//! Nothing here runs, and no step is promised to come.
//!
//! ```text
//! law: QueueLaw (record { form = Double; head = 0; tail = 1 }) p views
//! ```
#![tactic(auto)]

mod laws;
mod promises;
mod view;

pub use laws::others_keep_the_law;
pub use plain_protocol::{Deed, MOST_SLOTS, Protocol};
pub use promises::{all_in_order, all_is_popped, no_cycles, nothing_is_lost, what_was_left};
pub use view::{Eyes, Flight, Form, Item, Load, Stand, Taken, View};
