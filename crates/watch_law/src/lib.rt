//! The law of observers in weak cells, and of deliveries to them, over the plain state; the law of a queue and of
//! observers together, where each delivery that is pushed is to an observer; and the lemmas that steps keep both.
//!
//! A subject knows its observers weakly. Each id has a weak cell, which one seat may set: it holds an observer with
//! this id, or null. A publication makes a delivery for each observer that lives, with a strong reference to it in
//! field 0, and pushes it on a queue. An observer's word 0 is 1, a delivery's 2; word 1 is the id, or the event.
//!
//! The rule gives a caller: a cell holds what the seat of its id put there last (`cells_hold_their_observers`); a
//! delivery is given one observer in each of its lives (`deliveries_have_one_observer`), and its field 0 doesn't change
//! from then on (`field_0_stays`), so what a seat read there stays so (`what_was_read_stays`); that observer is alive
//! (`observers_live`), and whether an observer ended an add tells (`an_add_tells_whether_it_ended`); what was pushed as
//! a delivery is to one observer (`pushed_deliveries_have_observers`), and once seat 0 is alone its view tells to whom
//! (`the_root_knows_all`).
//!
//! Nothing here runs, and no step is promised to come.
//!
//! ```text
//! law: WatchLaw (area first cells owners) p views
//! law: NewsLaw (record { form = Linked; head = 0; tail = 1 }) (area first cells owners) p views
//! ```
#![tactic(auto)]

mod laws;
mod promises;
mod turns;
mod view;

pub use laws::{
    deeds_keep_addresses, each_part_keeps_the_law, others_keep_the_joint_law, others_keep_the_law,
    what_may_be_pushed,
};
pub use plain_protocol::{PayloadKind, SlotId};
pub use promises::{
    an_add_tells_whether_it_ended, cells_hold_their_observers, deliveries_have_one_observer,
    field_0_stays, observers_live, pushed_deliveries_have_observers, the_root_knows_all,
    what_was_read_stays,
};
pub use turns::{a_pop_may_read_its_item, deliveries_are_sent_in_turn, what_is_found_is_noted};
pub use view::{Address, Made, Subscribed, View};
