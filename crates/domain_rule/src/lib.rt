//! The rule of a domain's table: what holds of its words and of its seats' views between any two atomic steps.
//!
//! The rule, for every protocol of the client's: there is a list of events, each enabled in its turn, that leads from
//! the start to the words, and each seat's view has its half of that state. So the invariant of the core holds, and the
//! state shows a lawful plain state. What a view tells of the objects in its seat's slots is so, the payloads of all
//! objects fit the protocol's kind, and the protocol's law holds of the plain state and the clients' views.
//!
//! `step_keeps` says that each event of a seat keeps the rule under every deed that is ready for it; `opening_keeps`,
//! `split_keeps` and `leave_keeps` say so of the seats' coming and going, and `reading_keeps` of a load that is no
//! event. Nothing is promised about which step comes, or when.
#![tactic(auto)]

mod charter;
mod laws;
mod seats;
mod view;

pub use charter::{Charter, DomainRule};
pub use laws::step_keeps;
pub use plain_protocol::{AnyStep, Deed, NoLaw, Protocol, Still};
pub use seats::{
    joined_seat_law, leave_keeps, opened_seat_law, opening_keeps, reading_keeps, split_keeps,
};
pub use view::{Known, SeatView, Whole};
