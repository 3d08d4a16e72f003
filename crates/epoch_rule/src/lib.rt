//! The rule of the table of a domain under epochs: what holds of its words and of its seats' views between any two
//! atomic steps.
//!
//! The rule, for every protocol of the client's: there is a list of events, each enabled in its turn, that leads from
//! the start to the words, and each seat's view has its half of that state. So the invariant of `epoch_core` holds: a
//! live slot counts its references, what an open region has seen is live, each object is destroyed at most once. The
//! state shows a lawful plain state. What a view tells of the objects in its seat's slots is so, the payloads of all
//! objects fit the protocol's kind, and the protocol's law holds of the plain state and the clients' views.
//!
//! `epoch_step_keeps_rule` says that each event of a seat keeps the rule under every deed that is ready for it;
//! `epoch_opening_keeps`, `epoch_split_keeps` and `epoch_leave_keeps` say so of the seats' coming and going, and
//! `epoch_reading_keeps` of a load that is no event. A deed is told of a look, an exchange and a make. Nothing is
//! promised about which step comes, or when.
//!
//! ```text
//! epoch_step_keeps_rule::<P, D>();     // cites, before an atomic operation, that its event keeps the rule
//! ```
#![tactic(auto)]

mod charter;
mod laws;
mod seats;
mod view;

pub use charter::{EpochCharter, EpochRule};
pub use domain_rule::{AnyStep, Deed, Known, NoLaw, Protocol, Still};
pub use epoch_core::{
    Dated, EpochAct, EpochEvent, EpochMove, EpochOutcome, EpochPhase, EpochShape, EpochView,
    EventPlace, Quota, SlotId, Sweep,
};
pub use laws::epoch_step_keeps_rule;
pub use seats::{
    epoch_joined_seat_law, epoch_leave_keeps, epoch_opened_seat_law, epoch_opening_keeps,
    epoch_reading_keeps, epoch_split_keeps,
};
pub use view::{EpochSeatView, EpochWhole};
