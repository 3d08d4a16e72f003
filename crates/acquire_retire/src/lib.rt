//! A running domain of counted objects: threads share it, and each call of a seat is one event.
//!
//! A domain is a table of words, and a seat is what one thread at a time steps with. Each call makes one atomic step,
//! and that step is one event of the table of events that `core_events` defines, under whatever protocol the client
//! gives: its clause says which word the step found, what the seat has afterwards, and what the client's deed was
//! told. So what `core_law` proves of all lists of events holds of every running domain, between any two steps of any
//! threads, and so does the client's law.
//!
//! `open_domain`, or `open_granted` where tickets grant makes, takes the memory once: no step takes any, and none is
//! refused. A seat that is done leaves, and seat 0 takes over what it has; once every other seat has left, seat 0 can
//! take an image of the whole state, and close the domain. Nothing is promised about which step comes next, nor when.
//!
//! ```text
//! let (domain, seats) = open_domain(alloc, shape, &quotas, protocol)?;    // a seat for each quota
//! domain.add(&mut seat, slot, deed);          // Up, where the object lives
//! if domain.drop(&mut seat, slot) == Outcome::Zeroed {
//!     domain.finish(&mut seat);               // Ended, unless somebody was quicker
//! }
//! domain.leave(&mut root, seat);
//! domain.close(root);
//! ```
#![tactic(auto)]

mod aim;
mod atomics;
mod closing;
mod collecting;
mod counters;
mod domain;
mod errors;
mod exchanging;
mod filling;
mod hints;
mod image;
mod leaving;
mod opening;
mod payment;
mod places;
mod protecting;
mod reading;
mod scanning;
mod seat;
mod site;
mod splitting;
mod standing;
mod taken;
mod tickets;
mod weak_counters;

pub use core_promises::{EventPlace, Kind, Outcome, Quota, Shape, ShapeField, SlotId};
pub use domain::Domain;
pub use domain_rule::{AnyStep, Deed, NoLaw, Protocol, Still};
pub use dying_slots::{OutOfMemory, has_bit, held_as, kind_of};
pub use errors::OpenError;
pub use image::empty_image;
pub use opening::{open_domain, open_granted};
pub use payment::{Payment, Work};
pub use seat::{Seat, SeatOf};
