//! What a claim of a slot costs under epochs: no slot is taken that no make was used for.
//!
//! A claim that finds its slot free costs its seat one of the makes of its quota, and no other event makes a free slot
//! one that isn't. So a seat that finds each slot taken and has a make left belongs to a domain that was given more
//! makes than it has slots; and the slots are no more than the makes that it has used and those that all others were
//! given. Each law is the clause of a function without a body. Nothing is said of when a slot is given back, nor of who
//! claims it next.
//!
//! ```text
//! epoch_claims::taken_slots_were_made();     // cites that all makes are more than the slots
//! ```
#![tactic(auto)]

mod laws;

pub use laws::{
    claims_are_makes, makes_fit, shown_slots_were_claimed, taken_slots_fit_makes,
    taken_slots_were_made,
};
