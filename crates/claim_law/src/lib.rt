//! What a claim of a slot costs: no slot is taken that no make was used for.
//!
//! A slot is free while its bit is set. Only a claim that wins clears a bit, and it costs its seat
//! one of the makes that the seats were given, by their quotas and by the grants of the tickets
//! that they drew. So a seat that finds each slot taken and has a make left belongs to a domain
//! that was given more makes than it has slots. Each law is the clause of a function without a
//! body. Nothing is said of when a slot is given back, nor of who claims it next.
//!
//! ```text
//! claim_law::taken_slots_were_made();     // cites that all makes are more than the slots
//! ```
#![tactic(auto)]

mod laws;

pub use laws::{
    claims_are_makes, clear_bits_were_claimed, makes_fit, shown_slots_were_claimed,
    taken_slots_were_made,
};
