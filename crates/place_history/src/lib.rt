//! How a strong cell came to hold what it holds.
//!
//! A cell is null until an event puts a slot into it, by an exchange, or by a compare and exchange that finds what it
//! expects. So of a cell that holds a slot the history has the event that put it there; from then on the cell has held
//! the slot, and the payload of the object in it hasn't changed. The law is the clause of a function without a body.
//! Nothing is said of which seat that was, nor of what cells held before.
//!
//! ```text
//! place_history::what_a_cell_holds_was_put();     // cites that what a step found in a cell was put there
//! ```
#![tactic(auto)]

mod laws;

pub use laws::what_a_cell_holds_was_put;
