//! A seat of a domain under epochs that is alone: what it learns of the whole state.
//!
//! The rule that is kept is that of the domain. A seat that is alone knows the whole state. By one look, in a region of
//! its own, it learns that the law of the domain's protocol holds of that state (`learn_law`). It flushes until nothing
//! waits, and each cell holds what it held (`settle_alone`). A state in which nothing waits is then settled: nothing is
//! deferred, nothing has ended, what lives is referred to (`lone_states_are_settled`). A store of null into a cell
//! leaves all other cells as they were (`stores_clear_one_cell`).
//!
//! It isn't promised that `settle_alone` returns: past epoch 2^62 nothing is due.
//!
//! ```text
//! let weight = settle_alone(rt, alloc, &domain, &mut root, &deleter)?;   // nothing waits, and no cell has changed
//! learn_law(&domain, &mut root);                                         // the law holds of the whole state
//! let heap = e_image(alloc, &domain, &mut root)?;                        // and this is its image
//! ```
#![tactic(auto)]

mod knowing;
mod laws;
mod learning;
mod settling;

pub use epoch_settling::{EpochDomain, EpochSeat, EpochWork, OutOfMemory, Protocol};
pub use knowing::lone_knows;
pub use laws::{images_count_references, lone_states_are_settled, stores_clear_one_cell};
pub use learning::learn_law;
pub use settling::settle_alone;
