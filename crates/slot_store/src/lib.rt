//! Calls on slots: a seat of a running domain makes an object in a free slot, reads the payload of one that it has,
//! and destroys those that it has ended.
//!
//! A make claims slots until one is free, by what the words of bits that it finds show, then arms the slot, fills it
//! word by word and starts it with the client's deed. A reap destroys one object that has ended and that nobody is
//! under a weak snapshot of: it leaves the fields null, reads the payload, of which a deleter tells the weight, and
//! gives up the slot. A settle, by a seat that is alone, reaps and collects until nothing more may go. Their clauses
//! say which events these are, in which order and with which answers, and what the seat has afterwards. The seat is
//! in no call before, and in none afterwards. No call takes memory, and each returns.
//!
//! It isn't promised which slot a make takes or a reap destroys, nor when a slot becomes free.
//!
//! ```text
//! let strong = make(&domain, &mut seat, &payload, Fresh)?;   // a strong handle, or MakesSpent, AddsSpent, Full
//! read(&domain, &mut seat, strong.slot(), 0);                // payload[0]
//! drop_strong(&domain, &mut seat, strong);
//! reap(&domain, &mut seat, &deleter);                        // Some(its weight), or None: nothing may be destroyed
//! settle(&domain, &mut seat, &deleter);                      // the weights of all that it destroyed, added up
//! ```
#![tactic(auto)]

mod claiming;
mod making;
mod reading;
mod reaping;
mod settling;

pub use deleter::Deleter;
pub use making::{MakeError, make};
pub use protocol_pairs::{InPart, Left, Pair, PairKind, Part, Right, Spares, Whole};
pub use reading::read;
pub use reaping::reap;
pub use retiring_stores::{
    Domain, EventPlace, Outcome, Seat, SlotId, Strong, collect, held_as, leave,
};
pub use settling::settle;
