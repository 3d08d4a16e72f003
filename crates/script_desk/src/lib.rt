//! What a script has between two commands, and what each of its commands does to a heap for one thread.
//!
//! The rule: the seat of the heap has just what the handles need to which names are bound.
//!
//! `Desk::fault` tells why a command is refused: a number out of range, then a name that isn't bound or is bound
//! already, then a handle or a place of another kind. `Desk::run` does a command with which nothing is wrong, as its
//! row in `specs/Effects` says, and then lets the heap settle.
//!
//! It doesn't promise when memory runs out. After `OutOfMemory` a command may have been done in part.
//!
//! ```text
//! let mut desk = Desk::open(alloc, 4, 1, 0)?;
//! match desk.fault(&command) {
//!     None => match desk.run(&command)? {
//!         Said::Made => ..,
//!         ..
//!     },
//!     Some(reason) => ..,
//! }
//! let heap = desk.close();   // no handle is left
//! ```
#![tactic(auto)]

mod binding;
mod desk;
mod faults;
mod handle;
mod kind;
mod looking;
mod maker;
mod makers;
mod making;
mod names;
mod opening;
mod place;
mod places;
mod references;
mod resolving;
mod running;
mod said;
mod sizes;
mod snapshots;
mod telling;
mod wanted;

pub use desk::Desk;
pub use faults::fault;
pub use handle::Handle;
pub use kind::{ScriptKind, payload_of};
pub use maker::Make;
pub use makers::{makers_of, ranks};
pub use names::NameTable;
pub use opening::no_makers;
pub use plain_audit::{Deleter, Heap, NoLaw, audit, check_walk, lawful};
pub use plain_settling::{
    EventPlace, Hand, Kind, MOST_CELLS, MOST_SLOTS, MOST_WEAK_CELLS, PayloadKind, SlotId,
    SlotImage, SnapHand, WeakHand, ZERO, counted,
};
pub use resolving::place_of;
pub use said::{Said, Shown};
pub use script_lines::{
    Command, CommandRefused, Name, OutOfMemory, Reason, ScriptLine, TextPlace, script_line,
};
pub use sizes::Sizes;
