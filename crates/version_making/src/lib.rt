//! Nodes of an ordered map of versions: a seat loads the root, makes nodes over subtrees that it owns, opens them,
//! and joins two subtrees with a pair between them. They are the parts of an update, which makes a new version of the
//! nodes on one way down and shares all others.
//!
//! The seat works with references that it owns, and no node is changed: its fields are set right after its make, and
//! one look ends that, so a seat has at most one raw node. Each call says what it makes of *patterns*: what the seat's
//! notes spelled from the subtrees before, they spell of the new node afterwards. What notes spelled once they spell
//! in every later view of the seat. The domain keeps the law of `map_law` between any two steps.
//!
//! Nothing is put into the root cell here, and nothing is promised of the map. Where a call is refused, what it took
//! over and what it made is given up; it isn't promised when slots become free.
//!
//! ```text
//! let root = load_root(&domain, &mut seat, 0)?;                            // None: the map is empty
//! let low = put_together(&domain, &mut seat, 3, 70, None, None)?;          // a leaf
//! let top = join(&domain, &mut seat, 5, 90, Some(low), None)?;             // balanced again, where it must be
//! let Opened { key, left, .. } = take_apart(&domain, &mut seat, top)?;     // 5, and a reference to the leaf
//! ```
#![tactic(auto)]

mod building;
mod deeds;
mod giving;
mod joining;
mod node_words;
mod opening;
mod putting;
mod rooting;
mod taking_apart;

pub use building::put_together;
pub use deeds::{LoadRoot, MakeNew, OpenSide, SetKid};
pub use giving::{give_up, height_at};
pub use joining::join;
pub use opening::{Opened, open_node};
pub use rooting::load_root;
pub use taking_apart::take_apart;

// What its callers take with it.
pub use atomic_shared::LoadError;
pub use map_protocol::MapLaw;
pub use protected_loads::{SlotId, Spent, copy_strong, held_as};
pub use slot_store::{Domain, MakeError, Seat, Strong};
