//! The face of the library: all that a program over a domain of counted objects lists and names.
//!
//! Here stand, layer by layer, the domain and its seats; payloads and deleters; handles and the calls that count and
//! give up references; slots; strong places and snapshots; weak places and weak snapshots; the audit; a life of a
//! domain, from its opening to its closing; and the protocols and deeds that a client gives to a domain, with `NoLaw`
//! and `AnyStep` for one that has no law of its own.
//! `queues`, `directory` and `maps` have the structures, `parts` the calls of one of several laws that share a domain.
//! Each name is that of the crate which has it, with its contract, and nothing is proved here. The definitions that
//! their contracts cite are passed on too: `Rattle.cdrc.specs.NAME` are those of the crate NAME.
//!
//! Nothing is promised beyond what those crates promise.
//!
//! ```text
//! let (domain, seats) = open_domain(alloc, shape, &quotas, Objects::new())?;     // Objects = NoLaw<Kind>
//! let strong = make(&domain, &mut seat, &payload, AnyStep)?;                     // an object, and a reference to it
//! store(&domain, &mut seat, Place::Cell(0), Some(strong), AnyStep);              // others find it there
//! let Some(seen) = try_snapshot(&domain, &mut seat, Place::Cell(0), AnyStep)? else { .. };
//! let first = read(&domain, &mut seat, seen.slot(), 0);                          // it can't be destroyed meanwhile
//! end(&domain, &mut seat, seen);
//! ```
#![tactic(auto)]

pub mod directory;
pub mod maps;
pub mod parts;
pub mod queues;

// A domain, and its seats.
pub use domain_audit::{
    Domain, EventPlace, Kind, OpenError, OutOfMemory, Outcome, Payment, Quota, Seat, Shape,
    ShapeField, Work, collect, empty_image, leave, open_domain, open_granted,
};

// What objects hold, what is called before they are destroyed, and images of all of them.
pub use domain_audit::{Deleter, Heap, PayloadKind, RecordKind, SlotId, SlotImage, record_of};

// Handles, and the calls that count and give up references.
pub use domain_audit::{
    LoadError, Place, Spent, Strong, UpgradeError, Weak, WeakPlace, copy_strong, copy_weak,
    drop_strong, drop_weak, strong_count, upgrade, weak_count, weaken,
};

// Slots: objects are made, read and destroyed.
pub use domain_audit::{MakeError, held_as, make, read, reap, settle};

// Strong places, and snapshots of what they hold.
pub use weak_intern::{
    Lost, Snapshot, counted, end, keep, load, snapshot, store, try_load, try_replace, try_snapshot,
};

// Weak places, and weak snapshots.
pub use weak_intern::{
    LostWeak, WeakSnap, WeakSnapshot, end_weak, load_weak, store_weak, try_load_weak,
    try_replace_weak, try_weak_snapshot, weak_counted,
};

// What lives, waits, or lies in a cycle.
pub use domain_audit::{Audit, AuditRoom, audit_by_number, audit_domain};

// A life of a domain: its seats, turns and threads, whole payloads, and its end.
pub use map_life::{
    Done, Opened, Settled, close, in_threads, learn_law, leave_all, open_seats, read_all,
    read_value, repeat, settle_and_audit, store_value,
};

// Protocols: the laws of clients, and the deeds that tell of them.
pub use domain_audit::{
    AnyStep, Deed, InPart, Left, NoLaw, Pair, PairKind, Part, Protocol, Right, Spares, Still, Whole,
};
