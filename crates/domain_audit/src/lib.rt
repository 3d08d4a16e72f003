//! The audit of a running domain: what of its heap lives, what waits, and what only cycles of strong references keep.
//!
//! Once every other seat has left, seat 0 can read the whole heap. An audit of the slots that aren't free tells how
//! many objects live, how many decrements are deferred, how many objects are unreached and what all of them weigh, and
//! walks round a cycle where any is unreached. What is found is told of the plain state that the domain shows, in the
//! words of `plain_audit`: no image stands in the contract.
//!
//! It asks for a seat that is alone, at rest, and has nothing dying: so no slot is on its way out, and the heap is
//! lawful. What snapshots of the seat keep from being given up is deferred, and counts as reached. An audit changes
//! nothing, but that the seat's trail has two events more.
//!
//! Nothing is promised of a domain while another seat is there.
//!
//! ```text
//! settle(&domain, &mut root, &deleter);                                // nothing more may go
//! let found = audit_domain(alloc, &domain, &mut root, &deleter, &rank)?;
//! found.cyclic                                                         // how many objects cycles keep
//! ```
#![tactic(auto)]

mod auditing;
mod laws;

pub use auditing::{AuditRoom, audit_by_number, audit_domain};
pub use laws::image_can_be_audited;
pub use plain_audit::Audit;
pub use protected_loads::{
    AnyStep, Deed, Domain, Heap, Kind, LoadError, NoLaw, OpenError, OutOfMemory, PayloadKind,
    Payment, Place, Protocol, Quota, RecordKind, Seat, Shape, ShapeField, SlotId, SlotImage, Spent,
    Still, UpgradeError, Weak, WeakPlace, Work, copy_strong, copy_weak, drop_strong, drop_weak,
    empty_image, open_domain, open_granted, record_of, strong_count, upgrade, weak_count, weaken,
};
pub use slot_store::{
    Deleter, EventPlace, InPart, Left, MakeError, Outcome, Pair, PairKind, Part, Right, Spares,
    Strong, Whole, collect, held_as, leave, make, read, reap, settle,
};
