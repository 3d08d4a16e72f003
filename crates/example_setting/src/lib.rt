//! A shared setting: seats store values into one strong cell, others read them by snapshots. What its user wants to
//! know: a value that was read was stored.
//!
//! A value is the payload of an object, all sixteen words. The rule that is kept: what the cell holds was stored by
//! some seat, and so was each value that a seat read. A seat's view lists what it stored and what it read.
//!
//! It isn't promised that a read is of the value that was stored last, nor that a try to read ever succeeds while
//! others store.
//!
//! ```text
//! store_value(&domain, &mut seat, 0, &value)?;        // of a domain under SettingLaw::<RecordKind>::new(0)
//! let Some(seen) = read_value(&domain, &mut seat, 0)? else { .. };
//! slot_store::read(&domain, &mut seat, seen.slot(), 0);      // the value's first word
//! snapshot_ptr::end(&domain, &mut seat, seen);
//! ```
#![tactic(auto)]

mod deeds;
mod law;
mod promises;
mod reading;
mod storing;
mod view;

pub use deeds::{ReadValue, StoreValue};
pub use law::SettingLaw;
pub use promises::each_value_was_stored;
pub use reading::read_value;
pub use storing::store_value;
pub use view::View;
