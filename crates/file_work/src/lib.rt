//! The files whose words are counted: how they are read and cut, within which limits, and the work on them.
//!
//! The rule: what is read are the contents of the named files, in order; a refusal comes only with its cause, and a
//! passed limit is told as one. With which seats a count may be refused is left open (`Refused`), so that counts over
//! announcements and over regions say the same of files.
//!
//! Nothing here counts a word. It isn't promised when memory is enough.
//!
//! ```text
//! let contents = read_named(alloc, &mut files, &args.names)?;     // each file once, in order
//! let work = work_on(alloc, plan.rounds, contents)?;              // cut into pieces, within the limits
//! slots_that_serve(&work)                                         // so many slots serve, whatever lanes do
//! ```
#![tactic(auto)]

mod cutting;
mod plan;
mod reading;
mod refused;
mod slots;
mod working;

pub use lane_gate::{FileFault, Files};
pub use lane_work::{FileText, OutOfMemory, PiecesError, Work};
pub use plan::{Plan, plan_of};
pub use queue_law::Form;
pub use reading::{MOST_BYTES, read_file, read_files, read_named};
pub use refused::Refused;
pub use run_requests::{Protect, WordsArgs};
pub use slots::{count_distinct_slots, slots_that_serve};
pub use working::work_on;
