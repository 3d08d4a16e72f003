//! A directory of texts as a protocol: what a client that has one adds to the rule of a domain's table, and the deeds
//! by which seats make records, walk over cells, and read.
//!
//! The rule that it keeps is the law of the crate `directory_law`, over a range of weak cells. Each step of an intern
//! or a find is made with one deed. A deed is ready by what the seat itself has and by its view; it says what the
//! view is afterwards, and keeps the law. So the law holds between any two steps of all seats.
//!
//! Nothing here runs, and no step is promised to come. A deed doesn't say that the step that it goes with succeeds.
//!
//! ```text
//! let directory = DirectoryLaw::new(0, 10, interns);         // seat n begins with interns[n]
//! let directory = DirectoryLaw::granted(0, 10, interns);     // who draws ticket t has interns[t] more
//! ```
#![tactic(auto)]

mod cells;
mod has_directory;
mod law;
mod making;
mod notes;
mod reading;
mod record_kind;

pub use cells::{LookAtCell, SeeHead};
pub use has_directory::HasDirectory;
pub use law::DirectoryLaw;
pub use making::{BindHead, LinkPart, MakeSlot};
pub use notes::{DrawTicket, ForgetEnded};
pub use protocol_pairs::PairKind;
pub use reading::{AnswerHead, LeadOn, ReadOn, UpgradeHead};
pub use record_kind::RecordKind;
