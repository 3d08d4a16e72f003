//! A range of weak cells of a domain as a directory of texts, and what all calls on a directory have in common.
//!
//! The rule that they keep is the law of `directory_law`, by the deeds of `directory_protocol`. `specs/` says what such
//! a call leaves of its seat, what it adds to the seat's view, and what it means that something was so at a step of it.
//!
//! Nothing here steps. Which cells a directory of a domain has is told by the domain's law, and a call asks that the
//! range is that one.
//!
//! ```text
//! let directory = Directory::over(0, 10);     // weak cells 0 to 9
//! ```
#![tactic(auto)]

mod directory;

pub use directory::Directory;
pub use directory_protocol::{
    AnswerHead, BindHead, DirectoryLaw, DrawTicket, ForgetEnded, HasDirectory, LeadOn, LinkPart,
    LookAtCell, MakeSlot, PairKind, RecordKind, SeeHead, UpgradeHead,
};
