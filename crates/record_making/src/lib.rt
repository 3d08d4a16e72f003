//! The slots of texts of 1 to 4,096 bytes, which a seat of a running domain makes before their record stands anywhere.
//!
//! A record is a head and parts, 120 bytes a slot: word 0 of a head is the text's length, that of a part 65,536 and the
//! number of its bytes. The last part is made first, and each slot leads by its field 1 to the one that was made before
//! it, at once. So a seat owns two of the slots at most, and the head in the end, which it has noted with the whole
//! text. Each step is made with a deed of `directory_protocol`, over each protocol that has a directory as a part.
//!
//! Nothing is put into a cell here. Where a make is refused what was made so far is given up; it isn't promised when
//! its slots become free.
//!
//! ```text
//! let head = make_record(&domain, &mut seat, text)?;     // or MakesSpent, AddsSpent, Full
//! ```
#![tactic(auto)]

mod making;
mod unless_ripe;

pub use atomic_shared::{Lost, load, store, try_load, try_replace};
pub use directory_calls::{
    AnswerHead, BindHead, Directory, DirectoryLaw, DrawTicket, ForgetEnded, HasDirectory,
    LookAtCell, RecordKind, SeeHead, UpgradeHead,
};
pub use making::make_record;
pub use record_texts::{cell_on, hash_of, head_of, part_at};
pub use slot_store::{InPart, MakeError, read};
pub use unless_ripe::UnlessRipe;
