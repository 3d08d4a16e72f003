//! The directory of texts that are interned weakly, and its protocol.
pub use weak_intern::{
    Directory, DirectoryLaw, HasDirectory, RecordKind, Sighted, cell_on, draw, find, hash_of,
    head_of, intern, is_payload, let_go, raise, read_text, see,
};
