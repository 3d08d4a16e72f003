//! The ordered map of versions, its protocol, and the life of a domain with one.
pub use map_life::{
    Change, MapLaw, Moved, UpdateError, VersionMap, WIDE, leave_map, open_map, settle_map, tidy,
};
