//! How much a heap or a domain may have, and of how many words its parts are. `specs/Limits.antt` has the same numbers.

/// The most slots, 2^22.
pub const MOST_SLOTS: u32 = 4_194_304;

/// The most strong cells.
pub const MOST_CELLS: u32 = 65_536;

/// The most weak cells.
pub const MOST_WEAK_CELLS: u32 = 4_194_304;

/// The most seats of a domain.
pub const MOST_SEATS: u32 = 32;

/// The most entries that a seat keeps before it scans.
pub const MOST_BATCH: u32 = 1_024;

/// The announcement words of a seat.
pub const WORDS_OF_SEAT: u32 = 4;

/// The words of a slot: both counters, three fields and the payload.
pub const WORDS_OF_SLOT: usize = 21;
