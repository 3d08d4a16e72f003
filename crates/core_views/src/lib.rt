//! What one seat of a domain has, as a value that a machine changes.
//!
//! `OwnView` is a seat's half of the table of events: whether the seat may make an act, which word
//! the act is on, what the act answers, and what the seat has afterwards. Its model is the seat's
//! view, and every change of it is the one that the table says, exactly. The words are somebody
//! else's: whoever has them hands over the word that an act finds.
//!
//! Nothing here keeps a seat within the table: `may` is the test, and `moves` requires it. A seat
//! that leaves hands what it has to the first one by `take_over`. An allocation failure is told before
//! anything has changed.
//!
//! ```text
//! let mut seat = OwnView::first(alloc, shape, 0, quota, &grants)?;
//! let act = Act::Claim(SlotId(3));
//! if seat.may(&shape, &act) {
//!     let at = seat.place(&shape, &act);           // the word that the act is on
//!     let answer = seat.moves(&shape, &act, word)?;    // word: what stood there
//! }
//! ```
#![tactic(auto)]

mod announcements;
mod changes;
mod conditions;
mod counters;
mod endings;
mod exchanges;
mod fits;
mod holdings;
mod leave;
mod phases;
mod places;
mod reads;
mod seat;
mod table;

pub use core_functions::{
    Act, EventPlace, Kind, Move, Note, OutOfMemory, Outcome, Phase, Quota, Shape, SlotId,
    bit_alone, bits_index, first_bad, first_words, has_bit, held_as, is_content, one_first_bad,
    slot_in_phase, slot_index,
};
pub use fits::is_word_for;
pub use holdings::PastSeat;
pub use seat::OwnView;
