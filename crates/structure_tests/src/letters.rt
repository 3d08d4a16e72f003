//! What seats send to one another, and the protocol of a domain with a queue of it.
ghost use Rattle.std.specs.Prelude.{◌≢◌, ⊤, slice_index};
ghost use Rattle.structure_tests.specs.Letters.{letter_bounded, letter_weight};

use hand_queues::QueueLaw;
use part_calls::{Deed, Pair, PayloadKind, Protocol};

/// Who sent a letter, and which of that sender's letters it is.
#[derive(Clone, Copy, PartialEq, Eq, Debug, Drop)]
pub(crate) struct Letter {
    pub(crate) sender: u64,
    pub(crate) number: u64,
}

/// The payloads of letters: word 0 is 1, word 1 the sender, and word 2 the number. Each weighs 1.
#[derive(Clone, Copy, Debug, Drop)]
pub(crate) struct LetterKind;

impl PayloadKind for LetterKind {
    ghost fits = { λ words. ⊤ };

    ghost weight = { letter_weight };

    fn weigh(_payload: &[u64; 16]) -> u64 {
        1
    }

    ghost bounded = { letter_bounded };
}

/// Letters beside a queue. It owns the objects whose word 0 isn't 0, and asks nothing of them.
#[derive(Debug, Drop)]
pub(crate) struct Letters;

impl Protocol for Letters {
    type View = ();

    type Kind = LetterKind;

    ghost first = { λ it n. tt };

    ghost law = { λ it p views. ⊤ };

    ghost joined = { λ it root v. tt };

    ghost gone = { tt };

    ghost owns_cell = { λ it i. ⊥ };

    ghost owns_weak_cell = { λ it i. ⊥ };

    ghost owns_payload = { λ it words. slice_index words 0 ≢ 0 };

    ghost owns_tickets = { λ it. ⊥ };

    ghost start = { λ it seats slots cells weak_cells. tt };

    ghost calm = { λ it p q n act found views meets is_calm does. tt };

    ghost leave = { λ it p q j found views meets does. tt };

    ghost foreign = { λ it p q n act found views meets is_foreign does. tt };
}

/// A letter is written, or something is enclosed in it.
#[derive(Clone, Copy, Debug, Drop)]
pub(crate) struct HandleLetter;

impl Deed<Letters> for HandleLetter {
    ghost ready = { λ it of own v act. ⊤ };

    ghost next = { λ it of own after v act found. v };

    ghost allows = { λ it of p q n v w. ⊤ };

    ghost keeps = { λ it of p q views n act found meets at ready does. (tt, tt) };
}

/// A queue over cells 0 and 1, and letters.
pub(crate) type Mail = Pair<QueueLaw, Letters>;
