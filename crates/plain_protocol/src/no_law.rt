//! A client without a law.
ghost use Rattle.std.specs.Prelude.{◌≡◌, ⊤, refl};

use crate::deed::Deed;
use crate::protocol::Protocol;
use plain_state::PayloadKind;
use std::marker::PhantomData;

/// The protocol that asks nothing: its views are empty, and its law always holds.
#[derive(Debug, Drop)]
pub struct NoLaw<K> {
    kind: PhantomData<K>,
}

impl<K: PayloadKind> NoLaw<K> {
    /// It is the same for every kind of payloads.
    pub fn new() -> NoLaw<K> {
        NoLaw { kind: PhantomData }
    }
}

impl<K: PayloadKind> Protocol for NoLaw<K> {
    type View = ();

    type Kind = K;

    ghost first = { λ it n. tt };

    ghost law = { λ it p views. ⊤ };

    ghost joined = { λ it root v. tt };

    ghost gone = { tt };

    ghost owns_cell = { λ it i. ⊥ };

    ghost owns_weak_cell = { λ it i. ⊥ };

    ghost owns_payload = { λ it words. ⊥ };

    ghost owns_tickets = { λ it. ⊥ };

    ghost start = { λ it seats slots cells weak_cells. tt };

    ghost calm = { λ it p q n act found views meets is_calm does. tt };

    ghost leave = { λ it p q j found views meets does. tt };

    ghost foreign = { λ it p q n act found views meets is_foreign does. tt };
}

/// The deed of a client without a law, at whatever step.
#[derive(Clone, Copy, Debug, Drop)]
pub struct AnyStep;

impl<K: PayloadKind> Deed<NoLaw<K>> for AnyStep {
    ghost ready = { λ it of own v act. ⊤ };

    ghost next = { λ it of own after v act found. v };

    ghost allows = { λ it of p q n v w. w ≡ v };

    ghost keeps = { λ it of p q views n act found meets at ready does. (tt, refl) };
}
