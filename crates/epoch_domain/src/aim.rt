//! What an atomic step is told for its proof, and what it tells the seat.
ghost use Rattle.std.specs.Prelude.{ℕ, ◌≡◌, Option, Some, None};
ghost use Rattle.epoch_domain.specs.Calls.{Aimed, Finds};

use atomic_table::Play;
use epoch_rule::{Deed, EpochSeatView, Protocol};
use std::marker::{Brand, PhantomData};

/// Which domain a step is of, and which deed and act it is. A call at `Brand` picks it, since a `Play` sees
/// neither the key of its table nor the value of a deed.
pub(crate) trait Aim<P, D> {
    ghost aim: { Option (Aimed P D) };
}

impl<P, D> Aim<P, D> for Brand {
    ghost aim = { None };
}

/// A step that tells which word it found.
pub(crate) struct Reads<P, D, B> {
    marker: PhantomData<(P, D, B)>,
}

impl<P: Protocol, D: Deed<P>, B: Aim<P, D>> Play<(), EpochSeatView<P::View>> for Reads<P, D, B> {
    ghost then = { λ _ old w new. (a : Aimed P D) → B.aim ≡ Some a
        → Finds P.Kind.fits a.domain (D.next a.deed a.domain.protocol)
        (D.allows a.deed a.domain.protocol)
        a.act old w new };
}

/// A store, which doesn't tell the word that it found.
pub(crate) struct Writes<P, D, B> {
    marker: PhantomData<(P, D, B)>,
}

impl<P: Protocol, D: Deed<P>, B: Aim<P, D>> Play<(), EpochSeatView<P::View>> for Writes<P, D, B> {
    ghost then = { λ _ old _ new. (a : Aimed P D) → B.aim ≡ Some a
        → (w : ℕ) × Finds P.Kind.fits a.domain (D.next a.deed a.domain.protocol)
        (D.allows a.deed a.domain.protocol) a.act old w new };
}
