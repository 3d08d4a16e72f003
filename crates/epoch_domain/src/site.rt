//! Which domain a seat comes to or leaves, for the proof.
ghost use Rattle.std.specs.Prelude.{Option, None};
ghost use Rattle.epoch_domain.specs.Domains.{DomainState};

use std::marker::Brand;

/// Which domain a seat is opened in, leaves, or reads a word of without an event. A call at `Brand` picks it, since a
/// `Split`, a `Join` and a `Play` see no key.
pub(crate) trait Site<P> {
    ghost site: { Option (DomainState P) };
}

impl<P> Site<P> for Brand {
    ghost site = { None };
}
