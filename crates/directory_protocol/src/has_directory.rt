//! Protocols that have a directory.
ghost use Rattle.directory_protocol.specs.Keeping.{MindsNone};

use crate::law::DirectoryLaw;
use protocol_pairs::{Pair, Part, Protocol, Right, Whole};

/// A protocol that has a directory as its part `S`, or is one. Its rest may mind that a text is kept no more, and
/// nothing else of the directory's views.
pub trait HasDirectory<S>: Part<DirectoryLaw, S> {
    /// The rest minds no view of the directory that keeps all that the seat's one keeps.
    ghost minds_none: { (it : Self) → MindsNone (Self.suits it) Self.seen };
}

impl HasDirectory<Whole> for DirectoryLaw {
    ghost minds_none = { λ it v w keeps. tt };
}

impl<P: Protocol> HasDirectory<Right> for Pair<P, DirectoryLaw> {
    ghost minds_none = { λ it v w keeps. tt };
}
