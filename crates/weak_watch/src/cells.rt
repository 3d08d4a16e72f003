//! The weak cell of an id.
ghost use Rattle.std.specs.Prelude.{◌≡◌, ◌+◌, ◌<◌};
ghost use Rattle.weak_watch.specs.Subjects.{IsOver};

use crate::subject::Subject;
use watch_protocol::NewsLaw;
use weak_part_calls::Domain;

/// The weak cell of an id.
pub(crate) fn cell_of(subject: &Subject, domain: &Domain<NewsLaw>, id: u32) -> u32
    requires over { IsOver domain.now subject.now }
    requires inside { id < subject.now.cells }
    ensures is { result ≡ domain.now.protocol.pair.right.first + id }
    ensures there { result < domain.now.shape.weak_cells }
{
    // A domain has so few weak cells that the sum fits.
    let _most = domain.shape().weak_cells;
    subject.first + id
}
