//! A scan where one is due.
ghost use Rattle.std.specs.Prelude.{◌≡◌, ◌↔◌, IsTrue};
ghost use Rattle.control_word.specs.acquire_retire.Calls.{IsOf};
ghost use Rattle.control_word.specs.Moves.{KnowsStill};
ghost use Rattle.control_word.specs.Resting.{IsAtRest};
ghost use Rattle.retiring_stores.specs.Scanning.{Collected, IsBelow, IsDue, ScansWhereDue};

use control_word::{Domain, Protocol, Seat};

/// Collects, where the seat has retired as many entries as there are announcement words, and a batch. Fewer are retired
/// afterwards. At most a step for each announcement word, and three for each retired entry.
pub fn scan_where_due<P: Protocol>(domain: &Domain<P>, seat: &mut Seat<P>)
    requires rest { IsAtRest domain.now seat.old }
    ensures scans { ScansWhereDue P.Kind.fits domain.now seat.old seat.new }
    ensures below { IsBelow domain.now seat.new }
    ensures client { seat.new.view.client ≡ seat.old.view.client }
    ensures notes { seat.new.view.core.notes ≡ seat.old.view.core.notes }
    ensures objects { KnowsStill seat.old.view.core seat.old seat.new }
    ensures rest { IsAtRest domain.now seat.new }
{
    if is_due(domain, seat) {
        collect(domain, seat);
    }
}

/// Whether a scan is due.
fn is_due<P: Protocol>(domain: &Domain<P>, seat: &Seat<P>) -> bool
    requires { IsOf domain.now seat.now }
    ensures { IsTrue result ↔ IsDue domain.now seat.now }
{
    let shape = domain.shape();
    let deferred = domain.deferred(seat);
    deferred / 4 >= shape.seats && deferred - 4 * shape.seats >= shape.batch
}

/// A collect of a seat that is at rest: it ejects what is no longer announced, and pays for it. At most a step for each
/// announcement word, and three for each retired entry.
pub fn collect<P: Protocol>(domain: &Domain<P>, seat: &mut Seat<P>)
    requires rest { IsAtRest domain.now seat.old }
    ensures { Collected P.Kind.fits domain.now seat.old seat.new }
{
    domain.collect(seat);
}
