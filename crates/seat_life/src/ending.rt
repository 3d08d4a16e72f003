//! The end of a domain.
ghost use Rattle.std.specs.Prelude.{◌≡◌, IfOk};
ghost use Rattle.domain_audit.specs.acquire_retire.Wholes.{IsLast};
ghost use Rattle.domain_audit.specs.domain_rule.Views.{IsAlone};
ghost use Rattle.domain_audit.specs.slot_store.deleter.Weighing.{Weighs};
ghost use Rattle.seat_life.specs.Ends.{HasSettled};
ghost use Rattle.seat_life.specs.Free.{IsFree, IsSameSeat, OwnsTheSame};

use domain_audit::{
    Audit, AuditRoom, Deleter, Domain, OutOfMemory, Protocol, Seat, audit_by_number, settle,
};
use std::alloc::Global;

/// What became of a domain's objects: the weights of those that were destroyed, added up, and an audit of what is left.
#[derive(Debug, Drop)]
pub struct Settled {
    pub weights: u64,
    pub audit: Audit,
}

/// Destroys all that a seat which is alone can destroy, as `settle` does, and then audits the whole domain. Where the
/// seat owns nothing strongly and all strong cells are null, all that is left is kept by cycles of strong references
/// alone: `cyclic` is `live`. `OutOfMemory` comes only of an allocation failure; what was destroyed is destroyed then.
///
/// It takes memory for what the audit takes. As many steps as `settle` and `audit_by_number`.
pub fn settle_and_audit<P: Protocol, F: Fn(&[u64; 16]) -> u64>(
    alloc: Global,
    domain: &Domain<P>,
    root: &mut Seat<P>,
    deleter: &Deleter<P::Kind, F>,
) -> Result<Settled, OutOfMemory>
    requires free { IsFree domain.now root.old }
    requires alone { IsAlone root.old.view }
    requires weighs { Weighs P.Kind.fits P.Kind.weight F.Fn deleter.now }
    ensures settled { IfOk result (λ settled. HasSettled P.Kind.fits domain.now P.Kind.weight
        settled.weights settled.audit root.old root.new) }
    ensures client { root.new.view.client ≡ root.old.view.client }
    ensures owns { OwnsTheSame root.old root.new }
    ensures same { IsSameSeat root.old root.new }
    ensures alone { IsAlone root.new.view }
    ensures free { IsFree domain.now root.new }
{
    let weights = settle(domain, root, deleter);
    let audit = audit_by_number(alloc, domain, root, deleter, &mut AuditRoom::empty(alloc))?;
    Ok(Settled { weights, audit })
}

/// Gives up the domain and seat 0, once every other seat has left. The client's law holds of the whole state, as seat 0
/// knows it, and of its view and the last one of each seat that left. No step.
pub fn close<P: Protocol>(domain: Domain<P>, root: Seat<P>)
    requires free { IsFree domain root }
    requires alone { IsAlone root.view }
    ensures { IsLast P.Kind.fits (P.law domain.protocol) P.gone domain.shape.seats root.view }
{
    domain.close(root);
}
