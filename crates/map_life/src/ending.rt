//! What is left of a map.
ghost use Rattle.std.specs.Prelude.{◌≡◌, IfOk};
ghost use Rattle.seat_life.specs.domain_audit.domain_rule.Views.{IsAlone};
ghost use Rattle.seat_life.specs.Free.{IsFree, OwnsNothing};
ghost use Rattle.version_map.specs.version_reading.Reading.{IsOver};
ghost use Rattle.map_life.specs.Ending.{LeavesTree};

use map_protocol::NodeKind;
use seat_life::{Deleter, OutOfMemory, Settled, learn_law, settle_and_audit};
use std::alloc::Global;
use version_map::{Domain, MapLaw, Seat};

/// Destroys all that seat 0, once it is alone, can destroy, and then audits the domain. What lives are the nodes of
/// the last version, one for each key of the map, none of them kept by a cycle, and nothing is deferred. `OutOfMemory`
/// comes only of an allocation failure; what was destroyed is destroyed then. The map stays as it is. It takes as many
/// steps as `settle_and_audit`, and one.
pub fn settle_map(
    alloc: Global,
    domain: &Domain<MapLaw>,
    root: &mut Seat<MapLaw>,
) -> Result<Settled, OutOfMemory>
    requires free { IsFree domain.now root.old }
    requires alone { IsAlone root.old.view }
    requires owns { OwnsNothing root.old.view.core }
    requires over { IsOver 0 domain.now × (domain.now.shape.cells ≡ 1) }
    ensures left { IfOk result (λ settled. LeavesTree domain.now root.new settled.audit) }
    ensures alone { IsAlone root.new.view }
    ensures free { IsFree domain.now root.new }
{
    let deleter: Deleter<NodeKind, _> = Deleter::keep(|_node: &[u64; 16]| 1);
    let settled = settle_and_audit(alloc, domain, root, &deleter)?;
    learn_law(domain, root);
    Ok(settled)
}
