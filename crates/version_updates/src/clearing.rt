//! The end of a map.
ghost use Rattle.std.specs.Prelude.{◌≡◌, ◌<◌, true};
ghost use Rattle.slot_store.specs.domain_rule.Views.{IsAlone};
ghost use Rattle.version_making.specs.Keeping.{IsReadyFor, Keeps, none};
ghost use Rattle.version_updates.specs.Clearing.{IsCleared};
ghost use Rattle.version_updates.specs.Publishing.{but_for};

use atomic_shared::{Place, store};
use map_protocol::{ClearRoot, MapLaw};
use slot_store::{Domain, Seat};

/// Puts null into the root cell. It is for seat 0, once every other seat has left, and no version is published after
/// it. What stood there is retired. One exchange, and a collect where one is due then; no add and no make.
pub fn clear(domain: &Domain<MapLaw>, root: &mut Seat<MapLaw>, cell: u32)
    requires ready { IsReadyFor domain.now root.old }
    requires cell { (cell ≡ domain.now.protocol.cell) × (cell < domain.now.shape.cells) }
    requires alone { IsAlone root.old.view }
    ensures null { IsCleared domain.now cell root.old root.new }
    ensures client { root.new.view.client ≡ record root.old.view.client { cleared = true } }
    ensures keeps { Keeps 0 0 none none root.old (but_for root.old.view.client root.new) }
    ensures alone { IsAlone root.new.view }
    ensures ready { IsReadyFor domain.now root.new }
{
    // The question tells that a seat which is alone knows the whole state.
    let _alone = domain.alone(root);
    store(domain, root, Place::Cell(cell), None, ClearRoot);
}
