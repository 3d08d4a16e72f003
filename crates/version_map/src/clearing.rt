//! The end of a map.
ghost use Rattle.std.specs.Prelude.{◌≡◌, true};
ghost use Rattle.version_making.specs.slot_store.domain_rule.Views.{IsAlone};
ghost use Rattle.version_making.specs.Keeping.{IsReadyFor, Keeps, none};
ghost use Rattle.version_reading.specs.Reading.{IsOver};
ghost use Rattle.version_updates.specs.Clearing.{IsCleared};
ghost use Rattle.version_updates.specs.Publishing.{but_for};

use crate::map::VersionMap;
use version_making::{Domain, MapLaw, Seat};
use version_updates::clear;

impl VersionMap {
    /// Takes the last version out of the map, which is empty from then on and isn't updated any more. It is for seat 0
    /// once every other seat has left. The nodes of that version end with it where nothing else holds them. One
    /// exchange, and a collect where one is due then; no add and no make.
    pub fn clear(&self, domain: &Domain<MapLaw>, root: &mut Seat<MapLaw>)
        requires ready { IsReadyFor domain.now root.old }
        requires over { IsOver self.now.cell domain.now }
        requires alone { IsAlone root.old.view }
        ensures null { IsCleared domain.now self.now.cell root.old root.new }
        ensures client { root.new.view.client ≡ record root.old.view.client { cleared = true } }
        ensures keeps { Keeps 0 0 none none root.old (but_for root.old.view.client root.new) }
        ensures alone { IsAlone root.new.view }
        ensures ready { IsReadyFor domain.now root.new }
    {
        clear(domain, root, self.cell);
    }
}
