//! Reads that are tried again until no other seat is quicker.
ghost use Rattle.std.specs.Prelude.{◌≡◌};
ghost use Rattle.version_making.specs.protected_loads.control_word.Moves.{KnowsStill};
ghost use Rattle.version_making.specs.protected_loads.control_word.Resting.{IsAtRest};
ghost use Rattle.version_reading.specs.Reading.{AtALook, HasNext, IsOver, Reads, pair_by};
ghost use Rattle.version_map.specs.Playing.{Plays};
ghost use Rattle.version_map.specs.Maps.{CanRead, HasValue};

use crate::map::VersionMap;
use crate::reading::value_at;
use crossbeam_utils::Backoff;
use std::sync::Wait;
use version_making::{Domain, Seat};
use version_reading::MapLaw;

impl VersionMap {
    /// The least pair, a key and its value, with at least this key. It tries again as long as another seat is quicker,
    /// so it may wait for other threads. The answer is that of the map at a step of this call. No add and no make. At
    /// most 6 steps, and 6 for each level, for each try.
    pub fn next<R: Wait>(
        &self,
        rt: &R,
        domain: &Domain<MapLaw>,
        seat: &mut Seat<MapLaw>,
        key: u64,
    ) -> Option<(u64, u64)>
        requires rest { IsAtRest domain.now seat.old }
        requires over { IsOver self.now.cell domain.now }
        requires can { CanRead seat.old }
        ensures answer { AtALook domain.now self.now.cell
            (HasNext self.now.cell key (pair_by result)) seat.old seat.new }
        ensures reads { Reads seat.old.view.core seat.old seat.new }
        ensures knows { KnowsStill seat.old.view.core seat.old seat.new }
        ensures plays { Plays domain.now seat.old → Plays domain.now seat.new }
        ensures rest { IsAtRest domain.now seat.new }
    {
        let backoff = Backoff::new();
        for _try in rt.forever() {
            if let Ok(found) = self.try_next(domain, seat, key) {
                return found;
            }
            backoff.spin();
        }
        unreachable!()
    }

    /// The value of a key, if it has one, as `next` finds it.
    #[tactic(auto, using(crate::proofs::Playing::has_read))]
    pub fn get<R: Wait>(
        &self,
        rt: &R,
        domain: &Domain<MapLaw>,
        seat: &mut Seat<MapLaw>,
        key: u64,
    ) -> Option<u64>
        requires rest { IsAtRest domain.now seat.old }
        requires over { IsOver self.now.cell domain.now }
        requires can { CanRead seat.old }
        ensures answer { AtALook domain.now self.now.cell
            (HasValue self.now.cell key result) seat.old seat.new }
        ensures reads { Reads seat.old.view.core seat.old seat.new }
        ensures knows { KnowsStill seat.old.view.core seat.old seat.new }
        ensures plays { Plays domain.now seat.old → Plays domain.now seat.new }
        ensures rest { IsAtRest domain.now seat.new }
    {
        let least = self.next(rt, domain, seat, key);
        value_at(key, least)
    }
}
