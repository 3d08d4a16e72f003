//! Reads of a map, in one try.
ghost use Rattle.std.specs.Prelude.{◌≡◌, IfErr, IfOk};
ghost use Rattle.version_making.specs.protected_loads.control_word.Moves.{KnowsStill};
ghost use Rattle.version_making.specs.protected_loads.control_word.Resting.{IsAtRest};
ghost use Rattle.version_reading.specs.Reading.{AtALook, HasNext, IsMoved, IsOver, Reads, pair_by};
ghost use Rattle.version_map.specs.Playing.{Plays};
ghost use Rattle.version_map.specs.Maps.{CanRead, HasValue, value_in};

use crate::map::{Moved, VersionMap};
use crate::searching::search_version;
use version_making::{Domain, Seat, held_as};
use version_reading::{MapLaw, hold_root};

impl VersionMap {
    /// The least pair, a key and its value, with at least this key, in one try. It is that of the map at a step of this
    /// call, the last look at the root cell. `Moved` only where another seat was quicker: the root cell showed `seen`
    /// and later `now`, which differ, to events of this call, none of which changed it. Then the seat has what it had
    /// too. No add and no make. At most 6 steps, and 6 for each level.
    #[tactic(auto, using(crate::proofs::Playing::has_read))]
    pub fn try_next(
        &self,
        domain: &Domain<MapLaw>,
        seat: &mut Seat<MapLaw>,
        key: u64,
    ) -> Result<Option<(u64, u64)>, Moved>
        requires rest { IsAtRest domain.now seat.old }
        requires over { IsOver self.now.cell domain.now }
        requires can { CanRead seat.old }
        ensures answer { IfOk result (λ found. AtALook domain.now self.now.cell
            (HasNext self.now.cell key (pair_by found)) seat.old seat.new) }
        ensures moved { IfErr result (λ moved.
            IsMoved self.now.cell moved.seen moved.now seat.old seat.new) }
        ensures reads { Reads seat.old.view.core seat.old seat.new }
        ensures knows { KnowsStill seat.old.view.core seat.old seat.new }
        ensures plays { Plays domain.now seat.old → Plays domain.now seat.new }
        ensures rest { IsAtRest domain.now seat.new }
    {
        let Some(word) = domain.free_note(seat) else {
            unreachable!()
        };
        match hold_root(domain, seat, self.cell, word) {
            Ok(None) => Ok(None),
            Ok(Some(root)) => search_version(domain, seat, self.cell, root, word, key),
            Err(moved) => Err(Moved {
                seen: held_as(moved.seen),
                now: held_as(moved.now),
            }),
        }
    }

    /// The value of a key, if it has one, in one try. It is that of the map at a step of this call, the last look at
    /// the root cell. `Moved` as in `try_next`. No add and no make. At most 6 steps, and 6 for each level.
    #[tactic(auto, using(crate::proofs::Playing::has_read))]
    pub fn try_get(
        &self,
        domain: &Domain<MapLaw>,
        seat: &mut Seat<MapLaw>,
        key: u64,
    ) -> Result<Option<u64>, Moved>
        requires rest { IsAtRest domain.now seat.old }
        requires over { IsOver self.now.cell domain.now }
        requires can { CanRead seat.old }
        ensures answer { IfOk result (λ found. AtALook domain.now self.now.cell
            (HasValue self.now.cell key found) seat.old seat.new) }
        ensures moved { IfErr result (λ moved.
            IsMoved self.now.cell moved.seen moved.now seat.old seat.new) }
        ensures reads { Reads seat.old.view.core seat.old seat.new }
        ensures knows { KnowsStill seat.old.view.core seat.old seat.new }
        ensures plays { Plays domain.now seat.old → Plays domain.now seat.new }
        ensures rest { IsAtRest domain.now seat.new }
    {
        match self.try_next(domain, seat, key) {
            Ok(least) => Ok(value_at(key, least)),
            Err(moved) => Err(moved),
        }
    }
}

/// The value of a key, where this is the least pair with at least that key.
pub(crate) fn value_at(key: u64, least: Option<(u64, u64)>) -> Option<u64>
    ensures { result ≡ value_in key (pair_by least) }
{
    let (found, value) = least?;
    if found == key { Some(value) } else { None }
}
