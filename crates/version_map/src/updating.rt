//! Updates of a map.
ghost use Rattle.std.specs.Prelude.{◌≡◌, IfErr, IfOk, false};
ghost use Rattle.version_making.specs.Keeping.{IsReadyFor};
ghost use Rattle.version_reading.specs.Reading.{IsOver};
ghost use Rattle.version_map.specs.Playing.{Plays};
ghost use Rattle.version_map.specs.Updating.{IsDone, IsUndone, Leaves};

use crate::altering::change_version;
use crate::map::VersionMap;
use crate::outcome::UpdateError;
use version_changes::Change;
use version_making::{Domain, LoadError, MakeError, MapLaw, Seat};
use version_updates::load_low_root;

impl VersionMap {
    /// Changes one key, in one try, and answers what it had: a `Put` gives it this value, a `Bump` adds so much to its
    /// number, which begins with 0 and stops at 2^64 - 1, and a `Take` makes it absent. One exchange of the root cell
    /// changes the map, and the answer is that of the map before it. A `Take` of a key that isn't there changes
    /// nothing: its answer is none, and the key wasn't there at a step of this call, a look at the root cell. `Again`
    /// only where another seat was quicker: the root cell showed `seen` and later `now`, which differ, to events of
    /// this call, none of which changed it. Refused with the causes of a make, and where a node is opened or copied
    /// with `AddsSpent` where no add is left for it. Then neither the map nor the entries have changed by this call,
    /// and all that was made is given up. At most 3 makes and 15 adds for each level of the root that was loaded, and 1
    /// make and 3 adds more; so it is too where a key isn't there.
    pub fn try_update(
        &self,
        domain: &Domain<MapLaw>,
        seat: &mut Seat<MapLaw>,
        key: u64,
        change: Change,
    ) -> Result<Option<u64>, UpdateError>
        requires ready { IsReadyFor domain.now seat.old × (seat.old.view.client.cleared ≡ false) }
        requires over { IsOver self.now.cell domain.now }
        ensures updated { IfOk result (λ answer. IsDone domain.now self.now.cell key change answer
            seat.old seat.new) }
        ensures undone { IfErr result (λ error. IsUndone domain.now self.now.cell error
            seat.old seat.new) }
        ensures leaves { Leaves domain.now self.now.cell seat.old seat.new }
        ensures open { seat.new.view.client.cleared ≡ false }
        ensures plays { Plays domain.now seat.old → Plays domain.now seat.new }
        ensures ready { IsReadyFor domain.now seat.new }
    {
        match load_low_root(domain, seat, self.cell) {
            Ok(root) => change_version(domain, seat, self.cell, root, key, change),
            Err(LoadError::Spent) => {
                // The question tells that the seat has used no more adds than its quota.
                let _left = domain.adds_left(seat);
                Err(UpdateError::Refused(MakeError::AddsSpent))
            }
            Err(LoadError::Moved { seen, now }) => Err(UpdateError::Again { seen, now }),
        }
    }
}
