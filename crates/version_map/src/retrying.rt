//! Updates that are tried again until no other seat is quicker.
ghost use Rattle.std.specs.Prelude.{◌≡◌, IfErr, IfOk, false};
ghost use Rattle.version_making.specs.Keeping.{IsReadyFor};
ghost use Rattle.version_reading.specs.Reading.{IsOver};
ghost use Rattle.version_map.specs.Retrying.{AtLast};
ghost use Rattle.version_map.specs.Playing.{Plays};
ghost use Rattle.version_map.specs.Updating.{IsDone, IsRefused};

use crate::map::VersionMap;
use crate::outcome::UpdateError;
use crossbeam_utils::Backoff;
use std::sync::Wait;
use version_changes::Change;
use version_making::{Domain, MakeError, MapLaw, Seat};

impl VersionMap {
    /// Changes one key, and answers what it had, as `try_update` does. It tries again as long as another seat is
    /// quicker, so it may wait for other threads. No try but the last one has changed the map or the entries. Refused
    /// as `try_update` is, by the last try; then none has. Each try uses at most as many makes and adds as a call of
    /// `try_update`, and what a lost one used is used: a call that is refused for them began with fewer than one try
    /// may use, or has lost a try.
    pub fn update<R: Wait>(
        &self,
        rt: &R,
        domain: &Domain<MapLaw>,
        seat: &mut Seat<MapLaw>,
        key: u64,
        change: Change,
    ) -> Result<Option<u64>, MakeError>
        requires ready { IsReadyFor domain.now seat.old × (seat.old.view.client.cleared ≡ false) }
        requires over { IsOver self.now.cell domain.now }
        ensures updated { IfOk result (λ answer. AtLast domain.now self.now.cell
            (IsDone domain.now self.now.cell key change answer) seat.old seat.new) }
        ensures refused { IfErr result (λ why. AtLast domain.now self.now.cell
            (IsRefused domain.now why) seat.old seat.new) }
        ensures notes { seat.new.view.core.notes ≡ seat.old.view.core.notes }
        ensures open { seat.new.view.client.cleared ≡ false }
        ensures plays { Plays domain.now seat.old → Plays domain.now seat.new }
        ensures ready { IsReadyFor domain.now seat.new }
    {
        let backoff = Backoff::new();
        for _try in rt.forever() {
            match self.try_update(domain, seat, key, change) {
                Ok(answer) => return Ok(answer),
                Err(UpdateError::Refused(why)) => return Err(why),
                Err(UpdateError::Again { .. }) => backoff.spin(),
            }
        }
        unreachable!()
    }
}
