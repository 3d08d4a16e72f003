//! Scans of a range of keys.
ghost use Rattle.std.specs.Prelude.{◌≡◌, IfErr, IfOk, length};
ghost use Rattle.version_making.specs.protected_loads.control_word.Moves.{KnowsStill};
ghost use Rattle.version_making.specs.protected_loads.control_word.Resting.{IsAtRest};
ghost use Rattle.version_reading.specs.Reading.{AtALook, IsMoved, IsOver, Reads};
ghost use Rattle.version_map.specs.Playing.{Plays};
ghost use Rattle.version_map.specs.Maps.{CanRead, HasRange};

use crate::map::{Moved, VersionMap};
use crate::scanning::range_of_version;
use crossbeam_utils::Backoff;
use std::sync::Wait;
use version_making::{Domain, Seat, held_as};
use version_reading::{MapLaw, hold_root};

impl VersionMap {
    /// Puts the pairs with keys from `low` to `high`, both among them, into a buffer in ascending order, in one try,
    /// and answers how many they are: all of the range, or the first ones where there is no more room. They are those
    /// of one version, of the map at a step of this call, the last look at the root cell. `Moved` as in `try_next`,
    /// and then the buffer has whatever was read. No add and no make. It searches anew from the root for each pair: at
    /// most 5 steps, and 1 and 6 for each level for each pair and for one more.
    #[tactic(auto, using(crate::proofs::Playing::has_read))]
    pub fn try_range(
        &self,
        domain: &Domain<MapLaw>,
        seat: &mut Seat<MapLaw>,
        low: u64,
        high: u64,
        out: &mut [(u64, u64)],
    ) -> Result<usize, Moved>
        requires rest { IsAtRest domain.now seat.old }
        requires over { IsOver self.now.cell domain.now }
        requires can { CanRead seat.old }
        ensures answer { IfOk result (λ count. AtALook domain.now self.now.cell
            (HasRange self.now.cell low high (length out.old) count out.new) seat.old seat.new) }
        ensures moved { IfErr result (λ moved.
            IsMoved self.now.cell moved.seen moved.now seat.old seat.new) }
        ensures room { length out.new ≡ length out.old }
        ensures reads { Reads seat.old.view.core seat.old seat.new }
        ensures knows { KnowsStill seat.old.view.core seat.old seat.new }
        ensures plays { Plays domain.now seat.old → Plays domain.now seat.new }
        ensures rest { IsAtRest domain.now seat.new }
    {
        let Some(word) = domain.free_note(seat) else {
            unreachable!()
        };
        match hold_root(domain, seat, self.cell, word) {
            Ok(None) => Ok(0),
            Ok(Some(root)) => {
                range_of_version(domain, seat, self.cell, root, word, (low, high), out)
            }
            Err(moved) => Err(Moved {
                seen: held_as(moved.seen),
                now: held_as(moved.now),
            }),
        }
    }

    /// The same, tried again as long as another seat is quicker, so it may wait for other threads.
    pub fn range<R: Wait>(
        &self,
        rt: &R,
        domain: &Domain<MapLaw>,
        seat: &mut Seat<MapLaw>,
        low: u64,
        high: u64,
        out: &mut [(u64, u64)],
    ) -> usize
        requires rest { IsAtRest domain.now seat.old }
        requires over { IsOver self.now.cell domain.now }
        requires can { CanRead seat.old }
        ensures answer { AtALook domain.now self.now.cell
            (HasRange self.now.cell low high (length out.old) result out.new) seat.old seat.new }
        ensures room { length out.new ≡ length out.old }
        ensures reads { Reads seat.old.view.core seat.old seat.new }
        ensures knows { KnowsStill seat.old.view.core seat.old seat.new }
        ensures plays { Plays domain.now seat.old → Plays domain.now seat.new }
        ensures rest { IsAtRest domain.now seat.new }
    {
        let backoff = Backoff::new();
        for _try in rt.forever() {
            if let Ok(count) = self.try_range(domain, seat, low, high, out) {
                return count;
            }
            backoff.spin();
        }
        unreachable!()
    }
}
