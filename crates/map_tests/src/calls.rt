//! Calls on the map by a seat that plays.
ghost use Rattle.std.specs.Prelude.{◌≡◌, length};
ghost use Rattle.map_life.specs.version_map.Playing.{Plays};
ghost use Rattle.map_life.specs.version_map.version_reading.Reading.{IsOver};

use map_life::{Change, Domain, MakeError, MapLaw, Seat, UpdateError, VersionMap};
use std::sync::Wait;

/// The map of each domain of these tests.
const MAP: VersionMap = VersionMap { cell: 0 };

/// The most objects that a seat destroys in one turn.
const MOST_REAPS: u32 = 256;

/// Destroys nodes of old versions, up to a number of them.
pub(crate) fn tidy(domain: &Domain<MapLaw>, seat: &mut Seat<MapLaw>)
    requires { Plays domain.now seat.old }
    ensures { Plays domain.now seat.new }
{
    let _count = map_life::tidy(domain, seat, MOST_REAPS);
}

/// Changes a key, until no other seat is quicker.
pub(crate) fn change<R: Wait>(
    rt: &R,
    domain: &Domain<MapLaw>,
    seat: &mut Seat<MapLaw>,
    key: u64,
    change: Change,
) -> Result<Option<u64>, MakeError>
    requires plays { Plays domain.now seat.old }
    requires over { IsOver 0 domain.now }
    ensures { Plays domain.now seat.new }
{
    MAP.update(rt, domain, seat, key, change)
}

/// Changes a key, in one try.
pub(crate) fn try_change(
    domain: &Domain<MapLaw>,
    seat: &mut Seat<MapLaw>,
    key: u64,
    change: Change,
) -> Result<Option<u64>, UpdateError>
    requires plays { Plays domain.now seat.old }
    requires over { IsOver 0 domain.now }
    ensures { Plays domain.now seat.new }
{
    MAP.try_update(domain, seat, key, change)
}

/// The value of a key.
pub(crate) fn read<R: Wait>(
    rt: &R,
    domain: &Domain<MapLaw>,
    seat: &mut Seat<MapLaw>,
    key: u64,
) -> Option<u64>
    requires plays { Plays domain.now seat.old }
    requires over { IsOver 0 domain.now }
    ensures plays { Plays domain.now seat.new }
    ensures number { seat.new.view.core.seat ≡ seat.old.view.core.seat }
{
    MAP.get(rt, domain, seat, key)
}

/// The least pair with at least this key.
pub(crate) fn read_next<R: Wait>(
    rt: &R,
    domain: &Domain<MapLaw>,
    seat: &mut Seat<MapLaw>,
    key: u64,
) -> Option<(u64, u64)>
    requires plays { Plays domain.now seat.old }
    requires over { IsOver 0 domain.now }
    ensures { Plays domain.now seat.new }
{
    MAP.next(rt, domain, seat, key)
}

/// The pairs of a range, and how many they are.
pub(crate) fn scan<R: Wait>(
    rt: &R,
    domain: &Domain<MapLaw>,
    seat: &mut Seat<MapLaw>,
    low: u64,
    high: u64,
    out: &mut [(u64, u64)],
) -> usize
    requires plays { Plays domain.now seat.old }
    requires over { IsOver 0 domain.now }
    ensures plays { Plays domain.now seat.new }
    ensures room { length out.new ≡ length out.old }
{
    MAP.range(rt, domain, seat, low, high, out)
}
