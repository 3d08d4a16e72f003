//! Keys that come and go in several orders.
ghost use Rattle.std.specs.Prelude.{◌≡◌, ◌<◌};
ghost use Rattle.map_life.specs.version_map.Playing.{Plays};
ghost use Rattle.map_life.specs.version_map.version_reading.Reading.{IsOver};

use crate::calls::{change, read_next, tidy};
use map_life::{Change, Domain, MapLaw, Opened, Seat, WIDE, open_map};
use std::sync::Wait;
use std::test::Fail;

/// How many keys there are: a prime, so that steps of any other length come to each of them.
const KEYS: u64 = 10_007;

/// An order of the keys.
#[derive(Clone, Copy, Drop)]
enum Order {
    Ascending,
    Descending,
    /// Steps of this length, around the keys.
    Around(u32),
}

/// The key that comes so many keys after the first one.
fn key_at(order: Order, index: u64) -> u64
    requires { index < 10007 }
{
    match order {
        Order::Ascending => index,
        Order::Descending => KEYS - 1 - index,
        Order::Around(step) => index * u64::from(step) % KEYS,
    }
}

/// Puts each key into a map that has none. Whether each answers that it wasn't there.
fn put_all<R: Wait>(rt: &R, domain: &Domain<MapLaw>, seat: &mut Seat<MapLaw>, order: Order) -> bool
    requires plays { Plays domain.now seat.old }
    requires over { IsOver 0 domain.now }
    ensures { Plays domain.now seat.new }
{
    for index in 0..KEYS {
        let key = key_at(order, index);
        if change(rt, domain, seat, key, Change::Put(key.saturating_add(5))) != Ok(None) {
            return false;
        }
        tidy(domain, seat);
    }
    true
}

/// Whether the map has each key with its value, in ascending order.
fn has_all<R: Wait>(rt: &R, domain: &Domain<MapLaw>, seat: &mut Seat<MapLaw>) -> bool
    requires plays { Plays domain.now seat.old }
    requires over { IsOver 0 domain.now }
    ensures { Plays domain.now seat.new }
{
    for key in 0..KEYS {
        if read_next(rt, domain, seat, key) != Some((key, key + 5)) {
            return false;
        }
    }
    true
}

/// Takes each key out of the map. Whether each answers its value.
fn take_all<R: Wait>(rt: &R, domain: &Domain<MapLaw>, seat: &mut Seat<MapLaw>, order: Order) -> bool
    requires plays { Plays domain.now seat.old }
    requires over { IsOver 0 domain.now }
    ensures { Plays domain.now seat.new }
{
    for index in 0..KEYS {
        let key = key_at(order, index);
        if change(rt, domain, seat, key, Change::Take) != Ok(Some(key.saturating_add(5))) {
            return false;
        }
        tidy(domain, seat);
    }
    true
}

/// Whether each key of an empty map came and went as it should, between that all were there, and none is left.
fn come_and_go<R: Wait>(
    rt: &R,
    domain: &Domain<MapLaw>,
    seat: &mut Seat<MapLaw>,
    order: Order,
) -> bool
    requires plays { Plays domain.now seat.old }
    requires over { IsOver 0 domain.now }
    ensures { Plays domain.now seat.new }
{
    put_all(rt, domain, seat, order)
        && has_all(rt, domain, seat)
        && take_all(rt, domain, seat, order)
        && read_next(rt, domain, seat, 0).is_none()
}

#[test]
fn keys_come_and_go_in_any_order(rt: HostRuntime) -> Result<(), Fail> {
    let Opened {
        domain,
        mut root,
        others: _others,
    } = open_map(rt.alloc(), 1, 1 << 15, WIDE, WIDE)?;
    assert!(rt; come_and_go(&rt, &domain, &mut root, Order::Ascending));
    assert!(rt; come_and_go(&rt, &domain, &mut root, Order::Descending));
    assert!(rt; come_and_go(&rt, &domain, &mut root, Order::Around(5003)));
    Ok(())
}
