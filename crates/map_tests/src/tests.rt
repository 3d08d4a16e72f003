//! One seat plays turns whose answers were worked out by hand, or that a `BTreeMap` answers.
ghost use Rattle.std.specs.Prelude.{◌≡◌};
ghost use Rattle.map_life.specs.version_map.Playing.{Plays};
ghost use Rattle.map_life.specs.version_map.version_reading.Reading.{IsOver};

use crate::calls::{change, read, read_next, scan, tidy};
use crate::draws::Draws;
use crate::models::{change_model, is_range, next_in};
use map_life::{Change, Domain, MakeError, MapLaw, Opened, Seat, WIDE, open_map};
use std::alloc::{AllocFailed, Global};
use std::collections::BTreeMap;
use std::process::Abort;
use std::sync::Wait;
use std::test::Fail;

/// What a seat does.
#[derive(Clone, Copy, Drop)]
enum Turn {
    Change(u64, Change),
    Get(u64),
    Next(u64),
}

/// What it answers.
#[derive(Clone, Copy, PartialEq, Eq, Debug, Drop)]
enum Said {
    Value(Option<u64>),
    Pair(Option<(u64, u64)>),
    Refused(MakeError),
}

fn play<R: Wait>(rt: &R, domain: &Domain<MapLaw>, seat: &mut Seat<MapLaw>, turn: Turn) -> Said
    requires plays { Plays domain.now seat.old }
    requires over { IsOver 0 domain.now }
    ensures { Plays domain.now seat.new }
{
    match turn {
        Turn::Change(key, to) => match change(rt, domain, seat, key, to) {
            Ok(before) => Said::Value(before),
            Err(why) => Said::Refused(why),
        },
        Turn::Get(key) => Said::Value(read(rt, domain, seat, key)),
        Turn::Next(key) => Said::Pair(read_next(rt, domain, seat, key)),
    }
}

/// The turns of a map that begins empty, each with its answer.
const ROWS: [(Turn, Said); 22] = [
    (Turn::Get(1), Said::Value(None)),
    (Turn::Next(0), Said::Pair(None)),
    (Turn::Change(1, Change::Take), Said::Value(None)),
    (Turn::Change(1, Change::Put(5)), Said::Value(None)),
    (Turn::Change(1, Change::Bump(2)), Said::Value(Some(5))),
    (Turn::Get(1), Said::Value(Some(7))),
    (Turn::Next(2), Said::Pair(None)),
    (Turn::Change(1, Change::Take), Said::Value(Some(7))),
    (Turn::Get(1), Said::Value(None)),
    (Turn::Change(9, Change::Bump(4)), Said::Value(None)),
    (Turn::Change(3, Change::Put(0)), Said::Value(None)),
    (Turn::Change(u64::MAX, Change::Put(1)), Said::Value(None)),
    (Turn::Next(0), Said::Pair(Some((3, 0)))),
    (Turn::Next(4), Said::Pair(Some((9, 4)))),
    (Turn::Next(10), Said::Pair(Some((u64::MAX, 1)))),
    (Turn::Change(4, Change::Take), Said::Value(None)),
    (
        Turn::Change(9, Change::Bump(u64::MAX)),
        Said::Value(Some(4)),
    ),
    (Turn::Get(9), Said::Value(Some(u64::MAX))),
    (Turn::Change(9, Change::Put(8)), Said::Value(Some(u64::MAX))),
    (Turn::Change(3, Change::Take), Said::Value(Some(0))),
    (Turn::Next(0), Said::Pair(Some((9, 8)))),
    (Turn::Get(u64::MAX), Said::Value(Some(1))),
];

/// The first row that answers otherwise, and what it answers.
fn first_difference<R: Wait>(
    rt: &R,
    domain: &Domain<MapLaw>,
    seat: &mut Seat<MapLaw>,
    rows: &[(Turn, Said)],
) -> Option<(usize, Said)>
    requires plays { Plays domain.now seat.old }
    requires over { IsOver 0 domain.now }
    ensures { Plays domain.now seat.new }
{
    for index in 0..rows.len() {
        let (turn, wanted) = rows[index];
        let said = play(rt, domain, seat, turn);
        if said != wanted {
            return Some((index, said));
        }
    }
    None
}

#[test]
fn turns_answer_as_worked_out(rt: HostRuntime) -> Result<(), Fail> {
    let Opened {
        domain,
        mut root,
        others: _others,
    } = open_map(rt.alloc(), 1, 64, WIDE, WIDE)?;
    assert_eq!(rt; first_difference(&rt, &domain, &mut root, &ROWS), None);
    Ok(())
}

/// Changes a key of both maps, and tells whether they answer the same, then and to reads around the key.
fn agree_once<R: Wait>(
    rt: &R,
    domain: &Domain<MapLaw>,
    seat: &mut Seat<MapLaw>,
    model: &mut BTreeMap<u64, u64>,
    key: u64,
    to: Change,
) -> Result<bool, AllocFailed<(u64, u64)>>
    requires plays { Plays domain.now seat.old }
    requires over { IsOver 0 domain.now }
    ensures { Plays domain.now seat.new }
{
    let wanted = change_model(model, key, to)?;
    let changed = change(rt, domain, seat, key, to) == Ok(wanted);
    let got = read(rt, domain, seat, key) == model.get(&key).copied();
    let next = read_next(rt, domain, seat, key) == next_in(model, key);
    let high = key.saturating_add(9);
    let mut out = [(0, 0); 4];
    let count = scan(rt, domain, seat, key, high, &mut out);
    tidy(domain, seat);
    let ranged = count <= 4 && is_range(model, key, high, 4, &out[..count.min(4)]);
    Ok(changed && got && next && ranged)
}

/// Makes so many changes of keys below 40 that a seed draws. The first one after which the maps differ.
fn first_random_difference<R: Wait>(
    rt: &R,
    alloc: Global,
    domain: &Domain<MapLaw>,
    seat: &mut Seat<MapLaw>,
    turns: u64,
) -> Result<Option<u64>, AllocFailed<(u64, u64)>>
    requires plays { Plays domain.now seat.old }
    requires over { IsOver 0 domain.now }
    ensures { Plays domain.now seat.new }
{
    let mut draws = Draws::new(turns);
    let mut model = BTreeMap::new(alloc);
    for turn in 0..turns {
        let key = draws.below(40);
        let to = match draws.below(5) {
            0 | 1 => Change::Put(draws.below(1000)),
            2 => Change::Bump(draws.below(3)),
            _ => Change::Take,
        };
        if !agree_once(rt, domain, seat, &mut model, key, to)? {
            return Ok(Some(turn));
        }
    }
    Ok(None)
}

#[test]
fn random_changes_are_those_of_a_btree_map(rt: HostRuntime) -> Result<(), Fail> {
    let Opened {
        domain,
        mut root,
        others: _others,
    } = open_map(rt.alloc(), 1, 512, WIDE, WIDE)?;
    let differs = first_random_difference(&rt, rt.alloc(), &domain, &mut root, 4000)?;
    assert_eq!(rt; differs, None);
    Ok(())
}
