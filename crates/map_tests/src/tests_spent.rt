//! Updates by a seat with too few makes or adds.
ghost use Rattle.std.specs.Prelude.{◌≡◌, All, IfSome};
ghost use Rattle.map_life.specs.version_map.Playing.{Plays};
ghost use Rattle.map_life.specs.version_map.version_reading.Reading.{IsOver};

use crate::calls::{change, scan, try_change};
use map_life::{
    Change, Domain, MakeError, MapLaw, Opened, Quota, Seat, UpdateError, WIDE, open_map,
};
use std::alloc::Global;
use std::process::Abort;
use std::sync::Wait;
use std::test::Fail;

/// The keys of the map before a trial are 1 to this, each with ten times its key.
const KEYS: u64 = 10;

/// An update of that map, what its key has before, and how many makes and adds it takes.
///
/// The keys came in ascending order, so 4 is over 2 and 8, 2 over 1 and 3, 8 over 6 and 9, 6 over 5 and 7, and 9 over
/// 10 on its right. Of the makes there is one for each node on the way, one for a new node, and one more for the node
/// that a rotation makes anew. The adds are one to load the root, one to keep it, one for each subtree of a node that
/// is opened, and one for each make.
#[derive(Clone, Copy, Drop)]
struct Trial {
    key: u64,
    change: Change,
    before: Option<u64>,
    makes: u64,
    adds: u64,
}

const TRIALS: [Trial; 4] = [
    // 4, 8, 6 and 5 anew; 4, 8 and 6 have two subtrees each.
    Trial {
        key: 5,
        change: Change::Put(1),
        before: Some(50),
        makes: 4,
        adds: 1 + 1 + 6 + 4,
    },
    // 0 is new, and 1, 2 and 4 are anew; 4 and 2 have two subtrees each.
    Trial {
        key: 0,
        change: Change::Put(1),
        before: None,
        makes: 4,
        adds: 1 + 1 + 4 + 4,
    },
    // 5 comes up in the place of 4, over 2 and 8, and 8 and 6 are anew; 4, 8 and 6 have two subtrees each.
    Trial {
        key: 4,
        change: Change::Take,
        before: Some(40),
        makes: 3,
        adds: 1 + 1 + 6 + 3,
    },
    // 4, 8, 9 and 10 anew, though nothing is published; 4 and 8 have two subtrees each, and 9 has one.
    Trial {
        key: 12,
        change: Change::Take,
        before: None,
        makes: 4,
        adds: 1 + 1 + 5 + 4,
    },
];

/// Puts the keys into the map, in ascending order. How many answered that they weren't there.
fn fill<R: Wait>(rt: &R, domain: &Domain<MapLaw>, seat: &mut Seat<MapLaw>) -> u64
    requires plays { Plays domain.now seat.old }
    requires over { IsOver 0 domain.now }
    ensures { Plays domain.now seat.new }
{
    let mut count: u64 = 0;
    for key in 1..=KEYS {
        if change(rt, domain, seat, key, Change::Put(10 * key)) == Ok(None) {
            count = count.saturating_add(1);
        }
    }
    count
}

/// Whether the map has these keys with their values, and no other.
fn is_filled<R: Wait>(rt: &R, domain: &Domain<MapLaw>, seat: &mut Seat<MapLaw>) -> bool
    requires plays { Plays domain.now seat.old }
    requires over { IsOver 0 domain.now }
    ensures { Plays domain.now seat.new }
{
    let mut out = [(0, 0); 12];
    let count = scan(rt, domain, seat, 0, u64::MAX, &mut out);
    let mut same = count == 10;
    for index in 0..10 {
        let key = index as u64 + 1;
        same = same && out[index] == (key, 10 * key);
    }
    same
}

/// The last of these seats.
fn take_last(domain: &Domain<MapLaw>, seats: &mut Vec<Seat<MapLaw>>) -> Option<Seat<MapLaw>>
    requires { All (Plays domain.now) seats.old.items }
    ensures seats { All (Plays domain.now) seats.new.items }
    ensures last { IfSome result (Plays domain.now) }
{
    seats.pop()
}

/// What a try by a seat with these makes and adds answers, and whether the map has the keys then as before.
fn answer_with<R: Abort + Wait>(
    rt: &R,
    alloc: Global,
    trial: Trial,
    quota: Quota,
) -> Result<(Result<Option<u64>, UpdateError>, bool), Fail> {
    let Opened {
        domain,
        mut root,
        mut others,
    } = open_map(alloc, 2, 64, quota, WIDE)?;
    let Some(mut other) = take_last(&domain, &mut others) else {
        panic!(rt; "there are two seats");
    };
    assert_eq!(rt; fill(rt, &domain, &mut other), KEYS);
    let answer = try_change(&domain, &mut root, trial.key, trial.change);
    Ok((answer, is_filled(rt, &domain, &mut other)))
}

/// With fewer makes, or fewer adds, than it takes, the update is refused with that cause, and changes nothing.
fn try_quotas<R: Abort + Wait>(rt: &R, alloc: Global, trial: Trial) -> Result<(), Fail> {
    for makes in 0..trial.makes {
        let answer = answer_with(rt, alloc, trial, Quota { makes, ..WIDE })?;
        let refused = UpdateError::Refused(MakeError::MakesSpent);
        assert_eq!(rt; answer, (Err(refused), true), "{} {makes}", trial.key);
    }
    for adds in 0..trial.adds {
        let answer = answer_with(rt, alloc, trial, Quota { adds, ..WIDE })?;
        let refused = UpdateError::Refused(MakeError::AddsSpent);
        assert_eq!(rt; answer, (Err(refused), true), "{} {adds}", trial.key);
    }
    let enough = Quota {
        makes: trial.makes,
        adds: trial.adds,
    };
    let (answer, _) = answer_with(rt, alloc, trial, enough)?;
    assert_eq!(rt; answer, Ok(trial.before), "{}", trial.key);
    Ok(())
}

#[test]
fn what_is_too_little_is_refused_and_changes_nothing(rt: HostRuntime) -> Result<(), Fail> {
    for trial in TRIALS {
        try_quotas(&rt, rt.alloc(), trial)?;
    }
    Ok(())
}
