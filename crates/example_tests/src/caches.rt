//! A cache: what it recalls, and its refusals.
ghost use Rattle.std.specs.Prelude.{◌≡◌, ◌<◌, IfSome};
ghost use Rattle.cdrc.specs.plain_state.Lists.{times};
ghost use Rattle.cdrc.specs.core_events.Steps.{HasRoom};
ghost use Rattle.cdrc.specs.control_word.Resting.{IsAtRest};

use crate::domains::open_alone;
use cdrc::{Domain, Quota, RecordKind, Seat, Spares, Strong, drop_strong, make, read, record_of};
use example_cache::{CacheLaw, RecallError, recall, remember};
use std::test::Fail;

type Cache = CacheLaw<RecordKind>;

/// Makes an object, by a step that is foreign to the cache, and remembers it.
fn remembered(domain: &Domain<Cache>, seat: &mut Seat<Cache>) -> Option<Strong>
    requires rest { IsAtRest domain.now seat.old }
    requires room { HasRoom seat.old.view.core }
    requires cell { domain.now.protocol.cell ≡ 0 }
    requires there { 0 < domain.now.shape.weak_cells }
    ensures owned { IfSome result (λ object. 0 < times object.slot seat.new.view.core.owned) }
    ensures room { HasRoom seat.new.view.core }
    ensures rest { IsAtRest domain.now seat.new }
{
    let value = record_of(b"value");
    let object = make(domain, seat, &value, Spares).ok()?;
    remember(domain, seat, 0, &object).ok()?;
    Some(object)
}

// To make an object is an add, to remember it another one, and to recall it two. The first word of a record is its
// length.
#[test]
fn a_value_is_recalled_as_long_as_it_lives(rt: HostRuntime) -> Result<(), Fail> {
    for (adds, is_recalled) in [(5, true), (4, true), (3, false)] {
        let quota = Quota { makes: 1, adds };
        let (domain, mut seat) = open_alone(rt.alloc(), quota, Cache::new(0))?;
        let Ok(None) = recall(&domain, &mut seat, 0) else {
            panic!(rt; "nothing")
        };
        let _object = remembered(&domain, &mut seat).expect(&rt, "a value");
        match recall(&domain, &mut seat, 0) {
            Ok(Some(again)) => {
                assert!(rt; is_recalled, "{adds} adds");
                assert_eq!(rt; read(&domain, &mut seat, again.slot(), 0), 5);
            }
            Ok(None) => panic!(rt; "{adds} adds"),
            Err(error) => assert!(rt; !is_recalled && error == RecallError::Spent, "{adds} adds"),
        }
    }
    Ok(())
}

#[test]
fn a_value_that_has_ended_is_not_recalled(rt: HostRuntime) -> Result<(), Fail> {
    let quota = Quota { makes: 1, adds: 4 };
    let (domain, mut seat) = open_alone(rt.alloc(), quota, Cache::new(0))?;
    let object = remembered(&domain, &mut seat).expect(&rt, "a value");
    drop_strong(&domain, &mut seat, object);
    let Err(error) = recall(&domain, &mut seat, 0) else {
        panic!(rt; "a value that has ended")
    };
    assert_eq!(rt; error, RecallError::Ended);
    Ok(())
}
