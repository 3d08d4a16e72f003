//! A setting: what is read of it, and when nothing is stored.
use crate::domains::open_alone;
use cdrc::{MakeError, Quota, RecordKind, end, read, record_of};
use example_setting::{SettingLaw, read_value, store_value};
use std::test::Fail;

// The first word of a record is its length. A seat that stores a third value has no make, no add, or no slot left,
// since nothing that it stored before was destroyed.
#[test]
fn values_are_stored_until_none_can_be_made(rt: HostRuntime) -> Result<(), Fail> {
    for (makes, adds, refused) in [
        (2, 3, MakeError::MakesSpent),
        (3, 2, MakeError::AddsSpent),
        (3, 3, MakeError::Full),
    ] {
        let law = SettingLaw::<RecordKind>::new(0);
        let (domain, mut seat) = open_alone(rt.alloc(), Quota { makes, adds }, law)?;
        let Ok(None) = read_value(&domain, &mut seat, 0) else {
            panic!(rt; "nothing is stored")
        };
        assert!(rt; store_value(&domain, &mut seat, 0, &record_of(b"first")).is_ok());
        assert!(rt; store_value(&domain, &mut seat, 0, &record_of(b"second")).is_ok());
        let third = store_value(&domain, &mut seat, 0, &record_of(b"third"));
        assert!(rt; third == Err(refused), "{refused:?}");
        let Ok(Some(seen)) = read_value(&domain, &mut seat, 0) else {
            panic!(rt; "a value")
        };
        assert_eq!(rt; read(&domain, &mut seat, seen.slot(), 0), 6);
        end(&domain, &mut seat, seen);
    }
    Ok(())
}
