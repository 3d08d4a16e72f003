//! One seat that interns texts of worked lengths and places.
ghost use Rattle.std.specs.Prelude.{◌<◌, ◌≤◌, length};
ghost use Rattle.weak_intern.specs.directory_calls.Directories.{IsOver};
ghost use Rattle.structure_tests.specs.Texts.{HasLeft, IsReady, Owns, Spends};

use crate::text_calls::{find_once, intern_for_good, intern_once, read_once, slot_in};
use crate::text_opening::{WIDE, open_alone, settle_texts};
use part_calls::{Domain, Quota, Seat, SlotId};
use std::sync::Wait;
use std::test::Fail;
use weak_intern::{
    Directory, DirectoryLaw, MakeError, cell_on, drop_strong, hash_of, head_of, intern, part_at,
};

/// Whether a record that lives is the one that an intern, a find and the cell answer for its text, and whether the
/// whole text is read back from it.
fn is_shared<R: Wait>(
    rt: &R,
    domain: &Domain<DirectoryLaw>,
    seat: &mut Seat<DirectoryLaw>,
    directory: &Directory,
    record: SlotId,
    text: &[u8],
    cell: u32,
) -> bool
    requires ready { IsReady domain.now seat.old }
    requires over { IsOver domain.now domain.now.protocol directory.now }
    requires left { HasLeft 1 seat.old }
    requires text { (1 ≤ length text.now) × (length text.now ≤ 4096) }
    requires inside { cell < directory.now.cells }
    ensures spends { Spends 1 seat.old seat.new }
    ensures owns { Owns seat.old seat.new }
    ensures ready { IsReady domain.now seat.new }
{
    let interned = intern_once(rt, domain, seat, directory, text);
    let found = find_once(rt, domain, seat, directory, text);
    let there = slot_in(rt, domain, seat, directory, cell);
    let read = read_once(rt, domain, seat, directory, cell, text);
    interned == Some(record) && found == Ok(Some(record)) && there == Some(record) && read
}

/// Whether a text that isn't found gets a record in this cell that is shared as long as the seat owns it, and isn't
/// found once that was given up.
fn comes_and_goes<R: Wait>(
    rt: &R,
    domain: &Domain<DirectoryLaw>,
    seat: &mut Seat<DirectoryLaw>,
    directory: &Directory,
    text: &[u8],
    cell: u32,
) -> bool
    requires ready { IsReady domain.now seat.old }
    requires over { IsOver domain.now domain.now.protocol directory.now }
    requires left { HasLeft 2 seat.old }
    requires text { (1 ≤ length text.now) × (length text.now ≤ 4096) }
    requires inside { cell < directory.now.cells }
    ensures spends { Spends 2 seat.old seat.new }
    ensures ready { IsReady domain.now seat.new }
{
    let before = find_once(rt, domain, seat, directory, text);
    let Ok(record) = intern(rt, domain, seat, directory, text) else {
        return false;
    };
    let shared = is_shared(rt, domain, seat, directory, record.slot(), text, cell);
    drop_strong(domain, seat, record);
    let gone = find_once(rt, domain, seat, directory, text);
    before == Ok(None) && shared && gone == Ok(None)
}

/// Lengths of texts, and where their walks begin. Each byte is `a`, whose number is 97, and adds 98 to the number of a
/// text; 257, by which that is multiplied for each byte, is 1 modulo 16. So of 16 cells the walk of n bytes begins at
/// 98 n modulo 16.
const LENGTHS: [(usize, u32); 5] = [(1, 2), (120, 0), (121, 2), (4095, 14), (4096, 0)];

#[test]
fn texts_of_all_lengths_come_and_go(rt: HostRuntime) -> Result<(), Fail> {
    let letters = [b'a'; 4096];
    let directory = Directory::over(0, 16);
    for (length, cell) in LENGTHS {
        let text = &letters[..length];
        let (domain, mut seat) = open_alone(rt.alloc(), 16, 4, 256, WIDE)?;
        assert!(rt;
            comes_and_goes(&rt, &domain, &mut seat, &directory, text, cell),
            "{length}"
        );
        // The walk passes the record that has ended.
        let next = (cell + 1) % 16;
        assert!(rt;
            comes_and_goes(&rt, &domain, &mut seat, &directory, text, next),
            "{length}"
        );
    }
    Ok(())
}

/// The number of `ab` is 98 * 257 + 99, so of ten cells its walk begins at cell 5, and goes on around the
/// end. A text gets another cell once its record has ended.
#[test]
fn the_walk_of_ab_begins_at_cell_5(rt: HostRuntime) -> Result<(), Fail> {
    let directory = Directory::over(0, 10);
    let (domain, mut seat) = open_alone(rt.alloc(), 10, 4, 4, WIDE)?;
    assert!(rt; comes_and_goes(&rt, &domain, &mut seat, &directory, b"ab", 5));
    assert!(rt; comes_and_goes(&rt, &domain, &mut seat, &directory, b"ab", 6));
    assert_eq!(rt; cell_on(hash_of(b"ab"), 5, 10), 0);
    Ok(())
}

/// The last bytes are 97 and 113, so both walks begin at cell 0 of 16: the heads are the same, and only the last part
/// tells which text it is.
#[test]
fn texts_that_differ_in_the_last_byte_have_two_records(rt: HostRuntime) -> Result<(), Fail> {
    let (domain, mut seat) = open_alone(rt.alloc(), 16, 4, 256, WIDE)?;
    let directory = Directory::over(0, 16);
    let first = [b'a'; 4096];
    let mut second = first;
    second[4095] = b'q';
    let Some(one) = intern_for_good(&rt, &domain, &mut seat, &directory, &first) else {
        panic!(rt; "refused")
    };
    let Some(other) = intern_for_good(&rt, &domain, &mut seat, &directory, &second) else {
        panic!(rt; "refused")
    };
    assert!(rt; one != other);
    assert!(rt; is_shared(&rt, &domain, &mut seat, &directory, one, &first, 0));
    assert!(rt; is_shared(&rt, &domain, &mut seat, &directory, other, &second, 1));
    Ok(())
}

/// Word 0 of a head is the length, and that of a part 65,536 and how many bytes it has; eight bytes stand in each word
/// behind it, the first lowest.
#[test]
fn a_record_has_its_bytes_in_words(rt: HostRuntime) {
    let mut text = [1; 129];
    text[0] = b'a';
    text[1] = b'b';
    text[128] = b'i';
    let head = head_of(&text);
    assert_eq!(rt; (head[0], head[1]), (129, 72_340_172_838_101_601));
    assert_eq!(rt; head[15], 72_340_172_838_076_673);
    let part = part_at(&text, 0);
    assert_eq!(rt;
        (part[0], part[1], part[2], part[3]),
        (65_545, 72_340_172_838_076_673, 105, 0)
    );
}

/// Slots, a quota, and why a text of 121 bytes, which takes two slots, gets no record.
const REFUSALS: [(u32, Quota, MakeError); 3] = [
    (4, Quota { makes: 1, adds: 9 }, MakeError::MakesSpent),
    (4, Quota { makes: 4, adds: 1 }, MakeError::AddsSpent),
    (1, Quota { makes: 4, adds: 9 }, MakeError::Full),
];

/// What was made of it is given up.
#[test]
fn a_text_that_gets_no_record_leaves_nothing(rt: HostRuntime) -> Result<(), Fail> {
    let directory = Directory::over(0, 4);
    for (slots, quota, why) in REFUSALS {
        let (domain, mut seat) = open_alone(rt.alloc(), 4, 1, slots, quota)?;
        match intern(&rt, &domain, &mut seat, &directory, &[b'a'; 121]) {
            Ok(_) => panic!(rt; "it was interned"),
            Err(error) => assert_eq!(rt; error, why),
        }
        let found = find_once(&rt, &domain, &mut seat, &directory, &[b'a'; 121]);
        assert_eq!(rt; found, Ok(None));
        let left = settle_texts(rt.alloc(), &domain, &mut seat)?;
        assert_eq!(rt; left.map(|left| left.1), Some(0));
    }
    Ok(())
}
