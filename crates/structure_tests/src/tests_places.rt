//! Texts whose walks begin at one cell, go around the end, and find every cell set.
ghost use Rattle.std.specs.Prelude.{◌<◌};
ghost use Rattle.weak_intern.specs.directory_calls.Directories.{IsOver};
ghost use Rattle.structure_tests.specs.Texts.{HasLeft, IsReady, Spends};

use crate::text_calls::{find_once, intern_for_good, read_once, slot_in};
use crate::text_opening::{WIDE, open_alone};
use part_calls::{Domain, Seat};
use std::sync::Wait;
use std::test::Fail;
use weak_intern::{Directory, DirectoryLaw};

/// Texts of one byte, and the cells in which their records come to stand. The bytes are 98, 102, 106 and 110, and the
/// walk of such a text begins at the byte's number and 1, modulo 4 cells: at cell 3, each of them. So the second walk
/// goes on around the end to cell 0, and the last one to cell 2.
const ROUND: [(u8, u32); 4] = [(b'b', 3), (b'f', 0), (b'j', 1), (b'n', 2)];

/// Whether a text of one byte, which is kept for good, gets its record in this cell.
fn is_put<R: Wait>(
    rt: &R,
    domain: &Domain<DirectoryLaw>,
    seat: &mut Seat<DirectoryLaw>,
    directory: &Directory,
    byte: u8,
    cell: u32,
) -> bool
    requires ready { IsReady domain.now seat.old }
    requires over { IsOver domain.now domain.now.protocol directory.now }
    requires left { HasLeft 1 seat.old }
    requires inside { cell < directory.now.cells }
    ensures spends { Spends 1 seat.old seat.new }
    ensures ready { IsReady domain.now seat.new }
{
    let before = slot_in(rt, domain, seat, directory, cell);
    let interned = intern_for_good(rt, domain, seat, directory, &[byte]);
    let after = slot_in(rt, domain, seat, directory, cell);
    before.is_none() && interned.is_some() && after == interned
}

/// Whether a text of one byte is found where its record stands, and read back.
fn is_there<R: Wait>(
    rt: &R,
    domain: &Domain<DirectoryLaw>,
    seat: &mut Seat<DirectoryLaw>,
    directory: &Directory,
    byte: u8,
    cell: u32,
) -> bool
    requires ready { IsReady domain.now seat.old }
    requires over { IsOver domain.now domain.now.protocol directory.now }
    requires left { HasLeft 0 seat.old }
    requires inside { cell < directory.now.cells }
    ensures spends { Spends 0 seat.old seat.new }
    ensures ready { IsReady domain.now seat.new }
{
    let found = find_once(rt, domain, seat, directory, &[byte]);
    let there = slot_in(rt, domain, seat, directory, cell);
    let read = read_once(rt, domain, seat, directory, cell, &[byte]);
    read && found == Ok(there)
}

/// Once every cell is set no intern is left, as the contract of `intern` asks; a fifth text that begins at the same
/// cell is looked for in all four cells.
#[test]
fn walks_go_around_the_end_until_every_cell_is_set(rt: HostRuntime) -> Result<(), Fail> {
    let (domain, mut seat) = open_alone(rt.alloc(), 4, 4, 8, WIDE)?;
    let directory = Directory::over(0, 4);
    for (byte, cell) in ROUND {
        assert!(rt;
            is_put(&rt, &domain, &mut seat, &directory, byte, cell),
            "{cell}"
        );
    }
    for (byte, cell) in ROUND {
        assert!(rt;
            is_there(&rt, &domain, &mut seat, &directory, byte, cell),
            "{cell}"
        );
    }
    assert_eq!(rt;
        find_once(&rt, &domain, &mut seat, &directory, b"r"),
        Ok(None)
    );
    Ok(())
}
