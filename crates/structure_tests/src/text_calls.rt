//! Single calls on a directory, after which the seat owns what it owned.
ghost use Rattle.std.specs.Prelude.{◌<◌, ◌≤◌, length};
ghost use Rattle.weak_intern.specs.directory_calls.Directories.{IsOver};
ghost use Rattle.structure_tests.specs.Texts.{HasLeft, IsReady, Owns, Spends};

use part_calls::{Domain, Seat, SlotId, Spent};
use std::sync::Wait;
use weak_intern::{
    Directory, DirectoryLaw, drop_strong, find, intern, let_go, raise, read_text, see,
};

/// Interns a text of 1 to 4,096 bytes, and gives the reference up. The slot of its record; None where it was refused.
pub(crate) fn intern_once<R: Wait>(
    rt: &R,
    domain: &Domain<DirectoryLaw>,
    seat: &mut Seat<DirectoryLaw>,
    directory: &Directory,
    text: &[u8],
) -> Option<SlotId>
    requires ready { IsReady domain.now seat.old }
    requires over { IsOver domain.now domain.now.protocol directory.now }
    requires left { HasLeft 1 seat.old }
    requires text { (1 ≤ length text.now) × (length text.now ≤ 4096) }
    ensures spends { Spends 1 seat.old seat.new }
    ensures owns { Owns seat.old seat.new }
    ensures ready { IsReady domain.now seat.new }
{
    let Ok(record) = intern(rt, domain, seat, directory, text) else {
        return None;
    };
    let slot = record.slot();
    drop_strong(domain, seat, record);
    Some(slot)
}

/// Interns a text of 1 to 4,096 bytes, and keeps the reference for good. The slot of its record; None where it was
/// refused.
pub(crate) fn intern_for_good<R: Wait>(
    rt: &R,
    domain: &Domain<DirectoryLaw>,
    seat: &mut Seat<DirectoryLaw>,
    directory: &Directory,
    text: &[u8],
) -> Option<SlotId>
    requires ready { IsReady domain.now seat.old }
    requires over { IsOver domain.now domain.now.protocol directory.now }
    requires left { HasLeft 1 seat.old }
    requires text { (1 ≤ length text.now) × (length text.now ≤ 4096) }
    ensures spends { Spends 1 seat.old seat.new }
    ensures ready { IsReady domain.now seat.new }
{
    let Ok(record) = intern(rt, domain, seat, directory, text) else {
        return None;
    };
    Some(record.slot())
}

/// Finds a text of 1 to 4,096 bytes, and gives the reference up. The slot of its record, or None where it had none;
/// `Spent` where no add is left.
pub(crate) fn find_once<R: Wait>(
    rt: &R,
    domain: &Domain<DirectoryLaw>,
    seat: &mut Seat<DirectoryLaw>,
    directory: &Directory,
    text: &[u8],
) -> Result<Option<SlotId>, Spent>
    requires ready { IsReady domain.now seat.old }
    requires over { IsOver domain.now domain.now.protocol directory.now }
    requires left { HasLeft 0 seat.old }
    requires text { (1 ≤ length text.now) × (length text.now ≤ 4096) }
    ensures spends { Spends 0 seat.old seat.new }
    ensures owns { Owns seat.old seat.new }
    ensures ready { IsReady domain.now seat.new }
{
    let found = find(rt, domain, seat, directory, text)?;
    let Some(record) = found else {
        return Ok(None);
    };
    let slot = record.slot();
    drop_strong(domain, seat, record);
    Ok(Some(slot))
}

/// The slot that a cell of the directory holds, or None where it is null.
pub(crate) fn slot_in<R: Wait>(
    rt: &R,
    domain: &Domain<DirectoryLaw>,
    seat: &mut Seat<DirectoryLaw>,
    directory: &Directory,
    cell: u32,
) -> Option<SlotId>
    requires ready { IsReady domain.now seat.old }
    requires over { IsOver domain.now domain.now.protocol directory.now }
    requires left { HasLeft 0 seat.old }
    requires inside { cell < directory.now.cells }
    ensures spends { Spends 0 seat.old seat.new }
    ensures owns { Owns seat.old seat.new }
    ensures ready { IsReady domain.now seat.new }
{
    let head = see(rt, domain, seat, directory, cell)?;
    let slot = head.slot;
    let_go(domain, seat, head);
    Some(slot)
}

/// Whether the record whose head a cell holds is alive, and has this text, which is read back whole.
pub(crate) fn read_once<R: Wait>(
    rt: &R,
    domain: &Domain<DirectoryLaw>,
    seat: &mut Seat<DirectoryLaw>,
    directory: &Directory,
    cell: u32,
    text: &[u8],
) -> bool
    requires ready { IsReady domain.now seat.old }
    requires over { IsOver domain.now domain.now.protocol directory.now }
    requires left { HasLeft 0 seat.old }
    requires inside { cell < directory.now.cells }
    ensures spends { Spends 0 seat.old seat.new }
    ensures owns { Owns seat.old seat.new }
    ensures ready { IsReady domain.now seat.new }
{
    let Some(head) = see(rt, domain, seat, directory, cell) else {
        return false;
    };
    let Ok(record) = raise(domain, seat, head, false) else {
        return false;
    };
    let mut bytes = [0; 4096];
    let size = read_text(domain, seat, record.slot(), &mut bytes);
    let same = &bytes[..size as usize] == text;
    drop_strong(domain, seat, record);
    same
}
