//! The bytes of an index.

ghost use Rattle.std.specs.Prelude.{◌≡◌, ◌++◌, IfOk, OnOk};
ghost use Rattle.cdrc_text.specs.Report.{audit_line};
ghost use Rattle.number_text.specs.Report.{closing_lines, index_of, row_line};

use crate::row::{CountOf, IndexTotals};
use cdrc_text::{AuditLine, OutOfMemory, push_number};
use std::alloc::Global;

// The most bytes of a line: two numbers of twenty digits, a space and a line feed.
const LINE_ROOM: usize = 42;

// At least the bytes of the three lines after the rows.
const CLOSING_ROOM: usize = 512;

/// The index: a line `COUNT NUMBER` for each row in the order given, then a line with the numbers of files, numbers,
/// rows and skipped fields, and the two audit lines. Linear in the bytes it writes.
pub fn index_report(
    alloc: Global,
    rows: &[CountOf],
    totals: &IndexTotals,
) -> Result<Vec<u8>, OutOfMemory>
    ensures { IfOk result (λ text. text.items ≡ index_of rows.now totals.now) }
{
    // Room for the whole index, so that it is written without growing.
    let room = rows
        .len()
        .saturating_mul(LINE_ROOM)
        .saturating_add(CLOSING_ROOM);
    let mut text = Vec::with_capacity(alloc, room)?;
    for row in rows {
        push_row(&mut text, row)?;
    }
    push_closing(&mut text, rows.len() as u64, totals)?;
    Ok(text)
}

// Puts the line of a row at the end.
fn push_row(text: &mut Vec<u8>, row: &CountOf) -> Result<(), OutOfMemory>
    ensures { OnOk result (text.new.items ≡ text.old.items ++ row_line row.now) }
{
    push_number(text, b"", row.count)?;
    push_number(text, b" ", row.number)?;
    text.push(b'\n')?;
    Ok(())
}

// Puts the three lines after the rows at the end.
fn push_closing(text: &mut Vec<u8>, distinct: u64, totals: &IndexTotals) -> Result<(), OutOfMemory>
    ensures { OnOk result (text.new.items ≡ text.old.items ++ closing_lines distinct totals.now) }
{
    push_number(text, b"files ", totals.files)?;
    push_number(text, b" numbers ", totals.numbers)?;
    push_number(text, b" distinct ", distinct)?;
    push_number(text, b" skipped ", totals.skipped)?;
    text.push(b'\n')?;
    push_audit(text, b"held", totals.held)?;
    push_audit(text, b"freed", totals.freed)
}

// Puts the line of an audit at the end.
fn push_audit(text: &mut Vec<u8>, name: &[u8], audit: AuditLine) -> Result<(), OutOfMemory>
    ensures { OnOk result (text.new.items ≡ text.old.items ++ audit_line name.now audit) }
{
    text.extend_from_slice(name)?;
    push_number(text, b" live ", audit.live)?;
    push_number(text, b" deferred ", audit.deferred)?;
    push_number(text, b" cyclic ", audit.cyclic)?;
    push_number(text, b" bytes ", audit.bytes)?;
    text.push(b'\n')?;
    Ok(())
}
