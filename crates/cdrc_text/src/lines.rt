//! The bytes of a report.

ghost use Rattle.std.specs.Prelude.{◌≡◌, ◌++◌, IfOk, OnOk};
ghost use Rattle.std.specs.Fmt.{decimal};
ghost use Rattle.cdrc_text.specs.Report.{audit_line, closing_lines, report_of, row_line};

use crate::row::{AuditLine, Row, Totals};
use itoa::Buffer;
use out_of_memory::OutOfMemory;
use std::alloc::Global;

/// The report: a line `OCCURRENCES HOLDERS WORD` for each row in the order given, then a line with the numbers of
/// files, pieces and rows, and the two audit lines. Linear in the bytes it writes.
pub fn report(alloc: Global, rows: &[Row<'_>], totals: &Totals) -> Result<Vec<u8>, OutOfMemory>
    ensures { IfOk result (λ text. text.items ≡ report_of rows.now totals.now) }
{
    let mut text = Vec::with_capacity(alloc, room_for(rows))?;
    for row in rows {
        push_row(&mut text, row)?;
    }
    push_closing(&mut text, rows.len() as u64, totals)?;
    Ok(text)
}

// The most bytes of a line beside its word: two numbers of twenty digits, two spaces and a line feed.
const LINE_ROOM: usize = 43;

// At least the bytes of the three lines after the rows.
const CLOSING_ROOM: usize = 512;

// Room for the whole report, so that it is written without growing.
fn room_for(rows: &[Row<'_>]) -> usize {
    let mut room = CLOSING_ROOM;
    for line in rows {
        room = room
            .saturating_add(LINE_ROOM)
            .saturating_add(line.word.len());
    }
    room
}

// Puts the line of a row at the end.
fn push_row(text: &mut Vec<u8>, row: &Row<'_>) -> Result<(), OutOfMemory>
    ensures { OnOk result (text.new.items ≡ text.old.items ++ row_line row.now) }
{
    push_number(text, b"", row.occurrences)?;
    push_number(text, b" ", row.holders)?;
    text.push(b' ')?;
    text.extend_from_slice(row.word)?;
    text.push(b'\n')?;
    Ok(())
}

// Puts the three lines after the rows at the end.
fn push_closing(text: &mut Vec<u8>, distinct: u64, totals: &Totals) -> Result<(), OutOfMemory>
    ensures { OnOk result (text.new.items ≡ text.old.items ++ closing_lines distinct totals.now) }
{
    push_number(text, b"files ", totals.files)?;
    push_number(text, b" pieces ", totals.pieces)?;
    push_number(text, b" distinct ", distinct)?;
    text.extend_from_slice(b"\n")?;
    push_audit(text, b"held", totals.held)?;
    push_audit(text, b"freed", totals.freed)
}

// Puts the line of an audit at the end.
fn push_audit(text: &mut Vec<u8>, name: &[u8], audit: AuditLine) -> Result<(), OutOfMemory>
    ensures { OnOk result (text.new.items ≡ text.old.items ++ audit_line name.now audit) }
{
    text.extend_from_slice(name)?;
    push_number(text, b" live ", audit.live)?;
    push_number(text, b" deferred ", audit.deferred)?;
    push_number(text, b" cyclic ", audit.cyclic)?;
    push_number(text, b" bytes ", audit.bytes)?;
    text.extend_from_slice(b"\n")?;
    Ok(())
}

/// Puts the label and then the number, in decimal, at the end of the text. A refusal, for an allocation failure,
/// leaves the text as it was or with the label alone behind it. Linear in the bytes it writes.
pub fn push_number(text: &mut Vec<u8>, label: &[u8], number: u64) -> Result<(), OutOfMemory>
    ensures { OnOk result (text.new.items ≡ text.old.items ++ label.now ++ decimal number) }
{
    text.extend_from_slice(label)?;
    let mut buffer = Buffer::new();
    text.extend_from_slice(buffer.format(number).as_bytes())?;
    Ok(())
}
