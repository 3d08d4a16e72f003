//! `example_program` is a whole program over [example_setting], of one thread: one seat stores a text and then another,
//! and a second seat, which reads the first text meanwhile, keeps it from being destroyed.
//!
//! It is proved that each call is one that its seat may make, and that the reader tells the first word of the value
//! that it read; by the law of a setting that value was stored. It isn't promised that there is memory for a domain.
//!
//! ```text
//! example_program
//! ```
#![tactic(auto)]

ghost use Rattle.std.specs.Prelude.{◌≡◌, ◌<◌, IfOk, IfSome};
ghost use Rattle.cdrc.specs.core_events.Steps.{HasRoom};
ghost use Rattle.cdrc.specs.control_word.Resting.{IsAtRest};
ghost use Rattle.example_program.specs.Telling.{TellsRead};

use cdrc::{
    Deleter, Domain, OpenError, Quota, RecordKind, Seat, Shape, collect, end, open_domain, read,
    reap, record_of,
};
use example_setting::{SettingLaw, read_value, store_value};
use std::alloc::Global;
use std::io;

/// Two seats, four slots and one strong cell.
const SHAPE: Shape = Shape {
    seats: 2,
    slots: 4,
    cells: 1,
    weak_cells: 0,
    batch: 1,
};

/// Two objects and no reference more.
const QUOTA: Quota = Quota { makes: 2, adds: 2 };

/// A setting of texts, in cell 0.
type Setting = SettingLaw<RecordKind>;

const CELL: u32 = 0;

/// A domain with the setting, and its two seats.
fn open(alloc: Global) -> Result<(Domain<Setting>, Seat<Setting>, Seat<Setting>), OpenError>
    ensures cell { IfOk result (λ r. r.0.protocol.cell ≡ 0) }
    ensures cells { IfOk result (λ r. r.0.shape.cells ≡ 1) }
    ensures first { IfOk result (λ r. IsAtRest r.0 r.1 × HasRoom r.1.view.core) }
    ensures second { IfOk result (λ r. IsAtRest r.0 r.2 × HasRoom r.2.view.core) }
{
    let (domain, mut seats) = open_domain(alloc, SHAPE, &[QUOTA, QUOTA], Setting::new(CELL))?;
    let first = seats.remove(0);
    let second = seats.remove(0);
    Ok((domain, first, second))
}

/// Gives up what nobody announces any more, and destroys one object that has ended: how long its text was.
fn tidy(domain: &Domain<Setting>, seat: &mut Seat<Setting>) -> Option<u64>
    requires rest { IsAtRest domain.now seat.old }
    requires room { HasRoom seat.old.view.core }
    ensures room { HasRoom seat.new.view.core }
    ensures rest { IsAtRest domain.now seat.new }
{
    let deleter: Deleter<RecordKind, _> = Deleter::keep(|payload: &[u64; 16]| payload[0]);
    collect(domain, seat);
    reap(domain, seat, &deleter)
}

/// What came of a text that was replaced while it was read.
#[derive(Drop)]
struct Replaced {
    /// What was destroyed while it was read.
    meanwhile: Option<u64>,
    /// How long the text was for its reader then.
    length: u64,
    /// What was destroyed once the reader had ended its snapshot.
    afterwards: Option<u64>,
}

/// The reader looks at the text, the writer stores another, and the reader goes on: what it tells is the length of the
/// text that it read. `None` where there is no text, or no other one can be stored.
fn replace(
    domain: &Domain<Setting>,
    writer: &mut Seat<Setting>,
    reader: &mut Seat<Setting>,
) -> Option<Replaced>
    requires writer { IsAtRest domain.now writer.old × HasRoom writer.old.view.core }
    requires reader { IsAtRest domain.now reader.old × HasRoom reader.old.view.core }
    requires cell { domain.now.protocol.cell ≡ 0 }
    requires there { 0 < domain.now.shape.cells }
    ensures { IfSome result
        (λ replaced. TellsRead replaced.length reader.old.view.client reader.new.view.client) }
{
    let seen = read_value(domain, reader, CELL).ok()??;
    store_value(domain, writer, CELL, &record_of(b"goodbye")).ok()?;
    // the first text isn't in the cell any more, and the reader is under a snapshot of it
    let meanwhile = tidy(domain, writer);
    let length = read(domain, reader, seen.slot(), 0);
    end(domain, reader, seen);
    let afterwards = tidy(domain, writer);
    Some(Replaced {
        meanwhile,
        length,
        afterwards,
    })
}

/// Stores a text, and replaces it while it is read.
fn run(alloc: Global) -> Option<Replaced> {
    let Ok((domain, mut writer, mut reader)) = open(alloc) else {
        return None;
    };
    let Ok(()) = store_value(&domain, &mut writer, CELL, &record_of(b"hello")) else {
        return None;
    };
    replace(&domain, &mut writer, &mut reader)
}

fn main(rt: HostRuntime) -> io::Result<()> {
    let Some(replaced) = run(rt.alloc()) else {
        return println!(rt; "no domain, or no text");
    };
    println!(rt; "destroyed while it is read: {:?}", replaced.meanwhile)?;
    println!(rt; "read: a text of {} bytes", replaced.length)?;
    println!(rt; "destroyed afterwards: {:?}", replaced.afterwards)
}
