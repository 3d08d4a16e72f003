//! The meaning of a script.
ghost use Rattle.std.specs.Prelude.{◌≡◌, IfOk, None, IsSome, IfSome};
ghost use Rattle.script_law.specs.deleter.Weighing.{Weighs};
ghost use Rattle.script_law.specs.script_desk.Kinds.{IsScriptPayload, script_weight};
ghost use Rattle.cdrc_scripts.specs.Domains.{IsClosed, IsScriptOn, IsSettledDesk};
ghost use Rattle.cdrc_scripts.specs.Meaning.{IsScript};

use crate::scripting::ScriptMachine;
use domain_desk::{DomainDesk, Seat};
use line_machine::{OutOfMemory, Written, run_lines};
use script_law::{Deleter, NoLaw, ScriptKind};
use std::alloc::Global;

/// What a script wrote, whether a line was refused, and the seat of its domain, if its first line opened one.
#[derive(Drop)]
pub struct Scripted {
    pub written: Written,
    pub seat: Option<Seat<NoLaw<ScriptKind>>>,
}

/// What a script writes on a domain of one seat. The first line with words is `heap SLOTS CELLS WEAKCELLS`, with 1 to
/// 4,194,304 slots, at most 65,536 strong cells and 4,194,304 weak cells, and each later one a command. A line is
/// refused as `syntax`, `range`, `name` or `kind`, tested in this order. At the end all that names are bound to is
/// given up. Each command costs what its call of the domain does, a look into the table of names, and what settles; an
/// audit looks at each slot.
pub fn script(alloc: Global, text: &[u8]) -> Result<Scripted, OutOfMemory>
    ensures meaning { IfOk result (λ s. IsScript text.now s.written.text.items s.written.refused) }
    ensures on { IfOk result (λ s.
        IsScriptOn text.now s.written.text.items s.written.refused s.seat) }
{
    let weigh: Deleter<ScriptKind, _> = Deleter::keep(|payload: &[u64; 16]| payload[0]);
    let mut machine = ScriptMachine { desk: None };
    let written = run_lines(alloc, &mut machine, &weigh, text)?;
    Ok(Scripted {
        written,
        seat: close(machine.desk, &weigh),
    })
}

/// Gives up all that names are bound to, and answers the seat.
fn close<F: Fn(&[u64; 16]) -> u64>(
    desk: Option<DomainDesk>,
    weigh: &Deleter<ScriptKind, F>,
) -> Option<Seat<NoLaw<ScriptKind>>>
    requires settled { IsSettledDesk desk }
    requires weighs { Weighs IsScriptPayload script_weight F.Fn weigh.now }
    ensures { IsClosed desk result }
{
    let desk = desk?;
    let (_domain, seat) = desk.close(weigh);
    Some(seat)
}
