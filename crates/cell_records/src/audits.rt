//! The audit of the whole state, once it has settled.
ghost use Rattle.std.specs.Prelude.{◌≡◌, ℕ, IfOk, length};
ghost use Rattle.cell_records.specs.Audits.{IsAudited};
ghost use Rattle.cell_records.specs.Clearing.{KnowsNull};
ghost use Rattle.cell_records.specs.Root.{IsRoot};
ghost use Rattle.cell_rest.specs.deleter.Weighing.{Weighs};
ghost use Rattle.cell_rest.specs.directory_law.Bytes.{IsPiece, piece_weight};
ghost use Rattle.epoch_alone.specs.epoch_settling.Settling.{StaysBut};
ghost use Rattle.cell_rest.specs.record_counts.Written.{line_of};

use cell_intern::{CellLaw, EpochDomain, EpochSeat, RecordKind, e_image};
use cell_rest::{Audit, Deleter, Heap, audit};
use epoch_alone::{learn_law, settle_alone};
use std::alloc::Global;
use std::sync::Wait;
use tally_sums::{AuditLine, OutOfMemory};

/// An image of the whole state, and what an audit found of it.
#[derive(Drop)]
pub struct Audited {
    pub image: Heap,
    pub found: Audit,
}

/// The numbers of an audit, without the walk round a cycle.
pub fn audit_line(found: &Audit) -> AuditLine
    ensures { result ≡ line_of found.now }
{
    AuditLine {
        live: found.live,
        deferred: found.deferred,
        cyclic: found.cyclic,
        bytes: found.bytes,
    }
}

/// A rank for each slot: its number.
pub fn list_ranks(alloc: Global, slots: u32) -> Result<Vec<u64>, OutOfMemory>
    ensures { IfOk result (λ ranks. length ranks.items ≡ slots) }
{
    let mut ranks = Vec::with_capacity(alloc, slots as usize)?;
    for slot in 0..slots {
        ranks.push(slot as u64)?;
    }
    Ok(ranks)
}

/// Settles, where all cells are null, and audits the whole state. `OutOfMemory` comes of an allocation failure. It may
/// go on for ever past epoch 2^62.
pub fn audit_at_rest<R: Wait, F: Fn(&[u64; 16]) -> u64>(
    rt: &R,
    alloc: Global,
    domain: &EpochDomain<CellLaw>,
    root: &mut EpochSeat<CellLaw>,
    weigh: &Deleter<RecordKind, F>,
    rank: &[u64],
) -> Result<Audited, OutOfMemory>
    requires ready { IsRoot domain.now root.old }
    requires null { KnowsNull root.old }
    requires weighs { Weighs IsPiece piece_weight F.Fn weigh.now }
    requires ranked { length rank.now ≡ domain.now.shape.slots }
    ensures audited { IfOk result (λ audited.
        IsAudited domain.now rank.now root.new audited.image audited.found) }
    ensures stays { StaysBut root.old root.new }
    ensures ready { IsRoot domain.now root.new }
{
    settle_alone(rt, alloc, domain, root, weigh)?;
    learn_law(domain, root);
    let image = e_image(alloc, domain, root)?;
    let found = audit(alloc, &image, weigh, rank)?;
    Ok(Audited { image, found })
}
