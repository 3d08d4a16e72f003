//! The split of a batch by the announcements that a scan has read, and an entry that joins a batch.
ghost use Rattle.std.specs.Prelude.{◌≡◌, ◌<◌, ◌≤◌, [], ◌∷◌, ◌++◌, true, length, take, vec_len, vec_capacity};
ghost use Rattle.std.specs.List.{filter};
ghost use Rattle.plain_state.specs.Steps.{joined};
ghost use Rattle.plain_state.specs.Ejection.{kept, ejected, ripened, ripens};
ghost use Rattle.dying_slots.specs.retire_batch.Entries.{entry_count};
ghost use Rattle.dying_slots.specs.eject_scan.Seen.{announced};

use core_promises::{Kind, SlotId};
use dying_slots::{Batch, Seen, has_slot};
use plain_state::Announced;

/// Splits the retired entries, and tells how many stay and how many go.
#[tactic(auto, using(plain_state::proofs::Ejections::split_length))]
pub(crate) fn split(batch: &mut Batch, seen: &Seen) -> (u32, u32)
    requires { batch.old.owed ≡ [] }
    ensures batch { let by = announced seen.now.rows in
        batch.new ≡ record batch.old {
          retired = kept batch.old.retired by;
          owed = ejected batch.old.retired by;
        } }
    ensures stay { result.0 ≡ length batch.new.retired }
    ensures go { result.1 ≡ length batch.new.owed }
{
    let all = batch.len();
    batch.split(seen);
    let stay = batch.len();
    (stay, all - stay)
}

/// Retires what a place of this kind held.
pub(crate) fn retire(batch: &mut Batch, kind: Kind, old: Option<SlotId>)
    requires { entry_count batch.old < batch.old.room }
    ensures { batch.new ≡ record batch.old { retired = joined kind old batch.old.retired } }
{
    if let Some(slot) = old {
        batch.push(kind, slot);
    }
}
