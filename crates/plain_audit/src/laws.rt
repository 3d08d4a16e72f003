//! What follows from what an audit finds, whatever finds it.
ghost use Rattle.std.specs.Prelude.{ℕ, List, All};
ghost use Rattle.heap_audit.specs.plain_state.declared.slot.SlotId.{SlotId};
ghost use Rattle.heap_audit.specs.plain_state.State.{Plain};
ghost use Rattle.heap_audit.specs.plain_state.Lawful.{HasNullFields};
ghost use Rattle.cdrc_plain.specs.plain_store.Settling.{IsSettled};
ghost use Rattle.heap_audit.specs.declared.finding.Audit.{Audit};
ghost use Rattle.plain_audit.specs.Audits.{FindsSame, HasDistinctRanks, IsAudit};
ghost use Rattle.plain_audit.specs.Reached.{IsUnreached};

/// In a settled state all of whose fields are null nothing is unreached.
pub fn only_fields_make_cycles()
    ensures { (p : Plain) → IsSettled p → All HasNullFields p.slots
        → (s : SlotId) → IsUnreached p s → ⊥ }
{}

/// Where no two Live slots have one rank, all audits of a state find the same.
pub fn one_audit_is_found()
    ensures { (p : Plain) (weight : List ℕ → ℕ) (ranks : List ℕ) (one other : Audit)
        → HasDistinctRanks p ranks
        → IsAudit weight ranks p one → IsAudit weight ranks p other → FindsSame one other }
{}
