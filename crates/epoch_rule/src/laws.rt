//! Each event that a seat's own view allows keeps the rule.
ghost use Rattle.std.specs.Prelude.{ℕ, ◌≡◌, false, List};
ghost use Rattle.atomic_table.specs.Table.{Allows, Me};
ghost use Rattle.epoch_core.specs.declared.act.EpochAct.{EpochAct};
ghost use Rattle.epoch_core.specs.declared.shape.EpochShape.{EpochShape};
ghost use Rattle.epoch_core.specs.core_events.declared.shape.Quota.{Quota};
ghost use Rattle.epoch_core.specs.Steps.{May, next, place};
ghost use Rattle.epoch_rule.specs.declared.view.EpochSeatView.{EpochSeatView};
ghost use Rattle.epoch_rule.specs.Rule.{Kept};
ghost use Rattle.epoch_rule.specs.Told.{FitsStart, IsOwn, Told, deed_step};
ghost use Rattle.epoch_rule.specs.Views.{KnowsAll, own_of};

use domain_rule::{Deed, Protocol};

/// Where a seat may make an act, and a deed is ready for the plain step that deeds are told of it, the step keeps the
/// rule and tells the seat what it did.
pub fn epoch_step_keeps_rule<P: Protocol, D: Deed<P>>()
    ensures { (it : P) (deed : D) (z : EpochShape) (qs : List Quota) (a : EpochAct) (slots id : ℕ)
        (me : Me (Unit {0}) (EpochSeatView P.View))
        → me.0.gone ≡ false → KnowsAll me.0 → IsOwn a me.0 → May z a me.0.core
        → FitsStart P.Kind.fits a me.0
        → ((w : ℕ) → D.ready deed it (own_of me.0) me.0.client (deed_step a w me.0.core).0)
        → Allows (Kept (P.law it) (P.first it) P.gone P.Kind.fits z qs) slots id me
        (place z a me.0.core) (next a me.0.core)
        (λ w m. Told P.Kind.fits z qs (D.next deed it) (D.allows deed it) a me.0 w m.0
        × (m.1 ≡ me.1)) }
{}
