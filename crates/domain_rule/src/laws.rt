//! Each event that a seat's own view allows keeps the rule.
ghost use Rattle.std.specs.Prelude.{ℕ, ◌≡◌, false, List};
ghost use Rattle.atomic_table.specs.Table.{Allows, Me};
ghost use Rattle.core_law.specs.core_events.declared.act.Act.{Act};
ghost use Rattle.core_law.specs.core_events.declared.shape.Shape.{Shape};
ghost use Rattle.core_law.specs.core_events.Views.{Terms};
ghost use Rattle.core_law.specs.core_events.ShownSteps.{shown_act};
ghost use Rattle.core_law.specs.core_events.Steps.{May, next, place};
ghost use Rattle.domain_rule.specs.declared.view.SeatView.{SeatView};
ghost use Rattle.domain_rule.specs.Rule.{Kept};
ghost use Rattle.domain_rule.specs.Told.{FitsStart, IsOwn, Told};
ghost use Rattle.domain_rule.specs.Views.{KnowsAll, own_of};

use plain_protocol::{Deed, Protocol};

/// Where a seat may make an act, and a deed is ready for the plain step that the act shows, the step keeps the rule and
/// tells the seat what it did.
pub fn step_keeps<P: Protocol, D: Deed<P>>()
    ensures { (it : P) (deed : D) (z : Shape) (ts : Terms) (a : Act) (slots id : ℕ)
        (me : Me (Unit {0}) (SeatView P.View))
        → me.0.gone ≡ false → KnowsAll me.0 → IsOwn a me.0 → May z a me.0.core
        → FitsStart P.Kind.fits a me.0
        → ((w : ℕ) → D.ready deed it (own_of me.0) me.0.client (shown_act z a w me.0.core))
        → Allows (Kept (P.law it) (P.first it) P.gone P.Kind.fits z ts) slots id me
        (place z a me.0.core) (next a me.0.core)
        (λ w m. Told P.Kind.fits z ts (D.next deed it) (D.allows deed it) a me.0 w m.0 × (m.1 ≡ me.1)) }
{}
