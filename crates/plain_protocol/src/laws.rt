//! What no protocol need prove, and what the deeds and the protocol of this crate are.
ghost use Rattle.std.specs.Prelude.{◌≡◌, ◌↔◌, ℕ, List};
ghost use Rattle.plain_state.specs.declared.act.PlainAct.{PlainAct};
ghost use Rattle.plain_state.specs.Lawful.{Lawful};
ghost use Rattle.plain_state.specs.State.{Plain};
ghost use Rattle.plain_state.specs.Steps.{Does};
ghost use Rattle.plain_protocol.specs.Acts.{IsCalm};
ghost use Rattle.plain_protocol.specs.Calm.{IsCalmed};
ghost use Rattle.plain_protocol.specs.Laws.{KeepsFitting};
ghost use Rattle.plain_protocol.specs.Owns.{OwnPart};
ghost use Rattle.plain_protocol.specs.declared.deed.Still.{Still};
ghost use Rattle.plain_protocol.specs.declared.no_law.AnyStep.{AnyStep};
ghost use Rattle.plain_protocol.specs.declared.no_law.NoLaw.{NoLaw};

use crate::deed::{Deed, Still};
use crate::no_law::{AnyStep, NoLaw};
use crate::protocol::Protocol;
use plain_state::PayloadKind;

/// Whatever the kind, the payloads of all objects go on to fit it: a payload changes only in a blank slot.
pub fn fits_stay<K: PayloadKind>()
    ensures { KeepsFitting K.fits }
{}

/// What a protocol may rest on where it proves that calm steps keep its law: they leave every cell, the tickets, the
/// life and the mark of every slot, and the payload and the fields of every live one; they make no slot live; and what
/// a weak cell holds goes on to be an object, with its payload.
pub fn calm_steps_leave()
    ensures { (p q : Plain) (n : ℕ) (step : PlainAct) (found : ℕ) → Lawful p → IsCalm step
        → Does p n step found q → IsCalmed p q }
{}

/// `Still` is ready exactly at calm steps, so at none that makes an object or replaces what a place holds; it leaves
/// the view, and tells so. The call does nothing.
pub fn still_is_calm<P: Protocol>()
    ensures ready { (it : Still) (of : P) (own : OwnPart) (v : P.View) (step : PlainAct)
        → ⟦<Still as Deed<P>>⟧.ready it of own v step ↔ IsCalm step }
    ensures next { (it : Still) (of : P) (own after : OwnPart) (v : P.View) (step : PlainAct)
        (found : ℕ) → ⟦<Still as Deed<P>>⟧.next it of own after v step found ≡ v }
    ensures allows { (it : Still) (of : P) (p q : Plain) (n : ℕ) (v w : P.View)
        → ⟦<Still as Deed<P>>⟧.allows it of p q n v w ↔ (w ≡ v) }
{}

/// `NoLaw` holds of every state and all views, and owns nothing. The call does nothing.
pub fn no_law_owns_nothing<K: PayloadKind>()
    ensures law { (it : NoLaw K) (p : Plain) (views : List (Unit {0}))
        → ⟦<NoLaw<K> as Protocol>⟧.law it p views }
    ensures cells { (it : NoLaw K) (i : ℕ) → ¬ (⟦<NoLaw<K> as Protocol>⟧.owns_cell it i) }
    ensures weak_cells { (it : NoLaw K) (i : ℕ)
        → ¬ (⟦<NoLaw<K> as Protocol>⟧.owns_weak_cell it i) }
    ensures payloads { (it : NoLaw K) (words : List ℕ)
        → ¬ (⟦<NoLaw<K> as Protocol>⟧.owns_payload it words) }
    ensures tickets { (it : NoLaw K) → ¬ (⟦<NoLaw<K> as Protocol>⟧.owns_tickets it) }
{}

/// `AnyStep` is ready at every step. The call does nothing.
pub fn any_step_is_ready<K: PayloadKind>()
    ensures { (it : AnyStep) (of : NoLaw K) (own : OwnPart) (v : Unit {0}) (step : PlainAct)
        → ⟦<AnyStep as Deed<NoLaw<K>>>⟧.ready it of own v step }
{}
