//! What holds of desks that are alike.
ghost use Rattle.std.specs.Prelude.{◌≡◌, ℕ, Option, length};
ghost use Rattle.script_desk.specs.line_words.declared.reason.Reason.{Reason};
ghost use Rattle.script_desk.specs.plain_state.declared.slot.SlotId.{SlotId};
ghost use Rattle.script_desk.specs.plain_state.Sound.{Sound};
ghost use Rattle.script_desk.specs.plain_state.State.{Plain};
ghost use Rattle.script_desk.specs.plain_store.Settling.{IsSettled};
ghost use Rattle.script_desk.specs.plain_settling.Settling.{TidiesTo};
ghost use Rattle.script_desk.specs.script_lines.declared.command.Command.{Command};
ghost use Rattle.script_desk.specs.declared.said.Said.{Said};
ghost use Rattle.script_desk.specs.Desks.{Desk, scope_of};
ghost use Rattle.script_desk.specs.Effects.{Runs};
ghost use Rattle.script_desk.specs.Faults.{IsFault, IsFaultless};
ghost use Rattle.script_law.specs.Desks.{Alike};
ghost use Rattle.script_law.specs.Orderly.{IsFresh, IsOrderly};
ghost use Rattle.script_law.specs.Renamings.{IsRenaming};
ghost use Rattle.script_law.specs.SaidAlike.{SaidAlike};
ghost use Rattle.script_law.specs.States.{StatesAlike};

/// A desk is alike to itself; what is alike to it is so the other way round; and what is alike to that is alike to it.
pub fn alike_is_an_equivalence()
    ensures itself { (d : Desk) → Alike d d }
    ensures back { (d e : Desk) → Alike d e → Alike e d }
    ensures on { (d e f : Desk) → Alike d e → Alike e f → Alike d f }
{}

/// Desks of as many slots, cells and weak cells, of which no command was run, are alike, and orderly.
pub fn fresh_desks_are_alike()
    ensures alike { (slots cells weak_cells : ℕ) (d e : Desk)
        → IsFresh slots cells weak_cells d → IsFresh slots cells weak_cells e → Alike d e }
    ensures orderly { (slots cells weak_cells : ℕ) (d : Desk)
        → IsFresh slots cells weak_cells d → IsOrderly d }
{}

/// A command without a fault leaves an orderly desk orderly, once the heap has settled.
pub fn orderly_desks_stay_orderly()
    ensures { (d f : Desk) (c : Command) (a : Said) → IsOrderly d → IsFaultless (scope_of d) c
        → Runs d c a f → IsOrderly f }
{}

/// Desks that are alike refuse the same commands, for the same reasons.
pub fn alike_desks_have_the_same_faults()
    ensures { (d e : Desk) (c : Command) (fault : Option Reason) → Alike d e
        → IsFault (scope_of d) c fault → IsFault (scope_of e) c fault }
{}

/// However a state is tidied until nothing more may go, the same is left: the same objects, with the same fields, the
/// same husks and free slots, and of each entry as many that wait. So it is with two states that are alike.
pub fn tidying_has_one_end()
    ensures one { (p q r : Plain) → Sound p → length p.seats ≡ 1
        → TidiesTo p q → IsSettled q → TidiesTo p r → IsSettled r → StatesAlike (λ s. s) q r }
    ensures two { (to from : SlotId → SlotId) (p p' q q' : Plain)
        → IsRenaming (length p.slots) to from → StatesAlike to p p' → Sound p → Sound p'
        → length p.seats ≡ 1 → length p'.seats ≡ 1
        → TidiesTo p q → IsSettled q → TidiesTo p' q' → IsSettled q' → StatesAlike to q q' }
{}

/// A command at desks that are alike answers alike and leaves desks that are alike, whichever free slot it takes and in
/// whichever order the heap settles.
pub fn commands_answer_alike()
    ensures { (d e f g : Desk) (c : Command) (a b : Said) → IsOrderly d → IsOrderly e → Alike d e
        → IsFaultless (scope_of d) c → Runs d c a f → Runs e c b g
        → SaidAlike a b × Alike f g }
{}
