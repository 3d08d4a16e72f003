//! What other steps than the deeds leave of the law, and of the map.
ghost use Rattle.std.specs.Prelude.{ℕ, List};
ghost use Rattle.plain_protocol.specs.plain_state.declared.act.PlainAct.{PlainAct};
ghost use Rattle.plain_protocol.specs.plain_state.declared.act.PlainAct.TheVariants as act;
ghost use Rattle.plain_protocol.specs.plain_state.State.{Plain};
ghost use Rattle.plain_protocol.specs.plain_state.Steps.{Does};
ghost use Rattle.plain_protocol.specs.Acts.{IsCalm, IsForeign};
ghost use Rattle.plain_protocol.specs.Laws.{KeptByCalm, KeptByForeign, KeptByLeave, Meets, Starts};
ghost use Rattle.map_law.specs.Views.{View, first_view, gone, joined};
ghost use Rattle.map_law.specs.Nodes.{KeepsMap};
ghost use Rattle.map_law.specs.Law.{MapLaw, owns};

/// The law holds of the state with nothing in it and the first views. Calm steps keep it, and so do steps that leave
/// alone what the map owns, and a seat that leaves, whose view joins that of seat 0.
pub fn others_keep_the_law()
    ensures start { (c : ℕ) → Starts (MapLaw c) first_view }
    ensures calm { (c : ℕ) → KeptByCalm (MapLaw c) }
    ensures foreign { (c : ℕ) → KeptByForeign (MapLaw c) (owns c) }
    ensures leave { (c : ℕ) → KeptByLeave (MapLaw c) joined gone }
{}

/// None of these steps changes the map: the root cell holds what it held, and the tree that hangs on it is the same.
pub fn others_keep_the_map()
    ensures calm { (c : ℕ) (p q : Plain) (n : ℕ) (step : PlainAct) (found : ℕ)
        (views : List View) → Meets (MapLaw c) p views → IsCalm step → Does p n step found q
        → KeepsMap c p q }
    ensures foreign { (c : ℕ) (p q : Plain) (n : ℕ) (step : PlainAct) (found : ℕ)
        (views : List View) → Meets (MapLaw c) p views → IsForeign (owns c) p step
        → Does p n step found q → KeepsMap c p q }
    ensures leave { (c : ℕ) (p q : Plain) (j found : ℕ) (views : List View)
        → Meets (MapLaw c) p views → Does p 0 (act.Leave j) found q → KeepsMap c p q }
{}
