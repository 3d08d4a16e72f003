//! That no node of the queue is left, and nothing that only a cycle keeps.
ghost use Rattle.std.specs.Prelude.{◌≡◌, ◌≤◌, ℕ, List, None};
ghost use Rattle.plain_audit.specs.plain_state.declared.act.EventPlace.TheVariants.{Cell};
ghost use Rattle.plain_audit.specs.plain_state.declared.act.PlainAct.{PlainAct};
ghost use Rattle.plain_audit.specs.plain_state.Lawful.{Lawful};
ghost use Rattle.plain_audit.specs.plain_state.Places.{content};
ghost use Rattle.plain_audit.specs.plain_state.State.{Plain};
ghost use Rattle.plain_audit.specs.plain_state.Steps.{Does};
ghost use Rattle.plain_audit.specs.plain_protocol.Acts.{IsCalm};
ghost use Rattle.plain_audit.specs.plain_protocol.Laws.{Meets};
ghost use Rattle.words_law.specs.queue_law.declared.view.View.{View as QueueView};
ghost use Rattle.words_law.specs.queue_law.Views as queue;
ghost use Rattle.words_law.specs.queue_law.Chain.{Ends};
ghost use Rattle.words_law.specs.queue_law.Law.{QueueLaw};
ghost use Rattle.words_law.specs.directory_law.Cells.{Area};
ghost use Rattle.plain_audit.specs.Audits.{IsAudit, deferred_entries};
ghost use Rattle.words_law.specs.Law.{WordsLaw};
ghost use Rattle.words_law.specs.Texts.{AllPieces};
ghost use Rattle.words_law.specs.Views.{View};
ghost use Rattle.words_rest.specs.Needed.{HasNodeLeft};
ghost use Rattle.words_rest.specs.Nodes.{HasNoNode, HasNoNodeAsItem, IsAllReached};
ghost use Rattle.words_rest.specs.Rest.{IsLeft, Rests};

use plain_audit::Audit;

/// No node of the queue is left where none is another one's item: it would be referred to from field 0 of a node, and
/// that one too, without end. None is left either where nothing is unreached, as where an audit counts no such slot.
/// Where none is left, none comes by calm steps, as seat 0 makes them that gives up what it owns and settles. The head
/// cell of a queue that was shut is null.
pub fn no_node_is_left()
    ensures items { (u : Ends) (z : Area) (p : Plain) (views : List View)
        → Meets (WordsLaw u z) p views → AllPieces p → IsLeft p views → HasNoNodeAsItem p
        → HasNoNode p }
    ensures reached { (u : Ends) (z : Area) (p : Plain) (views : List View)
        → Meets (WordsLaw u z) p views → AllPieces p → IsLeft p views → IsAllReached p
        → HasNoNode p }
    ensures audited { (u : Ends) (z : Area) (p : Plain) (views : List View)
        → Meets (WordsLaw u z) p views → AllPieces p → IsLeft p views
        → (weight : List ℕ → ℕ) (ranks : List ℕ) (found : Audit) → IsAudit weight ranks p found
        → found.cyclic ≡ 0 → HasNoNode p }
    ensures stays { (p q : Plain) (n : ℕ) (step : PlainAct) (found : ℕ) → Lawful p → IsCalm step
        → Does p n step found q → HasNoNode p → HasNoNode q }
    ensures shut { (u : Ends) (p : Plain) (views : List QueueView) → QueueLaw u p views
        → 3 ≤ (queue.view_at views 0).stand.laid → content p (Cell u.head) ≡ None }
{}

/// Where no node is left nothing is unreached. In a state at rest nothing is deferred.
pub fn nothing_is_unreached()
    ensures all { (u : Ends) (z : Area) (p : Plain) (views : List View)
        → Meets (WordsLaw u z) p views → AllPieces p → IsLeft p views → HasNoNode p
        → IsAllReached p }
    ensures deferred { (p : Plain) → Rests p → deferred_entries p ≡ 0 }
{}

/// The law alone doesn't tell that no node is left: there is a state that is as asked, in which the queue is shut and
/// nothing was left, and yet a node lives, which its own field 1 holds.
pub fn a_node_may_hold_itself()
    ensures { (u : Ends) (z : Area) → (p : Plain) × (views : List View) × HasNodeLeft u z p views }
{}
