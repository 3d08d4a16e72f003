//! What the law gives a caller.
ghost use Rattle.std.specs.Prelude.{◌≡◌, ◌≢◌, ◌≤◌, ℕ, suc, List};
ghost use Rattle.plain_protocol.specs.plain_state.State.{Plain, no_payload};
ghost use Rattle.queue_law.specs.Words.{cell_at, slot_at, Live};
ghost use Rattle.queue_law.specs.Views.{Item, view_at};
ghost use Rattle.queue_law.specs.Chain.{Ends};
ghost use Rattle.queue_law.specs.Lists.{pushed_times, popped_times};
ghost use Rattle.queue_law.specs.Lessons.{NothingLinked};
ghost use Rattle.queue_law.specs.Law.{QueueLaw};
ghost use Rattle.queue_law.specs.Promises.{Conserved, InOrder, LeftOver, Far, NoFlights};

use crate::view::View;

/// While the head cell isn't null, each item stands in all pushed lists together as often as in all popped lists and
/// among the waiting items together.
#[tactic(auto, using(crate::proofs::Gives::conserved))]
pub fn nothing_is_lost()
    ensures { (u : Ends) (p : Plain) (views : List View) → QueueLaw u p views
        → cell_at p u.head ≢ 0 → Conserved u p views }
{}

/// Where nothing is linked behind the head's slot and, in a doubly linked queue, no push is in flight, each item was
/// popped as often as it was pushed.
#[tactic(auto, using(crate::proofs::Empties::all_popped))]
pub fn all_is_popped()
    ensures { (u : Ends) (p : Plain) (views : List View) → QueueLaw u p views
        → NothingLinked u p → NoFlights u views
        → (x : Item) → pushed_times x views ≡ popped_times x views }
{}

/// There is one order of all pushes, in which each seat's stand as it made them. The pops are its first ones, and each
/// seat's stand as it made them; the others wait, in this order.
#[tactic(auto, using(crate::proofs::Gives::in_order))]
pub fn all_in_order()
    ensures { (u : Ends) (p : Plain) (views : List View) → QueueLaw u p views
        → cell_at p u.head ≢ 0 → InOrder u p views }
{}

/// Once the head cell was cleared, what was left stands in place of what waits.
#[tactic(auto, using(crate::proofs::Shut::left_over))]
pub fn what_was_left()
    ensures { (u : Ends) (p : Plain) (views : List View) → QueueLaw u p views
        → 3 ≤ (view_at views 0).stand.laid → LeftOver views (view_at views 0).stand.left }
{}

/// No node reaches itself along field 0, linked or not.
#[tactic(auto, using(crate::proofs::Cycles::law_no_cycle))]
pub fn no_cycles()
    ensures { (u : Ends) (p : Plain) (views : List View) → QueueLaw u p views → (s d : ℕ) → Live p s
        → (slot_at p s).payload ≡ no_payload → Far p (suc d) s s → ⊥ }
{}
