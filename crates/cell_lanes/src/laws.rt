//! What lanes take together, and what one has done that stopped.
ghost use Rattle.std.specs.Prelude.{ℕ, ◌≡◌, ◌+◌, ◌<◌, ◌++◌, List, sum_by};
ghost use Rattle.std.specs.List.{range_with_len};
ghost use Rattle.cell_intern.specs.cell_calls.Cells.{BindsAlone};
ghost use Rattle.cell_intern.specs.cell_calls.Keeping.{Keeps};
ghost use Rattle.cell_intern.specs.cell_calls.cell_law.declared.view.View.{View};
ghost use Rattle.cell_intern.specs.cell_calls.cell_protocol.declared.law.CellLaw.{CellLaw};
ghost use Rattle.cell_intern.specs.cell_making.Making.{MissesWithin};
ghost use Rattle.cell_intern.specs.epoch_refs.epoch_domain.Domains.{DomainState};
ghost use Rattle.cell_intern.specs.epoch_refs.epoch_domain.Seats.{SeatState};
ghost use Rattle.lane_work.specs.Keeping.{slots_of};
ghost use Rattle.lane_work.specs.Sizes.{slots_of_words};
ghost use Rattle.lane_work.specs.Work.{all_tickets};
ghost use Rattle.lane_work.specs.cdrc_text.Text.{slots_of_word};
ghost use Rattle.lane_work.specs.declared.lane.Lane.{Lane};
ghost use Rattle.lane_work.specs.declared.work.Work.{Work};
ghost use Rattle.cell_lanes.specs.Counting.{GrowsBy, adds_for};
ghost use Rattle.cell_lanes.specs.Lanes.{lane_tickets};
ghost use Rattle.cell_lanes.specs.Stopping.{IsOfMakes, Stops};
ghost use Rattle.cell_lanes.specs.declared.refusal.LaneStop.{LaneStop};
ghost use Rattle.cell_lanes.specs.declared.refusal.LaneStop.TheVariants as stopped;

/// Lanes 0 to n - 1 of n together take each ticket once: whatever number each ticket has, the sums that the lanes have
/// of their tickets come to the sum over all tickets.
pub fn lanes_share_tickets()
    ensures { (work : Work) (lanes : ℕ) (number_of : ℕ → ℕ) → 0 < lanes
        → sum_by (λ lane. sum_by number_of (lane_tickets work lanes lane))
        (range_with_len 0 lanes) ≡ sum_by number_of (range_with_len 0 (all_tickets work)) }
{}

/// A lane that stopped has used at most the makes and adds for all its words, and its seat owns besides what the lane
/// keeps more; its view lists heads of some of these words more. Where it stopped as `Full`, each slot of the domain
/// was found taken in the course of its run. Where no other seat may put heads into cells, one that stopped as
/// `MakesSpent` or `Full` has used fewer makes than the records that it bound have slots, with that of the word at
/// which it stopped.
pub fn stopped_lanes_keep()
    ensures keeps { (d : DomainState CellLaw) (words : List (List ℕ)) (stop : LaneStop)
        (old new : SeatState View) (before after : Lane)
        → (stops : Stops d words stop old new before after)
        → Keeps (slots_of_words words) (adds_for words)
        (old.view.core.owned ++ slots_of stops.counts.more) old new }
    ensures kept { (d : DomainState CellLaw) (words : List (List ℕ)) (stop : LaneStop)
        (old new : SeatState View) (before after : Lane)
        → (stops : Stops d words stop old new before after)
        → after.keeper.kept.items ≡ before.keeper.kept.items ++ stops.counts.more }
    ensures grows { (d : DomainState CellLaw) (words : List (List ℕ)) (stop : LaneStop)
        (old new : SeatState View) (before after : Lane)
        → Stops d words stop old new before after
        → GrowsBy words old.view.client new.view.client }
    ensures misses { (d : DomainState CellLaw) (words : List (List ℕ)) (old new : SeatState View)
        (before after : Lane) → Stops d words stopped.Full old new before after
        → MissesWithin d old new }
    ensures alone { (d : DomainState CellLaw) (words : List (List ℕ)) (stop : LaneStop)
        (old new : SeatState View) (before after : Lane)
        → (stops : Stops d words stop old new before after) → IsOfMakes stop → BindsAlone d old
        → new.view.core.makes < old.view.core.makes + slots_of_words stops.counts.grows.made
        + slots_of_word stops.word }
{}
